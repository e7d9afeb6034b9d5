//! `ckd`, the server, over the devices of the system.
#![tactic(auto)]

ghost use Rattle.std.specs.Prelude.{◌≡◌, ◌↔◌, None};
ghost use Rattle.ck_command.specs.Arguments.{asked_by};

use ck_base::Text;
use ck_command::{Ending, dispatch, end_with};
use ck_devices::{FolderShelf, RandomDevice, ReaderSource, SystemClock, WriterSink};
use std::io::ErrorKind;
use std::process::ExitCode;
use std::{env, io};

// The words of the command line.
fn command_line(rt: &HostRuntime) -> io::Result<Vec<Text>> {
    let mut words = Vec::new(rt.alloc());
    for word in env::args(rt)?.skip(1) {
        words.push(Text::from_str(rt.alloc(), word.as_str())?)?;
    }
    Ok(words)
}

// The name of the current folder.
fn current_folder(rt: &HostRuntime) -> io::Result<Text> {
    Ok(Text::from_str(rt.alloc(), "")?)
}

// What the words ask for, over the devices of the system. The answer is the status of the program.
fn run_on_system(rt: HostRuntime, words: &[Text], folder: Text) -> u8
    ensures { (result ≡ 2) ↔ (asked_by words.now ≡ None) }
{
    dispatch(
        rt.alloc(),
        words,
        &mut FolderShelf::new(rt, folder),
        &mut ReaderSource::new(rt.stdin()),
        &mut WriterSink::new(rt.stdout()),
        &mut WriterSink::new(rt.stderr()),
        &mut SystemClock::new(rt),
        &mut RandomDevice::new(rt),
    )
}

// How a run ends whose words could not be read: memory ran out, or they are no text.
fn ending_without_words<'a>(kind: ErrorKind) -> Ending<'a> {
    match kind {
        ErrorKind::OutOfMemory => Ending::OutOfMemory,
        _ => Ending::WrongWords,
    }
}

fn main(rt: HostRuntime) -> ExitCode {
    let (words, folder) = match (command_line(&rt), current_folder(&rt)) {
        (Ok(words), Ok(folder)) => (words, folder),
        (Err(error), _) | (_, Err(error)) => {
            let ending = ending_without_words(error.kind());
            return ExitCode::from(end_with(&mut WriterSink::new(rt.stderr()), ending));
        }
    };
    ExitCode::from(run_on_system(rt, &words, folder))
}
