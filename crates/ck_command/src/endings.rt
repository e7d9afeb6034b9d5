//! How a run ends: the status of the program, and the line on standard error.
ghost use Rattle.std.specs.Prelude.{◌≡◌, ◌≤◌, OnOk, OnErr};
ghost use Rattle.std.specs.Io.KnownBytes.{Appends};
ghost use Rattle.ck_devices.specs.Causes.{Stops};
ghost use Rattle.ck_command.specs.Endings.{status_of};
ghost use Rattle.ck_command.specs.Lines.{name_of, line, line_of, AppendsFront, Tells};

use ck_devices::{Failed, Sink, write_whole};
use ck_server::End;

/// How a run ends.
#[derive(Clone, Copy, Debug)]
pub enum Ending<'a> {
    Done,
    DeviceFault,
    WrongWords,
    BadFile(&'a str),
    Early(End),
    OutOfMemory,
}

impl Ending<'_> {
    /// The status of the program.
    pub fn status(&self) -> u8
        ensures status { result ≡ status_of self.now }
        ensures fault { result ≡ 1 → self.now ≡ Ending.DeviceFault }
        ensures bound { result ≤ 5 }
    {
        match self {
            Ending::Done => 0,
            Ending::DeviceFault => 1,
            Ending::WrongWords => 2,
            Ending::BadFile(_) => 3,
            Ending::Early(_) => 4,
            Ending::OutOfMemory => 5,
        }
    }

    /// Says on standard error why the status is not 0, in a line of its own.
    pub fn report<E: Sink>(&self, errors: &mut E)
        ensures { Tells (E.held errors.old) (E.held errors.new)
            (E.failures errors.old) (E.failures errors.new) (line_of self.now) }
    {
        match self {
            Ending::Done => {}
            Ending::DeviceFault => tell(errors, "device fault", ""),
            Ending::WrongWords => tell(errors, "wrong words", ""),
            Ending::BadFile(name) => tell(errors, "bad file ", name),
            Ending::Early(end) => tell(errors, "ended: ", name_of(*end)),
            Ending::OutOfMemory => tell(errors, "out of memory", ""),
        }
    }
}

// Writes a line. Where that fails nothing else is done.
fn tell<E: Sink>(errors: &mut E, text: &str, about: &str)
    ensures { Tells (E.held errors.old) (E.held errors.new)
        (E.failures errors.old) (E.failures errors.new) (line text.now about.now) }
{
    let _ = write_line(errors, text, about);
}

// Writes a text, what it is about, and a line feed.
fn write_line<E: Sink>(errors: &mut E, text: &str, about: &str) -> Result<(), Failed>
    ensures ok { OnOk result (Appends (E.held errors.old) (E.held errors.new) (line text.now about.now)) }
    ensures err { OnErr result (AppendsFront (E.held errors.old) (E.held errors.new) (line text.now about.now)) }
    ensures cause { Stops (E.failures errors.old) (E.failures errors.new) result }
{
    write_whole(errors, text.as_bytes())?;
    write_whole(errors, about.as_bytes())?;
    write_whole(errors, b"\n")
}

fn name_of(end: End) -> &'static str
    ensures { result.now ≡ name_of end }
{
    match end {
        End::Closed => "Closed",
        End::CloseAsked => "CloseAsked",
        End::Cut => "Cut",
        End::BadHead => "BadHead",
        End::HeadTooLong => "HeadTooLong",
        End::NoLength => "NoLength",
        End::BodyTooLong => "BodyTooLong",
        End::Spent => "Spent",
        End::NotBuilt => "NotBuilt",
    }
}
