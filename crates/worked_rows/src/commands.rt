// A run of the command over devices in memory, and what came of it.
use crate::talking::{sink_of, source_of, words_of};
use case_files::{Device, Outcome, Scenario, Trial, quoted};
use ck_base::{Bytes, NoMemory, Text};
use ck_command::run_command;
use ck_devices::{FixedClock, MemShelf};
use std::alloc::Global;

/// What comes of these words and bytes in one run.
pub fn run(
    alloc: Global,
    words: &str,
    scenario: &Scenario,
    trial: &Trial,
    bytes: &[u8],
) -> Result<Outcome, NoMemory> {
    let mut source = source_of(alloc, trial, bytes)?;
    let mut sink = sink_of(alloc, trial, Device::Write)?;
    let mut errors = sink_of(alloc, trial, Device::Errors)?;
    let mut drawn = words_of(alloc, trial, scenario)?;
    let mut shelf = shelf_of(alloc, scenario, trial)?;
    let args = args_of(alloc, words)?;
    let status = run_command(
        alloc,
        &args,
        &mut shelf,
        &mut source,
        &mut sink,
        &mut errors,
        &mut FixedClock(scenario.settings.moment),
        &mut drawn,
    );
    let mut outcome = Outcome::new(alloc, sink.bytes().to_vec(alloc)?);
    outcome.facts.tell_number("status", u64::from(status), 0)?;
    let line = quoted(alloc, errors.bytes())?;
    outcome.facts.tell_usual("stderr", line, "\"\"")?;
    Ok(outcome)
}

// The words behind `run`.
fn args_of(alloc: Global, words: &str) -> Result<Vec<Text>, NoMemory> {
    let mut args = Vec::new(alloc);
    for word in words.split_whitespace() {
        args.push(Text::from_str(alloc, word)?)?;
    }
    Ok(args)
}

fn shelf_of(alloc: Global, scenario: &Scenario, trial: &Trial) -> Result<MemShelf, NoMemory> {
    let mut files = Vec::new(alloc);
    for (name, bytes) in &scenario.files {
        let name = Text::from_str(alloc, name.as_str())?;
        files.push((name, Bytes::from_slice(alloc, bytes)?))?;
    }
    Ok(MemShelf::new(files, trial.fails_of(alloc, Device::Shelf)?))
}
