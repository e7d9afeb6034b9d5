//! Answers the rows of case files, and tells each that is answered otherwise than its file says.
#![tactic(auto)]

mod commands;
mod talking;

use case_files::{Call, Outcome, Report, Row, Scenario, Trial, trials_of};
use ck_base::NoMemory;
use commands::run;
use http_front::{Users, read_users};
use std::alloc::Global;
use std::process::ExitCode;
use std::rt::{Env, Files};
use std::{env, fs};
use talking::talk;
use wire_rows::{TABLE, answer_to};

fn answer_call(alloc: Global, call: &Call, report: &mut Report) -> Result<(), NoMemory> {
    let got = answer_to(alloc, call.name.as_str(), call.text.as_str())?;
    let got = got.as_ref().map(|text| text.as_str());
    report.judge_call(call, got)?;
    Ok(())
}

// What comes of one run.
fn outcome_of(
    alloc: Global,
    users: &Users,
    scenario: &Scenario,
    trial: &Trial,
    bytes: &[u8],
) -> Result<Outcome, NoMemory> {
    match &scenario.command {
        Some(words) => run(alloc, words.as_str(), scenario, trial, bytes),
        None => talk(alloc, users, scenario, trial, bytes),
    }
}

// Runs a scenario as often as it says.
fn answer_scenario(
    alloc: Global,
    users: &Users,
    scenario: &Scenario,
    report: &mut Report,
) -> Result<(), NoMemory> {
    let sent = scenario.sent_bytes(alloc)?;
    let trials = trials_of(alloc, scenario, sent.len())?;
    report.begin_scenario(scenario, trials.len())?;
    for trial in &trials {
        let bytes = trial.front_of(&sent);
        let mut outcome = outcome_of(alloc, users, scenario, trial, bytes)?;
        report.judge_run(scenario, trial, &mut outcome)?;
    }
    Ok(())
}

// Answers the rows of one file.
fn answer_file(
    alloc: Global,
    users: &Users,
    name: &str,
    text: &str,
    report: &mut Report,
) -> Result<(), NoMemory> {
    for row in &report.begin_file(name, text)? {
        match row {
            Row::Scenario(scenario) => answer_scenario(alloc, users, scenario, report)?,
            Row::Call(call) => answer_call(alloc, call, report)?,
        }
    }
    Ok(report.end_file()?)
}

// Answers the rows of the files that the command line names.
fn report_on<R: Files + Env + AllocGlobal>(rt: &R) -> Result<Report, NoMemory> {
    let alloc = rt.alloc();
    let mut report = Report::new(alloc);
    let (Ok(users), Ok(args)) = (read_users(alloc, TABLE), env::args(rt)) else {
        return Err(NoMemory);
    };
    for name in args.skip(1) {
        match fs::read_to_string(rt, name.as_str()) {
            Ok(text) => answer_file(alloc, &users, name.as_str(), text.as_str(), &mut report)?,
            Err(_) => report.add_unread(name.as_str())?,
        }
    }
    report.close()?;
    Ok(report)
}

fn main(rt: HostRuntime) -> ExitCode {
    match report_on(&rt) {
        Ok(report) if rt.print(report.text()).is_err() => ExitCode::from(2),
        Ok(report) if report.is_clean() => ExitCode::SUCCESS,
        Ok(_) => ExitCode::from(1),
        Err(NoMemory) => ExitCode::from(3),
    }
}
