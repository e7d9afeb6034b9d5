// A connection in memory, on a board of its own, and what came of it.
use case_files::{Device, Facts, Outcome, Scenario, Trial};
use ck_base::NoMemory;
use ck_devices::{CountWords, FixedClock, MemSink, MemSource, Sink, Source};
use ck_server::{End, Mark, Talk, TalkFault, TalkFaultKind, converse};
use http_front::Users;
use std::alloc::{AllocError, Global};
use zone_board::{Board, Solo};
use zone_model::Event;

/// The source of a run, which gives these bytes.
pub fn source_of(alloc: Global, trial: &Trial, bytes: &[u8]) -> Result<MemSource, AllocError> {
    let fails = trial.fails_of(alloc, Device::Read)?;
    Ok(MemSource::new(bytes.to_vec(alloc)?, trial.piece.max(1), fails))
}

/// A sink of a run, for its replies or for its line on standard error.
pub fn sink_of(alloc: Global, trial: &Trial, device: Device) -> Result<MemSink, AllocError> {
    let fails = trial.fails_of(alloc, device)?;
    Ok(MemSink::new(alloc, trial.piece.max(1), fails))
}

/// The words of a run.
pub fn words_of(
    alloc: Global,
    trial: &Trial,
    scenario: &Scenario,
) -> Result<CountWords, AllocError> {
    let fails = trial.fails_of(alloc, Device::Draw)?;
    Ok(CountWords::new(u128::from(scenario.settings.first_word), fails))
}

/// What comes of these bytes in one run.
pub fn talk(
    alloc: Global,
    users: &Users,
    scenario: &Scenario,
    trial: &Trial,
    bytes: &[u8],
) -> Result<Outcome, NoMemory> {
    let mut board = Solo::new(alloc);
    let mut source = source_of(alloc, trial, bytes)?;
    let mut sink = sink_of(alloc, trial, Device::Write)?;
    let mut clock = FixedClock(scenario.settings.moment);
    let mut words = words_of(alloc, trial, scenario)?;
    let talk = converse(
        alloc,
        &mut board,
        users,
        &mut source,
        &mut sink,
        &mut clock,
        &mut words,
    );
    let faults = [source.faults(), sink.faults()];
    let mut outcome = Outcome::new(alloc, sink.bytes().to_vec(alloc)?);
    tell_talk(alloc, &mut outcome, scenario, &talk, faults)?;
    let made = made_told(alloc, &board)?;
    outcome.facts.tell("made", made)?;
    let left = left_in(&mut source).to_string(alloc)?;
    outcome.facts.tell("left", left)?;
    Ok(outcome)
}

// How many bytes a source still gives.
fn left_in(source: &mut MemSource) -> u64 {
    let mut into = [0u8; 4096];
    let mut left = 0u64;
    for _ in 0..u64::MAX {
        match source.read(&mut into) {
            Ok(0) => break,
            Ok(count) => left = left.saturating_add(count as u64),
            Err(_) => {}
        }
    }
    left
}

// The end, and what the marks tell; so many reads and writes failed.
fn tell_talk(
    alloc: Global,
    outcome: &mut Outcome,
    scenario: &Scenario,
    talk: &Result<Talk, TalkFault>,
    faults: [u64; 2],
) -> Result<(), AllocError> {
    let (end, usual, marks) = match talk {
        Ok(talk) => {
            outcome.farewells = u64::from(has_farewell(talk.end));
            (end_name(talk.end), [0, 0], &talk.marks)
        }
        Err(fault) => {
            outcome.is_front = fault.at == TalkFaultKind::WriteFault;
            (fault_name(fault.at), usual_faults(fault.at), &fault.marks)
        }
    };
    let end = String::from_str(alloc, end)?;
    outcome.facts.tell_usual("end", end, "Closed")?;
    outcome
        .facts
        .tell_number("read faults", faults[0], usual[0])?;
    outcome
        .facts
        .tell_number("write faults", faults[1], usual[1])?;
    outcome.answered = Some(marks.len() as u64);
    for mark in marks {
        let place = outcome.requests.len() as u64;
        let facts = mark_told(alloc, scenario, place, mark)?;
        outcome.requests.push(facts)?;
    }
    Ok(())
}

fn end_name(end: End) -> &'static str {
    match end {
        End::Closed => "Closed",
        End::CloseAsked => "CloseAsked",
        End::Cut => "Cut",
        End::BadHead => "BadHead",
        End::HeadTooLong => "HeadTooLong",
        End::NoLength => "NoLength",
        End::BodyTooLong => "BodyTooLong",
        End::Spent => "Spent",
        End::NotBuilt => "NotBuilt",
    }
}

fn fault_name(fault: TalkFaultKind) -> &'static str {
    match fault {
        TalkFaultKind::ReadFault => "ReadFault",
        TalkFaultKind::WriteFault => "WriteFault",
        TalkFaultKind::NoMemory => "NoMemory",
    }
}

// How many reads and writes fail where a conversation breaks off so.
fn usual_faults(fault: TalkFaultKind) -> [u64; 2] {
    match fault {
        TalkFaultKind::ReadFault => [1, 0],
        TalkFaultKind::WriteFault => [0, 1],
        TalkFaultKind::NoMemory => [0, 0],
    }
}

// Whether the end is one at which a last reply says that the bytes are no request.
fn has_farewell(end: End) -> bool {
    matches!(
        end,
        End::BadHead | End::HeadTooLong | End::NoLength | End::BodyTooLong
    )
}

// The facts of the request at that place.
fn mark_told(
    alloc: Global,
    scenario: &Scenario,
    place: u64,
    mark: &Mark,
) -> Result<Facts, AllocError> {
    let mut facts = Facts::new(alloc);
    facts.tell_number("number of the request", mark.request, place)?;
    facts.tell_number(
        "moment of the request",
        mark.moment,
        scenario.settings.moment,
    )?;
    facts.tell("asks", asks_told(alloc, mark)?)?;
    facts.tell("draws", draws_told(alloc, mark)?)?;
    Ok(facts)
}

// `LOCK:LEN new` for each ask that made an event, and `LOCK:LEN old` for each that made none.
fn asks_told(alloc: Global, mark: &Mark) -> Result<String, AllocError> {
    let mut told = String::new(alloc);
    for at in &mark.asks {
        let made = if at.event { "new" } else { "old" };
        let (lock, len) = (at.lock, at.len);
        push_word(
            &mut told,
            format!(in alloc; "{lock}:{len} {made}")?.as_str(),
        )?;
    }
    or_nothing(told)
}

// The words that were drawn, as numbers.
fn draws_told(alloc: Global, mark: &Mark) -> Result<String, AllocError> {
    if !mark.drawn {
        return String::from_str(alloc, "failed");
    }
    let mut told = String::new(alloc);
    for word in &mark.words {
        let number = u128::from_be_bytes(*word).to_string(alloc)?;
        push_word(&mut told, number.as_str())?;
    }
    or_nothing(told)
}

// The events of all locks.
fn made_told(alloc: Global, board: &Solo) -> Result<String, AllocError> {
    let mut told = String::new(alloc);
    for lock in 0u8..16 {
        for event in board.events(lock) {
            push_word(&mut told, event_told(alloc, lock, event)?.as_str())?;
        }
    }
    or_nothing(told)
}

// `LOCK:SEAT.COUNT+COMMITS` for commits that were made, `LOCK:SEAT.COUNT!BEFORE-AFTER` for a fault of the store.
fn event_told(alloc: Global, lock: u8, event: &Event) -> Result<String, AllocError> {
    match event {
        Event::Made { origin, commits } => {
            let (seat, count, commits) = (origin.seat, origin.count, commits.len());
            format!(in alloc; "{lock}:{seat}.{count}+{commits}")
        }
        Event::StoreFailed {
            origin,
            before,
            after,
        } => {
            let (seat, count) = (origin.seat, origin.count);
            format!(in alloc; "{lock}:{seat}.{count}!{before}-{after}")
        }
    }
}

fn push_word(told: &mut String, word: &str) -> Result<(), AllocError> {
    if !told.is_empty() {
        told.push_str(" ")?;
    }
    told.push_str(word)
}

fn or_nothing(mut told: String) -> Result<String, AllocError> {
    if told.is_empty() {
        told.push_str("nothing")?;
    }
    Ok(told)
}
