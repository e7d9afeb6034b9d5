// Replies to calls, from their answers.
ghost use Rattle.std.specs.Prelude.{◌≡◌, IfOk, map, reverse, zip};
ghost use Rattle.talk_model.specs.Calls.{error_of, entry_of, shown, found_entry};
ghost use Rattle.ck_server.specs.ReplyOptions.{HasMeantOps, reply_from};

use board_model::{Answer, Part};
use ck_base::{Items, NoMemory, RecordName, RecordNames, ZoneKey};
use ck_records::{Record, cut};
use error_replies::ServerError;
use modify_ops::names_of;
use std::alloc::Global;
use wire_calls::{RecordEntries, RecordEntry, RecordsReply, Reply};
use zone_model::{OpFault, Outcome};

/// What a reply takes of its call, beside what the part has.
#[derive(Drop)]
pub(crate) struct ReplyOptions {
    pub numbers_as_strings: bool,
    pub desired_keys: Option<RecordNames>,
}

fn error_of(fault: OpFault) -> ServerError
    ensures { result ≡ error_of fault }
{
    match fault {
        OpFault::Exists => ServerError::Exists,
        OpFault::NotFound => ServerError::NotFound,
        OpFault::Conflict => ServerError::Conflict,
        OpFault::BadRequest => ServerError::BadRequest,
        OpFault::AccessDenied => ServerError::AccessDenied,
        OpFault::Validating => ServerError::ValidatingReferenceError,
        OpFault::Atomic => ServerError::AtomicError,
    }
}

// The items from the last to the first.
fn turned<T: Drop>(alloc: Global, items: Items<T>) -> Result<Items<T>, NoMemory>
    ensures { IfOk result (λ turned. turned ≡ reverse items) }
{
    let mut rest = items;
    let mut turned = Items::new(alloc);
    while let Some(item) = rest.pop() {
        turned.push(item)?;
    }
    Ok(turned)
}

fn outcome_entry(name: &RecordName, outcome: Outcome) -> Result<RecordEntry, NoMemory>
    ensures { IfOk result (λ entry. entry ≡ entry_of (name.now, outcome)) }
{
    match outcome {
        Outcome::Put(record) => Ok(RecordEntry::There(record)),
        Outcome::Deleted(gone) => Ok(RecordEntry::Gone(gone)),
        Outcome::Refused {
            fault,
            server: None,
        } => Ok(RecordEntry::Failed {
            error: error_of(fault),
            name: name.clone()?,
        }),
        Outcome::Refused {
            server: Some(server),
            ..
        } => Ok(RecordEntry::Conflict {
            name: name.clone()?,
            server,
        }),
    }
}

fn outcome_entries(
    alloc: Global,
    names: &[RecordName],
    outcomes: Items<Outcome>,
) -> Result<RecordEntries, NoMemory>
    ensures { IfOk result (λ entries. entries ≡ map entry_of (zip names.now outcomes)) }
{
    let mut rest = turned(alloc, outcomes)?;
    let mut entries = Items::new(alloc);
    for name in names {
        let Some(outcome) = rest.pop() else {
            return Ok(entries);
        };
        entries.push(outcome_entry(name, outcome)?)?;
    }
    Ok(entries)
}

fn shown(alloc: Global, keys: &Option<RecordNames>, found: Record) -> Result<Record, NoMemory>
    ensures { IfOk result (λ kept. kept ≡ shown keys.now found) }
{
    match keys {
        Some(keys) => cut(alloc, &found, keys.as_slice()),
        None => Ok(found),
    }
}

fn lookup_entry(
    alloc: Global,
    keys: &Option<RecordNames>,
    name: &RecordName,
    found: Option<Record>,
) -> Result<RecordEntry, NoMemory>
    ensures { IfOk result (λ entry. entry ≡ found_entry keys.now (name.now, found)) }
{
    match found {
        Some(record) => Ok(RecordEntry::There(shown(alloc, keys, record)?)),
        None => Ok(RecordEntry::Failed {
            error: ServerError::NotFound,
            name: name.clone()?,
        }),
    }
}

fn lookup_entries(
    alloc: Global,
    keys: &Option<RecordNames>,
    names: &[RecordName],
    records: Items<Option<Record>>,
) -> Result<RecordEntries, NoMemory>
    ensures { IfOk result (λ entries. entries ≡ map (found_entry keys.now) (zip names.now records)) }
{
    let mut rest = turned(alloc, records)?;
    let mut entries = Items::new(alloc);
    for name in names {
        let Some(found) = rest.pop() else {
            return Ok(entries);
        };
        entries.push(lookup_entry(alloc, keys, name, found)?)?;
    }
    Ok(entries)
}

fn records_reply(
    key: &ZoneKey,
    options: &ReplyOptions,
    entries: RecordEntries,
) -> Result<RecordsReply, NoMemory>
    ensures { IfOk result (λ reply. reply ≡ record { zone = key.now; numbers_as_strings = options.now.numbers_as_strings; entries = entries }) }
{
    Ok(RecordsReply {
        zone: key.clone()?,
        numbers_as_strings: options.numbers_as_strings,
        entries,
    })
}

// The reply to the call that a part and options came from, by the part's answer.
pub(crate) fn reply_from(
    alloc: Global,
    part: &Part,
    options: &ReplyOptions,
    answer: Answer,
) -> Result<Reply, NoMemory>
    requires { HasMeantOps part.now }
    ensures { IfOk result (λ reply. reply ≡ reply_from part.now options.now answer) }
{
    match part {
        Part::Modify {
            key,
            ops,
            words,
            ..
        } => match answer {
            Answer::Modify(outcomes) => {
                let names = names_of(alloc, ops.as_slice(), words.as_slice())?;
                let entries = outcome_entries(alloc, names.as_slice(), outcomes)?;
                Ok(Reply::Modify(records_reply(key, options, entries)?))
            }
            Answer::Lookup(_) | Answer::NoZone => Ok(Reply::Refused(ServerError::ZoneNotFound)),
            Answer::StoreFailed => Ok(Reply::Refused(ServerError::TryAgainLater)),
        },
        Part::Lookup { key, names, .. } => match answer {
            Answer::Lookup(records) => {
                let keys = &options.desired_keys;
                let entries = lookup_entries(alloc, keys, names.as_slice(), records)?;
                Ok(Reply::Lookup(records_reply(key, options, entries)?))
            }
            Answer::Modify(_) | Answer::NoZone => Ok(Reply::Refused(ServerError::ZoneNotFound)),
            Answer::StoreFailed => Ok(Reply::Refused(ServerError::TryAgainLater)),
        },
    }
}
