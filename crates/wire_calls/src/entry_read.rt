// Reading the entries of replies. Each is read loosely, written again, and compared.
ghost use Rattle.std.specs.Prelude.{◌≡◌, IfOk};
ghost use Rattle.serde_json.specs.View.{view};
ghost use Rattle.ck_records.specs.Replied.{IsReplyOf};
ghost use Rattle.wire_calls.specs.Asked.{has_name, answers};
ghost use Rattle.wire_calls.specs.Found.{Finds, IsServer, IsConflict, IsErrorOf, IsEntryOf, IsAnswer};

use crate::RecordEntry;
use crate::asked::Asked;
use crate::reply_write::conflict_json;
use crate::thing::Thing;
use crate::thing_read::{entry_name, read_failed, read_gone};
use ck_base::{NoMemory, RecordName, ZoneKey};
use ck_records::{Record, ReplyRecordFault, read_reply_record};
use field_values::{member, same_json};
use serde_json::Value as Json;
use std::alloc::Global;

fn read_there(
    alloc: Global,
    json: &Json,
    here: &ZoneKey,
    numbers_as_strings: bool,
) -> Result<Option<Record>, NoMemory>
    ensures { IfOk result (Finds (IsReplyOf here.now.owner numbers_as_strings (view json.now))) }
{
    match read_reply_record(alloc, json, here, numbers_as_strings) {
        Ok(record) => Ok(Some(record)),
        Err(ReplyRecordFault::NotARecord) => Ok(None),
        Err(ReplyRecordFault::NoMemory) => Err(NoMemory),
    }
}

fn read_server(
    alloc: Global,
    json: &Json,
    here: &ZoneKey,
    numbers_as_strings: bool,
) -> Result<Option<Record>, NoMemory>
    ensures { IfOk result (Finds (IsServer here.now.owner numbers_as_strings (view json.now))) }
{
    match member(json, "serverRecord") {
        Some(server) => read_there(alloc, server, here, numbers_as_strings),
        None => Ok(None),
    }
}

fn read_conflict(
    alloc: Global,
    json: &Json,
    here: &ZoneKey,
    numbers_as_strings: bool,
) -> Result<Option<(RecordName, Record)>, NoMemory>
    ensures { IfOk result (Finds
        (IsConflict here.now.owner numbers_as_strings (view json.now))) }
{
    let Some(name) = entry_name(alloc, &Thing::Record, json)? else {
        return Ok(None);
    };
    let Some(server) = read_server(alloc, json, here, numbers_as_strings)? else {
        return Ok(None);
    };
    let written = conflict_json(alloc, &name, &server, &here.owner, numbers_as_strings)?;
    if same_json(alloc, json, &written)? {
        Ok(Some((name, server)))
    } else {
        Ok(None)
    }
}

fn read_error(
    alloc: Global,
    json: &Json,
    here: &ZoneKey,
    numbers_as_strings: bool,
) -> Result<Option<RecordEntry>, NoMemory>
    ensures { IfOk result (Finds
        (IsErrorOf here.now.owner numbers_as_strings (view json.now))) }
{
    if let Some((error, name)) = read_failed(alloc, &Thing::Record, json)? {
        return Ok(Some(RecordEntry::Failed { error, name }));
    }
    match read_conflict(alloc, json, here, numbers_as_strings)? {
        Some((name, server)) => Ok(Some(RecordEntry::Conflict { name, server })),
        None => Ok(None),
    }
}

// The entry that JSON is, whatever is asked for.
fn read_form(
    alloc: Global,
    json: &Json,
    here: &ZoneKey,
    numbers_as_strings: bool,
) -> Result<Option<RecordEntry>, NoMemory>
    ensures { IfOk result (Finds
        (IsEntryOf here.now.owner numbers_as_strings (view json.now))) }
{
    if let Some(record) = read_there(alloc, json, here, numbers_as_strings)? {
        return Ok(Some(RecordEntry::There(record)));
    }
    if let Some(name) = read_gone(alloc, &Thing::Record, json)? {
        return Ok(Some(RecordEntry::Gone(name)));
    }
    read_error(alloc, json, here, numbers_as_strings)
}

fn has_name(asked: &Option<RecordName>, name: &RecordName) -> bool
    ensures { result ≡ has_name asked.now name.now }
{
    match asked {
        Some(asked) => name.as_bytes() == asked.as_bytes(),
        None => true,
    }
}

fn answers(asked: &Asked, entry: &RecordEntry) -> bool
    ensures { result ≡ answers asked.now entry.now }
{
    match entry {
        RecordEntry::There(record) => !asked.deletes && has_name(&asked.name, &record.name),
        RecordEntry::Gone(name) => asked.deletes && has_name(&asked.name, name),
        RecordEntry::Failed { name, .. } => has_name(&asked.name, name),
        RecordEntry::Conflict { name, .. } => has_name(&asked.name, name),
    }
}

/// The entry that JSON is, where it is one that is asked for.
pub(crate) fn read_entry(
    alloc: Global,
    asked: &Asked,
    json: &Json,
    here: &ZoneKey,
    numbers_as_strings: bool,
) -> Result<Option<RecordEntry>, NoMemory>
    ensures { IfOk result (Finds
        (IsAnswer here.now.owner numbers_as_strings asked.now (view json.now))) }
{
    let Some(entry) = read_form(alloc, json, here, numbers_as_strings)? else {
        return Ok(None);
    };
    if answers(asked, &entry) {
        Ok(Some(entry))
    } else {
        Ok(None)
    }
}
