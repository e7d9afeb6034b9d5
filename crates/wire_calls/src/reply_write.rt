// The JSON of replies.
ghost use Rattle.std.specs.Prelude.{◌≡◌, IfOk, map};
ghost use Rattle.serde_json.specs.View.{view};
ghost use Rattle.ck_records.specs.Writing.{record_data};
ghost use Rattle.wire_calls.specs.Replies.{gone_data, failed_data, conflict_data, reply_entry_data, records_reply_data, reply_data, reply_status};

use crate::thing::{Thing, failed_of, gone_of};
use crate::{RecordEntry, RecordsReply, Reply};
use ck_base::{NoMemory, RecordName, UserName};
use ck_records::{Record, record_json};
use error_replies::{ServerError, code_of, error_json, reason_of, status};
use serde_json::{Value as Json, json};
use std::alloc::Global;

fn gone_json(alloc: Global, name: &RecordName) -> Result<Json, NoMemory>
    ensures { IfOk result (λ json. view json ≡ gone_data name.now) }
{
    let name = Json::try_from_str(alloc, name.as_str())?;
    gone_of(alloc, Thing::Record, name)
}

fn failed_json(alloc: Global, error: ServerError, name: &RecordName) -> Result<Json, NoMemory>
    ensures { IfOk result (λ json. view json ≡ failed_data error name.now) }
{
    let name = Json::try_from_str(alloc, name.as_str())?;
    failed_of(alloc, Thing::Record, error, name)
}

fn with_server(alloc: Global, name: &RecordName, server: Json) -> Result<Json, NoMemory>
    ensures { IfOk result (λ json. view json ≡ conflict_data name.now (view server)) }
{
    let code = code_of(ServerError::Conflict);
    let name = name.as_str();
    let reason = reason_of(ServerError::Conflict);
    Ok(json!(in alloc; {
        "reason": reason,
        "recordName": name,
        "serverErrorCode": code,
        "serverRecord": server
    })?)
}

pub(crate) fn conflict_json(
    alloc: Global,
    name: &RecordName,
    server: &Record,
    owner: &UserName,
    numbers_as_strings: bool,
) -> Result<Json, NoMemory>
    ensures { IfOk result (λ json.
        view json ≡ conflict_data name.now (record_data owner.now numbers_as_strings server.now)) }
{
    let server = record_json(alloc, server, owner, numbers_as_strings)?;
    with_server(alloc, name, server)
}

pub(crate) fn record_entry_json(
    alloc: Global,
    entry: &RecordEntry,
    owner: &UserName,
    numbers_as_strings: bool,
) -> Result<Json, NoMemory>
    ensures { IfOk result (λ json.
        view json ≡ reply_entry_data owner.now numbers_as_strings entry.now) }
{
    match entry {
        RecordEntry::There(record) => record_json(alloc, record, owner, numbers_as_strings),
        RecordEntry::Gone(name) => gone_json(alloc, name),
        RecordEntry::Failed { error, name } => failed_json(alloc, *error, name),
        RecordEntry::Conflict { name, server } => {
            conflict_json(alloc, name, server, owner, numbers_as_strings)
        }
    }
}

fn each_entry(
    alloc: Global,
    entries: &[RecordEntry],
    owner: &UserName,
    numbers_as_strings: bool,
) -> Result<Vec<Json>, NoMemory>
    ensures { IfOk result (λ list.
        map view list.items ≡ map (reply_entry_data owner.now numbers_as_strings) entries.now) }
{
    let mut list = Vec::new(alloc);
    for entry in entries {
        list.push(record_entry_json(alloc, entry, owner, numbers_as_strings)?)?;
    }
    Ok(list)
}

fn records_json(alloc: Global, reply: &RecordsReply) -> Result<Json, NoMemory>
    ensures { IfOk result (λ json. view json ≡ records_reply_data reply.now) }
{
    let owner = &reply.zone.owner;
    let entries = each_entry(
        alloc,
        reply.entries.as_slice(),
        owner,
        reply.numbers_as_strings,
    )?;
    let entries = Json::Array(entries);
    Ok(json!(in alloc; {"records": entries})?)
}

/// The JSON of a reply. It fails only where memory runs out.
pub fn reply_json(alloc: Global, reply: &Reply) -> Result<Json, NoMemory>
    ensures { IfOk result (λ json. view json ≡ reply_data reply.now) }
{
    match reply {
        Reply::Modify(reply) => records_json(alloc, reply),
        Reply::Lookup(reply) => records_json(alloc, reply),
        Reply::Refused(error) => error_json(alloc, *error),
    }
}

/// The status of a reply (RFC 9110, section 15): 200 for a list, whatever its entries are, and else
/// that of the error.
pub fn reply_status(reply: &Reply) -> u16
    ensures { result ≡ reply_status reply.now }
{
    match reply {
        Reply::Modify(_) => 200,
        Reply::Lookup(_) => 200,
        Reply::Refused(error) => status(*error),
    }
}
