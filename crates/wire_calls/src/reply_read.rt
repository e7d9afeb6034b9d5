// Reading replies.
ghost use Rattle.std.specs.Prelude.{◌≡◌, ◌≢◌, Ok};
ghost use Rattle.serde_json.specs.View.{view};
ghost use Rattle.ck_base.specs.Told.{IsToldUnless};
ghost use Rattle.wire_calls.specs.Asked.{zone_of, as_text_of};
ghost use Rattle.wire_calls.specs.ReplyLists.{Tells};
ghost use Rattle.wire_calls.specs.RepliesTo.{IsReplyTo, IsReply, with_entries, IsBadAt, IsBadReply};
ghost use Rattle.wire_calls.specs.declared.reply.Reply.{Reply};

use crate::asked::{Asked, asked_of};
use crate::entry_read::read_entry;
use crate::list_read::{EntryReader, read_listed};
use crate::thing_read::error_in;
use crate::{Call, RecordEntries, RecordEntry, RecordsReply, Reply, ReplyFault};
use ck_base::{NoMemory, ZoneKey};
use error_replies::{error_json, status};
use field_values::same_json;
use serde_json::Value as Json;
use std::alloc::Global;

fn zone_of(call: &Call) -> &ZoneKey
    ensures { result.now ≡ zone_of call.now }
{
    match call {
        Call::Modify(call) => &call.zone,
        Call::Lookup(call) => &call.zone,
    }
}

fn as_text_of(call: &Call) -> bool
    ensures { result ≡ as_text_of call.now }
{
    match call {
        Call::Modify(call) => call.numbers_as_strings,
        Call::Lookup(call) => call.numbers_as_strings,
    }
}

// The reply of the call's operation with these entries.
fn with_entries(call: &Call, entries: RecordEntries) -> Result<Reply, ReplyFault>
    ensures { IsToldUnless ReplyFault.NoMemory result (Ok (with_entries call.now entries)) }
{
    let reply = RecordsReply {
        zone: zone_of(call).clone()?,
        numbers_as_strings: as_text_of(call),
        entries,
    };
    match call {
        Call::Modify(_) => Ok(Reply::Modify(reply)),
        Call::Lookup(_) => Ok(Reply::Lookup(reply)),
    }
}

impl EntryReader<Asked, RecordEntry> for Call {
    ghost use Rattle.wire_calls.specs.Entries.{IsAsked};
    ghost use Rattle.wire_calls.specs.RepliesTo.{entry_data_of};

    ghost is_asked = { λ _. IsAsked };

    ghost entry_data = { entry_data_of };

    fn read_entry(
        &self,
        alloc: Global,
        asked: &Asked,
        json: &Json,
    ) -> Result<Option<RecordEntry>, NoMemory> {
        read_entry(alloc, asked, json, zone_of(self), as_text_of(self))
    }
}

fn read_list(alloc: Global, call: &Call, json: &Json) -> Result<Reply, ReplyFault>
    ensures { Tells (IsReplyTo call.now 200 (view json.now)) (IsBadAt call.now 200 (view json.now))
        result }
{
    let asked = asked_of(alloc, call)?;
    match read_listed(alloc, "records", call, asked.as_slice(), json) {
        Ok(entries) => with_entries(call, entries),
        Err(fault) => Err(fault),
    }
}

fn read_refused(alloc: Global, call: &Call, number: u16, json: &Json) -> Result<Reply, ReplyFault>
    requires { number ≢ 200 }
    ensures { Tells (IsReplyTo call.now number (view json.now))
        (IsBadAt call.now number (view json.now)) result }
{
    let Some(error) = error_in(json) else {
        return Err(ReplyFault::BadReply(0));
    };
    if status(error) != number {
        return Err(ReplyFault::BadReply(0));
    }
    let written = error_json(alloc, error)?;
    if same_json(alloc, json, &written)? {
        Ok(Reply::Refused(error))
    } else {
        Err(ReplyFault::BadReply(0))
    }
}

fn read_json(alloc: Global, call: &Call, status: u16, json: &Json) -> Result<Reply, ReplyFault>
    ensures { Tells (IsReplyTo call.now status (view json.now))
        (IsBadAt call.now status (view json.now)) result }
{
    if status == 200 {
        read_list(alloc, call, json)
    } else {
        read_refused(alloc, call, status, json)
    }
}

fn read_body(alloc: Global, call: &Call, status: u16, body: &[u8]) -> Result<Reply, ReplyFault>
    ensures { Tells (IsReply call.now status body.now) (IsBadReply call.now status body.now)
        result }
{
    match Json::from_slice(alloc, body) {
        Ok(json) => read_json(alloc, call, status, &json),
        Err(error) if error.is_memory() => Err(ReplyFault::NoMemory),
        Err(_) => Err(ReplyFault::BadReply(0)),
    }
}

/// The reply to a call that a status and a body are: `reply_json` of a reply of the call's
/// operation with status 200, or of a refused request with the status of its error (RFC 9110,
/// section 15). It has an entry for each operation or name of the call, in order, with the name that
/// the call gives it, if it gives one; an entry that is no error says deleted just for a deletion.
/// Its records have the form in which a zone keeps them, and its whole numbers are written as the
/// call wants them. The error is `BadReply` where there is no such reply, with the number of the
/// first wrong entry, counted from 1, or 0 where the whole is wrong.
pub fn read_reply(alloc: Global, call: &Call, status: u16, body: &[u8]) -> Result<Reply, ReplyFault>
    ensures told { Tells (IsReply call.now status body.now) (IsBadReply call.now status body.now)
        result }
    ensures only { (reply : Reply) → IsReply call.now status body.now reply
        → IsToldUnless ReplyFault.NoMemory result (Ok reply) }
{
    read_body(alloc, call, status, body)
}
