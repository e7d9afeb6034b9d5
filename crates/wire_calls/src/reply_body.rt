// The text of replies, an entry at a time.
ghost use Rattle.std.specs.Prelude.{◌≡◌, List, IfOk, map, string_bytes};
ghost use Rattle.serde_json.specs.Written.{compact_text};
ghost use Rattle.error_replies.specs.Bodies.{error_data};
ghost use Rattle.wire_calls.specs.declared.call.Call.{Call};
ghost use Rattle.wire_calls.specs.Lists.{IsRead};
ghost use Rattle.wire_calls.specs.RepliesTo.{IsFor, IsReply};
ghost use Rattle.wire_calls.specs.Replies.{reply_data, reply_status};

use crate::list_write::{Entries, list_text};
use crate::reply_write::record_entry_json;
use crate::{RecordsReply, Reply};
use ck_base::NoMemory;
use error_replies::{ServerError, error_json};
use serde_json::Value as Json;
use std::alloc::Global;

impl Entries for RecordsReply {
    ghost use Rattle.std.specs.Prelude.{map};
    ghost use Rattle.wire_calls.specs.Replies.{reply_entry_data};

    ghost told = { λ r. map (reply_entry_data r.zone.owner r.numbers_as_strings) r.entries };

    fn count(&self) -> usize {
        self.entries.len()
    }

    fn take_json(&mut self, alloc: Global) -> Result<Json, NoMemory> {
        let entry = self.entries.remove(0);
        record_entry_json(alloc, &entry, &self.zone.owner, self.numbers_as_strings)
    }
}

// The text of a refused request.
fn refused_text(alloc: Global, error: ServerError) -> Result<String, NoMemory>
    ensures text { IfOk result (λ text. string_bytes text ≡ compact_text (error_data error)) }
    ensures read { IfOk result (λ _. IsRead (error_data error)) }
{
    let json = error_json(alloc, error)?;
    Ok(json.to_string(alloc)?)
}

/// The body of a response with the reply: the text of `reply_json`, written entry by entry, each of
/// which is dropped behind it. With `reply_status` it is this reply to each call that the reply is one
/// to. It fails only where memory runs out.
pub fn reply_text(alloc: Global, reply: Reply) -> Result<String, NoMemory>
    ensures reply { (call : Call) → IsFor call reply → IfOk result (λ text.
        IsReply call (reply_status reply) (string_bytes text) reply) }
    ensures text { IfOk result (λ text. string_bytes text ≡ compact_text (reply_data reply)) }
{
    match reply {
        Reply::Modify(mut reply) => list_text(alloc, "records", &mut reply),
        Reply::Lookup(mut reply) => list_text(alloc, "records", &mut reply),
        Reply::Refused(error) => refused_text(alloc, error),
    }
}
