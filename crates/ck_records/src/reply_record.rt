// Reading records as replies have them.
ghost use Rattle.std.specs.Prelude.{◌≡◌, ◌-◌, Bool, Some, IfOk, IfErr, IfSome, map};
ghost use Rattle.std.specs.Result.{result_ok};
ghost use Rattle.std.specs.List.{list_all};
ghost use Rattle.serde_json.specs.View.{view};
ghost use Rattle.ck_base.specs.Order.{are_ascending};
ghost use Rattle.record_model.specs.RecordForms.{keeps, IsStored};
ghost use Rattle.record_model.specs.declared.records.Record.{Record as RecordOf};
ghost use Rattle.ck_records.specs.Replied.{IsReplyOf};
ghost use Rattle.record_model.specs.DraftForms.{IsMeantDraft};
ghost use Rattle.ck_records.specs.Reading.{draft_of};
ghost use Rattle.ck_records.specs.Shown.{Shows, are_kept};

use crate::record_write::record_json;
use crate::shown::{given_fields, given_parent, read_heads, read_link, read_stamp};
use crate::shown_share::read_body;
use crate::{Draft, Record, RecordFault, ReplyRecordFault, read_record};
use ck_base::{NoMemory, ZoneKey};
use field_values::{member, same_json};
use record_model::fits_two_bytes;
use serde_json::Value as Json;
use share_records::{PartKind, Participant, Permission};
use std::alloc::Global;

// What the JSON is in a request.
fn read_draft(alloc: Global, json: &Json, here: &ZoneKey) -> Result<Option<Draft>, NoMemory>
    ensures draft { IfOk result (λ draft.
        draft ≡ result_ok (draft_of here.now here.now.owner (view json.now))) }
    ensures meant { IfOk result (λ draft. IfSome draft IsMeantDraft) }
{
    match read_record(alloc, json, here, &here.owner) {
        Ok(draft) => Ok(Some(draft)),
        Err(RecordFault::NoMemory) => Err(NoMemory),
        Err(_) => Ok(None),
    }
}

// The record of a draft and of the members that replies alone have.
fn read_members(alloc: Global, json: &Json, draft: &Draft) -> Result<Option<Record>, NoMemory>
    ensures back { (r : RecordOf) → Shows draft.now (view json.now) r
        → IfOk result (λ found. found ≡ Some r) }
    ensures stored { IsMeantDraft draft.now → IfOk result (λ found. IfSome found IsStored) }
{
    let Some((name, rtype, tag)) = read_heads(draft)? else {
        return Ok(None);
    };
    let Some(fields) = given_fields(alloc, draft.fields.as_slice())? else {
        return Ok(None);
    };
    let Some(created) = read_stamp(alloc, member(json, "created"))? else {
        return Ok(None);
    };
    let Some(modified) = read_stamp(alloc, member(json, "modified"))? else {
        return Ok(None);
    };
    let Some(body) = read_body(alloc, &rtype, json, draft)? else {
        return Ok(None);
    };
    Ok(Some(Record {
        name,
        rtype,
        tag,
        parent: given_parent(&draft.parent)?,
        share: read_link(alloc, member(json, "share"))?,
        fields,
        created,
        modified,
        body,
    }))
}

// The record in its form for which the JSON may be what is written, and no other.
fn read_shown(alloc: Global, json: &Json, here: &ZoneKey) -> Result<Option<Record>, NoMemory>
    ensures back { (as_text : Bool) (r : RecordOf)
        → IsReplyOf here.now.owner as_text (view json.now) r
        → IfOk result (λ found. found ≡ Some r) }
    ensures stored { IfOk result (λ found. IfSome found IsStored) }
{
    match read_draft(alloc, json, here)? {
        Some(draft) => read_members(alloc, json, &draft),
        None => Ok(None),
    }
}

fn keeps(participant: &Participant) -> bool
    ensures { result ≡ keeps participant.now }
{
    match participant.kind {
        PartKind::Member => participant.permission != Permission::Nothing,
        PartKind::Public => participant.permission == Permission::Nothing && participant.accepted,
    }
}

fn keeps_all(participants: &[Participant]) -> bool
    ensures { result ≡ list_all keeps participants.now }
{
    participants.iter().all(keeps)
}

fn are_ascending(participants: &[Participant]) -> bool
    ensures { result ≡ are_ascending (map (λ p. p.user) participants.now) }
{
    let mut place = 1;
    while place < participants.len() {
        if !(participants[place - 1].user < participants[place].user) {
            return false;
        }
        place += 1;
    }
    true
}

pub(crate) fn are_kept(participants: &[Participant]) -> bool
    ensures { result ≡ are_kept participants.now }
{
    keeps_all(participants) && are_ascending(participants) && fits_two_bytes(participants.len())
}

/// The record that JSON is in a reply, as `record_json` writes it, in the zone `here`, whose whole
/// numbers are written as texts where `numbers_as_strings` is true. It is `NotARecord` where the
/// JSON is not just what `record_json` writes for a record in the form in which a zone keeps it.
pub fn read_reply_record(
    alloc: Global,
    json: &Json,
    here: &ZoneKey,
    numbers_as_strings: bool,
) -> Result<Record, ReplyRecordFault>
    ensures stored { IfOk result (λ r.
        IsReplyOf here.now.owner numbers_as_strings (view json.now) r) }
    ensures other { IfErr result (λ fault. fault ≡ ReplyRecordFault.NotARecord → (r : Record)
        → IsReplyOf here.now.owner numbers_as_strings (view json.now) r → ⊥) }
{
    let Some(record) = read_shown(alloc, json, here)? else {
        return Err(ReplyRecordFault::NotARecord);
    };
    let written = record_json(alloc, &record, &here.owner, numbers_as_strings)?;
    if same_json(alloc, json, &written)? {
        Ok(record)
    } else {
        Err(ReplyRecordFault::NotARecord)
    }
}
