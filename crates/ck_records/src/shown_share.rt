// What a share in a reply has beside what drafts have.
ghost use Rattle.std.specs.Prelude.{◌≡◌, [], Some, IfOk, IfSome, map, drop, option_map, option_and_then};
ghost use Rattle.std.specs.Option.{option_map_or};
ghost use Rattle.serde_json.specs.View.{view};
ghost use Rattle.serde_json.specs.Find.{as_array, as_str};
ghost use Rattle.ck_base.specs.Guids.{IsGuid, guid_of};
ghost use Rattle.field_values.specs.Members.{elements};
ghost use Rattle.share_records.specs.declared.share.Share.{Share as ShareOf};
ghost use Rattle.record_model.specs.declared.records.Body.TheVariants.{Share as ShareBody};
ghost use Rattle.record_model.specs.declared.records.Record.{Record as RecordOf};
ghost use Rattle.record_model.specs.DraftForms.{IsMeantDraft};
ghost use Rattle.record_model.specs.RecordForms.{IsShare, IsBodyOf};
ghost use Rattle.ck_records.specs.Shown.{Shows, is_accepted, own_permission, participant_of, with_statuses};

use crate::reply_record::are_kept;
use crate::{Body, Draft};
use ck_base::{Guid, Items, NoMemory, RecordName};
use field_values::member;
use record_model::is_share_type;
use serde_json::Value as Json;
use share_records::{PartKind, Participant, Participants, Permission, Share, Wanted};
use std::alloc::Global;

fn is_accepted(entry: &Json) -> bool
    ensures { result ≡ is_accepted (view entry.now) }
{
    match member(entry, "acceptanceStatus").and_then(Json::as_str) {
        Some(status) => status == "ACCEPTED",
        None => false,
    }
}

fn own_permission(kind: PartKind, shown: Permission) -> Permission
    ensures { result ≡ own_permission kind shown }
{
    match kind {
        PartKind::Member => shown,
        PartKind::Public => Permission::Nothing,
    }
}

fn participant_of(accepted: bool, wanted: &Wanted) -> Result<Participant, NoMemory>
    ensures { IfOk result (λ p. p ≡ participant_of accepted wanted.now) }
{
    Ok(Participant {
        permission: own_permission(wanted.kind, wanted.permission),
        user: wanted.user.clone()?,
        kind: wanted.kind,
        accepted,
    })
}

fn with_statuses(alloc: Global, list: &[Wanted], entries: &[Json]) -> Result<Participants, NoMemory>
    ensures { IfOk result (λ ps. ps ≡ with_statuses list.now (map view entries.now)) }
{
    let mut participants = Vec::new(alloc);
    let mut rest = entries;
    for wanted in list {
        let [entry, after @ ..] = rest else {
            return Ok(Items::from_vec(participants));
        };
        participants.push(participant_of(is_accepted(entry), wanted)?)?;
        rest = after;
    }
    Ok(Items::from_vec(participants))
}

// The first entry is the owner's.
fn after_first(entries: &[Json]) -> &[Json]
    ensures { map view result.now ≡ drop 1 (map view entries.now) }
{
    match entries {
        [_, after @ ..] => after,
        [] => entries,
    }
}

#[tactic(auto, using(field_values::proofs::ListLemmas::elements_items))]
fn entries_in(json: Option<&Json>) -> &[Json]
    ensures { map view result.now ≡ option_map_or elements
        (option_and_then as_array (option_map (λ v. view v.now) json.entry)) [] }
{
    match json.and_then(Json::as_array) {
        Some(entries) => entries,
        None => &[],
    }
}

fn read_guid(json: Option<&Json>) -> Option<Guid>
    ensures guid { result ≡ option_and_then guid_of
        (option_and_then as_str (option_map (λ v. view v.now) json.entry)) }
    ensures meant { IfSome result IsGuid }
{
    match json.and_then(Json::as_str) {
        Some(digits) => Guid::from_bytes(digits.as_bytes()),
        None => None,
    }
}

fn read_share(alloc: Global, json: &Json, draft: &Draft) -> Result<Option<Share>, NoMemory>
    ensures back { (r : RecordOf) (s : ShareOf) → Shows draft.now (view json.now) r
        → r.body ≡ ShareBody s → IfOk result (λ found. found ≡ Some s) }
    ensures meant { IsMeantDraft draft.now → IfOk result (λ found. IfSome found IsShare) }
{
    let Some(root) = &draft.for_root else {
        return Ok(None);
    };
    let Some(public) = draft.public else {
        return Ok(None);
    };
    let Some(list) = &draft.participants else {
        return Ok(None);
    };
    let Some(guid) = read_guid(member(json, "shortGUID")) else {
        return Ok(None);
    };
    let entries = after_first(entries_in(member(json, "participants")));
    let participants = with_statuses(alloc, list.as_slice(), entries)?;
    if !are_kept(participants.as_slice()) {
        return Ok(None);
    }
    Ok(Some(Share {
        root: root.name.clone()?,
        guid,
        public,
        participants,
    }))
}

/// What the record is beside its fields: a share where its type is that of shares.
pub(crate) fn read_body(
    alloc: Global,
    rtype: &RecordName,
    json: &Json,
    draft: &Draft,
) -> Result<Option<Body>, NoMemory>
    ensures back { (r : RecordOf) → Shows draft.now (view json.now) r → rtype.now ≡ r.rtype
        → IfOk result (λ body. body ≡ Some r.body) }
    ensures meant { IsMeantDraft draft.now
        → IfOk result (λ body. IfSome body (IsBodyOf rtype.now)) }
{
    if !is_share_type(rtype) {
        return Ok(Some(Body::Plain));
    }
    match read_share(alloc, json, draft)? {
        Some(share) => Ok(Some(Body::Share(share))),
        None => Ok(None),
    }
}
