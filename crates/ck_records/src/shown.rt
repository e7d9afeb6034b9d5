// What a record in a reply has beside what drafts have, and the parts of a record from those of a
// draft. What they are not is told by the last test of `read_reply_record`.
ghost use Rattle.std.specs.Prelude.{◌≡◌, ◌<◌, ◌^◌, ℕ, List, Option, Some, IfOk, IfSome, map, codes, decimal, option_map, option_and_then};
ghost use Rattle.serde_json.specs.View.{view};
ghost use Rattle.ck_base.specs.Names.{IsName};
ghost use Rattle.ck_base.specs.Numbers.{number_of};
ghost use Rattle.field_values.specs.Members.{found};
ghost use Rattle.field_values.specs.References.{name_in as name_told};
ghost use Rattle.record_model.specs.declared.value.Value.{Value as ValueOf};
ghost use Rattle.record_model.specs.declared.records.Record.{Record as RecordOf};
ghost use Rattle.record_model.specs.declared.records.Stamp.{Stamp as StampOf};
ghost use Rattle.record_model.specs.DraftForms.{IsParentWish, IsMeantDraft, AreWishes};
ghost use Rattle.record_model.specs.RecordForms.{AreFields, IsStamp};
ghost use Rattle.ck_records.specs.Writing.{stamp_data};
ghost use Rattle.ck_records.specs.Shown.{as_wish, as_parent, as_draft};

use crate::{Draft, Fields, ParentWish, Stamp, Wish};
use ck_base::{Items, NoMemory, RecordName, Text, read_number};
use field_values::{copy_value, member, name_in};
use record_model::are_counted;
use serde_json::Value as Json;
use std::alloc::Global;

/// The name of another record, where there is one.
pub(crate) fn read_link(alloc: Global, json: Option<&Json>) -> Result<Option<RecordName>, NoMemory>
    ensures link { IfOk result (λ link. link ≡ option_and_then
        (λ d. name_told (found (codes "recordName") d)) (option_map (λ v. view v.now) json.entry)) }
    ensures meant { IfOk result (λ link. IfSome link IsName) }
{
    match json {
        Some(json) => name_in(alloc, member(json, "recordName")),
        None => Ok(None),
    }
}

/// When and by whom a record was written.
pub(crate) fn read_stamp(alloc: Global, json: Option<&Json>) -> Result<Option<Stamp>, NoMemory>
    ensures back { (s : StampOf) → IsStamp s
        → option_map (λ v. view v.now) json.entry ≡ Some (stamp_data s)
        → IfOk result (λ stamp. stamp ≡ Some s) }
    ensures meant { IfOk result (λ stamp. IfSome stamp IsStamp) }
{
    let Some(json) = json else {
        return Ok(None);
    };
    let Some(moment) = member(json, "timestamp").and_then(Json::as_u64) else {
        return Ok(None);
    };
    match name_in(alloc, member(json, "userRecordName"))? {
        Some(user) => Ok(Some(Stamp { moment, user })),
        None => Ok(None),
    }
}

// The number that a text is.
fn number_in(text: &Option<Text>) -> Option<u64>
    ensures { result ≡ option_and_then number_of text.now }
{
    match text {
        Some(text) => read_number(text.as_str()),
        None => None,
    }
}

// The change tag that a text is.
#[tactic(auto, using(crate::proofs::ShowsBackLemmas::tag_given))]
fn given_tag(text: &Option<Text>) -> Option<u64>
    ensures back { (n : ℕ) → 0 < n → n < 2 ^ 64 → text.now ≡ Some (decimal n) → result ≡ Some n }
    ensures some { IfSome result (λ n. 0 < n) }
{
    match number_in(text) {
        Some(tag) if tag > 0 => Some(tag),
        _ => None,
    }
}

/// The name of a record, its type and its tag.
pub(crate) fn read_heads(draft: &Draft) -> Result<Option<(RecordName, RecordName, u64)>, NoMemory>
    ensures back { (r : RecordOf) → draft.now ≡ as_draft r → 0 < r.tag → r.tag < 2 ^ 64
        → IfOk result (λ heads. heads ≡ Some (r.name, r.rtype, r.tag)) }
    ensures meant { IsMeantDraft draft.now → IfOk result (λ found. IfSome found (λ heads.
        IsName heads.0 × IsName heads.1 × (0 < heads.2) × (heads.2 < 2 ^ 64))) }
{
    let Some(name) = &draft.name else {
        return Ok(None);
    };
    let Some(rtype) = &draft.rtype else {
        return Ok(None);
    };
    let Some(tag) = given_tag(&draft.tag) else {
        return Ok(None);
    };
    Ok(Some((name.clone()?, rtype.clone()?, tag)))
}

/// The parent, where there is one.
pub(crate) fn given_parent(parent: &ParentWish) -> Result<Option<RecordName>, NoMemory>
    ensures back { (o : Option (List ℕ)) → parent.now ≡ as_parent o → IfOk result (λ name. name ≡ o) }
    ensures meant { IsParentWish parent.now → IfOk result (λ name. IfSome name IsName) }
{
    match parent {
        ParentWish::To(name) => Ok(Some(name.clone()?)),
        ParentWish::Absent | ParentWish::Null => Ok(None),
    }
}

// The fields of which these are the wishes.
fn with_values(alloc: Global, wishes: &[Wish]) -> Result<Option<Fields>, NoMemory>
    ensures values { IfOk result (λ found. IfSome found (λ fields. map as_wish fields ≡ wishes.now)) }
    ensures back { (fields : List (List ℕ × ValueOf)) → wishes.now ≡ map as_wish fields
        → IfOk result (λ found. found ≡ Some fields) }
{
    let mut fields = Vec::new(alloc);
    for wish in wishes {
        let Some(value) = &wish.1 else {
            return Ok(None);
        };
        fields.push((wish.0.clone()?, copy_value(alloc, value)?))?;
    }
    Ok(Some(Items::from_vec(fields)))
}

/// The fields of which these are the wishes, where they can be counted.
pub(crate) fn given_fields(alloc: Global, wishes: &[Wish]) -> Result<Option<Fields>, NoMemory>
    ensures back { (fields : List (List ℕ × ValueOf)) → wishes.now ≡ map as_wish fields
        → AreFields fields → IfOk result (λ found. found ≡ Some fields) }
    ensures meant { AreWishes wishes.now → IfOk result (λ found. IfSome found AreFields) }
{
    match with_values(alloc, wishes)? {
        Some(fields) if are_counted(fields.as_slice()) => Ok(Some(fields)),
        _ => Ok(None),
    }
}
