// The participants that a request wants.
ghost use Rattle.std.specs.Prelude.{◌≡◌, IfOk, IfSome, map, option_map, ok_or, codes};
ghost use Rattle.std.specs.List.{AllByRecursion};
ghost use Rattle.serde_json.specs.View.{view};
ghost use Rattle.ck_base.specs.Told.{IsToldUnless};
ghost use Rattle.field_values.specs.Members.{found};
ghost use Rattle.field_values.specs.References.{name_in as name_told};
ghost use Rattle.ck_records.specs.declared.fault.RecordFault.TheVariants.{BadKey as Wrong};
ghost use Rattle.ck_records.specs.declared.fault.RecordKey.TheVariants.{Participants as List};
ghost use Rattle.record_model.specs.DraftForms.{may_have};
ghost use Rattle.ck_records.specs.Participants.{type_in, permission_in, user_data, wanted_of, entry_of, entries_of, participants_at};
ghost use Rattle.record_model.specs.DraftForms.{IsWanted};

use crate::spellings::{EntryType, permission_named, type_named};
use crate::{RecordFault, RecordKey, WantedList};
use ck_base::Items;
use field_values::{member, name_in};
use serde_json::Value as Json;
use share_records::{PartKind, Permission, Wanted};
use std::alloc::Global;

fn type_in(json: Option<&Json>) -> Option<EntryType>
    ensures { result ≡ type_in (option_map (λ v. view v.now) json.entry) }
{
    match json {
        Some(json) => json.as_str().and_then(type_named),
        None => Some(EntryType::Listed(PartKind::Member)),
    }
}

fn permission_in(json: Option<&Json>) -> Option<Permission>
    ensures { result ≡ permission_in (option_map (λ v. view v.now) json.entry) }
{
    match json {
        Some(json) => json.as_str().and_then(permission_named),
        None => Some(Permission::ReadOnly),
    }
}

fn may_have(kind: PartKind, permission: Permission) -> bool
    ensures { result ≡ may_have kind permission }
{
    match kind {
        PartKind::Member => permission != Permission::Nothing,
        PartKind::Public => true,
    }
}

fn user_json(json: &Json) -> Option<&Json>
    ensures { option_map (λ v. view v.now) result ≡ user_data (view json.now) }
{
    match member(json, "userIdentity") {
        Some(identity) => member(identity, "userRecordName"),
        None => None,
    }
}

fn read_wanted(alloc: Global, kind: PartKind, json: &Json) -> Result<Wanted, RecordFault>
    ensures wanted { IsToldUnless RecordFault.NoMemory result (ok_or
        (wanted_of kind (name_told (user_data (view json.now)))
        (permission_in (found (codes "permission") (view json.now))))
        (Wrong List)) }
    ensures meant { IfOk result IsWanted }
{
    let Some(user) = name_in(alloc, user_json(json))? else {
        return Err(RecordFault::BadKey(RecordKey::Participants));
    };
    match permission_in(member(json, "permission")) {
        Some(permission) if may_have(kind, permission) => Ok(Wanted {
            user,
            kind,
            permission,
        }),
        _ => Err(RecordFault::BadKey(RecordKey::Participants)),
    }
}

pub(crate) fn read_entry(alloc: Global, json: &Json) -> Result<Option<Wanted>, RecordFault>
    ensures entry { IsToldUnless RecordFault.NoMemory result (entry_of (view json.now)) }
    ensures meant { IfOk result (λ entry. IfSome entry IsWanted) }
{
    match type_in(member(json, "type")) {
        Some(EntryType::Owner) => Ok(None),
        Some(EntryType::Listed(kind)) => Ok(Some(read_wanted(alloc, kind, json)?)),
        None => Err(RecordFault::BadKey(RecordKey::Participants)),
    }
}

fn read_entries(alloc: Global, items: &[Json]) -> Result<WantedList, RecordFault>
    ensures entries { IsToldUnless RecordFault.NoMemory result
        (entries_of (map view items.now)) }
    ensures meant { IfOk result (AllByRecursion IsWanted) }
{
    let mut list = Vec::new(alloc);
    for item in items {
        let Some(wanted) = read_entry(alloc, item)? else {
            continue;
        };
        list.push(wanted)?;
    }
    Ok(Items::from_vec(list))
}

/// The participants that a record of a request wants, or none where it says nothing of them.
#[tactic(auto, using(field_values::proofs::ListLemmas::elements_items))]
pub(crate) fn read_participants(
    alloc: Global,
    json: Option<&Json>,
) -> Result<Option<WantedList>, RecordFault>
    ensures list { IsToldUnless RecordFault.NoMemory result
        (participants_at (option_map (λ v. view v.now) json.entry)) }
    ensures meant { IfOk result (λ list. IfSome list (AllByRecursion IsWanted)) }
{
    let Some(json) = json else {
        return Ok(None);
    };
    match json.as_array() {
        Some(items) => Ok(Some(read_entries(alloc, items)?)),
        None => Err(RecordFault::BadKey(RecordKey::Participants)),
    }
}
