// The fields that a request gives.
ghost use Rattle.std.specs.Prelude.{◌≡◌, IfOk, option_map};
ghost use Rattle.std.specs.List.{list_all};
ghost use Rattle.serde_json.specs.View.{view, members_view};
ghost use Rattle.serde_json.specs.Find.{as_object};
ghost use Rattle.ck_base.specs.Told.{IsToldUnless};
ghost use Rattle.field_values.specs.Results.{each_or_first_error};
ghost use Rattle.ck_records.specs.DraftFields.{entries, is_named, wish_of, wishes_in, fields_at};
ghost use Rattle.record_model.specs.DraftForms.{IsWish, AreWishes};

use crate::{RecordFault, RecordKey, Wish, Wishes};
use ck_base::{Items, UserName, ZoneKey};
use field_values::{FieldFault, is_name, read_field, valid_name};
use serde_json::{Map, Value as Json};
use std::alloc::Global;

// Each member has the name of a field.
fn are_named(members: &Map<String, Json>) -> bool
    ensures { result ≡ list_all is_named (entries (members_view members.now.entries)) }
{
    for (name, _) in members.iter() {
        if !is_name(name.as_bytes()) {
            return false;
        }
    }
    true
}

fn read_wish(
    alloc: Global,
    name: &str,
    json: &Json,
    here: &ZoneKey,
    caller: &UserName,
) -> Result<Wish, RecordFault>
    ensures wish { IsToldUnless RecordFault.NoMemory result
        (wish_of here.now caller.now (name.now, view json.now)) }
    ensures meant { IfOk result IsWish }
{
    let Some(name) = valid_name(alloc, name.as_bytes())? else {
        return Err(RecordFault::BadKey(RecordKey::Fields));
    };
    match read_field(alloc, json, here, caller) {
        Ok(value) => Ok((name, value)),
        Err(FieldFault::NoMemory) => Err(RecordFault::NoMemory),
        Err(fault) => Err(RecordFault::BadField { name, fault }),
    }
}

fn read_wishes(
    alloc: Global,
    members: &Map<String, Json>,
    here: &ZoneKey,
    caller: &UserName,
) -> Result<Wishes, RecordFault>
    ensures wishes { IsToldUnless RecordFault.NoMemory result
        (each_or_first_error (wish_of here.now caller.now)
        (entries (members_view members.now.entries))) }
    ensures meant { IfOk result AreWishes }
{
    let mut wishes = Vec::new(alloc);
    for (name, json) in members.iter() {
        let wish = read_wish(alloc, name.as_str(), json, here, caller)?;
        wishes.push(wish)?;
    }
    Ok(Items::from_vec(wishes))
}

fn wishes_in(
    alloc: Global,
    json: &Json,
    here: &ZoneKey,
    caller: &UserName,
) -> Result<Wishes, RecordFault>
    ensures wishes { IsToldUnless RecordFault.NoMemory result
        (wishes_in here.now caller.now (as_object (view json.now))) }
    ensures meant { IfOk result AreWishes }
{
    match json.as_object() {
        Some(members) if are_named(members) => read_wishes(alloc, members, here, caller),
        _ => Err(RecordFault::BadKey(RecordKey::Fields)),
    }
}

/// The fields that a record of a request gives, none where it says nothing of them.
pub(crate) fn read_fields(
    alloc: Global,
    json: Option<&Json>,
    here: &ZoneKey,
    caller: &UserName,
) -> Result<Wishes, RecordFault>
    ensures wishes { IsToldUnless RecordFault.NoMemory result
        (fields_at here.now caller.now (option_map (λ v. view v.now) json.entry)) }
    ensures meant { IfOk result AreWishes }
{
    match json {
        Some(json) => wishes_in(alloc, json, here, caller),
        None => Ok(Items::new(alloc)),
    }
}
