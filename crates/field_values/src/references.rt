// References in JSON.
ghost use Rattle.std.specs.Prelude.{◌≡◌, option_map, ok_or, codes, IfOk};
ghost use Rattle.ck_base.specs.Names.{IsName};
ghost use Rattle.serde_json.specs.View.{view};
ghost use Rattle.ck_base.specs.Told.{IsToldUnless};
ghost use Rattle.field_values.specs.Members.{found};
ghost use Rattle.field_values.specs.declared.fault.FieldFault.TheVariants.{WrongValue as WrongName};
ghost use Rattle.field_values.specs.References.{action_name, action_named, action_in, name_in, is_text, is_owner, is_here, reference_of};

use crate::FieldFault;
use crate::members::member;
use crate::names::name_in;
use ck_base::known::DEFAULT_OWNER;
use ck_base::{RecordName, UserName, ZoneKey};
use record_model::{Action, RefTo};
use serde_json::Value as Json;
use std::alloc::Global;

const ACTIONS: [Action; 3] = [Action::Plain, Action::DeleteSelf, Action::Validate];

pub(crate) fn action_name(action: Action) -> &'static str
    ensures { result.now ≡ action_name action }
{
    match action {
        Action::Plain => "NONE",
        Action::DeleteSelf => "DELETE_SELF",
        Action::Validate => "VALIDATE",
    }
}

fn action_named(name: &str) -> Option<Action>
    ensures { result ≡ action_named name.now }
{
    ACTIONS
        .iter()
        .copied()
        .find(|action| action_name(*action) == name)
}

fn read_action(json: Option<&Json>) -> Option<Action>
    ensures { result ≡ action_in (option_map (λ v. view v.now) json.entry) }
{
    match json {
        Some(json) => json.as_str().and_then(action_named),
        None => Some(Action::Plain),
    }
}

fn is_text(text: &[u8], json: Option<&Json>) -> bool
    ensures { result ≡ is_text text.now (option_map (λ v. view v.now) json.entry) }
{
    match json.and_then(Json::as_str) {
        Some(found) => found.as_bytes() == text,
        None => false,
    }
}

fn is_owner(owner: &UserName, caller: &UserName, json: Option<&Json>) -> bool
    ensures { result ≡ is_owner owner.now caller.now (option_map (λ v. view v.now) json.entry) }
{
    if json.is_none() || is_text(DEFAULT_OWNER.as_bytes(), json) {
        caller.as_bytes() == owner.as_bytes()
    } else {
        is_text(owner.as_bytes(), json)
    }
}

fn is_here(here: &ZoneKey, caller: &UserName, json: Option<&Json>) -> bool
    ensures { result ≡ is_here here.now caller.now (option_map (λ v. view v.now) json.entry) }
{
    match json {
        Some(id) => {
            is_text(here.zone.as_bytes(), member(id, "zoneName"))
                && is_owner(&here.owner, caller, member(id, "ownerRecordName"))
        }
        None => true,
    }
}

fn read_name(alloc: Global, json: Option<&Json>) -> Result<RecordName, FieldFault>
    ensures name { IsToldUnless FieldFault.NoMemory result
        (ok_or (name_in (option_map (λ v. view v.now) json.entry)) WrongName) }
    ensures meant { IfOk result IsName }
{
    match name_in(alloc, json)? {
        Some(name) => Ok(name),
        None => Err(FieldFault::WrongValue),
    }
}

/// The reference that a JSON value is, to a record of the zone `here` in a request of `caller`.
pub(crate) fn read_reference(
    alloc: Global,
    json: &Json,
    here: &ZoneKey,
    caller: &UserName,
) -> Result<RefTo, FieldFault>
    ensures reference { IsToldUnless FieldFault.NoMemory result
        (reference_of here.now caller.now (view json.now)) }
    ensures meant { IfOk result (λ to. IsName to.name) }
{
    if !is_here(here, caller, member(json, "zoneID")) {
        return Err(FieldFault::WrongValue);
    }
    let Some(action) = read_action(member(json, "action")) else {
        return Err(FieldFault::WrongValue);
    };
    let name = read_name(alloc, member(json, "recordName"))?;
    Ok(RefTo { name, action })
}
