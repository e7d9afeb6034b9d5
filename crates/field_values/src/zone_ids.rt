// Zone IDs in JSON.
ghost use Rattle.std.specs.Prelude.{◌≡◌, IfOk, IfSome, option_map};
ghost use Rattle.serde_json.specs.View.{view};
ghost use Rattle.field_values.specs.ZoneIds.{owner_of, owner_in, zone_in, zone_data, IsMeantOwner, IsMeantZone};

use crate::members::member;
use crate::names::name_in;
use ck_base::known::DEFAULT_OWNER;
use ck_base::{NoMemory, UserName, ZoneKey};
use serde_json::{Value as Json, json};
use std::alloc::Global;

fn owner_of(caller: &UserName, name: UserName) -> Result<UserName, NoMemory>
    ensures meant { IfOk result (IsMeantOwner caller.now) }
    ensures owner { IfOk result (λ owner. owner ≡ owner_of caller.now name) }
{
    if name.as_bytes() == DEFAULT_OWNER.as_bytes() {
        Ok(caller.clone()?)
    } else {
        Ok(name)
    }
}

fn owner_in(
    alloc: Global,
    caller: &UserName,
    json: Option<&Json>,
) -> Result<Option<UserName>, NoMemory>
    ensures meant { IfOk result (λ owner. IfSome owner (IsMeantOwner caller.now)) }
    ensures owner { IfOk result (λ owner.
        owner ≡ owner_in caller.now (option_map (λ v. view v.now) json.entry)) }
{
    if json.is_none() {
        return Ok(Some(caller.clone()?));
    }
    match name_in(alloc, json)? {
        Some(name) => Ok(Some(owner_of(caller, name)?)),
        None => Ok(None),
    }
}

/// The zone that a zone ID of the caller means, where JSON is one. It fails only where memory runs
/// out.
pub fn zone_in(alloc: Global, caller: &UserName, json: &Json) -> Result<Option<ZoneKey>, NoMemory>
    ensures key { IfOk result (λ key. key ≡ zone_in caller.now (view json.now)) }
    ensures meant { IfOk result (λ key. IfSome key (IsMeantZone caller.now)) }
{
    let Some(owner) = owner_in(alloc, caller, member(json, "ownerRecordName"))? else {
        return Ok(None);
    };
    match name_in(alloc, member(json, "zoneName"))? {
        Some(zone) => Ok(Some(ZoneKey { owner, zone })),
        None => Ok(None),
    }
}

/// The zone ID of a zone, with its owner. It fails only where memory runs out.
pub fn zone_json(alloc: Global, key: &ZoneKey) -> Result<Json, NoMemory>
    ensures { IfOk result (λ json. view json ≡ zone_data key.now) }
{
    let owner = key.owner.as_str();
    let zone = key.zone.as_str();
    Ok(json!(in alloc; {"ownerRecordName": owner, "zoneName": zone})?)
}
