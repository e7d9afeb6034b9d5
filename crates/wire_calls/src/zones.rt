// The zone that a call names.
ghost use Rattle.std.specs.Prelude.{◌≡◌, IfOk, IfErr, option_map};
ghost use Rattle.serde_json.specs.View.{view};
ghost use Rattle.ck_base.specs.Told.{IsToldUnless};
ghost use Rattle.field_values.specs.ZoneIds.{IsMeantZone};
ghost use Rattle.ck_base.specs.KnownNames.{own_default};
ghost use Rattle.wire_calls.specs.Zones.{zone_at};

use crate::{BadCall, CallKey};
use ck_base::known::DEFAULT_ZONE;
use ck_base::{UserName, ZoneKey, zone_name};
use field_values::zone_in;
use serde_json::Value as Json;
use std::alloc::Global;

fn own_default(alloc: Global, caller: &UserName) -> Result<ZoneKey, BadCall>
    ensures key { IfOk result (λ key. key ≡ own_default caller.now) }
    ensures meant { IfOk result (IsMeantZone caller.now) }
    ensures memory { IfErr result (λ fault. fault ≡ BadCall.NoMemory) }
{
    let Ok(zone) = zone_name(alloc, DEFAULT_ZONE.as_bytes()) else {
        return Err(BadCall::NoMemory);
    };
    let owner = caller.clone()?;
    Ok(ZoneKey { owner, zone })
}

/// The zone that a call names, the caller's default zone where it names none.
pub(crate) fn zone_at(
    alloc: Global,
    caller: &UserName,
    json: Option<&Json>,
) -> Result<ZoneKey, BadCall>
    ensures key { IsToldUnless BadCall.NoMemory result
        (zone_at caller.now (option_map (λ v. view v.now) json.entry)) }
    ensures meant { IfOk result (IsMeantZone caller.now) }
{
    let Some(json) = json else {
        return own_default(alloc, caller);
    };
    match zone_in(alloc, caller, json)? {
        Some(key) => Ok(key),
        None => Err(BadCall::BadKey(CallKey::ZoneId)),
    }
}
