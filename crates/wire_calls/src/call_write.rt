// The JSON of calls.
ghost use Rattle.std.specs.Prelude.{◌≡◌, IfOk, map, option_map, string_bytes};
ghost use Rattle.serde_json.specs.Data.{string};
ghost use Rattle.serde_json.specs.View.{view};
ghost use Rattle.serde_json.specs.Written.{compact_text};
ghost use Rattle.ck_records.specs.Writing.{named_data};
ghost use Rattle.wire_calls.specs.Meant.{IsMeantCall, route_of, caller_of};
ghost use Rattle.wire_calls.specs.Means.{Means};
ghost use Rattle.wire_calls.specs.CallWriting.{flag_data, zone_given, names_data, records_data, modify_data, lookup_data, call_data};

use crate::{Call, LookupCall, ModifyCall};
use ck_base::{NoMemory, RecordName, RecordNames, UserName, ZoneKey, is_own_default};
use ck_records::put_some;
use field_values::zone_json;
use modify_ops::ops_json;
use serde_json::{Map, Value as Json, json};
use std::alloc::Global;

fn flag_json(default: bool, flag: bool) -> Option<Json>
    ensures { option_map view result ≡ flag_data default flag }
{
    if flag == default {
        None
    } else {
        Some(Json::Bool(flag))
    }
}

fn zone_given(alloc: Global, caller: &UserName, key: &ZoneKey) -> Result<Option<Json>, NoMemory>
    ensures { IfOk result (λ json. option_map view json ≡ zone_given caller.now key.now) }
{
    if is_own_default(caller, key) {
        Ok(None)
    } else {
        Ok(Some(zone_json(alloc, key)?))
    }
}

fn each_name(alloc: Global, names: &[RecordName]) -> Result<Vec<Json>, NoMemory>
    ensures { IfOk result (λ list. map view list.items ≡ map string names.now) }
{
    let mut list = Vec::new(alloc);
    for name in names {
        list.push(Json::try_from_str(alloc, name.as_str())?)?;
    }
    Ok(list)
}

fn keys_json(alloc: Global, keys: &Option<RecordNames>) -> Result<Option<Json>, NoMemory>
    ensures { IfOk result (λ json. option_map view json ≡ option_map names_data keys.now) }
{
    match keys {
        Some(keys) => Ok(Some(Json::Array(each_name(alloc, keys.as_slice())?))),
        None => Ok(None),
    }
}

fn name_json(alloc: Global, name: &RecordName) -> Result<Json, NoMemory>
    ensures { IfOk result (λ json. view json ≡ named_data name.now) }
{
    let name = name.as_str();
    Ok(json!(in alloc; {"recordName": name})?)
}

fn each_record(alloc: Global, names: &[RecordName]) -> Result<Vec<Json>, NoMemory>
    ensures { IfOk result (λ list. map view list.items ≡ map named_data names.now) }
{
    let mut list = Vec::new(alloc);
    for name in names {
        list.push(name_json(alloc, name)?)?;
    }
    Ok(list)
}

fn records_json(alloc: Global, names: &RecordNames) -> Result<Json, NoMemory>
    ensures { IfOk result (λ json. view json ≡ records_data names.now) }
{
    Ok(Json::Array(each_record(alloc, names.as_slice())?))
}

fn modify_json(alloc: Global, call: &ModifyCall) -> Result<Json, NoMemory>
    ensures { IfOk result (λ json. view json ≡ modify_data call.now) }
{
    let mut members = Map::new(alloc);
    put_some(
        &mut members,
        alloc,
        "zoneID",
        zone_given(alloc, &call.caller, &call.zone)?,
    )?;
    put_some(
        &mut members,
        alloc,
        "operations",
        Some(ops_json(alloc, &call.ops)?),
    )?;
    let numbers = flag_json(false, call.numbers_as_strings);
    put_some(&mut members, alloc, "numbersAsStrings", numbers)?;
    let atomic = flag_json(true, call.atomic);
    put_some(&mut members, alloc, "atomic", atomic)?;
    Ok(Json::Object(members))
}

fn lookup_json(alloc: Global, call: &LookupCall) -> Result<Json, NoMemory>
    ensures { IfOk result (λ json. view json ≡ lookup_data call.now) }
{
    let mut members = Map::new(alloc);
    put_some(
        &mut members,
        alloc,
        "zoneID",
        zone_given(alloc, &call.caller, &call.zone)?,
    )?;
    put_some(
        &mut members,
        alloc,
        "records",
        Some(records_json(alloc, &call.names)?),
    )?;
    let numbers = flag_json(false, call.numbers_as_strings);
    put_some(&mut members, alloc, "numbersAsStrings", numbers)?;
    put_some(
        &mut members,
        alloc,
        "desiredKeys",
        keys_json(alloc, &call.desired_keys)?,
    )?;
    Ok(Json::Object(members))
}

/// The JSON of a call, which is read as this call where some body means it. What a body means by
/// default is left out. It fails only where memory runs out.
pub fn call_json(alloc: Global, call: &Call) -> Result<Json, NoMemory>
    ensures { IfOk result (λ json. view json ≡ call_data call.now) }
{
    match call {
        Call::Modify(call) => modify_json(alloc, call),
        Call::Lookup(call) => lookup_json(alloc, call),
    }
}

/// The body of a request with the call: the text of `call_json`. Where some body means the call, this
/// one does. It fails only where memory runs out.
pub fn call_text(alloc: Global, call: &Call) -> Result<String, NoMemory>
    ensures means { IsMeantCall call.now → IfOk result (λ text.
        Means (route_of call.now) (caller_of call.now) (string_bytes text) call.now) }
    ensures text { IfOk result (λ text.
        string_bytes text ≡ compact_text (call_data call.now)) }
{
    let json = call_json(alloc, call)?;
    Ok(json.to_string(alloc)?)
}
