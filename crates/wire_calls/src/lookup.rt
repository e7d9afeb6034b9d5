// Reading the call for records by their names.
ghost use Rattle.std.specs.Prelude.{◌≡◌, ◌≤◌, IfOk, IfSome, OnOk, Ok, length, option_map};
ghost use Rattle.serde_json.specs.View.{view};
ghost use Rattle.ck_base.specs.Told.{IsToldUnless};
ghost use Rattle.wire_calls.specs.Meant.{IsMeantLookup};
ghost use Rattle.wire_calls.specs.Calls.{lookup_of};
ghost use Rattle.wire_calls.specs.Limits.{most_of, limited, limited_if};
ghost use Rattle.wire_calls.specs.declared.limits.CallList.TheVariants.{DesiredKeys as KeyList, Records as RecordList};

use crate::limits::check_count;
use crate::lists::{keys_at, records_at};
use crate::members::flag_at;
use crate::zones::zone_at;
use crate::{BadCall, CallKey, CallList, LookupCall};
use ck_base::{Database, RecordNames, UserName};
use field_values::member;
use serde_json::Value as Json;
use std::alloc::Global;

fn limited(list: CallList, names: &RecordNames) -> Result<(), BadCall>
    ensures limit { result ≡ limited list names.now (Ok tt) }
    ensures count { OnOk result (length names.now ≤ most_of list) }
{
    check_count(list, names.len())
}

fn limited_if(list: CallList, names: &Option<RecordNames>) -> Result<(), BadCall>
    ensures limit { result ≡ limited_if list names.now (Ok tt) }
    ensures count { OnOk result (IfSome names.now (λ names. length names ≤ most_of list)) }
{
    match names {
        Some(names) => limited(list, names),
        None => Ok(()),
    }
}

// Whether the list of fields is short enough, and then the names.
fn limits(keys: &Option<RecordNames>, names: &RecordNames) -> Result<(), BadCall>
    ensures limit { result ≡ limited_if KeyList keys.now (limited RecordList names.now (Ok tt)) }
    ensures keys { OnOk result (IfSome keys.now (λ keys. length keys ≤ most_of KeyList)) }
    ensures names { OnOk result (length names.now ≤ most_of RecordList) }
{
    limited_if(CallList::DesiredKeys, keys)?;
    limited(CallList::Records, names)
}

/// The call for records by their names, as its body has it.
pub(crate) fn read_lookup(
    alloc: Global,
    database: Database,
    caller: &UserName,
    json: &Json,
) -> Result<LookupCall, BadCall>
    ensures call { IsToldUnless BadCall.NoMemory result
        (lookup_of database caller.now (view json.now)) }
    ensures meant { IfOk result IsMeantLookup }
{
    let zone = zone_at(alloc, caller, member(json, "zoneID"))?;
    let numbers_as_strings = flag_at(
        CallKey::NumbersAsStrings,
        false,
        member(json, "numbersAsStrings"),
    )?;
    let desired_keys = keys_at(alloc, member(json, "desiredKeys"))?;
    let names = records_at(alloc, member(json, "records"))?;
    limits(&desired_keys, &names)?;
    Ok(LookupCall {
        caller: caller.clone()?,
        database,
        zone,
        numbers_as_strings,
        desired_keys,
        names,
    })
}
