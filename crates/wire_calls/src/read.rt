// Reading the body of a request.
ghost use Rattle.std.specs.Prelude.{◌≡◌, None, Some, Ok, Err, IfOk, OnOk};
ghost use Rattle.serde_json.specs.Data.{Data, object, no_members};
ghost use Rattle.serde_json.specs.View.{view};
ghost use Rattle.ck_base.specs.Told.{IsToldUnless};
ghost use Rattle.wire_calls.specs.Meant.{IsMeantCall};
ghost use Rattle.wire_calls.specs.Calls.{call_as, no_call, object_in, of_object, has_body, call_of, IsJson};
ghost use Rattle.wire_calls.specs.Means.{Means};
ghost use Rattle.wire_calls.specs.declared.call.Call.{Call};

use crate::built::{CallKind, is_built_operation, kind_of};
use crate::lookup::read_lookup;
use crate::modify::read_modify;
use crate::{BadCall, Call};
use ck_base::{Operation, Route, UserName};
use serde_json::{Map, Value as Json};
use std::alloc::Global;

// The call of a kind that an object is.
fn read_as(
    alloc: Global,
    kind: CallKind,
    route: &Route,
    caller: &UserName,
    json: &Json,
) -> Result<Call, BadCall>
    ensures call { IsToldUnless BadCall.NoMemory result
        (call_as route.now.database caller.now kind (view json.now)) }
    ensures meant { IfOk result IsMeantCall }
{
    match kind {
        CallKind::ModifyRecords => {
            let call = read_modify(alloc, route.database, caller, json)?;
            Ok(Call::Modify(call))
        }
        CallKind::LookupRecords => {
            let call = read_lookup(alloc, route.database, caller, json)?;
            Ok(Call::Lookup(call))
        }
    }
}

fn read_object(
    alloc: Global,
    route: &Route,
    caller: &UserName,
    json: &Json,
) -> Result<Call, BadCall>
    ensures call { IsToldUnless BadCall.NoMemory result
        (of_object route.now caller.now (object_in (Some (view json.now)))) }
    ensures meant { IfOk result IsMeantCall }
{
    if !json.is_object() {
        return Err(no_call(route.operation));
    }
    match kind_of(route.operation) {
        Some(kind) => read_as(alloc, kind, route, caller, json),
        None => Err(BadCall::NotBuilt),
    }
}

// What is wrong with a body that is no object.
fn no_call(operation: Operation) -> BadCall
    ensures { result ≡ no_call operation }
{
    if is_built_operation(operation) {
        BadCall::NotJson
    } else {
        BadCall::NotBuilt
    }
}

// Whether the operation's method is POST. The others list all that there is, by GET.
fn has_body(operation: Operation) -> bool
    ensures { result ≡ has_body operation }
{
    match operation {
        Operation::ZonesList => false,
        Operation::SubscriptionsList => false,
        _ => true,
    }
}

fn read_with_body(
    alloc: Global,
    route: &Route,
    caller: &UserName,
    body: &[u8],
) -> Result<Call, BadCall>
    ensures call { (d : Data) → IsJson body.now d
        → IsToldUnless BadCall.NoMemory result
        (of_object route.now caller.now (object_in (Some d))) }
    ensures none { ((d : Data) → ¬ IsJson body.now d)
        → IsToldUnless BadCall.NoMemory result (Err (no_call route.now.operation)) }
    ensures json { OnOk result ((d : Data) × IsJson body.now d) }
    ensures meant { IfOk result IsMeantCall }
{
    match Json::from_slice(alloc, body) {
        Ok(json) => read_object(alloc, route, caller, &json),
        Err(error) if error.is_memory() => Err(BadCall::NoMemory),
        Err(_) => Err(no_call(route.operation)),
    }
}

// The call that the empty object is.
fn read_without_body(alloc: Global, route: &Route, caller: &UserName) -> Result<Call, BadCall>
    ensures call { IsToldUnless BadCall.NoMemory result
        (of_object route.now caller.now (Some (object no_members))) }
    ensures meant { IfOk result IsMeantCall }
{
    let nothing = Json::Object(Map::new(alloc));
    read_object(alloc, route, caller, &nothing)
}

/// The call that a body is by its route, where `caller` makes it. The error is the first of
/// `BadCall`, in its order; of the members of a call each is looked at in turn. Members that are not
/// known are not looked at, nor is the body of a GET, which means what the empty object means.
pub fn read_call(
    alloc: Global,
    route: &Route,
    caller: &UserName,
    body: &[u8],
) -> Result<Call, BadCall>
    ensures means { IfOk result (Means route.now caller.now body.now) }
    ensures only { (call : Call) → Means route.now caller.now body.now call
        → IsToldUnless BadCall.NoMemory result (Ok call) }
    ensures call { (d : Data) → IsJson body.now d
        → IsToldUnless BadCall.NoMemory result (call_of route.now caller.now (Some d)) }
    ensures none { ((d : Data) → ¬ IsJson body.now d)
        → IsToldUnless BadCall.NoMemory result (call_of route.now caller.now None) }
    ensures meant { IfOk result IsMeantCall }
{
    if has_body(route.operation) {
        read_with_body(alloc, route, caller, body)
    } else {
        read_without_body(alloc, route, caller)
    }
}
