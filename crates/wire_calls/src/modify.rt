// Reading the call that changes records.
ghost use Rattle.std.specs.Prelude.{◌≡◌, IfOk, option_map};
ghost use Rattle.std.specs.List.{AllByRecursion};
ghost use Rattle.serde_json.specs.View.{view};
ghost use Rattle.ck_base.specs.Told.{IsToldUnless};
ghost use Rattle.zone_model.specs.OpForms.{IsMeantOp, AreMeantOps};
ghost use Rattle.wire_calls.specs.Meant.{IsMeantModify};
ghost use Rattle.wire_calls.specs.Calls.{ops_at, checked, modify_of};

use crate::limits::check_count;
use crate::members::flag_at;
use crate::zones::zone_at;
use crate::{BadCall, CallKey, CallList, ModifyCall};
use ck_base::{Database, UserName, ZoneKey};
use field_values::member;
use modify_ops::{BadOps, Ops, named_again, read_op_list};
use serde_json::Value as Json;
use std::alloc::Global;

fn ops_at(
    alloc: Global,
    json: Option<&Json>,
    here: &ZoneKey,
    caller: &UserName,
) -> Result<Ops, BadCall>
    ensures ops { IsToldUnless BadCall.NoMemory result
        (ops_at here.now caller.now (option_map (λ v. view v.now) json.entry)) }
    ensures meant { IfOk result (AllByRecursion IsMeantOp) }
{
    let Some(json) = json else {
        return Err(BadCall::BadKey(CallKey::Operations));
    };
    match read_op_list(alloc, json, here, caller) {
        Ok(ops) => Ok(ops),
        Err(BadOps::NoMemory) => Err(BadCall::NoMemory),
        Err(_) => Err(BadCall::BadKey(CallKey::Operations)),
    }
}

fn checked(ops: Ops) -> Result<Ops, BadCall>
    ensures ops { IsToldUnless BadCall.NoMemory result (checked ops) }
    ensures same { IfOk result (λ kept. kept ≡ ops) }
    ensures meant { AllByRecursion IsMeantOp ops → IfOk result AreMeantOps }
{
    check_count(CallList::Operations, ops.len())?;
    if let Some(name) = named_again(&ops) {
        return Err(BadCall::Twice(name.clone()?));
    }
    Ok(ops)
}

/// The call that changes records, as its body has it.
pub(crate) fn read_modify(
    alloc: Global,
    database: Database,
    caller: &UserName,
    json: &Json,
) -> Result<ModifyCall, BadCall>
    ensures call { IsToldUnless BadCall.NoMemory result
        (modify_of database caller.now (view json.now)) }
    ensures meant { IfOk result IsMeantModify }
{
    let zone = zone_at(alloc, caller, member(json, "zoneID"))?;
    let atomic = flag_at(CallKey::Atomic, true, member(json, "atomic"))?;
    let numbers_as_strings = flag_at(
        CallKey::NumbersAsStrings,
        false,
        member(json, "numbersAsStrings"),
    )?;
    let ops = ops_at(alloc, member(json, "operations"), &zone, caller)?;
    let ops = checked(ops)?;
    Ok(ModifyCall {
        caller: caller.clone()?,
        database,
        zone,
        atomic,
        numbers_as_strings,
        ops,
    })
}
