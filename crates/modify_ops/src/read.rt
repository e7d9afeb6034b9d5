// Reading the operations of a request.
ghost use Rattle.std.specs.Prelude.{◌≡◌, IfOk, map, None};
ghost use Rattle.serde_json.specs.View.{view};
ghost use Rattle.ck_base.specs.Told.{IsToldUnless};
ghost use Rattle.modify_ops.specs.Reading.{distinct, within, ops_of};
ghost use Rattle.zone_model.specs.OpForms.{AreMeantOps};
ghost use Rattle.zone_model.specs.GivenNames.{named_again};

use crate::form::read_each;
use crate::{BadOps, Ops, named_again};
use ck_base::limits::LIST_ITEMS;
use ck_base::{UserName, ZoneKey};
use serde_json::Value as Json;
use std::alloc::Global;

fn distinct(ops: Ops) -> Result<Ops, BadOps>
    ensures ops { IsToldUnless BadOps.NoMemory result (distinct ops) }
    ensures same { IfOk result (λ kept. kept ≡ ops) }
    ensures once { IfOk result (λ kept. named_again kept ≡ None) }
{
    if let Some(name) = named_again(&ops) {
        return Err(BadOps::Twice(name.clone()?));
    }
    Ok(ops)
}

fn read_within(
    alloc: Global,
    items: &[Json],
    here: &ZoneKey,
    caller: &UserName,
) -> Result<Ops, BadOps>
    ensures ops { IsToldUnless BadOps.NoMemory result
        (within here.now caller.now (map view items.now)) }
    ensures meant { IfOk result AreMeantOps }
{
    if items.len() > LIST_ITEMS {
        return Err(BadOps::TooMany(items.len() as u64));
    }
    let ops = read_each(alloc, items, here, caller)?;
    distinct(ops)
}

/// The operations that JSON is in a request, as `operations` of "Modifying Records" in the CloudKit
/// Web Services Reference, where `caller` asks them of the zone `here`. The error is the first of
/// `BadOps`, in its order. Of a deletion only the name and the change tag of its record are read.
#[tactic(auto, using(field_values::proofs::ListLemmas::elements_items))]
pub fn read_ops(
    alloc: Global,
    json: &Json,
    here: &ZoneKey,
    caller: &UserName,
) -> Result<Ops, BadOps>
    ensures ops { IsToldUnless BadOps.NoMemory result (ops_of here.now caller.now (view json.now)) }
    ensures meant { IfOk result AreMeantOps }
{
    match json.as_array() {
        Some(items) => read_within(alloc, items, here, caller),
        None => Err(BadOps::BadOp(0)),
    }
}
