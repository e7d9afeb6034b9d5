// Reading operations, each by itself.
ghost use Rattle.std.specs.Prelude.{◌≡◌, Some, IfOk, IfSome, IsUtf8, length, map, ok_or, option_map};
ghost use Rattle.std.specs.Result.{result_ok};
ghost use Rattle.std.specs.List.{AllByRecursion};
ghost use Rattle.serde_json.specs.View.{view};
ghost use Rattle.ck_base.specs.Told.{IsToldUnless};
ghost use Rattle.record_model.specs.DraftForms.{IsMeantDraft};
ghost use Rattle.ck_records.specs.Reading.{tag_in, draft_of};
ghost use Rattle.modify_ops.specs.declared.fault.BadOps.TheVariants.{BadOp as IsBad};
ghost use Rattle.modify_ops.specs.Forms.{deletion_of, draft_as, op_from, op_as, op_of, ops_from};
ghost use Rattle.modify_ops.specs.Reading.{list_of};
ghost use Rattle.zone_model.specs.OpForms.{bare, IsBare, IsMeantOp, IsMeantAs};

use crate::kind::kind_named;
use crate::{BadOps, Op, OpKind, Ops};
use ck_base::{Items, NoMemory, RecordName, Text, UserName, ZoneKey};
use ck_records::{Draft, ParentWish, RecordFault, read_record};
use drawn_names::is_deletion;
use field_values::{member, name_in};
use serde_json::Value as Json;
use std::alloc::Global;

// Any text, or none; nothing where it is no text.
fn read_tag(alloc: Global, json: Option<&Json>) -> Result<Option<Option<Text>>, NoMemory>
    ensures tag { IfOk result (λ tag. tag ≡ tag_in (option_map (λ v. view v.now) json.entry)) }
    ensures meant { IfOk result (λ found. IfSome found (λ tag. IfSome tag IsUtf8)) }
{
    match json {
        Some(Json::String(text)) => Ok(Some(Some(Text::from_str(alloc, text.as_str())?))),
        Some(_) => Ok(None),
        None => Ok(Some(None)),
    }
}

fn bare(alloc: Global, name: RecordName, tag: Option<Text>) -> Draft
    ensures { result ≡ bare name tag }
{
    Draft {
        name: Some(name),
        rtype: None,
        tag,
        parent: ParentWish::Absent,
        fields: Items::new(alloc),
        for_root: None,
        public: None,
        participants: None,
    }
}

// The record that a deletion names.
fn read_deletion(alloc: Global, json: &Json) -> Result<Option<Draft>, NoMemory>
    ensures draft { IfOk result (λ draft. draft ≡ deletion_of (view json.now)) }
    ensures meant { IfOk result (λ draft. IfSome draft IsBare) }
{
    let Some(name) = name_in(alloc, member(json, "recordName"))? else {
        return Ok(None);
    };
    match read_tag(alloc, member(json, "recordChangeTag"))? {
        Some(tag) => Ok(Some(bare(alloc, name, tag))),
        None => Ok(None),
    }
}

// A record that is to be put.
fn read_put(
    alloc: Global,
    json: &Json,
    here: &ZoneKey,
    caller: &UserName,
) -> Result<Option<Draft>, NoMemory>
    ensures draft { IfOk result (λ draft.
        draft ≡ result_ok (draft_of here.now caller.now (view json.now))) }
    ensures meant { IfOk result (λ draft. IfSome draft IsMeantDraft) }
{
    match read_record(alloc, json, here, caller) {
        Ok(draft) => Ok(Some(draft)),
        Err(RecordFault::NoMemory) => Err(NoMemory),
        Err(RecordFault::NotARecord) => Ok(None),
        Err(RecordFault::BadKey(_)) => Ok(None),
        Err(RecordFault::BadField { .. }) => Ok(None),
    }
}

fn read_draft(
    alloc: Global,
    kind: OpKind,
    json: &Json,
    here: &ZoneKey,
    caller: &UserName,
) -> Result<Option<Draft>, NoMemory>
    ensures draft { IfOk result (λ draft. draft ≡ draft_as here.now caller.now kind (view json.now)) }
    ensures meant { IfOk result (λ draft. IfSome draft (IsMeantAs kind)) }
{
    if is_deletion(kind) {
        read_deletion(alloc, json)
    } else {
        read_put(alloc, json, here, caller)
    }
}

// Only a create may be without a name.
fn op_from(kind: OpKind, draft: Draft) -> Option<Op>
    ensures op { result ≡ op_from kind (Some draft) }
    ensures meant { IsMeantAs kind draft → IfSome result IsMeantOp }
{
    if kind == OpKind::Create || draft.name.is_some() {
        Some(Op { kind, draft })
    } else {
        None
    }
}

fn read_op(
    alloc: Global,
    json: &Json,
    here: &ZoneKey,
    caller: &UserName,
) -> Result<Option<Op>, NoMemory>
    ensures op { IfOk result (λ op. op ≡ op_of here.now caller.now (view json.now)) }
    ensures meant { IfOk result (λ op. IfSome op IsMeantOp) }
{
    let word = member(json, "operationType").and_then(Json::as_str);
    let Some(kind) = word.and_then(kind_named) else {
        return Ok(None);
    };
    let Some(record) = member(json, "record") else {
        return Ok(None);
    };
    match read_draft(alloc, kind, record, here, caller)? {
        Some(draft) => Ok(op_from(kind, draft)),
        None => Ok(None),
    }
}

fn read_op_at(
    alloc: Global,
    place: u64,
    json: &Json,
    here: &ZoneKey,
    caller: &UserName,
) -> Result<Op, BadOps>
    ensures op { IsToldUnless BadOps.NoMemory result
        (ok_or (op_of here.now caller.now (view json.now)) (IsBad place)) }
    ensures meant { IfOk result IsMeantOp }
{
    match read_op(alloc, json, here, caller)? {
        Some(op) => Ok(op),
        None => Err(BadOps::BadOp(place)),
    }
}

pub(crate) fn read_each(
    alloc: Global,
    items: &[Json],
    here: &ZoneKey,
    caller: &UserName,
) -> Result<Ops, BadOps>
    ensures ops { IsToldUnless BadOps.NoMemory result
        (ops_from here.now caller.now 0 (map view items.now)) }
    ensures count { IfOk result (λ ops. length ops ≡ length items.now) }
    ensures meant { IfOk result (AllByRecursion IsMeantOp) }
{
    let mut ops = Vec::new(alloc);
    let mut place = 0;
    for item in items {
        ops.push(read_op_at(alloc, place, item, here, caller)?)?;
        place += 1;
    }
    Ok(Items::from_vec(ops))
}

/// The operations that a list of them in a request is, each by itself, where `caller` asks them of
/// the zone `here`. Its faults are `BadOp` and `NoMemory`. It looks at each operation of a longer
/// list than a request may have, and not at whether a name comes twice.
#[tactic(auto, using(field_values::proofs::ListLemmas::elements_items))]
pub fn read_op_list(
    alloc: Global,
    json: &Json,
    here: &ZoneKey,
    caller: &UserName,
) -> Result<Ops, BadOps>
    ensures ops { IsToldUnless BadOps.NoMemory result (list_of here.now caller.now (view json.now)) }
    ensures meant { IfOk result (AllByRecursion IsMeantOp) }
{
    match json.as_array() {
        Some(items) => read_each(alloc, items, here, caller),
        None => Err(BadOps::BadOp(0)),
    }
}
