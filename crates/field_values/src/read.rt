// Reading a field.
ghost use Rattle.std.specs.Prelude.{◌≡◌, option_map, map, IfOk, IfSome, IsUtf8};
ghost use Rattle.std.specs.List.{AllByRecursion};
ghost use Rattle.record_model.specs.ValueForms.{AreBytes};
ghost use Rattle.ck_base.specs.Told.{IsToldUnless};
ghost use Rattle.serde_json.specs.Find.{as_array};
ghost use Rattle.serde_json.specs.View.{view};
ghost use Rattle.field_values.specs.Members.{is_true};
ghost use Rattle.field_values.specs.Results.{each_or_first_error};
ghost use Rattle.field_values.specs.Reading.{is_field, text_of, bytes_of, single_of, list_of, value_of, field_of};
ghost use Rattle.record_model.specs.ValueForms.{IsElement, IsMeant};

use crate::FieldFault;
use crate::members::member;
use crate::numbers::read_whole;
use crate::references::read_reference;
use crate::shapes::type_wanted;
use base64::DecodeAllocError;
use base64::engine::general_purpose::STANDARD;
use ck_base::{Bytes, Items, Text, UserName, ZoneKey};
use record_model::{Kind, Shape, Value, Values};
use serde_json::Value as Json;
use std::alloc::Global;

/// The value of a field, or `None` where it is null. A field is an object with `value` and perhaps
/// `type`, which `caller` writes into a record of the zone `here`: a reference may name no other
/// zone. Whole numbers may stand as texts where the type is given. The error is the first fault
/// that applies, as `FieldFault` lists them.
pub fn read_field(
    alloc: Global,
    json: &Json,
    here: &ZoneKey,
    caller: &UserName,
) -> Result<Option<Value>, FieldFault>
    ensures field { IsToldUnless FieldFault.NoMemory result
        (field_of here.now caller.now (view json.now)) }
    ensures meant { IfOk result (λ value. IfSome value IsMeant) }
{
    if !is_field(json) {
        return Err(FieldFault::NotAField);
    }
    let Some(value) = member(json, "value") else {
        return Ok(None);
    };
    let shape = type_wanted(member(json, "type"), value)?;
    let value = read_value(alloc, shape, value, here, caller)?;
    Ok(Some(value))
}

fn is_field(json: &Json) -> bool
    ensures { result ≡ is_field (view json.now) }
{
    json.get("value").is_some() && !is_true(json.get("isEncrypted"))
}

fn is_true(json: Option<&Json>) -> bool
    ensures { result ≡ is_true (option_map (λ v. view v.now) json.entry) }
{
    json.and_then(Json::as_bool).unwrap_or(false)
}

fn read_text(alloc: Global, json: &Json) -> Result<Text, FieldFault>
    ensures text { IsToldUnless FieldFault.NoMemory result (text_of (view json.now)) }
    ensures meant { IfOk result IsUtf8 }
{
    let Some(text) = json.as_str() else {
        return Err(FieldFault::WrongValue);
    };
    Ok(Text::from_str(alloc, text)?)
}

fn read_bytes(alloc: Global, json: &Json) -> Result<Bytes, FieldFault>
    ensures bytes { IsToldUnless FieldFault.NoMemory result (bytes_of (view json.now)) }
    ensures meant { IfOk result AreBytes }
{
    let Some(text) = json.as_str() else {
        return Err(FieldFault::WrongValue);
    };
    match STANDARD.decode(alloc, text.as_bytes()) {
        Ok(bytes) => Ok(Bytes::from_vec(bytes)),
        Err(DecodeAllocError::DecodeError(_)) => Err(FieldFault::BadBase64),
        Err(DecodeAllocError::OutOfMemory) => Err(FieldFault::NoMemory),
    }
}

fn read_single(
    alloc: Global,
    kind: Kind,
    json: &Json,
    here: &ZoneKey,
    caller: &UserName,
) -> Result<Value, FieldFault>
    ensures value { IsToldUnless FieldFault.NoMemory result
        (single_of here.now caller.now kind (view json.now)) }
    ensures meant { IfOk result (IsElement kind) }
{
    match kind {
        Kind::Int64 => Ok(Value::Int64(read_whole(json)?)),
        Kind::Timestamp => Ok(Value::Timestamp(read_whole(json)?)),
        Kind::Text => Ok(Value::Text(read_text(alloc, json)?)),
        Kind::Bytes => Ok(Value::Bytes(read_bytes(alloc, json)?)),
        Kind::Reference => Ok(Value::Reference(read_reference(alloc, json, here, caller)?)),
    }
}

fn read_elements(
    alloc: Global,
    kind: Kind,
    items: &[Json],
    here: &ZoneKey,
    caller: &UserName,
) -> Result<Values, FieldFault>
    ensures values { IsToldUnless FieldFault.NoMemory result
        (each_or_first_error (single_of here.now caller.now kind) (map view items.now)) }
    ensures meant { IfOk result (AllByRecursion (IsElement kind)) }
{
    let mut values = Vec::new(alloc);
    for item in items {
        let value = read_single(alloc, kind, item, here, caller)?;
        values.push(value)?;
    }
    Ok(Items::from_vec(values))
}

#[tactic(auto, using(crate::proofs::ListLemmas::elements_items))]
fn read_list(
    alloc: Global,
    kind: Kind,
    json: &Json,
    here: &ZoneKey,
    caller: &UserName,
) -> Result<Value, FieldFault>
    ensures value { IsToldUnless FieldFault.NoMemory result
        (list_of here.now caller.now kind (as_array (view json.now))) }
    ensures meant { IfOk result IsMeant }
{
    match json.as_array() {
        Some(items) => Ok(Value::List(kind, read_elements(alloc, kind, items, here, caller)?)),
        None => Err(FieldFault::WrongValue),
    }
}

fn read_value(
    alloc: Global,
    shape: Shape,
    json: &Json,
    here: &ZoneKey,
    caller: &UserName,
) -> Result<Value, FieldFault>
    ensures value { IsToldUnless FieldFault.NoMemory result
        (value_of here.now caller.now (view json.now) shape) }
    ensures meant { IfOk result IsMeant }
{
    match shape {
        Shape::Single(kind) => read_single(alloc, kind, json, here, caller),
        Shape::ListOf(kind) => read_list(alloc, kind, json, here, caller),
    }
}
