// The JSON of a field.
ghost use Rattle.std.specs.Prelude.{◌≡◌, IfOk, map};
ghost use Rattle.serde_json.specs.View.{view, items_of};
ghost use Rattle.field_values.specs.References.{action_name as name_of_action};
ghost use Rattle.record_model.specs.Shapes.{shape_of};
ghost use Rattle.field_values.specs.Writing.{number_data, reference_data, value_data, field_data};

use crate::references::action_name;
use crate::shapes::type_name;
use base64::engine::general_purpose::STANDARD;
use ck_base::NoMemory;
use record_model::{Kind, RefTo, Shape, Value};
use serde_json::{Value as Json, json};
use std::alloc::{AllocError, Global};

/// The JSON of a field with this value: an object with its `type` and its `value`. Whole numbers
/// are written as numbers, or as texts where `numbers_as_strings` is true. It fails only where
/// memory runs out.
pub fn field_json(alloc: Global, value: &Value, numbers_as_strings: bool) -> Result<Json, NoMemory>
    ensures { IfOk result (λ json. view json ≡ field_data numbers_as_strings value.now) }
{
    let name = type_name(shape_of(value));
    let value = value_json(alloc, value, numbers_as_strings)?;
    let json = json!(in alloc; {"type": name, "value": value})?;
    Ok(json)
}

fn shape_of(value: &Value) -> Shape
    ensures { result ≡ shape_of value.now }
{
    match value {
        Value::Int64(_) => Shape::Single(Kind::Int64),
        Value::Timestamp(_) => Shape::Single(Kind::Timestamp),
        Value::Text(_) => Shape::Single(Kind::Text),
        Value::Bytes(_) => Shape::Single(Kind::Bytes),
        Value::Reference(_) => Shape::Single(Kind::Reference),
        Value::List(kind, _) => Shape::ListOf(*kind),
    }
}

fn number_json(alloc: Global, number: i64, as_text: bool) -> Result<Json, AllocError>
    ensures { IfOk result (λ json. view json ≡ number_data as_text number) }
{
    if as_text {
        Ok(Json::String(number.to_string(alloc)?))
    } else {
        Ok(Json::from(number))
    }
}

fn reference_json(alloc: Global, to: &RefTo) -> Result<Json, AllocError>
    ensures { IfOk result (λ json. view json ≡ reference_data to.now) }
{
    let action = action_name(to.action);
    let name = str::from_utf8(to.name.as_bytes()).unwrap();
    json!(in alloc; {"action": action, "recordName": name})
}

#[cycle(json)]
fn value_json(alloc: Global, value: &Value, as_text: bool) -> Result<Json, AllocError>
    ensures { IfOk result (λ json. view json ≡ value_data as_text value.now) }
{
    match value {
        Value::Int64(number) => number_json(alloc, *number, as_text),
        Value::Timestamp(number) => number_json(alloc, *number, as_text),
        Value::Text(text) => Json::try_from_str(alloc, text.as_str()),
        Value::Bytes(bytes) => Ok(Json::String(STANDARD.encode(alloc, bytes.as_slice())?)),
        Value::Reference(to) => reference_json(alloc, to),
        Value::List(_, items) => Ok(Json::Array(values_json(alloc, items.as_slice(), as_text)?)),
    }
}

#[cycle(json)]
fn values_json(alloc: Global, values: &[Value], as_text: bool) -> Result<Vec<Json>, AllocError>
    ensures { IfOk result (λ items. map view items.items ≡ map (value_data as_text) values.now) }
{
    let mut items = Vec::new(alloc);
    for value in values {
        items.push(value_json(alloc, value, as_text)?)?;
    }
    Ok(items)
}
