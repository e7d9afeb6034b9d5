// The types of fields by their names, and the type that a value shows where none is given.
ghost use Rattle.std.specs.Prelude.{◌≡◌, option_map, map};
ghost use Rattle.std.specs.List.{list_any, list_all};
ghost use Rattle.serde_json.specs.View.{view, items_view};
ghost use Rattle.field_values.specs.Types.{type_name, type_named, kind_shown, is_array, first_kind, shows_only, one_kind, shows_no_list, list_shown, type_shown, type_wanted};

use crate::FieldFault;
use crate::members::member;
use record_model::{Kind, Shape};
use serde_json::Value as Json;

const SHAPES: [Shape; 10] = [
    Shape::Single(Kind::Int64),
    Shape::Single(Kind::Timestamp),
    Shape::Single(Kind::Text),
    Shape::Single(Kind::Bytes),
    Shape::Single(Kind::Reference),
    Shape::ListOf(Kind::Int64),
    Shape::ListOf(Kind::Timestamp),
    Shape::ListOf(Kind::Text),
    Shape::ListOf(Kind::Bytes),
    Shape::ListOf(Kind::Reference),
];

pub(crate) fn type_name(shape: Shape) -> &'static str
    ensures { result.now ≡ type_name shape }
{
    match shape {
        Shape::Single(Kind::Int64) => "INT64",
        Shape::Single(Kind::Timestamp) => "TIMESTAMP",
        Shape::Single(Kind::Text) => "STRING",
        Shape::Single(Kind::Bytes) => "BYTES",
        Shape::Single(Kind::Reference) => "REFERENCE",
        Shape::ListOf(Kind::Int64) => "INT64_LIST",
        Shape::ListOf(Kind::Timestamp) => "TIMESTAMP_LIST",
        Shape::ListOf(Kind::Text) => "STRING_LIST",
        Shape::ListOf(Kind::Bytes) => "BYTES_LIST",
        Shape::ListOf(Kind::Reference) => "REFERENCE_LIST",
    }
}

fn type_named(name: &str) -> Option<Shape>
    ensures { result ≡ type_named name.now }
{
    SHAPES
        .iter()
        .copied()
        .find(|shape| type_name(*shape) == name)
}

fn kind_shown(value: &Json) -> Option<Kind>
    ensures { result ≡ kind_shown (view value.now) }
{
    match value {
        Json::Number(_) => Some(Kind::Int64),
        Json::String(_) => Some(Kind::Text),
        Json::Object(_) => match member(value, "recordName") {
            Some(_) => Some(Kind::Reference),
            None => None,
        },
        Json::Null | Json::Bool(_) | Json::Array(_) => None,
    }
}

fn has_array(items: &[Json]) -> bool
    ensures { result ≡ list_any (λ item. is_array (view item)) items.now }
{
    items.iter().any(|item| item.is_array())
}

fn first_kind(items: &[Json]) -> Option<Kind>
    ensures { result ≡ first_kind (map view items.now) }
{
    for item in items {
        if let Some(kind) = kind_shown(item) {
            return Some(kind);
        }
    }
    None
}

fn shows_only(kind: Kind, value: &Json) -> bool
    ensures { result ≡ shows_only kind (view value.now) }
{
    match kind_shown(value) {
        Some(shown) => shown == kind,
        None => true,
    }
}

fn all_show_only(kind: Kind, items: &[Json]) -> bool
    ensures { result ≡ list_all (λ item. shows_only kind (view item)) items.now }
{
    items.iter().all(|item| shows_only(kind, item))
}

#[tactic(auto, using(crate::proofs::ListLemmas::list_all_map))]
fn one_kind(items: &[Json]) -> Result<Kind, FieldFault>
    ensures { result ≡ one_kind (first_kind (map view items.now)) (map view items.now) }
{
    match first_kind(items) {
        Some(kind) => {
            if all_show_only(kind, items) {
                Ok(kind)
            } else {
                Err(FieldFault::MixedList)
            }
        }
        None => Err(FieldFault::WrongValue),
    }
}

fn shows_no_list(items: &[Json]) -> bool
    ensures { result ≡ shows_no_list (map view items.now) }
{
    match items {
        [] => true,
        _ => has_array(items),
    }
}

fn list_shown(items: &[Json]) -> Result<Shape, FieldFault>
    ensures { result ≡ list_shown (map view items.now) }
{
    if shows_no_list(items) {
        return Err(FieldFault::UnknownType);
    }
    match one_kind(items) {
        Ok(kind) => Ok(Shape::ListOf(kind)),
        Err(fault) => Err(fault),
    }
}

#[tactic(auto, using(crate::proofs::ListLemmas::elements_items))]
fn type_shown(value: &Json) -> Result<Shape, FieldFault>
    ensures { result ≡ type_shown (view value.now) }
{
    match value.as_array() {
        Some(items) => list_shown(items),
        None => match kind_shown(value) {
            Some(kind) => Ok(Shape::Single(kind)),
            None => Err(FieldFault::UnknownType),
        },
    }
}

/// The type that is given, or else the one that the value shows.
pub(crate) fn type_wanted(given: Option<&Json>, value: &Json) -> Result<Shape, FieldFault>
    ensures { result ≡ type_wanted (option_map (λ t. view t.now) given.entry) (view value.now) }
{
    match given {
        Some(name) => name
            .as_str()
            .and_then(type_named)
            .ok_or(FieldFault::UnknownType),
        None => type_shown(value),
    }
}
