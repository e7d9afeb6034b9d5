// The values of fields.
use crate::place::{Place, first_and_others};
use crate::untold::Untold;
use field_values::{Value, compare, copy_value, field_json, read_field, size_of};
use serde_json::Value as Json;
use std::cmp::Ordering;

/// What such a call makes of JSON, if the name is one of them.
pub fn field_told(place: &Place, name: &str, json: &Json) -> Result<Option<String>, Untold> {
    let told = match name {
        "field" => written_again(place, json, false),
        "field-texts" => written_again(place, json, true),
        "field-size" => size_told(place, json),
        "order" => order_told(place, json),
        _ => return Ok(None),
    };
    Ok(Some(told?))
}

/// The value of a field.
pub fn value_in(place: &Place, json: &Json) -> Result<Value, Untold> {
    read_field(place.alloc, json, &place.notes, &place.ann)?.ok_or(Untold::Because("nothing"))
}

// A copy of the value of a field, written with its numbers as numbers or as texts.
fn written_again(place: &Place, json: &Json, as_texts: bool) -> Result<String, Untold> {
    let copy = copy_value(place.alloc, &value_in(place, json)?)?;
    Ok(field_json(place.alloc, &copy, as_texts)?.to_string(place.alloc)?)
}

fn size_told(place: &Place, json: &Json) -> Result<String, Untold> {
    Ok(size_of(&value_in(place, json)?).to_string(place.alloc)?)
}

// How the first value of a list compares with each of the others: a sign for each.
fn order_told(place: &Place, json: &Json) -> Result<String, Untold> {
    let (first, others) = first_and_others(json)?;
    let first = value_in(place, first)?;
    let mut signs = String::new(place.alloc);
    for other in others {
        signs.push_str(sign_of(compare(&first, &value_in(place, other)?)))?;
    }
    Ok(signs)
}

fn sign_of(order: Ordering) -> &'static str {
    match order {
        Ordering::Less => "<",
        Ordering::Equal => "=",
        Ordering::Greater => ">",
    }
}
