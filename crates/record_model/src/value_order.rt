// The order of values.
ghost use Rattle.std.specs.Prelude.{◌≡◌};
ghost use Rattle.std.specs.Cmp.Lexicographic.{slice_cmp};
ghost use Rattle.record_model.specs.declared.value.Value.{out-Value};
ghost use Rattle.record_model.specs.Shapes.{kind_place};
ghost use Rattle.record_model.specs.ValueOrder.{action_place, rank, number_part, bytes_part, place_part, elements_part, parts_cmp, value_cmp};

use crate::{Action, Kind, Value};
use std::cmp::Ordering;

/// The order of two values: whole numbers stand first, then moments, texts, bytes, references, and
/// then lists in that order of their kinds. Numbers are ordered by size, texts and bytes by their
/// bytes, references by name and then by action, and lists by the first element that differs, a
/// front before what goes on from it.
#[cycle(order)]
#[tactic(auto, using(crate::proofs::OrderLemmas::value_cmp_by_parts))]
pub fn compare(a: &Value, b: &Value) -> Ordering
    ensures { result ≡ value_cmp a.now b.now }
{
    match compare_parts(a, b) {
        Ordering::Less => Ordering::Less,
        Ordering::Equal => compare_inside(a, b),
        Ordering::Greater => Ordering::Greater,
    }
}

#[cycle(order)]
fn compare_inside(a: &Value, b: &Value) -> Ordering
    ensures { result ≡ slice_cmp value_cmp
        (elements_part (out-Value a.now)) (elements_part (out-Value b.now)) }
{
    match a {
        Value::List(_, items) => compare_elements(items.as_slice(), elements(b)),
        Value::Int64(_)
        | Value::Timestamp(_)
        | Value::Text(_)
        | Value::Bytes(_)
        | Value::Reference(_) => compare_elements(&[], elements(b)),
    }
}

#[cycle(order)]
fn compare_elements(a: &[Value], b: &[Value]) -> Ordering
    ensures { result ≡ slice_cmp value_cmp a.now b.now }
{
    let mut rest = b;
    for x in a {
        let [y, after @ ..] = rest else {
            return Ordering::Greater;
        };
        match compare(x, y) {
            Ordering::Less => return Ordering::Less,
            Ordering::Equal => rest = after,
            Ordering::Greater => return Ordering::Greater,
        }
    }
    if rest.is_empty() {
        Ordering::Equal
    } else {
        Ordering::Less
    }
}

fn compare_parts(a: &Value, b: &Value) -> Ordering
    ensures { result ≡ parts_cmp (out-Value a.now) (out-Value b.now) }
{
    let by_rank = rank(a).cmp(&rank(b));
    let by_number = number(a).cmp(&number(b));
    let by_bytes = bytes(a).cmp(bytes(b));
    let by_place = place(a).cmp(&place(b));
    by_rank.then(by_number.then(by_bytes.then(by_place)))
}

fn rank(value: &Value) -> u8
    ensures { result ≡ rank (out-Value value.now) }
{
    match value {
        Value::Int64(_) => 0,
        Value::Timestamp(_) => 1,
        Value::Text(_) => 2,
        Value::Bytes(_) => 3,
        Value::Reference(_) => 4,
        Value::List(_, _) => 5,
    }
}

fn number(value: &Value) -> i64
    ensures { result ≡ number_part (out-Value value.now) }
{
    match value {
        Value::Int64(number) | Value::Timestamp(number) => *number,
        Value::Text(_) | Value::Bytes(_) | Value::Reference(_) | Value::List(_, _) => 0,
    }
}

pub(crate) fn bytes(value: &Value) -> &[u8]
    ensures { result.now ≡ bytes_part (out-Value value.now) }
{
    match value {
        Value::Text(text) => text.as_bytes(),
        Value::Bytes(bytes) => bytes.as_slice(),
        Value::Reference(to) => to.name.as_bytes(),
        Value::Int64(_) | Value::Timestamp(_) | Value::List(_, _) => &[],
    }
}

fn place(value: &Value) -> u8
    ensures { result ≡ place_part (out-Value value.now) }
{
    match value {
        Value::Reference(to) => action_place(to.action),
        Value::List(kind, _) => kind_place(*kind),
        Value::Int64(_) | Value::Timestamp(_) | Value::Text(_) | Value::Bytes(_) => 0,
    }
}

fn action_place(action: Action) -> u8
    ensures { result ≡ action_place action }
{
    action as u8
}

fn kind_place(kind: Kind) -> u8
    ensures { result ≡ kind_place kind }
{
    kind as u8
}

/// The elements of a list, and none of another value.
pub fn elements(value: &Value) -> &[Value]
    ensures { result.now ≡ elements_part (out-Value value.now) }
{
    match value {
        Value::List(_, items) => items.as_slice(),
        Value::Int64(_)
        | Value::Timestamp(_)
        | Value::Text(_)
        | Value::Bytes(_)
        | Value::Reference(_) => &[],
    }
}
