// How a query compares a field with a value.
ghost use Rattle.std.specs.Prelude.{◌≡◌};
ghost use Rattle.record_model.specs.Fits.{is_list, is_comparable, is_string, fits};

use crate::Value;

/// How a filter compares a field with its value, as "Filter Dictionary" of the CloudKit Web
/// Services Reference lists the comparators.
#[derive(Clone, Copy, Debug, PartialEq, Eq)]
pub enum Comparator {
    Equals,
    NotEquals,
    LessThan,
    LessThanOrEquals,
    GreaterThan,
    GreaterThanOrEquals,
    In,
    NotIn,
    BeginsWith,
    NotBeginsWith,
    ListContains,
    NotListContains,
    NotListContainsAny,
    ListContainsAll,
}

/// Whether a filter with this comparator may have the value: any for `Equals` and `NotEquals`, one
/// that is neither a list nor a reference for the four that compare by order, a text for
/// `BeginsWith` and `NotBeginsWith`, a list for `In`, `NotIn`, `NotListContainsAny` and
/// `ListContainsAll`, and one that is no list for `ListContains` and `NotListContains`.
pub fn fits(comparator: Comparator, value: &Value) -> bool
    ensures { result ≡ fits comparator value.now }
{
    match comparator {
        Comparator::Equals | Comparator::NotEquals => true,
        Comparator::LessThan
        | Comparator::LessThanOrEquals
        | Comparator::GreaterThan
        | Comparator::GreaterThanOrEquals => is_comparable(value),
        Comparator::BeginsWith | Comparator::NotBeginsWith => is_string(value),
        Comparator::In
        | Comparator::NotIn
        | Comparator::NotListContainsAny
        | Comparator::ListContainsAll => is_list(value),
        Comparator::ListContains | Comparator::NotListContains => !is_list(value),
    }
}

fn is_list(value: &Value) -> bool
    ensures { result ≡ is_list value.now }
{
    matches!(value, Value::List(_, _))
}

fn is_string(value: &Value) -> bool
    ensures { result ≡ is_string value.now }
{
    matches!(value, Value::Text(_))
}

fn is_comparable(value: &Value) -> bool
    ensures { result ≡ is_comparable value.now }
{
    match value {
        Value::Int64(_) | Value::Timestamp(_) | Value::Text(_) | Value::Bytes(_) => true,
        Value::Reference(_) | Value::List(_, _) => false,
    }
}
