// Whole numbers in JSON.
ghost use Rattle.std.specs.Prelude.{◌≡◌};
ghost use Rattle.std.specs.Char.{is_ascii_digit};
ghost use Rattle.std.specs.List.{list_all};
ghost use Rattle.serde_json.specs.View.{view, number_view};
ghost use Rattle.serde_json.specs.Find.{as_integer};
ghost use Rattle.field_values.specs.declared.fault.FieldFault.TheVariants.{Fraction as NoWhole, WrongValue as NoNumber};
ghost use Rattle.field_values.specs.Numbers.{in_range, in_range_or, number_in_text, is_number, is_positive, whole_of};

use crate::FieldFault;
use serde_json::{Number, Value as Json};

/// The whole number that a JSON value is.
pub(crate) fn read_whole(value: &Json) -> Result<i64, FieldFault>
    ensures { result ≡ whole_of (view value.now) }
{
    match value {
        Json::Number(number) => whole_number(number),
        Json::String(text) => whole_text(text),
        Json::Null | Json::Bool(_) | Json::Array(_) | Json::Object(_) => {
            Err(FieldFault::WrongValue)
        }
    }
}

fn whole_number(number: &Number) -> Result<i64, FieldFault>
    ensures { result ≡ in_range_or NoWhole (as_integer (number_view number.now)) }
{
    match number.as_i128() {
        Some(whole) => i64::try_from(whole).map_err(|_| FieldFault::OutOfRange),
        None => Err(FieldFault::Fraction),
    }
}

fn whole_text(text: &str) -> Result<i64, FieldFault>
    ensures { result ≡ in_range_or NoNumber (number_in_text text.now) }
{
    if !is_number(text.as_bytes()) {
        return Err(FieldFault::WrongValue);
    }
    match text.parse::<i64>() {
        Ok(whole) => Ok(whole),
        Err(_) => Err(FieldFault::OutOfRange),
    }
}

fn is_number(text: &[u8]) -> bool
    ensures { result ≡ is_number text.now }
{
    match text {
        [b'-', digits @ ..] => is_positive(digits),
        [b'0'] => true,
        _ => is_positive(text),
    }
}

fn is_positive(digits: &[u8]) -> bool
    ensures { result ≡ is_positive digits.now }
{
    match digits {
        [first, ..] => are_digits(digits) && *first > b'0',
        [] => false,
    }
}

fn are_digits(text: &[u8]) -> bool
    ensures { result ≡ list_all is_ascii_digit text.now }
{
    text.iter().all(|byte| byte.is_ascii_digit())
}
