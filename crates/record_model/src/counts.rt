// What the counts of a stored layout hold.
ghost use Rattle.std.specs.Prelude.{◌≡◌};
ghost use Rattle.std.specs.List.{list_all};
ghost use Rattle.record_model.specs.declared.value.Value.{out-Value};
ghost use Rattle.record_model.specs.Counts.{fits_four_bytes, fits_two_bytes, is_short, is_counted, are_counted};

use crate::value_order::{bytes, elements};
use crate::{Field, Value};

/// Whether a count is one of 2 bytes.
pub fn fits_two_bytes(count: usize) -> bool
    ensures { result ≡ fits_two_bytes count }
{
    count < 1 << 16
}

fn fits_four_bytes(count: usize) -> bool
    ensures { result ≡ fits_four_bytes count }
{
    count < 1 << 32
}

fn is_short(value: &Value) -> bool
    ensures { result ≡ is_short (out-Value value.now) }
{
    fits_four_bytes(bytes(value).len()) && fits_four_bytes(elements(value).len())
}

fn all_short(values: &[Value]) -> bool
    ensures { result ≡ list_all (λ v. is_short (out-Value v)) values.now }
{
    values.iter().all(is_short)
}

fn is_counted(value: &Value) -> bool
    ensures { result ≡ is_counted value.now }
{
    is_short(value) && all_short(elements(value))
}

fn all_counted(fields: &[Field]) -> bool
    ensures { result ≡ list_all (λ field. is_counted field.1) fields.now }
{
    fields.iter().all(|field| is_counted(&field.1))
}

/// Whether the count of the fields is one of 4 bytes, and so the length of each text, of bytes and
/// of each list in them.
pub fn are_counted(fields: &[Field]) -> bool
    ensures { result ≡ are_counted fields.now }
{
    fits_four_bytes(fields.len()) && all_counted(fields)
}
