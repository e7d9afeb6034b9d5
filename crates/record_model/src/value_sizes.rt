// The size of a value.
ghost use Rattle.std.specs.Prelude.{◌≡◌, ◌+◌, ◌^◌, ◌-◌, min, sum_by};
ghost use Rattle.record_model.specs.ValueSizes.{size};

use crate::Value;

/// The size of a value in bytes, as it counts for the size of its record: the bytes of a text or of
/// bytes, 8 for a number, the bytes of the name and 8 for a reference, and for a list 8 and the
/// size for each element. A size past 2^64 - 1 is told as 2^64 - 1.
#[cycle(size)]
pub fn size_of(value: &Value) -> u64
    ensures { result ≡ min (size value.now) (2 ^ 64 - 1) }
{
    match value {
        Value::Int64(_) | Value::Timestamp(_) => 8,
        Value::Text(text) => text.as_bytes().len() as u64,
        Value::Bytes(bytes) => bytes.as_slice().len() as u64,
        Value::Reference(to) => to.name.as_bytes().len() as u64 + 8,
        Value::List(_, items) => size_all(items.as_slice()),
    }
}

#[cycle(size)]
fn size_all(items: &[Value]) -> u64
    ensures { result ≡ min (sum_by (λ v. 8 + size v) items.now) (2 ^ 64 - 1) }
{
    let mut total = 0u64;
    for item in items {
        total = total.saturating_add(8).saturating_add(size_of(item));
    }
    total
}
