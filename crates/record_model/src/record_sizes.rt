// The size of a record.
ghost use Rattle.std.specs.Prelude.{◌≡◌, ◌-◌, ◌^◌, min, sum_by};
ghost use Rattle.record_model.specs.RecordSizes.{size_of_field, size_of_record};

use crate::{Field, Record, size_of};

/// The size of a record in bytes, by which it is too large or not: for each field the bytes of its
/// name, 8, and the size of its value. A size past 2^64 - 1 is told as 2^64 - 1.
pub fn record_size(record: &Record) -> u64
    ensures { result ≡ min (size_of_record «record».now) (2 ^ 64 - 1) }
{
    fields_size(record.fields.as_slice())
}

fn fields_size(fields: &[Field]) -> u64
    ensures { result ≡ min (sum_by size_of_field fields.now) (2 ^ 64 - 1) }
{
    let mut total = 0u64;
    for field in fields {
        total = total.saturating_add(field_size(field));
    }
    total
}

fn field_size(field: &Field) -> u64
    ensures { result ≡ min (size_of_field field.now) (2 ^ 64 - 1) }
{
    let name = field.0.as_bytes().len() as u64;
    size_of(&field.1).saturating_add(name + 8)
}
