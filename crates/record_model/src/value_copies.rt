// Copies of values.
ghost use Rattle.std.specs.Prelude.{◌≡◌, IfOk};

use crate::{RefTo, Value, Values};
use ck_base::Items;
use std::alloc::{AllocError, Global};

/// A copy of the value. It fails only where memory runs out.
#[cycle(copy)]
pub fn copy_value(alloc: Global, value: &Value) -> Result<Value, AllocError>
    ensures { IfOk result (λ copy. copy ≡ value.now) }
{
    match value {
        Value::Int64(number) => Ok(Value::Int64(*number)),
        Value::Timestamp(moment) => Ok(Value::Timestamp(*moment)),
        Value::Text(text) => Ok(Value::Text(text.clone()?)),
        Value::Bytes(bytes) => Ok(Value::Bytes(bytes.clone()?)),
        Value::Reference(to) => Ok(Value::Reference(RefTo {
            name: to.name.clone()?,
            action: to.action,
        })),
        Value::List(kind, items) => Ok(Value::List(*kind, copy_values(alloc, items.as_slice())?)),
    }
}

#[cycle(copy)]
fn copy_values(alloc: Global, values: &[Value]) -> Result<Values, AllocError>
    ensures { IfOk result (λ copies. copies ≡ values.now) }
{
    let mut copies = Vec::new(alloc);
    for value in values {
        copies.push(copy_value(alloc, value)?)?;
    }
    Ok(Items::from_vec(copies))
}
