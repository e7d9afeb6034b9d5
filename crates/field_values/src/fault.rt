// Why the JSON of a field is refused.
use ck_base::NoMemory;
use std::alloc::{AllocError, AllocFailed};

/// Why JSON is no field. `NotAField`, `UnknownType` and `MixedList` are looked for in this order;
/// then the value, or the first wrong element of a list, has the one of the others that fits it.
#[derive(Clone, Copy, Debug, PartialEq, Eq)]
pub enum FieldFault {
    /// It is no object, has no member `value`, or has `isEncrypted` true.
    NotAField,
    /// The type is none of those that there are; or no type is given and the value is a truth
    /// value, an object without `recordName`, an array with an array in it, or an empty array.
    UnknownType,
    /// No type is given, and an array has elements of two kinds.
    MixedList,
    /// A number stands where a whole number is wanted, and is no whole number of 64 bits.
    Fraction,
    /// A whole number is below -2^63 or above 2^63 - 1.
    OutOfRange,
    /// A text stands where bytes are wanted, and is no base64 with padding.
    BadBase64,
    /// The value is wrong in another way.
    WrongValue,
    /// Memory ran out.
    NoMemory,
}

impl From<AllocError> for FieldFault {
    ghost use Rattle.std.specs.Prelude.{◌≡◌};
    ghost use Rattle.field_values.specs.declared.fault.FieldFault.TheVariants.{NoMemory};

    ghost from_gives = { λ _ e. e ≡ NoMemory };

    fn from(_e: AllocError) -> Self {
        FieldFault::NoMemory
    }
}

impl<T: Drop> From<AllocFailed<T>> for FieldFault {
    ghost use Rattle.std.specs.Prelude.{◌≡◌};
    ghost use Rattle.field_values.specs.declared.fault.FieldFault.TheVariants.{NoMemory};

    ghost from_gives = { λ _ e. e ≡ NoMemory };

    fn from(_e: AllocFailed<T>) -> Self {
        FieldFault::NoMemory
    }
}

impl From<NoMemory> for FieldFault {
    ghost use Rattle.std.specs.Prelude.{◌≡◌};
    ghost use Rattle.field_values.specs.declared.fault.FieldFault.TheVariants.{NoMemory as OutOfMemory};

    ghost from_gives = { λ _ e. e ≡ OutOfMemory };

    fn from(_e: NoMemory) -> Self {
        FieldFault::NoMemory
    }
}
