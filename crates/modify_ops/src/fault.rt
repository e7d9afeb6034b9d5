// Why operations are refused.
use ck_base::{NoMemory, RecordName};
use std::alloc::{AllocError, AllocFailed};

/// Why JSON is no list of operations. The faults are looked for in this order;
/// memory may run out ahead of any.
#[derive(Debug, Drop)]
pub enum BadOps {
    /// There are so many, and more than 200.
    TooMany(u64),
    /// The one at this place, counted from 0, is the first of a wrong form. It is the first place
    /// where the JSON is no list.
    BadOp(u64),
    /// An operation names a record that an earlier one names, or its `forRecord` a root that an
    /// earlier `forRecord` names. It is the name that comes again at the first such operation, its
    /// record before its root.
    Twice(RecordName),
    /// Memory ran out.
    NoMemory,
}

impl From<AllocError> for BadOps {
    ghost use Rattle.std.specs.Prelude.{◌≡◌};
    ghost use Rattle.modify_ops.specs.declared.fault.BadOps.TheVariants.{NoMemory};

    ghost from_gives = { λ _ e. e ≡ NoMemory };

    fn from(_e: AllocError) -> Self {
        BadOps::NoMemory
    }
}

impl<T: Drop> From<AllocFailed<T>> for BadOps {
    ghost use Rattle.std.specs.Prelude.{◌≡◌};
    ghost use Rattle.modify_ops.specs.declared.fault.BadOps.TheVariants.{NoMemory};

    ghost from_gives = { λ _ e. e ≡ NoMemory };

    fn from(_e: AllocFailed<T>) -> Self {
        BadOps::NoMemory
    }
}

impl From<NoMemory> for BadOps {
    ghost use Rattle.std.specs.Prelude.{◌≡◌};
    ghost use Rattle.modify_ops.specs.declared.fault.BadOps.TheVariants.{NoMemory as OutOfMemory};

    ghost from_gives = { λ _ e. e ≡ OutOfMemory };

    fn from(_e: NoMemory) -> Self {
        BadOps::NoMemory
    }
}
