// Why a body is refused.
use ck_base::{NoMemory, RecordName};
use std::alloc::{AllocError, AllocFailed};

/// A member of the body of a call. Those of each call are looked at in this order.
#[derive(Clone, Copy, Debug, PartialEq, Eq)]
pub enum CallKey {
    ZoneId,
    Atomic,
    NumbersAsStrings,
    DesiredKeys,
    SyncToken,
    SubscriptionId,
    Number,
    ResultsLimit,
    Operations,
    Records,
    ShortGuids,
    Zones,
    Subscriptions,
}

/// Why a body means no call. The faults are looked for in this order;
/// memory may run out ahead of any.
#[derive(Debug, Drop)]
pub enum BadCall {
    /// The operation of the route is not built yet.
    NotBuilt,
    /// It is no JSON, or JSON that is no object.
    NotJson,
    /// This member, the first such one, has a wrong form.
    BadKey(CallKey),
    /// The first list that is longer than its limit has so many elements.
    TooMany(u64),
    /// The name that comes again at the first operation that names a record or a root again.
    Twice(RecordName),
    /// Memory ran out.
    NoMemory,
}

impl From<AllocError> for BadCall {
    ghost use Rattle.std.specs.Prelude.{◌≡◌};
    ghost use Rattle.wire_calls.specs.declared.fault.BadCall.TheVariants.{NoMemory};

    ghost from_gives = { λ _ e. e ≡ NoMemory };

    fn from(_e: AllocError) -> Self {
        BadCall::NoMemory
    }
}

impl<T: Drop> From<AllocFailed<T>> for BadCall {
    ghost use Rattle.std.specs.Prelude.{◌≡◌};
    ghost use Rattle.wire_calls.specs.declared.fault.BadCall.TheVariants.{NoMemory};

    ghost from_gives = { λ _ e. e ≡ NoMemory };

    fn from(_e: AllocFailed<T>) -> Self {
        BadCall::NoMemory
    }
}

impl From<NoMemory> for BadCall {
    ghost use Rattle.std.specs.Prelude.{◌≡◌};
    ghost use Rattle.wire_calls.specs.declared.fault.BadCall.TheVariants.{NoMemory as OutOfMemory};

    ghost from_gives = { λ _ e. e ≡ OutOfMemory };

    fn from(_e: NoMemory) -> Self {
        BadCall::NoMemory
    }
}
