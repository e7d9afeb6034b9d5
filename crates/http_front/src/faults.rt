// Why no request was read.
use ck_base::NoMemory;
use std::alloc::{AllocError, AllocFailed};

/// Why no request was read. RFC 9112, sections 2.2, 6.3 and 8 say what a server does then.
#[derive(Clone, Copy, Debug, PartialEq, Eq)]
pub enum FrontFault {
    /// The source ended, and nothing of a request was there.
    Ended,
    /// The source ended inside a request.
    Cut,
    /// The lines that came are no head, whatever follows.
    BadHead,
    /// No head ended within its limits.
    HeadTooLong,
    /// The head says no length, or none that counts.
    NoLength,
    /// The head says a length that is too great.
    BodyTooLong,
    /// The source failed.
    ReadFault,
    /// Memory ran out.
    NoMemory,
}

impl From<AllocError> for FrontFault {
    ghost use Rattle.std.specs.Prelude.{◌≡◌};
    ghost use Rattle.http_front.specs.declared.faults.FrontFault.TheVariants.{NoMemory as OutOfMemory};

    ghost from_gives = { λ _ e. e ≡ OutOfMemory };

    fn from(_e: AllocError) -> Self {
        FrontFault::NoMemory
    }
}

impl<T: Drop> From<AllocFailed<T>> for FrontFault {
    ghost use Rattle.std.specs.Prelude.{◌≡◌};
    ghost use Rattle.http_front.specs.declared.faults.FrontFault.TheVariants.{NoMemory as OutOfMemory};

    ghost from_gives = { λ _ e. e ≡ OutOfMemory };

    fn from(_e: AllocFailed<T>) -> Self {
        FrontFault::NoMemory
    }
}

impl From<NoMemory> for FrontFault {
    ghost use Rattle.std.specs.Prelude.{◌≡◌};
    ghost use Rattle.http_front.specs.declared.faults.FrontFault.TheVariants.{NoMemory as OutOfMemory};

    ghost from_gives = { λ _ e. e ≡ OutOfMemory };

    fn from(_e: NoMemory) -> Self {
        FrontFault::NoMemory
    }
}
