// Why bytes are no reply to a call.
use ck_base::NoMemory;
use std::alloc::{AllocError, AllocFailed};

/// Why the body of a response is no reply to a call.
#[derive(Clone, Copy, Debug, PartialEq, Eq)]
pub enum ReplyFault {
    /// The entry with this number, counted from 1, is the first that has the wrong form. It is 0
    /// where the whole has it; another number of entries than the call asks for is such a fault.
    BadReply(u64),
    /// Memory ran out.
    NoMemory,
}

impl From<AllocError> for ReplyFault {
    ghost use Rattle.std.specs.Prelude.{◌≡◌};
    ghost use Rattle.wire_calls.specs.declared.reply_fault.ReplyFault.TheVariants.{NoMemory};

    ghost from_gives = { λ _ e. e ≡ NoMemory };

    fn from(_e: AllocError) -> Self {
        ReplyFault::NoMemory
    }
}

impl<T: Drop> From<AllocFailed<T>> for ReplyFault {
    ghost use Rattle.std.specs.Prelude.{◌≡◌};
    ghost use Rattle.wire_calls.specs.declared.reply_fault.ReplyFault.TheVariants.{NoMemory};

    ghost from_gives = { λ _ e. e ≡ NoMemory };

    fn from(_e: AllocFailed<T>) -> Self {
        ReplyFault::NoMemory
    }
}

impl From<NoMemory> for ReplyFault {
    ghost use Rattle.std.specs.Prelude.{◌≡◌};
    ghost use Rattle.wire_calls.specs.declared.reply_fault.ReplyFault.TheVariants.{NoMemory as OutOfMemory};

    ghost from_gives = { λ _ e. e ≡ OutOfMemory };

    fn from(_e: NoMemory) -> Self {
        ReplyFault::NoMemory
    }
}
