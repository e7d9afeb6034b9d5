// How a conversation ends.
use crate::Mark;
use ck_base::NoMemory;
use std::alloc::{AllocError, AllocFailed};

/// How a connection ended.
#[derive(Clone, Copy, Debug, PartialEq, Eq)]
pub enum End {
    /// The source ended where a request would begin.
    Closed,
    /// A request asked to close, and was answered.
    CloseAsked,
    /// The source ended inside a request.
    Cut,
    /// The bytes are no head of a request, however they go on.
    BadHead,
    /// A head is longer than the limits allow.
    HeadTooLong,
    /// A head states no valid length of a body where it has to, more than one, or a transfer coding.
    NoLength,
    /// A head states a body that is longer than the limit allows.
    BodyTooLong,
    /// As many requests as a connection may have were answered.
    Spent,
    /// A request has a form that is not built yet.
    NotBuilt,
}

/// A conversation that ended: a mark for each request that was answered, in order, and the
/// end.
#[derive(Debug, Drop)]
pub struct Talk {
    pub marks: Vec<Mark>,
    pub end: End,
}

/// What broke a conversation off.
#[derive(Clone, Copy, Debug, PartialEq, Eq)]
pub enum TalkFaultKind {
    /// The source failed.
    ReadFault,
    /// The sink failed.
    WriteFault,
    /// Memory ran out.
    NoMemory,
}

/// A conversation that broke off, with the marks so far.
#[derive(Debug, Drop)]
pub struct TalkFault {
    pub at: TalkFaultKind,
    pub marks: Vec<Mark>,
}

impl From<AllocError> for TalkFaultKind {
    ghost use Rattle.std.specs.Prelude.{◌≡◌};
    ghost use Rattle.talk_model.specs.declared.ends.TalkFaultKind.TheVariants.{NoMemory as OutOf};

    ghost from_gives = { λ _ e. e ≡ OutOf };

    fn from(_e: AllocError) -> Self {
        TalkFaultKind::NoMemory
    }
}

impl<T: Drop> From<AllocFailed<T>> for TalkFaultKind {
    ghost use Rattle.std.specs.Prelude.{◌≡◌};
    ghost use Rattle.talk_model.specs.declared.ends.TalkFaultKind.TheVariants.{NoMemory as OutOf};

    ghost from_gives = { λ _ e. e ≡ OutOf };

    fn from(_e: AllocFailed<T>) -> Self {
        TalkFaultKind::NoMemory
    }
}

impl From<NoMemory> for TalkFaultKind {
    ghost use Rattle.std.specs.Prelude.{◌≡◌};
    ghost use Rattle.talk_model.specs.declared.ends.TalkFaultKind.TheVariants.{NoMemory as OutOf};

    ghost from_gives = { λ _ e. e ≡ OutOf };

    fn from(_e: NoMemory) -> Self {
        TalkFaultKind::NoMemory
    }
}
