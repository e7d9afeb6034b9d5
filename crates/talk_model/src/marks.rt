// The trace of a conversation.

/// What an ask was answered at: the first `len` events of the lock. `event` says that the last of
/// these is this ask's.
#[derive(Clone, Copy, Debug, PartialEq, Eq)]
pub struct At {
    pub lock: u8,
    pub len: u64,
    pub event: bool,
}

/// The trace of one request.
#[derive(Debug, Drop)]
pub struct Mark {
    /// Which request of the connection it is, counted from 0.
    pub request: u64,
    /// What the clock gave for it, in milliseconds.
    pub moment: u64,
    /// The random words that were drawn for it.
    pub words: Vec<[u8; 16]>,
    /// No draw failed.
    pub drawn: bool,
    /// Its asks, in order; none where it was refused before.
    pub asks: Vec<At>,
}
