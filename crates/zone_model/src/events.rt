// What happened at a lock.
use crate::Commits;

/// Which board made an event, and which of its events at this lock it is, counted from 1.
#[derive(Clone, Copy, Debug, PartialEq, Eq)]
pub struct Origin {
    /// The number of the writer. No two boards have the same one at a lock.
    pub seat: u64,
    pub count: u64,
}

/// One event of a lock's history.
#[derive(Debug, Drop)]
pub enum Event {
    /// These commits were made, at once.
    Made {
        origin: Origin,
        commits: Commits,
    },
    /// A store failed to take what was to be committed, so nothing was. Its count of faults rose from
    /// `before` to `after`.
    StoreFailed {
        origin: Origin,
        before: u64,
        after: u64,
    },
}
