// What a lock answers.
use ck_base::Items;
use record_model::Record;
use zone_model::Outcomes;

/// The answer to a part.
#[derive(Debug, Drop)]
pub enum Answer {
    /// An outcome for each operation.
    Modify(Outcomes),
    /// For each name its record, if the user sees one.
    Lookup(Items<Option<Record>>),
    /// The user sees no such zone.
    NoZone,
    /// The store failed to take what was made, so nothing was.
    StoreFailed,
}

/// What an ask answers: it was taken at the first `len` events of the lock's history, and `event`
/// says that the last of these is its own.
#[derive(Debug, Drop)]
pub struct Answered {
    pub answer: Answer,
    pub len: u64,
    pub event: bool,
}
