// What a lock is asked.
use ck_base::{Items, RecordNames, Scope, UserName, ZoneKey};
use zone_model::Ops;

/// A random word.
pub type Word = [u8; 16];

/// A part of a request that concerns one lock. It is answered in one step.
#[derive(Debug, Drop)]
pub enum Part {
    /// Operations on the records of a zone, by a user in a scope, at a moment in milliseconds.
    Modify {
        user: UserName,
        scope: Scope,
        key: ZoneKey,
        /// All of the operations are to be done or none. It is without effect on a default zone.
        atomic: bool,
        ops: Ops,
        moment: u64,
        /// The words that the operations draw, in order: of one, first for its name, then for a GUID.
        words: Items<Word>,
    },
    /// The records of these names in a zone, for a user in a scope.
    Lookup {
        user: UserName,
        scope: Scope,
        key: ZoneKey,
        names: RecordNames,
    },
}
