// What changes a zone.
use ck_base::{Items, RecordName, Scope, UserName, ZoneKey};
use record_model::{Record, Subscription};

/// One change of a record.
#[derive(Debug, Drop)]
pub enum Write {
    /// The record is put, over the one of its name.
    Put(Record),
    /// The record of this name is removed.
    Remove(RecordName),
    /// The record of this name is put and removed at once, which counts as a put.
    PutRemove(RecordName),
}

/// The changes of a commit, in ascending order of the names of their records.
pub type Writes = Items<Write>;

/// What a commit does.
#[derive(Debug, Drop)]
pub enum Act {
    /// It changes records.
    Writes(Writes),
    /// It makes the zone.
    MakeZone,
    /// It removes the zone with all its records.
    DropZone,
    /// It sets a subscription, over the one with its scope and its name.
    SetSubscription(Subscription),
    /// It drops a subscription.
    DropSubscription { scope: Scope, id: RecordName },
}

/// A change of one zone that happens at once, by a user at a moment in milliseconds.
#[derive(Debug, Drop)]
pub struct Commit {
    pub key: ZoneKey,
    pub user: UserName,
    pub moment: u64,
    pub act: Act,
}

/// Commits, one after another.
pub type Commits = Items<Commit>;
