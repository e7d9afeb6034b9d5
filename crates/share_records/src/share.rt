// What makes a record a share.
use crate::{Participants, Permission};
use ck_base::{Guid, RecordName};

/// What a record of type `cloudkit.share` has beside its fields, as "Record Dictionary" of the
/// CloudKit Web Services Reference lists it. It shares a root, and all records below that one.
#[derive(Debug, Drop)]
pub struct Share {
    /// The record that is shared.
    pub root: RecordName,
    /// By which others find the share.
    pub guid: Guid,
    /// What everyone may do who accepts the share without being named by its owner.
    pub public: Permission,
    pub participants: Participants,
}
