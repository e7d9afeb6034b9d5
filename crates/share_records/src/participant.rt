// Who takes part in a share beside its owner.
use crate::Permission;
use ck_base::{Items, UserName};

/// How someone came to be a participant of a share.
#[derive(Clone, Copy, Debug, PartialEq, Eq)]
pub enum PartKind {
    /// The owner named this user, and gave a permission.
    Member,
    /// This user accepted a share that is open to everyone, and has its public permission.
    Public,
}

/// A participant of a share. Their form in JSON is this project's own.
#[derive(Clone, Debug, PartialEq, Eq, Drop)]
pub struct Participant {
    pub user: UserName,
    pub kind: PartKind,
    /// What the owner gave a `Member`. It is `Nothing` for a `Public` one.
    pub permission: Permission,
    pub accepted: bool,
}

/// The participants of a share, in ascending order of their names. A share that was made by the
/// rules never lists the owner.
pub type Participants = Items<Participant>;

/// A participant that the owner wants a share to have.
#[derive(Clone, Debug, PartialEq, Eq, Drop)]
pub struct Wanted {
    pub user: UserName,
    pub kind: PartKind,
    pub permission: Permission,
}
