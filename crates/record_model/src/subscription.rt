// What a user wants to be told of.
use crate::Filters;
use ck_base::{RecordName, Scope, ZoneKey};

/// What a subscription watches.
#[derive(Clone, Copy, Debug, PartialEq, Eq)]
pub enum SubKind {
    /// A zone as a whole.
    Zone,
    /// The records of a zone that meet a query.
    Query,
}

/// The changes on which a subscription fires.
#[derive(Clone, Copy, Debug, PartialEq, Eq)]
pub struct Fires {
    pub create: bool,
    pub update: bool,
    pub delete: bool,
}

/// A subscription of a user, as "Subscription Dictionary" of the CloudKit Web Services Reference
/// has it.
#[derive(Debug, Drop)]
pub struct Subscription {
    pub scope: Scope,
    /// Its name. It has none only where a request to make it leaves the name open.
    pub id: Option<RecordName>,
    pub key: ZoneKey,
    pub kind: SubKind,
    pub fires: Fires,
    /// The type of the records that a query finds.
    pub rtype: Option<RecordName>,
    pub filters: Filters,
}
