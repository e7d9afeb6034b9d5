// What a request asks for.
use ck_base::{Items, RecordName};
use record_model::Draft;

/// What an operation does.
#[derive(Clone, Copy, Debug, PartialEq, Eq)]
pub enum OpKind {
    /// It makes a record.
    Create,
    /// It changes the given fields of a record.
    Update,
    /// As `Update`, whatever the record's tag, and it makes the record where there is none.
    ForceUpdate,
    /// It changes a record, and drops the fields that are not given.
    Replace,
    /// As `Replace`, whatever the record's tag, and it makes the record where there is none.
    ForceReplace,
    /// It removes a record.
    Delete,
    /// As `Delete`, whatever the record's tag, and it does nothing where there is no record.
    ForceDelete,
}

/// One operation of a request on records, as "Record Operation Dictionary" of the CloudKit Web
/// Services Reference has it. Of a deletion's draft only the name and the tag are looked at.
#[derive(Debug, Drop)]
pub struct Op {
    pub kind: OpKind,
    pub draft: Draft,
}

/// The operations of a request, in order.
pub type Ops = Items<Op>;

/// What has happened to a name that a request puts, whether the caller sees it or not.
#[derive(Debug, Drop)]
pub struct Past {
    pub name: RecordName,
    /// How many commits have put the name in its zone.
    pub puts: u64,
    /// Whether there is a record of that name now.
    pub taken: bool,
}

/// What has happened to each of the names.
pub type Pasts = Items<Past>;
