// Records as a zone keeps them.
use crate::Value;
use ck_base::{Items, RecordName, UserName};
use share_records::Share;

/// When a record was written, in milliseconds since 1970, and by whom.
#[derive(Debug, Drop)]
pub struct Stamp {
    pub moment: u64,
    pub user: UserName,
}

/// A field of a record: its name and its value.
pub type Field = (RecordName, Value);

/// The fields of a record, in ascending order of their names.
pub type Fields = Items<Field>;

/// What a record is beside its fields.
#[derive(Debug, Drop)]
pub enum Body {
    /// Nothing more.
    Plain,
    /// A share of another record. Just the records of type `cloudkit.share` are.
    Share(Share),
}

/// A record of a zone, as "Record Dictionary" of the CloudKit Web Services Reference has it.
#[derive(Debug, Drop)]
pub struct Record {
    pub name: RecordName,
    pub rtype: RecordName,
    /// The change tag: how many commits have put the name in its zone.
    pub tag: u64,
    /// The record above this one, whose share covers this one too.
    pub parent: Option<RecordName>,
    /// The share record of which this one is the root.
    pub share: Option<RecordName>,
    pub fields: Fields,
    pub created: Stamp,
    pub modified: Stamp,
    pub body: Body,
}

/// Records, one after another.
pub type Rows = Items<Record>;
