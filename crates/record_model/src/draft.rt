// Records as requests give them.
use crate::Value;
use ck_base::{Items, RecordName, Text};
use share_records::{Permission, Wanted};

/// What a request says of a record's parent.
#[derive(Debug, Drop)]
pub enum ParentWish {
    /// It says nothing.
    Absent,
    /// It says that there is none.
    Null,
    /// It is this record.
    To(RecordName),
}

/// The root of a share, with its change tag where the request gives one.
#[derive(Debug, Drop)]
pub struct ForRoot {
    pub name: RecordName,
    pub tag: Option<Text>,
}

/// A field that a request gives: its name and its value, or none where the field is to go.
pub type Wish = (RecordName, Option<Value>);

/// The fields that a request gives, in ascending order of their names.
pub type Wishes = Items<Wish>;

/// The participants that a share is to have.
pub type WantedList = Items<Wanted>;

/// A record as a request gives it, as "Record Dictionary" of the CloudKit Web Services Reference
/// has it. What a request leaves out is `None` or `Absent`.
#[derive(Debug, Drop)]
pub struct Draft {
    pub name: Option<RecordName>,
    pub rtype: Option<RecordName>,
    pub tag: Option<Text>,
    pub parent: ParentWish,
    pub fields: Wishes,
    pub for_root: Option<ForRoot>,
    pub public: Option<Permission>,
    pub participants: Option<WantedList>,
}
