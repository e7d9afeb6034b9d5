// The values of fields.
use ck_base::{Bytes, Items, RecordName, Text};

/// The kind of a value that is no list, and of the elements of one that is.
#[derive(Clone, Copy, Debug, PartialEq, Eq)]
pub enum Kind {
    Int64,
    Timestamp,
    Text,
    Bytes,
    Reference,
}

/// The type of a field: a single value of a kind, or a list of such values.
#[derive(Clone, Copy, Debug, PartialEq, Eq)]
pub enum Shape {
    Single(Kind),
    ListOf(Kind),
}

/// What becomes of a record that refers to another one when that one is deleted.
#[derive(Clone, Copy, Debug, PartialEq, Eq)]
pub enum Action {
    /// Nothing.
    Plain,
    /// The record is deleted too.
    DeleteSelf,
    /// The deletion is refused.
    Validate,
}

/// A reference to a record of the same zone.
#[derive(Debug, Drop)]
pub struct RefTo {
    pub name: RecordName,
    pub action: Action,
}

/// The elements of a list.
pub type Values = Items<Value>;

/// The value of a field.
#[derive(Debug, Drop)]
pub enum Value {
    /// A whole number.
    Int64(i64),
    /// A moment, in milliseconds since 1970.
    Timestamp(i64),
    /// A text.
    Text(Text),
    /// Bytes.
    Bytes(Bytes),
    /// A reference to a record.
    Reference(RefTo),
    /// A list of values of one kind. The kind is there for a list without elements too.
    List(Kind, Values),
}
