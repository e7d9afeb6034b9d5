// What has changed in a zone.
use ck_base::{Items, RecordName};
use record_model::Record;

/// A name that has changed.
#[derive(Debug, Drop)]
pub enum Item {
    /// Its record is now this one.
    There(Record),
    /// It has no record now.
    Gone(RecordName),
}

/// Names that have changed.
pub type PageItems = Items<Item>;

/// The changes of a zone above a number.
#[derive(Debug, Drop)]
pub struct ZonePage {
    pub items: PageItems,
    /// The number from which the next page goes on.
    pub number: u64,
    /// Whether there are further changes.
    pub more: bool,
}
