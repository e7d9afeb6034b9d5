// The replies of the service.
use ck_base::{Items, RecordName, ZoneKey};
use ck_records::Record;
use error_replies::ServerError;

/// An entry of a list of records, as "Record Fetch Error Dictionary" of the CloudKit Web Services
/// Reference has those that are errors; the record at a conflict is this project's own.
#[derive(Debug, Drop)]
pub enum RecordEntry {
    /// The record is there.
    There(Record),
    /// It was removed.
    Gone(RecordName),
    /// Another error than a conflict, and the name of the record that it is about.
    Failed {
        error: ServerError,
        name: RecordName,
    },
    /// A conflict, with the record that stands in the way.
    Conflict {
        name: RecordName,
        server: Record,
    },
}

/// Entries for records, in order.
pub type RecordEntries = Items<RecordEntry>;

/// A reply that lists records of a zone.
#[derive(Debug, Drop)]
pub struct RecordsReply {
    pub zone: ZoneKey,
    /// Whole numbers are written as texts.
    pub numbers_as_strings: bool,
    pub entries: RecordEntries,
}

/// A reply of the service.
#[derive(Debug, Drop)]
pub enum Reply {
    Modify(RecordsReply),
    Lookup(RecordsReply),
    /// The whole request was refused.
    Refused(ServerError),
}
