// What an operation is answered.
use crate::Commits;
use ck_base::{Items, RecordName};
use record_model::Record;

/// Why an operation is refused. The names are those of "Error Codes" in the CloudKit Web Services
/// Reference.
#[derive(Clone, Copy, Debug, PartialEq, Eq)]
pub enum OpFault {
    /// The name is taken, or the root has a share.
    Exists,
    /// There is no such record.
    NotFound,
    /// The tag is not the record's.
    Conflict,
    /// The record would not have its form, or the operation asks for what records of its kind can't have.
    BadRequest,
    /// The user may not do this.
    AccessDenied,
    /// A record is missing or still needed.
    Validating,
    /// Another operation of the request was refused.
    Atomic,
}

/// The answer to one operation.
#[derive(Debug, Drop)]
pub enum Outcome {
    /// The record was put, and is now this one.
    Put(Record),
    /// The record of this name was removed.
    Deleted(RecordName),
    /// The operation was refused. `server` is the record that stands in the way, where the fault
    /// shows one.
    Refused {
        fault: OpFault,
        server: Option<Record>,
    },
}

/// The answers to the operations of a request, in order.
pub type Outcomes = Items<Outcome>;

/// What a request comes to: its answers, and its commits in order.
#[derive(Debug, Drop)]
pub struct Modified {
    pub outcomes: Outcomes,
    pub commits: Commits,
}
