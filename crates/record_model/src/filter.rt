// What a query asks of a field.
use crate::{Comparator, Value};
use ck_base::{Items, RecordName};

/// What a field has to be for a record to be found, as "Filter Dictionary" of the CloudKit Web
/// Services Reference has it.
#[derive(Debug, Drop)]
pub struct Filter {
    pub field: RecordName,
    pub comparator: Comparator,
    pub value: Value,
}

/// Filters, all of which a record has to meet.
pub type Filters = Items<Filter>;
