// The calls of the service.
use ck_base::{Database, RecordNames, UserName, ZoneKey};
use modify_ops::Ops;

/// A call that changes records of a zone, as "Modifying Records" of the CloudKit Web Services
/// Reference has it.
#[derive(Debug, Drop)]
pub struct ModifyCall {
    pub caller: UserName,
    pub database: Database,
    pub zone: ZoneKey,
    /// All operations are done or none.
    pub atomic: bool,
    /// The reply writes whole numbers as texts.
    pub numbers_as_strings: bool,
    pub ops: Ops,
}

/// A call for records of a zone by their names, as "Fetching Records by Record Name" of the CloudKit
/// Web Services Reference has it.
#[derive(Debug, Drop)]
pub struct LookupCall {
    pub caller: UserName,
    pub database: Database,
    pub zone: ZoneKey,
    /// The reply writes whole numbers as texts.
    pub numbers_as_strings: bool,
    /// The fields that the reply is to have, or all where there is no list.
    pub desired_keys: Option<RecordNames>,
    pub names: RecordNames,
}

/// A call of the service.
#[derive(Debug, Drop)]
pub enum Call {
    Modify(ModifyCall),
    Lookup(LookupCall),
}
