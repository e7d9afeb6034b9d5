// A request on the records of a zone, and what it is judged by.
use ck_base::{Guid, RecordName, Scope, UserName, ZoneKey};
use zone_model::{Op, Past};

/// An operation with the name of its record, and with the GUID for a share that it may begin.
#[derive(Clone, Copy)]
pub struct NamedOp<'a> {
    pub op: &'a Op,
    pub name: &'a RecordName,
    pub guid: Option<Guid>,
}

/// What a judgement rests on: who asks, in which scope and of which zone, what has happened to the
/// names that are put, what is seen of the zone, and the operations.
pub struct Grounds<'a, V> {
    pub user: &'a UserName,
    pub scope: Scope,
    pub key: &'a ZoneKey,
    pub pasts: &'a [Past],
    pub seen: &'a V,
    pub ops: &'a [NamedOp<'a>],
}
