// The calls of the service by the path of a request.

/// The database that a path names.
#[derive(Clone, Copy, Debug, PartialEq, Eq)]
pub enum Database {
    Private,
    Shared,
    Public,
}

/// The operation that a path names by its last two words, as `records/modify`.
#[derive(Clone, Copy, Debug, PartialEq, Eq)]
pub enum Operation {
    RecordsModify,
    RecordsLookup,
    RecordsQuery,
    RecordsResolve,
    RecordsAccept,
    ZonesList,
    ZonesLookup,
    ZonesModify,
    ChangesZone,
    ChangesDatabase,
    SubscriptionsList,
    SubscriptionsLookup,
    SubscriptionsModify,
    SubscriptionsNotices,
}

/// What a path asks for, as "Composing Web Service Requests" of the CloudKit Web Services Reference
/// gives it.
#[derive(Clone, Copy, Debug, PartialEq, Eq)]
pub struct Route {
    pub database: Database,
    pub operation: Operation,
}
