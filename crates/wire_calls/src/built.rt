// Which operations are built.
ghost use Rattle.std.specs.Prelude.{◌≡◌};
ghost use Rattle.wire_calls.specs.Built.{kind_of, is_built_operation};

use ck_base::Operation;

/// The kinds of calls that are built.
#[derive(Clone, Copy, Debug, PartialEq, Eq)]
pub(crate) enum CallKind {
    ModifyRecords,
    LookupRecords,
}

/// The kind of call that an operation is, where it is built.
pub(crate) fn kind_of(operation: Operation) -> Option<CallKind>
    ensures { result ≡ kind_of operation }
{
    match operation {
        Operation::RecordsModify => Some(CallKind::ModifyRecords),
        Operation::RecordsLookup => Some(CallKind::LookupRecords),
        Operation::RecordsQuery
        | Operation::RecordsResolve
        | Operation::RecordsAccept
        | Operation::ZonesList
        | Operation::ZonesLookup
        | Operation::ZonesModify
        | Operation::ChangesZone
        | Operation::ChangesDatabase
        | Operation::SubscriptionsList
        | Operation::SubscriptionsLookup
        | Operation::SubscriptionsModify
        | Operation::SubscriptionsNotices => None,
    }
}

/// Whether an operation is built. The body of any other is `NotBuilt`.
pub fn is_built_operation(operation: Operation) -> bool
    ensures { result ≡ is_built_operation operation }
{
    kind_of(operation).is_some()
}
