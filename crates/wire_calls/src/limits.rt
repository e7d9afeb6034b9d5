// How long the lists of calls may be.
ghost use Rattle.std.specs.Prelude.{◌≡◌, ◌≤◌, IfOk, OnOk, if◌then◌else◌, length, nat_lt, Ok, Err};
ghost use Rattle.wire_calls.specs.declared.fault.BadCall.TheVariants.{TooMany as Exceeds};
ghost use Rattle.wire_calls.specs.Limits.{most_of, limited_list};

use crate::BadCall;
use ck_base::Items;
use ck_base::limits::{CHANGED_ZONES, LIST_ITEMS};

/// The lists of calls, each of which has a limit.
#[derive(Clone, Copy, Debug, PartialEq, Eq)]
pub enum CallList {
    /// What is to be done with records, zones or subscriptions.
    Operations,
    /// The names of the fields that a reply is to have.
    DesiredKeys,
    /// Records by their names.
    Records,
    ShortGuids,
    /// Zones that are looked up.
    Zones,
    /// Zones of whose changes a call asks.
    ChangedZones,
    /// Subscriptions by their IDs.
    Subscriptions,
}

fn most_of(list: CallList) -> usize
    ensures { result ≡ most_of list }
{
    match list {
        CallList::ChangedZones => CHANGED_ZONES,
        CallList::Operations
        | CallList::DesiredKeys
        | CallList::Records
        | CallList::ShortGuids
        | CallList::Zones
        | CallList::Subscriptions => LIST_ITEMS,
    }
}

/// That a list has no more elements than its limit. Else it is `TooMany`.
pub(crate) fn check_count(list: CallList, count: usize) -> Result<(), BadCall>
    ensures limit { result ≡ (if nat_lt (most_of list) count then Err (Exceeds count) else Ok tt) }
    ensures within { OnOk result (count ≤ most_of list) }
{
    if count > most_of(list) {
        return Err(BadCall::TooMany(count as u64));
    }
    Ok(())
}

/// The list, once it was read, of a call that has no other: as it is, with at most 16 zones of whose
/// changes a call asks, and at most 200 elements of each other list. Else it is `TooMany`.
pub fn limited_list<T: Drop>(list: CallList, items: Items<T>) -> Result<Items<T>, BadCall>
    ensures list { result ≡ limited_list list (Ok items) }
    ensures same { IfOk result (λ kept. kept ≡ items) }
    ensures within { IfOk result (λ kept. length kept ≤ most_of list) }
{
    check_count(list, items.len())?;
    Ok(items)
}
