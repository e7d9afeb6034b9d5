// Lists of names in calls.
ghost use Rattle.std.specs.Prelude.{◌≡◌, IfOk, IfSome, option_map};
ghost use Rattle.std.specs.List.{AllByRecursion};
ghost use Rattle.ck_base.specs.Names.{IsName};
ghost use Rattle.serde_json.specs.View.{view};
ghost use Rattle.ck_base.specs.Told.{IsToldUnless};
ghost use Rattle.wire_calls.specs.Listings.{keys_at, records_at, subscriptions_at};

use crate::each::{Element, list_at};
use crate::{BadCall, CallKey};
use ck_base::{NoMemory, RecordName, RecordNames};
use field_values::{member, name_in};
use serde_json::Value as Json;
use std::alloc::Global;

/// What the elements of the lists of names in calls are.
#[derive(Clone, Copy)]
pub(crate) enum Listed {
    /// The names of fields in `desiredKeys`, as texts.
    FieldNames,
    /// Objects with the names of records in `records`.
    RecordsByName,
    /// Objects with the IDs of subscriptions in `subscriptions`.
    SubscriptionsById,
}

impl Element<RecordName> for Listed {
    ghost use Rattle.ck_base.specs.Names.{IsName};
    ghost use Rattle.wire_calls.specs.Listings.{listed_name};

    ghost item_in = { listed_name };

    ghost is_meant = { λ _. IsName };

    fn read(&self, alloc: Global, json: &Json) -> Result<Option<RecordName>, NoMemory> {
        match self {
            Listed::FieldNames => name_in(alloc, Some(json)),
            Listed::RecordsByName => name_in(alloc, member(json, "recordName")),
            Listed::SubscriptionsById => name_in(alloc, member(json, "subscriptionID")),
        }
    }
}

/// The names of fields that a call lists, if it does.
pub(crate) fn keys_at(alloc: Global, json: Option<&Json>) -> Result<Option<RecordNames>, BadCall>
    ensures keys { IsToldUnless BadCall.NoMemory result
        (keys_at (option_map (λ v. view v.now) json.entry)) }
    ensures meant { IfOk result (λ keys. IfSome keys (AllByRecursion IsName)) }
{
    if json.is_none() {
        return Ok(None);
    }
    let keys = list_at(alloc, CallKey::DesiredKeys, &Listed::FieldNames, json)?;
    Ok(Some(keys))
}

/// The names of the records that a call lists.
pub(crate) fn records_at(alloc: Global, json: Option<&Json>) -> Result<RecordNames, BadCall>
    ensures names { IsToldUnless BadCall.NoMemory result
        (records_at (option_map (λ v. view v.now) json.entry)) }
    ensures meant { IfOk result (AllByRecursion IsName) }
{
    list_at(alloc, CallKey::Records, &Listed::RecordsByName, json)
}

/// The IDs of the subscriptions that a call lists as `subscriptions`: a list of objects with
/// `subscriptionID`. Anything else is `BadKey`. Its limit is that of `CallList::Subscriptions`.
pub fn subscriptions_at(alloc: Global, json: Option<&Json>) -> Result<RecordNames, BadCall>
    ensures names { IsToldUnless BadCall.NoMemory result
        (subscriptions_at (option_map (λ v. view v.now) json.entry)) }
    ensures meant { IfOk result (AllByRecursion IsName) }
{
    list_at(
        alloc,
        CallKey::Subscriptions,
        &Listed::SubscriptionsById,
        json,
    )
}
