// Lists in calls, of elements of any kind.
ghost use Rattle.std.specs.Prelude.{◌≡◌, IfOk, IfSome, Option, map, ok_or, option_and_then, option_map};
ghost use Rattle.std.specs.List.{AllByRecursion};
ghost use Rattle.serde_json.specs.Data.{Data};
ghost use Rattle.serde_json.specs.Find.{as_array};
ghost use Rattle.serde_json.specs.View.{view};
ghost use Rattle.ck_base.specs.Told.{IsToldUnless};
ghost use Rattle.field_values.specs.Results.{each_or_first_error};
ghost use Rattle.wire_calls.specs.declared.fault.BadCall.TheVariants.{BadKey as IsBad};
ghost use Rattle.wire_calls.specs.Listings.{each_in};

use crate::{BadCall, CallKey};
use ck_base::{Items, NoMemory};
use serde_json::Value as Json;
use std::alloc::Global;

/// What the elements of a list are read as.
pub(crate) trait Element<T> {
    /// What JSON is as an element, where it is one.
    ghost item_in: { Self → Data → Option T };

    /// Holds of each element that is read.
    ghost is_meant: { Self → T → Type 0 };

    /// The element that JSON is, where it is one.
    fn read(&self, alloc: Global, json: &Json) -> Result<Option<T>, NoMemory>
        ensures item { IfOk result (λ item. item ≡ item_in self.now (view json.now)) }
        ensures meant { IfOk result (λ item. IfSome item (is_meant self.now)) };
}

fn read_one<T, E: Element<T>>(
    alloc: Global,
    key: CallKey,
    element: &E,
    json: &Json,
) -> Result<T, BadCall>
    ensures item { IsToldUnless BadCall.NoMemory result
        (ok_or (E.item_in element.now (view json.now)) (IsBad key)) }
    ensures meant { IfOk result (E.is_meant element.now) }
{
    match element.read(alloc, json)? {
        Some(item) => Ok(item),
        None => Err(BadCall::BadKey(key)),
    }
}

fn read_each<T: Drop, E: Element<T>>(
    alloc: Global,
    key: CallKey,
    element: &E,
    items: &[Json],
) -> Result<Items<T>, BadCall>
    ensures list { IsToldUnless BadCall.NoMemory result
        (each_or_first_error (λ d. ok_or (E.item_in element.now d) (IsBad key)) (map view items.now)) }
    ensures meant { IfOk result (AllByRecursion (E.is_meant element.now)) }
{
    let mut list = Vec::new(alloc);
    for item in items {
        let one = read_one(alloc, key, element, item)?;
        list.push(one)?;
    }
    Ok(Items::from_vec(list))
}

/// The list that a member of a call is, each of whose elements has to be one of its kind. What is
/// no list is `BadKey` too.
#[tactic(auto, using(field_values::proofs::ListLemmas::elements_items))]
pub(crate) fn list_at<T: Drop, E: Element<T>>(
    alloc: Global,
    key: CallKey,
    element: &E,
    json: Option<&Json>,
) -> Result<Items<T>, BadCall>
    ensures list { IsToldUnless BadCall.NoMemory result
        (each_in key (E.item_in element.now) (option_and_then as_array (option_map (λ v. view v.now) json.entry))) }
    ensures meant { IfOk result (AllByRecursion (E.is_meant element.now)) }
{
    match json.and_then(Json::as_array) {
        Some(items) => read_each(alloc, key, element, items),
        None => Err(BadCall::BadKey(key)),
    }
}
