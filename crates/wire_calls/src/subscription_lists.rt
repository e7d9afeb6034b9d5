// What is to be done with subscriptions by calls.
ghost use Rattle.std.specs.Prelude.{◌≡◌, IfOk, IfSome, option_map};
ghost use Rattle.std.specs.List.{AllByRecursion};
ghost use Rattle.ck_base.specs.Names.{IsName};
ghost use Rattle.serde_json.specs.View.{view};
ghost use Rattle.ck_base.specs.Told.{IsToldUnless};
ghost use Rattle.wire_calls.specs.SubscriptionLists.{id_given, id_of_object, subscription_op_as, subscription_ops_at, IsMeantSubscriptionOp};
ghost use Rattle.wire_calls.specs.declared.subscription_lists.SubscriptionOp.TheVariants.{Delete};

use crate::each::{Element, list_at};
use crate::{BadCall, CallKey};
use ck_base::{Items, NoMemory, RecordName};
use field_values::{member, name_in};
use serde_json::Value as Json;
use std::alloc::Global;

/// An operation of a call that makes and removes subscriptions, as "Modifying Subscriptions" of the
/// CloudKit Web Services Reference has it. Of the subscription it tells the ID.
#[derive(Debug, Drop)]
pub enum SubscriptionOp {
    /// Without an ID the service gives it one.
    Create(Option<RecordName>),
    Delete(RecordName),
}

// The ID that a subscription has, if it has one. The outer option is none where it is no name.
fn id_given(alloc: Global, json: Option<&Json>) -> Result<Option<Option<RecordName>>, NoMemory>
    ensures id { IfOk result (λ id.
        id ≡ id_given (option_map (λ v. view v.now) json.entry)) }
    ensures meant { IfOk result (λ id. IfSome id (λ id. IfSome id IsName)) }
{
    if json.is_none() {
        return Ok(Some(None));
    }
    match name_in(alloc, json)? {
        Some(id) => Ok(Some(Some(id))),
        None => Ok(None),
    }
}

// The ID of what has to be an object.
fn id_of_object(alloc: Global, json: &Json) -> Result<Option<Option<RecordName>>, NoMemory>
    ensures id { IfOk result (λ id. id ≡ id_of_object (view json.now)) }
    ensures meant { IfOk result (λ id. IfSome id (λ id. IfSome id IsName)) }
{
    if json.is_object() {
        id_given(alloc, member(json, "subscriptionID"))
    } else {
        Ok(None)
    }
}

fn delete_of(id: Option<RecordName>) -> Option<SubscriptionOp>
    ensures { result ≡ option_map Delete id }
{
    match id {
        Some(id) => Some(SubscriptionOp::Delete(id)),
        None => None,
    }
}

// What an operation of this type does with the subscription of the ID.
fn subscription_op_as(kind: &str, id: Option<RecordName>) -> Option<SubscriptionOp>
    ensures op { result ≡ subscription_op_as kind.now id }
    ensures meant { IfSome id IsName → IfSome result IsMeantSubscriptionOp }
{
    match kind {
        "create" => Some(SubscriptionOp::Create(id)),
        "delete" => delete_of(id),
        _ => None,
    }
}

/// The elements of a list of operations with subscriptions.
struct SubscriptionOps;

impl Element<SubscriptionOp> for SubscriptionOps {
    ghost use Rattle.wire_calls.specs.SubscriptionLists.{subscription_op_in, IsMeantSubscriptionOp};

    ghost item_in = { λ _. subscription_op_in };

    ghost is_meant = { λ _. IsMeantSubscriptionOp };

    fn read(&self, alloc: Global, json: &Json) -> Result<Option<SubscriptionOp>, NoMemory> {
        let Some(kind) = member(json, "operationType").and_then(Json::as_str) else {
            return Ok(None);
        };
        let Some(subscription) = member(json, "subscription") else {
            return Ok(None);
        };
        match id_of_object(alloc, subscription)? {
            Some(id) => Ok(subscription_op_as(kind, id)),
            None => Ok(None),
        }
    }
}

/// What a call does with subscriptions by its `operations`: a list of objects with `operationType`,
/// which is `create` or `delete`, and a `subscription`, an object with a `subscriptionID`, without
/// which just a create may be. Anything else is `BadKey`. Nothing else of a subscription is looked at.
/// Its limit is that of `CallList::Operations`.
pub fn subscription_ops_at(
    alloc: Global,
    json: Option<&Json>,
) -> Result<Items<SubscriptionOp>, BadCall>
    ensures ops { IsToldUnless BadCall.NoMemory result
        (subscription_ops_at (option_map (λ v. view v.now) json.entry)) }
    ensures meant { IfOk result (AllByRecursion IsMeantSubscriptionOp) }
{
    list_at(alloc, CallKey::Operations, &SubscriptionOps, json)
}
