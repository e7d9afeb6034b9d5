// Subscriptions: copies of them, and their lists with one set or dropped.
ghost use Rattle.std.specs.Prelude.{◌≡◌, ◌<◌, not, filter, IfOk};
ghost use Rattle.ck_base.specs.Order.{is_before};
ghost use Rattle.zone_model.specs.Names.{same};
ghost use Rattle.zone_model.specs.Subscriptions.{scope_place, id_of, is_subscription, stands_before, with_subscription};

use ck_base::{Items, NoMemory, RecordName, Scope};
use record_model::{Filter, Filters, Subscription, copy_value};
use std::alloc::Global;
use std::cmp::Ordering;

fn copy_name(name: &Option<RecordName>) -> Result<Option<RecordName>, NoMemory>
    ensures { IfOk result (λ copy. copy ≡ name.now) }
{
    match name {
        Some(name) => Ok(Some(name.clone()?)),
        None => Ok(None),
    }
}

fn copy_filter(alloc: Global, filter: &Filter) -> Result<Filter, NoMemory>
    ensures { IfOk result (λ copy. copy ≡ filter.now) }
{
    Ok(Filter {
        field: filter.field.clone()?,
        comparator: filter.comparator,
        value: copy_value(alloc, &filter.value)?,
    })
}

fn copy_filters(alloc: Global, filters: &[Filter]) -> Result<Filters, NoMemory>
    ensures { IfOk result (λ copy. copy ≡ filters.now) }
{
    let mut copies = Vec::new(alloc);
    for filter in filters {
        copies.push(copy_filter(alloc, filter)?)?;
    }
    Ok(Items::from_vec(copies))
}

/// A copy of the subscription. It fails only where memory runs out.
pub fn copy_subscription(
    alloc: Global,
    subscription: &Subscription,
) -> Result<Subscription, NoMemory>
    ensures { IfOk result (λ copy. copy ≡ subscription.now) }
{
    Ok(Subscription {
        scope: subscription.scope,
        id: copy_name(&subscription.id)?,
        key: subscription.key.clone()?,
        kind: subscription.kind,
        fires: subscription.fires,
        rtype: copy_name(&subscription.rtype)?,
        filters: copy_filters(alloc, subscription.filters.as_slice())?,
    })
}

fn scope_place(scope: Scope) -> u8
    ensures place { result ≡ scope_place scope }
    ensures small { result < 2 }
{
    match scope {
        Scope::Private => 0,
        Scope::Shared => 1,
    }
}

fn id_bytes(subscription: &Subscription) -> &[u8]
    ensures { result.now ≡ id_of subscription.now }
{
    match &subscription.id {
        Some(id) => id.as_bytes(),
        None => &[],
    }
}

fn is_before(one: &[u8], other: &[u8]) -> bool
    ensures { result ≡ is_before one.now other.now }
{
    match one.cmp(other) {
        Ordering::Less => true,
        Ordering::Equal | Ordering::Greater => false,
    }
}

fn stands_before(one: &Subscription, other: &Subscription) -> bool
    ensures { result ≡ stands_before one.now other.now }
{
    let left = scope_place(one.scope);
    let right = scope_place(other.scope);
    left < right || (left == right && is_before(id_bytes(one), id_bytes(other)))
}

fn is_subscription(subscription: &Subscription, scope: Scope, id: &RecordName) -> bool
    ensures { result ≡ is_subscription scope id.now subscription.now }
{
    scope_place(scope) == scope_place(subscription.scope) && id.as_bytes() == id_bytes(subscription)
}

/// The subscriptions with this one set, over the one with its scope and name.
pub fn set_subscription(
    alloc: Global,
    subscriptions: Vec<Subscription>,
    set: Subscription,
) -> Result<Vec<Subscription>, NoMemory>
    ensures { IfOk result (λ after. after.items ≡ with_subscription subscriptions.items set) }
{
    let mut front = Vec::new(alloc);
    let mut back = Vec::new(alloc);
    for subscription in subscriptions {
        if stands_before(&subscription, &set) {
            front.push(subscription)?;
        } else if stands_before(&set, &subscription) {
            back.push(subscription)?;
        }
    }
    front.push(set)?;
    front.append(&mut back)?;
    Ok(front)
}

/// The subscriptions without the one with this scope and name.
pub fn drop_subscription(
    alloc: Global,
    subscriptions: Vec<Subscription>,
    scope: Scope,
    id: &RecordName,
) -> Result<Vec<Subscription>, NoMemory>
    ensures { IfOk result (λ after. after.items ≡ filter (λ s. not (is_subscription scope id.now s)) subscriptions.items) }
{
    let mut kept = Vec::new(alloc);
    for subscription in subscriptions {
        if !is_subscription(&subscription, scope, id) {
            kept.push(subscription)?;
        }
    }
    Ok(kept)
}
