// What a zone holds, and what an act makes of it.
ghost use Rattle.std.specs.Prelude.{◌≡◌, ◌+◌, ℕ, List, [], not, filter, if◌then◌else◌, OnOk};
ghost use Rattle.std.specs.BTreeMap.{values};
ghost use Rattle.zone_model.specs.Form.{IsActInForm};
ghost use Rattle.zone_model.specs.Zones.{after_act, act_puts};
ghost use Rattle.zone_model.specs.Subscriptions.{with_subscription, is_subscription, subscriptions_after};
ghost use Rattle.zone_commit.specs.Maps.{count_at};
ghost use Rattle.zone_commit.specs.Kept.{AreLinked, zone_by};

use crate::counts::Counts;
use crate::indexed::{Indexed, no_records, write_all};
use ck_base::{NoMemory, RecordName, Scope};
use record_model::Subscription;
use std::alloc::Global;
use std::collections::BTreeMap;
use std::mem;
use zone_model::{Act, Write};
use zone_records::{copy_subscription, drop_subscription, set_subscription};

/// Whether the zone is there, its records, the counts of puts, and its subscriptions in order.
#[derive(Drop)]
pub(crate) struct Contents {
    pub here: bool,
    pub records: Indexed,
    pub counts: Counts,
    pub subscriptions: Vec<Subscription>,
}

/// The contents before any act.
pub(crate) fn first_contents(alloc: Global, here: bool) -> Contents
    ensures here { result.here ≡ here }
    ensures linked { AreLinked result.records.rows result.records.children result.records.referrers }
    ensures rows { values result.records.rows ≡ [] }
    ensures counts { result.counts.entries ≡ [] }
    ensures subscriptions { result.subscriptions.items ≡ [] }
{
    Contents {
        here,
        records: no_records(alloc),
        counts: BTreeMap::new(alloc),
        subscriptions: Vec::new(alloc),
    }
}

fn set_one(
    alloc: Global,
    subscriptions: &mut Vec<Subscription>,
    subscription: &Subscription,
) -> Result<(), NoMemory>
    ensures { OnOk result (subscriptions.new.items ≡ with_subscription subscriptions.old.items subscription.now) }
{
    let set = copy_subscription(alloc, subscription)?;
    let earlier = mem::replace(subscriptions, Vec::new(alloc));
    *subscriptions = set_subscription(alloc, earlier, set)?;
    Ok(())
}

fn drop_one(
    alloc: Global,
    subscriptions: &mut Vec<Subscription>,
    scope: Scope,
    id: &RecordName,
) -> Result<(), NoMemory>
    ensures { OnOk result (subscriptions.new.items ≡ filter (λ s. not (is_subscription scope id.now s)) subscriptions.old.items) }
{
    let earlier = mem::replace(subscriptions, Vec::new(alloc));
    *subscriptions = drop_subscription(alloc, earlier, scope, id)?;
    Ok(())
}

/// What the act makes of the contents. Want of memory leaves them half done.
pub(crate) fn act_on(alloc: Global, contents: &mut Contents, act: &Act) -> Result<(), NoMemory>
    requires linked { AreLinked contents.old.records.rows contents.old.records.children contents.old.records.referrers }
    requires form { IsActInForm act.now }
    ensures linked { OnOk result (AreLinked contents.new.records.rows contents.new.records.children contents.new.records.referrers) }
    ensures zone { OnOk result (zone_by contents.new.here contents.new.records.rows ≡ after_act (zone_by contents.old.here contents.old.records.rows) act.now) }
    ensures subscriptions { OnOk result (contents.new.subscriptions.items ≡ subscriptions_after contents.old.subscriptions.items act.now) }
    ensures counts { OnOk result ((x : List ℕ) → count_at contents.new.counts x ≡ count_at contents.old.counts x + (if act_puts x act.now then 1 else 0)) }
{
    match act {
        Act::Writes(writes) => write_all(
            alloc,
            &mut contents.records,
            &mut contents.counts,
            writes.as_slice(),
        ),
        Act::MakeZone => {
            contents.here = true;
            Ok(())
        }
        Act::DropZone => {
            contents.here = false;
            contents.records = no_records(alloc);
            Ok(())
        }
        Act::SetSubscription(subscription) => {
            set_one(alloc, &mut contents.subscriptions, subscription)
        }
        Act::DropSubscription { scope, id } => {
            drop_one(alloc, &mut contents.subscriptions, *scope, id)
        }
    }
}
