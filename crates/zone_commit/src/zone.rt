// A zone that is kept.
ghost use Rattle.std.specs.Prelude.{◌≡◌, true, false, OnOk, OnErr};
ghost use Rattle.std.specs.Option.{option_copied};
ghost use Rattle.ck_base.specs.declared.scope.Scope.TheVariants.{Private};
ghost use Rattle.zone_model.specs.Names.{is_default};
ghost use Rattle.zone_model.specs.Records.{record_at};
ghost use Rattle.zone_model.specs.Views.{view_of_zone};
ghost use Rattle.zone_records.specs.Told.{told_first, MayBeNext, Follows};

use crate::contents::{Contents, act_on, first_contents};
use crate::counts::count_at;
use crate::links::next_name;
use ck_base::known::DEFAULT_ZONE;
use ck_base::{NoMemory, RecordName, UserName, ZoneKey};
use record_model::{Record, Subscription};
use std::alloc::Global;
use std::marker::Model;
use zone_model::Commit;
use zone_records::Records;

/// One zone, as a list of lawful commits leaves it.
#[derive(Drop)]
pub struct Zone {
    key: ZoneKey,
    spent: bool,
    contents: Contents,
}

impl Model for Zone {
    ghost use Rattle.std.specs.Prelude.{◌≡◌, false};
    ghost use Rattle.zone_commit.specs.Kept.{Kept, told_by, IsWhole};
    ghost use Rattle.std.specs.Coded.{codes};
    ghost use Rattle.record_model.specs.contracts.value.Value as value;

    ghost Value = { Kept };

    ghost coded = { Prim.hlevel (codes, value.the_row.coded) };

    ghost view = { λ z. record { spent = z.spent; told = told_by z.key z.contents.here z.contents.records.rows z.contents.counts z.contents.subscriptions.items } };

    ghost invariant = { λ z. z.spent ≡ false → IsWhole z.contents.records.rows z.contents.records.children z.contents.records.referrers (told_by z.key z.contents.here z.contents.records.rows z.contents.counts z.contents.subscriptions.items) };
}

fn is_default(key: &ZoneKey) -> bool
    ensures { result ≡ is_default key.now }
{
    key.zone.as_bytes() == DEFAULT_ZONE.as_bytes()
}

impl Zone {
    /// The zone without commits.
    pub fn new(alloc: Global, key: ZoneKey) -> Self
        ensures told { result.told ≡ told_first key }
        ensures live { result.spent ≡ false }
    {
        let here = is_default(&key);
        Zone {
            key,
            spent: false,
            contents: first_contents(alloc, here),
        }
    }

    /// Whether memory ran out in `apply`. A spent zone answers nothing else.
    pub fn is_spent(&self) -> bool
        ensures { result ≡ self.now.spent }
    {
        self.spent
    }

    /// Goes on by a commit of this zone that is lawful after those before it. Where memory runs out the
    /// zone is spent.
    pub fn apply(&mut self, alloc: Global, commit: &Commit) -> Result<(), NoMemory>
        requires live { self.old.spent ≡ false }
        requires next { MayBeNext self.old.told commit.now }
        ensures follows { OnOk result (Follows self.old.told commit.now self.new.told) }
        ensures live { OnOk result (self.new.spent ≡ false) }
        ensures spent { OnErr result (self.new.spent ≡ true) }
    {
        self.spent = true;
        act_on(alloc, &mut self.contents, &commit.act)?;
        self.spent = false;
        Ok(())
    }

    /// The record of that name that the user sees in the private scope.
    pub fn lookup(&self, user: &UserName, name: &RecordName) -> Option<&Record>
        requires { self.now.spent ≡ false }
        ensures { option_copied result ≡ record_at (view_of_zone self.now.told.zone user.now Private self.now.told.key).rows name.now }
    {
        if user.as_bytes() != self.key.owner.as_bytes() || !self.contents.here {
            return None;
        }
        self.contents.records.rows.get(name)
    }
}

impl Records for Zone {
    ghost use Rattle.std.specs.Prelude.{◌≡◌, false};
    ghost use Rattle.zone_commit.specs.Kept.{Kept};

    ghost told = { λ (z : Kept). z.told };

    ghost may_be_asked = { λ (z : Kept). z.spent ≡ false };

    fn key(&self) -> &ZoneKey {
        &self.key
    }

    fn here(&self) -> bool {
        self.contents.here
    }

    fn subscriptions(&self) -> &[Subscription] {
        &self.contents.subscriptions
    }

    fn row(&self, name: &RecordName) -> Option<&Record> {
        self.contents.records.rows.get(name)
    }

    fn puts(&self, name: &RecordName) -> u64 {
        count_at(&self.contents.counts, name)
    }

    fn next_child(&self, name: &RecordName, after: Option<&RecordName>) -> Option<&RecordName> {
        next_name(&self.contents.records.children, name, after)
    }

    fn next_referrer(&self, name: &RecordName, after: Option<&RecordName>) -> Option<&RecordName> {
        next_name(&self.contents.records.referrers, name, after)
    }
}
