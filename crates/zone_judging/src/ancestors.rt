// Ways upward in the working view.
ghost use Rattle.std.specs.Prelude.{◌≡◌};
ghost use Rattle.name_rules.specs.Names.{is_in};
ghost use Rattle.name_rules.specs.Parents.{upward};
ghost use Rattle.zone_model.specs.Ancestry.{links_of, is_ancestor};
ghost use Rattle.zone_judging.specs.Asked.{grounds_in};

use crate::working::parent_in_working;
use crate::{Grounds, Sees};
use ck_base::RecordName;

// Whether the name is the first one or one of so many above it.
#[tactic(auto, using(crate::proofs::WayLemmas::met, crate::proofs::WayLemmas::ended, crate::proofs::WayLemmas::goes_on, crate::proofs::WayLemmas::last))]
fn is_passed<V: Sees>(g: &Grounds<V>, from: &RecordName, name: &RecordName, steps: u64) -> bool
    ensures { result ≡ is_in (upward steps (links_of (grounds_in V.rows g.now).working) from.now) name.now }
{
    let mut at = from;
    let mut left = steps;
    while left > 0 {
        if *name == *at {
            return true;
        }
        match parent_in_working(g, at) {
            Some(parent) => at = parent,
            None => return false,
        }
        left -= 1;
    }
    *name == *at
}

/// Whether the name stands at or above the other in the working view.
#[tactic(auto, using(crate::proofs::WayLemmas::enough_in_working))]
pub(crate) fn is_ancestor<V: Sees>(g: &Grounds<V>, name: &RecordName, from: &RecordName) -> bool
    ensures { result ≡ is_ancestor (grounds_in V.rows g.now).working name.now from.now }
{
    is_passed(g, from, name, g.seen.most() + g.ops.len() as u64)
}
