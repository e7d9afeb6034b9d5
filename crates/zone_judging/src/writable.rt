// Which names may be written: where the nearest that is seen, on the way upward in the working view,
// may be.
ghost use Rattle.std.specs.Prelude.{◌≡◌, find, map, option_map};
ghost use Rattle.name_rules.specs.Parents.{upward};
ghost use Rattle.zone_model.specs.Records.{is_there};
ghost use Rattle.zone_model.specs.Grounds.{is_writable};
ghost use Rattle.zone_model.specs.PutChecks.{is_denied_parent, is_denied};
ghost use Rattle.zone_judging.specs.Asked.{named, grounds_in};
ghost use Rattle.zone_judging.specs.Made.{made_links};
ghost use Rattle.zone_judging.specs.Sights.{AreSeen};

use crate::looks::{is_new, is_of_share, is_seen, parent};
use crate::permits::may_write;
use crate::working::{in_working, made_parent};
use crate::{Grounds, NamedOp, Sees};
use ck_base::{RecordName, Scope};

// The nearest name that is seen, on a way upward over records that puts make.
#[tactic(auto, using(crate::proofs::WritableLemmas::near_met, crate::proofs::WritableLemmas::near_ended, crate::proofs::WritableLemmas::near_goes_on, crate::proofs::WritableLemmas::near_last))]
fn nearest<'x, 'a: 'x, V: Sees>(
    g: &Grounds<'a, V>,
    name: &'x RecordName,
    steps: usize,
) -> Option<&'x RecordName>
    ensures { option_map (λ x. x.now) result ≡ find (is_there (V.rows g.now.seen.now)) (upward steps (made_links (map named g.now.ops.now)) name.now) }
{
    let mut at = name;
    let mut left = steps;
    while left > 0 {
        if is_seen(g, at) {
            return Some(at);
        }
        match made_parent(g, at) {
            Some(parent) => at = parent,
            None => return None,
        }
        left -= 1;
    }
    if is_seen(g, at) { Some(at) } else { None }
}

/// Whether the name may be written.
#[tactic(auto, using(crate::proofs::WritableLemmas::writable_told))]
pub(crate) fn is_writable<V: Sees>(g: &Grounds<V>, name: &RecordName) -> bool
    requires { AreSeen (V.rows g.now.seen.now) }
    ensures { result ≡ is_writable (grounds_in V.rows g.now) name.now }
{
    match nearest(g, name, g.ops.len()) {
        Some(near) => may_write(g.seen, g.user, near),
        None => false,
    }
}

fn is_denied_parent<V: Sees>(g: &Grounds<V>, p: &NamedOp) -> bool
    requires { AreSeen (V.rows g.now.seen.now) }
    ensures { result ≡ is_denied_parent (grounds_in V.rows g.now) (named p.now) }
{
    match parent(g, p) {
        Some(parent) => in_working(g, parent) && !is_writable(g, parent),
        None => false,
    }
}

/// Whether the caller may not put this.
pub(crate) fn is_denied<V: Sees>(g: &Grounds<V>, p: &NamedOp) -> bool
    requires { AreSeen (V.rows g.now.seen.now) }
    ensures { result ≡ is_denied (grounds_in V.rows g.now) (named p.now) }
{
    match g.scope {
        Scope::Private => false,
        Scope::Shared => {
            if is_of_share(g, p) {
                return true;
            }
            if is_new(g, p) {
                parent(g, p).is_none() || is_denied_parent(g, p)
            } else {
                !is_writable(g, p.name)
            }
        }
    }
}
