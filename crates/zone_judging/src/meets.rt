// The checks that the record of a put is there, and that its tag is the one that is given.
ghost use Rattle.std.specs.Prelude.{◌≡◌};
ghost use Rattle.zone_model.specs.Grounds.{is_stale};
ghost use Rattle.zone_model.specs.Requests.{root_tag_given};
ghost use Rattle.zone_model.specs.PutChecks.{is_missing, is_in_conflict};
ghost use Rattle.zone_judging.specs.Asked.{named, grounds_in};

use crate::kinds::{is_forced, makes_new};
use crate::looks::{is_new, old, root_seen};
use crate::tags::is_stale;
use crate::{Grounds, NamedOp, Sees};
use record_model::{Draft, Record};

/// Whether the put wants a record that is not there.
pub(crate) fn is_missing<V: Sees>(g: &Grounds<V>, p: &NamedOp) -> bool
    ensures { result ≡ is_missing (grounds_in V.rows g.now) (named p.now) }
{
    !makes_new(p.op.kind) && is_new(g, p)
}

// Whether the draft's tag for its root is not this root's.
fn is_root_stale(draft: &Draft, row: &Record) -> bool
    ensures { result ≡ is_stale (root_tag_given draft.now) row.now }
{
    match &draft.for_root {
        Some(root) => is_stale(&root.tag, row),
        None => true,
    }
}

/// Whether a tag is not that of the record, or that of the root for the share that the put begins.
pub(crate) fn is_in_conflict<V: Sees>(g: &Grounds<V>, p: &NamedOp) -> bool
    ensures { result ≡ is_in_conflict (grounds_in V.rows g.now) (named p.now) }
{
    if is_forced(p.op.kind) {
        return false;
    }
    if let Some(row) = old(g, p) {
        if is_stale(&p.op.draft.tag, row) {
            return true;
        }
    }
    match root_seen(g, p) {
        Some(row) => is_root_stale(&p.op.draft, row),
        None => false,
    }
}
