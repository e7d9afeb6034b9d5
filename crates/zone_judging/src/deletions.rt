// The judgement of a deletion.
ghost use Rattle.std.specs.Prelude.{◌≡◌, option_map};
ghost use Rattle.zone_model.specs.DeletionChecks.{deleted, is_missing, is_in_conflict, is_denied, is_held_back, fault_of_deletion};
ghost use Rattle.zone_judging.specs.Asked.{named, grounds_in};
ghost use Rattle.zone_judging.specs.Sights.{AreSeen};
ghost use Rattle.zone_judging.specs.Holding.{AreAllInOrder};

use crate::held::{is_held, is_taken};
use crate::kinds::is_forced;
use crate::looks::is_share;
use crate::tags::is_stale;
use crate::writable::is_writable;
use crate::{Grounds, NamedOp, Sees};
use ck_base::Scope;
use record_model::Record;
use zone_model::OpFault;

fn deleted<'a, V: Sees>(g: &Grounds<'a, V>, op: &NamedOp) -> Option<&'a Record>
    ensures { option_map (λ r. r.now) result ≡ deleted (grounds_in V.rows g.now) (named op.now) }
{
    g.seen.record_at(op.name)
}

// Whether a record is to be there, and is not.
fn is_missing<V: Sees>(g: &Grounds<V>, op: &NamedOp) -> bool
    ensures { result ≡ is_missing (grounds_in V.rows g.now) (named op.now) }
{
    !is_forced(op.op.kind) && deleted(g, op).is_none()
}

// Whether the tag is not that of the record.
fn is_in_conflict<V: Sees>(g: &Grounds<V>, op: &NamedOp) -> bool
    ensures { result ≡ is_in_conflict (grounds_in V.rows g.now) (named op.now) }
{
    match deleted(g, op) {
        Some(row) => !is_forced(op.op.kind) && is_stale(&op.op.draft.tag, row),
        None => false,
    }
}

// Whether the caller may not delete the record.
fn is_denied<V: Sees>(g: &Grounds<V>, op: &NamedOp) -> bool
    requires { AreSeen (V.rows g.now.seen.now) }
    ensures { result ≡ is_denied (grounds_in V.rows g.now) (named op.now) }
{
    match (g.scope, deleted(g, op)) {
        (Scope::Private, _) => false,
        (Scope::Shared, None) => false,
        (Scope::Shared, Some(row)) => {
            !is_share(row) && (!is_writable(g, &row.name) || row.share.is_some())
        }
    }
}

// Whether a record is left that still needs the one that the deletion takes.
fn is_held_back<V: Sees>(g: &Grounds<V>, op: &NamedOp) -> bool
    requires seen { AreSeen (V.rows g.now.seen.now) }
    requires wishes { AreAllInOrder g.now.ops.now }
    ensures { result ≡ is_held_back (grounds_in V.rows g.now) (named op.now) }
{
    is_taken(g, op.name) && is_held(g, op.name)
}

/// Why the deletion is refused, if it is: the fault of the first check that it fails.
pub fn fault_of_deletion<V: Sees>(g: &Grounds<V>, op: &NamedOp) -> Option<OpFault>
    requires seen { AreSeen (V.rows g.now.seen.now) }
    requires wishes { AreAllInOrder g.now.ops.now }
    ensures { result ≡ fault_of_deletion (grounds_in V.rows g.now) (named op.now) }
{
    if is_missing(g, op) {
        return Some(OpFault::NotFound);
    }
    if is_in_conflict(g, op) {
        return Some(OpFault::Conflict);
    }
    if is_denied(g, op) {
        return Some(OpFault::AccessDenied);
    }
    if is_held_back(g, op) {
        return Some(OpFault::Validating);
    }
    None
}
