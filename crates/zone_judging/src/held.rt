// Which names a deletion takes, and what holds one back.
ghost use Rattle.std.specs.Prelude.{◌≡◌, ◌&&◌, ◌||◌, map};
ghost use Rattle.std.specs.List.{list_any};
ghost use Rattle.name_rules.specs.Options.{is_some_and};
ghost use Rattle.zone_model.specs.Names.{same, is_in};
ghost use Rattle.zone_model.specs.Records.{record_at, IsAscending};
ghost use Rattle.zone_model.specs.Ancestry.{parent_at};
ghost use Rattle.zone_model.specs.References.{deletes_self, has_reference, wants};
ghost use Rattle.zone_model.specs.Requests.{names_deleted};
ghost use Rattle.zone_model.specs.Grounds.{is_taken_by_deletion};
ghost use Rattle.zone_model.specs.DeletionChecks.{holds_back};
ghost use Rattle.zone_judging.specs.Asked.{named, caller_in, grounds_in};
ghost use Rattle.zone_judging.specs.declared.ties.Tie.TheVariants.{Child, Wants};
ghost use Rattle.zone_judging.specs.Ties.{is_tied};
ghost use Rattle.zone_judging.specs.Holding.{deletes, AreAllInOrder, needs_at, stays_at, holds_at, holds_by_put};

use crate::looks::is_share;
use crate::references::RefTest;
use crate::ties::{WantsName, deletes_self};
use crate::working::parent_in_working;
use crate::working_references::any_in_working;
use crate::{Grounds, NamedOp, Sees, Tie};
use ck_base::{RecordName, Scope};
use drawn_names::is_deletion;
use record_model::RefTo;

fn deletes(op: &NamedOp, name: &RecordName) -> bool
    ensures { result ≡ deletes name.now op.now }
{
    is_deletion(op.op.kind) && *name == *op.name
}

fn any_deletes(ops: &[NamedOp], name: &RecordName) -> bool
    ensures { result ≡ list_any (deletes name.now) ops.now }
{
    ops.iter().any(|op| deletes(op, name))
}

// Whether one of the operations deletes the name.
fn is_deleted(ops: &[NamedOp], name: &RecordName) -> bool
    ensures { result ≡ is_in (names_deleted (map named ops.now)) name.now }
{
    any_deletes(ops, name)
}

// Whether a deletion by the caller takes the name.
fn is_takable<V: Sees>(g: &Grounds<V>, name: &RecordName) -> bool
    ensures { result ≡ is_taken_by_deletion (caller_in g.now) (V.rows g.now.seen.now) name.now }
{
    match g.seen.record_at(name) {
        Some(row) => match g.scope {
            Scope::Private => true,
            Scope::Shared => !is_share(row),
        },
        None => false,
    }
}

// Whether a deletion of the request takes the name.
#[tactic(auto, using(crate::proofs::HoldLemmas::taken_then, crate::proofs::HoldLemmas::taken_else))]
pub(crate) fn is_taken<V: Sees>(g: &Grounds<V>, name: &RecordName) -> bool
    ensures { result ≡ is_in (grounds_in V.rows g.now).taken name.now }
{
    is_deleted(g.ops, name) && is_takable(g, name)
}

// A reference whose record goes with a name that a deletion takes.
#[derive(Drop)]
struct GoesWithTaken<'g, 'a, V> {
    grounds: &'g Grounds<'a, V>,
}

impl<'g, 'a, V: Sees> RefTest for GoesWithTaken<'g, 'a, V> {
    ghost test = { λ t to. deletes_self to.action && is_in (grounds_in V.rows t.grounds.now).taken to.name };

    fn passes(&self, to: &RefTo) -> bool {
        deletes_self(to.action) && is_taken(self.grounds, &to.name)
    }
}

fn is_child_in_working<V: Sees>(g: &Grounds<V>, name: &RecordName, of: &RecordName) -> bool
    ensures { result ≡ is_some_and (same of.now) (parent_at (grounds_in V.rows g.now).working name.now) }
{
    match parent_in_working(g, name) {
        Some(parent) => *of == *parent,
        None => false,
    }
}

fn wants_in_working<V: Sees>(g: &Grounds<V>, name: &RecordName, to: &RecordName) -> bool
    requires { AreAllInOrder g.now.ops.now }
    ensures { result ≡ is_some_and (wants to.now) (record_at (grounds_in V.rows g.now).working name.now) }
{
    any_in_working(g, &WantsName { name: to }, name)
}

// Whether what the working view has under a name is to be deleted with one that a deletion takes.
fn goes_in_working<V: Sees>(g: &Grounds<V>, name: &RecordName) -> bool
    requires { AreAllInOrder g.now.ops.now }
    ensures { result ≡ is_some_and (has_reference (λ to. deletes_self to.action && is_in (grounds_in V.rows g.now).taken to.name)) (record_at (grounds_in V.rows g.now).working name.now) }
{
    any_in_working(g, &GoesWithTaken { grounds: g }, name)
}

// Whether what the working view has under a name needs the other name to be there.
fn needs_at<V: Sees>(g: &Grounds<V>, held: &RecordName, name: &RecordName) -> bool
    requires { AreAllInOrder g.now.ops.now }
    ensures { result ≡ needs_at (grounds_in V.rows g.now) held.now name.now }
{
    is_child_in_working(g, name, held) || wants_in_working(g, name, held)
}

// Whether no deletion takes the name, and what stands under it goes with none that one takes.
fn stays_at<V: Sees>(g: &Grounds<V>, name: &RecordName) -> bool
    requires { AreAllInOrder g.now.ops.now }
    ensures { result ≡ stays_at (grounds_in V.rows g.now) name.now }
{
    !is_taken(g, name) && !goes_in_working(g, name)
}

// Whether what the working view has under a name holds the other name back.
fn holds_at<V: Sees>(g: &Grounds<V>, held: &RecordName, name: &RecordName) -> bool
    requires { AreAllInOrder g.now.ops.now }
    ensures { result ≡ holds_at (grounds_in V.rows g.now) held.now name.now }
{
    needs_at(g, held, name) && stays_at(g, name)
}

// Whether a record holds the name back that is tied to it as it is seen.
#[tactic(auto, using(crate::proofs::StepLemmas::step_ended, crate::proofs::StepLemmas::step_met, crate::proofs::StepLemmas::step_on, crate::proofs::StepLemmas::any_start, crate::proofs::StepLemmas::step_smaller))]
fn any_tied_holds<V: Sees>(g: &Grounds<V>, tie: Tie, held: &RecordName) -> bool
    requires seen { IsAscending (V.rows g.now.seen.now) }
    requires wishes { AreAllInOrder g.now.ops.now }
    ensures { result ≡ list_any (λ r. is_tied tie held.now r && holds_at (grounds_in V.rows g.now) held.now r.name) (V.rows g.now.seen.now) }
{
    let mut after = None;
    while let Some(row) = g.seen.next_tied(tie, held, after) {
        if holds_at(g, held, &row.name) {
            return true;
        }
        after = Some(&row.name);
    }
    false
}

// Whether what one of these puts leaves holds the name back.
fn any_put_holds<V: Sees>(g: &Grounds<V>, held: &RecordName, ops: &[NamedOp]) -> bool
    requires { AreAllInOrder g.now.ops.now }
    ensures { result ≡ list_any (holds_by_put (grounds_in V.rows g.now) held.now) ops.now }
{
    match ops.split_first() {
        None => false,
        Some((op, rest)) => {
            (!is_deletion(op.op.kind) && holds_at(g, held, op.name)) || any_put_holds(g, held, rest)
        }
    }
}

// Whether a record that is seen holds the name back.
fn any_seen_holds<V: Sees>(g: &Grounds<V>, held: &RecordName) -> bool
    requires seen { IsAscending (V.rows g.now.seen.now) }
    requires wishes { AreAllInOrder g.now.ops.now }
    ensures { result ≡ (list_any (λ r. is_tied Child held.now r && holds_at (grounds_in V.rows g.now) held.now r.name) (V.rows g.now.seen.now) || list_any (λ r. is_tied Wants held.now r && holds_at (grounds_in V.rows g.now) held.now r.name) (V.rows g.now.seen.now)) }
{
    any_tied_holds(g, Tie::Child, held) || any_tied_holds(g, Tie::Wants, held)
}

/// Whether a record of the working view holds the name back.
pub(crate) fn is_held<V: Sees>(g: &Grounds<V>, name: &RecordName) -> bool
    requires seen { IsAscending (V.rows g.now.seen.now) }
    requires wishes { AreAllInOrder g.now.ops.now }
    ensures { result ≡ list_any (holds_back (grounds_in V.rows g.now) name.now) (grounds_in V.rows g.now).working }
{
    any_seen_holds(g, name) || any_put_holds(g, name, g.ops)
}
