// The check that the name of a put is free, and that its root has no share.
ghost use Rattle.std.specs.Prelude.{◌≡◌, map, find, option_map};
ghost use Rattle.std.specs.List.{list_any};
ghost use Rattle.zone_model.specs.declared.operations.Past.{Past as PastOf};
ghost use Rattle.zone_model.specs.Names.{same, is_in};
ghost use Rattle.zone_model.specs.Past.{is_taken};
ghost use Rattle.zone_model.specs.Requests.{names_put};
ghost use Rattle.zone_model.specs.PutChecks.{is_in_view, is_hidden, has_shared_root, is_name_taken};
ghost use Rattle.zone_judging.specs.Asked.{named, puts, grounds_in};

use crate::kinds::{is_create, makes_new};
use crate::looks::{is_new, root_seen};
use crate::{Grounds, NamedOp, Sees};
use ck_base::RecordName;
use drawn_names::is_deletion;
use zone_model::Past;

fn past_of<'a>(pasts: &'a [Past], name: &RecordName) -> Option<&'a Past>
    ensures { option_map (λ p. p.now) result ≡ find (λ (p : PastOf). same name.now p.name) pasts.now }
{
    pasts.iter().find(|past| *name == past.name)
}

fn is_taken(pasts: &[Past], name: &RecordName) -> bool
    ensures { result ≡ is_taken pasts.now name.now }
{
    match past_of(pasts, name) {
        Some(past) => past.taken,
        None => false,
    }
}

pub(crate) fn puts(op: &NamedOp, name: &RecordName) -> bool
    ensures { result ≡ puts name.now op.now }
{
    !is_deletion(op.op.kind) && *name == *op.name
}

fn any_puts(ops: &[NamedOp], name: &RecordName) -> bool
    ensures { result ≡ list_any (puts name.now) ops.now }
{
    ops.iter().any(|op| puts(op, name))
}

// Whether one of the operations puts the name.
#[tactic(auto, using(crate::proofs::PutLemmas::one_puts))]
fn is_put(ops: &[NamedOp], name: &RecordName) -> bool
    ensures { result ≡ is_in (names_put (map named ops.now)) name.now }
{
    any_puts(ops, name)
}

fn is_in_view<V: Sees>(g: &Grounds<V>, p: &NamedOp) -> bool
    ensures { result ≡ is_in_view (grounds_in V.rows g.now) (named p.now) }
{
    is_create(p.op.kind) && !is_new(g, p)
}

fn is_hidden<V: Sees>(g: &Grounds<V>, p: &NamedOp) -> bool
    ensures { result ≡ is_hidden (grounds_in V.rows g.now) (named p.now) }
{
    makes_new(p.op.kind) && is_new(g, p) && is_taken(g.pasts, p.name)
}

fn has_shared_root<V: Sees>(g: &Grounds<V>, p: &NamedOp) -> bool
    ensures { result ≡ has_shared_root (grounds_in V.rows g.now) (named p.now) }
{
    match root_seen(g, p) {
        Some(row) => row.share.is_some(),
        None => false,
    }
}

/// Whether the name is taken where these operations come earlier in the request, or the root of a
/// share that the put begins has one.
pub(crate) fn is_name_taken<V: Sees>(g: &Grounds<V>, p: &NamedOp, earlier: &[NamedOp]) -> bool
    ensures { result ≡ is_name_taken (grounds_in V.rows g.now) (named p.now) (names_put (map named earlier.now)) }
{
    is_in_view(g, p) || is_hidden(g, p) || is_put(earlier, p.name) || has_shared_root(g, p)
}
