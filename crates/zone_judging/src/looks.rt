// What a put looks at in the view: the record of its name, and the root of a share that it begins.
ghost use Rattle.std.specs.Prelude.{◌≡◌, option_map};
ghost use Rattle.zone_model.specs.Records.{is_share};
ghost use Rattle.zone_model.specs.Grounds.{is_seen};
ghost use Rattle.zone_model.specs.PutChecks.{old, is_new, begins, is_old_share, is_of_share, root, root_seen, parent};
ghost use Rattle.zone_judging.specs.Asked.{named, grounds_in};

use crate::kinds::{has_share_type, makes_new, new_parent, root_given};
use crate::{Grounds, NamedOp, Sees};
use ck_base::RecordName;
use record_model::{Body, Record};

pub(crate) fn is_share(row: &Record) -> bool
    ensures { result ≡ is_share row.now }
{
    match &row.body {
        Body::Plain => false,
        Body::Share(_) => true,
    }
}

#[tactic(auto, using(crate::proofs::SeenLemmas::seen_there))]
pub(crate) fn is_seen<V: Sees>(g: &Grounds<V>, name: &RecordName) -> bool
    ensures { result ≡ is_seen (grounds_in V.rows g.now) name.now }
{
    g.seen.record_at(name).is_some()
}

pub(crate) fn old<'a, V: Sees>(g: &Grounds<'a, V>, p: &NamedOp) -> Option<&'a Record>
    ensures { option_map (λ r. r.now) result ≡ old (grounds_in V.rows g.now) (named p.now) }
{
    g.seen.record_at(p.name)
}

pub(crate) fn is_new<V: Sees>(g: &Grounds<V>, p: &NamedOp) -> bool
    ensures { result ≡ is_new (grounds_in V.rows g.now) (named p.now) }
{
    !is_seen(g, p.name)
}

pub(crate) fn begins<V: Sees>(g: &Grounds<V>, p: &NamedOp) -> bool
    ensures { result ≡ begins (grounds_in V.rows g.now) (named p.now) }
{
    makes_new(p.op.kind) && is_new(g, p) && has_share_type(&p.op.draft)
}

fn is_old_share<V: Sees>(g: &Grounds<V>, p: &NamedOp) -> bool
    ensures { result ≡ is_old_share (grounds_in V.rows g.now) (named p.now) }
{
    match old(g, p) {
        Some(row) => is_share(row),
        None => false,
    }
}

pub(crate) fn is_of_share<V: Sees>(g: &Grounds<V>, p: &NamedOp) -> bool
    ensures { result ≡ is_of_share (grounds_in V.rows g.now) (named p.now) }
{
    begins(g, p) || is_old_share(g, p)
}

pub(crate) fn root<'p, V: Sees>(g: &Grounds<V>, p: &NamedOp<'p>) -> Option<&'p RecordName>
    ensures { option_map (λ x. x.now) result ≡ root (grounds_in V.rows g.now) (named p.now) }
{
    if begins(g, p) {
        root_given(&p.op.draft)
    } else {
        None
    }
}

pub(crate) fn root_seen<'a, V: Sees>(g: &Grounds<'a, V>, p: &NamedOp) -> Option<&'a Record>
    ensures { option_map (λ r. r.now) result ≡ root_seen (grounds_in V.rows g.now) (named p.now) }
{
    match root(g, p) {
        Some(name) => g.seen.record_at(name),
        None => None,
    }
}

pub(crate) fn parent<'p, V: Sees>(g: &Grounds<V>, p: &NamedOp<'p>) -> Option<&'p RecordName>
    ensures { option_map (λ x. x.now) result ≡ parent (grounds_in V.rows g.now) (named p.now) }
{
    if is_new(g, p) {
        new_parent(&p.op.draft)
    } else {
        None
    }
}
