// What the working view has under a name: the record that is seen, with its parent and its kind, or
// else the one that the first put of the name makes.
ghost use Rattle.std.specs.Prelude.{◌≡◌, find, map, is_some, option_map};
ghost use Rattle.name_rules.specs.Options.{is_some_and};
ghost use Rattle.zone_model.specs.Ancestry.{parent_at};
ghost use Rattle.zone_model.specs.Grounds.{in_working};
ghost use Rattle.zone_model.specs.Records.{record_at};
ghost use Rattle.zone_judging.specs.Asked.{named, puts, grounds_in};
ghost use Rattle.zone_judging.specs.Made.{first_put, maker, is_plain, is_plain_made, made_parent};

use crate::kinds::{has_share_type, makes_new, new_parent};
use crate::looks::{is_seen, is_share};
use crate::taken::puts;
use crate::{Grounds, NamedOp, Sees};
use ck_base::RecordName;
use record_model::{Record, is_share_type};

fn found_put<'o, 'a>(ops: &'o [NamedOp<'a>], name: &RecordName) -> Option<&'o NamedOp<'a>>
    ensures { option_map (λ p. p.now) result ≡ find (puts name.now) ops.now }
{
    ops.iter().find(|op| puts(op, name))
}

#[tactic(auto, using(crate::proofs::PutLemmas::put_found))]
pub(crate) fn first_put<'o, 'a>(
    ops: &'o [NamedOp<'a>],
    name: &RecordName,
) -> Option<&'o NamedOp<'a>>
    ensures { option_map (λ p. named p.now) result ≡ first_put (map named ops.now) name.now }
{
    found_put(ops, name)
}

// The put that makes the record of a name where none is seen.
fn maker<'a, V>(g: &Grounds<'a, V>, name: &RecordName) -> Option<&'a NamedOp<'a>>
    ensures { option_map (λ p. named p.now) result ≡ maker (map named g.now.ops.now) name.now }
{
    match first_put(g.ops, name) {
        Some(op) => {
            if makes_new(op.op.kind) {
                Some(op)
            } else {
                None
            }
        }
        None => None,
    }
}

#[tactic(auto, using(crate::proofs::PutLemmas::made_there))]
fn is_made<V>(g: &Grounds<V>, name: &RecordName) -> bool
    ensures { result ≡ is_some (maker (map named g.now.ops.now) name.now) }
{
    maker(g, name).is_some()
}

#[tactic(auto, using(crate::proofs::WorkingLemmas::working_told))]
pub(crate) fn in_working<V: Sees>(g: &Grounds<V>, name: &RecordName) -> bool
    ensures { result ≡ in_working (grounds_in V.rows g.now) name.now }
{
    is_seen(g, name) || is_made(g, name)
}

fn is_plain(row: &Record) -> bool
    ensures { result ≡ is_plain row.now }
{
    !is_share(row) && !is_share_type(&row.rtype)
}

fn is_plain_made<V>(g: &Grounds<V>, name: &RecordName) -> bool
    ensures { result ≡ is_some_and is_plain_made (maker (map named g.now.ops.now) name.now) }
{
    match maker(g, name) {
        Some(op) => !has_share_type(&op.op.draft),
        None => false,
    }
}

#[tactic(auto, using(crate::proofs::WorkingLemmas::plain_told))]
pub(crate) fn is_plain_in_working<V: Sees>(g: &Grounds<V>, name: &RecordName) -> bool
    ensures { result ≡ is_some_and is_plain (record_at (grounds_in V.rows g.now).working name.now) }
{
    match g.seen.record_at(name) {
        Some(row) => is_plain(row),
        None => is_plain_made(g, name),
    }
}

pub(crate) fn made_parent<'a, V>(g: &Grounds<'a, V>, name: &RecordName) -> Option<&'a RecordName>
    ensures { option_map (λ x. x.now) result ≡ made_parent (map named g.now.ops.now) name.now }
{
    match maker(g, name) {
        Some(op) => new_parent(&op.op.draft),
        None => None,
    }
}

#[tactic(auto, using(crate::proofs::WorkingLemmas::parent_told))]
pub(crate) fn parent_in_working<'a, V: Sees>(
    g: &Grounds<'a, V>,
    name: &RecordName,
) -> Option<&'a RecordName>
    ensures { option_map (λ x. x.now) result ≡ parent_at (grounds_in V.rows g.now).working name.now }
{
    match g.seen.record_at(name) {
        Some(row) => match &row.parent {
            Some(parent) => Some(parent),
            None => None,
        },
        None => made_parent(g, name),
    }
}
