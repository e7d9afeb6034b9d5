// The check that what a put refers to is there: its parent, its root, and the targets of its
// references.
ghost use Rattle.std.specs.Prelude.{◌≡◌, ◌&&◌, not};
ghost use Rattle.zone_model.specs.References.{validates};
ghost use Rattle.zone_model.specs.Grounds.{in_working};
ghost use Rattle.zone_model.specs.PutChecks.{has_bad_parent, has_bad_root, has_bad_reference, is_dangling};
ghost use Rattle.zone_judging.specs.Asked.{named, grounds_in};

use crate::ancestors::is_ancestor;
use crate::looks::{parent, root};
use crate::references::{RefTest, any_wished};
use crate::ties::validates;
use crate::working::{in_working, is_plain_in_working};
use crate::{Grounds, NamedOp, Sees};
use record_model::RefTo;

// A reference that wants its target to be there, which is not in the working view.
#[derive(Drop)]
struct LacksTarget<'g, 'a, V> {
    grounds: &'g Grounds<'a, V>,
}

impl<'g, 'a, V: Sees> RefTest for LacksTarget<'g, 'a, V> {
    ghost test = { λ t to. validates to.action && not (in_working (grounds_in V.rows t.grounds.now) to.name) };

    fn passes(&self, to: &RefTo) -> bool {
        validates(to.action) && !in_working(self.grounds, &to.name)
    }
}

fn has_bad_parent<V: Sees>(g: &Grounds<V>, p: &NamedOp) -> bool
    ensures { result ≡ has_bad_parent (grounds_in V.rows g.now) (named p.now) }
{
    match parent(g, p) {
        Some(parent) => !is_plain_in_working(g, parent) || is_ancestor(g, p.name, parent),
        None => false,
    }
}

fn has_bad_root<V: Sees>(g: &Grounds<V>, p: &NamedOp) -> bool
    ensures { result ≡ has_bad_root (grounds_in V.rows g.now) (named p.now) }
{
    match root(g, p) {
        Some(root) => !is_plain_in_working(g, root),
        None => false,
    }
}

fn has_bad_reference<V: Sees>(g: &Grounds<V>, p: &NamedOp) -> bool
    ensures { result ≡ has_bad_reference (grounds_in V.rows g.now) (named p.now) }
{
    any_wished(&LacksTarget { grounds: g }, p.op.draft.fields.as_slice())
}

/// Whether the put refers to a record that is not there, or is none that it may refer to.
pub(crate) fn is_dangling<V: Sees>(g: &Grounds<V>, p: &NamedOp) -> bool
    ensures { result ≡ is_dangling (grounds_in V.rows g.now) (named p.now) }
{
    has_bad_parent(g, p) || has_bad_root(g, p) || has_bad_reference(g, p)
}
