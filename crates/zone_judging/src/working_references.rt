// The references of the records of the working view.
ghost use Rattle.std.specs.Prelude.{◌≡◌, map, option_map};
ghost use Rattle.name_rules.specs.Options.{is_some_and};
ghost use Rattle.zone_model.specs.Records.{record_at};
ghost use Rattle.zone_model.specs.References.{has_reference};
ghost use Rattle.zone_judging.specs.Asked.{named, grounds_in};
ghost use Rattle.zone_judging.specs.Wishes.{AreInOrder};
ghost use Rattle.zone_judging.specs.Holding.{AreAllInOrder, after_put};

use crate::form::fields_left;
use crate::kinds::{is_create, makes_new};
use crate::references::{RefTest, any_after, any_in_fields};
use crate::working::first_put;
use crate::{Grounds, NamedOp, Sees};
use ck_base::RecordName;
use record_model::Record;

fn any_in_record<T: RefTest>(test: &T, row: Option<&Record>) -> bool
    ensures { result ≡ is_some_and (has_reference (T.test test.now)) (option_map (λ r. r.now) row.entry) }
{
    match row {
        Some(row) => any_in_fields(test, row.fields.as_slice()),
        None => false,
    }
}

// Whether one of the references passes, in what stands under the name of the put after it, where this
// record stood there before, or none.
#[tactic(auto, using(crate::proofs::AfterPutLemmas::put_refers))]
fn any_after_put<T: RefTest>(test: &T, p: &NamedOp, old: Option<&Record>) -> bool
    requires { AreInOrder p.now.op.now.draft.fields }
    ensures { result ≡ is_some_and (has_reference (T.test test.now)) (after_put (named p.now) (option_map (λ r. r.now) old.entry)) }
{
    let wishes = p.op.draft.fields.as_slice();
    match old {
        None => makes_new(p.op.kind) && any_after(test, &[], wishes),
        Some(row) => {
            if is_create(p.op.kind) {
                any_in_fields(test, row.fields.as_slice())
            } else {
                any_after(test, fields_left(p.op.kind, row), wishes)
            }
        }
    }
}

/// Whether one of the references passes, in what the working view has under the name.
#[tactic(auto, using(crate::proofs::AfterPutLemmas::refers_told, crate::proofs::AfterPutLemmas::found_ordered))]
pub(crate) fn any_in_working<V: Sees, T: RefTest>(
    g: &Grounds<V>,
    test: &T,
    name: &RecordName,
) -> bool
    requires { AreAllInOrder g.now.ops.now }
    ensures { result ≡ is_some_and (has_reference (T.test test.now)) (record_at (grounds_in V.rows g.now).working name.now) }
{
    let old = g.seen.record_at(name);
    match first_put(g.ops, name) {
        Some(put) => any_after_put(test, put, old),
        None => any_in_record(test, old),
    }
}
