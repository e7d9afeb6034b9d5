// Tests of the references in values.
ghost use Rattle.std.specs.Prelude.{◌≡◌, Bool, flat_map};
ghost use Rattle.std.specs.List.{list_any};
ghost use Rattle.name_rules.specs.Options.{is_some_and};
ghost use Rattle.record_model.specs.declared.value.RefTo.{RefTo};
ghost use Rattle.record_model.specs.declared.value.Value.{Value, out-Value};
ghost use Rattle.zone_model.specs.References.{single_references, references_in};
ghost use Rattle.zone_model.specs.Putting.{after_wishes};
ghost use Rattle.zone_judging.specs.Wishes.{AreInOrder, is_kept_and};
ghost use Rattle.zone_judging.specs.Holding.{refers};

use crate::wishes::is_wished;
use record_model::{Field, RefTo, Value, Wish};

/// A test of references.
pub(crate) trait RefTest {
    /// Which references pass.
    ghost test: { Self → RefTo → Bool };

    fn passes(&self, to: &RefTo) -> bool
        ensures { result ≡ test self.now to.now };
}

fn any_single<T: RefTest>(test: &T, value: &Value) -> bool
    ensures { result ≡ list_any (T.test test.now) (single_references (out-Value value.now)) }
{
    match value {
        Value::Reference(to) => test.passes(to),
        Value::Int64(_)
        | Value::Timestamp(_)
        | Value::Text(_)
        | Value::Bytes(_)
        | Value::List(_, _) => false,
    }
}

fn any_element<T: RefTest>(test: &T, values: &[Value]) -> bool
    ensures { result ≡ list_any (λ v. list_any (T.test test.now) (single_references (out-Value v))) values.now }
{
    values.iter().any(|value| any_single(test, value))
}

fn any_in_list<T: RefTest>(test: &T, values: &[Value]) -> bool
    ensures { result ≡ list_any (T.test test.now) (flat_map (λ v. single_references (out-Value v)) values.now) }
{
    any_element(test, values)
}

/// Whether one of the references in the value passes.
pub(crate) fn any_reference<T: RefTest>(test: &T, value: &Value) -> bool
    ensures { result ≡ list_any (T.test test.now) (references_in value.now) }
{
    match value {
        Value::Reference(to) => test.passes(to),
        Value::List(_, items) => any_in_list(test, items.as_slice()),
        Value::Int64(_) | Value::Timestamp(_) | Value::Text(_) | Value::Bytes(_) => false,
    }
}

fn any_given<T: RefTest>(test: &T, wish: &Wish) -> bool
    ensures { result ≡ is_some_and (λ v. list_any (T.test test.now) (references_in v)) wish.now.1 }
{
    match &wish.1 {
        Some(value) => any_reference(test, value),
        None => false,
    }
}

/// Whether one of the references that the wishes give passes.
pub(crate) fn any_wished<T: RefTest>(test: &T, wishes: &[Wish]) -> bool
    ensures { result ≡ list_any (λ wish. is_some_and (λ v. list_any (T.test test.now) (references_in v)) wish.1) wishes.now }
{
    wishes.iter().any(|wish| any_given(test, wish))
}

fn any_in_field<T: RefTest>(test: &T, field: &Field) -> bool
    ensures { result ≡ refers (T.test test.now) field.now }
{
    any_reference(test, &field.1)
}

/// Whether one of the references in the fields passes.
pub(crate) fn any_in_fields<T: RefTest>(test: &T, fields: &[Field]) -> bool
    ensures { result ≡ list_any (refers (T.test test.now)) fields.now }
{
    fields.iter().any(|field| any_in_field(test, field))
}

fn is_kept_and<T: RefTest>(test: &T, wishes: &[Wish], field: &Field) -> bool
    requires { AreInOrder wishes.now }
    ensures { result ≡ is_kept_and wishes.now (refers (T.test test.now)) field.now }
{
    if is_wished(wishes, &field.0) {
        false
    } else {
        any_in_field(test, field)
    }
}

// Whether one of the references passes, in the fields that no wish names.
#[tactic(auto, using(std::proofs::lemmas::List::Folds::list_any_more, std::proofs::lemmas::List::Folds::list_any_at))]
fn any_kept<T: RefTest>(test: &T, wishes: &[Wish], fields: &[Field]) -> bool
    requires { AreInOrder wishes.now }
    ensures { result ≡ list_any (is_kept_and wishes.now (refers (T.test test.now))) fields.now }
{
    for field in fields {
        if is_kept_and(test, wishes, field) {
            return true;
        }
    }
    false
}

/// Whether one of the references in the fields passes after the wishes.
#[tactic(auto, using(crate::proofs::ReferenceLemmas::any_after_wishes))]
pub(crate) fn any_after<T: RefTest>(test: &T, fields: &[Field], wishes: &[Wish]) -> bool
    requires { AreInOrder wishes.now }
    ensures { result ≡ list_any (refers (T.test test.now)) (after_wishes fields.now wishes.now) }
{
    any_kept(test, wishes, fields) || any_wished(test, wishes)
}
