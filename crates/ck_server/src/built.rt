// Which calls are built.
ghost use Rattle.std.specs.Prelude.{◌≡◌, ℕ, List, Option};
ghost use Rattle.std.specs.List.{list_all};
ghost use Rattle.record_model.specs.declared.value.RefTo.{RefTo};
ghost use Rattle.record_model.specs.declared.value.Value.{Value as SeenValue, out-Value};
ghost use Rattle.zone_model.specs.Options.{is_none_or};
ghost use Rattle.plain_creates.specs.PlainCreates.{gives_no_parent, gives_no_share, only_names, has_plain_references, is_plain_draft, is_plain_create};
ghost use Rattle.zone_model.specs.References.{single_references};
ghost use Rattle.talk_model.specs.Requests.{is_built_route, is_built};

use ck_base::{Database, Route, is_own_default};
use modify_ops::{Op, OpKind};
use record_model::{Action, Draft, ParentWish, Value, Wish, elements, is_share_type};
use wire_calls::{Call, is_built_operation};

// Operations of the private database that are built.
pub(crate) fn is_built_route(route: Route) -> bool
    ensures { result ≡ is_built_route route }
{
    route.database == Database::Private && is_built_operation(route.operation)
}

fn only_names(action: Action) -> bool
    ensures { result ≡ only_names action }
{
    match action {
        Action::Plain => true,
        Action::DeleteSelf | Action::Validate => false,
    }
}

// Whether a value that is a reference only names a record.
fn only_names_one(value: &Value) -> bool
    ensures { result ≡ list_all (λ (to : RefTo). only_names to.action) (single_references (out-Value value.now)) }
{
    match value {
        Value::Reference(to) => only_names(to.action),
        _ => true,
    }
}

fn all_only_name(values: &[Value]) -> bool
    ensures { result ≡ list_all (λ v. list_all (λ (to : RefTo). only_names to.action) (single_references (out-Value v))) values.now }
{
    values.iter().all(|value| only_names_one(value))
}

// Whether a value refers to no record, or only names one. A list in a list has no references.
#[tactic(auto, using(crate::proofs::BuiltLemmas::plain_by_parts))]
fn has_plain_references(value: &Value) -> bool
    ensures { result ≡ has_plain_references value.now }
{
    only_names_one(value) && all_only_name(elements(value))
}

fn gives_plain_references(wish: &Wish) -> bool
    ensures { result ≡ is_none_or has_plain_references wish.now.1 }
{
    match &wish.1 {
        Some(value) => has_plain_references(value),
        None => true,
    }
}

fn all_give_plain_references(wishes: &[Wish]) -> bool
    ensures { result ≡ list_all (λ (wish : List ℕ × Option SeenValue). is_none_or has_plain_references wish.1) wishes.now }
{
    wishes.iter().all(|wish| gives_plain_references(wish))
}

fn gives_no_parent(parent: &ParentWish) -> bool
    ensures { result ≡ gives_no_parent parent.now }
{
    match parent {
        ParentWish::Absent | ParentWish::Null => true,
        ParentWish::To(_) => false,
    }
}

fn gives_no_share(draft: &Draft) -> bool
    ensures { result ≡ gives_no_share draft.now }
{
    let is_share = match &draft.rtype {
        Some(rtype) => is_share_type(rtype),
        None => false,
    };
    !is_share && draft.for_root.is_none() && draft.public.is_none() && draft.participants.is_none()
}

fn is_plain_draft(draft: &Draft) -> bool
    ensures { result ≡ is_plain_draft draft.now }
{
    gives_no_parent(&draft.parent)
        && gives_no_share(draft)
        && all_give_plain_references(draft.fields.as_slice())
}

fn is_plain_create(op: &Op) -> bool
    ensures { result ≡ is_plain_create op.now }
{
    op.kind == OpKind::Create && is_plain_draft(&op.draft)
}

fn all_are_plain_creates(ops: &[Op]) -> bool
    ensures { result ≡ list_all is_plain_create ops.now }
{
    ops.iter().all(|op| is_plain_create(op))
}

// Calls of the caller's default zone in the private database, and of those that modify creates of
// records that stand alone.
pub(crate) fn is_built(call: &Call) -> bool
    ensures { result ≡ is_built call.now }
{
    match call {
        Call::Modify(call) => {
            call.database == Database::Private
                && is_own_default(&call.caller, &call.zone)
                && all_are_plain_creates(call.ops.as_slice())
        }
        Call::Lookup(call) => {
            call.database == Database::Private && is_own_default(&call.caller, &call.zone)
        }
    }
}
