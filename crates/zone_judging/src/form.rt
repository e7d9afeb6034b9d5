// The check of the form of a put.
ghost use Rattle.std.specs.Prelude.{◌≡◌, ◌||◌, ◌&&◌, not, [], nat_lt, map, option_map, if◌then◌else◌};
ghost use Rattle.std.specs.List.{list_any};
ghost use Rattle.name_rules.specs.Names.{same, is_in, has_twice};
ghost use Rattle.share_records.specs.declared.participant.Wanted.{Wanted as WantedOf};
ghost use Rattle.name_rules.specs.Options.{is_some_and};
ghost use Rattle.record_model.specs.declared.records.Record.{Record as RecordOf};
ghost use Rattle.record_model.specs.RecordSizes.{size_of_record};
ghost use Rattle.zone_model.specs.Limits.{most_record_size};
ghost use Rattle.zone_model.specs.Requests.{drops_fields};
ghost use Rattle.zone_model.specs.Putting.{written_over};
ghost use Rattle.zone_judging.specs.Wishes.{AreInOrder};
ghost use Rattle.share_records.specs.ShareLists.{is_refused_list};
ghost use Rattle.zone_model.specs.PutChecks.{lacks_type, turns_type, turns_parent, lacks_root, is_misplaced_share, has_share_members, has_refused_list, is_of_share, is_too_large, has_bad_form};
ghost use Rattle.zone_judging.specs.Asked.{named, grounds_in};

use crate::kinds::{drops_fields, is_create, makes_new};
use crate::looks::{begins, is_new, is_of_share, old, parent};
use crate::names::is_default;
use crate::wishes::are_too_large;
use crate::{Grounds, NamedOp, Sees};
use ck_base::UserName;
use ck_base::limits::PARTICIPANTS;
use record_model::{Field, ParentWish, Record};
use share_records::Wanted;
use zone_model::OpKind;

fn lacks_type<V: Sees>(g: &Grounds<V>, p: &NamedOp) -> bool
    ensures { result ≡ lacks_type (grounds_in V.rows g.now) (named p.now) }
{
    is_new(g, p) && p.op.draft.rtype.is_none()
}

fn turns_type<V: Sees>(g: &Grounds<V>, p: &NamedOp) -> bool
    ensures { result ≡ turns_type (grounds_in V.rows g.now) (named p.now) }
{
    match (old(g, p), &p.op.draft.rtype) {
        (Some(row), Some(rtype)) => row.rtype != *rtype,
        (Some(_), None) => false,
        (None, _) => false,
    }
}

fn turns_parent<V: Sees>(g: &Grounds<V>, p: &NamedOp) -> bool
    ensures { result ≡ turns_parent (grounds_in V.rows g.now) (named p.now) }
{
    let Some(row) = old(g, p) else {
        return false;
    };
    match (&row.parent, &p.op.draft.parent) {
        (_, ParentWish::Absent) => false,
        (None, ParentWish::Null) => false,
        (Some(_), ParentWish::Null) => true,
        (None, ParentWish::To(_)) => true,
        (Some(parent), ParentWish::To(given)) => *parent != *given,
    }
}

fn lacks_root<V: Sees>(g: &Grounds<V>, p: &NamedOp) -> bool
    ensures { result ≡ lacks_root (grounds_in V.rows g.now) (named p.now) }
{
    begins(g, p) && p.op.draft.for_root.is_none()
}

fn is_misplaced_share<V: Sees>(g: &Grounds<V>, p: &NamedOp) -> bool
    ensures { result ≡ is_misplaced_share (grounds_in V.rows g.now) (named p.now) }
{
    is_of_share(g, p) && (is_default(g.key) || parent(g, p).is_some())
}

fn has_share_members<V: Sees>(_g: &Grounds<V>, p: &NamedOp) -> bool
    ensures { result ≡ has_share_members (grounds_in V.rows _g.now) (named p.now) }
{
    p.op.draft.for_root.is_some()
        || p.op.draft.public.is_some()
        || p.op.draft.participants.is_some()
}

fn any_wanted(wanted: &[Wanted], user: &UserName) -> bool
    ensures { result ≡ list_any (λ (w : WantedOf). same user.now w.user) wanted.now }
{
    wanted.iter().any(|w| *user == w.user)
}

fn is_wanted(wanted: &[Wanted], user: &UserName) -> bool
    ensures { result ≡ is_in (map (λ (w : WantedOf). w.user) wanted.now) user.now }
{
    any_wanted(wanted, user)
}

// Whether a user stands twice in the list.
fn has_twice(wanted: &[Wanted]) -> bool
    ensures { result ≡ has_twice (map (λ (w : WantedOf). w.user) wanted.now) }
{
    match wanted.split_first() {
        None => false,
        Some((first, rest)) => is_wanted(rest, &first.user) || has_twice(rest),
    }
}

// Whether the owner may not give this list of participants.
#[tactic(auto, using(crate::proofs::ListLemmas::refused_by))]
fn is_refused_list(owner: &UserName, wanted: &[Wanted]) -> bool
    ensures { result ≡ is_refused_list owner.now wanted.now }
{
    wanted.len() > PARTICIPANTS || is_wanted(wanted, owner) || has_twice(wanted)
}

fn has_refused_list<V: Sees>(g: &Grounds<V>, p: &NamedOp) -> bool
    ensures { result ≡ has_refused_list (grounds_in V.rows g.now) (named p.now) }
{
    match &p.op.draft.participants {
        Some(wanted) => is_refused_list(&g.key.owner, wanted.as_slice()),
        None => false,
    }
}

// The fields that stay where the operation finds these.
pub(crate) fn fields_left(kind: OpKind, row: &Record) -> &[Field]
    ensures { result.now ≡ (if drops_fields kind then [] else row.now.fields) }
{
    if drops_fields(kind) {
        &[]
    } else {
        row.fields.as_slice()
    }
}

// Whether the put writes too large a record over this one, or over none.
#[tactic(auto, using(crate::proofs::SizeLemmas::large_told))]
fn is_large_over(p: &NamedOp, old: Option<&Record>) -> bool
    requires { AreInOrder p.now.op.now.draft.fields }
    ensures { result ≡ is_some_and (λ (r : RecordOf). nat_lt most_record_size (size_of_record r)) (written_over (named p.now) (option_map (λ r. r.now) old.entry)) }
{
    let wishes = p.op.draft.fields.as_slice();
    match old {
        None => makes_new(p.op.kind) && are_too_large(&[], wishes),
        Some(row) => { !is_create(p.op.kind) && are_too_large(fields_left(p.op.kind, row), wishes) }
    }
}

fn is_too_large<V: Sees>(g: &Grounds<V>, p: &NamedOp) -> bool
    requires { AreInOrder p.now.op.now.draft.fields }
    ensures { result ≡ is_too_large (grounds_in V.rows g.now) (named p.now) }
{
    is_large_over(p, old(g, p))
}

fn has_bad_share<V: Sees>(g: &Grounds<V>, p: &NamedOp) -> bool
    ensures { result ≡ (is_misplaced_share (grounds_in V.rows g.now) (named p.now) || (not (is_of_share (grounds_in V.rows g.now) (named p.now)) && has_share_members (grounds_in V.rows g.now) (named p.now))) }
{
    is_misplaced_share(g, p) || (!is_of_share(g, p) && has_share_members(g, p))
}

/// Whether the put asks for another form than its record may have.
#[tactic(auto, using(crate::proofs::FormLemmas::joined))]
pub(crate) fn has_bad_form<V: Sees>(g: &Grounds<V>, p: &NamedOp) -> bool
    requires { AreInOrder p.now.op.now.draft.fields }
    ensures { result ≡ has_bad_form (grounds_in V.rows g.now) (named p.now) }
{
    lacks_type(g, p)
        || turns_type(g, p)
        || turns_parent(g, p)
        || lacks_root(g, p)
        || has_bad_share(g, p)
        || has_refused_list(g, p)
        || is_too_large(g, p)
}
