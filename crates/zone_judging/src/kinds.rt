// What operations do, and what their drafts say.
ghost use Rattle.std.specs.Prelude.{◌≡◌, option_map};
ghost use Rattle.zone_model.specs.Requests.{is_create, is_forced, drops_fields, makes_new, parent_given, new_parent, has_share_type, root_given};

use ck_base::RecordName;
use record_model::{Draft, ParentWish, is_share_type};
use zone_model::OpKind;

/// Whether it is a create.
pub fn is_create(kind: OpKind) -> bool
    ensures { result ≡ is_create kind }
{
    match kind {
        OpKind::Create => true,
        OpKind::Update => false,
        OpKind::ForceUpdate => false,
        OpKind::Replace => false,
        OpKind::ForceReplace => false,
        OpKind::Delete => false,
        OpKind::ForceDelete => false,
    }
}

pub(crate) fn is_forced(kind: OpKind) -> bool
    ensures { result ≡ is_forced kind }
{
    match kind {
        OpKind::Create => false,
        OpKind::Update => false,
        OpKind::ForceUpdate => true,
        OpKind::Replace => false,
        OpKind::ForceReplace => true,
        OpKind::Delete => false,
        OpKind::ForceDelete => true,
    }
}

/// Whether the operation drops the fields that are not given.
pub fn drops_fields(kind: OpKind) -> bool
    ensures { result ≡ drops_fields kind }
{
    match kind {
        OpKind::Create => false,
        OpKind::Update => false,
        OpKind::ForceUpdate => false,
        OpKind::Replace => true,
        OpKind::ForceReplace => true,
        OpKind::Delete => false,
        OpKind::ForceDelete => false,
    }
}

/// Whether the operation puts a record where there is none of its name.
pub fn makes_new(kind: OpKind) -> bool
    ensures { result ≡ makes_new kind }
{
    is_create(kind) || is_forced(kind)
}

/// The parent of a new record.
pub fn new_parent(draft: &Draft) -> Option<&RecordName>
    ensures { option_map (λ x. x.now) result ≡ new_parent draft.now }
{
    match &draft.parent {
        ParentWish::Absent => None,
        ParentWish::Null => None,
        ParentWish::To(name) => Some(name),
    }
}

/// Whether the draft gives the type of shares.
pub fn has_share_type(draft: &Draft) -> bool
    ensures { result ≡ has_share_type draft.now }
{
    match &draft.rtype {
        Some(rtype) => is_share_type(rtype),
        None => false,
    }
}

/// The root that the draft gives.
pub fn root_given(draft: &Draft) -> Option<&RecordName>
    ensures { option_map (λ x. x.now) result ≡ root_given draft.now }
{
    match &draft.for_root {
        Some(root) => Some(&root.name),
        None => None,
    }
}
