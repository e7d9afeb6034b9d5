// Whether operations name a record or a root again.
ghost use Rattle.std.specs.Prelude.{◌≡◌, option_map};
ghost use Rattle.std.specs.List.{list_any};
ghost use Rattle.zone_model.specs.GivenNames.{share_root_of, names_record, names_root, again, named_again};

use crate::{Op, Ops};
use ck_base::RecordName;

fn share_root_of(op: &Op) -> Option<&RecordName>
    ensures { option_map (λ n. n.now) result ≡ share_root_of op.now }
{
    match &op.draft.for_root {
        Some(root) => Some(&root.name),
        None => None,
    }
}

fn names_record(name: &RecordName, op: &Op) -> bool
    ensures { result ≡ names_record name.now op.now }
{
    match &op.draft.name {
        Some(other) => other.as_bytes() == name.as_bytes(),
        None => false,
    }
}

fn names_root(name: &RecordName, op: &Op) -> bool
    ensures { result ≡ names_root name.now op.now }
{
    match share_root_of(op) {
        Some(other) => other.as_bytes() == name.as_bytes(),
        None => false,
    }
}

fn any_names_record(name: &RecordName, ops: &[Op]) -> bool
    ensures { result ≡ list_any (names_record name.now) ops.now }
{
    ops.iter().any(|op| names_record(name, op))
}

fn any_names_root(name: &RecordName, ops: &[Op]) -> bool
    ensures { result ≡ list_any (names_root name.now) ops.now }
{
    ops.iter().any(|op| names_root(name, op))
}

fn again<'a>(earlier: &[Op], op: &'a Op) -> Option<&'a RecordName>
    ensures { option_map (λ n. n.now) result ≡ again earlier.now op.now }
{
    if let Some(name) = &op.draft.name
        && any_names_record(name, earlier)
    {
        return Some(name);
    }
    match share_root_of(op) {
        Some(root) if any_names_root(root, earlier) => Some(root),
        _ => None,
    }
}

fn first_again(ops: &[Op]) -> Option<&RecordName>
    ensures { option_map (λ n. n.now) result ≡ named_again ops.now }
{
    for place in 0..ops.len() {
        if let Some(name) = again(&ops[..place], &ops[place]) {
            return Some(name);
        }
    }
    None
}

/// The name that comes again at the first operation that names a record that an earlier one names, or
/// a root that an earlier `forRecord` names; its record before its root. Records and roots are
/// counted apart.
pub fn named_again(ops: &Ops) -> Option<&RecordName>
    ensures { option_map (λ n. n.now) result ≡ named_again ops.now }
{
    first_again(ops.as_slice())
}
