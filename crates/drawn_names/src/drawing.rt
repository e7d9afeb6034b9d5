// How many random words operations draw.
ghost use Rattle.std.specs.Prelude.{◌≡◌, ◌≤◌};
ghost use Rattle.drawn_names.specs.Drawing.{draws_name, draws_guid, one_if, words_for, words_drawn};

use crate::is_deletion;
use zone_model::{Op, OpKind};

/// Whether an operation draws a word for the name of its record: a create without a name does.
pub fn draws_name(op: &Op) -> bool
    ensures { result ≡ draws_name op.now }
{
    op.kind == OpKind::Create && op.draft.name.is_none()
}

// Whether an operation draws a word for a GUID: a put that gives a root does.
fn draws_guid(op: &Op) -> bool
    ensures { result ≡ draws_guid op.now }
{
    !is_deletion(op.kind) && op.draft.for_root.is_some()
}

fn one_if(draws: bool) -> usize
    ensures words { result ≡ one_if draws }
    ensures few { result ≤ 1 }
{
    if draws { 1 } else { 0 }
}

/// How many words an operation draws: one for a name, and one for the GUID of a share.
pub fn words_for(op: &Op) -> usize
    ensures words { result ≡ words_for op.now }
    ensures few { result ≤ 2 }
{
    one_if(draws_name(op)) + one_if(draws_guid(op))
}

/// How many words operations draw.
pub fn words_drawn(ops: &[Op]) -> usize
    ensures { result ≡ words_drawn ops.now }
{
    let mut count = 0;
    for op in ops {
        count += words_for(op);
    }
    count
}
