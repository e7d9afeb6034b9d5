// What a call asks of each entry of its reply.
ghost use Rattle.std.specs.Prelude.{◌≡◌, IfOk, map};
ghost use Rattle.wire_calls.specs.Asked.{asked_by, asked_for, asked_of};

use crate::Call;
use ck_base::{NoMemory, RecordName};
use drawn_names::is_deletion;
use modify_ops::Op;
use std::alloc::Global;

/// What a call asks of an entry of its reply.
#[derive(Drop)]
pub(crate) struct Asked {
    /// The name that the entry has to have, where the call gives one.
    pub(crate) name: Option<RecordName>,
    /// The record is to go.
    pub(crate) deletes: bool,
}

fn asked_by(op: &Op) -> Result<Asked, NoMemory>
    ensures { IfOk result (λ asked. asked ≡ asked_by op.now) }
{
    let deletes = is_deletion(op.kind);
    match &op.draft.name {
        Some(name) => Ok(Asked {
            name: Some(name.clone()?),
            deletes,
        }),
        None => Ok(Asked {
            name: None,
            deletes,
        }),
    }
}

fn asked_for(name: &RecordName) -> Result<Asked, NoMemory>
    ensures { IfOk result (λ asked. asked ≡ asked_for name.now) }
{
    Ok(Asked {
        name: Some(name.clone()?),
        deletes: false,
    })
}

fn by_each(alloc: Global, ops: &[Op]) -> Result<Vec<Asked>, NoMemory>
    ensures { IfOk result (λ list. list.items ≡ map asked_by ops.now) }
{
    let mut list = Vec::new(alloc);
    for op in ops {
        list.push(asked_by(op)?)?;
    }
    Ok(list)
}

fn for_each(alloc: Global, names: &[RecordName]) -> Result<Vec<Asked>, NoMemory>
    ensures { IfOk result (λ list. list.items ≡ map asked_for names.now) }
{
    let mut list = Vec::new(alloc);
    for name in names {
        list.push(asked_for(name)?)?;
    }
    Ok(list)
}

/// What the call asks of each entry of its reply, in order.
pub(crate) fn asked_of(alloc: Global, call: &Call) -> Result<Vec<Asked>, NoMemory>
    ensures { IfOk result (λ list. list.items ≡ asked_of call.now) }
{
    match call {
        Call::Modify(call) => by_each(alloc, call.ops.as_slice()),
        Call::Lookup(call) => for_each(alloc, call.names.as_slice()),
    }
}
