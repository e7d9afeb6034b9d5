// The judgement of a request.
ghost use Rattle.std.specs.Prelude.{◌≡◌, IfOk, map};
ghost use Rattle.zone_model.specs.Judging.{fault_behind, faults_of, has_fault};
ghost use Rattle.zone_judging.specs.Asked.{named, grounds_in};
ghost use Rattle.zone_judging.specs.Judged.{refused, judgement_in};
ghost use Rattle.zone_judging.specs.Wishes.{AreInOrder};
ghost use Rattle.zone_judging.specs.Sights.{AreSeen};
ghost use Rattle.zone_judging.specs.Holding.{AreAllInOrder};

use crate::deletions::fault_of_deletion;
use crate::puts::fault_of_put;
use crate::{Grounds, NamedOp, Sees};
use ck_base::NoMemory;
use drawn_names::is_deletion;
use std::alloc::Global;
use zone_model::OpFault;

/// Why the operation is refused, if it is, where these come earlier in the request.
fn fault_behind<V: Sees>(g: &Grounds<V>, earlier: &[NamedOp], op: &NamedOp) -> Option<OpFault>
    requires seen { AreSeen (V.rows g.now.seen.now) }
    requires wishes { AreAllInOrder g.now.ops.now }
    requires own { AreInOrder op.now.op.now.draft.fields }
    ensures { result ≡ fault_behind (grounds_in V.rows g.now) (map named earlier.now) (named op.now) }
{
    if is_deletion(op.op.kind) {
        fault_of_deletion(g, op)
    } else {
        fault_of_put(g, op, earlier)
    }
}

// The fault of each operation by itself.
fn faults_of<V: Sees>(alloc: Global, g: &Grounds<V>) -> Result<Vec<Option<OpFault>>, NoMemory>
    requires seen { AreSeen (V.rows g.now.seen.now) }
    requires wishes { AreAllInOrder g.now.ops.now }
    ensures { IfOk result (λ faults. faults.items ≡ faults_of (grounds_in V.rows g.now) (map named g.now.ops.now)) }
{
    let mut faults = Vec::with_capacity(alloc, g.ops.len())?;
    for op in g.ops {
        let fault = fault_behind(g, &g.ops[..faults.len()], op);
        faults.push(fault)?;
    }
    Ok(faults)
}

fn has_fault(faults: &[Option<OpFault>]) -> bool
    ensures { result ≡ has_fault faults.now }
{
    faults.iter().any(|fault| fault.is_some())
}

// The faults where one operation has one: each without is refused with the others.
fn all_refused(alloc: Global, faults: &[Option<OpFault>]) -> Result<Vec<Option<OpFault>>, NoMemory>
    ensures { IfOk result (λ all. all.items ≡ map refused faults.now) }
{
    let mut all = Vec::with_capacity(alloc, faults.len())?;
    for fault in faults {
        all.push(Some(fault.unwrap_or(OpFault::Atomic)))?;
    }
    Ok(all)
}

/// What each operation is refused with, if it is, where the request is judged as one: the fault of the
/// first check that it fails, or `Atomic` where it fails none and another operation does. A request
/// whose operations are done one after another is judged by this too, each of them alone. It fails only
/// where memory runs out.
pub fn judge<V: Sees>(alloc: Global, g: &Grounds<V>) -> Result<Vec<Option<OpFault>>, NoMemory>
    requires seen { AreSeen (V.rows g.now.seen.now) }
    requires wishes { AreAllInOrder g.now.ops.now }
    ensures { IfOk result (λ faults. faults.items ≡ judgement_in V.rows g.now) }
{
    let faults = faults_of(alloc, g)?;
    if has_fault(&faults) {
        all_refused(alloc, &faults)
    } else {
        Ok(faults)
    }
}
