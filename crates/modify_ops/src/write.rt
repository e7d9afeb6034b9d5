// The JSON of operations.
ghost use Rattle.std.specs.Prelude.{◌≡◌, IfOk, map};
ghost use Rattle.serde_json.specs.View.{view};
ghost use Rattle.modify_ops.specs.Writing.{op_data, ops_data};

use crate::kind::kind_name;
use crate::{Op, Ops};
use ck_base::NoMemory;
use ck_records::draft_json;
use serde_json::{Value as Json, json};
use std::alloc::Global;

/// The JSON of an operation, as "Record Operation Dictionary" of the CloudKit Web Services Reference
/// has it. It fails only where memory runs out.
pub fn op_json(alloc: Global, op: &Op) -> Result<Json, NoMemory>
    ensures { IfOk result (λ json. view json ≡ op_data op.now) }
{
    let word = kind_name(op.kind);
    let draft = draft_json(alloc, &op.draft)?;
    Ok(json!(in alloc; {"operationType": word, "record": draft})?)
}

fn each_json(alloc: Global, ops: &[Op]) -> Result<Vec<Json>, NoMemory>
    ensures { IfOk result (λ list. map view list.items ≡ map op_data ops.now) }
{
    let mut list = Vec::new(alloc);
    for op in ops {
        list.push(op_json(alloc, op)?)?;
    }
    Ok(list)
}

/// The JSON of the operations of a request, which `read_op_list` reads as these where some JSON
/// means them. It fails only where memory runs out.
pub fn ops_json(alloc: Global, ops: &Ops) -> Result<Json, NoMemory>
    ensures { IfOk result (λ json. view json ≡ ops_data ops.now) }
{
    Ok(Json::Array(each_json(alloc, ops.as_slice())?))
}
