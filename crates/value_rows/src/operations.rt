// Lists of operations.
ghost use Rattle.std.specs.Prelude.{IfOk};
ghost use Rattle.std.specs.List.{AllByRecursion};
ghost use Rattle.zone_model.specs.OpForms.{IsMeantOp};

use crate::place::{Place, first_and_others};
use crate::untold::Untold;
use modify_ops::{
    BadOps, Ops, named_again, names_of, ops_json, read_op_list, read_ops, words_drawn,
};
use serde_json::Value as Json;

/// What such a call makes of JSON, if the name is one of them.
pub fn operations_told(place: &Place, name: &str, json: &Json) -> Result<Option<String>, Untold> {
    let told = match name {
        "operations" => list_told(place, json),
        "again" => again_told(place, json),
        "names" => names_told(place, json),
        _ => return Ok(None),
    };
    Ok(Some(told?))
}

fn list_told(place: &Place, json: &Json) -> Result<String, Untold> {
    match read_ops(place.alloc, json, &place.notes, &place.ann) {
        Ok(ops) => Ok(ops_json(place.alloc, &ops)?.to_string(place.alloc)?),
        Err(bad) => bad_ops_told(place, bad),
    }
}

fn bad_ops_told(place: &Place, bad: BadOps) -> Result<String, Untold> {
    let alloc = place.alloc;
    match bad {
        BadOps::TooMany(count) => Ok(format!(in alloc; "TooMany {count}")?),
        BadOps::BadOp(at) => Ok(format!(in alloc; "BadOp {at}")?),
        BadOps::Twice(name) => {
            let name = name.as_str();
            Ok(format!(in alloc; "Twice {name}")?)
        }
        BadOps::NoMemory => Err(Untold::NoMemory),
    }
}

// The operations of a list, each by itself.
fn ops_in(place: &Place, json: &Json) -> Result<Ops, Untold>
    ensures { IfOk result (AllByRecursion IsMeantOp) }
{
    match read_op_list(place.alloc, json, &place.notes, &place.ann) {
        Ok(ops) => Ok(ops),
        Err(BadOps::NoMemory) => Err(Untold::NoMemory),
        Err(_) => Err(Untold::Because("no operations")),
    }
}

fn again_told(place: &Place, json: &Json) -> Result<String, Untold> {
    let ops = ops_in(place, json)?;
    match named_again(&ops) {
        Some(name) => Ok(String::from_str(place.alloc, name.as_str())?),
        None => Err(Untold::Because("nothing")),
    }
}

// The names that the operations which stand first in a list have, where just the words behind them
// are drawn.
fn names_told(place: &Place, json: &Json) -> Result<String, Untold> {
    let (list, numbers) = first_and_others(json)?;
    let ops = ops_in(place, list)?;
    let words = words_in(place, numbers)?;
    if words.len() != words_drawn(ops.as_slice()) {
        return Err(Untold::Because("other words"));
    }
    let mut told = String::new(place.alloc);
    for name in names_of(place.alloc, ops.as_slice(), &words)?.as_slice() {
        if !told.is_empty() {
            told.push_str(" ")?;
        }
        told.push_str(name.as_str())?;
    }
    Ok(told)
}

fn words_in(place: &Place, numbers: &[Json]) -> Result<Vec<[u8; 16]>, Untold> {
    let mut words = Vec::new(place.alloc);
    for number in numbers {
        match number.as_u64() {
            Some(number) => words.push(u128::from(number).to_be_bytes())?,
            None => return Err(Untold::Because("no word")),
        }
    }
    Ok(words)
}
