// Names in JSON.
ghost use Rattle.std.specs.Prelude.{◌≡◌, option_map, IfOk, IfSome};
ghost use Rattle.serde_json.specs.View.{view};
ghost use Rattle.ck_base.specs.Names.{IsName};
ghost use Rattle.ck_base.specs.Told.{IsToldUnless};
ghost use Rattle.ck_records.specs.Reading.{name_at};

use crate::{RecordFault, RecordKey};
use ck_base::RecordName;
use field_values::name_in;
use serde_json::Value as Json;
use std::alloc::Global;

/// The name that a member of a record is, or none where it is absent.
pub(crate) fn read_name(
    alloc: Global,
    key: RecordKey,
    json: Option<&Json>,
) -> Result<Option<RecordName>, RecordFault>
    ensures name { IsToldUnless RecordFault.NoMemory result
        (name_at key (option_map (λ v. view v.now) json.entry)) }
    ensures meant { IfOk result (λ found. IfSome found IsName) }
{
    if json.is_none() {
        return Ok(None);
    }
    match name_in(alloc, json)? {
        Some(name) => Ok(Some(name)),
        None => Err(RecordFault::BadKey(key)),
    }
}
