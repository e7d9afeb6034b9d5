// Names in JSON.
ghost use Rattle.std.specs.Prelude.{◌≡◌, is_ok, option_map, IfOk, IfSome};
ghost use Rattle.std.specs.Result.{result_ok};
ghost use Rattle.serde_json.specs.View.{view};
ghost use Rattle.ck_base.specs.Names.{is_name_byte, first_outside, IsName};
ghost use Rattle.ck_base.specs.Reading.{name_of};
ghost use Rattle.field_values.specs.References.{name_in};

use ck_base::limits::{FIRST_NAME_BYTE, LAST_NAME_BYTE, NAME_BYTES};
use ck_base::{Name, NameFault, NoMemory};
use serde_json::Value as Json;
use std::alloc::Global;

/// The name that the bytes are, where they are one.
pub fn valid_name<K>(alloc: Global, bytes: &[u8]) -> Result<Option<Name<K>>, NoMemory>
    ensures name { IfOk result (λ found. found ≡ result_ok (name_of bytes.now)) }
    ensures meant { IfOk result (λ found. IfSome found IsName) }
{
    match Name::from_bytes(alloc, bytes) {
        Ok(name) => Ok(Some(name)),
        Err(NameFault::NoMemory) => Err(NoMemory),
        Err(NameFault::Empty) => Ok(None),
        Err(NameFault::TooLong(_)) => Ok(None),
        Err(NameFault::BadChar(_)) => Ok(None),
    }
}

/// The name that a text is, where there is a text and it is one.
pub fn name_in<K>(alloc: Global, json: Option<&Json>) -> Result<Option<Name<K>>, NoMemory>
    ensures name { IfOk result (λ found.
        found ≡ name_in (option_map (λ v. view v.now) json.entry)) }
    ensures meant { IfOk result (λ found. IfSome found IsName) }
{
    match json.and_then(Json::as_str) {
        Some(text) => valid_name(alloc, text.as_bytes()),
        None => Ok(None),
    }
}

/// Whether the bytes are a name. It takes no memory.
pub fn is_name(bytes: &[u8]) -> bool
    ensures { result ≡ is_ok (name_of bytes.now) }
{
    !bytes.is_empty() && bytes.len() <= NAME_BYTES && first_bad_byte(bytes).is_none()
}

fn first_bad_byte(bytes: &[u8]) -> Option<usize>
    ensures { result ≡ first_outside bytes.now }
{
    bytes.iter().position(|byte| !is_allowed(*byte))
}

fn is_allowed(byte: u8) -> bool
    ensures { result ≡ is_name_byte byte }
{
    FIRST_NAME_BYTE <= byte && byte <= LAST_NAME_BYTE
}
