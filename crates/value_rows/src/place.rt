// Where single calls are made.
use crate::untold::Untold;
use case_files::{LineFault, read_quoted};
use ck_base::{NoMemory, UserName, ZoneKey, user_name, zone_name};
use serde_json::Value as Json;
use std::alloc::Global;

/// Who calls, and in which zone.
#[derive(Drop)]
pub struct Place {
    pub alloc: Global,
    pub ann: UserName,
    pub notes: ZoneKey,
}

impl Place {
    /// Ann, in her zone `Notes`.
    pub fn at_notes(alloc: Global) -> Result<Place, NoMemory> {
        let (Ok(ann), Ok(owner), Ok(zone)) = (
            user_name(alloc, b"ann"),
            user_name(alloc, b"ann"),
            zone_name(alloc, b"Notes"),
        ) else {
            return Err(NoMemory);
        };
        Ok(Place {
            alloc,
            ann,
            notes: ZoneKey { owner, zone },
        })
    }
}

/// The first of a list of JSON, and the others.
pub fn first_and_others(json: &Json) -> Result<(&Json, &[Json]), Untold> {
    let Some(list) = json.as_array() else {
        return Err(Untold::Because("no list"));
    };
    list.as_slice()
        .split_first()
        .ok_or(Untold::Because("an empty list"))
}

/// The bytes that a text spells in quotation marks, or else its own.
pub fn spelled_bytes(alloc: Global, text: &str) -> Result<Vec<u8>, Untold> {
    match read_quoted(alloc, text) {
        Ok(bytes) => Ok(bytes),
        Err(LineFault::Wrong(_)) => Ok(Vec::from_slice(alloc, text.as_bytes())?),
        Err(LineFault::NoMemory) => Err(Untold::NoMemory),
    }
}
