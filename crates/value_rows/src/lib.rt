//! What the single calls of rows make of names, values, records and operations.
#![tactic(auto)]

mod fields;
mod operations;
mod place;
mod records;
mod untold;
mod words;

use fields::field_told;
use operations::operations_told;
pub use place::{Place, spelled_bytes};
use records::record_told;
use serde_json::Value as Json;
pub use untold::Untold;
use words::word_told;

/// What the call of that name makes of a text: what it read, written again, or the name of a fault.
/// It is `None` where no call has the name.
pub fn value_told(place: &Place, name: &str, text: &str) -> Result<Option<String>, Untold> {
    if let Some(told) = word_told(place.alloc, name, text)? {
        return Ok(Some(told));
    }
    match Json::from_str(place.alloc, text) {
        Ok(json) => json_told(place, name, &json),
        Err(_) => Err(Untold::Because("no JSON")),
    }
}

fn json_told(place: &Place, name: &str, json: &Json) -> Result<Option<String>, Untold> {
    if let Some(told) = field_told(place, name, json)? {
        return Ok(Some(told));
    }
    if let Some(told) = record_told(place, name, json)? {
        return Ok(Some(told));
    }
    operations_told(place, name, json)
}
