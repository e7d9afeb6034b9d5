//! What the single calls of rows make of texts: those of values, and those of requests, calls, replies
//! and errors.
#![tactic(auto)]

mod calls;
mod errors;
mod fronts;
mod lists;
mod reads;

use calls::call_told;
use ck_base::NoMemory;
use errors::error_told;
use fronts::{answer_front, front_named};
use lists::list_told;
use std::alloc::Global;
use value_rows::{Place, Untold, value_told};

/// Who may call, in every connection and every row of a caller.
pub const TABLE: &[u8] = b"iCloud.test development api\nwa ann\nwb bob\nwc cat\nwd dan\n";

/// What the call of that name makes of a text: what it read, written again, or the name of a fault.
/// It is `None` where no call has the name.
pub fn answer_to(alloc: Global, name: &str, text: &str) -> Result<Option<String>, NoMemory> {
    if let Some(front) = front_named(name) {
        return Ok(Some(answer_front(alloc, front, text)?));
    }
    match name {
        "error" => Ok(Some(error_told(alloc, text)?)),
        name => answer_at_notes(alloc, name, text),
    }
}

fn answer_at_notes(alloc: Global, name: &str, text: &str) -> Result<Option<String>, NoMemory> {
    match find_answer(&Place::at_notes(alloc)?, name, text) {
        Ok(told) => Ok(told),
        Err(Untold::Because(why)) => Ok(Some(String::from_str(alloc, why)?)),
        Err(Untold::NoMemory) => Err(NoMemory),
    }
}

fn find_answer(place: &Place, name: &str, text: &str) -> Result<Option<String>, Untold> {
    if let Some(told) = call_told(place, name, text)? {
        return Ok(Some(told));
    }
    match list_told(place, name, text)? {
        Some(told) => Ok(Some(told)),
        None => value_told(place, name, text),
    }
}
