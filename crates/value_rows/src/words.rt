// Names, texts, numbers and locks.
use crate::place::spelled_bytes;
use crate::untold::Untold;
use ck_base::{
    Bytes, Guid, Name, NameFault, Text, ZoneKey, lock_of, read_number, record_name, user_name,
    zone_name,
};
use std::alloc::Global;
use std::str;

/// What such a call makes of a text, if the name is one of them.
pub fn word_told(alloc: Global, name: &str, text: &str) -> Result<Option<String>, Untold> {
    let told = match name {
        "record-name" => record_name_told(alloc, text),
        "zone-name" => zone_name_told(alloc, text),
        "user-name" => user_name_told(alloc, text),
        "text" => text_told(alloc, text),
        "guid" => guid_told(alloc, text),
        "number" => number_told(alloc, text),
        "lock" => lock_told(alloc, text),
        _ => return Ok(None),
    };
    Ok(Some(told?))
}

fn record_name_told(alloc: Global, text: &str) -> Result<String, Untold> {
    name_told(alloc, record_name(alloc, &spelled_bytes(alloc, text)?))
}

fn zone_name_told(alloc: Global, text: &str) -> Result<String, Untold> {
    name_told(alloc, zone_name(alloc, &spelled_bytes(alloc, text)?))
}

fn user_name_told(alloc: Global, text: &str) -> Result<String, Untold> {
    name_told(alloc, user_name(alloc, &spelled_bytes(alloc, text)?))
}

fn name_told<K>(alloc: Global, name: Result<Name<K>, NameFault>) -> Result<String, Untold> {
    match name {
        Ok(name) => Ok(String::from_str(alloc, name.as_str())?),
        Err(NameFault::Empty) => Err(Untold::Because("Empty")),
        Err(NameFault::TooLong(count)) => Ok(format!(in alloc; "TooLong {count}")?),
        Err(NameFault::BadChar(place)) => Ok(format!(in alloc; "BadChar {place}")?),
        Err(NameFault::NoMemory) => Err(Untold::NoMemory),
    }
}

// A copy of the text of a copy of the bytes.
fn text_told(alloc: Global, text: &str) -> Result<String, Untold> {
    let bytes = Bytes::from_slice(alloc, &spelled_bytes(alloc, text)?)?.clone()?;
    match Text::from_bytes(bytes) {
        Some(text) => Ok(String::from_str(alloc, text.clone()?.as_str())?),
        None => Err(Untold::Because("no text")),
    }
}

fn guid_told(alloc: Global, text: &str) -> Result<String, Untold> {
    let Some(guid) = Guid::from_bytes(text.as_bytes()) else {
        return Err(Untold::Because("no guid"));
    };
    match str::from_utf8(guid.as_bytes()) {
        Ok(digits) => Ok(String::from_str(alloc, digits)?),
        Err(_) => Err(Untold::Because("no text")),
    }
}

fn number_told(alloc: Global, text: &str) -> Result<String, Untold> {
    match read_number(text) {
        Some(number) => Ok(number.to_string(alloc)?),
        None => Err(Untold::Because("no number")),
    }
}

// The lock of a copy of the key.
fn lock_told(alloc: Global, text: &str) -> Result<String, Untold> {
    let Some((owner, zone)) = text.split_once(' ') else {
        return Err(Untold::Because("no owner and zone"));
    };
    let key = ZoneKey {
        owner: user_name(alloc, owner.as_bytes())?,
        zone: zone_name(alloc, zone.as_bytes())?,
    };
    Ok(lock_of(&key.clone()?).to_string(alloc)?)
}
