// Records of requests and of replies, and the values of comparators.
use crate::fields::value_in;
use crate::place::{Place, first_and_others};
use crate::untold::{Untold, field_fault_named};
use ck_base::RecordName;
use ck_records::{
    Comparator, Record, RecordFault, cut, draft_json, fits, read_record, read_reply_record,
    record_json, record_size,
};
use field_values::name_in;
use serde_json::Value as Json;

/// What such a call makes of JSON, if the name is one of them.
pub fn record_told(place: &Place, name: &str, json: &Json) -> Result<Option<String>, Untold> {
    let told = match name {
        "draft" => draft_told(place, json),
        "record" => again_told(place, json, false),
        "record-texts" => again_told(place, json, true),
        "record-size" => size_told(place, json),
        "cut" => cut_told(place, json, false),
        "cut-texts" => cut_told(place, json, true),
        "fits" => fits_told(place, json),
        _ => return Ok(None),
    };
    Ok(Some(told?))
}

fn draft_told(place: &Place, json: &Json) -> Result<String, Untold> {
    let alloc = place.alloc;
    match read_record(alloc, json, &place.notes, &place.ann) {
        Ok(draft) => Ok(draft_json(alloc, &draft)?.to_string(alloc)?),
        Err(RecordFault::NotARecord) => Err(Untold::Because("NotARecord")),
        Err(RecordFault::BadKey(key)) => Ok(format!(in alloc; "BadKey {key:?}")?),
        Err(RecordFault::BadField { name, fault }) => {
            let (name, fault) = (name.as_str(), field_fault_named(fault));
            Ok(format!(in alloc; "BadField {name} {fault}")?)
        }
        Err(RecordFault::NoMemory) => Err(Untold::NoMemory),
    }
}

fn record_in(place: &Place, json: &Json, as_texts: bool) -> Result<Record, Untold> {
    Ok(read_reply_record(place.alloc, json, &place.notes, as_texts)?)
}

fn written(place: &Place, record: &Record, as_texts: bool) -> Result<String, Untold> {
    let json = record_json(place.alloc, record, &place.notes.owner, as_texts)?;
    Ok(json.to_string(place.alloc)?)
}

fn again_told(place: &Place, json: &Json, as_texts: bool) -> Result<String, Untold> {
    written(place, &record_in(place, json, as_texts)?, as_texts)
}

fn size_told(place: &Place, json: &Json) -> Result<String, Untold> {
    Ok(record_size(&record_in(place, json, false)?).to_string(place.alloc)?)
}

// The record that stands first in a list, cut to the fields that are named behind it.
fn cut_told(place: &Place, json: &Json, as_texts: bool) -> Result<String, Untold> {
    let (record, names) = first_and_others(json)?;
    let record = record_in(place, record, as_texts)?;
    let kept = cut(place.alloc, &record, &names_in(place, names)?)?;
    written(place, &kept, as_texts)
}

fn names_in(place: &Place, texts: &[Json]) -> Result<Vec<RecordName>, Untold> {
    let mut names = Vec::new(place.alloc);
    for text in texts {
        match name_in(place.alloc, Some(text))? {
            Some(name) => names.push(name)?,
            None => return Err(Untold::Because("no name")),
        }
    }
    Ok(names)
}

// Whether the comparator that a list names first may have each of the values behind it: a letter for
// each.
fn fits_told(place: &Place, json: &Json) -> Result<String, Untold> {
    let (name, values) = first_and_others(json)?;
    let Some(comparator) = name.as_str().and_then(comparator_named) else {
        return Err(Untold::Because("no comparator"));
    };
    let mut letters = String::new(place.alloc);
    for value in values {
        let does = fits(comparator, &value_in(place, value)?);
        letters.push_str(if does { "y" } else { "n" })?;
    }
    Ok(letters)
}

const COMPARATORS: [(&str, Comparator); 14] = [
    ("EQUALS", Comparator::Equals),
    ("NOT_EQUALS", Comparator::NotEquals),
    ("LESS_THAN", Comparator::LessThan),
    ("LESS_THAN_OR_EQUALS", Comparator::LessThanOrEquals),
    ("GREATER_THAN", Comparator::GreaterThan),
    ("GREATER_THAN_OR_EQUALS", Comparator::GreaterThanOrEquals),
    ("IN", Comparator::In),
    ("NOT_IN", Comparator::NotIn),
    ("BEGINS_WITH", Comparator::BeginsWith),
    ("NOT_BEGINS_WITH", Comparator::NotBeginsWith),
    ("LIST_CONTAINS", Comparator::ListContains),
    ("NOT_LIST_CONTAINS", Comparator::NotListContains),
    ("NOT_LIST_CONTAINS_ANY", Comparator::NotListContainsAny),
    ("LIST_CONTAINS_ALL", Comparator::ListContainsAll),
];

fn comparator_named(name: &str) -> Option<Comparator> {
    for (spelled, comparator) in &COMPARATORS {
        if *spelled == name {
            return Some(*comparator);
        }
    }
    None
}
