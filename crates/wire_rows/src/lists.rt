// Lists of calls, each by itself.
use crate::calls::bad_call_told;
use ck_base::{NoMemory, ZoneKey};
use serde_json::Value as Json;
use value_rows::{Place, Untold};
use wire_calls::{
    AskedZone, BadCall, CallList, ChangedZone, ReplyFault, SubscriptionOp, ZoneOp, asked_by_op,
    changed_zones_at, guids_at, limited_list, read_zones, subscription_ops_at, subscriptions_at,
    zone_ops_at, zones_at, zones_text,
};

/// What such a call makes of a list, or of none where the text is empty, if the name is one of them.
pub fn list_told(place: &Place, name: &str, text: &str) -> Result<Option<String>, Untold> {
    let told = match name {
        "zone-operations" => zone_ops_told(place, text),
        "changed-zones" => changed_zones_told(place, text),
        "subscription-operations" => subscription_ops_told(place, text),
        "zones" => zones_told(place, text),
        "short-guids" => guids_told(place, text),
        "subscriptions" => subscriptions_told(place, text),
        "zones-reply" => zones_reply_told(place, text),
        _ => return Ok(None),
    };
    match told {
        Ok(told) if told.is_empty() => Err(Untold::Because("nothing")),
        Ok(told) => Ok(Some(told)),
        Err(bad) => Ok(Some(bad_call_told(place, bad)?)),
    }
}

// The JSON of a text, or none. What is no JSON is as a text, which is no list.
fn json_in(place: &Place, text: &str) -> Result<Option<Json>, NoMemory> {
    if text.is_empty() {
        return Ok(None);
    }
    match Json::from_str(place.alloc, text) {
        Ok(json) => Ok(Some(json)),
        Err(_) => Ok(Some(Json::try_from_str(place.alloc, text)?)),
    }
}

// One element more, behind a comma where something stands before it.
fn push_word(told: &mut String, word: &str) -> Result<(), NoMemory> {
    if !told.is_empty() {
        told.push_str(", ")?;
    }
    told.push_str(word)?;
    Ok(())
}

fn push_zone(told: &mut String, key: &ZoneKey) -> Result<(), NoMemory> {
    told.push_str(key.owner.as_str())?;
    told.push_str("/")?;
    told.push_str(key.zone.as_str())?;
    Ok(())
}

fn zone_ops_told(place: &Place, text: &str) -> Result<String, BadCall> {
    let json = json_in(place, text)?;
    let ops = zone_ops_at(place.alloc, &place.ann, json.as_ref())?;
    let ops = limited_list(CallList::Operations, ops)?;
    let mut told = String::new(place.alloc);
    for op in ops.as_slice() {
        let (word, key) = match op {
            ZoneOp::Make(key) => ("make ", key),
            ZoneOp::Remove(key) => ("remove ", key),
        };
        push_word(&mut told, word)?;
        push_zone(&mut told, key)?;
    }
    Ok(told)
}

fn push_changed(place: &Place, told: &mut String, changed: &ChangedZone) -> Result<(), NoMemory> {
    push_word(told, "of ")?;
    push_zone(told, &changed.zone)?;
    if let Some(token) = &changed.sync_token {
        told.push_str(" from ")?;
        told.push_str(token.as_str())?;
    }
    if let Some(limit) = changed.limit {
        told.push_str(" at most ")?;
        told.push_str(limit.to_string(place.alloc)?.as_str())?;
    }
    Ok(())
}

fn changed_zones_told(place: &Place, text: &str) -> Result<String, BadCall> {
    let json = json_in(place, text)?;
    let zones = changed_zones_at(place.alloc, &place.ann, json.as_ref())?;
    let zones = limited_list(CallList::ChangedZones, zones)?;
    let mut told = String::new(place.alloc);
    for changed in zones.as_slice() {
        push_changed(place, &mut told, changed)?;
    }
    Ok(told)
}

fn subscription_ops_told(place: &Place, text: &str) -> Result<String, BadCall> {
    let json = json_in(place, text)?;
    let ops = subscription_ops_at(place.alloc, json.as_ref())?;
    let ops = limited_list(CallList::Operations, ops)?;
    let mut told = String::new(place.alloc);
    for op in ops.as_slice() {
        let (word, id) = match op {
            SubscriptionOp::Create(Some(id)) => ("create ", id.as_str()),
            SubscriptionOp::Create(None) => ("create", ""),
            SubscriptionOp::Delete(id) => ("delete ", id.as_str()),
        };
        push_word(&mut told, word)?;
        told.push_str(id)?;
    }
    Ok(told)
}

fn zones_told(place: &Place, text: &str) -> Result<String, BadCall> {
    let json = json_in(place, text)?;
    let zones = zones_at(place.alloc, &place.ann, json.as_ref())?;
    let zones = limited_list(CallList::Zones, zones)?;
    let mut told = String::new(place.alloc);
    for key in zones.as_slice() {
        push_word(&mut told, "")?;
        push_zone(&mut told, key)?;
    }
    Ok(told)
}

fn guids_told(place: &Place, text: &str) -> Result<String, BadCall> {
    let json = json_in(place, text)?;
    let guids = guids_at(place.alloc, json.as_ref())?;
    let guids = limited_list(CallList::ShortGuids, guids)?;
    let mut told = String::new(place.alloc);
    for guid in guids.as_slice() {
        push_word(&mut told, guid.as_str())?;
    }
    Ok(told)
}

fn subscriptions_told(place: &Place, text: &str) -> Result<String, BadCall> {
    let json = json_in(place, text)?;
    let ids = subscriptions_at(place.alloc, json.as_ref())?;
    let ids = limited_list(CallList::Subscriptions, ids)?;
    let mut told = String::new(place.alloc);
    for id in ids.as_slice() {
        push_word(&mut told, id.as_str())?;
    }
    Ok(told)
}

// What the operations with zones ask of the entries of their reply.
fn asked_zones(place: &Place, text: &str) -> Result<Vec<AskedZone>, BadCall> {
    let json = json_in(place, text)?;
    let ops = zone_ops_at(place.alloc, &place.ann, json.as_ref())?;
    let mut asked = Vec::new(place.alloc);
    for op in ops.as_slice() {
        asked.push(asked_by_op(op)?)?;
    }
    Ok(asked)
}

// The reply to the operations, of `OPERATIONS | REPLY`.
fn zones_reply_told(place: &Place, text: &str) -> Result<String, BadCall> {
    let alloc = place.alloc;
    let (ops, reply) = text.split_once(" | ").unwrap_or((text, ""));
    let asked = asked_zones(place, ops)?;
    let json = json_in(place, reply)?.unwrap_or(Json::Null);
    match read_zones(alloc, &place.ann, asked.as_slice(), &json) {
        Ok(entries) => Ok(zones_text(alloc, entries)?),
        Err(ReplyFault::BadReply(at)) => Ok(format!(in alloc; "BadReply {at}")?),
        Err(ReplyFault::NoMemory) => Err(BadCall::NoMemory),
    }
}
