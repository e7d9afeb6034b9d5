// Bodies of calls, and the replies to them.
use ck_base::{Database, Operation, Route, read_number};
use value_rows::{Place, Untold, spelled_bytes};
use wire_calls::{
    BadCall, Call, ReplyFault, call_text, read_call, read_reply, reply_status, reply_text,
};

/// What such a call makes of a text, if the name is one of them.
pub fn call_told(place: &Place, name: &str, text: &str) -> Result<Option<String>, Untold> {
    let told = match name {
        "modify" => body_told(place, Operation::RecordsModify, text.as_bytes()),
        "modify-bytes" => bytes_told(place, text),
        "lookup" => body_told(place, Operation::RecordsLookup, text.as_bytes()),
        "records-query" => body_told(place, Operation::RecordsQuery, text.as_bytes()),
        "zones-list" => body_told(place, Operation::ZonesList, text.as_bytes()),
        "modify-reply" => reply_told(place, Operation::RecordsModify, text),
        "lookup-reply" => reply_told(place, Operation::RecordsLookup, text),
        _ => return Ok(None),
    };
    Ok(Some(told?))
}

// A modify whose body is spelled in quotation marks.
fn bytes_told(place: &Place, text: &str) -> Result<String, Untold> {
    let body = spelled_bytes(place.alloc, text)?;
    body_told(place, Operation::RecordsModify, &body)
}

fn call_of(place: &Place, operation: Operation, body: &[u8]) -> Result<Call, BadCall> {
    let route = Route {
        database: Database::Private,
        operation,
    };
    read_call(place.alloc, &route, &place.ann, body)
}

fn body_told(place: &Place, operation: Operation, body: &[u8]) -> Result<String, Untold> {
    match call_of(place, operation, body) {
        Ok(call) => Ok(call_text(place.alloc, &call)?),
        Err(bad) => bad_call_told(place, bad),
    }
}

/// The fault of a body.
pub(crate) fn bad_call_told(place: &Place, bad: BadCall) -> Result<String, Untold> {
    let alloc = place.alloc;
    match bad {
        BadCall::NotBuilt => Err(Untold::Because("NotBuilt")),
        BadCall::NotJson => Err(Untold::Because("NotJson")),
        BadCall::BadKey(key) => Ok(format!(in alloc; "BadKey {key:?}")?),
        BadCall::TooMany(count) => Ok(format!(in alloc; "TooMany {count}")?),
        BadCall::Twice(name) => {
            let name = name.as_str();
            Ok(format!(in alloc; "Twice {name}")?)
        }
        BadCall::NoMemory => Err(Untold::NoMemory),
    }
}

// What `STATUS BODY` is as the reply to the call, of `CALL | STATUS BODY`.
fn reply_told(place: &Place, operation: Operation, text: &str) -> Result<String, Untold> {
    let Some((call, reply)) = text.split_once(" | ") else {
        return Err(Untold::Because("no ' | ' behind the call"));
    };
    let Some((status, body)) = reply.split_once(' ') else {
        return Err(Untold::Because("no status and body"));
    };
    let Some(status) = status_in(status) else {
        return Err(Untold::Because("no status"));
    };
    match call_of(place, operation, call.as_bytes()) {
        Ok(call) => reply_to_told(place, &call, status, body),
        Err(bad) => bad_call_told(place, bad),
    }
}

fn status_in(text: &str) -> Option<u16> {
    u16::try_from(read_number(text)?).ok()
}

// The reply, with its status in front.
fn reply_to_told(place: &Place, call: &Call, status: u16, body: &str) -> Result<String, Untold> {
    let alloc = place.alloc;
    match read_reply(alloc, call, status, body.as_bytes()) {
        Ok(reply) => {
            let status = reply_status(&reply);
            let text = reply_text(alloc, reply)?;
            Ok(format!(in alloc; "{status} {text}")?)
        }
        Err(ReplyFault::BadReply(at)) => Ok(format!(in alloc; "BadReply {at}")?),
        Err(ReplyFault::NoMemory) => Err(Untold::NoMemory),
    }
}
