// Rows of requests, their routes and callers, tables of users, and replies.
use crate::TABLE;
use crate::reads::{after_faults_told, requests_told};
use case_files::{LineFault, quoted, read_quoted};
use ck_base::NoMemory;
use ck_devices::{MemSink, Sink};
use http_front::{
    CallerFault, RouteFault, Users, UsersFault, WriteFault, caller_of, query_item, read_users,
    route_of, write_reply,
};
use std::alloc::Global;

/// A call that a row can name. Its text is in quotation marks.
#[derive(Clone, Copy)]
pub enum Front {
    /// The requests at the front of bytes, and why there are no more.
    Requests,
    /// The same where each read fails once.
    AfterFaults,
    /// The route of `METHOD TARGET`.
    Route,
    /// The caller by a target.
    Caller,
    /// The item of `NAME TARGET`.
    Query,
    /// The first line of a table of users.
    Users,
    /// The user of `TOKEN TABLE`.
    User,
    /// The bytes of a reply of status 200 that leaves the connection open, by its body.
    Reply,
}

const FRONTS: [(&str, Front); 8] = [
    ("requests", Front::Requests),
    ("requests-after-faults", Front::AfterFaults),
    ("route", Front::Route),
    ("caller", Front::Caller),
    ("query", Front::Query),
    ("users", Front::Users),
    ("user", Front::User),
    ("reply", Front::Reply),
];

/// The call that a row names by its first word.
pub fn front_named(name: &str) -> Option<Front> {
    for (spelled, front) in &FRONTS {
        if *spelled == name {
            return Some(*front);
        }
    }
    None
}

/// What the call makes of a text in quotation marks.
pub fn answer_front(alloc: Global, front: Front, text: &str) -> Result<String, NoMemory> {
    let bytes = match read_quoted(alloc, text) {
        Ok(bytes) => bytes,
        Err(LineFault::Wrong(why)) => return Ok(String::from_str(alloc, why)?),
        Err(LineFault::NoMemory) => return Err(NoMemory),
    };
    match front {
        Front::Requests => requests_told(alloc, &bytes),
        Front::AfterFaults => after_faults_told(alloc, &bytes),
        Front::Route => route_told(alloc, &bytes),
        Front::Caller => caller_told(alloc, &bytes),
        Front::Query => query_told(alloc, &bytes),
        Front::Users => users_told(alloc, &bytes),
        Front::User => user_told(alloc, &bytes),
        Front::Reply => reply_told(alloc, &bytes),
    }
}

// What stands before the first space, and what stands behind it.
fn split_words(bytes: &[u8]) -> (&[u8], &[u8]) {
    match bytes.iter().position(|byte| *byte == b' ') {
        Some(at) if at < bytes.len() => (&bytes[..at], &bytes[at + 1..]),
        _ => (bytes, &[]),
    }
}

fn route_told(alloc: Global, bytes: &[u8]) -> Result<String, NoMemory> {
    let (method, target) = split_words(bytes);
    match route_of(alloc, method, target) {
        Ok(route) => {
            let (database, operation) = (route.database, route.operation);
            Ok(format!(in alloc; "{database:?} {operation:?}")?)
        }
        Err(RouteFault::NoRoute) => Ok(String::from_str(alloc, "NoRoute")?),
        Err(RouteFault::NoMemory) => Err(NoMemory),
    }
}

fn caller_told(alloc: Global, target: &[u8]) -> Result<String, NoMemory> {
    let Ok(users) = read_users(alloc, TABLE) else {
        return Err(NoMemory);
    };
    match caller_of(alloc, &users, target) {
        Ok(user) => quoted_name(alloc, user.as_bytes()),
        Err(CallerFault::Failed) => Ok(String::from_str(alloc, "Failed")?),
        Err(CallerFault::Required) => Ok(String::from_str(alloc, "Required")?),
        Err(CallerFault::NoMemory) => Err(NoMemory),
    }
}

fn quoted_name(alloc: Global, bytes: &[u8]) -> Result<String, NoMemory> {
    Ok(quoted(alloc, bytes)?)
}

fn query_told(alloc: Global, bytes: &[u8]) -> Result<String, NoMemory> {
    let (name, target) = split_words(bytes);
    let name = String::from_utf8_lossy(alloc, name)?;
    match query_item(alloc, target, name.as_str())? {
        Some(value) => quoted_name(alloc, value.as_bytes()),
        None => Ok(String::from_str(alloc, "nothing")?),
    }
}

// The table, or why the bytes are none.
fn table_of(alloc: Global, bytes: &[u8]) -> Result<Result<Users, String>, NoMemory> {
    match read_users(alloc, bytes) {
        Ok(users) => Ok(Ok(users)),
        Err(UsersFault::BadLine(line)) => Ok(Err(format!(in alloc; "BadLine {line}")?)),
        Err(UsersFault::NoMemory) => Err(NoMemory),
    }
}

fn users_told(alloc: Global, bytes: &[u8]) -> Result<String, NoMemory> {
    let users = match table_of(alloc, bytes)? {
        Ok(users) => users,
        Err(fault) => return Ok(fault),
    };
    let mut told = users.container().to_vec(alloc)?;
    told.push(b' ')?;
    told.extend_from_slice(users.environment())?;
    told.push(b' ')?;
    told.extend_from_slice(users.api_token())?;
    quoted_name(alloc, &told)
}

fn user_told(alloc: Global, bytes: &[u8]) -> Result<String, NoMemory> {
    let (token, table) = split_words(bytes);
    let users = match table_of(alloc, table)? {
        Ok(users) => users,
        Err(fault) => return Ok(fault),
    };
    match users.user_of_token(token) {
        Some(user) => quoted_name(alloc, user.as_bytes()),
        None => Ok(String::from_str(alloc, "nobody")?),
    }
}

fn reply_told(alloc: Global, body: &[u8]) -> Result<String, NoMemory> {
    let mut sink = MemSink::new(alloc, 7, Vec::new(alloc));
    match write_reply(alloc, &mut sink, 200, body, false) {
        Ok(()) => quoted_name(alloc, sink.bytes()),
        Err(WriteFault::Failed) => Ok(String::from_str(alloc, "Failed")?),
        Err(WriteFault::NoMemory) => Err(NoMemory),
    }
}
