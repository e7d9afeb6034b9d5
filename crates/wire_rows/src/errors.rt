// Rows of errors.
use ck_base::NoMemory;
use error_replies::{ServerError, error_json, status};
use std::alloc::Global;

const ERRORS: [(&str, ServerError); 11] = [
    ("AccessDenied", ServerError::AccessDenied),
    ("AtomicError", ServerError::AtomicError),
    ("AuthenticationFailed", ServerError::AuthenticationFailed),
    (
        "AuthenticationRequired",
        ServerError::AuthenticationRequired,
    ),
    ("BadRequest", ServerError::BadRequest),
    ("Conflict", ServerError::Conflict),
    ("Exists", ServerError::Exists),
    ("NotFound", ServerError::NotFound),
    ("TryAgainLater", ServerError::TryAgainLater),
    (
        "ValidatingReferenceError",
        ServerError::ValidatingReferenceError,
    ),
    ("ZoneNotFound", ServerError::ZoneNotFound),
];

/// The status and the body of a reply with the error of that name.
pub fn error_told(alloc: Global, name: &str) -> Result<String, NoMemory> {
    for (spelled, error) in &ERRORS {
        if *spelled == name {
            let mut told = status(*error).to_string(alloc)?;
            told.push_str(" ")?;
            told.push_str(error_json(alloc, *error)?.to_string(alloc)?.as_str())?;
            return Ok(told);
        }
    }
    Ok(String::from_str(alloc, "no such error")?)
}
