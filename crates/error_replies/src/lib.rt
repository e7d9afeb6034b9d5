//! The errors that a refused request is answered with: their codes, their statuses and their bodies.
#![tactic(auto)]

mod bodies;
mod errors;

pub use bodies::error_json;
pub use errors::{ServerError, code_of, reason_of, status};
