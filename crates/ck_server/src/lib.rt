//! The server of record calls over one connection.
#![tactic(auto)]

mod asking;
mod built;
mod conversation;
mod drawing;
mod replies;
mod sending;
mod serving;
mod want;

pub use conversation::converse;
pub use talk_model::{At, End, Mark, Talk, TalkFault, TalkFaultKind};
