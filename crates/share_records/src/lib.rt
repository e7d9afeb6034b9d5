//! Shares of records: what they let their participants do, and who these are.
#![tactic(auto)]

mod laws;
mod participant;
mod permission;
mod share;

pub use laws::permissions_are_ordered;
pub use participant::{PartKind, Participant, Participants, Wanted};
pub use permission::Permission;
pub use share::Share;
