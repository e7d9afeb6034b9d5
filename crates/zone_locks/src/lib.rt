//! A lock round a value that stands for a growing list. Whoever takes the value waits for a ticket's
//! turn, finds the list continued from what they had seen, and gives it back never shorter.
#![tactic(auto)]

mod grows;
mod lock;
mod pass;
mod rule;
mod steps;

pub use grows::Grows;
pub use lock::ZoneLock;
pub use pass::{Held, Pass};
