//! The board of one thread: the events of each lock, and the asks that are answered at them.
#![tactic(auto)]

mod board;
mod create;
mod find;
mod solo;
mod stripe;

pub use board::{AskFault, Board};
pub use solo::Solo;
