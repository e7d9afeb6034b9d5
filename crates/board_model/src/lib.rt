//! What one lock is asked and what it answers, as plain data, and in `specs/` what an ask is given
//! to see, what it answers and what it makes.
#![tactic(auto)]

mod answers;
mod parts;

pub use answers::{Answer, Answered};
pub use parts::{Part, Word};
