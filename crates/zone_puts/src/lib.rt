//! The records that the puts of a request write. No program stands on it yet.
#![tactic(auto)]

mod fields;
mod participants;
mod records;
mod shares;
mod stamps;

pub use fields::after_wishes;
pub use participants::rewritten;
pub use records::{changed_record, new_record, written_over};
pub use shares::{body_after, body_without, first_share, new_body, share_after};
pub use stamps::{final_record, stamped, write_as};
