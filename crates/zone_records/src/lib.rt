//! What tells one zone, whose commits need not be kept: `Records`; and the parts that those who meet it
//! share.
#![tactic(auto)]

mod records;
mod subscriptions;

pub use records::Records;
pub use subscriptions::{copy_subscription, drop_subscription, set_subscription};
