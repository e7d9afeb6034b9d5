//! What a conversation over one connection is: its marks and its ends as plain data, and in `specs/`
//! which bytes are requests, what they mean, and what is written for them.
#![tactic(auto)]

mod ends;
mod laws;
mod marks;
mod wants;

pub use ends::{End, Talk, TalkFault, TalkFaultKind};
pub use laws::{bytes_have_one_reading, posts_have_bodies, whole_connections_end_well};
pub use marks::{At, Mark};
pub use wants::{Sender, Want};
