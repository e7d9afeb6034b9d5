//! The HTTP side of a connection: whole requests from a source of bytes, in whatever pieces it gives
//! them, what they ask for and who asks, and replies.
#![tactic(auto)]

mod buffer;
mod caller;
mod cuts;
mod faults;
mod fields;
mod head;
mod laws;
mod look;
mod query;
mod reading;
mod reply;
mod request;
mod route;
mod scan;
mod users;

pub use buffer::Buffer;
pub use caller::{CallerFault, caller_of};
pub use faults::FrontFault;
pub use laws::{bytes_have_one_reading, routes_are_spelled_paths};
pub use query::query_item;
pub use reading::read_request;
pub use reply::{WriteFault, write_reply};
pub use request::Request;
pub use route::{RouteFault, Routes, route_of};
pub use users::{Users, UsersFault, read_users};
