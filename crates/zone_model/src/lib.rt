//! The rules of zones: operations, commits, pages and events as plain data, and in `specs/` what a
//! zone holds after commits, what a user sees of it, how requests are judged, and what they do.
#![tactic(auto)]

mod commits;
mod events;
mod operations;
mod outcomes;
mod pages;

pub use commits::{Act, Commit, Commits, Write, Writes};
pub use events::{Event, Origin};
pub use operations::{Op, OpKind, Ops, Past, Pasts};
pub use outcomes::{Modified, OpFault, Outcome, Outcomes};
pub use pages::{Item, PageItems, ZonePage};
