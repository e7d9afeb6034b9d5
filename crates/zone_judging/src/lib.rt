//! Judging a request on a zone, over whatever tells what the caller sees of it, and which names go with
//! those that it deletes. No program stands on it yet.
#![tactic(auto)]

mod ancestors;
mod cascade;
mod dangling;
mod deletions;
mod form;
mod held;
mod judging;
mod kinds;
mod looks;
mod meets;
mod names;
mod permits;
mod puts;
mod references;
mod request;
mod sees;
mod tags;
mod taken;
mod ties;
mod wishes;
mod working;
mod working_references;
mod writable;

pub use cascade::removed_names;
pub use deletions::fault_of_deletion;
pub use judging::judge;
pub use kinds::{drops_fields, has_share_type, is_create, makes_new, new_parent, root_given};
pub use puts::fault_of_put;
pub use request::{Grounds, NamedOp};
pub use sees::Sees;
pub use ties::Tie;
