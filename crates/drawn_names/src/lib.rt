//! What random words are drawn for: the names of records that a request creates without one, and the
//! GUIDs of the shares that it begins.
#![tactic(auto)]

mod drawing;
mod kind;
mod naming;

pub use drawing::{draws_name, words_drawn, words_for};
pub use kind::is_deletion;
pub use naming::{name_for, name_of_word, names_of};
