//! The laws of what a lock is asked: what its answers and commits are by the rules of zones, and what
//! an answer may depend on. Each is the clause of a small function of `laws`, which does nothing; no
//! crate but rows stands on this one.
#![tactic(auto)]

mod laws;

pub use laws::{
    answers_are_told, asks_stay_legal, commits_are_made, failures_are_told, made_where_told,
    names_are_drawn, sights_are_told, sights_decide,
};
