//! What the boards that are built may be asked to create, and what that comes to: definitions in
//! `specs/` that serve only today's program, so that the rules of zones speak of none of them.
#![tactic(auto)]
