//! The rules of zones at worked examples: each row of `proofs/` is a fact that computes. No other
//! crate stands on this one.
#![tactic(auto)]
