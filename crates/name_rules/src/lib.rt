//! Rules that speak of names alone, in `specs/`: lists of names, which name stands above which, and
//! which entries of changed names are live and listed. `proofs/` has their lemmas.
#![tactic(auto)]
