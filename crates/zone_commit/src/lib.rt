//! A zone that is kept, and not its commits: its records, the counts of puts, and the links between
//! records, in ordered maps. A commit costs what it writes, times a logarithm.
#![tactic(auto)]

mod contents;
mod counts;
mod indexed;
mod links;
mod zone;

pub use zone::Zone;
