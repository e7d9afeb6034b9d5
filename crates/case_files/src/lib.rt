//! Case files: rows of a readable form, the runs that each row asks for, and a report of what came
//! otherwise than its row says. What a row is run over is the caller's.
#![tactic(auto)]

mod adding;
mod comparing;
mod fault;
mod judging;
mod names;
mod numbers;
mod outcomes;
mod quoting;
mod reading;
mod reporting;
mod requests;
mod rows;
mod settings;
mod trials;
mod words;

pub use fault::LineFault;
pub use outcomes::{Facts, Outcome};
pub use quoting::{quoted, read_quoted};
pub use reporting::Report;
pub use rows::{Call, Row, Scenario};
pub use settings::Device;
pub use trials::{Trial, trials_of};
