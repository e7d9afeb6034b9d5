//! The command line of `ckd`, over the devices that it is handed.
#![tactic(auto)]

mod arguments;
mod command;
mod endings;
mod run;

pub use command::{dispatch, end_with};
pub use endings::Ending;
pub use run::run_command;
