// Runs of recorded calls, and the laws of every run.
#![tactic(auto)]

mod outcome;
mod running;

pub use outcome::{Fault, NotRun, Run};
pub use running::run;
