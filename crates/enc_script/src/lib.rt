//! Runs of scripts: the commands of a script over a session, and the lines that they print.
#![tactic(auto)]

mod files;
mod lines;
mod running;
mod steps;
mod whole;

pub use files::NamedDelta;
pub use whole::run;
