//! The top call: words, a store and a sink in; a status out.
#![tactic(auto)]

mod commands;
mod ending;
mod finish;
mod halt;
mod judge;
mod laws;
mod load;
mod plan;
mod plans;
mod run;

pub use enc_command_line::listing;
pub use enc_plain::RowPlace;
pub use enc_text::row_text;
pub use laws::{example_delta_row, example_listing, example_row, served_law};
pub use run::run_tool;
