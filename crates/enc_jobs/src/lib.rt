//! Edit lists and scripts as JSON.
#![tactic(auto)]

mod body;
mod cell;
mod clause;
mod code;
mod command;
mod edit;
mod fault;
mod instr;
mod laws;
mod list;
mod name;
mod point;
mod remap;
mod script;
mod value;

pub use command::{Command, Script};
pub use fault::JobFault;
pub use laws::{form_law, points_law, script_laws, target_laws};
pub use list::read_edits;
pub use name::is_name;
pub use script::read_script;
