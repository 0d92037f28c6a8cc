//! The files that a command saves: their names, and in which order those of a module and of a delta are saved.
#![tactic(auto)]

mod name;
mod save;

pub use name::name_of;
pub use save::{Save, push_delta, push_module};
