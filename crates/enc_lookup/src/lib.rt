//! Types and members by their names.
#![tactic(auto)]

mod members;
mod types;

pub use members::members_named;
pub use types::type_named;
