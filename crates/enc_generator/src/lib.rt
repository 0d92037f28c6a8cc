//! A case that is drawn from a number: a base, and edit lists that follow it.
#![tactic(auto)]

mod base;
mod case;
mod draw;
mod edits;
mod laws;
mod lists;

pub use case::{Case, make_case};
pub use laws::{case_laws, generated_laws};
pub use lists::EditLists;
