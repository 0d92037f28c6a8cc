//! How deep references lie in one another, and what lasts where they don't lie too deep.
#![tactic(auto)]

mod deep;
mod depths;
mod edges;
mod laws;

pub use deep::first_deep;
pub use laws::{
    kept_by_both_law, layouts_last_law, slots_last_law, twins_are_mutual_law, twins_last_law,
};
