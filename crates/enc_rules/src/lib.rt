//! Which rule an edit list breaks first after a chain, and the rows and heaps after it.
#![tactic(auto)]

mod bodies;
mod cells;
mod context;
mod first;
mod heaps;
mod instructions;
mod members;
mod order;
mod owners;
mod points;
mod rows;
mod signatures;
mod sums;
mod whole;

pub use context::{Context, ListRows};
pub use first::first_broken;
pub use heaps::heaps_of;
pub use points::points_given;
pub use rows::context_of;
pub use signatures::body_given;
