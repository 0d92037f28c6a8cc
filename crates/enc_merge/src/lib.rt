//! The delta that stands for the last two deltas of a chain.
#![tactic(auto)]

mod fault;
mod heaps;
mod last;
mod laws;
mod lists;
mod merge;
mod metadata;
mod methods;
mod module_row;
mod pdb;
mod points;
mod rows;

pub use fault::MergeFault;
pub use laws::short_law;
pub use merge::merge_last;
