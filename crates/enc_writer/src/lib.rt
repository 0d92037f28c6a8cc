//! The delta of an edit list: its metadata, its code and its PDB.
#![tactic(auto)]

mod bodies;
mod edit;
mod fault;
mod guids;
mod heaps;
mod kept;
mod laws;
mod log;
mod map;
mod module_row;
mod numbers;
mod rows;
mod tables;
mod write;

pub use fault::EditFault;
pub use write::write_delta;
