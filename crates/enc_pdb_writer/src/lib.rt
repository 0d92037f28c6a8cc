//! The Portable PDB of a delta: the points that an edit list gives its methods, or what is known of some methods.
#![tactic(auto)]

mod documents;
mod edits;
mod laws;
mod methods;
mod names;
mod points;
mod write;

pub use laws::{none_is_misplaced_law, pdbs_are_edited_law};
pub use methods::write_methods;
pub use write::write_pdb_delta;
