//! Modules and their PDBs written from scratch: the heaps of a module's values, its bodies, its rows, and
//! the image.
#![tactic(auto)]

mod bodies;
mod code;
mod distinct;
mod fault;
mod fields;
mod gathering;
mod kept;
mod laws;
mod module_values;
mod numbers;
mod parts;
mod pass;
mod placed;
mod ptrs;
mod references;
mod row_column;
mod rows;
mod runs;
mod users;
mod weight;
mod written;

pub use fault::RewriteFault;
pub use laws::image_means_law;
pub use written::{Rewritten, rewrite};
