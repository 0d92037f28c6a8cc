//! A frame that is under way goes on in the newest body of its method, as a debugger asks for behind an edit at a
//! breakpoint.
#![tactic(auto)]

mod asked;
mod goal;
mod kinds;
mod laws;
mod moving;
mod remapped;

pub use asked::{Edition, Standing, may_remap};
pub use laws::{newest_law, some_pdb_law};
pub use moving::remap;
pub use remapped::Remapped;
