//! A base, its PDB and the deltas that were accepted after it, as one value: what a debugger, a hot reload host and
//! a profiler hold of a module.
#![tactic(auto)]

mod chain;
mod joined;
mod prepared;

pub use chain::{Chain, OpenFault, read_pdb};
pub use joined::{Generation, Joined};
pub use prepared::Prepared;
