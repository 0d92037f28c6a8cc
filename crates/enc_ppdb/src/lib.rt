//! Portable PDBs: the documents of a module and the sequence points of its methods (Portable PDB
//! v1.0).
#![tactic(auto)]

mod chain;
mod debug_row;
mod ends;
mod fault;
mod file;
mod hash;
mod laws;
mod methods;
mod misplaced;
mod named;
mod outer;
mod parts;
mod pdb;
mod sizes;
mod told;
mod write;
mod writer;

pub use chain::{EarlierPdb, PdbChain};
pub use enc_generation_map::Listings;
pub use hash::{SHA_256, source_hash};
pub use laws::pdb_means_law;
pub use methods::MethodList;
pub use parts::{PdbParts, pdb_parts};
pub use pdb::{Pdb, PdbDelta};
pub use sizes::CodeSizes;
pub use write::write_pdb;
