//! The container of a module, a .NET image or bare metadata: where its parts stand in the file.
#![tactic(auto)]

mod cli;
mod container;
mod directory;
mod headers;
mod laws;
mod loaded_file;
mod pushes;
mod reach;
mod section;
mod sections;
mod write;

pub use container::{Container, at_rva, from_rva, read_pe};
pub use laws::{bare_law, image_law, range_law, written_image_law};
pub use loaded_file::LoadedFile;
pub use sections::Sections;
pub use write::{CODE_RVA, PeFault, write_pe};
