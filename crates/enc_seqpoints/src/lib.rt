//! Sequence points: what the blob of a method's debug information says, and how it is spelled
//! (Portable PDB v1.0, Sequence Points Blob).
#![tactic(auto)]

mod base;
mod laws;
mod number;
mod point;
mod points;
mod read;
mod write;

pub use laws::{example_law, point_laws};
pub use point::{Point, PointFault, WriteFault};
pub use points::Points;
pub use read::read_points;
pub use write::write_points;
