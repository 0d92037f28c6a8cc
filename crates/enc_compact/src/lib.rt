//! The edited program as one ordinary module: its rows in the order that loaders expect, and each token
//! moved with its row (ECMA-335 II.22).
#![tactic(auto)]

mod bodies;
mod compacted;
mod laws;
mod module;
mod mover;
mod moves;
mod points;
mod signatures;
mod slots;

pub use compacted::{Compacted, compact};
pub use enc_row_order::Order;
pub use laws::compact_laws;
pub use module::MovedModule;
pub use moves::moved_rows;
pub use points::PlainPoints;
