//! The table stream: its rows, and the number that stands in a cell (ECMA-335 II.24.2.6).
#![tactic(auto)]

mod builder;
mod children;
mod columns;
mod faults;
mod form;
mod header;
mod laws;
mod owners;
mod row;
mod tables;
mod wide;
mod written;

pub use builder::TableBuilder;
pub use form::Form;
pub use laws::{cells_law, heap_bits_law, stream_law};
pub use tables::Tables;
