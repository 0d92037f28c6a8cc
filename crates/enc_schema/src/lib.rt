//! The metadata tables as data: columns, names, widths and codings (ECMA-335 II.22, II.24.2.6,
//! Portable PDB).
#![tactic(auto)]

mod children;
mod coding;
mod column;
pub mod columns;
mod laws;
mod names;
mod schema;
mod widths;

pub use children::{is_child_table, owner_table, ptr_table, run_column, run_index, runs_of};
pub use coding::{decode_coded, encode_coded};
pub use column::{Coding, Column};
pub use laws::{child_laws, coding_laws, table_laws};
pub use names::{column_name, table_name};
pub use schema::{column_of, columns_of};
pub use widths::{Widths, widths_of};
