//! The interpreter's values, what instructions on values alone give, and the store of objects (ECMA-335 I.8,
//! III.1.1, III.3).
#![tactic(auto)]

mod arithmetic;
mod comparisons;
mod contents;
mod conversion;
mod fields;
mod instructions;
mod kind;
mod laws;
mod number;
mod object;
mod objects;
mod operation;
mod shape;
mod shifts;
mod stored;
mod table;
mod trap;
mod value;

pub use instructions::{binary, convert, is_binary, is_unary};
pub use kind::Kind;
pub use laws::{instruction_laws, kind_laws, store_laws};
pub use objects::{MakeFault, Objects};
pub use shape::Shape;
pub use trap::Trap;
pub use value::Value;
