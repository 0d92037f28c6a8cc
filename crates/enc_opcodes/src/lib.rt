//! The instructions of method bodies: their codes, names and operands (ECMA-335 III).
#![tactic(auto)]

mod code;
mod laws;
mod lookup;
mod op;
mod table;

pub use code::{Arg, Clause, CodeRef, Instr};
pub use laws::{code_laws, example_body, name_laws, target_law};
pub use lookup::{op_from, op_name, op_of};
pub use op::{Op, Operand};
