//! The code of stated instructions, as bytes (ECMA-335 III.1.2, III.1.9).
#![tactic(auto)]

mod code;
mod instr;
mod laws;

pub use code::assemble;
pub use laws::assembled_law;
