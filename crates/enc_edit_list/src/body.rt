//! Bodies by their values (ECMA-335 II.25.4).
use crate::list::ListOf;
use enc_base::{Bytes, Token, Units};
use enc_opcodes::{Clause, Op};

/// What stands behind an instruction's code.
#[derive(Drop)]
pub enum ArgValue {
    None,
    /// A whole number.
    Num(i64),
    /// The offset of the branch's target from the beginning of the code, in bytes.
    Target(u32),
    /// The offsets of a `switch`.
    Targets(TargetList),
    Token(Token),
    /// The UTF-16 units of a user string.
    User(Units),
    /// The bytes of a float.
    Raw(Bytes),
}

/// An instruction.
#[derive(Drop)]
pub struct InstrValue {
    pub op: Op,
    pub arg: ArgValue,
}

/// The offsets of a `switch`.
pub type TargetList = ListOf<u32>;

/// The instructions of a body, in order.
pub type InstrList = ListOf<InstrValue>;

/// The exception clauses of a body, in order.
pub type ClauseList = ListOf<Clause>;

/// A body.
#[derive(Drop)]
pub struct BodyValue {
    /// The most values on the stack.
    pub max: u16,
    /// Whether locals begin as zeros.
    pub init: bool,
    /// The StandAloneSig row of the locals, row 0 where there are none.
    pub locals: Token,
    pub code: InstrList,
    pub clauses: ClauseList,
}
