use crate::op::Op;
use enc_base::Token;

/// An instruction's operand as its code has it.
#[derive(Clone, Copy, Debug, PartialEq, Eq)]
pub enum Arg<'a> {
    None,
    /// A whole number.
    Num(i64),
    /// The offset of the branch's target from the beginning of the code, in bytes.
    Target(u32),
    /// The distances of a `switch`, four bytes each.
    Targets(&'a [u8]),
    Token(Token),
    /// The offset of the user string in its heap.
    User(u32),
    /// The bytes of a float.
    Raw(&'a [u8]),
}

/// An instruction with its operand.
#[derive(Clone, Copy, Debug, PartialEq, Eq)]
pub struct Instr<'a> {
    pub op: Op,
    pub arg: Arg<'a>,
}

/// A method body where it stands (ECMA-335 II.25.4).
#[derive(Clone, Copy, Debug, PartialEq, Eq)]
pub struct CodeRef<'a> {
    /// The most values on the stack.
    pub max: u16,
    /// Whether locals begin as zeros.
    pub init: bool,
    /// The StandAloneSig row of the locals, row 0 where there are none.
    pub locals: Token,
    pub code: &'a [u8],
    /// The data sections behind the code.
    pub sections: &'a [u8],
}

/// An exception clause (ECMA-335 II.25.4.6), its ranges by their ends.
#[derive(Clone, Copy, Debug, PartialEq, Eq)]
pub struct Clause {
    /// 0 catch, 1 filter, 2 finally, 4 fault.
    pub kind: u32,
    /// The offsets of the protected code's first byte and of the byte past its last.
    pub tries: (u32, u32),
    /// The offsets of the handler's first byte and of the byte past its last.
    pub handler: (u32, u32),
    /// The token of the class of a catch, or the offset of a filter.
    pub extra: u32,
}
