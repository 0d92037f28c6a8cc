/// What stands behind an instruction's code (ECMA-335 III.1.9).
#[derive(Clone, Copy, Debug, PartialEq, Eq)]
pub enum Operand {
    None,
    /// A signed number of one byte.
    I8,
    /// An unsigned number of one byte.
    U8,
    /// An unsigned number of two bytes.
    U16,
    /// A signed number of four bytes.
    I32,
    /// A signed number of eight bytes.
    I64,
    /// A float of four bytes.
    R4,
    /// A float of eight bytes.
    R8,
    /// A signed distance of one byte from the end of the instruction, in bytes.
    Branch8,
    /// A signed distance of four bytes from the end of the instruction, in bytes.
    Branch32,
    /// A count of four bytes, and as many distances of four bytes each.
    Switch,
    /// A metadata token.
    Token,
    /// A token of a user string.
    User,
}

/// A CIL instruction without its operand.
#[derive(Clone, Copy, Debug, PartialEq, Eq)]
pub struct Op {
    /// The code: one byte, or 0xFE00 plus the second byte where the first is 0xFE.
    pub byte: u16,
    pub operand: Operand,
}
