//! What instructions on values alone do, apart from their codes.

use crate::kind::Kind;

/// How many bytes an integer on the stack has (ECMA-335 III.1.1.1).
#[derive(Clone, Copy, Debug, PartialEq, Eq)]
pub(crate) enum Size {
    Four,
    Eight,
}

/// On two integers of one size, which give a third (ECMA-335 III.1.5, tables 2, 5 and 7).
#[derive(Clone, Copy, Debug, PartialEq, Eq)]
pub(crate) enum Arithmetic {
    Add,
    Sub,
    Mul,
    Div,
    DivUn,
    Rem,
    RemUn,
    And,
    Or,
    Xor,
    AddOvf,
    AddOvfUn,
    MulOvf,
    MulOvfUn,
    SubOvf,
    SubOvfUn,
}

/// On an integer and the number of places by which its bits move (ECMA-335 III.1.5, table 6).
#[derive(Clone, Copy, Debug, PartialEq, Eq)]
pub(crate) enum Shift {
    Shl,
    Shr,
    ShrUn,
}

/// On two integers of one size or two references, which give 1 or 0 (ECMA-335 III.1.5, table 4).
#[derive(Clone, Copy, Debug, PartialEq, Eq)]
pub(crate) enum Comparison {
    Ceq,
    Cgt,
    CgtUn,
    Clt,
    CltUn,
}

/// On two values.
#[derive(Clone, Copy, Debug, PartialEq, Eq)]
pub(crate) enum Binary {
    Calculates(Arithmetic),
    Shifts(Shift),
    Compares(Comparison),
}

/// On one value (ECMA-335 III.1.5, tables 3, 5 and 8).
#[derive(Clone, Copy, Debug, PartialEq, Eq)]
pub(crate) enum Unary {
    Neg,
    Not,
    /// To the kind, by dropping the bits above.
    Conv(Kind),
    /// To the kind, where it has the number.
    ConvOvf(Kind),
    /// The same, the integer without its sign.
    ConvOvfUn(Kind),
}
