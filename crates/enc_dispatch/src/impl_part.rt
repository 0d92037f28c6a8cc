//! What the index keeps of a row of MethodImpl.

/// A row of MethodImpl that gives a class a MethodDef for another (ECMA-335 II.22.27).
#[derive(Clone, Copy, Debug, PartialEq, Eq)]
pub struct ImplPart {
    /// The number of the row, from 0.
    pub number: u32,
    /// The row of MethodDef that it gives.
    pub body: u32,
}
