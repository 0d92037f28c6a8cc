//! What the index keeps of a class's own virtual method.

/// A virtual method of a class.
#[derive(Clone, Copy, Debug, PartialEq, Eq)]
pub struct OwnMethod {
    /// Its row of MethodDef.
    pub row: u32,
    /// It has a slot of its own (ECMA-335 II.23.1.10).
    pub is_new_slot: bool,
}
