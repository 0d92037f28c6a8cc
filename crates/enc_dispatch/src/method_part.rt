//! What the index keeps of each method.
use enc_base::Token;

/// Of a method the type that declares it, and the slot that it shares with the methods of equal
/// name and alike signature: the row of the first of them.
#[derive(Clone, Copy, Debug, PartialEq, Eq)]
pub struct MethodPart {
    /// The type that declares the method.
    pub owner: Token,
    /// The row of the first method of the slot.
    pub slot: u32,
}
