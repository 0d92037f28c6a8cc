//! What the index keeps of each class.
use enc_base::Token;

/// Of a class what it extends, and whether it is an interface (ECMA-335 II.22.37).
#[derive(Clone, Copy, Debug, PartialEq, Eq)]
pub struct ClassPart {
    /// What the class extends.
    pub base: Token,
    /// It is an interface.
    pub is_interface: bool,
}
