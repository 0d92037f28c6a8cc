//! Thrown objects.
use enc_base::Token;

/// What a thrown object is.
#[derive(Clone, Copy, Debug, PartialEq, Eq)]
pub enum Thrown {
    /// An object of a class, a row of TypeDef or TypeRef.
    Class(Token),
    /// A text.
    Text,
    /// An array.
    Array,
}
