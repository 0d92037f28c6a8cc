use crate::kind::Kind;
use enc_base::Token;

/// What an object is.
#[derive(Clone, Copy, Debug, PartialEq, Eq)]
pub enum Shape {
    /// An instance of a class, by the class's token.
    Object(Token),
    /// An array: the kind of its elements, and how many there are.
    Array(Kind, u32),
    /// A text: how many UTF-16 units it has.
    Text(u32),
}
