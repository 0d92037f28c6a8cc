//! What follows a type's first byte.

/// What follows a type's first byte (ECMA-335 II.23.2.12).
#[derive(Clone, Copy, Debug, PartialEq, Eq)]
pub enum TypeForm {
    /// Nothing.
    Bare,
    /// A type.
    Wrapped,
    /// A token.
    Named,
    /// A token and a type.
    Modified,
    /// A number.
    Numbered,
    /// A type, a rank, sizes and lower bounds.
    Array,
    /// `11` or `12`, a token and types.
    Instance,
    /// The signature of a method.
    Pointer,
}

/// Which numbers of an array are meant.
#[derive(Clone, Copy, Debug, PartialEq, Eq)]
pub enum Numeral {
    Size,
    Bound,
}
