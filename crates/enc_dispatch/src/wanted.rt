//! Which methods of a class are meant.

/// Which of a class's methods an index has.
#[derive(Clone, Copy, Debug, PartialEq, Eq)]
pub(crate) enum Wanted {
    /// The virtual ones.
    Virtual,
    /// Of those the public ones: they alone meet a method of an interface.
    Public,
}
