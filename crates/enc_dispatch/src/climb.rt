//! A climb over the path of a class.
use enc_base::Token;

/// Where a climb over a path stands, and how many classes it may still meet, with this one.
#[derive(Clone, Copy, Debug, PartialEq, Eq)]
pub(crate) struct Climb {
    /// The class where it stands.
    pub class: Token,
    /// How many classes it may still meet.
    pub left: u32,
}
