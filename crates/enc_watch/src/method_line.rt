//! A line of the source of a method, as a key.
use enc_base::Token;

/// A line of the source of a method. Lines of methods go by the method's token, then by the line.
#[derive(Clone, Copy, Debug, PartialEq, Eq, PartialOrd, Ord)]
pub(crate) struct MethodLine {
    pub(crate) method: Token,
    pub(crate) line: u32,
}
