//! Which rows the tokens of a signature may name.

use enc_base::Counts;

/// Which rows a token may name.
#[derive(Clone, Copy)]
pub(crate) enum RowTest<'a> {
    /// Any.
    Any,
    /// Those that there are, where each table has so many.
    Within(&'a Counts),
}
