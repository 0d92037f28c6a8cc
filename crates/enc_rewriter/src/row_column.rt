//! A column of a row.
use enc_base::Token;
use enc_schema::Column;

/// A column of a row: which row it is, the column's number, and what stands there (ECMA-335 II.22).
#[derive(Clone, Copy)]
pub(crate) struct RowColumn {
    pub(crate) row: Token,
    pub(crate) i: u8,
    pub(crate) column: Column,
}
