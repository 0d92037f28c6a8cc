//! Where a row stands among generations.

/// Where a row stands: its generation, 0 for the base, and its position there from 1.
#[derive(Clone, Copy, Debug, PartialEq, Eq)]
pub struct RowPlace {
    pub generation: u32,
    pub row: u32,
}
