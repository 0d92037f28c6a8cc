/// The number of rows of each table, by the table's number.
#[derive(Clone, Copy, Debug, PartialEq, Eq)]
pub struct Counts {
    pub rows: [u32; 64],
}
