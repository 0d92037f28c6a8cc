//! What a written table stream means, each as the contract of a function that does nothing.
ghost use Rattle.enc_rows.specs.Written.{StreamIsRead, CellsAreRead, HeapBitsFit};

/// What `TableBuilder::finish` writes is read with the numbers of rows, the widths and the heap
/// bits that it was written with, in each form that allows its tables.
pub fn stream_law()
    ensures { StreamIsRead }
{}

/// And each number of each row is read back in its cell.
pub fn cells_law()
    ensures { CellsAreRead }
{}

/// With the heap bits that they ask for, all numbers fit, where those that name no heap do.
pub fn heap_bits_law()
    ensures { HeapBitsFit }
{}
