//! The calls that tell of a generation: the lengths of its own heaps, how many rows a table had after it, and the
//! tokens that it lists.
ghost use Rattle.std.specs.Prelude.{◌≡◌};
ghost use Rattle.enc_c.specs.Asked.{of_open};
ghost use Rattle.enc_c.specs.Copied.{CopiesOrStays};
ghost use Rattle.enc_c.specs.History.{asked_count_at, asked_entries, asked_lengths};
ghost use Rattle.enc_c.specs.Status.{TellsValue};

use crate::copy::copy_items;
use crate::handle::{Handle, put, take};
use crate::history::{EntryNumbers, LengthNumbers};
use crate::status::{Status, tell};
use std::alloc::Global;

/// Tells how many bytes count in a generation's own heaps.
#[unsafe(no_mangle)]
pub extern "C" fn enc_lengths(
    alloc: Global,
    handle: &mut Handle,
    generation: u32,
    lengths: &mut LengthNumbers,
) -> u32
    ensures kept { handle.new.held ≡ handle.old.held }
    ensures answer { TellsValue result lengths.old lengths.new
        (of_open handle.old.held (λ s. asked_lengths s generation)) }
{
    let Some(held) = take(handle, alloc) else {
        return Status::Closed.number();
    };
    let answer = held.lengths(generation);
    put(handle, alloc, held);
    tell(answer, lengths)
}

/// Tells how many rows a table had after the first so many deltas.
#[unsafe(no_mangle)]
pub extern "C" fn enc_count_at(
    alloc: Global,
    handle: &mut Handle,
    generation: u32,
    table: u8,
    count: &mut u32,
) -> u32
    ensures kept { handle.new.held ≡ handle.old.held }
    ensures answer { TellsValue result count.old count.new
        (of_open handle.old.held (λ s. asked_count_at s generation table)) }
{
    let Some(held) = take(handle, alloc) else {
        return Status::Closed.number();
    };
    let answer = held.count_at(generation, table);
    put(handle, alloc, held);
    tell(answer, count)
}

/// Copies the tokens of a generation's EncMap, each inserted or updated; the base has none.
#[unsafe(no_mangle)]
pub extern "C" fn enc_entries(
    alloc: Global,
    handle: &mut Handle,
    generation: u32,
    buffer: &mut [EntryNumbers],
    size: &mut usize,
) -> u32
    ensures kept { handle.new.held ≡ handle.old.held }
    ensures answer { CopiesOrStays result buffer.old buffer.new size.old size.new
        (of_open handle.old.held (λ s. asked_entries s generation)) }
{
    let Some(held) = take(handle, alloc) else {
        return Status::Closed.number();
    };
    let status = copy_items(held.entries(alloc, generation), buffer, size);
    put(handle, alloc, held);
    status
}
