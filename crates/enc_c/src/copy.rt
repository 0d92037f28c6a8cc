//! Copying out into a buffer of the caller's.
ghost use Rattle.std.specs.Prelude.{◌≡◌};
ghost use Rattle.enc_c.specs.Copied.{IsCopiedOut, Copies};
ghost use Rattle.enc_c.specs.Cells.{lent};
ghost use Rattle.enc_c.specs.Family.{items_listed};

use crate::status::Status;

/// Copies all items into a buffer, or none where it is too short; how many there are is told in any case.
#[tactic(auto, unfolding(crate::specs::Copied::copied, crate::specs::Copied::status_of_copy))]
pub fn copy_out<T: Copy>(items: &[T], buffer: &mut [T], size: &mut usize) -> u32
    ensures { IsCopiedOut result buffer.old buffer.new size.new items.now }
{
    *size = items.len();
    if items.len() > buffer.len() {
        return Status::Short.number();
    }
    buffer[..items.len()].copy_from_slice(items);
    Status::Done.number()
}

/// Copies bytes, or tells why there are none.
pub fn copy_bytes(answer: Result<&[u8], Status>, buffer: &mut [u8], size: &mut usize) -> u32
    ensures { Copies result buffer.old buffer.new size.old size.new (lent answer.entry) }
{
    match answer {
        Ok(bytes) => copy_out(bytes, buffer, size),
        Err(status) => status.number(),
    }
}

/// Copies the bytes of a GUID, or tells why there are none.
pub fn copy_guid(answer: Result<[u8; 16], Status>, buffer: &mut [u8], size: &mut usize) -> u32
    ensures { Copies result buffer.old buffer.new size.old size.new answer }
{
    match answer {
        Ok(bytes) => copy_out(&bytes, buffer, size),
        Err(status) => status.number(),
    }
}

/// Copies items, or tells why there are none.
pub fn copy_items<T: Copy>(
    answer: Result<Vec<T>, Status>,
    buffer: &mut [T],
    size: &mut usize,
) -> u32
    ensures { Copies result buffer.old buffer.new size.old size.new (items_listed answer) }
{
    match answer {
        Ok(items) => copy_out(&items, buffer, size),
        Err(status) => status.number(),
    }
}
