//! Copying several files out into buffers of the caller's, all or none.
ghost use Rattle.std.specs.Prelude.{◌≡◌, ◌≤◌, ◌++◌, length, drop};
ghost use Rattle.enc_c.specs.Status.{number_of_status};
ghost use Rattle.enc_c.specs.Saved.{all_room, both_room, status_if, written_if};

use crate::status::Status;

/// Copies items to the front of a buffer.
fn write_front<T: Copy>(items: &[T], buffer: &mut [T])
    requires { length items.now ≤ length buffer.old }
    ensures { buffer.new ≡ items.now ++ drop (length items.now) buffer.old }
{
    buffer[..items.len()].copy_from_slice(items);
}

/// Copies two files, or none where a buffer is too short.
pub fn copy_two(first: &[u8], second: &[u8], to_first: &mut [u8], to_second: &mut [u8]) -> u32
    ensures status { result ≡ number_of_status (status_if (both_room first.now second.now to_first.old to_second.old)) }
    ensures first { to_first.new ≡ written_if
        (both_room first.now second.now to_first.old to_second.old) first.now to_first.old }
    ensures second { to_second.new
        ≡ written_if (both_room first.now second.now to_first.old to_second.old) second.now to_second.old }
{
    if first.len() > to_first.len() || second.len() > to_second.len() {
        return Status::Short.number();
    }
    write_front(first, to_first);
    write_front(second, to_second);
    Status::Done.number()
}

/// Three files, the third of bytes or of other items.
pub struct Three<'a, T> {
    pub first: &'a [u8],
    pub second: &'a [u8],
    pub third: &'a [T],
}

/// Copies three files, or none where a buffer is too short.
pub fn copy_three<T: Copy>(
    files: Three<'_, T>,
    to_first: &mut [u8],
    to_second: &mut [u8],
    to_third: &mut [T],
) -> u32
    ensures status { result ≡ number_of_status
        (status_if (all_room files.entry.first.now files.entry.second.now files.entry.third.now
        to_first.old to_second.old to_third.old)) }
    ensures first { to_first.new ≡ written_if
        (all_room files.entry.first.now files.entry.second.now files.entry.third.now
        to_first.old to_second.old to_third.old) files.entry.first.now to_first.old }
    ensures second { to_second.new
        ≡ written_if (all_room files.entry.first.now files.entry.second.now files.entry.third.now
        to_first.old to_second.old to_third.old) files.entry.second.now to_second.old }
    ensures third { to_third.new ≡ written_if
        (all_room files.entry.first.now files.entry.second.now files.entry.third.now
        to_first.old to_second.old to_third.old) files.entry.third.now to_third.old }
{
    let Three {
        first,
        second,
        third,
    } = files;
    if first.len() > to_first.len()
        || second.len() > to_second.len()
        || third.len() > to_third.len()
    {
        return Status::Short.number();
    }
    write_front(first, to_first);
    write_front(second, to_second);
    write_front(third, to_third);
    Status::Done.number()
}
