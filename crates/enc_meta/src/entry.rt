//! What stands at an offset of one heap (ECMA-335 II.24.2.3, II.24.2.4).
ghost use Rattle.std.specs.Prelude.{◌≡◌, ℕ, ◌+◌, ◌*◌, ◌<◌, ◌≤◌, ◌^◌, ◌==◌, option_map, length, position, IfSome};
ghost use Rattle.std.specs.Option.{option_copied};
ghost use Rattle.enc_meta.specs.Root.{before_zero};
ghost use Rattle.enc_meta.specs.Heaps.{blob_entry, units_in, user_at, user_entry, sixteen_at};

use enc_base::read_unsigned;
use memchr::memchr;

/// The place of the first zero.
#[tactic(auto, using(crate::proofs::FirstPlace::first_place))]
fn zero_at(bytes: &[u8]) -> Option<usize>
    ensures place { result ≡ position (λ b. b == 0) bytes.now }
    ensures within { IfSome result (λ i. i < length bytes.now) }
{
    memchr(0, bytes)
}

/// The bytes before the first zero, None where there is no zero.
#[tactic(auto, using(crate::proofs::Bytes::before_zero_is))]
pub fn before_zero(bytes: &[u8]) -> Option<&[u8]>
    ensures text { option_copied result ≡ before_zero bytes.now }
    ensures within { IfSome result (λ r. length r.now < length bytes.now) }
{
    match zero_at(bytes) {
        None => None,
        Some(end) => Some(&bytes[..end]),
    }
}

/// The bytes at an offset behind their compressed length, None where they don't stand whole there.
#[tactic(auto, unfolding(crate::specs::Heaps::blob_entry))]
pub fn bytes_at(heap: &[u8], offset: usize) -> Option<&[u8]>
    ensures { option_copied result ≡ blob_entry heap.now offset }
{
    let (len, start) = read_unsigned(heap, offset)?;
    heap.get(start..start + len as usize)
}

/// The bytes of the UTF-16 units of a user text, without the byte behind them.
#[tactic(auto, unfolding(crate::specs::Heaps::units_in))]
pub fn units_in(entry: &[u8]) -> Option<&[u8]>
    ensures { option_copied result ≡ units_in entry.now }
{
    match entry {
        [] => Some(entry),
        [units @ .., _] if units.len() % 2 == 0 => Some(units),
        _ => None,
    }
}

/// The bytes of the UTF-16 units at an offset of a `#US`, without their length and the byte behind
/// them: empty at offset 0, None where they don't stand whole there or aren't whole units.
#[tactic(auto, unfolding(crate::specs::Heaps::user_at, crate::specs::Heaps::user_entry))]
pub fn user_text_at(heap: &[u8], offset: u32) -> Option<&[u8]>
    ensures { option_copied result ≡ user_at heap.now offset }
{
    if offset == 0 {
        return Some(&[]);
    }
    units_in(bytes_at(heap, offset as usize)?)
}

/// The sixteen bytes behind so many sixteens, None where they don't stand whole there.
#[tactic(auto, unfolding(crate::specs::Heaps::sixteen_at))]
pub fn sixteen_at(heap: &[u8], k: u32) -> Option<[u8; 16]>
    ensures { result ≡ sixteen_at heap.now k }
{
    Some(*heap.get(16 * k as usize..)?.first_chunk::<16>()?)
}
