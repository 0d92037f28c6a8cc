//! The numbers of a sequence points blob.
ghost use Rattle.std.specs.Prelude.{◌≡◌, ℕ, ◌<◌, ◌^◌, option_map, IfSome};
ghost use Rattle.enc_seqpoints.specs.Grammar.{below_limit, moved, document_row_in, column_difference_in, moved_in};
ghost use Rattle.enc_base.specs.Readers.{number_in, signed_in};

use enc_base::{signed_front, unsigned_front};

/// The number, where an offset or a line may be so large.
#[tactic(auto, unfolding(crate::specs::Grammar::below_limit))]
pub(crate) fn below_limit(n: u64) -> Option<u32>
    ensures { result ≡ below_limit n }
{
    if n < 0x2000_0000 {
        return Some(n as u32);
    }
    None
}

/// The number to which a difference of these 32 bits leads from another.
#[tactic(auto, unfolding(crate::specs::Grammar::moved))]
pub(crate) fn moved(from: u32, bits: u32) -> Option<u32>
    ensures { result ≡ moved from bits }
{
    let sum = u64::from(from) + u64::from(bits);
    if bits < 0x8000_0000 {
        return below_limit(sum);
    }
    if sum < 0x1_0000_0000 {
        return None;
    }
    below_limit(sum - 0x1_0000_0000)
}

/// The document row at the front and what is behind it.
#[tactic(auto, unfolding(crate::specs::Grammar::document_row_in))]
pub(crate) fn row(bytes: &[u8]) -> Option<(u32, &[u8])>
    ensures { option_map (λ x. (x.0, x.1.now)) result ≡ document_row_in bytes.now }
{
    let (row, rest) = unsigned_front(bytes)?;
    if 0 < row && row < 0x2000_0000 {
        return Some((row, rest));
    }
    None
}

/// The column difference at the front, as its 32 bits, and what is behind it.
#[tactic(auto, unfolding(crate::specs::Grammar::column_difference_in))]
pub(crate) fn columns(lines: u32, bytes: &[u8]) -> Option<(u32, &[u8])>
    ensures { option_map (λ x. (x.0, x.1.now)) result ≡ column_difference_in lines bytes.now }
{
    if lines == 0 {
        return unsigned_front(bytes);
    }
    signed_front(bytes)
}

/// The line or column at a difference from another, and what is behind it.
#[tactic(auto, unfolding(crate::specs::Grammar::moved_in))]
pub(crate) fn moved_by(from: u32, bytes: &[u8]) -> Option<(u32, &[u8])>
    ensures { option_map (λ x. (x.0, x.1.now)) result ≡ moved_in from bytes.now }
{
    let (bits, rest) = signed_front(bytes)?;
    let to = moved(from, bits)?;
    Some((to, rest))
}
