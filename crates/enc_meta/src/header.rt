//! One stream header (ECMA-335 II.24.2.2).
ghost use Rattle.std.specs.Prelude.{◌≡◌, ℕ, ◌+◌, ◌^◌, ◌<◌, ◌≤◌, option_map, length, take, IfSome};
ghost use Rattle.enc_base.specs.Numbers.{padded};
ghost use Rattle.enc_meta.specs.Root.{header_at, name_at, known};

use crate::entry::before_zero;
use crate::span::Span;
use enc_base::{StreamName, u32_at};

/// A stream's name without the zero at its end, and where the stream stands in the root.
#[derive(Clone, Copy)]
pub struct Header<'a> {
    pub name: &'a [u8],
    pub span: Span,
}

/// The least multiple of 4 that isn't less.
#[tactic(auto, unfolding(enc_base::specs::Numbers::padded))]
fn padded(n: usize) -> usize
    requires { n ≤ 32 }
    ensures multiple { result ≡ padded n }
    ensures few { result ≤ 32 }
{
    (n + 3) / 4 * 4
}

/// The first n bytes, or all where there are fewer.
fn front(bytes: &[u8], n: usize) -> &[u8]
    ensures front { result.now ≡ take n bytes.now }
    ensures few { length result.now ≤ n }
{
    bytes.get(..n).unwrap_or(bytes)
}

/// The name at a place, of at most 32 bytes with its zero, and the place behind its padding.
#[tactic(auto, unfolding(crate::specs::Root::name_at))]
fn name_at(bytes: &[u8], at: usize) -> Option<(&[u8], usize)>
    ensures { option_map (λ x. (x.0.now, x.1)) result ≡ name_at bytes.now at }
{
    let name = before_zero(front(bytes.get(at..)?, 32))?;
    let end = at + padded(name.len() + 1);
    if end <= bytes.len() {
        Some((name, end))
    } else {
        None
    }
}

/// The header at a place and the place behind it, None where it doesn't stand whole in the bytes.
#[tactic(auto, unfolding(crate::specs::Root::header_at))]
pub fn header_at(bytes: &[u8], at: usize) -> Option<(Header<'_>, usize)>
    ensures header { option_map (λ x. (record { name = x.0.name.now; span = x.0.span }, x.1)) result
        ≡ header_at bytes.now at }
    ensures few { IfSome result (λ x. x.0.span.start + x.0.span.len < 2 ^ 33) }
{
    let start = u32_at(bytes, at)? as usize;
    let len = u32_at(bytes, at + 4)? as usize;
    let (name, end) = name_at(bytes, at + 8)?;
    let span = Span { start, len };
    Some((Header { name, span }, end))
}

/// Which stream has this name, None where the name has no meaning.
#[tactic(auto, unfolding(crate::specs::Root::known))]
pub fn known(name: &[u8]) -> Option<StreamName>
    ensures { result ≡ known name.now }
{
    if name == "#~".as_bytes() {
        Some(StreamName::Compressed)
    } else if name == "#-".as_bytes() {
        Some(StreamName::Uncompressed)
    } else if name == "#Strings".as_bytes() {
        Some(StreamName::Strings)
    } else if name == "#US".as_bytes() {
        Some(StreamName::Users)
    } else if name == "#Blob".as_bytes() {
        Some(StreamName::Blobs)
    } else if name == "#GUID".as_bytes() {
        Some(StreamName::Guids)
    } else if name == "#Pdb".as_bytes() {
        Some(StreamName::Pdb)
    } else if name == "#JTD".as_bytes() {
        Some(StreamName::Jtd)
    } else {
        None
    }
}
