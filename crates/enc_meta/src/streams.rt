//! The stream headers of a root, and the first that is refused (ECMA-335 II.24.2.2).
ghost use Rattle.std.specs.Prelude.{◌≡◌, ℕ, ◌+◌, ◌<◌, ◌≤◌, ◌^◌, IsTrue, is_some, option_map, length, take};
ghost use Rattle.enc_meta.specs.Root.{headers, headers_found, streams, span_of, has_stream, version_len, fault_of, fault_at, has_one_table_stream, stream_fault};
ghost use Rattle.enc_base.specs.Order.{first_below};

use crate::header::{Header, header_at, known};
use crate::span::Span;
use enc_base::{StreamName, u16_at, u32_at};
use std::marker::Model;

/// The stream headers of a root, all of which stand in its bytes.
#[derive(Drop)]
pub struct Streams<'a> {
    bytes: &'a [u8],
    first: usize,
    count: usize,
}

impl<'a> Model for Streams<'a> {
    ghost use Rattle.std.specs.Prelude.{List, IsTrue, is_some};
    ghost use Rattle.enc_meta.specs.Root.{Header, headers, headers_found};

    ghost Value = { List Header };

    ghost view = { λ s. headers_found (headers s.bytes.now s.first s.count) };

    ghost invariant = { λ s. IsTrue (is_some (headers s.bytes.now s.first s.count)) };
}

/// How many bytes the version has, None where the root's header isn't good (II.24.2.1).
#[tactic(auto, unfolding(crate::specs::Root::version_len))]
fn version_len(bytes: &[u8]) -> Option<u32>
    ensures { result ≡ version_len bytes.now }
{
    let magic = u32_at(bytes, 0)?;
    let reserved = u32_at(bytes, 8)?;
    let len = u32_at(bytes, 12)?;
    if magic == 0x424a_5342 && reserved == 0 && len % 4 == 0 {
        Some(len)
    } else {
        None
    }
}

/// So many headers stand whole, one behind the other, from a place.
#[tactic(auto, using(crate::proofs::Headers::read_steps))]
fn are_whole(bytes: &[u8], first: usize, count: usize) -> bool
    ensures { result ≡ is_some (headers bytes.now first count) }
{
    let mut at = first;
    for i in 0..count {
        let Some((_, next)) = header_at(bytes, at) else {
            return false;
        };
        at = next;
    }
    true
}

/// Where the stream of this name stands, the first of them among so many headers.
#[tactic(auto, using(crate::proofs::Headers::span_steps))]
fn span_in(bytes: &[u8], first: usize, count: usize, name: &[u8]) -> Option<Span>
    requires { IsTrue (is_some (headers bytes.now first count)) }
    ensures { result ≡ span_of name.now (headers_found (headers bytes.now first count)) }
{
    let mut at = first;
    for i in 0..count {
        let Some((header, next)) = header_at(bytes, at) else {
            unreachable!();
        };
        if header.name == name {
            return Some(header.span);
        }
        at = next;
    }
    None
}

/// What is wrong with the header behind the first k ones. Only a known name is looked for again, and
/// a second one ends the reading, so a whole root takes nine such searches at most.
#[tactic(auto, unfolding(crate::specs::Root::fault_of), using(crate::proofs::Headers::is_some_span))]
fn fault_of(
    bytes: &[u8],
    first: usize,
    k: usize,
    header: Header<'_>,
    size: usize,
) -> Option<StreamName>
    requires read { IsTrue (is_some (headers bytes.now first k)) }
    requires few { header.span.start + header.span.len < 2 ^ 33 }
    ensures { result ≡ fault_of size (headers_found (headers bytes.now first k))
        (record { name = header.entry.name.now; span = header.entry.span }) }
{
    let which = known(header.name)?;
    if span_in(bytes, first, k, header.name).is_some() {
        return Some(which);
    }
    if size < header.span.start + header.span.len {
        Some(which)
    } else {
        None
    }
}

/// The first of so many headers with which something is wrong.
#[tactic(auto, using(crate::proofs::Headers::fault_steps))]
fn first_fault(bytes: &[u8], first: usize, count: usize, size: usize) -> Option<StreamName>
    requires { IsTrue (is_some (headers bytes.now first count)) }
    ensures { result ≡ first_below (fault_at size (headers_found (headers bytes.now first count))) count }
{
    let mut at = first;
    for i in 0..count {
        let Some((header, next)) = header_at(bytes, at) else {
            unreachable!();
        };
        let fault = fault_of(bytes, first, i, header, size);
        if fault.is_some() {
            return fault;
        }
        at = next;
    }
    None
}

impl<'a> Streams<'a> {
    /// The headers of all streams, None where the root's header isn't good or they don't all stand
    /// in the bytes.
    #[tactic(auto, unfolding(crate::specs::Root::streams))]
    pub fn of(bytes: &'a [u8]) -> Option<Streams<'a>>
        ensures { result ≡ streams bytes.now }
    {
        let len = version_len(bytes)? as usize;
        let count = usize::from(u16_at(bytes, 18 + len)?);
        let first = 20 + len;
        if are_whole(bytes, first, count) {
            Some(Streams {
                bytes,
                first,
                count,
            })
        } else {
            None
        }
    }

    /// Where the stream of this name stands, None where there is none.
    pub fn span_of(&self, name: &[u8]) -> Option<Span>
        ensures { result ≡ span_of name.now self.now }
    {
        span_in(self.bytes, self.first, self.count, name)
    }

    /// A stream of this name is there.
    #[tactic(auto, using(crate::proofs::Headers::is_some_span))]
    pub fn stands(&self, name: &[u8]) -> bool
        ensures { result ≡ has_stream name.now self.now }
    {
        self.span_of(name).is_some()
    }

    /// Exactly one of `#~` and `#-` is there.
    #[tactic(auto, unfolding(crate::specs::Root::has_one_table_stream))]
    fn has_one_table_stream(&self) -> bool
        ensures { result ≡ has_one_table_stream self.now }
    {
        self.stands("#~".as_bytes()) != self.stands("#-".as_bytes())
    }

    /// The first stream that is refused in a root of this size in bytes.
    #[tactic(auto, unfolding(crate::specs::Root::stream_fault), using(crate::proofs::Headers::read_length))]
    pub fn fault(&self, size: usize) -> Option<StreamName>
        ensures { result ≡ stream_fault size self.now }
    {
        let fault = first_fault(self.bytes, self.first, self.count, size);
        if fault.is_some() {
            return fault;
        }
        if self.has_one_table_stream() {
            None
        } else {
            Some(StreamName::Compressed)
        }
    }
}
