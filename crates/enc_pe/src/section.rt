//! The sections of an image (ECMA-335 II.25.3).
ghost use Rattle.std.specs.Prelude.{◌≡◌, ℕ, ◌+◌, ◌-◌, ◌/◌, ◌<◌, ◌≤◌, IsTrue, find, length, IfSome};
ghost use Rattle.enc_meta.specs.Root.{IsSpanOf};
ghost use Rattle.enc_pe.specs.Sections.{inside, section_with, section_at, sections_from, holds, span_at, span_from};

use crate::directory::whole_at;
use enc_base::u32_at;
use enc_meta::Span;

/// A section: the RVA of its first byte, and what of its raw part stands in the file.
#[derive(Clone, Copy)]
pub struct Section {
    pub rva: u32,
    pub raw: Span,
}

/// What of a range stands in a file of this size.
#[tactic(auto, unfolding(crate::specs::Sections::inside))]
fn inside(size: usize, span: Span) -> Span
    ensures span { result ≡ inside size span }
    ensures within { result.start + result.len ≤ size }
{
    let start = span.start.min(size);
    Span {
        start,
        len: span.len.min(size - start),
    }
}

/// The section with this header, in a file of this size.
#[tactic(auto, unfolding(crate::specs::Sections::section_with))]
fn section_with(size: usize, header: &[u8]) -> Option<Section>
    ensures section { result ≡ section_with size header.now }
    ensures within { IfSome result (λ s. s.raw.start + s.raw.len ≤ size) }
{
    let rva = u32_at(header, 12)?;
    let len = u32_at(header, 16)? as usize;
    let start = u32_at(header, 20)? as usize;
    let raw = inside(size, Span { start, len });
    Some(Section { rva, raw })
}

/// The section whose header begins at a place, None where the header doesn't stand whole there.
#[tactic(auto, unfolding(crate::specs::Sections::section_at))]
pub fn section_at(bytes: &[u8], at: usize) -> Option<Section>
    ensures section { result ≡ section_at bytes.now at }
    ensures within { IfSome result (λ s. IsSpanOf bytes.now s.raw) }
    ensures header { IfSome result (λ s. at + 40 ≤ length bytes.now) }
{
    section_with(bytes.len(), whole_at(bytes, at, 40)?)
}

/// The raw part holds the whole range of RVAs.
#[tactic(auto, unfolding(crate::specs::Sections::holds))]
pub fn holds(rva: u32, len: u32, section: Section) -> bool
    ensures { result ≡ holds rva len section }
{
    section.rva <= rva && (rva - section.rva) as usize + len as usize <= section.raw.len
}

/// The first of so many sections, from a header on, that holds the whole range of RVAs.
#[tactic(auto, using(crate::proofs::Search::search_steps))]
fn first_with(bytes: &[u8], first: usize, count: usize, rva: u32, len: u32) -> Option<Section>
    ensures section { result ≡ find (holds rva len) (sections_from bytes.now first count) }
    ensures holds { IfSome result (λ s. IsTrue (holds rva len s)) }
    ensures within { IfSome result (λ s. IsSpanOf bytes.now s.raw) }
{
    let mut at = first;
    for i in 0..count {
        let Some(section) = section_at(bytes, at) else {
            return None;
        };
        if holds(rva, len, section) {
            return Some(section);
        }
        at += 40;
    }
    None
}

/// Where a range of RVAs stands in the file, by the section headers in `headers`: in the first
/// section whose raw part holds it whole.
#[tactic(auto, unfolding(crate::specs::Sections::span_at, crate::specs::Sections::holds))]
pub fn span_at(bytes: &[u8], headers: Span, rva: u32, len: u32) -> Option<Span>
    ensures span { result ≡ span_at bytes.now headers rva len }
    ensures len { IfSome result (λ s. s.len ≡ len) }
    ensures within { IfSome result (IsSpanOf bytes.now) }
{
    let section = first_with(bytes, headers.start, headers.len / 40, rva, len)?;
    let start = section.raw.start + (rva - section.rva) as usize;
    let len = len as usize;
    Some(Span { start, len })
}

/// Where the bytes from an RVA on stand in the file, by the section headers in `headers`: up to the
/// end of the raw part of the first section whose raw part holds the byte there.
#[tactic(auto, unfolding(crate::specs::Sections::span_from, crate::specs::Sections::holds))]
pub fn span_from(bytes: &[u8], headers: Span, rva: u32) -> Option<Span>
    ensures span { result ≡ span_from bytes.now headers rva }
    ensures some { IfSome result (λ s. 0 < s.len) }
    ensures within { IfSome result (IsSpanOf bytes.now) }
{
    let section = first_with(bytes, headers.start, headers.len / 40, rva, 1)?;
    let before = (rva - section.rva) as usize;
    let start = section.raw.start + before;
    let len = section.raw.len - before;
    Some(Span { start, len })
}
