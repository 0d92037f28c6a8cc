//! The PE headers of an image (ECMA-335 II.25.2).
ghost use Rattle.std.specs.Prelude.{◌≡◌, ℕ, ◌+◌, ◌^◌, ◌<◌, ◌≤◌, length, IfSome};
ghost use Rattle.std.specs.Option.{option_copied};
ghost use Rattle.enc_meta.specs.Root.{IsSpanOf};
ghost use Rattle.enc_pe.specs.Headers.{coff_place, directories_for, directories_in, optional_at, section_headers, headers_of};

use crate::directory::{Directory, directory_at, whole_at};
use enc_base::{u16_at, u32_at};
use enc_meta::Span;

/// What the PE headers say of a .NET image: where its debug entries and its CLI header are, and
/// where in the file its section headers stand, of 40 bytes each.
#[derive(Clone, Copy)]
pub struct Headers {
    pub debug: Directory,
    pub cli: Directory,
    pub sections: Span,
}

/// Where the COFF header stands, None where the file doesn't begin with MZ or PE\0\0 doesn't stand
/// where it says (II.25.2.1).
#[tactic(auto, unfolding(crate::specs::Headers::coff_place))]
fn coff_place(bytes: &[u8]) -> Option<usize>
    ensures place { result ≡ coff_place bytes.now }
    ensures few { IfSome result (λ at. at < 2 ^ 33) }
{
    let magic = u16_at(bytes, 0)?;
    let place = u32_at(bytes, 0x3c)? as usize;
    let signature = u32_at(bytes, place)?;
    if magic == 0x5a4d && signature == 0x4550 {
        Some(place + 4)
    } else {
        None
    }
}

/// Where the data directories begin in an optional header of this magic, None where it is neither
/// PE32 nor PE32+.
#[tactic(auto, unfolding(crate::specs::Headers::directories_for))]
fn directories_for(magic: u16) -> Option<usize>
    ensures place { result ≡ directories_for magic }
    ensures some { IfSome result (λ at. 96 ≤ at) }
    ensures few { IfSome result (λ at. at ≤ 112) }
{
    if magic == 0x10b {
        Some(96)
    } else if magic == 0x20b {
        Some(112)
    } else {
        None
    }
}

/// Where the data directories begin in an optional header, None where it isn't one of PE32 or PE32+
/// or counts fewer than 15 directories (II.25.2.3).
#[tactic(auto, unfolding(crate::specs::Headers::directories_in))]
fn directories_in(optional: &[u8]) -> Option<usize>
    ensures place { result ≡ directories_in optional.now }
    ensures few { IfSome result (λ at. at ≤ 112) }
{
    let magic = u16_at(optional, 0)?;
    let place = directories_for(magic)?;
    let count = u32_at(optional, place - 4)?;
    if count < 15 { None } else { Some(place) }
}

/// The optional header behind a COFF header, None where it doesn't stand whole in the file by the
/// size that the COFF header says.
#[tactic(auto, unfolding(crate::specs::Headers::optional_at))]
fn optional_at(bytes: &[u8], coff: usize) -> Option<&[u8]>
    requires { coff < 2 ^ 33 }
    ensures { option_copied result ≡ optional_at bytes.now coff }
{
    let size = usize::from(u16_at(bytes, coff + 16)?);
    whole_at(bytes, coff + 20, size)
}

/// Where the section headers stand, None where they aren't all in the file.
#[tactic(auto, unfolding(crate::specs::Headers::section_headers))]
fn section_headers(bytes: &[u8], coff: usize) -> Option<Span>
    requires { coff < 2 ^ 33 }
    ensures span { result ≡ section_headers bytes.now coff }
    ensures within { IfSome result (IsSpanOf bytes.now) }
{
    let count = usize::from(u16_at(bytes, coff + 2)?);
    let size = usize::from(u16_at(bytes, coff + 16)?);
    let start = coff + 20 + size;
    let len = 40 * count;
    if start + len <= bytes.len() {
        Some(Span { start, len })
    } else {
        None
    }
}

/// The headers, None where one isn't as it should be or doesn't stand whole in the file.
#[tactic(auto, unfolding(crate::specs::Headers::headers_of))]
pub fn headers_of(bytes: &[u8]) -> Option<Headers>
    ensures headers { result ≡ headers_of bytes.now }
    ensures within { IfSome result (λ h. IsSpanOf bytes.now h.sections) }
{
    let coff = coff_place(bytes)?;
    let optional = optional_at(bytes, coff)?;
    let place = directories_in(optional)?;
    let debug = directory_at(optional, place + 8 * 6)?;
    let cli = directory_at(optional, place + 8 * 14)?;
    let sections = section_headers(bytes, coff)?;
    Some(Headers {
        debug,
        cli,
        sections,
    })
}
