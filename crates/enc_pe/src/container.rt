//! The container: read from a file, and asked for the bytes at an RVA.
ghost use Rattle.std.specs.Prelude.{◌≡◌, ℕ, ◌+◌, ◌/◌, ◌<◌, ◌≤◌, length, IfSome, IfOk};
ghost use Rattle.std.specs.Option.{option_copied};
ghost use Rattle.enc_meta.specs.Regions.{range_loaded, rest_loaded};
ghost use Rattle.enc_meta.specs.Root.{IsSpanOf};
ghost use Rattle.enc_pe.specs.Loaded.{regions_of};
ghost use Rattle.enc_pe.specs.Container.{refusal, directory_span, is_embedded, embeds, image_of, is_bare, container_of, AreInside, bytes_at_rva, bytes_from_rva};

use crate::cli::cli_of;
use crate::directory::Directory;
use crate::headers::headers_of;
use crate::section::{span_at, span_from};
use enc_base::{Code, Place, Refusal, u32_at};
use enc_meta::Span;

/// Where the parts of a module's file stand in it, each as a range of the file's bytes.
#[derive(Clone, Copy, Debug, PartialEq, Eq)]
pub struct Container {
    /// The metadata root; in a bare file all of it.
    pub metadata: Span,
    /// The managed resources, empty where there are none.
    pub resources: Span,
    /// The entry point: a token's number, or 0. It isn't judged.
    pub entry: u32,
    /// The section headers, of 40 bytes each; none in a bare file.
    pub sections: Span,
    /// The file is a metadata root alone, without PE headers.
    pub bare: bool,
}

const NOWHERE: Span = Span { start: 0, len: 0 };

/// The refusal by rule F of this number.
fn refusal(rule: u8, place: Place) -> Refusal
    ensures { result ≡ refusal rule place }
{
    let code = Code::F(rule);
    Refusal { code, place }
}

/// Where the bytes of a directory stand; one of size 0 is absent and stands nowhere. None where they
/// don't stand in a section.
#[tactic(auto, unfolding(crate::specs::Container::directory_span))]
fn directory_span(bytes: &[u8], sections: Span, directory: Directory) -> Option<Span>
    ensures span { result ≡ directory_span bytes.now sections directory }
    ensures within { IfSome result (IsSpanOf bytes.now) }
{
    if directory.size == 0 {
        return Some(NOWHERE);
    }
    span_at(bytes, sections, directory.rva, directory.size)
}

/// Debug entry k has type 17, an embedded Portable PDB.
#[tactic(auto, unfolding(crate::specs::Container::is_embedded))]
fn is_embedded(entries: &[u8], k: usize) -> bool
    requires { k < length entries.now / 28 }
    ensures { result ≡ is_embedded entries.now k }
{
    match u32_at(entries, 28 * k + 12) {
        Some(kind) => kind == 17,
        None => false,
    }
}

/// Some debug entry, of 28 bytes each, has type 17. What is left behind the last whole one is
/// ignored.
#[tactic(auto, using(crate::proofs::Search::embeds_steps))]
fn embeds(entries: &[u8]) -> bool
    ensures { result ≡ embeds entries.now (length entries.now / 28) }
{
    let mut found = false;
    for k in 0..entries.len() / 28 {
        found = found || is_embedded(entries, k);
    }
    found
}

/// The container of an image: F3, F4, F5 or F9, the first in this order.
#[tactic(auto, unfolding(crate::specs::Container::image_of))]
fn image_of(bytes: &[u8]) -> Result<Container, Refusal>
    ensures container { result ≡ image_of bytes.now }
    ensures within { IfOk result (AreInside bytes.now) }
{
    let headers = headers_of(bytes).ok_or(refusal(3, Place::Headers))?;
    let sections = headers.sections;
    let cli = cli_of(bytes, headers).ok_or(refusal(4, Place::Cli))?;
    let root = span_at(bytes, sections, cli.metadata.rva, cli.metadata.size);
    let metadata = root.ok_or(refusal(5, Place::Metadata))?;
    let kept = directory_span(bytes, sections, cli.resources);
    let resources = kept.ok_or(refusal(5, Place::Resources))?;
    let debug = directory_span(bytes, sections, headers.debug);
    let entries = debug.ok_or(refusal(5, Place::Debug))?;
    if embeds(entries.part(bytes)) {
        return Err(refusal(9, Place::Debug));
    }
    Ok(Container {
        metadata,
        resources,
        entry: cli.entry,
        sections,
        bare: false,
    })
}

/// The file begins as a metadata root (II.24.2.1).
fn is_bare(bytes: &[u8]) -> bool
    ensures { result ≡ is_bare bytes.now }
{
    bytes.starts_with(b"BSJB".as_slice())
}

/// The container of a module's file, which begins with the metadata root's magic where it is bare.
/// An image is refused by the first of these rules that it breaks: F3 where a PE header isn't as it
/// should be or passes the file's end, or fewer than 15 directories are counted (II.25.2). F4 where
/// there is no CLI header of 72 bytes in a section, its flag 1 (ILONLY) isn't set, or it has a
/// ManagedNativeHeader (II.25.3.3). F5 where the bytes of the metadata, the resources or the debug
/// directory, in this order, don't stand in a section. F9 where a debug entry is an embedded
/// Portable PDB. It takes no memory.
#[tactic(auto, unfolding(crate::specs::Container::container_of))]
pub fn read_pe(bytes: &[u8]) -> Result<Container, Refusal>
    ensures container { result ≡ container_of bytes.now }
    ensures within { IfOk result (AreInside bytes.now) }
{
    if !is_bare(bytes) {
        return image_of(bytes);
    }
    Ok(Container {
        metadata: Span {
            start: 0,
            len: bytes.len(),
        },
        resources: NOWHERE,
        entry: 0,
        sections: NOWHERE,
        bare: true,
    })
}

/// The bytes of a range of RVAs.
#[tactic(auto, unfolding(crate::specs::Container::bytes_at_rva), using(crate::proofs::Parts::part_length))]
fn range_at<'a>(bytes: &'a [u8], container: &Container, rva: u32, len: u32) -> Option<&'a [u8]>
    ensures bytes { option_copied result ≡ bytes_at_rva bytes.now container.now rva len }
    ensures len { IfSome result (λ b. length b.now ≡ len) }
{
    let span = span_at(bytes, container.sections, rva, len)?;
    Some(span.part(bytes))
}

/// The bytes from an RVA on.
#[tactic(auto, unfolding(crate::specs::Container::bytes_from_rva), using(crate::proofs::Parts::part_length))]
fn rest_at<'a>(bytes: &'a [u8], container: &Container, rva: u32) -> Option<&'a [u8]>
    ensures bytes { option_copied result ≡ bytes_from_rva bytes.now container.now rva }
    ensures some { IfSome result (λ b. 0 < length b.now) }
{
    let span = span_from(bytes, container.sections, rva)?;
    Some(span.part(bytes))
}

/// So many bytes at an RVA of the container that was read from these bytes: in the first section
/// whose raw part holds them all, None where no section does (II.25.3). It goes over the section
/// headers once and takes no memory.
pub fn at_rva<'a>(bytes: &'a [u8], container: &Container, rva: u32, len: u32) -> Option<&'a [u8]>
    ensures bytes { option_copied result ≡ bytes_at_rva bytes.now container.now rva len }
    ensures loaded { option_copied result ≡ range_loaded (regions_of bytes.now container.now.sections) rva len }
    ensures len { IfSome result (λ b. length b.now ≡ len) }
{
    range_at(bytes, container, rva, len)
}

/// The bytes from an RVA on, in the container that was read from these bytes: up to the end of the
/// raw part of the first section whose raw part holds the byte there, None where no section does
/// (II.25.3). It goes over the section headers once and takes no memory.
pub fn from_rva<'a>(bytes: &'a [u8], container: &Container, rva: u32) -> Option<&'a [u8]>
    ensures bytes { option_copied result ≡ bytes_from_rva bytes.now container.now rva }
    ensures loaded { option_copied result ≡ rest_loaded (regions_of bytes.now container.now.sections) rva }
    ensures some { IfSome result (λ b. 0 < length b.now) }
{
    rest_at(bytes, container, rva)
}
