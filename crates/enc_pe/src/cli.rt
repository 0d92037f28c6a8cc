//! The CLI header of an image (ECMA-335 II.25.3.3).
ghost use Rattle.std.specs.Prelude.{◌≡◌, ℕ, length};
ghost use Rattle.enc_pe.specs.Headers.{cli_in, cli_of};

use crate::directory::{Directory, directory_at};
use crate::headers::Headers;
use crate::section::span_at;
use enc_base::{u32_at, u64_at};

/// What the CLI header says: where the metadata root and the managed resources are, and the entry
/// point.
#[derive(Clone, Copy)]
pub struct CliHeader {
    pub metadata: Directory,
    pub entry: u32,
    pub resources: Directory,
}

/// The CLI header in these bytes, None where flag 1 (ILONLY) isn't set or it has a
/// ManagedNativeHeader.
#[tactic(auto, unfolding(crate::specs::Headers::cli_in))]
fn cli_in(header: &[u8]) -> Option<CliHeader>
    ensures { result ≡ cli_in header.now }
{
    let metadata = directory_at(header, 8)?;
    let flags = u32_at(header, 16)?;
    let entry = u32_at(header, 20)?;
    let resources = directory_at(header, 24)?;
    let native = u64_at(header, 64)?;
    if flags % 2 == 1 && native == 0 {
        Some(CliHeader {
            metadata,
            entry,
            resources,
        })
    } else {
        None
    }
}

/// The CLI header of an image with these headers, None where its 72 bytes don't stand in a section
/// or it isn't as it should be.
#[tactic(auto, unfolding(crate::specs::Headers::cli_of))]
pub fn cli_of(bytes: &[u8], headers: Headers) -> Option<CliHeader>
    ensures { result ≡ cli_of bytes.now headers }
{
    if headers.cli.size < 72 {
        return None;
    }
    let span = span_at(bytes, headers.sections, headers.cli.rva, 72)?;
    cli_in(span.part(bytes))
}
