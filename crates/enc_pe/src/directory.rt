//! Directories of a header, and the bytes that a header has.
ghost use Rattle.std.specs.Prelude.{◌≡◌, ℕ, ◌+◌, ◌≤◌, length, IfSome};
ghost use Rattle.std.specs.Option.{option_copied};
ghost use Rattle.enc_pe.specs.Sections.{whole_at};
ghost use Rattle.enc_pe.specs.Headers.{directory_at};

use enc_base::u32_at;

/// Where something stands in the image once it is loaded, as an RVA, and how many bytes it has
/// (ECMA-335 II.25.2.3.3).
#[derive(Clone, Copy)]
pub struct Directory {
    pub rva: u32,
    pub size: u32,
}

/// The directory at a place, None where its eight bytes don't stand whole there.
#[tactic(auto, unfolding(crate::specs::Headers::directory_at))]
pub fn directory_at(bytes: &[u8], at: usize) -> Option<Directory>
    ensures { result ≡ directory_at bytes.now at }
{
    let rva = u32_at(bytes, at)?;
    let size = u32_at(bytes, at + 4)?;
    Some(Directory { rva, size })
}

/// So many bytes at a place, None where they don't all stand there.
#[tactic(auto, unfolding(crate::specs::Sections::whole_at))]
pub fn whole_at(bytes: &[u8], at: usize, len: usize) -> Option<&[u8]>
    ensures bytes { option_copied result ≡ whole_at bytes.now at len }
    ensures len { IfSome result (λ b. length b.now ≡ len) }
    ensures within { IfSome result (λ b. at + len ≤ length bytes.now) }
{
    bytes.get(at..)?.get(..len)
}
