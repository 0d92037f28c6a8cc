//! What of a file is loaded at which RVAs.
ghost use Rattle.std.specs.Prelude.{◌≡◌, ◌+◌, ◌≤◌, IsTrue, IfSome, find, length};
ghost use Rattle.std.specs.Option.{option_copied};
ghost use Rattle.enc_meta.specs.Regions.{range_loaded, rest_loaded};
ghost use Rattle.enc_meta.specs.Root.{IsSpanOf};
ghost use Rattle.enc_pe.specs.Loaded.{regions_of};
ghost use Rattle.enc_pe.specs.Sections.{sections_of, holds};
ghost use Rattle.enc_pe.specs.Within.{StandWithin, span_in, span_behind};

use crate::container::Container;
use crate::section::Section;
use crate::sections::Sections;
use enc_meta::Span;
use std::marker::Model;

/// A file with its sections: what of it is loaded at which RVAs. Each look-up goes over few sections,
/// however many there are, and takes no memory.
#[derive(Drop)]
pub struct LoadedFile<'a> {
    file: &'a [u8],
    sections: &'a Sections,
}

impl<'a> Model for LoadedFile<'a> {
    ghost use Rattle.std.specs.Prelude.{List, map};
    ghost use Rattle.enc_meta.specs.Regions.{Region};
    ghost use Rattle.enc_pe.specs.Loaded.{region_of};
    ghost use Rattle.enc_pe.specs.Within.{StandWithin};

    ghost Value = { List Region };

    ghost view = { λ l. map (region_of l.file.now) l.sections.now };

    ghost invariant = { λ l. StandWithin l.file.now l.sections.now };
}

/// The first section that holds a whole range of RVAs.
fn section_with(file: &[u8], sections: &Sections, rva: u32, len: u32) -> Option<Section>
    requires { StandWithin file.now sections.now }
    ensures section { result ≡ find (holds rva len) sections.now }
    ensures holds { IfSome result (λ s. IsTrue (holds rva len s)) }
    ensures within { IfSome result (λ s. IsSpanOf file.now s.raw) }
{
    let _ = file;
    sections.first_with(rva, len)
}

/// Where a range of RVAs stands in the file.
#[tactic(auto, unfolding(crate::specs::Sections::holds))]
fn span_in(file: &[u8], sections: &Sections, rva: u32, len: u32) -> Option<Span>
    requires { StandWithin file.now sections.now }
    ensures { result ≡ span_in sections.now rva len }
{
    let section = section_with(file, sections, rva, len)?;
    let start = section.raw.start + (rva - section.rva) as usize;
    let len = len as usize;
    Some(Span { start, len })
}

/// Where the bytes from an RVA on stand in the file.
#[tactic(auto, unfolding(crate::specs::Sections::holds))]
fn span_behind(file: &[u8], sections: &Sections, rva: u32) -> Option<Span>
    requires { StandWithin file.now sections.now }
    ensures { result ≡ span_behind sections.now rva }
{
    let section = section_with(file, sections, rva, 1)?;
    let before = (rva - section.rva) as usize;
    let start = section.raw.start + before;
    let len = section.raw.len - before;
    Some(Span { start, len })
}

impl<'a> LoadedFile<'a> {
    /// What of a file is loaded, by the sections that were read from it.
    pub fn of(file: &'a [u8], container: &Container, sections: &'a Sections) -> LoadedFile<'a>
        requires { sections.now ≡ sections_of file.now container.now.sections }
        ensures { result ≡ regions_of file.now container.now.sections }
    {
        let _ = container;
        LoadedFile { file, sections }
    }

    /// So many bytes at an RVA: in the first section whose raw part holds them all, None where no
    /// section does (ECMA-335 II.25.3).
    pub fn range(&self, rva: u32, len: u32) -> Option<&'a [u8]>
        ensures { option_copied result ≡ range_loaded self.now rva len }
    {
        match span_in(self.file, self.sections, rva, len) {
            Some(span) => Some(span.part(self.file)),
            None => None,
        }
    }

    /// The bytes from an RVA on: up to the end of the raw part of the first section whose raw part
    /// holds the byte there, None where no section does (ECMA-335 II.25.3).
    pub fn rest(&self, rva: u32) -> Option<&'a [u8]>
        ensures { option_copied result ≡ rest_loaded self.now rva }
    {
        match span_behind(self.file, self.sections, rva) {
            Some(span) => Some(span.part(self.file)),
            None => None,
        }
    }
}
