//! An image: the bytes of a module that was accepted.
ghost use Rattle.std.specs.Prelude.{◌≡◌, None, Ok};
ghost use Rattle.enc_meta.specs.Heaps.{ends_of};
ghost use Rattle.enc_image.specs.Base.{base_of, cells_fault, metadata_of, source_from};
ghost use Rattle.enc_image.specs.Seen.{IsOpened, ReadsBase};
ghost use Rattle.enc_pe.specs.Sections.{sections_of};

use crate::judge::{Cells, cells_fault};
use crate::open::{Opened, metadata, open};
use enc_base::ReadFault;
use enc_meta::{Heaps, Root, TextEnds};
use enc_pe::{Container, LoadedFile, Sections};
use enc_rows::Tables;
use std::alloc::Global;
use std::marker::Model;

/// The bytes of a module that was accepted, and where its parts stand in them. Its cells aren't
/// copied.
#[derive(Drop)]
pub struct Image {
    pub(crate) bytes: Vec<u8>,
    pub(crate) container: Container,
    pub(crate) root: Root,
    pub(crate) sections: Sections,
    pub(crate) ends: TextEnds,
    pub(crate) tables: Tables,
}

impl Model for Image {
    ghost use Rattle.enc_image.specs.Base.{source_from};
    ghost use Rattle.enc_rows.specs.Source.{Source};
    ghost use Rattle.enc_image.specs.Seen.{IsImage};

    ghost Value = { Source };

    ghost view = { λ i. source_from i.bytes.items i.container i.root i.tables };

    ghost invariant = { λ i. IsImage i.bytes.items
        (record { container = i.container; root = i.root; tables = i.tables }) i.ends i.sections };
}

/// The image whose parts were read from these bytes, where none of its cells is refused.
fn image_of(bytes: Vec<u8>, opened: Opened, sections: Sections, ends: TextEnds) -> Image
    requires sections { sections ≡ sections_of bytes.items opened.container.sections }
    requires opened { IsOpened bytes.items opened }
    requires texts { ends ≡ ends_of (metadata_of bytes.items opened.container) opened.root }
    requires cells { cells_fault (source_from bytes.items opened.container opened.root opened.tables) ≡ None }
    requires read { base_of bytes.items ≡ Ok (source_from bytes.items opened.container opened.root opened.tables) }
    ensures { result ≡ source_from bytes.items opened.container opened.root opened.tables }
{
    Image {
        bytes,
        container: opened.container,
        root: opened.root,
        sections,
        ends,
        tables: opened.tables,
    }
}

impl Image {
    /// Reads a module. Refused is the first of F3, F4, F5, F9, F1, F2, F6, F7, F8, F11 and F10, and then
    /// F5 of a field's bytes.
    #[tactic(auto, unfolding(crate::specs::Base::base_of))]
    pub fn read(alloc: Global, bytes: Vec<u8>) -> Result<Image, ReadFault>
        ensures { ReadsBase result (base_of bytes.items) }
    {
        let opened = match open(&bytes) {
            Ok(opened) => opened,
            Err(refusal) => return Err(ReadFault::Refused(refusal)),
        };
        let sections = match Sections::read(alloc, &bytes, &opened.container) {
            Ok(sections) => sections,
            Err(_) => return Err(ReadFault::Memory),
        };
        let root = metadata(&bytes, &opened.container);
        let ends = TextEnds::of(root, &opened.root);
        let cells = Cells {
            file: &bytes,
            container: opened.container,
            loaded: LoadedFile::of(&bytes, &opened.container, &sections),
            bytes: root,
            tables: &opened.tables,
            heaps: Heaps::with(root, &opened.root, ends),
        };
        let fault = cells_fault(alloc, &cells);
        match fault {
            Err(_) => Err(ReadFault::Memory),
            Ok(Some(refusal)) => Err(ReadFault::Refused(refusal)),
            Ok(None) => Ok(image_of(bytes, opened, sections, ends)),
        }
    }
}
