//! Opening a file: its container, its root and its tables.
ghost use Rattle.std.specs.Prelude.{◌≡◌, IfOk};
ghost use Rattle.enc_meta.specs.Heaps.{part};
ghost use Rattle.enc_rows.specs.Layout.{IsWithin};
ghost use Rattle.enc_image.specs.Base.{layout_for, source_of, metadata_of};
ghost use Rattle.enc_image.specs.Seen.{opened_source, IsOpened};

use enc_base::{Counts, Refusal};
use enc_meta::{Root, read_root};
use enc_pe::{Container, read_pe};
use enc_rows::{Form, Tables};

/// A container, the root in it, and the tables in that.
#[derive(Drop)]
pub struct Opened {
    pub container: Container,
    pub root: Root,
    pub tables: Tables,
}

/// The metadata root of a file.
pub fn metadata<'a>(bytes: &'a [u8], container: &Container) -> &'a [u8]
    ensures { result.now ≡ metadata_of bytes.now container.now }
{
    container.metadata.part(bytes)
}

/// The tables of a root.
#[tactic(auto, unfolding(crate::specs::Base::layout_for, crate::specs::Base::no_counts))]
fn tables_in(bytes: &[u8], root: &Root) -> Result<Tables, Refusal>
    ensures tables { result ≡ layout_for bytes.now root.now }
    ensures within { IfOk result (λ l. IsWithin (part bytes.now root.now.tables) l × (l.span ≡ root.now.tables)) }
{
    let none = Counts { rows: [0; 64] };
    Tables::read(bytes, root.tables, Form::Base, root.jtd, &none)
}

/// The container, the root and the tables of a file: F3, F4, F5, F9, F1, F2, F6.
#[tactic(auto, unfolding(crate::specs::Base::source_of))]
pub fn open(bytes: &[u8]) -> Result<Opened, Refusal>
    ensures source { opened_source bytes.now result ≡ source_of bytes.now }
    ensures opened { IfOk result (IsOpened bytes.now) }
{
    let container = match read_pe(bytes) {
        Ok(container) => container,
        Err(refusal) => return Err(refusal),
    };
    let root_bytes = metadata(bytes, &container);
    let root = match read_root(root_bytes) {
        Ok(root) => root,
        Err(refusal) => return Err(refusal),
    };
    match tables_in(root_bytes, &root) {
        Ok(tables) => Ok(Opened {
            container,
            root,
            tables,
        }),
        Err(refusal) => Err(refusal),
    }
}
