//! The names of documents in a root of their own, from which they are lent.
ghost use Rattle.std.specs.Prelude.{◌≡◌, ◌<◌, ◌≤◌, ◌+◌, ◌^◌, true, length, map, slice_get, is_ok, Ok, IfOk, OnOk};
ghost use Rattle.enc_meta.specs.Built.{is_kept, blob_offset, heaps_built};
ghost use Rattle.enc_meta.specs.Heaps.{heaps_of};
ghost use Rattle.enc_meta.specs.Root.{root_of};
ghost use Rattle.enc_meta.specs.declared.root.Root.{Root as TheRoot};
ghost use Rattle.enc_ppdb.specs.Holding.{heaps_size, name_blob as name_blob_of, Grown};
ghost use Rattle.enc_ppdb.specs.Written.{pdb_starts};
ghost use Rattle.enc_pdb_writer.specs.Names.{SaysName, AreSaid, HaveRoom, name_stated};

use enc_base::{push_unsigned, written_laws};
use enc_edit_list::DocumentValue;
use enc_emit::{RootBuilder, pdb_root_law};
use enc_meta::{BuildFault, HeapBuilder, HeapLengths, Heaps, Root, read_root};
use enc_plain::NameRef;
use enc_rows::TableBuilder;
use std::alloc::{AllocError, Global};
use std::marker::Model;

/// Heaps that stand behind no others.
const NO_STARTS: HeapLengths = HeapLengths {
    strings: 0,
    users: 0,
    blobs: 0,
    guids: 0,
};

/// Names of documents: a root whose `#Blob` has each name and the blob that says it, and the offsets
/// of these blobs.
#[derive(Drop)]
pub(crate) struct Names {
    bytes: Vec<u8>,
    root: Root,
    offsets: Vec<u32>,
}

impl Model for Names {
    ghost use Rattle.std.specs.Prelude.{ℕ, List};

    ghost Value = { List (List ℕ) };

    ghost use Rattle.enc_pdb_writer.specs.Names.{names_kept, KeepsNames};

    ghost view = { λ n. names_kept n.bytes.items n.root n.offsets.items };

    ghost invariant = { λ n. KeepsNames n.bytes.items n.root n.offsets.items };
}

/// Adds bytes to `#Blob`, and answers their offset.
fn add_blob(heaps: &mut HeapBuilder, bytes: &[u8]) -> Result<u32, AllocError>
    requires room { heaps_size heaps.old + (length bytes.now + 4) ≤ 2 ^ 29 }
    ensures grown { OnOk result (Grown heaps.old heaps.new) }
    ensures kept { OnOk result (is_kept heaps.new.blobs bytes.now ≡ true) }
    ensures offset { IfOk result (λ offset. offset ≡ blob_offset heaps.new bytes.now) }
    ensures size { OnOk result (heaps_size heaps.new ≤ heaps_size heaps.old + (length bytes.now + 4)) }
{
    match heaps.add_blob(bytes) {
        Ok(offset) => Ok(offset),
        Err(BuildFault::Memory) => Err(AllocError),
        Err(BuildFault::TooLarge(_)) => unreachable!(),
    }
}

/// The blob of a name whose bytes stand at an offset: no separator, and one part (Portable PDB v1.0,
/// Document Name Blob).
#[tactic(auto, unfolding(enc_ppdb::specs::Holding::name_blob))]
fn name_blob(alloc: Global, name: u32) -> Result<Vec<u8>, AllocError>
    requires { name < 2 ^ 29 }
    ensures { IfOk result (λ blob. blob.items ≡ name_blob_of name) }
{
    let mut blob = Vec::new(alloc);
    blob.push(0)?;
    push_unsigned(name, &mut blob)?;
    Ok(blob)
}

/// Adds a name and the blob that says it, and answers the blob's offset.
fn add_name(alloc: Global, name: &[u8], heaps: &mut HeapBuilder) -> Result<u32, AllocError>
    requires room { heaps_size heaps.old + (length name.now + 13) ≤ 2 ^ 29 }
    ensures grown { OnOk result (Grown heaps.old heaps.new) }
    ensures said { IfOk result (λ offset. SaysName heaps.new name.now offset) }
    ensures size { OnOk result (heaps_size heaps.new ≤ heaps_size heaps.old + (length name.now + 13)) }
{
    let offset = add_blob(heaps, name)?;
    let blob = name_blob(alloc, offset)?;
    let at = add_blob(heaps, &blob)?;
    Ok(at)
}

/// Adds the names of documents, and answers the offsets of their blobs.
fn add_names(
    alloc: Global,
    documents: &[DocumentValue],
    heaps: &mut HeapBuilder,
) -> Result<Vec<u32>, AllocError>
    requires room { HaveRoom documents.now }
    requires none { heaps_size heaps.old ≤ 1 }
    ensures grown { OnOk result (Grown heaps.old heaps.new) }
    ensures said { IfOk result (λ offsets. AreSaid heaps.new (map name_stated documents.now) offsets.items) }
    ensures few { OnOk result (heaps_size heaps.new ≤ 2 ^ 29) }
{
    let mut offsets = Vec::new(alloc);
    for i in 0..documents.len() {
        let offset = add_name(alloc, documents[i].name.as_slice(), heaps)?;
        offsets.push(offset)?;
    }
    Ok(offsets)
}

/// The bytes of a root with these heaps and no rows.
fn name_root(alloc: Global, heaps: HeapBuilder) -> Result<Vec<u8>, AllocError>
    requires { heaps.starts ≡ pdb_starts }
    ensures root { IfOk result (λ bytes. is_ok (root_of bytes.items) ≡ true) }
    ensures heaps { IfOk result (λ bytes. (root : TheRoot) → root_of bytes.items ≡ Ok root
        → heaps_of bytes.items root ≡ heaps_built heaps) }
{
    heaps.laws();
    pdb_root_law();
    let root = RootBuilder::of(heaps, TableBuilder::begin(alloc));
    let bytes = root.finish_pdb(alloc, &[0; 32])?;
    Ok(bytes)
}

/// The i-th offset, from 0; None past the last.
fn offset_at(offsets: &[u32], i: usize) -> Option<u32>
    ensures { result ≡ slice_get offsets.now i }
{
    offsets.get(i).copied()
}

impl Names {
    /// The names of documents, in their order.
    pub(crate) fn of(alloc: Global, documents: &[DocumentValue]) -> Result<Names, AllocError>
        requires { HaveRoom documents.now }
        ensures { IfOk result (λ names. names ≡ map name_stated documents.now) }
    {
        let mut heaps = HeapBuilder::begin(alloc, NO_STARTS)?;
        let offsets = add_names(alloc, documents, &mut heaps)?;
        heaps.laws();
        written_laws();
        let bytes = name_root(alloc, heaps)?;
        match read_root(&bytes) {
            Ok(root) => Ok(Names {
                bytes,
                root,
                offsets,
            }),
            Err(_) => unreachable!(),
        }
    }

    /// The i-th name, from 0; None past the last.
    pub(crate) fn get(&self, i: usize) -> Option<NameRef<'_>>
        ensures { result ≡ slice_get self.now i }
    {
        let offset = match offset_at(&self.offsets, i) {
            Some(offset) => offset,
            None => return None,
        };
        NameRef::at(Heaps::of(&self.bytes, &self.root), offset)
    }
}
