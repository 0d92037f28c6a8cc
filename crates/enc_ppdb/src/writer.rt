//! Documents that are written, each value once (Portable PDB v1.0, Document Table).
ghost use Rattle.std.specs.Prelude.{◌≡◌, ◌+◌, ◌-◌, ◌*◌, ◌^◌, ◌<◌, ◌≤◌, ◌&&◌, true, [], ◌∷◌, length, not, nat_lt, slice_index, IfOk, OnOk};
ghost use Rattle.std.specs.BTreeMap.{IsEmpty};
ghost use Rattle.enc_base.specs.declared.refusal.StreamName.TheVariants.{Pdb as PdbName};
ghost use Rattle.enc_meta.specs.Built.{is_kept, is_guid_kept, blob_offset, guid_number};
ghost use Rattle.enc_meta.specs.BuiltLaws.{IsGood};
ghost use Rattle.enc_plain.specs.DebugSeen.{document_seen};
ghost use Rattle.enc_rows.specs.Written.{count_at};
ghost use Rattle.enc_base.specs.Tables.{document as document_table};
ghost use Rattle.enc_ppdb.specs.Written.{document_weight, most_pdb_weight, pdb_starts};
ghost use Rattle.enc_ppdb.specs.Holding.{document_key, keeps_values, name_blob as name_blob_of, heaps_size, Grown, RefusesPdb, passes_with, is_unknown, OneDocument, RowGiven};

use enc_base::tables::DOCUMENT;
use enc_base::{StreamName, push_unsigned};
use enc_meta::{BuildFault, HeapBuilder, HeapLengths};
use enc_plain::DocumentRef;
use enc_rows::TableBuilder;
use std::alloc::{AllocError, Global};
use std::collections::BTreeMap;

/// Heaps that stand behind no others.
const NO_STARTS: HeapLengths = HeapLengths {
    strings: 0,
    users: 0,
    blobs: 0,
    guids: 0,
};

/// The greatest weight that is written.
const MOST_WEIGHT: u64 = 0x2000_0000;

/// What is written of a plain PDB so far: its heaps and rows, the rows of documents by the numbers of
/// their values and by their places in the source, and the weight.
#[derive(Drop)]
pub(crate) struct Writer {
    pub(crate) heaps: HeapBuilder,
    pub(crate) tables: TableBuilder,
    pub(crate) by_value: BTreeMap<[u32; 4], u32>,
    pub(crate) places: BTreeMap<u64, u32>,
    pub(crate) weight: u64,
}

/// The weight with so much more; `TooLarge` where it passes its limit.
pub(crate) fn weighed(weight: u64, more: u64) -> Result<u64, BuildFault>
    ensures sum { IfOk result (λ w. w ≡ weight + more) }
    ensures few { IfOk result (λ w. w ≤ 2 ^ 29) }
    ensures refused { RefusesPdb result (nat_lt most_pdb_weight (weight + more)) }
{
    if weight > MOST_WEIGHT || more > MOST_WEIGHT - weight {
        return Err(BuildFault::TooLarge(StreamName::Pdb));
    }
    Ok(weight + more)
}

/// Adds bytes to `#Blob`, and answers their offset.
pub(crate) fn add_blob(heaps: &mut HeapBuilder, bytes: &[u8]) -> Result<u32, BuildFault>
    ensures grown { Grown heaps.old heaps.new }
    ensures kept { OnOk result (is_kept heaps.new.blobs bytes.now ≡ true) }
    ensures offset { IfOk result (λ offset. offset ≡ blob_offset heaps.new bytes.now) }
    ensures size { OnOk result (heaps_size heaps.new ≤ heaps_size heaps.old + (length bytes.now + 4)) }
    ensures same { OnOk result (is_kept heaps.old.blobs bytes.now ≡ true → heaps.new ≡ heaps.old) }
    ensures refused { RefusesPdb result
        (passes_with heaps.old (is_kept heaps.old.blobs bytes.now) (length bytes.now + 4)) }
{
    match heaps.add_blob(bytes) {
        Ok(offset) => Ok(offset),
        Err(BuildFault::Memory) => Err(BuildFault::Memory),
        Err(BuildFault::TooLarge(_)) => Err(BuildFault::TooLarge(StreamName::Pdb)),
    }
}

/// Adds a GUID to `#GUID`, and answers its number.
fn add_guid(heaps: &mut HeapBuilder, guid: [u8; 16]) -> Result<u32, BuildFault>
    ensures grown { Grown heaps.old heaps.new }
    ensures kept { OnOk result (is_guid_kept heaps.new.guids guid ≡ true) }
    ensures number { IfOk result (λ number. number ≡ guid_number heaps.new guid) }
    ensures size { OnOk result (heaps_size heaps.new ≤ heaps_size heaps.old + 16) }
    ensures same { OnOk result (is_guid_kept heaps.old.guids guid ≡ true → heaps.new ≡ heaps.old) }
    ensures refused { RefusesPdb result (passes_with heaps.old (is_guid_kept heaps.old.guids guid) 16) }
{
    match heaps.add_guid(guid) {
        Ok(number) => Ok(number),
        Err(BuildFault::Memory) => Err(BuildFault::Memory),
        Err(BuildFault::TooLarge(_)) => Err(BuildFault::TooLarge(StreamName::Pdb)),
    }
}

/// Adds the values of a document, and answers their numbers: documents are the same exactly where
/// these are.
fn numbers_of(
    heaps: &mut HeapBuilder,
    name: &[u8],
    document: &DocumentRef<'_>,
) -> Result<[u32; 4], BuildFault>
    requires name { name.now ≡ document.now.name }
    ensures grown { Grown heaps.old heaps.new }
    ensures kept { OnOk result (keeps_values heaps.new (document_seen document.now) ≡ true) }
    ensures numbers { IfOk result (λ numbers. numbers ≡ document_key heaps.new (document_seen document.now)) }
    ensures size { OnOk result (heaps_size heaps.new
        ≤ heaps_size heaps.old + (40 + length name.now + length document.now.hash.now)) }
    ensures same { OnOk result (keeps_values heaps.old (document_seen document.now) ≡ true → heaps.new ≡ heaps.old) }
    ensures refused { RefusesPdb result (passes_with heaps.old (keeps_values heaps.old (document_seen document.now))
        (40 + length name.now + length document.now.hash.now)) }
{
    let name = match add_blob(heaps, name) {
        Ok(offset) => offset,
        Err(fault) => return Err(fault),
    };
    let algorithm = match add_guid(heaps, document.algorithm) {
        Ok(number) => number,
        Err(fault) => return Err(fault),
    };
    let hash = match add_blob(heaps, document.hash) {
        Ok(offset) => offset,
        Err(fault) => return Err(fault),
    };
    let language = match add_guid(heaps, document.language) {
        Ok(number) => number,
        Err(fault) => return Err(fault),
    };
    Ok([name, algorithm, hash, language])
}

/// The blob of a name that stands at an offset: no separator, and one part.
#[tactic(auto, unfolding(crate::specs::Holding::name_blob))]
fn name_blob(alloc: Global, name: u32) -> Result<Vec<u8>, AllocError>
    requires { name < 2 ^ 29 }
    ensures { IfOk result (λ blob. blob.items ≡ name_blob_of name) }
{
    let mut blob = Vec::new(alloc);
    blob.push(0)?;
    push_unsigned(name, &mut blob)?;
    Ok(blob)
}

/// The weight with that of a document with a name and a hash of so many bytes; `TooLarge` where it
/// passes its limit.
fn weighed_document(weight: u64, name: usize, hash: usize) -> Result<u64, BuildFault>
    ensures sum { IfOk result (λ w. w ≡ weight + (96 + name + hash)) }
    ensures few { IfOk result (λ w. w ≤ 2 ^ 29) }
    ensures refused { RefusesPdb result (nat_lt most_pdb_weight (weight + (96 + name + hash))) }
{
    if name > MOST_WEIGHT as usize || hash > MOST_WEIGHT as usize {
        return Err(BuildFault::TooLarge(StreamName::Pdb));
    }
    weighed(weight, 96 + name as u64 + hash as u64)
}

/// Adds the row of a document with these numbers, and answers its number.
fn push_document(
    alloc: Global,
    numbers: [u32; 4],
    heaps: &mut HeapBuilder,
    tables: &mut TableBuilder,
) -> Result<u32, BuildFault>
    requires name { slice_index numbers 0 < 2 ^ 29 }
    requires few { count_at tables.old document_table < 2 ^ 24 - 1 }
    ensures grown { Grown heaps.old heaps.new }
    ensures kept { OnOk result (is_kept heaps.new.blobs (name_blob_of (slice_index numbers 0)) ≡ true) }
    ensures rows { OnOk result (OneDocument tables.old tables.new (blob_offset heaps.new
        (name_blob_of (slice_index numbers 0)) ∷ slice_index numbers 1 ∷ slice_index numbers 2 ∷ slice_index numbers 3
        ∷ [])) }
    ensures number { IfOk result (λ row. row ≡ count_at tables.new document_table) }
    ensures size { OnOk result (heaps_size heaps.new ≤ heaps_size heaps.old + 9) }
    ensures refused { RefusesPdb result (nat_lt most_pdb_weight (heaps_size heaps.old + 9)) }
{
    let blob = name_blob(alloc, numbers[0])?;
    let offset = match add_blob(heaps, &blob) {
        Ok(offset) => offset,
        Err(fault) => return Err(fault),
    };
    tables.push(DOCUMENT, &[offset, numbers[1], numbers[2], numbers[3]])?;
    Ok(tables.count(DOCUMENT))
}

impl Writer {
    /// Nothing is written.
    pub(crate) fn begin(alloc: Global) -> Result<Writer, AllocError>
        ensures heaps { IfOk result (λ w. heaps_size w.heaps ≡ 1) }
        ensures starts { IfOk result (λ w. w.heaps.starts ≡ pdb_starts) }
        ensures texts { IfOk result (λ w. w.heaps.texts ≡ []) }
        ensures users { IfOk result (λ w. w.heaps.users ≡ []) }
        ensures tables { IfOk result (λ w. w.tables ≡ []) }
        ensures by_value { IfOk result (λ w. IsEmpty w.by_value) }
        ensures places { IfOk result (λ w. IsEmpty w.places) }
        ensures weight { IfOk result (λ w. w.weight ≡ 65536) }
    {
        Ok(Writer {
            heaps: HeapBuilder::begin(alloc, NO_STARTS)?,
            tables: TableBuilder::begin(alloc),
            by_value: BTreeMap::new(alloc),
            places: BTreeMap::new(alloc),
            weight: 0x1_0000,
        })
    }

    /// The row of a document, which is added where none has its value.
    pub(crate) fn row_of(
        &mut self,
        alloc: Global,
        document: &DocumentRef<'_>,
    ) -> Result<u32, BuildFault>
        requires size { heaps_size self.old.heaps ≤ self.old.weight }
        requires light { self.old.weight ≤ 2 ^ 29 }
        requires few { 96 * count_at self.old.tables document_table ≤ self.old.weight }
        ensures given { IfOk result (λ row. RowGiven (document_seen document.now) self.old self.new row) }
        ensures light { OnOk result (self.new.weight ≤ 2 ^ 29) }
        ensures refused { RefusesPdb result (is_unknown self.old (document_seen document.now)
            && nat_lt most_pdb_weight (self.old.weight + document_weight (document_seen document.now))) }
    {
        let mut name = Vec::new(alloc);
        document.name.push_to(&mut name)?;
        let numbers = match numbers_of(&mut self.heaps, &name, document) {
            Ok(numbers) => numbers,
            Err(fault) => return Err(fault),
        };
        if let Some(row) = self.by_value.get(&numbers) {
            return Ok(*row);
        }
        self.weight = match weighed_document(self.weight, name.len(), document.hash.len()) {
            Ok(weight) => weight,
            Err(fault) => return Err(fault),
        };
        let row = match push_document(alloc, numbers, &mut self.heaps, &mut self.tables) {
            Ok(row) => row,
            Err(fault) => return Err(fault),
        };
        match self.by_value.insert(numbers, row) {
            Ok(_) => Ok(row),
            Err(_) => Err(BuildFault::Memory),
        }
    }
}
