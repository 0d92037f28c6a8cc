//! Judging the signatures of a module: F11.
ghost use Rattle.std.specs.Prelude.{◌≡◌, ◌<◌, ◌^◌, IfOk, OnOk, Some};
ghost use Rattle.enc_base.specs.Order.{first_below};
ghost use Rattle.enc_meta.specs.Heaps.{part};
ghost use Rattle.enc_plain.specs.Cell.{kind_in, blobs};
ghost use Rattle.enc_rows.specs.Layout.{IsWithin, rows_of};
ghost use Rattle.enc_image.specs.Base.{blob_or_none, signature_fault_at, signature_fault_in, signature_fault};
ghost use Rattle.enc_image.specs.Known.{is_signature_at, AreSignatures};
ghost use Rattle.enc_image.specs.Seen.{source_seen};

use crate::judge::Cells;
use enc_base::tables::TABLE_COUNT;
use enc_base::{Place, Token};
use enc_plain::{is_signature, signature_column};
use std::alloc::{AllocError, Global};
use std::collections::BTreeSet;

/// The bytes of a blob, none where its offset isn't good.
fn blob_or_none<'a>(cells: &Cells<'a>, offset: u32) -> &'a [u8]
    ensures { result.now ≡ blob_or_none (source_seen cells.now) offset }
{
    match cells.heaps.blob(offset) {
        Some(blob) => blob,
        None => &[],
    }
}

/// Whether a signature of the table stands at an offset. One that is known isn't read again, so rows
/// that share a signature cost what one does.
#[tactic(auto, using(enc_base::proofs::Passed::one_passes))]
fn is_signature_at(
    cells: &Cells<'_>,
    table: u8,
    offset: u32,
    known: &mut BTreeSet<u32>,
) -> Result<bool, AllocError>
    requires known { AreSignatures (source_seen cells.now) table known.old }
    ensures good { IfOk result (λ good. good ≡ is_signature_at (source_seen cells.now) table offset) }
    ensures known { OnOk result (AreSignatures (source_seen cells.now) table known.new) }
{
    if known.contains(&offset) {
        return Ok(true);
    }
    let blob = blob_or_none(cells, offset);
    if !is_signature(table, blob, cells.tables.counts()) {
        return Ok(false);
    }
    known.insert(offset)?;
    Ok(true)
}

/// The place of a signature that isn't one.
#[tactic(auto, unfolding(crate::specs::Base::signature_fault_at))]
fn signature_fault_at(
    cells: &Cells<'_>,
    table: u8,
    column: u8,
    r: u32,
    known: &mut BTreeSet<u32>,
) -> Result<Option<Place>, AllocError>
    requires bytes { IsWithin (part cells.now.bytes.now cells.now.tables.now.span) cells.now.tables.now }
    requires row { r < rows_of cells.now.tables.now table }
    requires few { r < 2 ^ 24 }
    requires column { kind_in table column ≡ Some blobs }
    requires known { AreSignatures (source_seen cells.now) table known.old }
    ensures place { IfOk result (λ p. p ≡ signature_fault_at (source_seen cells.now) table column r) }
    ensures known { OnOk result (AreSignatures (source_seen cells.now) table known.new) }
{
    let row = Token { table, row: r + 1 };
    let offset = cells.tables.cell(cells.bytes, row, column);
    match is_signature_at(cells, table, offset, known) {
        Err(error) => Err(error),
        Ok(true) => Ok(None),
        Ok(false) => Ok(Some(Place::Cell(row, column))),
    }
}

/// The first such place of a table with a column of signatures.
#[tactic(auto, using(enc_base::proofs::First::first_steps))]
fn signature_fault_below(
    alloc: Global,
    cells: &Cells<'_>,
    table: u8,
    column: u8,
) -> Result<Option<Place>, AllocError>
    requires bytes { IsWithin (part cells.now.bytes.now cells.now.tables.now.span) cells.now.tables.now }
    requires column { kind_in table column ≡ Some blobs }
    ensures { IfOk result (λ p. p ≡ first_below (signature_fault_at (source_seen cells.now) table column)
        (rows_of cells.now.tables.now table)) }
{
    let mut known = BTreeSet::new(alloc);
    for r in 0..cells.tables.count(table) {
        match signature_fault_at(cells, table, column, r, &mut known) {
            Err(error) => return Err(error),
            Ok(Some(place)) => return Ok(Some(place)),
            Ok(None) => {}
        }
    }
    Ok(None)
}

/// The first such place of a table.
#[tactic(auto, unfolding(crate::specs::Base::signature_fault_in))]
fn signature_fault_in(
    alloc: Global,
    cells: &Cells<'_>,
    table: u8,
) -> Result<Option<Place>, AllocError>
    requires { IsWithin (part cells.now.bytes.now cells.now.tables.now.span) cells.now.tables.now }
    ensures { IfOk result (λ p. p ≡ signature_fault_in (source_seen cells.now) table) }
{
    match signature_column(table) {
        Some(column) => signature_fault_below(alloc, cells, table, column),
        None => Ok(None),
    }
}

/// F11: the first signature that isn't one of its kind (ECMA-335 II.23.2). It reads each signature
/// of a table once, whatever the number of rows that share it, and takes memory for the offsets of one
/// table's.
#[tactic(auto, using(enc_base::proofs::First::first_steps), unfolding(crate::specs::Base::signature_fault))]
pub fn signature_fault(alloc: Global, cells: &Cells<'_>) -> Result<Option<Place>, AllocError>
    requires { IsWithin (part cells.now.bytes.now cells.now.tables.now.span) cells.now.tables.now }
    ensures { IfOk result (λ p. p ≡ signature_fault (source_seen cells.now)) }
{
    for table in 0..TABLE_COUNT {
        match signature_fault_in(alloc, cells, table) {
            Err(error) => return Err(error),
            Ok(Some(place)) => return Ok(Some(place)),
            Ok(None) => {}
        }
    }
    Ok(None)
}
