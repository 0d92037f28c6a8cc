//! The numbers in the columns of a row that edits are about (ECMA-335 II.22).
ghost use Rattle.std.specs.Prelude.{◌≡◌, ◌<◌, ◌^◌, true, false, List, Some, ℕ, length, IsTrue, IfOk, slice_get};
ghost use Rattle.enc_plain.specs.Cell.{is_body, is_field, kind_of, kind_in, numbers, number, refer};
ghost use Rattle.enc_plain.specs.Sound.{is_reference};
ghost use Rattle.enc_schema.specs.Schema.{columns_in, column_in};
ghost use Rattle.enc_schema.specs.declared.column.Column.TheVariants.{Text, Blob, Index, Coded};
ghost use Rattle.enc_rules.specs.Edited.{edited};
ghost use Rattle.enc_list_delta.specs.Delta.{is_edited, cells_written};
ghost use Rattle.enc_list_delta.specs.Holds.{MayFollow, heaps_written};
ghost use Rattle.enc_writer.specs.RowsWriting.{AreRowsReady, SaysPlain, SaysNumber};

use crate::bodies::Bodies;
use crate::kept::{blob_offset, text_offset};
use enc_base::Token;
use enc_base::tables::METHOD_DEF;
use enc_meta::HeapBuilder;
use enc_plain::{CellView, ChainView};
use enc_rules::Context;
use enc_schema::{Coding, Column, encode_coded};
use std::alloc::AllocError;

/// The number in a column of numbers that is no place.
fn plain_number<C: ChainView>(context: &Context<'_, C>, row: Token, i: u8, column: Column) -> u32
    requires may { MayFollow context.now.chain context.now.list }
    requires row { is_edited context.now.chain.plain context.now.list.edits row ≡ true }
    requires column { column_in row.table i ≡ Some column }
    requires kind { kind_of column ≡ Some numbers }
    requires body { is_body row.table i ≡ false }
    requires field { is_field row.table i ≡ false }
    ensures { SaysPlain context.now.chain context.now.list row i column result }
{
    context.number(row, i)
}

/// The offset of the text in a column.
fn text_number<C: ChainView>(
    context: &Context<'_, C>,
    heaps: &mut HeapBuilder,
    row: Token,
    i: u8,
) -> Result<u32, AllocError>
    requires may { MayFollow context.now.chain context.now.list }
    requires heaps { heaps.old ≡ heaps_written context.now.chain context.now.list }
    requires row { is_edited context.now.chain.plain context.now.list.edits row ≡ true }
    requires column { column_in row.table i ≡ Some Text }
    ensures says { IfOk result (λ x. SaysPlain context.now.chain context.now.list row i Text x) }
    ensures same { heaps.new ≡ heaps.old }
{
    let offset = text_offset(heaps, context.text(row, i))?;
    Ok(offset)
}

/// The offset of the blob in a column.
fn blob_number<C: ChainView>(
    context: &Context<'_, C>,
    heaps: &mut HeapBuilder,
    row: Token,
    i: u8,
) -> Result<u32, AllocError>
    requires may { MayFollow context.now.chain context.now.list }
    requires heaps { heaps.old ≡ heaps_written context.now.chain context.now.list }
    requires row { is_edited context.now.chain.plain context.now.list.edits row ≡ true }
    requires column { column_in row.table i ≡ Some Blob }
    ensures says { IfOk result (λ x. SaysPlain context.now.chain context.now.list row i Blob x) }
    ensures same { heaps.new ≡ heaps.old }
{
    let offset = blob_offset(heaps, context.blob(row, i))?;
    Ok(offset)
}

/// The number of the reference in an index: its row.
fn index_number<C: ChainView>(context: &Context<'_, C>, row: Token, i: u8, table: u8) -> u32
    requires may { MayFollow context.now.chain context.now.list }
    requires row { is_edited context.now.chain.plain context.now.list.edits row ≡ true }
    requires column { column_in row.table i ≡ Some (Index table) }
    ensures { SaysPlain context.now.chain context.now.list row i (Index table) result }
{
    context.token(row, i).row
}

/// The token in a column of a coded index.
fn coded_token<C: ChainView>(context: &Context<'_, C>, row: Token, i: u8, kind: Coding) -> Token
    requires may { MayFollow context.now.chain context.now.list }
    requires row { is_edited context.now.chain.plain context.now.list.edits row ≡ true }
    requires column { column_in row.table i ≡ Some (Coded kind) }
    ensures cell { slice_get (cells_written context.now.chain.plain context.now.list.edits row) i
        ≡ Some (refer result) }
    ensures sound { is_reference (edited context.now.chain.plain context.now.list.edits) (Coded kind) result ≡ true }
    ensures low { result.row < 2 ^ 24 }
{
    context.token(row, i)
}

/// The number of the reference in a coded index.
fn coded_number<C: ChainView>(context: &Context<'_, C>, row: Token, i: u8, kind: Coding) -> u32
    requires may { MayFollow context.now.chain context.now.list }
    requires row { is_edited context.now.chain.plain context.now.list.edits row ≡ true }
    requires column { column_in row.table i ≡ Some (Coded kind) }
    ensures { SaysPlain context.now.chain context.now.list row i (Coded kind) result }
{
    match encode_coded(kind, coded_token(context, row, i, kind)) {
        Some(number) => number,
        None => unreachable!(),
    }
}

/// The number in a column that is no place of a body. Runs of children aren't told: the log tells them.
fn number_of_cell<C: ChainView>(
    context: &Context<'_, C>,
    heaps: &mut HeapBuilder,
    row: Token,
    i: u8,
    column: Column,
) -> Result<u32, AllocError>
    requires may { MayFollow context.now.chain context.now.list }
    requires heaps { heaps.old ≡ heaps_written context.now.chain context.now.list }
    requires row { is_edited context.now.chain.plain context.now.list.edits row ≡ true }
    requires column { column_in row.table i ≡ Some column }
    requires body { is_body row.table i ≡ false }
    ensures says { IfOk result (λ x. SaysPlain context.now.chain context.now.list row i column x) }
    ensures same { heaps.new ≡ heaps.old }
{
    match column {
        Column::Num8 => Ok(plain_number(context, row, i, Column::Num8)),
        Column::Num16 => Ok(plain_number(context, row, i, Column::Num16)),
        Column::Num32 => Ok(plain_number(context, row, i, Column::Num32)),
        Column::Text => text_number(context, heaps, row, i),
        Column::Blob => blob_number(context, heaps, row, i),
        Column::Guid => unreachable!(),
        Column::Index(table) => Ok(index_number(context, row, i, table)),
        Column::Coded(kind) => Ok(coded_number(context, row, i, kind)),
        Column::Run(_) => Ok(0),
    }
}

/// The number in a column.
pub(crate) fn number_at<C: ChainView>(
    context: &Context<'_, C>,
    heaps: &mut HeapBuilder,
    bodies: &Bodies,
    row: Token,
    i: u8,
    column: Column,
) -> Result<u32, AllocError>
    requires ready { AreRowsReady context.now.chain context.now.list heaps.old bodies.now.il.items bodies.now.methods }
    requires row { is_edited context.now.chain.plain context.now.list.edits row ≡ true }
    requires column { column_in row.table i ≡ Some column }
    ensures says { IfOk result (λ x. SaysNumber context.now.chain context.now.list bodies.now.il.items row i column x) }
    ensures same { heaps.new ≡ heaps.old }
{
    if row.table == METHOD_DEF && i == 0 {
        return Ok(bodies.place_of(row.row));
    }
    let number = number_of_cell(context, heaps, row, i, column)?;
    Ok(number)
}
