//! The rows of a delta, table by table (ECMA-335 II.22).
ghost use Rattle.std.specs.Prelude.{◌≡◌, ◌+◌, ◌-◌, ◌<◌, ◌≤◌, [], ℕ, true, false, Some, IsTrue, IfOk, OnOk};
ghost use Rattle.enc_base.specs.Token.{nth_row};
ghost use Rattle.enc_rows.specs.Written.{rows_at};
ghost use Rattle.enc_plain.specs.Sound.{row_count};
ghost use Rattle.enc_schema.specs.Schema.{column_in};
ghost use Rattle.enc_base.specs.Tables.{method_def};
ghost use Rattle.enc_meta.specs.BuiltLaws.{heaps_joined};
ghost use Rattle.enc_rules.specs.Listed.{count_after};
ghost use Rattle.enc_list_delta.specs.Delta.{is_edited};
ghost use Rattle.enc_list_delta.specs.Holds.{MayFollow, heaps_written, is_listed_table};
ghost use Rattle.enc_writer.specs.Writing.{MethodsPlaced, OthersStay, IsTableWritten, AreTablesWritten};
ghost use Rattle.enc_writer.specs.RowsWriting.{AreRowsReady, DeltaFrontSays, DeltaRowSays, RowsWritten, joined_with};

use crate::bodies::Bodies;
use crate::numbers::number_at;
use enc_base::Token;
use enc_base::tables::{ENC_LOG, ENC_MAP, METHOD_DEF, MODULE};
use enc_meta::HeapBuilder;
use enc_plain::ChainView;
use enc_rows::TableBuilder;
use enc_rules::Context;
use enc_schema::{Column, columns_of};
use std::alloc::{AllocError, Global};

/// Adds the number in the next column of a row.
#[tactic(auto, using(crate::proofs::RowsSay::more_says))]
fn push_number<C: ChainView>(
    context: &Context<'_, C>,
    heaps: &mut HeapBuilder,
    bodies: &Bodies,
    row: Token,
    i: u8,
    column: Column,
    numbers: &mut Vec<u32>,
) -> Result<(), AllocError>
    requires ready { AreRowsReady context.now.chain context.now.list heaps.old bodies.now.il.items bodies.now.methods }
    requires row { is_edited context.now.chain.plain context.now.list.edits row ≡ true }
    requires column { column_in row.table i ≡ Some column }
    requires so_far { DeltaFrontSays context.now.chain context.now.list bodies.now.il.items row i numbers.old.items }
    ensures says { OnOk result (DeltaFrontSays context.now.chain context.now.list bodies.now.il.items row
        (i + 1) numbers.new.items) }
    ensures same { heaps.new ≡ heaps.old }
{
    let number = number_at(context, heaps, bodies, row, i, column)?;
    numbers.push(number)?;
    Ok(())
}

/// The numbers of a row, one for each column.
#[tactic(auto, using(crate::proofs::RowsSay::none_says))]
fn row_numbers<C: ChainView>(
    alloc: Global,
    context: &Context<'_, C>,
    heaps: &mut HeapBuilder,
    bodies: &Bodies,
    row: Token,
) -> Result<Vec<u32>, AllocError>
    requires ready { AreRowsReady context.now.chain context.now.list heaps.old bodies.now.il.items bodies.now.methods }
    requires row { is_edited context.now.chain.plain context.now.list.edits row ≡ true }
    ensures says { IfOk result (λ numbers. DeltaRowSays context.now.chain context.now.list bodies.now.il.items row
        numbers.items) }
    ensures same { heaps.new ≡ heaps.old }
{
    let columns = columns_of(row.table);
    let mut numbers = Vec::new(alloc);
    for i in 0..columns.len() {
        push_number(
            context,
            heaps,
            bodies,
            row,
            i as u8,
            columns[i],
            &mut numbers,
        )?;
    }
    Ok(numbers)
}

/// Adds a row that edits are about.
fn push_row<C: ChainView>(
    alloc: Global,
    context: &Context<'_, C>,
    heaps: &mut HeapBuilder,
    bodies: &Bodies,
    table: u8,
    n: u32,
    tables: &mut TableBuilder,
) -> Result<(), AllocError>
    requires ready { AreRowsReady context.now.chain context.now.list heaps.old bodies.now.il.items bodies.now.methods }
    requires row { is_edited context.now.chain.plain context.now.list.edits (nth_row table n) ≡ true }
    requires so_far { RowsWritten context.now.chain context.now.list bodies.now.il.items table n
        (rows_at tables.old table) }
    ensures says { OnOk result (RowsWritten context.now.chain context.now.list bodies.now.il.items table (n + 1)
        (rows_at tables.new table)) }
    ensures others { OnOk result (OthersStay table tables.old tables.new) }
    ensures same { heaps.new ≡ heaps.old }
{
    let row = Token { table, row: n + 1 };
    let numbers = row_numbers(alloc, context, heaps, bodies, row)?;
    tables.push(table, &numbers)?;
    Ok(())
}

/// Whether edits are about a method.
fn is_edited_method<C: ChainView>(context: &Context<'_, C>, bodies: &Bodies, row: Token) -> bool
    requires bodies { MethodsPlaced context.now.chain context.now.list
        (joined_with context.now.chain context.now.list) bodies.now.il.items bodies.now.methods }
    requires method { row.table ≡ method_def }
    ensures { result ≡ is_edited context.now.chain.plain context.now.list.edits row }
{
    match bodies.methods.get(&row.row) {
        Some(_) => true,
        None => false,
    }
}

/// The number of rows that a table of the chain has.
fn count_before<C: ChainView>(context: &Context<'_, C>, table: u8) -> u32
    ensures { result ≡ row_count context.now.chain.plain table }
{
    context.old.view.count(table)
}

/// Whether edits are about a row: about each that the chain doesn't have, and of the others about methods
/// alone.
pub(crate) fn is_edited_row<C: ChainView>(
    context: &Context<'_, C>,
    bodies: &Bodies,
    row: Token,
) -> bool
    requires bodies { MethodsPlaced context.now.chain context.now.list
        (joined_with context.now.chain context.now.list) bodies.now.il.items bodies.now.methods }
    requires may { MayFollow context.now.chain context.now.list }
    requires there { row.row ≤ count_after context.now.chain context.now.list.edits row.table }
    ensures { result ≡ is_edited context.now.chain.plain context.now.list.edits row }
{
    if row.table == METHOD_DEF {
        return is_edited_method(context, bodies, row);
    }
    row.row > count_before(context, row.table)
}

/// Adds the next row of a table, where edits are about it.
fn push_if_edited<C: ChainView>(
    alloc: Global,
    context: &Context<'_, C>,
    heaps: &mut HeapBuilder,
    bodies: &Bodies,
    table: u8,
    n: u32,
    tables: &mut TableBuilder,
) -> Result<(), AllocError>
    requires ready { AreRowsReady context.now.chain context.now.list heaps.old bodies.now.il.items bodies.now.methods }
    requires there { n < count_after context.now.chain context.now.list.edits table }
    requires so_far { RowsWritten context.now.chain context.now.list bodies.now.il.items table n
        (rows_at tables.old table) }
    ensures says { OnOk result (RowsWritten context.now.chain context.now.list bodies.now.il.items table (n + 1)
        (rows_at tables.new table)) }
    ensures others { OnOk result (OthersStay table tables.old tables.new) }
    ensures same { heaps.new ≡ heaps.old }
{
    if !is_edited_row(context, bodies, Token { table, row: n + 1 }) {
        return Ok(());
    }
    push_row(alloc, context, heaps, bodies, table, n, tables)
}

/// The number of rows at the front of a table that edits aren't about, as far as that is known: 0 for
/// methods, and else the chain's.
pub(crate) fn first_row<C: ChainView>(context: &Context<'_, C>, table: u8) -> u32
    requires may { MayFollow context.now.chain context.now.list }
    ensures none { (k : ℕ) → k < result
        → is_edited context.now.chain.plain context.now.list.edits (nth_row table k) ≡ false }
    ensures low { result ≤ count_after context.now.chain context.now.list.edits table }
{
    if table == METHOD_DEF {
        return 0;
    }
    count_before(context, table)
}

/// Adds the rows of a table.
#[tactic(auto, using(crate::proofs::RowsSay::begin_written))]
fn push_table<C: ChainView>(
    alloc: Global,
    context: &Context<'_, C>,
    heaps: &mut HeapBuilder,
    bodies: &Bodies,
    table: u8,
    tables: &mut TableBuilder,
) -> Result<(), AllocError>
    requires ready { AreRowsReady context.now.chain context.now.list heaps.old bodies.now.il.items bodies.now.methods }
    requires table { table < 64 }
    requires none { rows_at tables.old table ≡ [] }
    ensures written { OnOk result (IsTableWritten context.now.chain context.now.list
        (joined_with context.now.chain context.now.list) bodies.now.il.items table tables.new) }
    ensures others { OnOk result (OthersStay table tables.old tables.new) }
    ensures same { heaps.new ≡ heaps.old }
{
    let count = context.counts().rows[table as usize];
    for n in first_row(context, table)..count {
        push_if_edited(alloc, context, heaps, bodies, table, n, tables)?;
    }
    Ok(())
}

/// Whether the rows of a table are told by the tokens of EncMap: those of all but Module, EncLog and EncMap.
fn is_listed(table: u8) -> bool
    ensures { result ≡ is_listed_table table }
{
    table != MODULE && table != ENC_LOG && table != ENC_MAP
}

/// Adds the rows of a table, where EncMap tells them.
fn push_if_listed<C: ChainView>(
    alloc: Global,
    context: &Context<'_, C>,
    heaps: &mut HeapBuilder,
    bodies: &Bodies,
    table: u8,
    tables: &mut TableBuilder,
) -> Result<(), AllocError>
    requires ready { AreRowsReady context.now.chain context.now.list heaps.old bodies.now.il.items bodies.now.methods }
    requires table { table < 64 }
    requires so_far { AreTablesWritten context.now.chain context.now.list
        (joined_with context.now.chain context.now.list) bodies.now.il.items table tables.old }
    ensures written { OnOk result (AreTablesWritten context.now.chain context.now.list
        (joined_with context.now.chain context.now.list) bodies.now.il.items (table + 1) tables.new) }
    ensures same { heaps.new ≡ heaps.old }
{
    if !is_listed(table) {
        return Ok(());
    }
    push_table(alloc, context, heaps, bodies, table, tables)
}

/// Adds the rows of all tables but Module, EncLog and EncMap: in each the methods whose bodies are replaced,
/// and then the new rows, in the order of their numbers.
#[tactic(auto, using(crate::proofs::RowsSay::no_table))]
pub(crate) fn push_tables<C: ChainView>(
    alloc: Global,
    context: &Context<'_, C>,
    heaps: &mut HeapBuilder,
    bodies: &Bodies,
    tables: &mut TableBuilder,
) -> Result<(), AllocError>
    requires may { MayFollow context.now.chain context.now.list }
    requires heaps { heaps.old ≡ heaps_written context.now.chain context.now.list }
    requires bodies { MethodsPlaced context.now.chain context.now.list
        (heaps_joined context.now.chain.heaps heaps.old) bodies.now.il.items bodies.now.methods }
    requires none { (k : ℕ) → rows_at tables.old k ≡ [] }
    ensures written { OnOk result (AreTablesWritten context.now.chain context.now.list
        (heaps_joined context.now.chain.heaps heaps.old) bodies.now.il.items 64 tables.new) }
    ensures same { heaps.new ≡ heaps.old }
{
    for table in 0..64 {
        push_if_listed(alloc, context, heaps, bodies, table, tables)?;
    }
    Ok(())
}
