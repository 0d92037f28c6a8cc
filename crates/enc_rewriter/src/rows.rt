//! The rows of a module's tables, as they are written (ECMA-335 II.22).
ghost use Rattle.std.specs.Prelude.{◌≡◌, Some, ◌+◌, ◌-◌, ◌<◌, ◌^◌, [], true, nat_lt, length, IsTrue, IfOk, OnOk};
ghost use Rattle.enc_base.specs.Token.{nth_row};
ghost use Rattle.enc_meta.specs.Built.{heaps_built};
ghost use Rattle.enc_plain.specs.Module.{has_row};
ghost use Rattle.enc_plain.specs.Sound.{row_count};
ghost use Rattle.enc_schema.specs.Schema.{column_in};
ghost use Rattle.enc_rows.specs.Written.{rows_at, count_at};
ghost use Rattle.enc_rewriter.specs.Numbers.{FrontSays, RowSays, RowsSay, TableSays, TablesSay, AreReady, KeepOthers, HoldRows};

use crate::numbers::{Numbering, number_at};
use crate::ptrs::push_all_ptrs;
use crate::row_column::RowColumn;
use enc_base::Token;
use enc_meta::HeapBuilder;
use enc_plain::ModuleView;
use enc_rows::TableBuilder;
use enc_schema::columns_of;
use std::alloc::{AllocError, Global};

/// Adds the number in the next column of a row.
#[tactic(auto, using(crate::proofs::RowsPushed::more_says))]
fn push_number<V: ModuleView>(
    by: &Numbering<'_, V>,
    heaps: &mut HeapBuilder,
    at: RowColumn,
    cells: &mut Vec<u32>,
) -> Result<(), AllocError>
    requires ready { AreReady (V.meaning by.now.view.now) heaps.old by.now.runs.now by.now.placed.now }
    requires row { IsTrue (has_row (V.meaning by.now.view.now) at.row) }
    requires column { column_in at.row.table at.i ≡ Some at.column }
    requires so_far { FrontSays (V.meaning by.now.view.now) (heaps_built heaps.old) by.now.placed.now
        at.row at.i cells.old.items }
    ensures says { OnOk result (FrontSays (V.meaning by.now.view.now) (heaps_built heaps.old) by.now.placed.now
        at.row (at.i + 1) cells.new.items) }
    ensures same { heaps.new ≡ heaps.old }
{
    let number = number_at(by, heaps, at)?;
    cells.push(number)?;
    Ok(())
}

/// The numbers of a row, one for each column.
#[tactic(auto, using(crate::proofs::RowsPushed::none_says))]
fn row_numbers<V: ModuleView>(
    alloc: Global,
    by: &Numbering<'_, V>,
    heaps: &mut HeapBuilder,
    row: Token,
) -> Result<Vec<u32>, AllocError>
    requires ready { AreReady (V.meaning by.now.view.now) heaps.old by.now.runs.now by.now.placed.now }
    requires row { IsTrue (has_row (V.meaning by.now.view.now) row) }
    ensures says { IfOk result (λ cells. RowSays (V.meaning by.now.view.now) (heaps_built heaps.old) by.now.placed.now
        row cells.items) }
    ensures same { heaps.new ≡ heaps.old }
{
    let columns = columns_of(row.table);
    let mut cells = Vec::new(alloc);
    for i in 0..columns.len() {
        let at = RowColumn {
            row,
            i: i as u8,
            column: columns[i],
        };
        push_number(by, heaps, at, &mut cells)?;
    }
    Ok(cells)
}

/// Adds the next row of a table.
#[tactic(auto, using(crate::proofs::RowsPushed::push_row_steps))]
fn push_row<V: ModuleView>(
    alloc: Global,
    by: &Numbering<'_, V>,
    heaps: &mut HeapBuilder,
    row: Token,
    tables: &mut TableBuilder,
) -> Result<(), AllocError>
    requires ready { AreReady (V.meaning by.now.view.now) heaps.old by.now.runs.now by.now.placed.now }
    requires row { IsTrue (has_row (V.meaning by.now.view.now) row) }
    requires so_far { RowsSay (V.meaning by.now.view.now) (heaps_built heaps.old) by.now.placed.now
        row.table (row.row - 1) (rows_at tables.old row.table) }
    ensures says { OnOk result (RowsSay (V.meaning by.now.view.now) (heaps_built heaps.old) by.now.placed.now
        row.table row.row (rows_at tables.new row.table)) }
    ensures others { OnOk result (KeepOthers row.table tables.old tables.new) }
    ensures same { heaps.new ≡ heaps.old }
{
    let cells = row_numbers(alloc, by, heaps, row)?;
    tables.push(row.table, &cells)?;
    Ok(())
}

/// Adds the rows of a table.
#[tactic(auto, using(crate::proofs::RowsPushed::no_row, crate::proofs::Gathers::row_there))]
fn push_table<V: ModuleView>(
    alloc: Global,
    by: &Numbering<'_, V>,
    heaps: &mut HeapBuilder,
    table: u8,
    tables: &mut TableBuilder,
) -> Result<(), AllocError>
    requires ready { AreReady (V.meaning by.now.view.now) heaps.old by.now.runs.now by.now.placed.now }
    requires none { rows_at tables.old table ≡ [] }
    ensures says { OnOk result (TableSays (V.meaning by.now.view.now) (heaps_built heaps.old) by.now.placed.now
        table (rows_at tables.new table)) }
    ensures others { OnOk result (KeepOthers table tables.old tables.new) }
    ensures same { heaps.new ≡ heaps.old }
{
    for n in 0..by.view.count(table) {
        push_row(alloc, by, heaps, Token { table, row: n + 1 }, tables)?;
    }
    Ok(())
}

/// Adds the rows of all tables.
#[tactic(auto, using(crate::proofs::RowsPushed::no_table, crate::proofs::RowsPushed::one_table))]
pub(crate) fn push_tables<V: ModuleView>(
    alloc: Global,
    by: &Numbering<'_, V>,
    heaps: &mut HeapBuilder,
    tables: &mut TableBuilder,
) -> Result<(), AllocError>
    requires ready { AreReady (V.meaning by.now.view.now) heaps.old by.now.runs.now by.now.placed.now }
    requires none { tables.old ≡ [] }
    ensures says { OnOk result (TablesSay (V.meaning by.now.view.now) (heaps_built heaps.old) by.now.placed.now
        64 tables.new) }
    ensures same { heaps.new ≡ heaps.old }
{
    for table in 0..64 {
        push_table(alloc, by, heaps, table, tables)?;
    }
    Ok(())
}

/// Adds the rows of all tables, and those of Ptr tables where they are asked for.
#[tactic(auto, using(crate::proofs::PtrTables::no_ptrs, crate::proofs::PtrTables::all_held))]
pub(crate) fn push_all<V: ModuleView>(
    alloc: Global,
    by: &Numbering<'_, V>,
    heaps: &mut HeapBuilder,
    tables: &mut TableBuilder,
) -> Result<(), AllocError>
    requires ready { AreReady (V.meaning by.now.view.now) heaps.old by.now.runs.now by.now.placed.now }
    requires none { tables.old ≡ [] }
    ensures held { OnOk result (HoldRows (V.meaning by.now.view.now) (heaps_built heaps.old) by.now.placed.now
        tables.new) }
    ensures same { heaps.new ≡ heaps.old }
{
    push_tables(alloc, by, heaps, tables)?;
    push_all_ptrs(alloc, by.view, tables)?;
    Ok(())
}
