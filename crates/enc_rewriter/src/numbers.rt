//! The numbers in the columns of a row that is written (ECMA-335 II.22).
ghost use Rattle.std.specs.Prelude.{◌≡◌, ◌<◌, ◌^◌, false, Some, IsTrue, IfOk};
ghost use Rattle.enc_meta.specs.Built.{heaps_built};
ghost use Rattle.enc_meta.specs.Heaps.{Counted};
ghost use Rattle.enc_plain.specs.Cell.{is_body, is_field, kind_of, numbers, kind_in, number};
ghost use Rattle.enc_plain.specs.Module.{has_row, cell_of};
ghost use Rattle.enc_plain.specs.Reading.{cell_read};
ghost use Rattle.enc_plain.specs.Sound.{IsSound};
ghost use Rattle.enc_schema.specs.Schema.{columns_in, column_in};
ghost use Rattle.enc_schema.specs.declared.column.Column.TheVariants.{Text, Blob, Guid};
ghost use Rattle.enc_rewriter.specs.Numbers.{reading_by, PlainNumberSays, NumberSays, AreSources, AreReady, IsPlainColumn};
ghost use Rattle.enc_rewriter.specs.Values.{KeepValues};

use crate::kept::{blob_offset, guid_number, text_offset};
use crate::pass::text_in;
use crate::placed::PlacedCode;
use crate::references::{coded_number, index_number};
use crate::row_column::RowColumn;
use crate::runs::{Runs, run_number};
use enc_base::Token;
use enc_base::tables::{FIELD_RVA, METHOD_DEF};
use enc_meta::HeapBuilder;
use enc_plain::ModuleView;
use enc_schema::Column;
use std::alloc::AllocError;

/// The offset of the text in a column.
#[tactic(auto, using(crate::proofs::Says::text_steps))]
fn text_number<V: ModuleView>(
    view: &V,
    heaps: &mut HeapBuilder,
    row: Token,
    i: u8,
) -> Result<u32, AllocError>
    requires sound { IsSound (V.meaning view.now) }
    requires kept { KeepValues (V.meaning view.now) heaps.old }
    requires row { IsTrue (has_row (V.meaning view.now) row) }
    requires column { column_in row.table i ≡ Some Text }
    ensures says { IfOk result (λ x. cell_read (reading_by (V.meaning view.now) (heaps_built heaps.old)) Text x
        ≡ cell_of (V.meaning view.now) row i) }
    ensures same { heaps.new ≡ heaps.old }
{
    let offset = text_offset(heaps, text_in(view, row, i))?;
    Ok(offset)
}

/// The offset of the blob in a column.
#[tactic(auto, using(crate::proofs::Says::blob_steps))]
fn blob_number<V: ModuleView>(
    view: &V,
    heaps: &mut HeapBuilder,
    row: Token,
    i: u8,
) -> Result<u32, AllocError>
    requires sound { IsSound (V.meaning view.now) }
    requires kept { KeepValues (V.meaning view.now) heaps.old }
    requires row { IsTrue (has_row (V.meaning view.now) row) }
    requires column { column_in row.table i ≡ Some Blob }
    ensures says { IfOk result (λ x. cell_read (reading_by (V.meaning view.now) (heaps_built heaps.old)) Blob x
        ≡ cell_of (V.meaning view.now) row i) }
    ensures same { heaps.new ≡ heaps.old }
{
    let offset = blob_offset(heaps, view.blob(row, i))?;
    Ok(offset)
}

/// The number of the GUID in a column.
#[tactic(auto, using(crate::proofs::Says::guid_steps))]
fn guid_number_in<V: ModuleView>(
    view: &V,
    heaps: &mut HeapBuilder,
    row: Token,
    i: u8,
) -> Result<u32, AllocError>
    requires sound { IsSound (V.meaning view.now) }
    requires kept { KeepValues (V.meaning view.now) heaps.old }
    requires row { IsTrue (has_row (V.meaning view.now) row) }
    requires column { column_in row.table i ≡ Some Guid }
    ensures says { IfOk result (λ x. cell_read (reading_by (V.meaning view.now) (heaps_built heaps.old)) Guid x
        ≡ cell_of (V.meaning view.now) row i) }
    ensures same { heaps.new ≡ heaps.old }
{
    let number = guid_number(heaps, view.guid(row, i))?;
    Ok(number)
}

/// The number in a column of numbers that is no place.
#[tactic(auto, using(crate::proofs::Says::number_kind, crate::proofs::Says::number_says))]
fn number_in<V: ModuleView>(view: &V, row: Token, i: u8, column: Column) -> u32
    requires row { IsTrue (has_row (V.meaning view.now) row) }
    requires column { column_in row.table i ≡ Some column }
    requires kind { kind_of column ≡ Some numbers }
    requires body { is_body row.table i ≡ false }
    requires field { is_field row.table i ≡ false }
    ensures { (h : Counted) → cell_read (reading_by (V.meaning view.now) h) column result
        ≡ cell_of (V.meaning view.now) row i }
{
    view.num(row, i)
}

/// What the numbers of a module's rows are found by, heaps aside: the module, where its runs of
/// children begin, and where its bodies and fields are placed.
#[derive(Drop)]
pub(crate) struct Numbering<'a, V: ModuleView> {
    pub(crate) view: &'a V,
    pub(crate) runs: &'a Runs,
    pub(crate) placed: &'a PlacedCode,
}

/// The number in a column that is no place of bytes.
fn plain_number<V: ModuleView>(
    by: &Numbering<'_, V>,
    heaps: &mut HeapBuilder,
    at: RowColumn,
) -> Result<u32, AllocError>
    requires sources { AreSources (V.meaning by.now.view.now) heaps.old by.now.runs.now }
    requires row { IsTrue (has_row (V.meaning by.now.view.now) at.row) }
    requires column { column_in at.row.table at.i ≡ Some at.column }
    requires plain { IsPlainColumn at.row.table at.i }
    ensures says { IfOk result (λ x. PlainNumberSays (V.meaning by.now.view.now) (heaps_built heaps.old)
        at.row at.i at.column x) }
    ensures same { heaps.new ≡ heaps.old }
{
    match at.column {
        Column::Num8 => Ok(number_in(by.view, at.row, at.i, Column::Num8)),
        Column::Num16 => Ok(number_in(by.view, at.row, at.i, Column::Num16)),
        Column::Num32 => Ok(number_in(by.view, at.row, at.i, Column::Num32)),
        Column::Text => text_number(by.view, heaps, at.row, at.i),
        Column::Blob => blob_number(by.view, heaps, at.row, at.i),
        Column::Guid => guid_number_in(by.view, heaps, at.row, at.i),
        Column::Index(table) => Ok(index_number(by.view, at.row, at.i, table)),
        Column::Coded(kind) => Ok(coded_number(by.view, at.row, at.i, kind)),
        Column::Run(child) => Ok(run_number(by.view, by.runs, at.row, at.i, child)),
    }
}

/// The number in a column.
#[tactic(auto, using(enc_plain::proofs::KindsOf::row_bounds))]
pub(crate) fn number_at<V: ModuleView>(
    by: &Numbering<'_, V>,
    heaps: &mut HeapBuilder,
    at: RowColumn,
) -> Result<u32, AllocError>
    requires ready { AreReady (V.meaning by.now.view.now) heaps.old by.now.runs.now by.now.placed.now }
    requires row { IsTrue (has_row (V.meaning by.now.view.now) at.row) }
    requires column { column_in at.row.table at.i ≡ Some at.column }
    ensures says { IfOk result (λ x. NumberSays (V.meaning by.now.view.now) (heaps_built heaps.old) by.now.placed.now
        at.row at.i at.column x) }
    ensures same { heaps.new ≡ heaps.old }
{
    if at.row.table == METHOD_DEF && at.i == 0 {
        return Ok(by.placed.body(at.row.row as usize - 1));
    }
    if at.row.table == FIELD_RVA && at.i == 0 {
        return Ok(by.placed.field(at.row.row as usize - 1));
    }
    plain_number(by, heaps, at)
}
