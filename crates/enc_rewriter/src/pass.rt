//! The passes over a module's cells, one for each heap.
ghost use Rattle.std.specs.Prelude.{◌≡◌, ◌==◌, ℕ, ◌<◌, ◌^◌, Some, length, not, IsTrue, OnOk};
ghost use Rattle.std.specs.List.{list_any};
ghost use Rattle.enc_base.specs.Token.{nth_row};
ghost use Rattle.enc_plain.specs.Cell.{kind_in, text, texts};
ghost use Rattle.enc_plain.specs.Module.{has_row, cell_of};
ghost use Rattle.enc_plain.specs.Sound.{IsSound, row_count};
ghost use Rattle.enc_schema.specs.Schema.{columns_in, column_in};
ghost use Rattle.enc_base.specs.Tables.{method_def};
ghost use Rattle.enc_rewriter.specs.Standing.{AreGathered};
ghost use Rattle.enc_rewriter.specs.Values.{gathers as does_gather, values_at, values_of_row, values_of_table, all_values, with_all, IsPast, IsSoundRow};
ghost use Rattle.enc_rewriter.specs.declared.pass.Pass.TheVariants.{Users};

use crate::module_values::ModuleValues;
use crate::row_column::RowColumn;
use crate::users::add_named;
use enc_base::Token;
use enc_base::tables::METHOD_DEF;
use enc_meta::BuildFault;
use enc_plain::ModuleView;
use enc_schema::{Column, columns_of};
use std::collections::BTreeSet;

/// Which heap's values are gathered.
#[derive(Clone, Copy, Debug, PartialEq, Eq)]
pub(crate) enum Pass {
    Texts,
    Users,
    Blobs,
    Guids,
}

/// The text in a column, which has no zero.
pub(crate) fn text_in<V: ModuleView>(view: &V, row: Token, i: u8) -> &[u8]
    requires sound { IsSound (V.meaning view.now) }
    requires row { IsTrue (has_row (V.meaning view.now) row) }
    requires kind { kind_in row.table i ≡ Some texts }
    ensures cell { cell_of (V.meaning view.now) row i ≡ Some (text result.now) }
    ensures clean { IsTrue (not (list_any (λ c. c == 0) result.now)) }
{
    view.text(row, i)
}

/// Adds the user texts of a method's body.
#[tactic(auto, unfolding(crate::specs::Values::values_at, crate::specs::Values::with_all))]
fn add_body<'a, V: ModuleView>(
    view: &'a V,
    method: Token,
    heaps: &mut ModuleValues<'a>,
) -> Result<(), BuildFault>
    requires row { IsTrue (has_row (V.meaning view.now) method) }
    requires table { method.table ≡ method_def }
    ensures filled { OnOk result (heaps.new
        ≡ with_all Users heaps.old (values_at Users (V.meaning view.now) method 0)) }
    ensures past { IsPast result Users (with_all Users heaps.old (values_at Users (V.meaning view.now) method 0)) }
{
    match view.code(method) {
        Some(code) => add_named(view, &code, heaps),
        None => Ok(()),
    }
}

/// The same. A place whose body was seen isn't looked at again, so methods that share a body cost what
/// one does.
fn add_users<'a, V: ModuleView>(
    view: &'a V,
    method: Token,
    seen: &mut BTreeSet<u64>,
    heaps: &mut ModuleValues<'a>,
) -> Result<(), BuildFault>
    requires row { IsTrue (has_row (V.meaning view.now) method) }
    requires table { method.table ≡ method_def }
    requires seen { AreGathered (V.places view.now) heaps.old seen.old }
    ensures filled { OnOk result (heaps.new
        ≡ with_all Users heaps.old (values_at Users (V.meaning view.now) method 0)) }
    ensures past { IsPast result Users (with_all Users heaps.old (values_at Users (V.meaning view.now) method 0)) }
    ensures seen { OnOk result (AreGathered (V.places view.now) heaps.new seen.new) }
{
    let place = view.code_place(method);
    if seen.contains(&place) {
        return Ok(());
    }
    match add_body(view, method, heaps) {
        Ok(()) => {}
        Err(fault) => return Err(fault),
    }
    match seen.insert(place) {
        Ok(_) => Ok(()),
        Err(_) => Err(BuildFault::Memory),
    }
}

/// Whether a pass gathers what a column has.
#[tactic(auto, using(crate::proofs::Gathers::by_column))]
fn gathers(pass: Pass, table: u8, i: u8, column: Column) -> bool
    requires { column_in table i ≡ Some column }
    ensures { result ≡ does_gather pass (kind_in table i) }
{
    match pass {
        Pass::Texts => matches!(column, Column::Text),
        Pass::Users => table == METHOD_DEF && i == 0,
        Pass::Blobs => matches!(column, Column::Blob),
        Pass::Guids => matches!(column, Column::Guid),
    }
}

/// Adds what a row's column has for a heap, where its pass gathers it.
#[tactic(auto, using(crate::proofs::PassSteps::cell_steps), unfolding(crate::specs::Values::values_at))]
fn add_gathered<'a, V: ModuleView>(
    view: &'a V,
    pass: Pass,
    at: RowColumn,
    seen: &mut BTreeSet<u64>,
    heaps: &mut ModuleValues<'a>,
) -> Result<(), BuildFault>
    requires row { IsSoundRow (V.meaning view.now) at.row }
    requires seen { AreGathered (V.places view.now) heaps.old seen.old }
    requires gathers { IsTrue (does_gather pass (kind_in at.row.table at.i)) }
    ensures filled { OnOk result (heaps.new ≡ with_all pass heaps.old
        (values_at pass (V.meaning view.now) at.row at.i)) }
    ensures past { IsPast result pass (with_all pass heaps.old (values_at pass (V.meaning view.now) at.row at.i)) }
    ensures seen { OnOk result (AreGathered (V.places view.now) heaps.new seen.new) }
{
    match pass {
        Pass::Texts => heaps.add_text(text_in(view, at.row, at.i)),
        Pass::Users => add_users(view, at.row, seen, heaps),
        Pass::Blobs => heaps.add_blob(view.blob(at.row, at.i)),
        Pass::Guids => heaps.add_guid(view.guid(at.row, at.i)),
    }
}

/// Adds what a row's column has for a heap.
#[tactic(auto, using(crate::proofs::Gathers::nothing_there), unfolding(crate::specs::Values::with_all))]
fn add_cell<'a, V: ModuleView>(
    view: &'a V,
    pass: Pass,
    at: RowColumn,
    seen: &mut BTreeSet<u64>,
    heaps: &mut ModuleValues<'a>,
) -> Result<(), BuildFault>
    requires row { IsSoundRow (V.meaning view.now) at.row }
    requires column { column_in at.row.table at.i ≡ Some at.column }
    requires seen { AreGathered (V.places view.now) heaps.old seen.old }
    ensures filled { OnOk result (heaps.new ≡ with_all pass heaps.old
        (values_at pass (V.meaning view.now) at.row at.i)) }
    ensures past { IsPast result pass (with_all pass heaps.old (values_at pass (V.meaning view.now) at.row at.i)) }
    ensures seen { OnOk result (AreGathered (V.places view.now) heaps.new seen.new) }
{
    if !gathers(pass, at.row.table, at.i, at.column) {
        return Ok(());
    }
    add_gathered(view, pass, at, seen, heaps)
}

/// Adds what a row has for a heap.
#[tactic(auto, using(crate::proofs::Fills::fills_steps), unfolding(crate::specs::Values::values_of_row))]
fn add_row<'a, V: ModuleView>(
    view: &'a V,
    pass: Pass,
    row: Token,
    seen: &mut BTreeSet<u64>,
    heaps: &mut ModuleValues<'a>,
) -> Result<(), BuildFault>
    requires sound { IsSound (V.meaning view.now) }
    requires row { IsTrue (has_row (V.meaning view.now) row) }
    requires seen { AreGathered (V.places view.now) heaps.old seen.old }
    ensures filled { OnOk result (heaps.new ≡ with_all pass heaps.old (values_of_row pass (V.meaning view.now) row)) }
    ensures past { IsPast result pass (with_all pass heaps.old (values_of_row pass (V.meaning view.now) row)) }
    ensures seen { OnOk result (AreGathered (V.places view.now) heaps.new seen.new) }
{
    let columns = columns_of(row.table);
    for i in 0..columns.len() {
        let at = RowColumn {
            row,
            i: i as u8,
            column: columns[i],
        };
        match add_cell(view, pass, at, seen, heaps) {
            Ok(()) => {}
            Err(fault) => return Err(fault),
        }
    }
    Ok(())
}

/// Adds what a table's rows have for a heap.
#[tactic(auto, using(crate::proofs::PassSteps::table_steps), unfolding(crate::specs::Values::values_of_table))]
fn add_table<'a, V: ModuleView>(
    view: &'a V,
    pass: Pass,
    table: u8,
    seen: &mut BTreeSet<u64>,
    heaps: &mut ModuleValues<'a>,
) -> Result<(), BuildFault>
    requires sound { IsSound (V.meaning view.now) }
    requires seen { AreGathered (V.places view.now) heaps.old seen.old }
    ensures filled { OnOk result (heaps.new
        ≡ with_all pass heaps.old (values_of_table pass (V.meaning view.now) table)) }
    ensures past { IsPast result pass (with_all pass heaps.old (values_of_table pass (V.meaning view.now) table)) }
    ensures seen { OnOk result (AreGathered (V.places view.now) heaps.new seen.new) }
{
    for n in 0..view.count(table) {
        match add_row(view, pass, Token { table, row: n + 1 }, seen, heaps) {
            Ok(()) => {}
            Err(fault) => return Err(fault),
        }
    }
    Ok(())
}

/// Adds what all rows have for a heap, by table, row and column. `TooLarge` exactly where the heap
/// of distinct values passes its limit, with its name.
#[tactic(auto, using(crate::proofs::Fills::fills_steps), unfolding(crate::specs::Values::all_values))]
pub(crate) fn add_values<'a, V: ModuleView>(
    view: &'a V,
    pass: Pass,
    seen: &mut BTreeSet<u64>,
    heaps: &mut ModuleValues<'a>,
) -> Result<(), BuildFault>
    requires sound { IsSound (V.meaning view.now) }
    requires seen { AreGathered (V.places view.now) heaps.old seen.old }
    ensures filled { OnOk result (heaps.new ≡ with_all pass heaps.old (all_values pass (V.meaning view.now))) }
    ensures past { IsPast result pass (with_all pass heaps.old (all_values pass (V.meaning view.now))) }
    ensures seen { OnOk result (AreGathered (V.places view.now) heaps.new seen.new) }
{
    for table in 0..64 {
        match add_table(view, pass, table, seen, heaps) {
            Ok(()) => {}
            Err(fault) => return Err(fault),
        }
    }
    Ok(())
}
