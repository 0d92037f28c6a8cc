//! The rows of Ptr tables: the children of all owners, where they don't stand in row order
//! (ECMA-335 II.22).
ghost use Rattle.std.specs.Prelude.{◌≡◌, ◌+◌, ◌<◌, ◌^◌, [], length, IsTrue, IfOk, OnOk};
ghost use Rattle.enc_base.specs.Token.{nth_row};
ghost use Rattle.enc_plain.specs.Module.{kids_of};
ghost use Rattle.enc_plain.specs.Sound.{IsSound, row_count, all_kids};
ghost use Rattle.enc_rows.specs.Written.{rows_at};
ghost use Rattle.enc_schema.specs.Children.{is_child_table, ptr_of, owner_table as table_of_owners};
ghost use Rattle.enc_rewriter.specs.Numbers.{is_in_row_order as are_in_row_order, rows_of_one, ptr_rows, nth_child as child_at, KeepOthers, PtrsPushed};

use enc_base::Token;
use enc_base::tables::{EVENT, FIELD, METHOD_DEF, PARAM, PROPERTY};
use enc_plain::ModuleView;
use enc_rows::TableBuilder;
use enc_schema::{owner_table, ptr_table};
use std::alloc::{AllocError, Global};

/// The children of an owner's row.
#[tactic(auto, using(crate::proofs::Gathers::row_there))]
fn kids_of<V: ModuleView>(
    alloc: Global,
    view: &V,
    child: u8,
    n: u32,
) -> Result<Vec<u32>, AllocError>
    requires child { IsTrue (is_child_table child) }
    requires row { n < row_count (V.meaning view.now) (table_of_owners child) }
    requires few { n < 2 ^ 24 }
    ensures { IfOk result (λ kids. kids.items
        ≡ kids_of (V.meaning view.now) (nth_row (table_of_owners child) n) child) }
{
    let table = owner_table(child);
    view.kid_rows(alloc, Token { table, row: n + 1 }, child)
}

/// The children of all owners in a child table, one owner behind the other.
#[tactic(auto, using(crate::proofs::KidsListed::listed_cases))]
fn child_list<V: ModuleView>(alloc: Global, view: &V, child: u8) -> Result<Vec<u32>, AllocError>
    requires { IsTrue (is_child_table child) }
    ensures { IfOk result (λ kids. kids.items ≡ all_kids (V.meaning view.now) child) }
{
    let mut kids = Vec::new(alloc);
    for n in 0..view.count(owner_table(child)) {
        let rows = kids_of(alloc, view, child, n)?;
        kids.extend_from_slice(&rows)?;
    }
    Ok(kids)
}

/// Whether children stand in the order of their rows.
#[tactic(auto, using(crate::proofs::KidsListed::order_steps))]
fn is_in_row_order(kids: &[u32]) -> bool
    ensures { result ≡ are_in_row_order kids.now }
{
    for i in 0..kids.len() {
        if kids[i] as usize != i + 1 {
            return false;
        }
    }
    true
}

/// Adds a row of a Ptr table for each child.
#[tactic(auto, using(crate::proofs::KidsListed::kids_listed_steps, crate::proofs::RowsPushed::rows_pushed_steps))]
fn push_kids(child: u8, kids: &[u32], tables: &mut TableBuilder) -> Result<(), AllocError>
    requires child { IsTrue (is_child_table child) }
    requires none { rows_at tables.old (ptr_of child) ≡ [] }
    requires few { length kids.now < 2 ^ 24 }
    ensures rows { OnOk result (rows_at tables.new (ptr_of child) ≡ rows_of_one kids.now) }
    ensures others { OnOk result (KeepOthers (ptr_of child) tables.old tables.new) }
{
    let table = ptr_table(child);
    for i in 0..kids.len() {
        tables.push(table, &[kids[i]])?;
    }
    Ok(())
}

/// Adds the rows of a child table's Ptr table, where it is asked for.
#[tactic(auto, using(crate::proofs::PassSteps::ptr_steps), unfolding(crate::specs::Numbers::ptr_rows))]
fn push_ptrs<V: ModuleView>(
    alloc: Global,
    view: &V,
    child: u8,
    tables: &mut TableBuilder,
) -> Result<(), AllocError>
    requires sound { IsSound (V.meaning view.now) }
    requires child { IsTrue (is_child_table child) }
    requires none { rows_at tables.old (ptr_of child) ≡ [] }
    ensures rows { OnOk result (rows_at tables.new (ptr_of child) ≡ ptr_rows (V.meaning view.now) child) }
    ensures others { OnOk result (KeepOthers (ptr_of child) tables.old tables.new) }
{
    let kids = child_list(alloc, view, child)?;
    if is_in_row_order(&kids) {
        return Ok(());
    }
    push_kids(child, &kids, tables)
}

/// The n-th child table.
fn nth_child(n: u8) -> u8
    ensures child { result ≡ child_at n }
    ensures is { IsTrue (is_child_table result) }
{
    match n {
        0 => FIELD,
        1 => METHOD_DEF,
        2 => PARAM,
        3 => EVENT,
        _ => PROPERTY,
    }
}

/// Adds the rows of all Ptr tables that are asked for.
#[tactic(auto, using(crate::proofs::PtrTables::one_ptr, crate::proofs::PtrTables::ptr_none))]
pub(crate) fn push_all_ptrs<V: ModuleView>(
    alloc: Global,
    view: &V,
    tables: &mut TableBuilder,
) -> Result<(), AllocError>
    requires sound { IsSound (V.meaning view.now) }
    requires none { PtrsPushed (V.meaning view.now) 0 tables.old tables.old }
    ensures { OnOk result (PtrsPushed (V.meaning view.now) 5 tables.old tables.new) }
{
    for n in 0..5 {
        push_ptrs(alloc, view, nth_child(n), tables)?;
    }
    Ok(())
}
