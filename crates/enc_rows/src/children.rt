//! The children of an owner, by its run (ECMA-335 II.22.37, II.22.26, II.22.12, II.22.35).
ghost use Rattle.std.specs.Prelude.{◌≡◌, ℕ, ◌<◌, ◌-◌, ◌^◌, ◌==◌, ◌++◌, IsTrue, OnOk, length, slice_get, IfOk};
ghost use Rattle.std.specs.List.{list_any, range_with_len};
ghost use Rattle.enc_meta.specs.Heaps.{part};
ghost use Rattle.enc_schema.specs.Children.{is_child_table, owner_table as table_of_owners, run_column as column_of_runs};
ghost use Rattle.enc_rows.specs.Layout.{IsWithin, rows_of};
ghost use Rattle.enc_rows.specs.Runs.{table_stream, goes_by_ptr, named_at, by_ptr, rows_named, run_start, run_end, children_of};

use crate::faults::{number_of, run_rows};
use crate::tables::Tables;
use enc_base::Token;
use enc_schema::{owner_table, ptr_table, run_column};
use std::alloc::{AllocError, Global};

/// The places of a run: from the first one up to the end, which is none of them.
#[derive(Clone, Copy, Debug, PartialEq, Eq)]
struct Run {
    first: u32,
    end: u32,
}

/// The run of the n-th owner, n from 0.
fn run_of(tables: &Tables, bytes: &[u8], child: u8, n: u32) -> Run
    requires bytes { IsWithin (part bytes.now tables.now.span) tables.now }
    requires child { IsTrue (is_child_table child) }
    requires row { n < rows_of tables.now (table_of_owners child) }
    ensures first { result.first ≡ run_start (table_stream bytes.now tables.now) (table_of_owners child)
        (column_of_runs child) n }
    ensures end { result.end ≡ run_end (table_stream bytes.now tables.now) (table_of_owners child)
        (column_of_runs child) child n }
{
    let owners = owner_table(child);
    let column = run_column(child);
    let count = tables.count(owners);
    let first = number_of(tables, bytes, owners, n, column);
    let end = if n + 1 < count {
        number_of(tables, bytes, owners, n + 1, column)
    } else {
        run_rows(tables, child) + 1
    };
    Run { first, end }
}

/// Whether runs of a child table go over its Ptr table.
fn goes_by_ptr(tables: &Tables, child: u8) -> bool
    ensures { result ≡ goes_by_ptr tables.now child }
{
    tables.count(ptr_table(child)) > 0
}

/// The child that a row of the Ptr table holds, 0 where it holds none or isn't there.
fn pointed(tables: &Tables, bytes: &[u8], child: u8, p: u32) -> u32
    requires bytes { IsWithin (part bytes.now tables.now.span) tables.now }
    requires child { IsTrue (is_child_table child) }
    requires ptr { IsTrue (goes_by_ptr tables.now child) }
    ensures { by_ptr result ≡ named_at (table_stream bytes.now tables.now) child p }
{
    let table = ptr_table(child);
    if p == 0 || p > tables.count(table) {
        return 0;
    }
    tables.cell(bytes, Token { table, row: p }, 0)
}

/// How many children the Ptr rows of a run hold.
fn count_pointed(tables: &Tables, bytes: &[u8], child: u8, run: Run) -> u32
    requires bytes { IsWithin (part bytes.now tables.now.span) tables.now }
    requires child { IsTrue (is_child_table child) }
    requires ptr { IsTrue (goes_by_ptr tables.now child) }
    ensures { result ≡ length (rows_named (table_stream bytes.now tables.now) child run.first run.end) }
{
    let mut count = 0;
    for p in run.first..run.end {
        if pointed(tables, bytes, child, p) != 0 {
            count += 1;
        }
    }
    count
}

/// The i-th child that the Ptr rows of a run hold, i from 0.
fn pointed_at(tables: &Tables, bytes: &[u8], child: u8, run: Run, i: u32) -> Option<u32>
    requires bytes { IsWithin (part bytes.now tables.now.span) tables.now }
    requires child { IsTrue (is_child_table child) }
    requires ptr { IsTrue (goes_by_ptr tables.now child) }
    ensures { result ≡ slice_get (rows_named (table_stream bytes.now tables.now) child run.first run.end) i }
{
    let mut before = 0;
    for p in run.first..run.end {
        let row = pointed(tables, bytes, child, p);
        if row != 0 {
            if before == i {
                return Some(row);
            }
            before += 1;
        }
    }
    None
}

/// Whether the Ptr rows of a run hold a child.
fn is_pointed(tables: &Tables, bytes: &[u8], child: u8, run: Run, row: u32) -> bool
    requires bytes { IsWithin (part bytes.now tables.now.span) tables.now }
    requires child { IsTrue (is_child_table child) }
    requires ptr { IsTrue (goes_by_ptr tables.now child) }
    requires row { 0 < row }
    ensures { result ≡ list_any (λ (k : ℕ). k == row)
        (rows_named (table_stream bytes.now tables.now) child run.first run.end) }
{
    for p in run.first..run.end {
        if pointed(tables, bytes, child, p) == row {
            return true;
        }
    }
    false
}

/// Appends the children that the Ptr rows of a run hold.
fn push_pointed(
    tables: &Tables,
    bytes: &[u8],
    child: u8,
    run: Run,
    out: &mut Vec<u32>,
) -> Result<(), AllocError>
    requires bytes { IsWithin (part bytes.now tables.now.span) tables.now }
    requires child { IsTrue (is_child_table child) }
    requires ptr { IsTrue (goes_by_ptr tables.now child) }
    ensures { OnOk result (out.new.items
        ≡ out.old.items ++ rows_named (table_stream bytes.now tables.now) child run.first run.end) }
{
    for p in run.first..run.end {
        let row = pointed(tables, bytes, child, p);
        if row == 0 {
            continue;
        }
        out.push(row)?;
    }
    Ok(())
}

/// Appends the places of a run.
fn push_places(run: Run, out: &mut Vec<u32>) -> Result<(), AllocError>
    ensures { OnOk result (out.new.items ≡ out.old.items ++ range_with_len run.first (run.end - run.first)) }
{
    for p in run.first..run.end {
        out.push(p)?;
    }
    Ok(())
}

impl Tables {
    /// How many rows of a child table the n-th row of its owners' table owns, n from 0. `bytes` are
    /// those from which the tables were read.
    #[tactic(auto, unfolding(crate::specs::Runs::children_of))]
    pub fn children(&self, bytes: &[u8], child: u8, n: u32) -> u32
        requires bytes { IsWithin (part bytes.now self.now.span) self.now }
        requires child { IsTrue (is_child_table child) }
        requires row { n < rows_of self.now (table_of_owners child) }
        ensures { result ≡ length (children_of (table_stream bytes.now self.now) (table_of_owners child)
            (column_of_runs child) child n) }
    {
        let run = run_of(self, bytes, child, n);
        if goes_by_ptr(self, child) {
            return count_pointed(self, bytes, child, run);
        }
        run.end.saturating_sub(run.first)
    }

    /// The i-th of these children in order, i from 0. None where there are no more.
    #[tactic(auto, unfolding(crate::specs::Runs::children_of))]
    pub fn child(&self, bytes: &[u8], child: u8, n: u32, i: u32) -> Option<u32>
        requires bytes { IsWithin (part bytes.now self.now.span) self.now }
        requires child { IsTrue (is_child_table child) }
        requires row { n < rows_of self.now (table_of_owners child) }
        ensures { result ≡ slice_get (children_of (table_stream bytes.now self.now) (table_of_owners child)
            (column_of_runs child) child n) i }
    {
        let run = run_of(self, bytes, child, n);
        if goes_by_ptr(self, child) {
            return pointed_at(self, bytes, child, run, i);
        }
        if i < run.end.saturating_sub(run.first) {
            Some(run.first + i)
        } else {
            None
        }
    }

    /// Whether a row is one of these children.
    #[tactic(auto, unfolding(crate::specs::Runs::children_of))]
    pub fn owns(&self, bytes: &[u8], child: u8, n: u32, row: u32) -> bool
        requires bytes { IsWithin (part bytes.now self.now.span) self.now }
        requires child { IsTrue (is_child_table child) }
        requires owner { n < rows_of self.now (table_of_owners child) }
        requires row { 0 < row }
        ensures { result ≡ list_any (λ (k : ℕ). k == row)
            (children_of (table_stream bytes.now self.now) (table_of_owners child) (column_of_runs child) child n) }
    {
        let run = run_of(self, bytes, child, n);
        if goes_by_ptr(self, child) {
            return is_pointed(self, bytes, child, run, row);
        }
        run.first <= row && row < run.end
    }

    /// The rows of all of these children in order.
    pub fn child_rows(
        &self,
        alloc: Global,
        bytes: &[u8],
        child: u8,
        n: u32,
    ) -> Result<Vec<u32>, AllocError>
        requires bytes { IsWithin (part bytes.now self.now.span) self.now }
        requires child { IsTrue (is_child_table child) }
        requires row { n < rows_of self.now (table_of_owners child) }
        ensures { IfOk result (λ rows. rows.items
            ≡ children_of (table_stream bytes.now self.now) (table_of_owners child) (column_of_runs child) child n) }
    {
        let mut rows = Vec::new(alloc);
        self.push_children(bytes, child, n, &mut rows)?;
        Ok(rows)
    }

    /// Appends all of these children in order, up to where memory ends.
    #[tactic(auto, unfolding(crate::specs::Runs::children_of))]
    fn push_children(
        &self,
        bytes: &[u8],
        child: u8,
        n: u32,
        out: &mut Vec<u32>,
    ) -> Result<(), AllocError>
        requires bytes { IsWithin (part bytes.now self.now.span) self.now }
        requires child { IsTrue (is_child_table child) }
        requires row { n < rows_of self.now (table_of_owners child) }
        ensures { OnOk result (out.new.items ≡ out.old.items ++ children_of (table_stream bytes.now self.now)
            (table_of_owners child) (column_of_runs child) child n) }
    {
        let run = run_of(self, bytes, child, n);
        if goes_by_ptr(self, child) {
            return push_pointed(self, bytes, child, run, out);
        }
        push_places(run, out)
    }
}
