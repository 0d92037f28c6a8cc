//! Which rows of a child table the runs of its owners name once (ECMA-335 II.22.37, II.22.26,
//! II.22.12, II.22.35).
ghost use Rattle.std.specs.Prelude.{◌≡◌, ℕ, ◌+◌, ◌<◌, ◌≤◌, ◌^◌, true, None, length, IsTrue, IfOk, slice_index, ◌==◌, if◌then◌else◌};
ghost use Rattle.enc_base.specs.Order.{first_below};
ghost use Rattle.enc_meta.specs.Heaps.{part};
ghost use Rattle.enc_rows.specs.Layout.{IsWithin, rows_of};
ghost use Rattle.enc_schema.specs.Children.{is_child_table};
ghost use Rattle.enc_rows.specs.Runs.{table_stream, goes_by_ptr, run_rows as run_room};
ghost use Rattle.enc_rows.specs.Fault.{index_fault_in};
ghost use Rattle.enc_rows.specs.Owners.{run_bound, times_from, few, one_more, names_once, TellsOwners};

use crate::faults::{number_of, run_rows};
use crate::tables::Tables;
use enc_base::Token;
use enc_schema::{owner_table, ptr_table, run_column};
use std::alloc::{AllocError, Global};

/// How often the runs name each row of a table.
#[derive(Drop)]
pub(crate) enum Owners {
    /// The rows of this table have no owners.
    Free,
    /// Each row from this one on once, and those before it not at all.
    From(u32),
    /// By the row, from 0: not at all, once, or more often, which is 2.
    Counted(Vec<u8>),
}

impl Owners {
    /// The n-th row, n from 0, is named once, or needs no owner.
    pub(crate) fn name_once(&self, n: u32) -> bool
        requires { n < 2 ^ 24 }
        ensures { result ≡ names_once self.now n }
    {
        match self {
            Owners::Free => true,
            Owners::From(first) => *first <= n + 1,
            Owners::Counted(times) => is_one(times, n),
        }
    }
}

/// A 1 stands at the place.
fn is_one(times: &[u8], n: u32) -> bool
    ensures { result ≡ (slice_index times.now n == 1) }
{
    if (n as usize) < times.len() {
        times[n as usize] == 1
    } else {
        false
    }
}

/// Where the first run of a child table begins, and the place behind the last one where there is
/// no owner.
fn first_start(tables: &Tables, bytes: &[u8], child: u8) -> u32
    requires bytes { IsWithin (part bytes.now tables.now.span) tables.now }
    requires child { IsTrue (is_child_table child) }
    ensures { result ≡ run_bound (table_stream bytes.now tables.now) child 0 }
{
    let owners = owner_table(child);
    if tables.count(owners) == 0 {
        return run_rows(tables, child) + 1;
    }
    number_of(tables, bytes, owners, 0, run_column(child))
}

/// One more of the row, where there is such a row: its place holds 0, 1 or, for many, 2.
fn add_one(times: &mut Vec<u8>, row: u32)
    ensures length { length times.new.items ≡ length times.old.items }
    ensures each { (n : ℕ) → n < length times.old.items → slice_index times.new.items n
        ≡ (if row == n + 1 then one_more (slice_index times.old.items n) else slice_index times.old.items n) }
{
    if row == 0 {
        return;
    }
    let at = row as usize - 1;
    if at < times.len() {
        times[at] = if times[at] == 0 { 1 } else { 2 };
    }
}

/// How often the Ptr rows from the first run on name each row of a child table.
fn times_of(
    tables: &Tables,
    alloc: Global,
    bytes: &[u8],
    child: u8,
    first: u32,
) -> Result<Vec<u8>, AllocError>
    requires bytes { IsWithin (part bytes.now tables.now.span) tables.now }
    requires child { IsTrue (is_child_table child) }
    requires ptr { IsTrue (goes_by_ptr tables.now child) }
    requires some { 0 < first }
    requires limit { first ≤ run_room tables.now child + 1 }
    ensures { IfOk result (λ times. (n : ℕ) → n < rows_of tables.now child
        → slice_index times.items n ≡ few
        (times_from (table_stream bytes.now tables.now) child first (run_room tables.now child + 1) (n + 1))) }
{
    let mut times = vec![in alloc; 0u8; tables.count(child) as usize]?;
    let through = ptr_table(child);
    for p in first..run_rows(tables, child) + 1 {
        let token = Token {
            table: through,
            row: p,
        };
        add_one(&mut times, tables.cell(bytes, token, 0));
    }
    Ok(times)
}

/// How often the runs name each row of a table, where no index of a table below it is bad.
pub(crate) fn owners_of(
    tables: &Tables,
    alloc: Global,
    bytes: &[u8],
    table: u8,
) -> Result<Owners, AllocError>
    requires bytes { IsWithin (part bytes.now tables.now.span) tables.now }
    requires good { first_below (index_fault_in (table_stream bytes.now tables.now)) table ≡ None }
    ensures { IfOk result (λ owners. TellsOwners (table_stream bytes.now tables.now) table owners) }
{
    let through = ptr_table(table);
    if through == 0 {
        return Ok(Owners::Free);
    }
    let first = first_start(tables, bytes, table);
    if tables.count(through) == 0 {
        return Ok(Owners::From(first));
    }
    let times = times_of(tables, alloc, bytes, table, first)?;
    Ok(Owners::Counted(times))
}
