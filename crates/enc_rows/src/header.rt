//! The header of a table stream: which tables it has, and how many rows of each.
ghost use Rattle.std.specs.Prelude.{◌≡◌, ◌+◌, ◌<◌, ◌≤◌, map, length, nat_lt};
ghost use Rattle.std.specs.List.{list_all};
ghost use Rattle.enc_rows.specs.Sums.{below};
ghost use Rattle.enc_rows.specs.Layout.{has_table, tables_below, count_in, width_count, rows_begin, is_expected, form_allows, is_whole};

use crate::form::Form;
use enc_base::tables::{CUSTOM_DEBUG_INFORMATION, DOCUMENT, ENC_LOG, ENC_MAP, MODULE, TABLE_COUNT};
use enc_base::{Counts, u32_at};

/// Whether the valid bits say that the stream has this table.
pub fn is_there(valid: u64, table: u8) -> bool
    requires { table < 64 }
    ensures { result ≡ has_table valid table }
{
    (valid >> table) % 2 == 1
}

/// How many tables below this one the stream has.
#[tactic(auto, using(crate::proofs::Below::sum_steps), unfolding(crate::specs::Layout::tables_below))]
pub fn tables_before(valid: u64, table: u8) -> usize
    requires { table ≤ 64 }
    ensures count { result ≡ tables_below valid table }
    ensures few { result ≤ table }
{
    let mut seen = 0;
    for k in 0..table {
        if is_there(valid, k) {
            seen += 1;
        }
    }
    seen
}

/// The number of rows of a table.
#[tactic(auto, unfolding(crate::specs::Layout::count_in))]
pub fn count_of(stream: &[u8], valid: u64, table: u8) -> u32
    requires { table < 64 }
    ensures { result ≡ count_in stream.now valid table }
{
    if !is_there(valid, table) {
        return 0;
    }
    u32_at(stream, 24 + 4 * tables_before(valid, table)).unwrap_or(0)
}

/// The numbers of rows of all tables.
#[tactic(auto, using(crate::proofs::Below::filled_below))]
pub fn counts_of(stream: &[u8], valid: u64) -> Counts
    ensures { result.rows ≡ map (count_in stream.now valid) (below 64) }
{
    let mut rows = [0; 64];
    for table in 0..64 {
        rows[table as usize] = count_of(stream, valid, table);
    }
    Counts { rows }
}

/// The number of rows of a table by which widths go.
#[tactic(auto, unfolding(crate::specs::Layout::width_count))]
fn width_count_of(stream: &[u8], valid: u64, outer: &Counts, table: u8) -> u32
    requires { table < 64 }
    ensures { result ≡ width_count stream.now valid outer.now.rows table }
{
    if is_there(valid, table) {
        return count_of(stream, valid, table);
    }
    if table < TABLE_COUNT {
        outer.rows[table as usize]
    } else {
        0
    }
}

/// The numbers of rows by which widths go.
#[tactic(auto, using(crate::proofs::Below::filled_below))]
pub fn width_counts_of(stream: &[u8], valid: u64, outer: &Counts) -> Counts
    ensures { result.rows ≡ map (width_count stream.now valid outer.now.rows) (below 64) }
{
    let mut rows = [0; 64];
    for table in 0..64 {
        rows[table as usize] = width_count_of(stream, valid, outer, table);
    }
    Counts { rows }
}

/// Where the rows begin in the stream.
#[tactic(auto, unfolding(crate::specs::Layout::rows_begin))]
pub fn first_row(valid: u64, flags: u8) -> usize
    ensures place { result ≡ rows_begin valid flags }
    ensures near { result ≤ 284 }
{
    let more = if (flags / 0x40) % 2 == 1 { 4 } else { 0 };
    24 + 4 * tables_before(valid, 64) + more
}

/// No count passes 2^24 - 1.
fn are_few(counts: &Counts) -> bool
    ensures { result ≡ list_all (λ n. nat_lt n 0x1000000) counts.now.rows }
{
    for n in &counts.rows {
        if *n >= 0x100_0000 {
            return false;
        }
    }
    true
}

/// A stream of a PDB may have this table.
#[tactic(auto, unfolding(crate::specs::Layout::is_expected))]
fn is_expected(valid: u64, table: u8) -> bool
    requires { table < 64 }
    ensures { result ≡ is_expected valid table }
{
    match table {
        ENC_LOG | ENC_MAP | DOCUMENT..=CUSTOM_DEBUG_INFORMATION => true,
        _ => !is_there(valid, table),
    }
}

/// A stream of a PDB has its own tables alone.
#[tactic(auto, using(crate::proofs::Below::all_none, crate::proofs::Below::all_more, crate::proofs::Below::all_false))]
fn has_pdb_tables_alone(valid: u64) -> bool
    ensures { result ≡ list_all (is_expected valid) (below 64) }
{
    for table in 0..64 {
        if !is_expected(valid, table) {
            return false;
        }
    }
    true
}

/// The form allows these tables and these numbers of rows.
#[tactic(auto, unfolding(crate::specs::Layout::form_allows))]
fn is_allowed(form: Form, valid: u64, counts: &Counts) -> bool
    ensures { result ≡ form_allows form valid counts.now.rows }
{
    let rows = &counts.rows;
    match form {
        Form::Base => {
            valid < 1 << TABLE_COUNT
                && rows[MODULE as usize] == 1
                && rows[ENC_LOG as usize] == 0
                && rows[ENC_MAP as usize] == 0
        }
        Form::Delta => valid < 1 << TABLE_COUNT && rows[MODULE as usize] == 1,
        Form::Pdb => has_pdb_tables_alone(valid),
    }
}

/// The counts and the rows up to their end stand in a stream of this length, and the form allows
/// them.
pub fn fits(len: usize, form: Form, valid: u64, counts: &Counts, first: usize, end: usize) -> bool
    ensures { result ≡ is_whole len form valid counts.now.rows first end }
{
    first <= len && are_few(counts) && is_allowed(form, valid, counts) && end <= len
}
