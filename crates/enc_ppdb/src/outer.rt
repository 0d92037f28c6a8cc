//! The stream `#Pdb`: how many rows another module's tables have (Portable PDB v1.0, #Pdb Stream).
ghost use Rattle.std.specs.Prelude.{◌≡◌, ◌<◌, ◌≤◌, ◌+◌, ◌*◌, option_map, map};
ghost use Rattle.enc_rows.specs.Sums.{below};
ghost use Rattle.enc_rows.specs.Layout.{has_table, tables_below};
ghost use Rattle.enc_ppdb.specs.Pdb.{outer_count, outer_in, outer_of};

use enc_base::{Counts, u32_at, u64_at};
use enc_meta::Span;

/// Whether the bits have this table.
fn is_there(bits: u64, table: u8) -> bool
    requires { table < 64 }
    ensures { result ≡ has_table bits table }
{
    (bits >> table) % 2 == 1
}

/// How many tables below this one the bits have.
#[tactic(auto, using(enc_rows::proofs::Below::sum_steps), unfolding(enc_rows::specs::Layout::tables_below))]
fn tables_before(bits: u64, table: u8) -> usize
    requires { table ≤ 64 }
    ensures count { result ≡ tables_below bits table }
    ensures few { result ≤ table }
{
    let mut seen = 0;
    for k in 0..table {
        if is_there(bits, k) {
            seen += 1;
        }
    }
    seen
}

/// The number of rows of a table.
#[tactic(auto, unfolding(crate::specs::Pdb::outer_count))]
fn count_of(stream: &[u8], bits: u64, table: u8) -> u32
    requires { table < 64 }
    ensures { result ≡ outer_count stream.now bits table }
{
    if !is_there(bits, table) {
        return 0;
    }
    u32_at(stream, 32 + 4 * tables_before(bits, table)).unwrap_or(0)
}

/// The numbers of rows of all tables.
#[tactic(auto, using(enc_rows::proofs::Below::filled_below))]
fn counts_of(stream: &[u8], bits: u64) -> Counts
    ensures { result.rows ≡ map (outer_count stream.now bits) (below 64) }
{
    let mut rows = [0; 64];
    for table in 0..64 {
        rows[table as usize] = count_of(stream, bits, table);
    }
    Counts { rows }
}

/// The numbers of rows of all tables, where they stand whole in the stream.
#[tactic(auto, unfolding(crate::specs::Pdb::outer_in))]
fn counts_in(stream: &[u8], bits: u64) -> Option<Counts>
    ensures { option_map (λ c. c.rows) result ≡ outer_in stream.now bits }
{
    if stream.len() < 32 + 4 * tables_before(bits, 64) {
        return None;
    }
    Some(counts_of(stream, bits))
}

/// The numbers of rows of another module's tables, zeros where the file has no `#Pdb`; None where the
/// stream doesn't hold them whole.
#[tactic(auto, unfolding(crate::specs::Pdb::outer_of))]
pub(crate) fn outer_of(bytes: &[u8], span: Option<Span>) -> Option<Counts>
    ensures { option_map (λ c. c.rows) result ≡ outer_of bytes.now span }
{
    let Some(span) = span else {
        return Some(Counts { rows: [0; 64] });
    };
    let stream = span.part(bytes);
    let bits = u64_at(stream, 24)?;
    counts_in(stream, bits)
}
