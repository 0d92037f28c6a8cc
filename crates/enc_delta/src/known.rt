//! What is known of a delta after its chain, found once before its rules are asked.
ghost use Rattle.std.specs.Prelude.{◌≡◌, ℕ, ◌<◌, ◌^◌, IfOk, length, slice_index};
ghost use Rattle.enc_delta.specs.Rules.{is_insert, inserts, rows_with};
ghost use Rattle.enc_delta.specs.Context.{IsKnown};

use crate::copy::log_of;
use crate::delta::Delta;
use crate::log_entry::LogEntry;
use crate::pairs::{Pair, attached_of};
use enc_base::{Counts, Token};
use enc_meta::HeapLengths;
use enc_plain::ChainView;
use std::alloc::{AllocError, Global};

/// What the rules ask for more than once: the lengths of the joined heaps before the delta, the
/// tokens of its EncMap, the entries of its EncLog, the children of its Add entries, how many new
/// rows go into each table, and how many rows each has afterwards.
#[derive(Drop)]
pub struct DeltaLists {
    pub before: HeapLengths,
    pub tokens: Vec<Token>,
    pub log: Vec<LogEntry>,
    pub pairs: Vec<Pair>,
    pub inserts: [usize; 256],
    pub counts: Counts,
}

/// A token past the rows before is an insert, and so is row 0.
#[tactic(auto, unfolding(crate::specs::Rules::is_insert))]
pub fn is_insert<C: ChainView>(chain: &C, token: Token) -> bool
    ensures { result ≡ is_insert (C.chain chain.now) token }
{
    token.row == 0 || token.row > chain.count(token.table)
}

/// How many of the tokens are inserts into each table.
#[tactic(auto, unfolding(crate::specs::Rules::inserts))]
pub fn inserts_of<C: ChainView>(chain: &C, tokens: &[Token]) -> [usize; 256]
    ensures { (t : ℕ) → t < 256 → slice_index result t ≡ inserts (C.chain chain.now) tokens.now t }
{
    let mut counts = [0; 256];
    for i in 0..tokens.len() {
        if is_insert(chain, tokens[i]) {
            let table = tokens[i].table as usize;
            counts[table] += 1;
        }
    }
    counts
}

/// How many rows each table has after the delta.
#[tactic(auto, unfolding(crate::specs::Rules::rows_with))]
pub fn counts_of<C: ChainView>(chain: &C, tokens: &[Token], added: &[usize; 256]) -> Counts
    requires added { (t : ℕ) → t < 256 → slice_index added.now t ≡ inserts (C.chain chain.now) tokens.now t }
    requires few { length tokens.now < 2 ^ 24 }
    ensures { (t : ℕ) → t < 64 → slice_index result.rows t ≡ rows_with (C.chain chain.now) tokens.now t }
{
    let _ = tokens;
    let mut counts = Counts { rows: [0; 64] };
    for table in 0..64_u8 {
        let more = added[table as usize] as u32;
        counts.rows[table as usize] = chain.count(table) + more;
    }
    counts
}

/// What is known of a delta after its chain. It takes memory for the tokens, the entries and the
/// children.
pub fn known_of<C: ChainView>(
    alloc: Global,
    chain: &C,
    delta: &Delta,
) -> Result<DeltaLists, AllocError>
    ensures { IfOk result (IsKnown (C.chain chain.now) delta.now) }
{
    let tokens = delta.tokens(alloc)?;
    let log = log_of(delta, alloc)?;
    let pairs = attached_of(alloc, delta, &log)?;
    let inserts = inserts_of(chain, &tokens);
    let counts = counts_of(chain, &tokens, &inserts);
    Ok(DeltaLists {
        before: chain.lengths(),
        tokens,
        log,
        pairs,
        inserts,
        counts,
    })
}
