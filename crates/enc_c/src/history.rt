//! What the generations of an open handle brought.
ghost use Rattle.std.specs.Prelude.{◌≡◌, ◌<◌, ◌^◌, ◌≤◌, IfOk, IsTrue, length, map, nat_lt};
ghost use Rattle.std.specs.List.{list_all};
ghost use Rattle.enc_base.specs.declared.token.Token.{Token as TheToken};
ghost use Rattle.enc_delta.specs.Rules.{is_insert};
ghost use Rattle.enc_c.specs.State.{chain_after};
ghost use Rattle.enc_c.specs.Family.{OrMemory, items_listed};
ghost use Rattle.enc_c.specs.History.{asked_count_at, asked_entries, asked_lengths, before_generation, entry_by_numbers, lengths_told};

use crate::held::Held;
use crate::status::Status;
use enc_agg::Aggregate;
use enc_base::Token;
use enc_meta::HeapLengths;
use enc_plain::ChainView;
use std::alloc::{AllocError, Global};

/// A token of a generation's EncMap.
#[repr(C)]
#[derive(Clone, Copy)]
pub struct EntryNumbers {
    pub token: u32,
    /// 1 of a row that the generation inserts, 0 of one that it updates.
    pub inserted: u32,
}

/// How many bytes of `#Strings`, `#US` and `#Blob` count in a generation's own file, and how many whole
/// entries its `#GUID` has.
#[repr(C)]
#[derive(Clone, Copy)]
pub struct LengthNumbers {
    pub strings: u32,
    pub users: u32,
    pub blobs: u32,
    pub guids: u32,
}

/// Whether a token of a generation's map was no row before.
#[tactic(auto, unfolding(enc_delta::specs::Rules::is_insert))]
fn is_new(agg: &Aggregate, generation: u32, token: Token) -> bool
    requires low { 0 < generation }
    requires high { generation ≤ length agg.now.deltas }
    ensures { result ≡ is_insert (before_generation agg.now.base agg.now.deltas generation) token }
{
    token.row == 0 || token.row > agg.count_at(generation - 1, token.table)
}

/// A token of a generation's map by numbers.
fn entry_of(agg: &Aggregate, generation: u32, token: Token) -> EntryNumbers
    requires low { 0 < generation }
    requires high { generation ≤ length agg.now.deltas }
    requires row { token.row < 2 ^ 24 }
    ensures { result ≡ entry_by_numbers (before_generation agg.now.base agg.now.deltas generation) token }
{
    EntryNumbers {
        token: token.number(),
        inserted: u32::from(is_new(agg, generation, token)),
    }
}

/// Those of some tokens.
fn entries_of(
    alloc: Global,
    agg: &Aggregate,
    generation: u32,
    tokens: &[Token],
) -> Result<Vec<EntryNumbers>, AllocError>
    requires low { 0 < generation }
    requires high { generation ≤ length agg.now.deltas }
    requires rows { IsTrue (list_all (λ (t : TheToken). nat_lt t.row 0x1000000) tokens.now) }
    ensures { IfOk result (λ e. e.items
        ≡ map (entry_by_numbers (before_generation agg.now.base agg.now.deltas generation)) tokens.now) }
{
    let mut entries = Vec::new(alloc);
    for i in 0..tokens.len() {
        entries.push(entry_of(agg, generation, tokens[i]))?;
    }
    Ok(entries)
}

/// Lengths by numbers.
fn numbers_of(lengths: HeapLengths) -> LengthNumbers
    ensures { result ≡ lengths_told lengths }
{
    LengthNumbers {
        strings: lengths.strings,
        users: lengths.users,
        blobs: lengths.blobs,
        guids: lengths.guids,
    }
}

impl Held {
    /// Whether there is a generation with this number.
    #[tactic(auto, using(enc_agg::proofs::Histories::heaps_count))]
    pub fn has_generation(&self, generation: u32) -> bool
        ensures there { result ≡ nat_lt generation (length (chain_after self.now).heaps) }
        ensures few { IsTrue result → generation ≤ length self.now.followed.deltas }
        ensures paired { IsTrue result → generation ≤ length self.now.followed.debugs }
    {
        self.chain.holds();
        generation < self.chain.rows().generations()
    }

    /// The tokens of a generation's EncMap but the Module's, in the map's order; of the base none.
    #[tactic(auto, unfolding(crate::specs::History::asked_entries))]
    pub fn entries(&self, alloc: Global, generation: u32) -> Result<Vec<EntryNumbers>, Status>
        ensures { OrMemory (items_listed result) (asked_entries self.now generation) }
    {
        if !self.has_generation(generation) {
            return Err(Status::Later);
        }
        let Some(delta) = self.chain.rows().delta(generation) else {
            return Ok(Vec::new(alloc));
        };
        let Ok(tokens) = delta.tokens(alloc) else {
            return Err(Status::Memory);
        };
        match entries_of(alloc, self.chain.rows(), generation, &tokens) {
            Ok(entries) => Ok(entries),
            Err(AllocError) => Err(Status::Memory),
        }
    }

    /// The lengths of a generation's own heaps.
    #[tactic(auto, unfolding(crate::specs::History::asked_lengths))]
    pub fn lengths(&self, generation: u32) -> Result<LengthNumbers, Status>
        ensures { result ≡ asked_lengths self.now generation }
    {
        if !self.has_generation(generation) {
            return Err(Status::Later);
        }
        Ok(numbers_of(self.chain.rows().heap_lengths(generation)))
    }

    /// How many rows a table has after the first so many deltas.
    #[tactic(auto, unfolding(crate::specs::History::asked_count_at))]
    pub fn count_at(&self, generation: u32, table: u8) -> Result<u32, Status>
        ensures { result ≡ asked_count_at self.now generation table }
    {
        if !self.has_generation(generation) {
            return Err(Status::Later);
        }
        Ok(self.chain.rows().count_at(generation, table))
    }
}
