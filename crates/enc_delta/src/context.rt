//! A delta after its chain: what its rules ask, and the rows that are there afterwards, asked for
//! cell by cell.
ghost use Rattle.std.specs.Prelude.{◌≡◌, ℕ, ◌<◌, ◌^◌, ◌+◌, [], Some, IfSome, is_some, length, map, nat_le, option_copied, option_map, slice_index, unwrap_or};
ghost use Rattle.enc_meta.specs.HeapKinds.{joined_at};
ghost use Rattle.enc_meta.specs.Joined.{joined_text, joined_blob};
ghost use Rattle.enc_opcodes.specs.Body.{code_seen};
ghost use Rattle.enc_plain.specs.Bodies.{code_loaded};
ghost use Rattle.enc_schema.specs.Coding.{decoded};
ghost use Rattle.enc_rows.specs.Layout.{rows_of};
ghost use Rattle.enc_delta.specs.Delta.{listed, log_in, place_in};
ghost use Rattle.enc_delta.specs.Lists.{AreTokens, AreEntries};
ghost use Rattle.enc_delta.specs.Members.{ArePairs, pair_seen};
ghost use Rattle.enc_delta.specs.Pairs.{attached_of};
ghost use Rattle.enc_delta.specs.Rules.{heaps_after, rows_with, users_after};
ghost use Rattle.enc_rows.specs.Source.{raw_in};
ghost use Rattle.enc_delta.specs.Context.{joined_rows, joined_blobs, row_or_nil};
ghost use Rattle.enc_plain.specs.Cell.{blobs, kind_in};
ghost use Rattle.enc_plain.specs.Module.{cells_of};
ghost use Rattle.enc_plain.specs.Rows.{bytes_at, AreStoredAt};

use crate::delta::Delta;
use crate::joined::entry_after;
use crate::known::DeltaLists;
use crate::log_entry::LogEntry;
use crate::pairs::Pair;
use crate::place::{has_number, number_of};
use enc_base::{Counts, Token};
use enc_il::UserTexts;
use enc_meta::Heap;
use enc_opcodes::CodeRef;
use enc_plain::{CellView, ChainView, Viewed, index_token};
use enc_schema::{Coding, Column, column_of, decode_coded};
use std::marker::Model;

/// A delta that is judged after its chain, with what is known of the two. Each rule is asked of it.
/// As rows it has the delta's own for the tokens of its map, and else the chain's; nothing is copied,
/// each cell is looked for when it is asked for.
#[derive(Drop)]
pub struct Context<'a, C: ChainView> {
    pub old: Viewed<'a, C>,
    pub delta: &'a Delta,
    pub known: &'a DeltaLists,
}

impl<'a, C: ChainView> Model for Context<'a, C> {
    ghost use Rattle.enc_delta.specs.Context.{IsKnown, Joined};

    ghost Value = { Joined };

    ghost view = { λ r. record { chain = C.chain r.old.view.now; delta = r.delta.now } };

    ghost invariant = { λ r. IsKnown (C.chain r.old.view.now) r.delta.now r.known.now };
}

impl<C: ChainView> Context<'_, C> {
    /// The tokens of EncMap.
    pub fn tokens(&self) -> &[Token]
        ensures tokens { result.now ≡ listed self.now.delta }
        ensures rows { AreTokens result.now }
    {
        &self.known.tokens
    }

    /// The entries of EncLog.
    pub fn log(&self) -> &[LogEntry]
        ensures log { result.now ≡ log_in self.now.delta }
        ensures rows { AreEntries result.now }
        ensures few { length result.now < 2 ^ 24 }
    {
        &self.known.log
    }

    /// The children of the Add entries, each with its owner.
    pub fn pairs(&self) -> &[Pair]
        ensures pairs { map pair_seen result.now ≡ attached_of self.now.delta }
        ensures rows { ArePairs result.now }
    {
        &self.known.pairs
    }

    /// The number of rows of a table of the delta.
    pub fn own_count(&self, table: u8) -> u32
        ensures count { result ≡ rows_of self.now.delta.layout table }
        ensures few { result < 2 ^ 24 }
    {
        self.delta.count(table)
    }

    /// How many rows each table has after the delta.
    pub fn counts(&self) -> &Counts
        ensures { (t : ℕ) → t < 64 → slice_index result.now.rows t
            ≡ rows_with self.now.chain (listed self.now.delta) t }
    {
        &self.known.counts
    }

    /// The parts of the body at a method's place in the delta's code, of which 0 is none.
    pub fn own_code(&self, place: u32) -> Option<CodeRef<'_>>
        ensures code { option_map code_seen result ≡ code_loaded self.now.delta.loaded place }
        ensures few { IfSome result (λ c. length c.code.now < 2 ^ 32) }
        ensures short { IfSome result (λ c. length c.sections.now < 2 ^ 32) }
    {
        self.delta.code(place)
    }

    /// The number of generations of the chain, the base among them.
    pub fn generations(&self) -> u32
        ensures { result ≡ length self.now.chain.ids + 1 }
    {
        self.old.view.generations()
    }

    /// Row 0 or a row of the table after the delta.
    #[tactic(auto, unfolding(crate::specs::Rules::rows_with))]
    pub fn is_within(&self, table: u8, row: u32) -> bool
        ensures { result ≡ nat_le row (rows_with self.now.chain (listed self.now.delta) table) }
    {
        let before = self.old.view.count(table);
        row <= before || (row - before) as usize <= self.known.inserts[table as usize]
    }

    /// The position of a token among its table's in EncMap, from 1. None where EncMap lacks it.
    fn place(&self, token: Token) -> Option<u32>
        ensures { result ≡ place_in (listed self.now.delta) token }
    {
        match self.delta.place_counted(token) {
            Some(place) => Some(place),
            None => self.place_sought(token),
        }
    }

    /// The position by a search: where EncMap's tokens rise, those in memory tell whether it has one.
    fn place_sought(&self, token: Token) -> Option<u32>
        ensures { result ≡ place_in (listed self.now.delta) token }
    {
        if self.delta.rises() && !has_number(self.tokens(), number_of(token)) {
            return None;
        }
        self.delta.place_sought(token)
    }

    /// The number that stands in a column of the delta's own row for a token.
    pub fn own(&self, row: Token, place: u32, column: u8) -> u32
        ensures { result ≡ raw_in self.now.delta (record { table = row.table; row = place }) column }
    {
        let own = Token {
            table: row.table,
            row: place,
        };
        self.delta.cell(own, column)
    }

    /// The entry at an offset of a joined heap, None where the offset isn't good.
    pub fn entry(&self, heap: Heap, offset: u32) -> Option<&[u8]>
        ensures { option_copied result ≡ joined_at heap (heaps_after self.now.chain self.now.delta) offset }
    {
        entry_after(
            self.old.view,
            &self.delta.heaps(),
            &self.known.before,
            heap,
            offset,
        )
    }

    /// The same, no bytes where the offset isn't good.
    fn entry_or_none(&self, heap: Heap, offset: u32) -> &[u8]
        ensures { result.now ≡ unwrap_or (joined_at heap (heaps_after self.now.chain self.now.delta) offset) [] }
    {
        match self.entry(heap, offset) {
            Some(bytes) => bytes,
            None => &[],
        }
    }

    /// The text at an offset of the joined `#Strings`, none where the offset isn't good.
    fn text_or_none(&self, offset: u32) -> &[u8]
        ensures { result.now ≡ unwrap_or (joined_text (heaps_after self.now.chain self.now.delta) offset) [] }
    {
        self.entry_or_none(Heap::Strings, offset)
    }

    /// The bytes at an offset of the joined `#Blob`, none where the offset isn't good.
    pub fn blob_or_none(&self, offset: u32) -> &[u8]
        ensures { result.now ≡ unwrap_or (joined_blob (heaps_after self.now.chain self.now.delta) offset) [] }
    {
        self.entry_or_none(Heap::Blobs, offset)
    }

    /// The bytes at an offset of the joined `#Blob`, None where the offset isn't good.
    fn blob_there(&self, offset: u32) -> Option<&[u8]>
        ensures { option_copied result ≡ joined_blob (heaps_after self.now.chain self.now.delta) offset }
    {
        self.entry(Heap::Blobs, offset)
    }

    /// Whether a blob stands whole at an offset of the joined `#Blob`.
    pub fn has_blob(&self, offset: u32) -> bool
        ensures { result ≡ is_some (joined_blob (heaps_after self.now.chain self.now.delta) offset) }
    {
        self.blob_there(offset).is_some()
    }

    /// The place of a blob at an offset of the joined `#Blob`, None where the offset isn't good.
    fn own_place(&self, offset: u32) -> Option<u64>
        ensures { AreStoredAt (joined_blobs self.now) result
            (unwrap_or (joined_blob (heaps_after self.now.chain self.now.delta) offset) []) }
    {
        if !self.has_blob(offset) {
            return None;
        }
        Some(u64::from(offset))
    }

    /// The place of a blob in a row of the chain, in the heaps after the delta. None where there is no
    /// such row, or none stands there.
    pub fn old_place(&self, row: Token, column: u8) -> Option<u64>
        requires { kind_in row.table column ≡ Some blobs }
        ensures { AreStoredAt (joined_blobs self.now) result (bytes_at (cells_of self.now.chain.plain) row column) }
    {
        self.old.blob_place(row, column)
    }

    /// The token that a coded index stands for, where it names a row after the delta; else nil.
    fn coded_or_nil(&self, kind: Coding, number: u32) -> Token
        ensures { result ≡ row_or_nil self.now (decoded kind number) }
    {
        match decode_coded(kind, number) {
            Some(token) => self.row_or_nil(token),
            None => Token { table: 0, row: 0 },
        }
    }

    /// The token, where it is nil or names a row after the delta; else nil.
    fn row_or_nil(&self, token: Token) -> Token
        ensures { result ≡ row_or_nil self.now (Some token) }
    {
        if self.is_within(token.table, token.row) {
            token
        } else {
            Token { table: 0, row: 0 }
        }
    }
}

impl<C: ChainView> UserTexts for Context<'_, C> {
    ghost texts = { λ j. users_after j.chain j.delta };

    fn has_user(&self, offset: u32) -> bool {
        self.entry(Heap::Users, offset).is_some()
    }
}

impl<C: ChainView> CellView for Context<'_, C> {
    ghost rows = { joined_rows };

    ghost stored = { joined_blobs };

    #[tactic(auto, using(crate::proofs::OwnRows::has_own, crate::proofs::OwnRows::has_old))]
    fn has(&self, row: Token) -> bool {
        match self.place(row) {
            Some(_) => true,
            None => self.old.has(row),
        }
    }

    #[tactic(auto, using(crate::proofs::OwnRows::number_own, crate::proofs::OwnRows::number_old))]
    fn number(&self, row: Token, column: u8) -> u32 {
        match self.place(row) {
            Some(place) => self.own(row, place, column),
            None => self.old.number(row, column),
        }
    }

    #[tactic(auto, using(crate::proofs::OwnRows::text_own, crate::proofs::OwnRows::bytes_old))]
    fn text(&self, row: Token, column: u8) -> &[u8] {
        match self.place(row) {
            Some(place) => self.text_or_none(self.own(row, place, column)),
            None => self.old.text(row, column),
        }
    }

    #[tactic(auto, using(crate::proofs::OwnRows::blob_own, crate::proofs::OwnRows::bytes_old))]
    fn blob(&self, row: Token, column: u8) -> &[u8] {
        match self.place(row) {
            Some(place) => self.blob_or_none(self.own(row, place, column)),
            None => self.old.blob(row, column),
        }
    }

    fn blob_place(&self, row: Token, column: u8) -> Option<u64> {
        match self.place(row) {
            Some(place) => self.own_place(self.own(row, place, column)),
            None => self.old_place(row, column),
        }
    }

    #[tactic(auto, using(crate::proofs::OwnRows::own_rows_steps))]
    fn token(&self, row: Token, column: u8) -> Token {
        let Some(place) = self.place(row) else {
            return self.old.token(row, column);
        };
        let number = self.own(row, place, column);
        match column_of(row.table, column) {
            Some(Column::Index(table)) => self.row_or_nil(index_token(table, number)),
            Some(Column::Coded(kind)) => self.coded_or_nil(kind, number),
            _ => unreachable!(),
        }
    }
}
