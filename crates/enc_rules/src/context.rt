//! An edit list after its chain: what its rules ask, and the rows that are there afterwards, asked for
//! cell by cell.
ghost use Rattle.std.specs.Prelude.{◌≡◌, ℕ, ◌<◌, ◌^◌, Some, None, map, option_map, slice_index, length, nat_le};
ghost use Rattle.enc_plain.specs.Cell.{kind_in, blobs};
ghost use Rattle.enc_plain.specs.Rows.{bytes_at};
ghost use Rattle.enc_delta.specs.Members.{ArePairs, pair_seen};
ghost use Rattle.enc_rules.specs.Edited.{rows_edited, attached_in};
ghost use Rattle.enc_rules.specs.Listed.{edit_of};
ghost use Rattle.enc_rules.specs.Rules.{is_row_of};
ghost use Rattle.enc_rules.specs.Known.{stated_of, stated_in, number_of_value, bytes_of_value, token_of_value, cell_key, listed_rows, listed_counts, blobs_listed};

use enc_base::tables::{FIELD_RVA, METHOD_DEF};
use enc_base::{Counts, Token};
use enc_delta::Pair;
use enc_edit_list::{Added, Cell, Edit, EditList};
use enc_plain::{CellView, ChainView, Viewed};
use std::marker::Model;

/// What is known of an edit list after a chain.
#[derive(Drop)]
pub struct ListRows {
    /// The row that each edit adds, or the method whose body it replaces.
    pub rows: Vec<Token>,
    /// The children that the list gives to their owners.
    pub pairs: Vec<Pair>,
    /// How many rows each table has after it.
    pub counts: Counts,
}

/// An edit list that is judged after its chain. As rows it has those of the chain and those that the list
/// adds; nothing is copied.
#[derive(Drop)]
pub struct Context<'a, C: ChainView> {
    pub old: Viewed<'a, C>,
    pub list: &'a EditList,
    pub added: Added<'a>,
    pub known: ListRows,
}

impl<'a, C: ChainView> Model for Context<'a, C> {
    ghost use Rattle.std.specs.Prelude.{◌≡◌};
    ghost use Rattle.enc_rules.specs.Listed.{AfterList};
    ghost use Rattle.enc_rules.specs.Known.{KnowsList};

    ghost Value = { AfterList };

    ghost view = { λ r. record { chain = C.chain r.old.view.now; list = r.list.now } };

    ghost invariant = { λ r. KnowsList (C.chain r.old.view.now) r.list.now r.known × (r.added ≡ r.list.now.edits) };
}

/// The value that an added row states for a column: the RVA in front is none.
fn stated_in(table: u8, cells: &[Cell], column: u8) -> Option<&Cell>
    ensures { option_map (λ v. v.now) result ≡ stated_in table cells.now column }
{
    if table != METHOD_DEF && table != FIELD_RVA {
        return cells.get(column as usize);
    }
    if column == 0 {
        return None;
    }
    cells.get(column as usize - 1)
}

/// The value that an edit states for a column of the row that it adds.
fn stated_of(edit: &Edit, column: u8) -> Option<&Cell>
    ensures { option_map (λ v. v.now) result ≡ stated_of edit.now column }
{
    match edit {
        Edit::Add { table, cells, .. } => stated_in(*table, cells.as_slice(), column),
        Edit::Body { .. } => None,
    }
}

/// The number of a value, 0 where it is none.
fn number_of(value: Option<&Cell>) -> u32
    ensures { result ≡ number_of_value (option_map (λ v. v.now) value.entry) }
{
    match value {
        Some(Cell::Num(n)) => *n,
        _ => 0,
    }
}

/// The bytes of a text or of a blob, none where it is neither.
fn bytes_of(value: Option<&Cell>) -> &[u8]
    ensures { result.now ≡ bytes_of_value (option_map (λ v. v.now) value.entry) }
{
    match value {
        Some(Cell::Text(bytes)) => bytes.as_slice(),
        Some(Cell::Blob(bytes)) => bytes.as_slice(),
        _ => &[],
    }
}

/// The token of a value, nil where it is none or names row 0.
fn token_of(value: Option<&Cell>) -> Token
    ensures { result ≡ token_of_value (option_map (λ v. v.now) value.entry) }
{
    match value {
        Some(Cell::Refer(token)) => {
            if token.row == 0 {
                return Token { table: 0, row: 0 };
            }
            *token
        }
        _ => Token { table: 0, row: 0 },
    }
}

/// The number of a cell.
fn cell_key(row: Token, column: u8) -> u64
    ensures number { result ≡ cell_key row column }
    ensures few { result < 2 ^ 48 }
    ensures table { row.table < 256 }
{
    u64::from(row.row) * 0x1_0000 + u64::from(row.table) * 0x100 + u64::from(column)
}

impl<C: ChainView> Context<'_, C> {
    /// The edits.
    pub fn edits(&self) -> &[Edit]
        ensures edits { result.now ≡ self.now.list.edits }
        ensures few { length result.now < 2 ^ 24 }
    {
        self.list.edits.as_slice()
    }

    /// The rows that the edits are about, in order.
    pub fn rows(&self) -> &[Token]
        ensures { result.now ≡ rows_edited self.now.chain.plain self.now.list.edits }
    {
        &self.known.rows
    }

    /// The children that the list gives to their owners, in order.
    pub fn pairs(&self) -> &[Pair]
        ensures pairs { map pair_seen result.now ≡ attached_in self.now.chain.plain self.now.list.edits }
        ensures rows { ArePairs result.now }
    {
        &self.known.pairs
    }

    /// How many rows each table has after the list.
    pub fn counts(&self) -> &Counts
        ensures { (t : ℕ) → t < 64 → slice_index result.now.rows t ≡ listed_counts self.now t }
    {
        &self.known.counts
    }

    /// Row 0, or a row of the table after the list.
    #[tactic(auto, unfolding(crate::specs::Listed::count_after))]
    pub fn is_within(&self, table: u8, row: u32) -> bool
        ensures { result ≡ nat_le row (listed_counts self.now table) }
    {
        let before = self.old.view.count(table);
        row <= before || (row - before) as usize <= self.added.count(table)
    }

    /// No table has more than 2^24 - 1 rows after the list.
    pub fn has_few_rows(&self)
        ensures few { (t : ℕ) → listed_counts self.now t < 2 ^ 24 }
    {
        let _ = self.known.rows.len();
    }

    /// A row of the table after the list.
    pub fn is_row_of(&self, table: u8, token: Token) -> bool
        ensures { result ≡ is_row_of (listed_counts self.now) table token }
    {
        token.table == table && token.row != 0 && self.is_within(table, token.row)
    }

    /// The edit that adds a row, None where the chain has it or nothing adds it.
    #[tactic(auto, unfolding(crate::specs::Listed::edit_of))]
    fn edit_of(&self, row: Token) -> Option<&Edit>
        ensures { option_map (λ e. e.now) result ≡ edit_of self.now.chain self.now.list.edits row }
    {
        let before = self.old.view.count(row.table);
        if row.row <= before {
            return None;
        }
        self.added.edit(row.table, (row.row - before - 1) as usize)
    }

    /// The place of a blob in a row of the chain, as a place among the list's: one past 2^63 would be taken
    /// for the number of a cell, so it is told by that.
    fn old_place(&self, row: Token, column: u8) -> u64
        requires kind { kind_in row.table column ≡ Some blobs }
        requires old { edit_of self.now.chain self.now.list.edits row ≡ None }
        ensures { blobs_listed self.now result ≡ Some (bytes_at (listed_rows self.now) row column) }
    {
        match self.old.blob_place(row, column) {
            Some(place) if place < 0x8000_0000_0000_0000 => place,
            _ => 0x8000_0000_0000_0000 + cell_key(row, column),
        }
    }
}

impl<C: ChainView> CellView for Context<'_, C> {
    ghost rows = { listed_rows };

    ghost stored = { blobs_listed };

    #[tactic(auto, using(crate::proofs::RowsListed::has_new, crate::proofs::RowsListed::has_old))]
    fn has(&self, row: Token) -> bool {
        match self.edit_of(row) {
            Some(_) => true,
            None => self.old.has(row),
        }
    }

    #[tactic(auto, using(crate::proofs::RowsListed::number_new, crate::proofs::RowsListed::number_old))]
    fn number(&self, row: Token, column: u8) -> u32 {
        match self.edit_of(row) {
            Some(edit) => number_of(stated_of(edit, column)),
            None => self.old.number(row, column),
        }
    }

    #[tactic(auto, using(crate::proofs::RowsListed::bytes_new, crate::proofs::RowsListed::bytes_old))]
    fn text(&self, row: Token, column: u8) -> &[u8] {
        match self.edit_of(row) {
            Some(edit) => bytes_of(stated_of(edit, column)),
            None => self.old.text(row, column),
        }
    }

    #[tactic(auto, using(crate::proofs::RowsListed::bytes_new, crate::proofs::RowsListed::bytes_old))]
    fn blob(&self, row: Token, column: u8) -> &[u8] {
        match self.edit_of(row) {
            Some(edit) => bytes_of(stated_of(edit, column)),
            None => self.old.blob(row, column),
        }
    }

    fn blob_place(&self, row: Token, column: u8) -> Option<u64> {
        match self.edit_of(row) {
            Some(_) => Some(0x8000_0000_0000_0000 + cell_key(row, column)),
            None => Some(self.old_place(row, column)),
        }
    }

    #[tactic(auto, using(crate::proofs::RowsListed::token_new, crate::proofs::RowsListed::token_old))]
    fn token(&self, row: Token, column: u8) -> Token {
        match self.edit_of(row) {
            Some(edit) => token_of(stated_of(edit, column)),
            None => self.old.token(row, column),
        }
    }
}
