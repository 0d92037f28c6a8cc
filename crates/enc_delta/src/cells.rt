//! Judging the cells of a delta's rows after its chain.
ghost use Rattle.std.specs.Prelude.{◌≡◌, ◌<◌, ◌^◌, IsTrue, Some, is_some, length, slice_get};
ghost use Rattle.enc_base.specs.Order.{first_below};
ghost use Rattle.enc_schema.specs.Schema.{columns_in};
ghost use Rattle.enc_base.specs.Token.{nth_row};
ghost use Rattle.enc_delta.specs.Delta.{listed, of_table};
ghost use Rattle.enc_delta.specs.Rules.{reading_after, cell_fault, row_fault, table_fault, bad_index, bad_offset, too_many_in, too_many};
ghost use Rattle.enc_plain.specs.Reading.{cell_read};
ghost use Rattle.enc_delta.specs.Cells.{speaks, begins_with};
ghost use Rattle.enc_base.specs.Tables.{table_count};

use crate::context::Context;
use crate::delta::nth_row;
use crate::joined::{guid_after, has_text_after};
use enc_base::tables::TABLE_COUNT;
use enc_base::{Place, Token};
use enc_plain::ChainView;
use enc_schema::{Column, column_of, columns_of, decode_coded};

const MODULE: Token = Token { table: 0, row: 1 };

/// Which cells are judged.
#[derive(Clone, Copy, Debug, PartialEq, Eq)]
pub enum CellRule {
    /// An index is past its table, or has a tag of no table.
    Index,
    /// An offset isn't good in the joined heap.
    Offset,
}

impl CellRule {
    fn asks(self, column: Column) -> bool
        ensures { result ≡ speaks self column }
    {
        match (self, column) {
            (CellRule::Index, Column::Index(_) | Column::Coded(_)) => true,
            (CellRule::Offset, Column::Text | Column::Guid | Column::Blob) => true,
            _ => false,
        }
    }
}

/// A number of this column stands for a cell after the delta.
#[tactic(auto, unfolding(crate::specs::Rules::reading_after, enc_plain::specs::Reading::cell_read))]
fn is_good<C: ChainView>(context: &Context<'_, C>, column: Column, number: u32) -> bool
    ensures { result ≡ is_some (cell_read (reading_after context.now.chain context.now.delta) column number) }
{
    let chain = context.old.view;
    let heaps = context.delta.heaps();
    let before = &context.known.before;
    match column {
        Column::Num8 | Column::Num16 | Column::Num32 => true,
        Column::Text => has_text_after(chain, &heaps, before, number),
        Column::Guid => guid_after(chain, &heaps, number).is_some(),
        Column::Blob => context.has_blob(number),
        Column::Index(table) => context.is_within(table, number),
        Column::Coded(kind) => match decode_coded(kind, number) {
            Some(token) => context.is_within(token.table, token.row),
            None => false,
        },
        Column::Run(_) => false,
    }
}

/// What is wrong with a cell of a row that stands for a token.
#[tactic(auto, unfolding(crate::specs::Rules::cell_fault))]
fn cell_fault<C: ChainView>(
    context: &Context<'_, C>,
    rule: CellRule,
    token: Token,
    row: Token,
    i: u8,
) -> Option<Place>
    ensures { result ≡ cell_fault context.now.chain context.now.delta (speaks rule) token row i }
{
    let column = column_of(row.table, i)?;
    if !rule.asks(column) {
        return None;
    }
    if is_good(context, column, context.delta.cell(row, i)) {
        return None;
    }
    Some(Place::Cell(token, i))
}

/// The first cell of a row that breaks the rule.
#[tactic(auto, using(enc_base::proofs::First::first_steps))]
fn cells_fault<C: ChainView>(
    context: &Context<'_, C>,
    rule: CellRule,
    token: Token,
    row: Token,
) -> Option<Place>
    ensures { result ≡ first_below (cell_fault context.now.chain context.now.delta (speaks rule) token row)
        (length (columns_in row.table)) }
{
    for i in 0..columns_of(row.table).len() {
        match cell_fault(context, rule, token, row, i as u8) {
            Some(place) => return Some(place),
            None => {}
        }
    }
    None
}

/// What is wrong with row r of a table, from 0; its token is the r-th of the table's.
#[tactic(auto, unfolding(crate::specs::Rules::row_fault))]
fn row_fault<C: ChainView>(
    context: &Context<'_, C>,
    rule: CellRule,
    table: u8,
    r: u32,
    token: Token,
) -> Option<Place>
    requires few { r < 2 ^ 24 }
    requires token { slice_get (of_table table (listed context.now.delta)) r ≡ Some token }
    ensures { result ≡ row_fault context.now.chain context.now.delta (speaks rule) table r }
{
    cells_fault(context, rule, token, nth_row(table, r))
}

/// The tokens from the first of this table on.
#[tactic(auto, using(crate::proofs::Runs::not_of))]
pub fn next_of(tokens: &[Token], table: u8) -> &[Token]
    ensures same { of_table table result.now ≡ of_table table tokens.now }
    ensures first { IsTrue (begins_with table result.now) }
{
    let mut rest = tokens;
    while let [token, tail @ ..] = rest {
        if token.table == table {
            return rest;
        }
        rest = tail;
    }
    &[]
}

/// The first cell of a table that breaks the rule.
#[tactic(auto, using(enc_base::proofs::First::first_steps), unfolding(crate::specs::Rules::table_fault))]
fn table_fault<C: ChainView>(context: &Context<'_, C>, rule: CellRule, table: u8) -> Option<Place>
    ensures { result ≡ table_fault context.now.chain context.now.delta (speaks rule) table }
{
    let mut rest = context.tokens();
    for r in 0..context.own_count(table) {
        let [token, tail @ ..] = next_of(rest, table) else {
            return None;
        };
        match row_fault(context, rule, table, r, *token) {
            Some(place) => return Some(place),
            None => {}
        }
        rest = tail;
    }
    None
}

/// The first cell that breaks the rule.
#[tactic(auto, using(enc_base::proofs::First::first_steps))]
fn first_fault<C: ChainView>(context: &Context<'_, C>, rule: CellRule) -> Option<Place>
    ensures { result ≡ first_below (table_fault context.now.chain context.now.delta (speaks rule)) table_count }
{
    for table in 0..TABLE_COUNT {
        match table_fault(context, rule, table) {
            Some(place) => return Some(place),
            None => {}
        }
    }
    None
}

/// The first index past its table after, or with a tag of no table.
#[tactic(auto, unfolding(crate::specs::Rules::bad_index))]
pub fn bad_index<C: ChainView>(context: &Context<'_, C>) -> Option<Place>
    ensures { result ≡ bad_index context.now.chain context.now.delta }
{
    first_fault(context, CellRule::Index)
}

/// The first offset that isn't good in the joined heap.
#[tactic(auto, unfolding(crate::specs::Rules::bad_offset))]
pub fn bad_offset<C: ChainView>(context: &Context<'_, C>) -> Option<Place>
    ensures { result ≡ bad_offset context.now.chain context.now.delta }
{
    first_fault(context, CellRule::Offset)
}

/// More rows than a token can name stand in a table after the delta.
#[tactic(auto, unfolding(crate::specs::Rules::too_many_in, crate::specs::Rules::rows_with))]
fn too_many_in<C: ChainView>(context: &Context<'_, C>, table: u8) -> Option<Place>
    ensures { result ≡ too_many_in context.now.chain context.now.delta table }
{
    let before = context.old.view.count(table) as usize;
    if before > 0xff_ffff || context.known.inserts[table as usize] > 0xff_ffff - before {
        Some(Place::Row(MODULE))
    } else {
        None
    }
}

/// There are more deltas than Generation can count, or more rows than a token can name.
#[tactic(auto, using(enc_base::proofs::First::first_steps), unfolding(crate::specs::Rules::too_many))]
pub fn too_many<C: ChainView>(context: &Context<'_, C>) -> Option<Place>
    ensures { result ≡ too_many context.now.chain context.now.delta }
{
    if context.generations() > 0xffff {
        return Some(Place::Row(MODULE));
    }
    for table in 0..TABLE_COUNT {
        match too_many_in(context, table) {
            Some(place) => return Some(place),
            None => {}
        }
    }
    None
}
