//! The tokens that edits name.
ghost use Rattle.std.specs.Prelude.{◌≡◌, ◌<◌, ◌^◌, length, filter, drop, slice_get, Some, option_map, if◌then◌else◌, IfSome};
ghost use Rattle.enc_edit_list.specs.Form.{is_stated, begins_with_rva};
ghost use Rattle.enc_plain.specs.Sound.{can_name};
ghost use Rattle.enc_schema.specs.Schema.{columns_in};
ghost use Rattle.enc_rules.specs.First.{first_such};
ghost use Rattle.enc_rules.specs.Known.{listed_counts};
ghost use Rattle.enc_rules.specs.Rules.{names_row, value_breaks, cells_break, token_breaks, token_is_missing};

use crate::context::Context;
use enc_base::Token;
use enc_base::tables::{FIELD_RVA, METHOD_DEF};
use enc_edit_list::{Cell, Edit};
use enc_plain::ChainView;
use enc_schema::{Column, columns_of, encode_coded};

/// Whether an edit has a cell for the column.
fn is_stated(column: Column) -> bool
    ensures { result ≡ is_stated column }
{
    !matches!(column, Column::Run(_))
}

/// The column can name rows of the token's table, where the token isn't nil.
fn can_name(column: Column, token: Token) -> bool
    requires row { 0 < token.row }
    requires few { token.row < 2 ^ 24 }
    ensures { result ≡ can_name column token.table }
{
    match column {
        Column::Index(table) => table == token.table,
        Column::Coded(kind) => encode_coded(kind, token).is_some(),
        _ => false,
    }
}

/// The token is nil, or a row of a table that the column can name.
fn names_row<C: ChainView>(context: &Context<'_, C>, column: Column, token: Token) -> bool
    ensures { result ≡ names_row (listed_counts context.now) column token }
{
    if token.row == 0 {
        return true;
    }
    if !context.is_within(token.table, token.row) {
        return false;
    }
    context.has_few_rows();
    can_name(column, token)
}

/// The value names no row.
fn value_breaks<C: ChainView>(context: &Context<'_, C>, column: Column, value: &Cell) -> bool
    ensures { result ≡ value_breaks (listed_counts context.now) column value.now }
{
    match value {
        Cell::Refer(token) => !names_row(context, column, *token),
        _ => false,
    }
}

/// The column at an index.
fn column_at(columns: &[Column], i: usize) -> Column
    requires { i < length columns.now }
    ensures { slice_get columns.now i ≡ Some result }
{
    columns[i]
}

/// The value at an index.
fn value_at(cells: &[Cell], i: usize) -> Option<&Cell>
    ensures { option_map (λ v. v.now) result ≡ slice_get cells.now i }
{
    cells.get(i)
}

/// One of the cells for these columns but runs names no row.
#[tactic(auto, using(crate::proofs::TokensNamed::names_steps))]
fn cells_break<C: ChainView>(context: &Context<'_, C>, columns: &[Column], cells: &[Cell]) -> bool
    ensures { result ≡ cells_break (listed_counts context.now) (filter is_stated columns.now) cells.now }
{
    let mut stated: usize = 0;
    for i in 0..columns.len() {
        let column = column_at(columns, i);
        if !is_stated(column) {
            continue;
        }
        let Some(value) = value_at(cells, stated) else {
            return false;
        };
        if value_breaks(context, column, value) {
            return true;
        }
        stated += 1;
    }
    false
}

/// The columns of a table but an RVA in front.
fn columns_behind_rva(table: u8) -> &'static [Column]
    ensures { result.now ≡ drop (if begins_with_rva table then 1 else 0) (columns_in table) }
{
    let columns = columns_of(table);
    if table == METHOD_DEF || table == FIELD_RVA {
        return columns.get(1..).unwrap_or(&[]);
    }
    columns
}

/// The edit has a cell that names no row, or a method that is none.
#[tactic(auto, unfolding(enc_edit_list::specs::Form::stated_columns))]
fn token_breaks<C: ChainView>(context: &Context<'_, C>, edit: &Edit) -> bool
    ensures { result ≡ token_breaks (listed_counts context.now) edit.now }
{
    match edit {
        Edit::Add { table, cells, .. } => {
            cells_break(context, columns_behind_rva(*table), cells.as_slice())
        }
        Edit::Body { method, .. } => !context.is_row_of(METHOD_DEF, *method),
    }
}

/// The first edit that names a row that isn't there.
pub fn token_is_missing<C: ChainView>(context: &Context<'_, C>) -> Option<u32>
    ensures first { result ≡ first_such (token_is_missing context.now.chain context.now.list)
        (length context.now.list.edits) }
    ensures few { IfSome result (λ n. n < 2 ^ 24) }
{
    let edits = context.edits();
    for k in 0..edits.len() {
        if token_breaks(context, &edits[k]) {
            return Some(k as u32);
        }
    }
    None
}
