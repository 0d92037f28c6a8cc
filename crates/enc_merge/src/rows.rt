//! The rows of the delta that stands for two (ECMA-335 II.22).
ghost use Rattle.std.specs.Prelude.{◌≡◌, ◌<◌, ◌^◌, ◌+◌, ◌==◌, [], ℕ, true, Some, length, IfOk, OnOk};
ghost use Rattle.enc_reference_depth.specs.Depth.{IsShallow};
ghost use Rattle.enc_meta.specs.Joined.{joined_text};
ghost use Rattle.enc_plain.specs.Cell.{is_body};
ghost use Rattle.enc_rows.specs.Written.{rows_at};
ghost use Rattle.enc_schema.specs.Schema.{column_in};
ghost use Rattle.enc_merged_delta.specs.Held.{IsNumberOfBoth, RowHeld, place_moved, text_moved};
ghost use Rattle.enc_merged_delta.specs.Merged.{has_tokens, is_in_either};
ghost use Rattle.enc_merge.specs.Writing.{AreOfEither, AreTokensHeld, FrontHeld, IsNewest, chain_of_both, tokens_of};

use crate::last::Last;
use enc_base::Token;
use enc_base::tables::METHOD_DEF;
use enc_delta::Delta;
use enc_merged_delta::numbers_are_held_law;
use enc_plain::ChainView;
use enc_rows::TableBuilder;
use enc_schema::columns::METHOD_DEF_RVA;
use enc_schema::{Column, columns_of};
use std::alloc::{AllocError, Global};

/// The newest row of a token: the delta that has it, its row there, and how far that delta's bodies move.
#[derive(Clone, Copy)]
pub(crate) struct Newest<'a> {
    delta: &'a Delta,
    row: Token,
    shift: u32,
}

/// The newest row of a token that one of the two lists.
fn newest_row<'a>(last: &Last<'a>, token: Token) -> Newest<'a>
    requires { is_in_either last.now.first last.now.second token ≡ true }
    ensures { IsNewest last.now token result }
{
    let place = last.agg.place(token);
    let row = Token {
        table: token.table,
        row: place.row,
    };
    if place.generation == last.agg.generations() - 1 {
        return Newest {
            delta: last.second,
            row,
            shift: last.shift(),
        };
    }
    Newest {
        delta: last.first,
        row,
        shift: 0,
    }
}

/// The number of a text: 0 where it is empty, since a zero at the end of the joined texts may not count.
fn text_number<C: ChainView>(chain: &C, number: u32) -> u32
    ensures { result ≡ text_moved (joined_text (C.chain chain.now).heaps number) number }
{
    match chain.text_at(number) {
        None => 0,
        Some([]) => 0,
        Some([..]) => number,
    }
}

/// The place of a body, of which 0 is none, moved so far.
fn moved(place: u32, shift: u32) -> u32
    requires { place + shift < 2 ^ 32 }
    ensures { result ≡ place_moved shift place }
{
    if place == 0 {
        return 0;
    }
    place + shift
}

/// Whether a column has the places of bodies.
fn is_body(table: u8, i: u8) -> bool
    ensures { result ≡ is_body table i }
{
    table == METHOD_DEF && i == METHOD_DEF_RVA
}

/// The number in a column of a token's newest row, moved.
fn number(last: &Last<'_>, token: Token, newest: Newest<'_>, i: u8, column: Column) -> u32
    requires token { is_in_either last.now.first last.now.second token ≡ true }
    requires newest { IsNewest last.now token newest }
    requires shallow { IsShallow (chain_of_both last.now).plain }
    requires column { column_in token.table i ≡ Some column }
    ensures { IsNumberOfBoth last.now.chain last.now.first last.now.second token i column result }
{
    numbers_are_held_law();
    let agg = last.agg;
    let number = newest.delta.cell(newest.row, i);
    if is_body(token.table, i) {
        return moved(number, newest.shift);
    }
    match column {
        Column::Text => text_number(agg, number),
        _ => number,
    }
}

/// Adds the number in the next column of a token's row.
fn push_column(
    last: &Last<'_>,
    token: Token,
    newest: Newest<'_>,
    i: u8,
    column: Column,
    numbers: &mut Vec<u32>,
) -> Result<(), AllocError>
    requires token { is_in_either last.now.first last.now.second token ≡ true }
    requires newest { IsNewest last.now token newest }
    requires shallow { IsShallow (chain_of_both last.now).plain }
    requires column { column_in token.table i ≡ Some column }
    requires so_far { FrontHeld last.now token i numbers.old.items }
    ensures { OnOk result (FrontHeld last.now token (i + 1) numbers.new.items) }
{
    let number = number(last, token, newest, i, column);
    numbers.push(number)?;
    Ok(())
}

/// The numbers of a token's row, one for each column.
#[tactic(auto, using(crate::proofs::NewestRows::none_held))]
fn numbers_of(alloc: Global, last: &Last<'_>, token: Token) -> Result<Vec<u32>, AllocError>
    requires token { is_in_either last.now.first last.now.second token ≡ true }
    requires shallow { IsShallow (chain_of_both last.now).plain }
    ensures { IfOk result (λ n. RowHeld last.now.chain last.now.first last.now.second token n.items) }
{
    let newest = newest_row(last, token);
    let columns = columns_of(token.table);
    let mut numbers = Vec::new(alloc);
    for i in 0..columns.len() {
        push_column(last, token, newest, i as u8, columns[i], &mut numbers)?;
    }
    Ok(numbers)
}

/// Adds the rows that the tokens with these numbers stand for.
pub(crate) fn push_rows(
    alloc: Global,
    last: &Last<'_>,
    numbers: &[u32],
    tables: &mut TableBuilder,
) -> Result<(), AllocError>
    requires tokens { AreOfEither last.now.first last.now.second numbers.now }
    requires shallow { IsShallow (chain_of_both last.now).plain }
    requires few { length numbers.now < 2 ^ 24 }
    requires none { (table : ℕ) → has_tokens table ≡ true → rows_at tables.old table ≡ [] }
    ensures { OnOk result (AreTokensHeld last.now (tokens_of numbers.now) tables.old tables.new) }
{
    last.aggregate();
    for k in 0..numbers.len() {
        let token = Token::of(numbers[k]);
        let row = numbers_of(alloc, last, token)?;
        tables.push(token.table, &row)?;
    }
    Ok(())
}
