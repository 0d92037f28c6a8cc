//! Judging updates: what a row says may change in few columns.
ghost use Rattle.std.specs.Prelude.{◌≡◌, ◌||◌, false, Some, length};
ghost use Rattle.enc_base.specs.Order.{first_below};
ghost use Rattle.enc_schema.specs.Schema.{columns_in, column_in};
ghost use Rattle.enc_plain.specs.Cell.{is_body, is_field, kind_of, kind_in, blobs};
ghost use Rattle.enc_plain.specs.Known.{AreKnownAlike};
ghost use Rattle.enc_delta.specs.Context.{joined_rows, joined_blobs};
ghost use Rattle.enc_delta.specs.Delta.{listed};
ghost use Rattle.enc_delta.specs.Rows.{rows_of_chain};
ghost use Rattle.enc_delta.specs.Changes.{may_differ, is_signature_column, cell_is_kept, altered_at, altered_in, of_nth, altered_cell};

use crate::context::Context;
use crate::known::is_insert;
use crate::members::is_one_place;
use enc_base::tables::{CUSTOM_ATTRIBUTE, FIELD_RVA, METHOD_DEF, PARAM};
use enc_base::{Place, Token};
use enc_plain::{CellView, ChainView, KnownAlike, PlacedBlob, signature_column};
use enc_schema::{Column, column_of, columns_of};
use std::alloc::Global;

/// The columns in which an update may say something else.
fn may_differ(table: u8, column: u8) -> bool
    ensures { result ≡ may_differ table column }
{
    table == PARAM && (column == 0 || column == 2) || table == CUSTOM_ATTRIBUTE
}

/// The column holds the signature of its table.
fn is_signature_column(table: u8, column: u8) -> bool
    ensures { result ≡ is_signature_column table column }
{
    signature_column(table).unwrap_or(0xff) == column
}

/// The column's number is the place of a body or of a field's bytes.
fn is_place(table: u8, column: u8) -> bool
    ensures { result ≡ (is_body table column || is_field table column) }
{
    table == METHOD_DEF && column == 0 || table == FIELD_RVA && column == 0
}

/// A blob is what it was; a signature is alike. Two blobs are compared once, however many rows have
/// them.
fn is_blob_kept<C: ChainView>(
    context: &Context<'_, C>,
    known: &mut KnownAlike,
    token: Token,
    column: u8,
) -> bool
    requires kind { kind_in token.table column ≡ Some blobs }
    requires known { AreKnownAlike (joined_rows context.now) (joined_blobs context.now) known.old }
    ensures known { AreKnownAlike (joined_rows context.now) (joined_blobs context.now) known.new }
    ensures kept { result ≡ cell_is_kept (rows_of_chain context.now.chain) (joined_rows context.now) token column
        (Some blobs) }
{
    let old = PlacedBlob {
        place: context.old_place(token, column),
        bytes: context.old.blob(token, column),
    };
    let new = PlacedBlob {
        place: context.blob_place(token, column),
        bytes: context.blob(token, column),
    };
    if is_one_place(old.place, new.place) {
        return true;
    }
    if is_signature_column(token.table, column) {
        return known.stored_alike(context, token.table, &old, &new);
    }
    known.same_blobs(context, &old, &new)
}

/// A cell says what it said, in a column of this kind.
fn is_kept<C: ChainView>(
    context: &Context<'_, C>,
    known: &mut KnownAlike,
    token: Token,
    i: u8,
    column: Column,
) -> bool
    requires column { column_in token.table i ≡ Some column }
    requires place { (is_body token.table i || is_field token.table i) ≡ false }
    requires known { AreKnownAlike (joined_rows context.now) (joined_blobs context.now) known.old }
    ensures kept { result ≡ cell_is_kept (rows_of_chain context.now.chain) (joined_rows context.now) token i
        (kind_of column) }
    ensures known { AreKnownAlike (joined_rows context.now) (joined_blobs context.now) known.new }
{
    match column {
        Column::Num8 | Column::Num16 | Column::Num32 => {
            context.old.number(token, i) == context.number(token, i)
        }
        Column::Text => context.old.text(token, i) == context.text(token, i),
        Column::Blob => is_blob_kept(context, known, token, i),
        Column::Index(_) | Column::Coded(_) => {
            let old = context.old.token(token, i);
            known.tokens_alike(context, old, context.token(token, i))
        }
        Column::Guid | Column::Run(_) => true,
    }
}

/// What is wrong with a cell of an updated row.
#[tactic(auto, unfolding(crate::specs::Changes::altered_at))]
fn altered_at<C: ChainView>(
    context: &Context<'_, C>,
    known: &mut KnownAlike,
    token: Token,
    i: u8,
) -> Option<Place>
    requires { AreKnownAlike (joined_rows context.now) (joined_blobs context.now) known.old }
    ensures place { result ≡ altered_at context.now.chain context.now.delta token i }
    ensures known { AreKnownAlike (joined_rows context.now) (joined_blobs context.now) known.new }
{
    let Some(column) = column_of(token.table, i) else {
        return None;
    };
    if is_place(token.table, i) || may_differ(token.table, i) {
        return None;
    }
    if is_kept(context, known, token, i, column) {
        return None;
    }
    Some(Place::Cell(token, i))
}

/// The first such cell of a row.
#[tactic(auto, using(enc_base::proofs::First::first_steps))]
fn altered_in_cells<C: ChainView>(
    context: &Context<'_, C>,
    known: &mut KnownAlike,
    token: Token,
) -> Option<Place>
    requires { AreKnownAlike (joined_rows context.now) (joined_blobs context.now) known.old }
    ensures known { AreKnownAlike (joined_rows context.now) (joined_blobs context.now) known.new }
    ensures place { result ≡ first_below (altered_at context.now.chain context.now.delta token)
        (length (columns_in token.table)) }
{
    for i in 0..columns_of(token.table).len() {
        match altered_at(context, known, token, i as u8) {
            Some(place) => return Some(place),
            None => {}
        }
    }
    None
}

/// The first such cell of a row, where it is an update.
#[tactic(auto, unfolding(crate::specs::Changes::altered_in))]
fn altered_in<C: ChainView>(
    context: &Context<'_, C>,
    known: &mut KnownAlike,
    token: Token,
) -> Option<Place>
    requires { AreKnownAlike (joined_rows context.now) (joined_blobs context.now) known.old }
    ensures known { AreKnownAlike (joined_rows context.now) (joined_blobs context.now) known.new }
    ensures place { result ≡ altered_in context.now.chain context.now.delta token }
{
    if is_insert(context.old.view, token) {
        return None;
    }
    altered_in_cells(context, known, token)
}

/// The first cell of an updated row that says something else. It takes memory for what is known of
/// likeness and of blobs, and for the pairs of tokens of one signature at a time; without it, they are judged
/// again.
#[tactic(auto, using(enc_base::proofs::First::first_steps), unfolding(crate::specs::Changes::altered_cell))]
pub fn altered_cell<C: ChainView>(alloc: Global, context: &Context<'_, C>) -> Option<Place>
    ensures { result ≡ altered_cell context.now.chain context.now.delta }
{
    let mut known = KnownAlike::new(alloc);
    let tokens = context.tokens();
    for k in 0..tokens.len() {
        let token = tokens[k];
        match altered_in(context, &mut known, token) {
            Some(place) => return Some(place),
            None => {}
        }
    }
    None
}
