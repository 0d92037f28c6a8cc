//! The printed row of a module, over any view of one.
ghost use Rattle.std.specs.Prelude.{◌≡◌, ◌≢◌, ℕ, List, Option, option_map, ◌++◌, ◌∷◌, Some, OnOk, OnErr, IsTrue, decimal, flat_map, length, [], unwrap_or};
ghost use Rattle.enc_schema.specs.Schema.{columns_in, column_in};
ghost use Rattle.enc_schema.specs.Names.{column_name_in};
ghost use Rattle.enc_plain.specs.Module.{has_row, cell_of};
ghost use Rattle.enc_schema.specs.Children.{is_child_table as is_of_children, owner_table, runs_in};
ghost use Rattle.enc_text.specs.RowText.{value_in, equation, joined_below, cell_text, row_place_text, line_text, owner_text, kids_name as name_of_kids, kid_text, kids_text, code_text, debug_text, value_text, row_text_of};
ghost use Rattle.enc_opcodes.specs.Body.{body_of, code_seen};
ghost use Rattle.enc_plain.specs.Cell.{body};
ghost use Rattle.enc_schema.specs.declared.column.Column.{Column as TheColumn};

use crate::body::push_body;
use crate::points::push_points;
use crate::text::{
    push_blob, push_decimal, push_digits, push_guid, push_quoted, push_str, push_token,
};
use enc_base::Token;
use enc_opcodes::CodeRef;
use enc_plain::{ModuleView, PointSource, RowPlace};
use enc_schema::{Column, column_name, column_of, columns_of, is_child_table, table_name};
use std::alloc::{AllocError, Global};

/// Appends the value of a cell.
fn push_value<V: ModuleView>(
    alloc: Global,
    view: &V,
    token: Token,
    i: u8,
    column: Column,
    out: &mut Vec<u8>,
) -> Result<(), AllocError>
    requires row { IsTrue (has_row (V.meaning view.now) token) }
    requires column { column_in token.table i ≡ Some column }
    requires cell { (table : ℕ) → column ≢ Column.Run table }
    ensures { OnOk result (out.new.items ≡ out.old.items ++ value_in column (cell_of (V.meaning view.now) token i)) }
{
    if token.table == 0x06 && i == 0 {
        return match view.code(token) {
            Some(_) => push_str(out, "body"),
            None => push_str(out, "none"),
        };
    }
    if token.table == 0x1d && i == 0 {
        return push_blob(alloc, out, view.field_bytes(token));
    }
    match column {
        Column::Num8 => push_digits(out, 2, view.num(token, i)),
        Column::Num16 => push_digits(out, 4, view.num(token, i)),
        Column::Num32 => push_digits(out, 8, view.num(token, i)),
        Column::Text => push_quoted(out, view.text(token, i)),
        Column::Guid => push_guid(out, view.guid(token, i)),
        Column::Blob => push_blob(alloc, out, view.blob(token, i)),
        Column::Index(_) | Column::Coded(_) => push_token(out, view.refer(token, i)),
        Column::Run(_) => unreachable!(),
    }
}

/// Appends ` NAME=` and the value of a cell.
fn push_equation<V: ModuleView>(
    alloc: Global,
    view: &V,
    token: Token,
    i: u8,
    column: Column,
    out: &mut Vec<u8>,
) -> Result<(), AllocError>
    requires row { IsTrue (has_row (V.meaning view.now) token) }
    requires column { column_in token.table i ≡ Some column }
    requires cell { (table : ℕ) → column ≢ Column.Run table }
    ensures { OnOk result (out.new.items ≡ out.old.items ++ equation column
        (unwrap_or (column_name_in token.table i) []) (cell_of (V.meaning view.now) token i)) }
{
    push_str(out, " ")?;
    push_str(out, column_name(token.table, i).unwrap_or(""))?;
    push_str(out, "=")?;
    push_value(alloc, view, token, i, column, out)
}

/// Appends a column, where it isn't a run.
#[tactic(auto, unfolding(crate::specs::RowText::cell_text))]
fn push_cell<V: ModuleView>(
    alloc: Global,
    view: &V,
    token: Token,
    i: u8,
    out: &mut Vec<u8>,
) -> Result<(), AllocError>
    requires { IsTrue (has_row (V.meaning view.now) token) }
    ensures { OnOk result (out.new.items ≡ out.old.items ++ cell_text (V.meaning view.now) token i) }
{
    match column_of(token.table, i) {
        None | Some(Column::Run(_)) => Ok(()),
        Some(column) => push_equation(alloc, view, token, i, column, out),
    }
}

/// Appends all columns.
#[tactic(auto, using(crate::proofs::Joined::joined_none, crate::proofs::Joined::joined_more))]
fn push_cells<V: ModuleView>(
    alloc: Global,
    view: &V,
    token: Token,
    out: &mut Vec<u8>,
) -> Result<(), AllocError>
    requires { IsTrue (has_row (V.meaning view.now) token) }
    ensures { OnOk result (out.new.items ≡ out.old.items ++ joined_below (cell_text (V.meaning view.now) token)
        (length (columns_in token.table))) }
{
    for i in 0..columns_of(token.table).len() {
        push_cell(alloc, view, token, i as u8, out)?;
    }
    Ok(())
}

#[tactic(auto, unfolding(crate::specs::RowText::row_place_text))]
fn push_row_place(alloc: Global, place: RowPlace, out: &mut Vec<u8>) -> Result<(), AllocError>
    ensures { OnOk result (out.new.items ≡ out.old.items ++ row_place_text place) }
{
    push_str(out, " @")?;
    push_decimal(alloc, out, place.generation)?;
    push_str(out, ".")?;
    push_decimal(alloc, out, place.row)
}

/// Appends the line of a row.
#[tactic(auto, unfolding(crate::specs::RowText::line_text))]
fn push_line<V: ModuleView>(
    alloc: Global,
    view: &V,
    place: RowPlace,
    token: Token,
    out: &mut Vec<u8>,
) -> Result<(), AllocError>
    requires { IsTrue (has_row (V.meaning view.now) token) }
    ensures { OnOk result (out.new.items ≡ out.old.items ++ line_text (V.meaning view.now) place token) }
{
    push_token(out, token)?;
    push_str(out, " ")?;
    push_str(out, table_name(token.table).unwrap_or(""))?;
    push_cells(alloc, view, token, out)?;
    push_row_place(alloc, place, out)?;
    push_str(out, "\n")
}

/// Appends the line of a child row's owner.
#[tactic(auto, unfolding(crate::specs::RowText::owner_text))]
fn push_owner<V: ModuleView>(view: &V, token: Token, out: &mut Vec<u8>) -> Result<(), AllocError>
    requires { IsTrue (has_row (V.meaning view.now) token) }
    ensures { OnOk result (out.new.items ≡ out.old.items ++ owner_text (V.meaning view.now) token) }
{
    if !is_child_table(token.table) {
        return Ok(());
    }
    push_str(out, "  owner ")?;
    push_token(out, view.owner(token))?;
    push_str(out, "\n")
}

/// What the children in a table are called.
fn kids_name(child: u8) -> &'static str
    ensures { result.now ≡ name_of_kids child }
{
    match child {
        0x04 => "fields",
        0x06 => "methods",
        0x08 => "params",
        0x14 => "events",
        _ => "properties",
    }
}

/// Appends ` TOKEN` for each child row of a table.
#[tactic(auto)]
fn push_each_kid(child: u8, rows: &[u32], out: &mut Vec<u8>) -> Result<(), AllocError>
    ensures { OnOk result (out.new.items ≡ out.old.items ++ flat_map (kid_text child) rows.now) }
{
    for row in rows {
        push_str(out, " ")?;
        push_token(
            out,
            Token {
                table: child,
                row: *row,
            },
        )?;
    }
    Ok(())
}

/// Appends the line of a row's children in a table, where it has any.
#[tactic(auto, unfolding(crate::specs::RowText::kids_text))]
fn push_kids<V: ModuleView>(
    alloc: Global,
    view: &V,
    token: Token,
    child: u8,
    out: &mut Vec<u8>,
) -> Result<(), AllocError>
    requires row { IsTrue (has_row (V.meaning view.now) token) }
    requires child { IsTrue (is_of_children child) }
    requires owners { token.table ≡ owner_table child }
    ensures { OnOk result (out.new.items ≡ out.old.items ++ kids_text (V.meaning view.now) token child) }
{
    let rows = view.kid_rows(alloc, token, child)?;
    if rows.is_empty() {
        return Ok(());
    }
    push_str(out, "  ")?;
    push_str(out, kids_name(child))?;
    push_each_kid(child, &rows, out)?;
    push_str(out, "\n")
}

/// Appends the lines of a row's children.
#[tactic(auto)]
fn push_all_kids<V: ModuleView>(
    alloc: Global,
    view: &V,
    token: Token,
    out: &mut Vec<u8>,
) -> Result<(), AllocError>
    requires { IsTrue (has_row (V.meaning view.now) token) }
    ensures { OnOk result (out.new.items ≡ out.old.items ++ flat_map (kids_text (V.meaning view.now) token)
        (runs_in token.table)) }
{
    match token.table {
        0x02 => {
            push_kids(alloc, view, token, 0x04, out)?;
            push_kids(alloc, view, token, 0x06, out)
        }
        0x06 => push_kids(alloc, view, token, 0x08, out),
        0x12 => push_kids(alloc, view, token, 0x14, out),
        0x15 => push_kids(alloc, view, token, 0x17, out),
        _ => Ok(()),
    }
}

/// Appends the lines of a method's body, where it has one.
#[tactic(auto, unfolding(crate::specs::RowText::code_text))]
fn push_code<V: ModuleView>(
    alloc: Global,
    view: &V,
    token: Token,
    out: &mut Vec<u8>,
) -> Result<(), AllocError>
    requires { IsTrue (has_row (V.meaning view.now) token) }
    ensures { OnOk result (out.new.items ≡ out.old.items ++ code_text (V.meaning view.now) token) }
{
    if token.table != 0x06 {
        return Ok(());
    }
    match view.code(token) {
        Some(code) => push_body(alloc, view, &code, out),
        None => Ok(()),
    }
}

/// Appends the lines of a method's points.
#[tactic(auto, unfolding(crate::specs::RowText::debug_text))]
fn push_debug<P: PointSource>(
    alloc: Global,
    source: &P,
    token: Token,
    out: &mut Vec<u8>,
) -> Result<(), AllocError>
    ensures { OnOk result (out.new.items ≡ out.old.items ++ debug_text (P.debug source.now) token) }
{
    if token.table != 0x06 {
        return Ok(());
    }
    push_points(alloc, source, token, out)
}

/// The lines of a row behind those of a text.
#[tactic(auto, unfolding(crate::specs::RowText::row_text_of))]
fn push_row<V: ModuleView, P: PointSource>(
    alloc: Global,
    view: &V,
    source: &P,
    place: RowPlace,
    token: Token,
    out: &mut Vec<u8>,
) -> Result<(), AllocError>
    requires { IsTrue (has_row (V.meaning view.now) token) }
    ensures { OnOk result (out.new.items ≡ out.old.items ++ row_text_of (V.meaning view.now)
        (P.debug source.now) place token) }
{
    push_line(alloc, view, place, token, out)?;
    push_owner(view, token, out)?;
    push_all_kids(alloc, view, token, out)?;
    push_code(alloc, view, token, out)?;
    push_debug(alloc, source, token, out)
}

/// Appends the row of a token, which stands at the place: a line with its token, its table's name,
/// each column with its value and ` @G.R`, then a line with its owner, one for its children in each
/// table, the lines of its body, and those of its sequence points. Where memory runs out, nothing is
/// appended.
pub fn row_text<V: ModuleView, P: PointSource>(
    alloc: Global,
    view: &V,
    source: &P,
    place: RowPlace,
    token: Token,
    out: &mut Vec<u8>,
) -> Result<(), AllocError>
    requires { IsTrue (has_row (V.meaning view.now) token) }
    ensures text { OnOk result (out.new.items ≡ out.old.items ++ row_text_of (V.meaning view.now)
        (P.debug source.now) place token) }
    ensures memory { OnErr result (out.new.items ≡ out.old.items) }
{
    let mut text = Vec::new(alloc);
    push_row(alloc, view, source, place, token, &mut text)?;
    out.extend_from_slice(&text)
}
