//! The numbers by which rows go.
ghost use Rattle.std.specs.Prelude.{◌≡◌, ◌<◌, ◌^◌, ◌||◌, ◌==◌, true, IsTrue, IfOk};
ghost use Rattle.enc_row_order.specs.Keyed.{entries_by};
ghost use Rattle.enc_row_order.specs.Orders.{coded_value, column_key, order_key};
ghost use Rattle.enc_plain.specs.Module.{has_row};
ghost use Rattle.enc_plain.specs.Sound.{IsSound, can_name};
ghost use Rattle.enc_schema.specs.declared.column.Column.TheVariants.{Coded};
ghost use Rattle.enc_schema.specs.Schema.{column_in, list_at};

use crate::key_columns::key_columns;
use crate::order::Order;
use crate::sorting::KeyedRow;
use enc_base::Token;
use enc_plain::ModuleView;
use enc_schema::{Coding, Column, column_of, encode_coded};
use std::alloc::{AllocError, Global};

/// The number of a token in a coded column; nil is 0.
fn coded(kind: Coding, token: Token) -> u32
    requires low { token.row < 2 ^ 24 }
    requires named { ((token.row == 0) || can_name (Coded kind) token.table) ≡ true }
    ensures { result ≡ coded_value kind token }
{
    match encode_coded(kind, token) {
        Some(value) => value,
        None => unreachable!(),
    }
}

/// The number of a row's column, its token moved.
fn column_number<V: ModuleView>(view: &V, order: &Order, row: Token, i: u8) -> u32
    requires sound { IsSound (V.meaning view.now) }
    requires row { IsTrue (has_row (V.meaning view.now) row) }
    ensures { result ≡ column_key (list_at order.now) (V.meaning view.now) row i (column_in row.table i) }
{
    match column_of(row.table, i) {
        Some(Column::Index(_)) => order.moved(view.refer(row, i)).row,
        Some(Column::Coded(kind)) => coded(kind, order.moved(view.refer(row, i))),
        Some(Column::Num16) => view.num(row, i),
        _ => 0,
    }
}

/// The number by which a row goes: its key columns as one number, the first counting most.
fn key<V: ModuleView>(view: &V, order: &Order, row: Token) -> u64
    requires sound { IsSound (V.meaning view.now) }
    requires row { IsTrue (has_row (V.meaning view.now) row) }
    ensures { result ≡ order_key (list_at order.now) (V.meaning view.now) row.table row.row }
{
    match key_columns(row.table) {
        [] => 0,
        [only] => u64::from(column_number(view, order, row, *only)),
        [first, second, ..] => {
            let high = column_number(view, order, row, *first);
            let low = column_number(view, order, row, *second);
            u64::from(high) * 0x1_0000_0000 + u64::from(low)
        }
    }
}

/// The rows of a table with the numbers by which they go.
pub(crate) fn keyed_entries<V: ModuleView>(
    alloc: Global,
    view: &V,
    order: &Order,
    table: u8,
) -> Result<Vec<KeyedRow>, AllocError>
    requires sound { IsSound (V.meaning view.now) }
    ensures { IfOk result (λ v. v.items ≡ entries_by (list_at order.now) (V.meaning view.now) table) }
{
    let mut entries = Vec::with_capacity(alloc, view.count(table) as usize)?;
    for n in 0..view.count(table) {
        let row = Token { table, row: n + 1 };
        entries.push(KeyedRow {
            key: key(view, order, row),
            row: n + 1,
        })?;
    }
    Ok(entries)
}
