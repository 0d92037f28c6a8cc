//! The rows that move.
ghost use Rattle.std.specs.Prelude.{◌≡◌, ◌++◌, ◌∷◌, [], IfOk, OnOk, if◌then◌else◌};
ghost use Rattle.enc_base.specs.Token.{is_token};
ghost use Rattle.enc_compact.specs.Moved.{moves_in, moves_listed};
ghost use Rattle.enc_row_order.specs.Orders.{new_order};
ghost use Rattle.enc_schema.specs.Schema.{list_at};

use enc_base::Token;
use enc_base::tables::TABLE_COUNT;
use enc_plain::ModuleView;
use enc_row_order::Order;
use std::alloc::{AllocError, Global};

/// Appends a row with its new place, where it moves.
fn push_move(old: Token, new: Token, moves: &mut Vec<(Token, Token)>) -> Result<(), AllocError>
    ensures { OnOk result (moves.new.items ≡ moves.old.items ++ (if is_token new old then [] else (old, new) ∷ [])) }
{
    if new.table == old.table && new.row == old.row {
        return Ok(());
    }
    moves.push((old, new))?;
    Ok(())
}

/// Appends a table's rows that move, each with its new place.
fn push_table<V: ModuleView>(
    view: &V,
    order: &Order,
    table: u8,
    moves: &mut Vec<(Token, Token)>,
) -> Result<(), AllocError>
    requires { list_at order.now ≡ new_order (V.meaning view.now) }
    ensures { OnOk result (moves.new.items ≡ moves.old.items ++ moves_in (V.meaning view.now) table) }
{
    for n in 0..view.count(table) {
        let old = Token { table, row: n + 1 };
        push_move(old, order.new_of(old), moves)?;
    }
    Ok(())
}

/// The rows that move in the order of a module, each with its new place, by table and row.
pub fn moved_rows<V: ModuleView>(
    alloc: Global,
    view: &V,
    order: &Order,
) -> Result<Vec<(Token, Token)>, AllocError>
    requires { list_at order.now ≡ new_order (V.meaning view.now) }
    ensures { IfOk result (λ v. v.items ≡ moves_listed (V.meaning view.now)) }
{
    let mut moves = Vec::new(alloc);
    for table in 0..TABLE_COUNT {
        push_table(view, order, table, &mut moves)?;
    }
    Ok(moves)
}
