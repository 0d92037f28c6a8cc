//! The order of a module's rows.
ghost use Rattle.std.specs.Prelude.{◌≡◌, ◌<◌, ◌^◌, IfOk};
ghost use Rattle.enc_row_order.specs.Orders.{standing_rows, moved_by, new_order, old_row};
ghost use Rattle.enc_row_order.specs.Stages.{AreOrdersOf};
ghost use Rattle.enc_plain.specs.Sound.{IsSound};
ghost use Rattle.enc_schema.specs.Schema.{list_at};

use crate::rows::{Rows, rows_upto};
use crate::stage::{Stage, staged};
use enc_base::Token;
use enc_base::tables::TABLE_COUNT;
use enc_plain::ModuleView;
use std::alloc::{AllocError, Global};
use std::marker::Model;

/// For each table its rows in a new order, and where each row goes.
#[derive(Drop)]
pub struct Order {
    tables: Vec<Rows>,
}

impl Model for Order {
    ghost use Rattle.std.specs.Prelude.{ℕ, List};

    ghost Value = { List (List ℕ) };

    ghost view = { λ o. o.tables.items };
}

impl Order {
    /// The order of these tables' rows.
    pub(crate) fn with(tables: Vec<Rows>) -> Order
        ensures { result ≡ tables.items }
    {
        Order { tables }
    }

    /// All rows as they stand.
    fn begin<V: ModuleView>(alloc: Global, view: &V) -> Result<Order, AllocError>
        requires sound { IsSound (V.meaning view.now) }
        ensures same { IfOk result (λ o. list_at o ≡ standing_rows (V.meaning view.now)) }
        ensures orders { IfOk result (λ o. AreOrdersOf (V.meaning view.now) o) }
    {
        let mut tables = Vec::new(alloc);
        for table in 0..TABLE_COUNT {
            let list = rows_upto(alloc, view.count(table))?;
            tables.push(Rows::of(alloc, list)?)?;
        }
        Ok(Order { tables })
    }

    /// The order in which the rows of an ordinary module stand: types behind those around them, children
    /// behind one another by their owners, and tables that loaders search by halves by their keys
    /// (ECMA-335 II.22). The time is linear but for sorting, and for depths, which take a round over
    /// all types for each binary digit of their number.
    pub fn of<V: ModuleView>(alloc: Global, view: &V) -> Result<Order, AllocError>
        requires sound { IsSound (V.meaning view.now) }
        ensures order { IfOk result (λ o. list_at o ≡ new_order (V.meaning view.now)) }
        ensures orders { IfOk result (λ o. AreOrdersOf (V.meaning view.now) o) }
    {
        let own = Order::begin(alloc, view)?;
        let types = staged(alloc, view, &own, Stage::Depth)?;
        let members = staged(alloc, view, &types, Stage::Owner)?;
        let params = staged(alloc, view, &members, Stage::Method)?;
        let keyed = staged(alloc, view, &params, Stage::Key)?;
        let constraints = staged(alloc, view, &keyed, Stage::Param)?;
        let order = staged(alloc, view, &constraints, Stage::Attribute)?;
        Ok(order)
    }

    /// The rows of a table in their new order, none where it has none.
    pub fn rows(&self, table: u8) -> &[u32]
        ensures { result.now ≡ list_at self.now table }
    {
        match self.tables.get(table as usize) {
            Some(rows) => rows.as_slice(),
            None => &[],
        }
    }

    /// The rows of a table once more.
    pub(crate) fn copied(&self, alloc: Global, table: u8) -> Result<Rows, AllocError>
        ensures { IfOk result (λ r. r ≡ list_at self.now table) }
    {
        match self.tables.get(table as usize) {
            Some(rows) => rows.copied(alloc),
            None => Rows::of(alloc, Vec::new(alloc)),
        }
    }

    /// Where a token goes; what is no row stays. It takes no memory.
    pub fn moved(&self, token: Token) -> Token
        ensures moved { result ≡ moved_by (list_at self.now) token }
        ensures low { token.row < 2 ^ 24 → result.row < 2 ^ 24 }
        ensures none { token.row ≡ 0 → result.row ≡ 0 }
    {
        match self.tables.get(token.table as usize) {
            Some(rows) => Token {
                table: token.table,
                row: rows.new_row(token.row),
            },
            None => token,
        }
    }

    /// The token of the row that comes to this one's place; past a table's last the token itself. It
    /// takes no memory.
    pub fn old(&self, token: Token) -> Token
        ensures old { result ≡ record { table = token.table; row = old_row (list_at self.now token.table) token.row } }
        ensures low { token.row < 2 ^ 24 → result.row < 2 ^ 24 }
    {
        match self.tables.get(token.table as usize) {
            Some(rows) => Token {
                table: token.table,
                row: rows.old_row(token.row),
            },
            None => token,
        }
    }

    /// Where a row of the module goes: the token of the same table that it has behind the move. It
    /// takes no memory.
    pub fn new_of(&self, old: Token) -> Token
        ensures moved { result ≡ moved_by (list_at self.now) old }
        ensures low { old.row < 2 ^ 24 → result.row < 2 ^ 24 }
    {
        self.moved(old)
    }
}
