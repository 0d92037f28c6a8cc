//! A module whose rows were moved, as a view.
ghost use Rattle.std.specs.Prelude.{◌≡◌, ◌<◌, ◌^◌, IfOk, IsTrue};
ghost use Rattle.enc_compact.specs.Moved.{children_moved, module_moved};
ghost use Rattle.enc_row_order.specs.Orders.{new_of, old_of};
ghost use Rattle.enc_compact.specs.Seen.{bodies_moved, blob_numbered};
ghost use Rattle.enc_plain.specs.Module.{has_row};
ghost use Rattle.enc_plain.specs.Sound.{IsSound};

use crate::bodies::HeldBodies;
use crate::signatures::HeldSignatures;
use enc_base::Token;
use enc_opcodes::CodeRef;
use enc_plain::{ModuleView, is_row};
use enc_row_order::Order;
use std::alloc::{AllocError, Global};
use std::marker::Model;
use std::rc::Rc;

/// A module whose rows have the order of an ordinary one, each token moved with its row. The module that it
/// was made of is lent; held are an order, and the bodies and signatures whose bytes change.
#[derive(Drop)]
pub struct MovedModule<'a, V: ModuleView> {
    pub(crate) view: &'a V,
    pub(crate) order: Rc<Order>,
    pub(crate) bodies: HeldBodies,
    pub(crate) signatures: HeldSignatures,
}

impl<'a, V: ModuleView> Model for MovedModule<'a, V> {
    ghost use Rattle.enc_compact.specs.Held.{HoldsMoved};
    ghost use Rattle.enc_schema.specs.Schema.{list_at};

    ghost Value = { V };

    ghost view = { λ m. m.view.now };

    ghost invariant = { λ m. HoldsMoved (V.meaning m.view.now) (V.users m.view.now) (list_at m.order.value)
        m.bodies.held.items m.bodies.slots.items m.signatures };
}

impl<V: ModuleView> MovedModule<'_, V> {
    /// The module that is lent.
    fn lent(&self) -> &V
        ensures lent { result.now ≡ self.now }
        ensures sound { IsSound (V.meaning self.now) }
    {
        self.view
    }

    /// The row of the module that is lent that came to a row's place.
    fn old(&self, row: Token) -> Token
        requires { IsTrue (has_row (module_moved (V.meaning self.now)) row) }
        ensures old { result ≡ old_of (V.meaning self.now) row }
        ensures there { IsTrue (has_row (V.meaning self.now) result) }
        ensures table { result.table ≡ row.table }
    {
        self.order.old(row)
    }

    /// Where a token goes.
    fn moved(&self, token: Token) -> Token
        ensures moved { result ≡ new_of (V.meaning self.now) token }
        ensures low { token.row < 2 ^ 24 → result.row < 2 ^ 24 }
    {
        self.order.moved(token)
    }

    /// The rows of a table at their new places.
    fn moved_all(&self, alloc: Global, table: u8, rows: &[u32]) -> Result<Vec<u32>, AllocError>
        ensures { IfOk result (λ v. v.items ≡ children_moved (new_of (V.meaning self.now)) table rows.now) }
    {
        let mut moved = Vec::with_capacity(alloc, rows.len())?;
        for i in 0..rows.len() {
            let row = rows[i];
            moved.push(self.moved(Token { table, row }).row)?;
        }
        Ok(moved)
    }
}

impl<V: ModuleView> ModuleView for MovedModule<'_, V> {
    ghost meaning = { λ v. module_moved (V.meaning v) };

    ghost users = { V.users };

    ghost places = { λ v. bodies_moved (V.meaning v) (V.places v) };

    ghost stored = { λ v. blob_numbered (module_moved (V.meaning v)) };

    fn count(&self, table: u8) -> u32 {
        self.lent().count(table)
    }

    fn num(&self, row: Token, column: u8) -> u32 {
        self.lent().num(self.old(row), column)
    }

    fn text(&self, row: Token, column: u8) -> &[u8] {
        self.lent().text(self.old(row), column)
    }

    fn blob(&self, row: Token, column: u8) -> &[u8] {
        let old = self.old(row);
        self.signatures
            .blob(old, column, self.lent().blob(old, column))
    }

    fn blob_place(&self, row: Token, column: u8) -> u64 {
        let _ = &self.view;
        (u64::from(row.table) * 0x1_0000_0000 + u64::from(row.row)) * 0x100 + u64::from(column)
    }

    fn guid(&self, row: Token, column: u8) -> [u8; 16] {
        self.lent().guid(self.old(row), column)
    }

    fn refer(&self, row: Token, column: u8) -> Token {
        self.moved(self.lent().refer(self.old(row), column))
    }

    fn code(&self, method: Token) -> Option<CodeRef<'_>> {
        let old = self.old(method);
        match self.lent().code(old) {
            Some(code) => {
                let locals = self.moved(code.locals);
                Some(self.bodies.code(old.row, code, locals))
            }
            None => None,
        }
    }

    fn code_place(&self, method: Token) -> u64 {
        self.lent().code_place(self.old(method))
    }

    fn field_bytes(&self, row: Token) -> &[u8] {
        self.lent().field_bytes(self.old(row))
    }

    fn user_text(&self, offset: u32) -> Option<&[u8]> {
        self.lent().user_text(offset)
    }

    fn resources(&self) -> &[u8] {
        self.lent().resources()
    }

    fn entry(&self) -> u32 {
        let entry = self.lent().entry();
        let token = Token::of(entry);
        if !is_row(self.lent(), token) {
            return entry;
        }
        self.moved(token).number()
    }

    fn owner(&self, child: Token) -> Token {
        self.moved(self.lent().owner(self.old(child)))
    }

    fn kids(&self, owner: Token, table: u8) -> u32 {
        self.lent().kids(self.old(owner), table)
    }

    fn kid(&self, owner: Token, table: u8, i: u32) -> Token {
        self.moved(self.lent().kid(self.old(owner), table, i))
    }

    fn kid_rows(&self, alloc: Global, owner: Token, table: u8) -> Result<Vec<u32>, AllocError> {
        let rows = self.lent().kid_rows(alloc, self.old(owner), table)?;
        let moved = self.moved_all(alloc, table, &rows)?;
        Ok(moved)
    }
}
