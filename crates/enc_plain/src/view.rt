//! A view of a module: its rows, asked for cell by cell.
ghost use Rattle.std.specs.Prelude.{◌≡◌, ℕ, ◌<◌, ◌^◌, ◌==◌, List, Option, Some, length, slice_get, option_map, option_copied, is_some, not, IsTrue, IfOk, IfSome};
ghost use Rattle.enc_opcodes.specs.Body.{Body, body_of, code_seen, texts_are_there};
ghost use Rattle.enc_schema.specs.Children.{is_child_table, owner_table};
ghost use Rattle.enc_plain.specs.Cell.{number, text, blob, guid, refer, body, field, kind_in, numbers, texts, blobs, guids, references};
ghost use Rattle.enc_plain.specs.Module.{Module, rows_in, has_row, cell_of, owner_of, kids_of};
ghost use Rattle.enc_plain.specs.Reading.{index_token};
ghost use Rattle.enc_base.specs.Tables.{field_rva, method_def};

use enc_base::Token;
use enc_opcodes::CodeRef;
use std::alloc::{AllocError, Global};

/// Whatever means one plain module. Rows count from 1, columns from 0 in the order of ECMA-335
/// II.22. A cell may be asked for where the row is there and the column is of that kind. No call
/// but `kid_rows` takes memory.
pub trait ModuleView {
    // The module that is meant.
    ghost meaning: { Self → Module };
    // The bytes of the user texts, by the offsets that the code of its bodies has.
    ghost users: { Self → ℕ → Option (List ℕ) };
    // The body at each place of its files, None where there is none.
    ghost places: { Self → ℕ → Option Body };
    // The blob at each place of its files, None where there is none.
    ghost stored: { Self → ℕ → Option (List ℕ) };

    /// The number of rows of a table.
    fn count(&self, table: u8) -> u32
        ensures count { result ≡ length (rows_in (meaning self.now) table) }
        ensures few { result < 2 ^ 24 };

    /// The number in a column.
    fn num(&self, row: Token, column: u8) -> u32
        requires row { IsTrue (has_row (meaning self.now) row) }
        requires kind { kind_in row.table column ≡ Some numbers }
        ensures { cell_of (meaning self.now) row column ≡ Some (number result) };

    /// The bytes of a text, without a zero.
    fn text(&self, row: Token, column: u8) -> &[u8]
        requires row { IsTrue (has_row (meaning self.now) row) }
        requires kind { kind_in row.table column ≡ Some texts }
        ensures { cell_of (meaning self.now) row column ≡ Some (text result.now) };

    /// The bytes of a blob.
    fn blob(&self, row: Token, column: u8) -> &[u8]
        requires row { IsTrue (has_row (meaning self.now) row) }
        requires kind { kind_in row.table column ≡ Some blobs }
        ensures { cell_of (meaning self.now) row column ≡ Some (blob result.now) };

    /// The place of a blob: cells with one place have one blob. What else the number tells is the
    /// view's own matter.
    fn blob_place(&self, row: Token, column: u8) -> u64
        requires row { IsTrue (has_row (meaning self.now) row) }
        requires kind { kind_in row.table column ≡ Some blobs }
        ensures blob { cell_of (meaning self.now) row column ≡ option_map blob (stored self.now result) }
        ensures some { IsTrue (is_some (stored self.now result)) };

    /// The sixteen bytes of a GUID as they are stored; nil is sixteen zeros.
    fn guid(&self, row: Token, column: u8) -> [u8; 16]
        requires row { IsTrue (has_row (meaning self.now) row) }
        requires kind { kind_in row.table column ≡ Some guids }
        ensures { cell_of (meaning self.now) row column ≡ Some (guid result) };

    /// The token in a column of an index; nil is 00000000.
    fn refer(&self, row: Token, column: u8) -> Token
        requires row { IsTrue (has_row (meaning self.now) row) }
        requires kind { kind_in row.table column ≡ Some references }
        ensures { cell_of (meaning self.now) row column ≡ Some (refer result) };

    /// The body of a method, None where it has none (ECMA-335 II.25.4). The user texts that its
    /// code names are those of `user_text`, and each is there.
    fn code(&self, method: Token) -> Option<CodeRef<'_>>
        requires row { IsTrue (has_row (meaning self.now) method) }
        requires table { method.table ≡ method_def }
        ensures body { cell_of (meaning self.now) method 0
            ≡ Some (body (option_map (λ c. body_of (users self.now) (code_seen c)) result)) }
        ensures texts { IfSome result (λ c. IsTrue (texts_are_there (users self.now) c.code.now)) }
        ensures few { IfSome result (λ c. length c.code.now < 2 ^ 32) }
        ensures short { IfSome result (λ c. length c.sections.now < 2 ^ 32) };

    /// The place of a method's body, 0 where it has none: methods with one place have one body. What
    /// else the number tells is the view's own matter.
    fn code_place(&self, method: Token) -> u64
        requires row { IsTrue (has_row (meaning self.now) method) }
        requires table { method.table ≡ method_def }
        ensures body { cell_of (meaning self.now) method 0 ≡ Some (body (places self.now result)) }
        ensures some { is_some (places self.now result) ≡ not (result == 0) };

    /// The initial bytes of a field, by the row of FieldRVA (ECMA-335 II.22.18).
    fn field_bytes(&self, row: Token) -> &[u8]
        requires row { IsTrue (has_row (meaning self.now) row) }
        requires table { row.table ≡ field_rva }
        ensures { cell_of (meaning self.now) row 0 ≡ Some (field result.now) };

    /// The bytes of the UTF-16 units of the user text at an offset, None where none stands there.
    fn user_text(&self, offset: u32) -> Option<&[u8]>
        ensures { option_copied result ≡ users self.now offset };

    /// The bytes of the managed resources (ECMA-335 II.25.3.3).
    fn resources(&self) -> &[u8]
        ensures { result.now ≡ (meaning self.now).resources };

    /// The number of the entry point, a token or 0; it isn't judged (ECMA-335 II.25.3.3.2).
    fn entry(&self) -> u32
        ensures { result ≡ (meaning self.now).entry };

    /// The row that owns a row of Field, MethodDef, Param, Event or Property.
    fn owner(&self, child: Token) -> Token
        requires row { IsTrue (has_row (meaning self.now) child) }
        requires table { IsTrue (is_child_table child.table) }
        ensures { owner_of (meaning self.now) child ≡ Some result };

    /// The number of a row's children in a child table.
    fn kids(&self, owner: Token, table: u8) -> u32
        requires row { IsTrue (has_row (meaning self.now) owner) }
        requires table { IsTrue (is_child_table table) }
        requires owners { owner.table ≡ owner_table table }
        ensures { result ≡ length (kids_of (meaning self.now) owner table) };

    /// A row's child in a child table, by its place in order of attachment, from 0.
    fn kid(&self, owner: Token, table: u8, i: u32) -> Token
        requires row { IsTrue (has_row (meaning self.now) owner) }
        requires table { IsTrue (is_child_table table) }
        requires owners { owner.table ≡ owner_table table }
        requires there { i < length (kids_of (meaning self.now) owner table) }
        ensures table { result.table ≡ table }
        ensures row { slice_get (kids_of (meaning self.now) owner table) i ≡ Some result.row };

    /// The rows of a row's children in a child table, in order of attachment. Unlike `kid` it goes
    /// over them once.
    fn kid_rows(&self, alloc: Global, owner: Token, table: u8) -> Result<Vec<u32>, AllocError>
        requires row { IsTrue (has_row (meaning self.now) owner) }
        requires table { IsTrue (is_child_table table) }
        requires owners { owner.table ≡ owner_table table }
        ensures { IfOk result (λ rows. rows.items ≡ kids_of (meaning self.now) owner table) };
}

/// Whether the token names a row: its row is from 1 to its table's count.
#[tactic(auto, unfolding(crate::specs::Module::has_row))]
pub fn is_row<V: ModuleView>(view: &V, token: Token) -> bool
    ensures { result ≡ has_row (V.meaning view.now) token }
{
    token.row != 0 && token.row <= view.count(token.table)
}

/// The token of an index into a table: nil for row 0.
pub fn index_token(table: u8, row: u32) -> Token
    ensures { result ≡ index_token table row }
{
    if row == 0 {
        Token { table: 0, row: 0 }
    } else {
        Token { table, row }
    }
}
