//! An aggregate as a view of its plain module and of its chain.
ghost use Rattle.std.specs.Prelude.{◌≡◌, Some, IsTrue, is_some, refl};
ghost use Rattle.enc_schema.specs.Schema.{column_in};
ghost use Rattle.enc_agg.specs.Seen.{module_of_all, chain_of_all, users_of_all, body_of_all, blob_of_all, token_meant};

use crate::added::{Added, count_in, id_in, lengths_in, number};
use crate::aggregate::Aggregate;
use crate::directory::find;
use crate::heaps::{entry_in, guid_in, has_text_in};
use enc_base::Token;
use enc_meta::{Heap, HeapLengths};
use enc_opcodes::CodeRef;
use enc_plain::{ChainView, ModuleView, index_token};
use enc_schema::{Column, column_of, decode_coded};
use std::alloc::{AllocError, Global};

/// A row of a table.
pub fn row_found(table: u8, row: u32) -> Token
    ensures { result ≡ record { table = table; row = row } }
{
    Token { table, row }
}

/// The token that a number stands for in a column of an index.
pub fn token_meant(table: u8, column: u8, number: u32) -> Token
    requires { IsTrue (is_some (token_meant (column_in table column) number)) }
    ensures { token_meant (column_in table column) number ≡ Some result }
{
    match column_of(table, column) {
        Some(Column::Index(named)) => index_token(named, number),
        Some(Column::Coded(kind)) => match decode_coded(kind, number) {
            Some(token) => token,
            None => unreachable!(),
        },
        _ => unreachable!(),
    }
}

impl ModuleView for Aggregate {
    ghost meaning = { module_of_all };

    ghost users = { users_of_all };

    ghost places = { body_of_all };

    ghost stored = { blob_of_all };

    fn count(&self, table: u8) -> u32 {
        count_in(&self.image, &self.added, table)
    }

    fn num(&self, row: Token, column: u8) -> u32 {
        match find(&self.added, &self.directory, row) {
            None => self.image.num(row, column),
            Some(found) => number(found.upto, row_found(row.table, found.row), column),
        }
    }

    fn text(&self, row: Token, column: u8) -> &[u8] {
        let Some(found) = find(&self.added, &self.directory, row) else {
            return self.image.text(row, column);
        };
        let offset = number(found.upto, row_found(row.table, found.row), column);
        match entry_in(&self.image, found.upto, Heap::Strings, offset) {
            Some(text) => text,
            None => unreachable!(),
        }
    }

    fn blob(&self, row: Token, column: u8) -> &[u8] {
        let Some(found) = find(&self.added, &self.directory, row) else {
            return self.image.blob(row, column);
        };
        let offset = number(found.upto, row_found(row.table, found.row), column);
        match entry_in(&self.image, found.upto, Heap::Blobs, offset) {
            Some(blob) => blob,
            None => unreachable!(),
        }
    }

    fn blob_place(&self, row: Token, column: u8) -> u64 {
        let Some(found) = find(&self.added, &self.directory, row) else {
            return self.image.blob_place(row, column);
        };
        u64::from(number(found.upto, row_found(row.table, found.row), column))
    }

    fn guid(&self, row: Token, column: u8) -> [u8; 16] {
        let Some(found) = find(&self.added, &self.directory, row) else {
            return self.image.guid(row, column);
        };
        let entry = number(found.upto, row_found(row.table, found.row), column);
        match guid_in(&self.image, found.upto, entry) {
            Some(guid) => guid,
            None => unreachable!(),
        }
    }

    fn refer(&self, row: Token, column: u8) -> Token {
        let Some(found) = find(&self.added, &self.directory, row) else {
            return self.image.refer(row, column);
        };
        let number = number(found.upto, row_found(row.table, found.row), column);
        token_meant(row.table, column, number)
    }

    fn code(&self, method: Token) -> Option<CodeRef<'_>> {
        self.code_of(method)
    }

    fn code_place(&self, method: Token) -> u64 {
        self.place_of_code(method)
    }

    fn field_bytes(&self, row: Token) -> &[u8] {
        match find(&self.added, &self.directory, row) {
            None => self.image.field_bytes(row),
            Some(_) => &[],
        }
    }

    fn user_text(&self, offset: u32) -> Option<&[u8]> {
        entry_in(&self.image, &self.added, Heap::Users, offset)
    }

    fn resources(&self) -> &[u8] {
        let _ = &self.added;
        self.image.resources()
    }

    fn entry(&self) -> u32 {
        let _ = &self.added;
        self.image.entry()
    }

    fn owner(&self, child: Token) -> Token {
        self.owner_row(child)
    }

    fn kids(&self, owner: Token, table: u8) -> u32 {
        self.count_kids(owner, table)
    }

    fn kid(&self, owner: Token, table: u8, i: u32) -> Token {
        Token {
            table,
            row: self.kid_row(owner, table, i),
        }
    }

    fn kid_rows(&self, alloc: Global, owner: Token, table: u8) -> Result<Vec<u32>, AllocError> {
        self.rows_of_kids(alloc, owner, table)
    }
}

impl ChainView for Aggregate {
    ghost chain = { chain_of_all };

    fn generations(&self) -> u32 {
        let added: &[Added] = &self.added;
        added.len() as u32 + 1
    }

    fn enc_id(&self, generation: u32) -> [u8; 16] {
        if generation == 0 {
            return [0; 16];
        }
        id_in(&self.added, generation - 1)
    }

    fn lengths(&self) -> HeapLengths {
        lengths_in(&self.image, &self.added)
    }

    fn entry_at(&self, heap: Heap, offset: u32) -> Option<&[u8]> {
        entry_in(&self.image, &self.added, heap, offset)
    }

    fn has_text(&self, offset: u32) -> bool {
        has_text_in(&self.image, &self.added, offset)
    }

    fn guid_at(&self, k: u32) -> Option<[u8; 16]> {
        guid_in(&self.image, &self.added, k)
    }

    ghost means = { λ h. refl };

    ghost tells = { λ h offset. refl };

    ghost joins = { λ h offset. refl };
}
