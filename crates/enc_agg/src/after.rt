//! An aggregate with a delta that isn't committed yet, as a view of the plain module that they mean.
ghost use Rattle.std.specs.Prelude.{◌≡◌, option_copied};
ghost use Rattle.enc_meta.specs.HeapKinds.{joined_at};
ghost use Rattle.enc_plain.specs.Sound.{IsSound};
ghost use Rattle.enc_rows.specs.Source.{raw_in};
ghost use Rattle.enc_delta.specs.Delta.{listed, place_in};
ghost use Rattle.enc_agg.specs.Next.{chain_of_next, module_of_next, users_of_next, body_of_next, blob_of_next};

use crate::added::count_of;
use crate::aggregate::{Aggregate, Ready};
use crate::code::place_of_all;
use crate::view::{row_found, token_meant};
use enc_base::Token;
use enc_delta::{entry_after, guid_after};
use enc_meta::Heap;
use enc_opcodes::CodeRef;
use enc_plain::{ChainView, ModuleView};
use enc_schema::columns::METHOD_DEF_RVA;
use std::alloc::{AllocError, Global};
use std::marker::Model;

/// The plain module of an aggregate with a delta that was made ready and isn't committed yet.
#[derive(Drop)]
pub struct After<'a> {
    pub(crate) aggregate: &'a Aggregate,
    pub(crate) ready: &'a Ready,
}

impl<'a> Model for After<'a> {
    ghost use Rattle.enc_agg.specs.Next.{Next, MayBeNext};

    ghost Value = { Next };

    ghost view = { λ x. record { before = x.aggregate.now; delta = x.ready.now.delta } };

    ghost invariant = { λ x. MayBeNext x.aggregate.now x.ready.now };
}

impl After<'_> {
    /// The module is sound: a law, of which a caller makes use.
    pub fn sound(&self)
        ensures { IsSound (module_of_next self.now) }
    {
        let _ = &self.ready;
    }

    /// The position of a token in the delta, where the delta lists it.
    fn place(&self, row: Token) -> Option<u32>
        ensures { result ≡ place_in (listed self.now.delta) row }
    {
        match self.ready.own.place(row) {
            Some(place) => Some(place.row),
            None => None,
        }
    }

    /// The number in a column of the delta's row for a token.
    fn own(&self, row: Token, place: u32, column: u8) -> u32
        ensures { result ≡ raw_in self.now.delta (record { table = row.table; row = place }) column }
    {
        self.ready.delta.cell(row_found(row.table, place), column)
    }

    /// The entry at an offset of a joined heap with the delta's, None where the offset isn't good.
    fn entry_in(&self, heap: Heap, offset: u32) -> Option<&[u8]>
        ensures { option_copied result ≡ joined_at heap (chain_of_next self.now).heaps offset }
    {
        entry_after(
            self.aggregate,
            &self.ready.delta.heaps(),
            &self.ready.before,
            heap,
            offset,
        )
    }
}

impl ModuleView for After<'_> {
    ghost meaning = { module_of_next };

    ghost users = { users_of_next };

    ghost places = { body_of_next };

    ghost stored = { blob_of_next };

    fn count(&self, table: u8) -> u32 {
        count_of(&self.ready.counts, table)
    }

    fn num(&self, row: Token, column: u8) -> u32 {
        match self.place(row) {
            None => self.aggregate.num(row, column),
            Some(place) => self.own(row, place, column),
        }
    }

    fn text(&self, row: Token, column: u8) -> &[u8] {
        let Some(place) = self.place(row) else {
            return self.aggregate.text(row, column);
        };
        match self.entry_in(Heap::Strings, self.own(row, place, column)) {
            Some(text) => text,
            None => unreachable!(),
        }
    }

    fn blob(&self, row: Token, column: u8) -> &[u8] {
        let Some(place) = self.place(row) else {
            return self.aggregate.blob(row, column);
        };
        match self.entry_in(Heap::Blobs, self.own(row, place, column)) {
            Some(blob) => blob,
            None => unreachable!(),
        }
    }

    fn blob_place(&self, row: Token, column: u8) -> u64 {
        match self.place(row) {
            None => self.aggregate.blob_place(row, column),
            Some(place) => u64::from(self.own(row, place, column)),
        }
    }

    fn guid(&self, row: Token, column: u8) -> [u8; 16] {
        let Some(place) = self.place(row) else {
            return self.aggregate.guid(row, column);
        };
        let entry = self.own(row, place, column);
        match guid_after(self.aggregate, &self.ready.delta.heaps(), entry) {
            Some(guid) => guid,
            None => unreachable!(),
        }
    }

    fn refer(&self, row: Token, column: u8) -> Token {
        match self.place(row) {
            None => self.aggregate.refer(row, column),
            Some(place) => token_meant(row.table, column, self.own(row, place, column)),
        }
    }

    fn code(&self, method: Token) -> Option<CodeRef<'_>> {
        match self.place(method) {
            None => self.aggregate.code_of(method),
            Some(place) => self
                .ready
                .delta
                .code(self.own(method, place, METHOD_DEF_RVA)),
        }
    }

    fn code_place(&self, method: Token) -> u64 {
        let Some(place) = self.place(method) else {
            return self.aggregate.place_of_code(method);
        };
        let own = self.own(method, place, METHOD_DEF_RVA);
        place_of_all(self.aggregate.generations(), own)
    }

    fn field_bytes(&self, row: Token) -> &[u8] {
        match self.place(row) {
            None => self.aggregate.field_bytes(row),
            Some(_) => &[],
        }
    }

    fn user_text(&self, offset: u32) -> Option<&[u8]> {
        self.entry_in(Heap::Users, offset)
    }

    fn resources(&self) -> &[u8] {
        self.aggregate.resources()
    }

    fn entry(&self) -> u32 {
        self.aggregate.entry()
    }

    fn owner(&self, child: Token) -> Token {
        if child.row <= self.aggregate.count(child.table) {
            return self.aggregate.owner_row(child);
        }
        match self.ready.own.owner(child) {
            Some(owner) => owner,
            None => unreachable!(),
        }
    }

    fn kids(&self, owner: Token, table: u8) -> u32 {
        match self.ready.own.count(owner, table) {
            Some(count) => count,
            None => self.aggregate.count_kids(owner, table),
        }
    }

    fn kid(&self, owner: Token, table: u8, i: u32) -> Token {
        if i < self.aggregate.count_kids(owner, table) {
            return row_found(table, self.aggregate.kid_row(owner, table, i));
        }
        match self.ready.own.kid(owner, table, i) {
            Some(row) => row_found(table, row),
            None => unreachable!(),
        }
    }

    fn kid_rows(&self, alloc: Global, owner: Token, table: u8) -> Result<Vec<u32>, AllocError> {
        let mut rows = self.aggregate.rows_of_kids(alloc, owner, table)?;
        self.ready.own.push_kids(&mut rows, owner, table)?;
        Ok(rows)
    }
}
