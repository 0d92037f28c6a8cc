//! An image as a view of its plain module.
ghost use Rattle.std.specs.Prelude.{◌≡◌, ◌&&◌, ◌<◌, ◌^◌, ◌==◌, Some, None, IsTrue, IsSome, IfSome, is_some, not, length, option_map, nat_lt};
ghost use Rattle.enc_opcodes.specs.Body.{code_seen};
ghost use Rattle.enc_plain.specs.Bodies.{code_loaded, body_loaded};
ghost use Rattle.enc_meta.specs.Heaps.{blob_at, lengths_of, part};
ghost use Rattle.enc_rows.specs.Layout.{IsWithin};
ghost use Rattle.enc_schema.specs.Schema.{column_in};
ghost use Rattle.enc_plain.specs.Module.{Module, rows_in, has_row, cell_of};
ghost use Rattle.enc_image.specs.Base.{cells_fault, module_in, users_of, chain_of_base};
ghost use Rattle.enc_plain.specs.Sound.{IsSound, is_part};
ghost use Rattle.enc_image.specs.Seen.{source_seen};
ghost use Rattle.enc_rows.specs.Source.{raw_in};
ghost use Rattle.enc_base.specs.Tables.{method_def};

use crate::code::code_at;
use crate::fields::field_bytes;
use crate::image::Image;
use crate::judge::Cells;
use crate::open::metadata;
use enc_base::Token;
use enc_base::tables::{
    ENC_LOG, ENC_MAP, EVENT_PTR, FIELD_PTR, METHOD_PTR, PARAM_PTR, PROPERTY_PTR, TABLE_COUNT,
};
use enc_meta::{HeapLengths, Heaps};
use enc_opcodes::CodeRef;
use enc_pe::LoadedFile;
use enc_plain::{ModuleView, index_token};
use enc_schema::columns::METHOD_DEF_RVA;
use enc_schema::{Column, column_of, decode_coded, owner_table};
use std::alloc::{AllocError, Global};

/// The Ptr tables, EncLog and EncMap are no part of a module.
fn is_part(table: u8) -> bool
    ensures { result ≡ is_part table }
{
    !matches!(
        table,
        FIELD_PTR | METHOD_PTR | PARAM_PTR | EVENT_PTR | PROPERTY_PTR | ENC_LOG | ENC_MAP
    )
}

impl Image {
    /// What of the file is loaded.
    fn loaded(&self) -> LoadedFile<'_>
        ensures { result ≡ self.now.loaded }
    {
        LoadedFile::of(&self.bytes, &self.container, &self.sections)
    }

    /// The parts that cells are read from.
    fn cells(&self) -> Cells<'_>
        ensures source { source_seen result ≡ self.now }
        ensures within { IsWithin (part result.bytes.now result.tables.now.span) result.tables.now }
    {
        Cells {
            file: &self.bytes,
            container: self.container,
            loaded: self.loaded(),
            bytes: metadata(&self.bytes, &self.container),
            tables: &self.tables,
            heaps: self.heaps(),
        }
    }

    /// The number that stands in a cell.
    fn number(&self, row: Token, column: u8) -> u32
        requires row { IsTrue (has_row (module_in self.now) row) }
        requires column { IsSome (column_in row.table column) }
        ensures raw { raw_in self.now row column ≡ result }
        ensures sound { cells_fault self.now ≡ None }
    {
        self.tables
            .cell(metadata(&self.bytes, &self.container), row, column)
    }

    /// The parts of a method's body, None where it has none.
    pub fn body(&self, method: Token) -> Option<CodeRef<'_>>
        requires row { IsTrue (has_row (module_in self.now) method) }
        requires table { method.table ≡ method_def }
        ensures code { option_map code_seen result ≡ code_loaded self.now.loaded (raw_in self.now method 0) }
        ensures few { IfSome result (λ c. length c.code.now < 2 ^ 32) }
        ensures short { IfSome result (λ c. length c.sections.now < 2 ^ 32) }
        ensures sound { cells_fault self.now ≡ None }
    {
        code_at(&self.loaded(), self.number(method, METHOD_DEF_RVA))
    }

    /// The RVA of a method's body, 0 where it has none.
    pub fn rva(&self, method: Token) -> u32
        requires row { IsTrue (has_row (module_in self.now) method) }
        requires table { method.table ≡ method_def }
        ensures raw { raw_in self.now method 0 ≡ result }
        ensures some { is_some (code_loaded self.now.loaded result) ≡ not (result == 0) }
    {
        self.number(method, METHOD_DEF_RVA)
    }

    /// Nothing in an image is refused, and its module is sound: a law, of which a caller of the view
    /// makes use.
    pub fn sound(&self)
        ensures cells { cells_fault self.now ≡ None }
        ensures sound { IsSound (chain_of_base self.now).plain }
    {
        let _ = &self.bytes;
    }

    /// The heaps by the bytes that count.
    pub fn heaps(&self) -> Heaps<'_>
        ensures { result ≡ self.now.heaps }
    {
        Heaps::with(
            metadata(&self.bytes, &self.container),
            &self.root,
            self.ends,
        )
    }

    /// How many bytes of `#Strings`, `#US` and `#Blob` count, and how many whole entries `#GUID` has.
    pub fn lengths(&self) -> HeapLengths
        ensures { result ≡ lengths_of self.now.heaps }
    {
        self.heaps().lengths()
    }
}

impl ModuleView for Image {
    ghost meaning = { module_in };

    ghost users = { users_of };

    ghost places = { λ s. body_loaded s.loaded (users_of s) };

    ghost stored = { λ s. blob_at s.heaps.blobs };

    #[tactic(auto, using(crate::proofs::Rows::count_steps))]
    fn count(&self, table: u8) -> u32 {
        if table < TABLE_COUNT && is_part(table) {
            self.tables.count(table)
        } else {
            0
        }
    }

    fn num(&self, row: Token, column: u8) -> u32 {
        self.number(row, column)
    }

    fn text(&self, row: Token, column: u8) -> &[u8] {
        match self.heaps().text(self.number(row, column)) {
            Some(text) => text,
            None => unreachable!(),
        }
    }

    fn blob(&self, row: Token, column: u8) -> &[u8] {
        match self.heaps().blob(self.number(row, column)) {
            Some(blob) => blob,
            None => unreachable!(),
        }
    }

    fn blob_place(&self, row: Token, column: u8) -> u64 {
        u64::from(self.number(row, column))
    }

    fn guid(&self, row: Token, column: u8) -> [u8; 16] {
        match self.heaps().guid(self.number(row, column)) {
            Some(guid) => guid,
            None => unreachable!(),
        }
    }

    fn refer(&self, row: Token, column: u8) -> Token {
        let number = self.number(row, column);
        match column_of(row.table, column) {
            Some(Column::Index(table)) => index_token(table, number),
            Some(Column::Coded(kind)) => match decode_coded(kind, number) {
                Some(token) => token,
                None => unreachable!(),
            },
            _ => unreachable!(),
        }
    }

    fn code(&self, method: Token) -> Option<CodeRef<'_>> {
        self.body(method)
    }

    fn code_place(&self, method: Token) -> u64 {
        u64::from(self.rva(method))
    }

    fn field_bytes(&self, row: Token) -> &[u8] {
        field_bytes(&self.cells(), row)
    }

    fn user_text(&self, offset: u32) -> Option<&[u8]> {
        self.heaps().user(offset)
    }

    fn resources(&self) -> &[u8] {
        self.container.resources.part(&self.bytes)
    }

    fn entry(&self) -> u32 {
        let _ = &self.bytes;
        self.container.entry
    }

    fn owner(&self, child: Token) -> Token {
        let bytes = metadata(&self.bytes, &self.container);
        if let Some(n) = self.likely_owner(child)
            && self.tables.owns(bytes, child.table, n, child.row)
        {
            let table = owner_table(child.table);
            return Token { table, row: n + 1 };
        }
        self.first_owner(child)
    }

    fn kids(&self, owner: Token, table: u8) -> u32 {
        self.tables.children(metadata(&self.bytes, &self.container), table, owner.row - 1)
    }

    fn kid(&self, owner: Token, table: u8, i: u32) -> Token {
        match self.tables.child(
            metadata(&self.bytes, &self.container),
            table,
            owner.row - 1,
            i,
        ) {
            Some(row) => Token { table, row },
            None => unreachable!(),
        }
    }

    fn kid_rows(&self, alloc: Global, owner: Token, table: u8) -> Result<Vec<u32>, AllocError> {
        let rows = self.tables.child_rows(
            alloc,
            metadata(&self.bytes, &self.container),
            table,
            owner.row - 1,
        )?;
        Ok(rows)
    }
}
