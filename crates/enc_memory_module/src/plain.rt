//! A plain module in memory.
ghost use Rattle.std.specs.Prelude.{◌-◌, ◌≡◌, ℕ, ◌<◌, ◌^◌, ◌==◌, true, false, ◌∷◌, [], length, replicate, position, option_copied, option_map, unwrap_or, slice_get, IsTrue, IsSome, IfSome, IfOk};
ghost use Rattle.std.specs.List.{list_any};
ghost use Rattle.enc_meta.specs.Heaps.{user_at};
ghost use Rattle.enc_opcodes.specs.Body.{body_of, code_seen, texts_are_there};
ghost use Rattle.enc_plain.specs.Cell.{kind_in, cell_kind, body};
ghost use Rattle.enc_plain.specs.Module.{rows_in, row_at, row_of, has_row, cells_of, cell_of, owner_of, kids_of, kids_at, has_kid};
ghost use Rattle.enc_memory_module.specs.Plain.{cell_number, blob_in, body_at_row};
ghost use Rattle.enc_memory_module.specs.Encoded.{has_texts, with_tables};
ghost use Rattle.enc_plain.specs.Sound.{IsSound};
ghost use Rattle.enc_memory_module.specs.Begun.{module_row as row_of_module, begun};
ghost use Rattle.enc_base.specs.Tables.{table_count, method_def};

use crate::copy::copied_tables;
use enc_base::Token;
use enc_base::tables::TABLE_COUNT;
use enc_edit_list::BodyValue;
use enc_il::read_body;
use enc_meta::user_text_at;
use enc_opcodes::CodeRef;
use enc_plain::ModuleView;
use enc_schema::columns::FIELD_RVA_RVA;
use enc_schema::{is_child_table, owner_table, run_index};
use std::alloc::{AllocError, Global};
use std::marker::Model;

/// What stands in a column.
#[derive(Drop)]
pub enum PlainCell {
    Number(u32),
    /// Bytes without a zero.
    Text(Vec<u8>),
    Blob(Vec<u8>),
    Guid([u8; 16]),
    /// Nil is 00000000.
    Refer(Token),
    /// The body of a method as it was stated, None where it has none.
    Body(Option<BodyValue>),
    /// The initial bytes of a field.
    Field(Vec<u8>),
}

/// A cell of a row.
#[derive(Drop)]
pub struct Held {
    pub(crate) cell: PlainCell,
}

impl Model for Held {
    ghost use Rattle.enc_plain.specs.Cell.{Cell};

    ghost Value = { Cell };

    ghost use Rattle.enc_memory_module.specs.Meant.{cell_meant, CellStands};

    ghost view = { λ h. cell_meant h.cell };

    ghost invariant = { λ h. CellStands h.cell };
}

/// The children of a row in one table, in order of attachment.
#[derive(Drop)]
pub struct Kids {
    pub(crate) rows: Vec<u32>,
}

impl Model for Kids {
    ghost use Rattle.std.specs.Prelude.{ℕ, List};

    ghost Value = { List ℕ };

    ghost view = { λ k. k.rows.items };
}

/// A row: the cells of its columns, and the children of its runs.
#[derive(Drop)]
pub struct PlainRow {
    pub(crate) cells: Vec<Held>,
    pub(crate) kids: Vec<Kids>,
}

impl Model for PlainRow {
    ghost use Rattle.enc_plain.specs.Module.{Row};

    ghost Value = { Row };

    ghost view = { λ r. record { cells = r.cells.items; kids = r.kids.items } };
}

/// The rows of a table.
#[derive(Drop)]
pub struct PlainTable {
    pub(crate) rows: Vec<PlainRow>,
}

impl Model for PlainTable {
    ghost use Rattle.std.specs.Prelude.{List};
    ghost use Rattle.enc_plain.specs.Module.{Row};

    ghost Value = { List Row };

    ghost view = { λ t. t.rows.items };
}

/// The bytes of a method's body, as one that is written and begins with them; None where it has none
/// (ECMA-335 II.25.4).
#[derive(Drop)]
pub struct HeldCode {
    pub(crate) bytes: Option<Vec<u8>>,
}

impl Model for HeldCode {
    ghost use Rattle.std.specs.Prelude.{Option, option_map};
    ghost use Rattle.enc_opcodes.specs.Body.{Code};

    ghost Value = { Option Code };

    ghost use Rattle.enc_memory_module.specs.Encoded.{code_read, IsCodeRead};

    ghost view = { λ h. code_read (option_map (λ b. b.items) h.bytes) };

    ghost invariant = { λ h. IsCodeRead (option_map (λ b. b.items) h.bytes) };
}

impl HeldCode {
    /// The body, None where there is none.
    fn code(&self) -> Option<CodeRef<'_>>
        ensures code { option_map code_seen result ≡ self.now }
        ensures few { IfSome result (λ c. length c.code.now < 2 ^ 32) }
        ensures short { IfSome result (λ c. length c.sections.now < 2 ^ 32) }
    {
        let Some(bytes) = &self.bytes else {
            return None;
        };
        match read_body(bytes, 0, 0) {
            Ok(code) => Some(code),
            Err(_) => unreachable!(),
        }
    }
}

/// The code at a place.
fn code_at(codes: &[HeldCode], n: usize) -> Option<&HeldCode>
    ensures { option_copied result ≡ slice_get codes.now n }
{
    codes.get(n)
}

/// A plain module that holds its rows itself, the user texts of its bodies in a `#US` of its own, and
/// the bodies of its methods, in their order.
#[derive(Drop)]
pub struct PlainModule {
    pub(crate) tables: Vec<PlainTable>,
    pub(crate) users: Vec<u8>,
    pub(crate) codes: Vec<HeldCode>,
}

impl Model for PlainModule {
    ghost use Rattle.enc_memory_module.specs.Plain.{InMemory};
    ghost use Rattle.enc_memory_module.specs.Encoded.{HoldsCodes, with_tables};

    ghost Value = { InMemory };

    ghost view = { λ m. record { plain = with_tables m.tables.items; users = m.users.items } };

    ghost invariant = { λ m. HoldsCodes (with_tables m.tables.items) m.users.items m.codes.items };
}

impl PlainRow {
    /// The rows of the children in a child table.
    fn kids(&self, table: u8) -> &[u32]
        ensures { result.now ≡ kids_at self.now table }
    {
        match self.kids.get(run_index(table) as usize) {
            Some(kids) => &kids.rows,
            None => &[],
        }
    }

    /// This is the owner of the child.
    fn has(&self, child: Token) -> bool
        ensures { result ≡ has_kid child self.now }
    {
        self.kids(child.table).contains(&child.row)
    }
}

impl PlainTable {
    /// The first row that has the child, from 0.
    fn first_with(&self, child: Token) -> Option<u32>
        requires { length self.now < 2 ^ 24 }
        ensures row { result ≡ position (has_kid child) self.now }
        ensures few { IfSome result (λ n. n < 2 ^ 24) }
    {
        for n in 0..self.rows.len() {
            let row = &self.rows[n];
            if row.has(child) {
                return Some(n as u32);
            }
        }
        None
    }

    /// The row of this number, from 1.
    fn row(&self, row: u32) -> Option<&PlainRow>
        ensures { option_copied result ≡ row_at self.now row }
    {
        if row == 0 {
            return None;
        }
        self.rows.get(row as usize - 1)
    }
}

/// A GUID has sixteen bytes.
fn sixteen(guid: &[u8; 16])
    ensures { length guid.now ≡ 16 }
{
    let _ = guid.len();
}

/// The row of Module: Generation 0, this name and this Mvid, nil EncId and EncBaseId (ECMA-335
/// II.22.30).
#[tactic(auto, unfolding(enc_meta::specs::Heaps::nil_guid))]
fn module_row(alloc: Global, name: &[u8], mvid: [u8; 16]) -> Result<PlainRow, AllocError>
    ensures { IfOk result (λ r. r ≡ row_of_module name.now mvid) }
{
    let mut text = Vec::new(alloc);
    text.extend_from_slice(name)?;
    let mut cells = Vec::new(alloc);
    cells.push(Held {
        cell: PlainCell::Number(0),
    })?;
    cells.push(Held {
        cell: PlainCell::Text(text),
    })?;
    cells.push(Held {
        cell: PlainCell::Guid(mvid),
    })?;
    cells.push(Held {
        cell: PlainCell::Guid([0; 16]),
    })?;
    cells.push(Held {
        cell: PlainCell::Guid([0; 16]),
    })?;
    Ok(PlainRow {
        cells,
        kids: Vec::new(alloc),
    })
}

/// The number of a cell.
fn cell_number(row: Token, column: u8) -> u64
    ensures { result ≡ cell_number row column }
{
    u64::from(row.row) * 0x1_0000 + u64::from(row.table) * 0x100 + u64::from(column)
}

/// The tables of a module, of which the first has this row and the others none.
fn tables_with(alloc: Global, row: PlainRow) -> Result<Vec<PlainTable>, AllocError>
    ensures { IfOk result (λ t. t.items ≡ (row ∷ []) ∷ replicate (table_count - 1) []) }
{
    let mut rows = Vec::new(alloc);
    rows.push(row)?;
    let mut tables = Vec::new(alloc);
    tables.push(PlainTable { rows })?;
    for more in 0..TABLE_COUNT - 1 {
        let _ = more;
        tables.push(PlainTable {
            rows: Vec::new(alloc),
        })?;
    }
    Ok(tables)
}

impl PlainModule {
    /// The module with one row of Module, of this name, without a zero, and this Mvid, and nothing
    /// else.
    pub fn begin(alloc: Global, name: &[u8], mvid: [u8; 16]) -> Result<PlainModule, AllocError>
        requires { list_any (λ b. b == 0) name.now ≡ false }
        ensures { IfOk result (λ m. m ≡ record { plain = begun name.now mvid; users = [] }) }
    {
        sixteen(&mvid);
        let row = module_row(alloc, name, mvid)?;
        let tables = tables_with(alloc, row)?;
        Ok(PlainModule {
            tables,
            users: Vec::new(alloc),
            codes: Vec::new(alloc),
        })
    }

    /// A plain module is sound: a law, of which a caller makes use.
    pub fn sound(&self)
        ensures { IsSound self.now.plain }
    {
        let _ = &self.tables;
    }

    /// The row that a token names.
    #[tactic(auto, unfolding(enc_plain::specs::Module::row_of))]
    fn row(&self, token: Token) -> Option<&PlainRow>
        ensures { option_copied result ≡ row_of self.now.plain token }
    {
        match self.tables.get(token.table as usize) {
            Some(table) => table.row(token.row),
            None => None,
        }
    }

    /// What stands in a column.
    #[tactic(auto, unfolding(enc_plain::specs::Module::cell_of))]
    fn found(&self, row: Token, column: u8) -> Option<&Held>
        ensures { option_copied result ≡ cell_of self.now.plain row column }
    {
        match self.row(row) {
            Some(found) => found.cells.get(column as usize),
            None => None,
        }
    }

    /// Its tables, copied.
    pub(crate) fn copied(&self, alloc: Global) -> Result<Vec<PlainTable>, AllocError>
        ensures { IfOk result (λ t. with_tables t.items ≡ self.now.plain) }
    {
        copied_tables(alloc, &self.tables)
    }

    /// The cells of a row, none where it isn't there.
    pub(crate) fn cells(&self, row: Token) -> &[Held]
        ensures { result.now ≡ unwrap_or (cells_of self.now.plain row) [] }
    {
        match self.row(row) {
            Some(found) => &found.cells,
            None => &[],
        }
    }

    /// The body of a method.
    fn held_code(&self, method: Token) -> &HeldCode
        requires row { IsTrue (has_row self.now.plain method) }
        requires table { method.table ≡ method_def }
        ensures cell { cell_of self.now.plain method 0
            ≡ Some (body (option_map (body_of (user_at self.now.users)) result.now)) }
        ensures texts { has_texts (user_at self.now.users) result.now ≡ true }
    {
        match code_at(&self.codes, method.row as usize - 1) {
            Some(code) => code,
            None => unreachable!(),
        }
    }

    /// The body of a method, None where it has none. Each user text that its code names is there.
    fn method_code(&self, method: Token) -> Option<CodeRef<'_>>
        requires row { IsTrue (has_row self.now.plain method) }
        requires table { method.table ≡ method_def }
        ensures cell { cell_of self.now.plain method 0
            ≡ Some (body (option_map (λ c. body_of (user_at self.now.users) (code_seen c)) result)) }
        ensures few { IfSome result (λ c. length c.code.now < 2 ^ 32) }
        ensures short { IfSome result (λ c. length c.sections.now < 2 ^ 32) }
        ensures texts { IfSome result (λ c. IsTrue (texts_are_there (user_at self.now.users) c.code.now)) }
    {
        let held = self.held_code(method);
        held.code()
    }

    /// The cell in a column that has one.
    fn cell(&self, row: Token, column: u8) -> &Held
        requires row { IsTrue (has_row self.now.plain row) }
        requires kind { IsSome (kind_in row.table column) }
        ensures cell { cell_of self.now.plain row column ≡ Some result.now }
        ensures kind { kind_in row.table column ≡ Some (cell_kind result.now) }
    {
        let _ = &self.tables;
        match self.found(row, column) {
            Some(cell) => cell,
            None => unreachable!(),
        }
    }

    /// The owner of a child row.
    #[tactic(auto, unfolding(enc_plain::specs::Module::owner_of))]
    fn owner_found(&self, child: Token) -> Option<Token>
        requires { (t : ℕ) → length (rows_in self.now.plain t) < 2 ^ 24 }
        ensures { result ≡ owner_of self.now.plain child }
    {
        let table = owner_table(child.table);
        let Some(owners) = self.tables.get(table as usize) else {
            return None;
        };
        match owners.first_with(child) {
            Some(n) => Some(Token { table, row: n + 1 }),
            None => None,
        }
    }

    /// The rows of a row's children in a child table.
    #[tactic(auto, unfolding(enc_plain::specs::Module::kids_of))]
    fn kids_in(&self, owner: Token, table: u8) -> &[u32]
        ensures { result.now ≡ kids_of self.now.plain owner table }
    {
        if !is_child_table(table) || owner.table != owner_table(table) {
            return &[];
        }
        match self.row(owner) {
            Some(row) => row.kids(table),
            None => &[],
        }
    }
}

impl ModuleView for PlainModule {
    ghost meaning = { λ m. m.plain };

    ghost users = { λ m. user_at m.users };

    ghost places = { λ m n. body_at_row m.plain n };

    ghost stored = { λ m n. blob_in m.plain n };

    fn count(&self, table: u8) -> u32 {
        let _ = &self.tables;
        match self.tables.get(table as usize) {
            Some(found) => found.rows.len() as u32,
            None => 0,
        }
    }

    fn num(&self, row: Token, column: u8) -> u32 {
        let held = self.cell(row, column);
        match &held.cell {
            PlainCell::Number(n) => *n,
            _ => unreachable!(),
        }
    }

    fn text(&self, row: Token, column: u8) -> &[u8] {
        let held = self.cell(row, column);
        match &held.cell {
            PlainCell::Text(bytes) => bytes,
            _ => unreachable!(),
        }
    }

    fn blob(&self, row: Token, column: u8) -> &[u8] {
        let held = self.cell(row, column);
        match &held.cell {
            PlainCell::Blob(bytes) => bytes,
            _ => unreachable!(),
        }
    }

    #[tactic(auto, using(crate::proofs::NumberedCells::blob_told, crate::proofs::NumberedCells::blob_is_some))]
    fn blob_place(&self, row: Token, column: u8) -> u64 {
        let held = self.cell(row, column);
        match &held.cell {
            PlainCell::Blob(_) => cell_number(row, column),
            _ => unreachable!(),
        }
    }

    fn guid(&self, row: Token, column: u8) -> [u8; 16] {
        let held = self.cell(row, column);
        match &held.cell {
            PlainCell::Guid(bytes) => *bytes,
            _ => unreachable!(),
        }
    }

    fn refer(&self, row: Token, column: u8) -> Token {
        let held = self.cell(row, column);
        match &held.cell {
            PlainCell::Refer(token) => *token,
            _ => unreachable!(),
        }
    }

    fn code(&self, method: Token) -> Option<CodeRef<'_>> {
        self.method_code(method)
    }

    fn code_place(&self, method: Token) -> u64 {
        match self.code(method) {
            Some(_) => u64::from(method.row),
            None => 0,
        }
    }

    fn field_bytes(&self, row: Token) -> &[u8] {
        let held = self.cell(row, FIELD_RVA_RVA);
        match &held.cell {
            PlainCell::Field(bytes) => bytes,
            _ => unreachable!(),
        }
    }

    fn user_text(&self, offset: u32) -> Option<&[u8]> {
        user_text_at(&self.users, offset)
    }

    fn resources(&self) -> &[u8] {
        let _ = &self.tables;
        &[]
    }

    fn entry(&self) -> u32 {
        let _ = &self.tables;
        0
    }

    fn owner(&self, child: Token) -> Token {
        let _ = &self.tables;
        match self.owner_found(child) {
            Some(owner) => owner,
            None => unreachable!(),
        }
    }

    fn kids(&self, owner: Token, table: u8) -> u32 {
        let _ = &self.tables;
        self.kids_in(owner, table).len() as u32
    }

    fn kid(&self, owner: Token, table: u8, i: u32) -> Token {
        let kids = self.kids_in(owner, table);
        Token {
            table,
            row: kids[i as usize],
        }
    }

    fn kid_rows(&self, alloc: Global, owner: Token, table: u8) -> Result<Vec<u32>, AllocError> {
        let mut rows = Vec::new(alloc);
        rows.extend_from_slice(self.kids_in(owner, table))?;
        Ok(rows)
    }
}
