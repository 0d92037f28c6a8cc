//! Edits made directly in tables: cells put in place or at the end, and children attached.
ghost use Rattle.std.specs.Prelude.{◌≡◌, ◌++◌, ◌∷◌, [], ◌<◌, ℕ, true, Some, length, map, IfOk, OnOk};
ghost use Rattle.enc_opcodes.specs.Body.{nil_or};
ghost use Rattle.enc_plain.specs.Apply.{childless, put_row, put_at, put, with_child, change_row, attach};
ghost use Rattle.enc_rules.specs.Edited.{cell_stated, body_stated, cells_stated, cells_with, cells_edited};
ghost use Rattle.enc_schema.specs.Children.{runs_in};
ghost use Rattle.enc_memory_module.specs.Encoded.{with_tables};
ghost use Rattle.enc_memory_module.specs.Standing.{body_assembles, assembles_if, edit_assembles};
ghost use Rattle.enc_memory_module.specs.Stated.{front_stated};

use crate::copy::{blob_cell, cell_with, field_cell, method_cell, push_cells, text_cell};
use crate::plain::{Held, Kids, PlainCell, PlainModule, PlainRow, PlainTable};
use enc_base::Token;
use enc_base::tables::{FIELD_RVA, METHOD_DEF};
use enc_edit_list::{BodyValue, Cell, Edit};
use enc_schema::{run_index, runs_of};
use std::alloc::{AllocError, Global};

/// The token, nil where its row is 0.
fn nil_or(token: Token) -> Token
    ensures { result ≡ nil_or token }
{
    if token.row == 0 {
        return Token { table: 0, row: 0 };
    }
    token
}

/// The cell that a value states.
fn cell_stated(alloc: Global, value: &Cell) -> Result<Held, AllocError>
    ensures { IfOk result (λ h. h ≡ cell_stated value.now) }
{
    match value {
        Cell::Num(number) => Ok(Held {
            cell: PlainCell::Number(*number),
        }),
        Cell::Text(bytes) => text_cell(alloc, bytes.as_slice()),
        Cell::Blob(bytes) => blob_cell(alloc, bytes.as_slice()),
        Cell::Guid(guid) => Ok(Held {
            cell: PlainCell::Guid(*guid),
        }),
        Cell::Refer(token) => Ok(Held {
            cell: PlainCell::Refer(nil_or(*token)),
        }),
    }
}

/// Appends the cells that values state.
fn push_stated(alloc: Global, values: &[Cell], out: &mut Vec<Held>) -> Result<(), AllocError>
    ensures { OnOk result (out.new.items ≡ out.old.items ++ map cell_stated values.now) }
{
    for k in 0..values.len() {
        let value = &values[k];
        let cell = cell_stated(alloc, value)?;
        out.push(cell)?;
    }
    Ok(())
}

/// Appends the cell that no value states: a method's body, and that a field has no bytes.
fn push_front(
    alloc: Global,
    table: u8,
    code: &Option<BodyValue>,
    out: &mut Vec<Held>,
) -> Result<(), AllocError>
    requires { assembles_if code.now ≡ true }
    ensures { OnOk result (out.new.items ≡ out.old.items ++ front_stated table code.now) }
{
    if table == METHOD_DEF {
        out.push(method_cell(alloc, code)?)?;
        return Ok(());
    }
    if table == FIELD_RVA {
        out.push(field_cell(alloc, &[])?)?;
        return Ok(());
    }
    Ok(())
}

/// The cells of an added row.
fn cells_stated(
    alloc: Global,
    table: u8,
    values: &[Cell],
    code: &Option<BodyValue>,
) -> Result<Vec<Held>, AllocError>
    requires { assembles_if code.now ≡ true }
    ensures { IfOk result (λ v. v.items ≡ cells_stated table values.now code.now) }
{
    let mut out = Vec::new(alloc);
    push_front(alloc, table, code, &mut out)?;
    push_stated(alloc, values, &mut out)?;
    Ok(out)
}

/// The cells of a method with another body.
fn cells_with(alloc: Global, code: &BodyValue, old: &[Held]) -> Result<Vec<Held>, AllocError>
    requires { body_assembles code.now ≡ true }
    ensures { IfOk result (λ v. v.items ≡ cells_with (body_stated code.now) old.now) }
{
    let mut out = Vec::new(alloc);
    if old.is_empty() {
        return Ok(out);
    }
    out.push(cell_with(alloc, code)?)?;
    push_cells(alloc, &old[1..], &mut out)?;
    Ok(out)
}

/// The cells that an edit gives its row.
pub(crate) fn cells_edited(
    alloc: Global,
    module: &PlainModule,
    edit: &Edit,
) -> Result<Vec<Held>, AllocError>
    requires { edit_assembles edit.now ≡ true }
    ensures { IfOk result (λ v. v.items ≡ cells_edited «module».now.plain edit.now) }
{
    match edit {
        Edit::Add {
            table,
            cells,
            code,
            ..
        } => cells_stated(alloc, *table, cells.as_slice(), code),
        Edit::Body { method, code, .. } => cells_with(alloc, code, module.cells(*method)),
    }
}

/// As many empty lists of children as a table has runs.
fn no_kids(alloc: Global, table: u8) -> Result<Vec<Kids>, AllocError>
    ensures { IfOk result (λ v. v.items ≡ map (λ (child : ℕ). []) (runs_in table)) }
{
    let mut out = Vec::new(alloc);
    for child in runs_of(table) {
        let _ = child;
        out.push(Kids {
            rows: Vec::new(alloc),
        })?;
    }
    Ok(out)
}

/// A row that begins with no children.
fn row_of_cells(alloc: Global, table: u8, cells: Vec<Held>) -> Result<PlainRow, AllocError>
    ensures { IfOk result (λ r. r ≡ childless table cells.items) }
{
    let kids = no_kids(alloc, table)?;
    Ok(PlainRow { cells, kids })
}

impl PlainRow {
    /// Gives the row other cells.
    fn replace(&mut self, cells: Vec<Held>)
        ensures { self.new ≡ record { cells = cells.items; kids = self.old.kids } }
    {
        self.cells = cells;
    }

    /// Attaches a child, the last of its kind.
    fn attach(&mut self, child: Token) -> Result<(), AllocError>
        ensures { OnOk result (self.new ≡ with_child child self.old) }
    {
        let i = run_index(child.table) as usize;
        if i < self.kids.len() {
            let kids = &mut self.kids[i];
            kids.rows.push(child.row)?;
        }
        Ok(())
    }
}

impl PlainTable {
    /// Puts cells into the n-th row, n from 0, or into a new row where that is the next.
    fn put_row(
        &mut self,
        alloc: Global,
        table: u8,
        n: usize,
        cells: Vec<Held>,
    ) -> Result<(), AllocError>
        ensures { OnOk result (self.new ≡ put_row table self.old n cells.items) }
    {
        if n < self.rows.len() {
            let row = &mut self.rows[n];
            row.replace(cells);
            return Ok(());
        }
        if n == self.rows.len() {
            let row = row_of_cells(alloc, table, cells)?;
            self.rows.push(row)?;
        }
        Ok(())
    }

    /// The same by the row's number, from 1.
    fn put_at(&mut self, alloc: Global, row: Token, cells: Vec<Held>) -> Result<(), AllocError>
        ensures { OnOk result (self.new ≡ put_at row.table self.old row.row cells.items) }
    {
        if row.row == 0 {
            return Ok(());
        }
        self.put_row(alloc, row.table, row.row as usize - 1, cells)
    }

    /// Attaches a child to the row of this number, from 1.
    fn attach(&mut self, row: u32, child: Token) -> Result<(), AllocError>
        ensures { OnOk result (self.new ≡ change_row self.old row (with_child child)) }
    {
        let n = row as usize;
        if n == 0 {
            return Ok(());
        }
        if n <= self.rows.len() {
            let owner = &mut self.rows[n - 1];
            return owner.attach(child);
        }
        Ok(())
    }
}

/// Puts cells into the row of a token, or into a new row where that is the next.
pub(crate) fn put(
    alloc: Global,
    tables: &mut Vec<PlainTable>,
    row: Token,
    cells: Vec<Held>,
) -> Result<(), AllocError>
    ensures { OnOk result (with_tables tables.new.items
        ≡ put (with_tables tables.old.items) (record { token = row; cells = cells.items })) }
{
    let n = row.table as usize;
    if n < tables.len() {
        let table = &mut tables[n];
        return table.put_at(alloc, row, cells);
    }
    Ok(())
}

/// Attaches a child to its owner.
pub(crate) fn attach(
    tables: &mut Vec<PlainTable>,
    owner: Token,
    child: Token,
) -> Result<(), AllocError>
    ensures { OnOk result (with_tables tables.new.items
        ≡ attach (with_tables tables.old.items) (record { owner = owner; child = child })) }
{
    let n = owner.table as usize;
    if n < tables.len() {
        let table = &mut tables[n];
        return table.attach(owner.row, child);
    }
    Ok(())
}
