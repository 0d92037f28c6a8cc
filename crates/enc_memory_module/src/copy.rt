//! Copies of what a plain module holds, and of what an edit list states.
ghost use Rattle.std.specs.Prelude.{◌≡◌, ◌^◌, ◌++◌, true, nat_lt, Some, option_map, IfOk, OnOk};
ghost use Rattle.std.specs.List.{list_all};
ghost use Rattle.enc_il.specs.Written.{clause_fits};
ghost use Rattle.enc_plain.specs.Cell.{text, blob, body, field};
ghost use Rattle.enc_rules.specs.Edited.{body_stated};
ghost use Rattle.enc_memory_module.specs.Standing.{is_any_offset, argument_is_held, code_is_held, body_is_held, body_assembles, assembles_if};

use crate::plain::{Held, Kids, PlainCell, PlainRow, PlainTable};
use enc_base::{Bytes, Token, Units};
use enc_edit_list::{ArgValue, BodyValue, ClauseList, InstrList, InstrValue, ListOf, TargetList};
use enc_opcodes::Clause;
use std::alloc::{AllocError, Global};

/// The bytes.
pub(crate) fn copied_bytes(alloc: Global, bytes: &[u8]) -> Result<Vec<u8>, AllocError>
    ensures { IfOk result (λ v. v.items ≡ bytes.now) }
{
    let mut out = Vec::new(alloc);
    out.extend_from_slice(bytes)?;
    Ok(out)
}

/// What is held of a token, and of the most values on the stack: a table has one byte, a depth two.
pub(crate) fn held_law(token: Token, max: u16)
    ensures table { nat_lt token.table 0x100 ≡ true }
    ensures max { nat_lt max (2 ^ 16) ≡ true }
{
    let _ = (token, max);
}

/// The offsets of a `switch`.
fn copied_targets(alloc: Global, targets: &[u32]) -> Result<TargetList, AllocError>
    ensures same { IfOk result (λ t. t ≡ targets.now) }
    ensures held { OnOk result (list_all is_any_offset targets.now ≡ true) }
{
    let mut out = ListOf::begin(alloc);
    for target in targets {
        out.push(*target)?;
    }
    Ok(out)
}

/// The units of a user text.
fn copied_units(alloc: Global, units: &[u16]) -> Result<Units, AllocError>
    ensures { IfOk result (λ u. u ≡ units.now) }
{
    let mut out = Units::begin(alloc);
    for unit in units {
        out.push(*unit)?;
    }
    Ok(out)
}

/// What stands behind an instruction's code.
fn copied_argument(alloc: Global, argument: &ArgValue) -> Result<ArgValue, AllocError>
    ensures same { IfOk result (λ a. a ≡ argument.now) }
    ensures held { OnOk result (argument_is_held argument.now ≡ true) }
{
    match argument {
        ArgValue::None => Ok(ArgValue::None),
        ArgValue::Num(number) => Ok(ArgValue::Num(*number)),
        ArgValue::Target(target) => Ok(ArgValue::Target(*target)),
        ArgValue::Targets(targets) => {
            let targets = copied_targets(alloc, targets.as_slice())?;
            Ok(ArgValue::Targets(targets))
        }
        ArgValue::Token(token) => {
            held_law(*token, 0);
            Ok(ArgValue::Token(*token))
        }
        ArgValue::User(units) => {
            let units = copied_units(alloc, units.as_slice())?;
            Ok(ArgValue::User(units))
        }
        ArgValue::Raw(bytes) => {
            let bytes = copied_bytes(alloc, bytes.as_slice())?;
            Ok(ArgValue::Raw(Bytes::from_vec(bytes)))
        }
    }
}

/// An instruction.
fn copied_instruction(alloc: Global, instr: &InstrValue) -> Result<InstrValue, AllocError>
    ensures same { IfOk result (λ i. i ≡ instr.now) }
    ensures held { OnOk result (argument_is_held instr.now.arg ≡ true) }
{
    let arg = copied_argument(alloc, &instr.arg)?;
    Ok(InstrValue { op: instr.op, arg })
}

/// The instructions of a body.
fn copied_code(alloc: Global, code: &[InstrValue]) -> Result<InstrList, AllocError>
    ensures same { IfOk result (λ c. c ≡ code.now) }
    ensures held { OnOk result (code_is_held code.now ≡ true) }
{
    let mut out = ListOf::begin(alloc);
    for k in 0..code.len() {
        let instr = &code[k];
        let copy = copied_instruction(alloc, instr)?;
        out.push(copy)?;
    }
    Ok(out)
}

/// The numbers of a clause have four bytes each.
fn clause_law(clause: Clause)
    ensures { clause_fits clause ≡ true }
{
    let _ = clause;
}

/// The clauses of a body.
fn copied_clauses(alloc: Global, clauses: &[Clause]) -> Result<ClauseList, AllocError>
    ensures same { IfOk result (λ c. c ≡ clauses.now) }
    ensures fit { OnOk result (list_all clause_fits clauses.now ≡ true) }
{
    let mut out = ListOf::begin(alloc);
    for k in 0..clauses.len() {
        let clause = clauses[k];
        clause_law(clause);
        out.push(clause)?;
    }
    Ok(out)
}

/// A body.
fn copied_body(alloc: Global, body: &BodyValue) -> Result<BodyValue, AllocError>
    ensures same { IfOk result (λ b. b ≡ body.now) }
    ensures held { OnOk result (body_is_held body.now ≡ true) }
{
    let code = copied_code(alloc, body.code.as_slice())?;
    let clauses = copied_clauses(alloc, body.clauses.as_slice())?;
    held_law(body.locals, body.max);
    Ok(BodyValue {
        max: body.max,
        init: body.init,
        locals: body.locals,
        code,
        clauses,
    })
}

/// The cell of a method with this body.
pub(crate) fn cell_with(alloc: Global, code: &BodyValue) -> Result<Held, AllocError>
    requires { body_assembles code.now ≡ true }
    ensures { IfOk result (λ h. h ≡ body (Some (body_stated code.now))) }
{
    let copy = copied_body(alloc, code)?;
    Ok(Held {
        cell: PlainCell::Body(Some(copy)),
    })
}

/// The cell of a method.
pub(crate) fn method_cell(alloc: Global, code: &Option<BodyValue>) -> Result<Held, AllocError>
    requires { assembles_if code.now ≡ true }
    ensures { IfOk result (λ h. h ≡ body (option_map body_stated code.now)) }
{
    match code {
        Some(code) => cell_with(alloc, code),
        None => Ok(Held {
            cell: PlainCell::Body(None),
        }),
    }
}

/// The cell of a text.
pub(crate) fn text_cell(alloc: Global, bytes: &[u8]) -> Result<Held, AllocError>
    ensures { IfOk result (λ h. h ≡ text bytes.now) }
{
    let copy = copied_bytes(alloc, bytes)?;
    Ok(Held {
        cell: PlainCell::Text(copy),
    })
}

/// The cell of a blob.
pub(crate) fn blob_cell(alloc: Global, bytes: &[u8]) -> Result<Held, AllocError>
    ensures { IfOk result (λ h. h ≡ blob bytes.now) }
{
    let copy = copied_bytes(alloc, bytes)?;
    Ok(Held {
        cell: PlainCell::Blob(copy),
    })
}

/// The cell of a field's bytes.
pub(crate) fn field_cell(alloc: Global, bytes: &[u8]) -> Result<Held, AllocError>
    ensures { IfOk result (λ h. h ≡ field bytes.now) }
{
    let copy = copied_bytes(alloc, bytes)?;
    Ok(Held {
        cell: PlainCell::Field(copy),
    })
}

/// A cell.
fn copied_cell(alloc: Global, held: &Held) -> Result<Held, AllocError>
    ensures { IfOk result (λ h. h ≡ held.now) }
{
    match &held.cell {
        PlainCell::Number(number) => Ok(Held {
            cell: PlainCell::Number(*number),
        }),
        PlainCell::Text(bytes) => text_cell(alloc, bytes),
        PlainCell::Blob(bytes) => blob_cell(alloc, bytes),
        PlainCell::Guid(guid) => Ok(Held {
            cell: PlainCell::Guid(*guid),
        }),
        PlainCell::Refer(token) => Ok(Held {
            cell: PlainCell::Refer(*token),
        }),
        PlainCell::Body(code) => method_cell(alloc, code),
        PlainCell::Field(bytes) => field_cell(alloc, bytes),
    }
}

/// Appends copies of cells.
pub(crate) fn push_cells(
    alloc: Global,
    cells: &[Held],
    out: &mut Vec<Held>,
) -> Result<(), AllocError>
    ensures { OnOk result (out.new.items ≡ out.old.items ++ cells.now) }
{
    for k in 0..cells.len() {
        let cell = &cells[k];
        let copy = copied_cell(alloc, cell)?;
        out.push(copy)?;
    }
    Ok(())
}

/// The children of a row in one table.
fn copied_kids(alloc: Global, kids: &Kids) -> Result<Kids, AllocError>
    ensures { IfOk result (λ k. k ≡ kids.now) }
{
    let mut rows = Vec::new(alloc);
    rows.extend_from_slice(&kids.rows)?;
    Ok(Kids { rows })
}

/// The children of a row.
fn copied_runs(alloc: Global, runs: &[Kids]) -> Result<Vec<Kids>, AllocError>
    ensures { IfOk result (λ v. v.items ≡ runs.now) }
{
    let mut out = Vec::new(alloc);
    for k in 0..runs.len() {
        let kids = &runs[k];
        let copy = copied_kids(alloc, kids)?;
        out.push(copy)?;
    }
    Ok(out)
}

/// A row.
fn copied_row(alloc: Global, row: &PlainRow) -> Result<PlainRow, AllocError>
    ensures { IfOk result (λ r. r ≡ row.now) }
{
    let mut cells = Vec::new(alloc);
    push_cells(alloc, &row.cells, &mut cells)?;
    let kids = copied_runs(alloc, &row.kids)?;
    Ok(PlainRow { cells, kids })
}

/// The rows of a table.
fn copied_rows(alloc: Global, rows: &[PlainRow]) -> Result<Vec<PlainRow>, AllocError>
    ensures { IfOk result (λ v. v.items ≡ rows.now) }
{
    let mut out = Vec::new(alloc);
    for k in 0..rows.len() {
        let row = &rows[k];
        let copy = copied_row(alloc, row)?;
        out.push(copy)?;
    }
    Ok(out)
}

/// A table.
fn copied_table(alloc: Global, table: &PlainTable) -> Result<PlainTable, AllocError>
    ensures { IfOk result (λ t. t ≡ table.now) }
{
    let rows = copied_rows(alloc, &table.rows)?;
    Ok(PlainTable { rows })
}

/// The tables of a module.
pub(crate) fn copied_tables(
    alloc: Global,
    tables: &[PlainTable],
) -> Result<Vec<PlainTable>, AllocError>
    ensures { IfOk result (λ v. v.items ≡ tables.now) }
{
    let mut out = Vec::new(alloc);
    for k in 0..tables.len() {
        let table = &tables[k];
        let copy = copied_table(alloc, table)?;
        out.push(copy)?;
    }
    Ok(out)
}
