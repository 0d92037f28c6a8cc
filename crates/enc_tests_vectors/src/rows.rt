//! Table streams of `enc_rows` (ECMA-335 II.24.2.6). A stream that is read is asked for as
//! FORM JTD OUTER BYTES: `Base`, `Delta` or `Pdb`, `jtd` or `-`, how many rows the tables of a PDB's module
//! have, and its bytes. Rows that are written are TABLE:NUMBER,.. with `;` between them, and `*COUNT`
//! behind one that is written so many times; each number is below 256.

ghost use Rattle.std.specs.Prelude.{◌≡◌, ℕ, nat_lt};
ghost use Rattle.std.specs.List.{list_all};

use crate::lines::{Args, Fault, numbers_in, token_in, told};
use enc_base::{Counts, Token};
use enc_meta::Span;
use enc_rows::{Form, TableBuilder, Tables};
use enc_schema::{column_of, columns_of};
use std::alloc::Global;

/// A stream that is read.
#[derive(Drop)]
struct TableStream {
    form: Form,
    jtd: bool,
    outer: Counts,
    bytes: Vec<u8>,
}

/// The stream of FORM JTD OUTER BYTES.
fn asked(alloc: Global, args: &mut Args<'_>) -> Result<TableStream, Fault> {
    let form = match args.word()? {
        "Base" => Form::Base,
        "Delta" => Form::Delta,
        "Pdb" => Form::Pdb,
        _ => return Err(Fault::Form),
    };
    let jtd = args.word()? == "jtd";
    let outer = args.rows()?;
    let bytes = args.bytes(alloc)?;
    Ok(TableStream {
        form,
        jtd,
        outer,
        bytes,
    })
}

/// How many rows the tables of a stream have that have any, for `tables FORM JTD OUTER BYTES`.
fn counts(alloc: Global, args: &mut Args<'_>) -> Result<String, Fault> {
    let stream = asked(alloc, args)?;
    let span = Span {
        start: 0,
        len: stream.bytes.len(),
    };
    let read = Tables::read(&stream.bytes, span, stream.form, stream.jtd, &stream.outer);
    let tables = match read {
        Ok(tables) => tables,
        Err(refusal) => return told::refusal(alloc, refusal),
    };
    let mut text = String::new(alloc);
    for table in 0..64u8 {
        let count = tables.count(table);
        if count > 0 {
            let comma = if text.is_empty() { "" } else { "," };
            text.push_str(format!(in alloc; "{comma}{table:02x}:{count}")?.as_str())?;
        }
    }
    Ok(text)
}

/// The first bad index of a stream, for `first_bad_index FORM JTD OUTER BYTES`.
fn first_bad_index(alloc: Global, args: &mut Args<'_>) -> Result<String, Fault> {
    let stream = asked(alloc, args)?;
    let span = Span {
        start: 0,
        len: stream.bytes.len(),
    };
    let read = Tables::read(&stream.bytes, span, stream.form, stream.jtd, &stream.outer);
    let tables = match read {
        Ok(tables) => tables,
        Err(refusal) => return told::refusal(alloc, refusal),
    };
    match tables.first_bad_index(alloc, &stream.bytes)? {
        Some(place) => told::place(alloc, place),
        None => told::word(alloc, "none"),
    }
}

/// The number in a cell of a stream, None where there is no such cell.
fn number_at(stream: &TableStream, token: Token, column: u8) -> Option<u32> {
    let bytes = stream.bytes.as_slice();
    let span = Span {
        start: 0,
        len: bytes.len(),
    };
    let tables = Tables::read(bytes, span, stream.form, stream.jtd, &stream.outer).ok()?;
    if token.row == 0 || token.row > tables.count(token.table) {
        return None;
    }
    match column_of(token.table, column) {
        Some(_) => Some(tables.cell(bytes, token, column)),
        None => None,
    }
}

/// The numbers in cells TOKEN.COLUMN,.. of a stream, with spaces between them: `none` for one that isn't there.
fn numbers(alloc: Global, stream: &TableStream, cells: &str) -> Result<String, Fault> {
    let mut text = String::new(alloc);
    for cell in cells.split(',') {
        let Some((token, column)) = cell.split_once('.') else {
            return Err(Fault::Form);
        };
        let Ok(column) = column.parse::<u8>() else {
            return Err(Fault::Form);
        };
        let number = told::or_none(alloc, number_at(stream, token_in(token)?, column))?;
        let space = if text.is_empty() { "" } else { " " };
        text.push_str(format!(in alloc; "{space}{number}")?.as_str())?;
    }
    Ok(text)
}

/// The numbers in cells, for `cells FORM JTD OUTER BYTES TOKEN.COLUMN,..`.
fn cells(alloc: Global, args: &mut Args<'_>) -> Result<String, Fault> {
    let stream = asked(alloc, args)?;
    numbers(alloc, &stream, args.word()?)
}

/// Rows of a table that are alike.
#[derive(Drop)]
struct LikeRows {
    table: u8,
    cells: Vec<u32>,
    times: u32,
}

/// The rows of TABLE:NUMBER,..*COUNT.
fn row_in(alloc: Global, part: &str) -> Result<LikeRows, Fault> {
    let (row, times) = match part.split_once('*') {
        Some((row, times)) => (row, times.parse::<u32>()),
        None => (part, Ok(1)),
    };
    let Some((table, cells)) = row.split_once(':') else {
        return Err(Fault::Form);
    };
    let (Ok(table), Ok(times)) = (u8::from_str_radix(table, 16), times) else {
        return Err(Fault::Form);
    };
    let cells = numbers_in(alloc, cells)?;
    Ok(LikeRows {
        table,
        cells,
        times,
    })
}

/// The rows of a line; `-` where there are none.
fn rows(alloc: Global, args: &mut Args<'_>) -> Result<Vec<LikeRows>, Fault> {
    let word = args.word()?;
    let mut rows = Vec::new(alloc);
    if word == "-" {
        return Ok(rows);
    }
    for part in word.split(';') {
        rows.push(row_in(alloc, part)?)?;
    }
    Ok(rows)
}

/// Each number is below 256, so that it fits every column.
fn are_small(cells: &[u32]) -> bool
    ensures { result ≡ list_all (λ (n : ℕ). nat_lt n 0x100) cells.now }
{
    cells.iter().all(|n| *n < 0x100)
}

/// The bytes of a stream of these rows, and how many rows it has of one table.
fn written(
    alloc: Global,
    rows: &[LikeRows],
    jtd: bool,
    heaps: u8,
    table: u8,
) -> Result<(Vec<u8>, u32), Fault> {
    let mut built = TableBuilder::begin(alloc);
    'rows: for row in rows {
        let columns = columns_of(row.table).len();
        if columns == 0 || row.cells.len() != columns || !are_small(&row.cells) {
            return Err(Fault::Form);
        }
        'times: for _ in 0..row.times {
            if built.count(row.table) >= 0xff_ffff {
                return Err(Fault::Form);
            }
            built.push(row.table, &row.cells)?;
        }
    }
    built.laws();
    let count = built.count(table);
    Ok((built.finish(alloc, jtd, heaps)?, count))
}

/// How many rows of a table there are to be written, for `count_rows ROWS TABLE`.
fn count(alloc: Global, args: &mut Args<'_>) -> Result<String, Fault> {
    let rows = rows(alloc, args)?;
    let table = args.table()?;
    let (_bytes, count) = written(alloc, &rows, false, 0, table)?;
    Ok(format!(in alloc; "{count}")?)
}

/// The bytes of a stream that is written, for `write_tables JTD HEAPS ROWS`: with `jtd` or `-`, and its heap
/// bits.
fn write(alloc: Global, args: &mut Args<'_>) -> Result<String, Fault> {
    let jtd = args.word()? == "jtd";
    let heaps = args.byte()?;
    let rows = rows(alloc, args)?;
    let (bytes, _count) = written(alloc, &rows, jtd, heaps, 0)?;
    told::bytes(alloc, &bytes)
}

/// How long a stream is that is written, and what is read in cells of it as a base, for
/// `write_cells JTD HEAPS ROWS TOKEN.COLUMN,..`.
fn write_cells(alloc: Global, args: &mut Args<'_>) -> Result<String, Fault> {
    let jtd = args.word()? == "jtd";
    let heaps = args.byte()?;
    let rows = rows(alloc, args)?;
    let (bytes, _count) = written(alloc, &rows, jtd, heaps, 0)?;
    let len = bytes.len();
    let stream = TableStream {
        form: Form::Base,
        jtd,
        outer: Counts { rows: [0; 64] },
        bytes,
    };
    let numbers = numbers(alloc, &stream, args.word()?)?;
    Ok(format!(in alloc; "{len}: {numbers}")?)
}

/// The answer to a call of this file, None where the call is another.
pub fn answer(alloc: Global, call: &str, args: &mut Args<'_>) -> Result<Option<String>, Fault> {
    Ok(Some(match call {
        "tables" => counts(alloc, args)?,
        "first_bad_index" => first_bad_index(alloc, args)?,
        "cells" => cells(alloc, args)?,
        "count_rows" => count(alloc, args)?,
        "write_tables" => write(alloc, args)?,
        "write_cells" => write_cells(alloc, args)?,
        _ => return Ok(None),
    }))
}
