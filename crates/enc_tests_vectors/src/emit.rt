//! Roots that are built by `enc_emit` (ECMA-335 II.24.2.1, Portable PDB v1.0), of texts and of rows of small numbers.
ghost use Rattle.std.specs.Prelude.{◌≡◌, ◌≤◌, ◌==◌, IfOk, length, nat_lt};
ghost use Rattle.std.specs.List.{list_all, list_any};
ghost use Rattle.enc_emit.specs.Little.{IsLittle};

use crate::lines::{Args, Fault, parts};
use enc_emit::{RootBuilder, RootForm};
use enc_meta::{HeapBuilder, HeapLengths};
use enc_rows::TableBuilder;
use enc_schema::columns_of;
use std::alloc::Global;

/// A root without values and rows, whose heaps begin near those before them.
fn begin(alloc: Global, starts: HeapLengths) -> Result<RootBuilder, Fault>
    ensures { IfOk result (λ b. IsLittle b) }
{
    if starts.strings > 1000 || starts.guids > 1000 {
        return Err(Fault::Form);
    }
    let heaps = HeapBuilder::begin(alloc, starts)?;
    Ok(RootBuilder::of(heaps, TableBuilder::begin(alloc)))
}

/// Each number is below 256.
fn are_small(cells: &[u32]) -> bool
    ensures { result ≡ list_all (λ n. nat_lt n 0x100) cells.now }
{
    cells.iter().all(|n| *n < 0x100)
}

/// Adds a row of such numbers to a table of fewer than eight rows.
fn push(root: &mut RootBuilder, table: u8, cells: &[u32]) -> Result<(), Fault>
    requires { IsLittle root.old }
    ensures { IsLittle root.new }
{
    let columns = columns_of(table).len();
    if columns == 0 || cells.len() != columns || !are_small(cells) {
        return Err(Fault::Form);
    }
    let tables = root.tables();
    if tables.count(table) >= 8 {
        return Err(Fault::Form);
    }
    tables.push(table, cells)?;
    Ok(())
}

/// Whether a zero stands in a text.
fn has_zero(text: &[u8]) -> bool
    ensures { result ≡ list_any (λ c. c == 0) text.now }
{
    text.iter().any(|c| *c == 0)
}

/// The offset of a text, None where it has a zero or the heap is full.
fn add_text(root: &mut RootBuilder, text: &[u8]) -> Option<u32>
    requires { IsLittle root.old }
    ensures { IsLittle root.new }
{
    if has_zero(text) {
        return None;
    }
    let heaps = root.heaps();
    match heaps.add_text(text) {
        Ok(offset) => Some(offset),
        Err(_) => None,
    }
}

/// The table and the numbers of a row, `TABLE:NUMBER,NUMBER..` with the table in two hexadecimal digits.
fn row_of(alloc: Global, word: &str) -> Result<(u8, Vec<u32>), Fault> {
    let Some((table, numbers)) = word.split_once(':') else {
        return Err(Fault::Form);
    };
    let Ok(table) = u8::from_str_radix(table, 16) else {
        return Err(Fault::Form);
    };
    let mut cells = Vec::new(alloc);
    for number in numbers.split(',') {
        let Ok(cell) = number.parse::<u32>() else {
            return Err(Fault::Form);
        };
        if cells.push(cell).is_err() {
            return Err(Fault::Memory);
        }
    }
    Ok((table, cells))
}

/// Adds a row, or none for `-`.
fn add_row(alloc: Global, root: &mut RootBuilder, word: &str) -> Result<(), Fault>
    requires { IsLittle root.old }
    ensures { IsLittle root.new }
{
    if word == "-" {
        return Ok(());
    }
    let (table, cells) = row_of(alloc, word)?;
    push(root, table, &cells)
}

/// The bytes of the root of a module or of a delta.
fn finish(alloc: Global, mut root: RootBuilder, form: RootForm) -> Result<Vec<u8>, Fault>
    requires { IsLittle root }
{
    root.tables().laws();
    root.heaps().laws();
    Ok(root.finish(alloc, form)?)
}

/// The bytes of the root of a PDB.
fn finish_pdb(alloc: Global, mut root: RootBuilder, pdb: &[u8]) -> Result<Vec<u8>, Fault>
    requires little { IsLittle root }
    requires short { length pdb.now ≤ 1000 }
{
    root.tables().laws();
    root.heaps().laws();
    Ok(root.finish_pdb(alloc, pdb)?)
}

/// The bytes of the root of a kind: `module`, `wide` with `#JTD`, `delta`, or the bytes of the stream
/// `#Pdb` of a PDB.
fn finish_kind(alloc: Global, root: RootBuilder, kind: &str) -> Result<Vec<u8>, Fault>
    requires { IsLittle root }
{
    match kind {
        "module" => finish(alloc, root, RootForm::Module),
        "wide" => finish(alloc, root, RootForm::WideModule),
        "delta" => finish(alloc, root, RootForm::Delta),
        _ => {
            let pdb = parts::of_digits(alloc, kind)?;
            if pdb.len() > 1000 {
                return Err(Fault::Form);
            }
            finish_pdb(alloc, root, &pdb)
        }
    }
}

/// Where the heaps begin: lengths of `#Strings`, `#US` and `#Blob` before them in bytes, and of `#GUID` in entries.
fn starts(args: &mut Args<'_>) -> Result<HeapLengths, Fault> {
    Ok(HeapLengths {
        strings: args.number()?,
        users: args.number()?,
        blobs: args.number()?,
        guids: args.number()?,
    })
}

/// A text, the empty one for `-`.
fn text_of(word: &str) -> &[u8] {
    if word == "-" {
        return &[];
    }
    word.as_bytes()
}

/// The offsets of the two texts, 0 of none, and the bytes of the root, for
/// `write_root KIND STRINGS US BLOB GUID TEXT TEXT ROW ROW` with `-` for no text and for no row.
fn root(alloc: Global, args: &mut Args<'_>) -> Result<String, Fault> {
    let kind = args.word()?;
    let mut root = begin(alloc, starts(args)?)?;
    let Some(first) = add_text(&mut root, text_of(args.word()?)) else {
        return Err(Fault::Form);
    };
    let Some(second) = add_text(&mut root, text_of(args.word()?)) else {
        return Err(Fault::Form);
    };
    add_row(alloc, &mut root, args.word()?)?;
    add_row(alloc, &mut root, args.word()?)?;
    let bytes = finish_kind(alloc, root, kind)?;
    Ok(format!(in alloc; "{first} {second} {}", parts::told(alloc, &bytes)?)?)
}

/// The answer to a call of this file, None where the call is another.
pub fn answer(alloc: Global, call: &str, args: &mut Args<'_>) -> Result<Option<String>, Fault> {
    Ok(Some(match call {
        "write_root" => root(alloc, args)?,
        _ => return Ok(None),
    }))
}
