//! The tables of metadata, their columns, codings and widths (ECMA-335 II.22, II.24.2.6). A table is asked
//! for by its number in two hexadecimal digits, a column by its number from 0.

use crate::lines::{Args, Fault, told};
use enc_base::Token;
use enc_schema::{
    Coding, Column, Widths, column_name, column_of, columns_of, decode_coded, encode_coded,
    is_child_table, owner_table, ptr_table, run_column, run_index, runs_of, table_name, widths_of,
};
use std::alloc::Global;

/// The codings by their names.
static CODINGS: [(&str, Coding); 14] = [
    ("TypeDefOrRef", Coding::TypeDefOrRef),
    ("HasConstant", Coding::HasConstant),
    ("HasCustomAttribute", Coding::HasCustomAttribute),
    ("HasFieldMarshal", Coding::HasFieldMarshal),
    ("HasDeclSecurity", Coding::HasDeclSecurity),
    ("MemberRefParent", Coding::MemberRefParent),
    ("HasSemantics", Coding::HasSemantics),
    ("MethodDefOrRef", Coding::MethodDefOrRef),
    ("MemberForwarded", Coding::MemberForwarded),
    ("Implementation", Coding::Implementation),
    ("CustomAttributeType", Coding::CustomAttributeType),
    ("ResolutionScope", Coding::ResolutionScope),
    ("TypeOrMethodDef", Coding::TypeOrMethodDef),
    (
        "HasCustomDebugInformation",
        Coding::HasCustomDebugInformation,
    ),
];

/// A coding by its name.
fn coding(args: &mut Args<'_>) -> Result<Coding, Fault> {
    let word = args.word()?;
    for (name, coding) in &CODINGS {
        if *name == word {
            return Ok(*coding);
        }
    }
    Err(Fault::Form)
}

/// What a column holds: `Num8`, `Num16`, `Num32`, `Text`, `Guid`, `Blob`, `Index TABLE`, `Run TABLE` or
/// `Coded CODING`.
fn column(args: &mut Args<'_>) -> Result<Column, Fault> {
    match args.word()? {
        "Num8" => Ok(Column::Num8),
        "Num16" => Ok(Column::Num16),
        "Num32" => Ok(Column::Num32),
        "Text" => Ok(Column::Text),
        "Guid" => Ok(Column::Guid),
        "Blob" => Ok(Column::Blob),
        "Index" => Ok(Column::Index(args.table()?)),
        "Run" => Ok(Column::Run(args.table()?)),
        "Coded" => Ok(Column::Coded(coding(args)?)),
        _ => Err(Fault::Form),
    }
}

/// What a column holds, as `column` has it.
fn told_column(alloc: Global, column: Column) -> Result<String, Fault> {
    match column {
        Column::Index(table) => Ok(format!(in alloc; "Index {table:02x}")?),
        Column::Run(table) => Ok(format!(in alloc; "Run {table:02x}")?),
        Column::Coded(coding) => Ok(format!(in alloc; "Coded {coding:?}")?),
        simple => Ok(format!(in alloc; "{simple:?}")?),
    }
}

/// The name of a table and its columns, each with what it holds, for `table TABLE`.
fn table(alloc: Global, args: &mut Args<'_>) -> Result<String, Fault> {
    let table = args.table()?;
    let Some(name) = table_name(table) else {
        return told::word(alloc, "none");
    };
    let mut text = format!(in alloc; "{name}:")?;
    for (i, column) in columns_of(table).iter().enumerate() {
        let name = column_name(table, i as u8).unwrap_or("");
        let comma = if i == 0 { "" } else { "," };
        let holds = told_column(alloc, *column)?;
        text.push_str(format!(in alloc; "{comma} {name} {holds}")?.as_str())?;
    }
    Ok(text)
}

/// The name of a column and what it holds, for `column TABLE COLUMN`; a word for each, `none` where there
/// is none.
fn one_column(alloc: Global, args: &mut Args<'_>) -> Result<String, Fault> {
    let table = args.table()?;
    let i = args.byte()?;
    let name = column_name(table, i).unwrap_or("none");
    let Some(column) = column_of(table, i) else {
        return Ok(format!(in alloc; "{name} none")?);
    };
    let holds = told_column(alloc, column)?;
    Ok(format!(in alloc; "{name} {holds}")?)
}

/// The token that `decode_coded CODING NUMBER` stands for.
fn decoded(alloc: Global, args: &mut Args<'_>) -> Result<String, Fault> {
    let coding = coding(args)?;
    match decode_coded(coding, args.number()?) {
        Some(token) => told::token(alloc, token),
        None => told::word(alloc, "none"),
    }
}

/// The number that stands for a token.
fn told_encoded(alloc: Global, coding: Coding, token: Token) -> Result<String, Fault> {
    if token.row >= 0x100_0000 {
        return Err(Fault::Form);
    }
    match encode_coded(coding, token) {
        Some(number) => Ok(format!(in alloc; "0x{number:x}")?),
        None => told::word(alloc, "none"),
    }
}

/// The number that stands for the token of `encode_coded CODING TOKEN`.
fn encoded(alloc: Global, args: &mut Args<'_>) -> Result<String, Fault> {
    let coding = coding(args)?;
    let token = args.token()?;
    told_encoded(alloc, coding, token)
}

/// The widths of a file: `ROWS JTD HEAPS` are how many rows its tables have, `jtd` where its root has a stream
/// `#JTD` and `-` where not, and its heap bits.
fn widths(args: &mut Args<'_>) -> Result<Widths, Fault> {
    let rows = args.rows()?;
    let jtd = args.word()? == "jtd";
    let heaps = args.byte()?;
    Ok(widths_of(&rows, jtd, heaps))
}

/// The bytes of a column, for `width COLUMN ROWS JTD HEAPS`.
fn width(alloc: Global, args: &mut Args<'_>) -> Result<String, Fault> {
    let column = column(args)?;
    let widths = widths(args)?;
    Ok(format!(in alloc; "{}", widths.width(column))?)
}

/// The bytes of a row, and where each column begins in it and one past the last, for
/// `row_width TABLE ROWS JTD HEAPS`.
fn row_width(alloc: Global, args: &mut Args<'_>) -> Result<String, Fault> {
    let table = args.table()?;
    let widths = widths(args)?;
    let mut text = format!(in alloc; "{}:", widths.row(table))?;
    for i in 0..columns_of(table).len() + 1 {
        let start = widths.start(table, i as u8);
        text.push_str(format!(in alloc; " {start}")?.as_str())?;
    }
    Ok(text)
}

/// Where a column begins in its row, for `column_start TABLE COLUMN ROWS JTD HEAPS`.
fn column_start(alloc: Global, args: &mut Args<'_>) -> Result<String, Fault> {
    let table = args.table()?;
    let column = args.byte()?;
    let widths = widths(args)?;
    Ok(format!(in alloc; "{}", widths.start(table, column))?)
}

/// Of a table whose rows have owners its Ptr table, the owners' table and the column of the runs there, and the
/// place of these among the owners' runs, for `child TABLE`.
fn child(alloc: Global, args: &mut Args<'_>) -> Result<String, Fault> {
    let table = args.table()?;
    if !is_child_table(table) {
        return Ok(format!(in alloc; "none, ptr {:02x}", ptr_table(table))?);
    }
    let (ptr, owner) = (ptr_table(table), owner_table(table));
    let (column, index) = (run_column(table), run_index(table));
    Ok(format!(in alloc; "ptr {ptr:02x} owner {owner:02x} column {column} run {index}")?)
}

/// The tables whose rows a table's own, in the order of its runs, for `runs_of TABLE`.
fn runs(alloc: Global, args: &mut Args<'_>) -> Result<String, Fault> {
    told::bytes(alloc, runs_of(args.table()?))
}

/// The answer to a call of this file, None where the call is another.
pub fn answer(alloc: Global, call: &str, args: &mut Args<'_>) -> Result<Option<String>, Fault> {
    Ok(Some(match call {
        "table" => table(alloc, args)?,
        "column" => one_column(alloc, args)?,
        "decode_coded" => decoded(alloc, args)?,
        "encode_coded" => encoded(alloc, args)?,
        "width" => width(alloc, args)?,
        "row_width" => row_width(alloc, args)?,
        "column_start" => column_start(alloc, args)?,
        "child" => child(alloc, args)?,
        "runs_of" => runs(alloc, args)?,
        _ => return Ok(None),
    }))
}
