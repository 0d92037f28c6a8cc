//! Writing a sequence points blob, each number in its shortest spelling.
ghost use Rattle.std.specs.Prelude.{◌≡◌, ◌<◌, ◌^◌, ◌++◌, IfOk, IsTrue, is_some};
ghost use Rattle.enc_seqpoints.specs.Grammar.{is_row, are_lines, opened};
ghost use Rattle.enc_seqpoints.specs.Spelling.{spelled_number, spelled_difference, between, document_holds, is_later, ends_behind, is_close, is_near, are_writable, is_writable, document_bytes, offset_bytes, columns_bytes, start_bytes, lines_bytes, point_bytes, records_of, first_document, header_bytes, blob_of};
ghost use Rattle.enc_seqpoints.specs.Reads.{Writes, WritesBehind};

use crate::base::{Base, Record};
use crate::point::{Point, WriteFault};
use crate::read::are_lines;
use enc_base::{push_signed, push_unsigned};
use std::alloc::{AllocError, Global};

/// Appends a number.
#[tactic(auto, unfolding(crate::specs::Spelling::spelled_number))]
fn write_number(value: u32, out: &mut Vec<u8>) -> Result<(), AllocError>
    requires { value < 2 ^ 29 }
    ensures { IfOk result (λ _. out.new.items ≡ out.old.items ++ spelled_number value) }
{
    push_unsigned(value, out)
}

/// The 32 bits of the difference that leads from one number to another.
#[tactic(auto, unfolding(crate::specs::Spelling::between))]
fn between(from: u32, to: u32) -> u32
    ensures { result ≡ between from to }
{
    if from <= to {
        return to - from;
    }
    0xffff_ffff - (from - to) + 1
}

/// Appends the difference that leads from one number to another.
#[tactic(auto, unfolding(crate::specs::Spelling::spelled_difference, crate::specs::Spelling::between))]
fn write_difference(from: u32, to: u32, out: &mut Vec<u8>) -> Result<(), AllocError>
    requires { IsTrue (is_close from to) }
    ensures { IfOk result (λ _. out.new.items ≡ out.old.items ++ spelled_difference (between from to)) }
{
    push_signed(between(from, to).cast_signed(), out)
}

/// Whether a signed number can say the difference of a number from another.
fn is_close(from: u32, to: u32) -> bool
    ensures { result ≡ is_close from to }
{
    let (from, to) = (u64::from(from), u64::from(to));
    from <= to + 0x1000_0000 && to < from + 0x1000_0000
}

/// Whether this is a document row.
fn is_row(n: u32) -> bool
    ensures { result ≡ is_row n }
{
    0 < n && n < 0x2000_0000
}

/// Whether the document holds already, or a document record can say it.
#[tactic(auto, unfolding(crate::specs::Spelling::document_holds))]
fn document_holds(base: Base, document: u32) -> bool
    ensures { result ≡ document_holds base document }
{
    document == base.document || base.offset.is_some() && is_row(document)
}

/// Whether the offset is below 2^29 and past that of the point before.
#[tactic(auto, unfolding(crate::specs::Spelling::is_later))]
fn is_later(before: Option<u32>, offset: u32) -> bool
    ensures { result ≡ is_later before offset }
{
    match before {
        None => offset < 0x2000_0000,
        Some(before) => before < offset && offset < 0x2000_0000,
    }
}

/// Whether the end is behind the start.
#[tactic(auto, unfolding(crate::specs::Spelling::ends_behind))]
fn ends_behind(lines: (u32, u32, u32, u32)) -> bool
    ensures { result ≡ ends_behind lines }
{
    let (line, column, end_line, end_column) = lines;
    line < end_line || line == end_line && column < end_column
}

/// Whether signed numbers can say the start from the last one.
#[tactic(auto, unfolding(crate::specs::Spelling::is_near))]
fn is_near(start: Option<(u32, u32)>, lines: (u32, u32, u32, u32)) -> bool
    ensures { result ≡ is_near start lines }
{
    let (line, column, _, _) = lines;
    match start {
        None => true,
        Some((last_line, last_column)) => {
            is_close(last_line, line) && is_close(last_column, column)
        }
    }
}

/// Whether the lines can be spelled.
#[tactic(auto, unfolding(crate::specs::Spelling::are_writable))]
fn are_writable(start: Option<(u32, u32)>, lines: Option<(u32, u32, u32, u32)>) -> bool
    ensures { result ≡ are_writable start lines }
{
    match lines {
        None => true,
        Some(lines) => are_lines(lines) && ends_behind(lines) && is_near(start, lines),
    }
}

/// Whether the point can be spelled behind what stands before it.
#[tactic(auto, unfolding(crate::specs::Spelling::is_writable))]
fn is_writable(base: Base, point: Point) -> bool
    ensures { result ≡ is_writable base point }
{
    document_holds(base, point.document)
        && is_later(base.offset, point.offset)
        && are_writable(base.start, point.lines)
}

/// Appends a document record, where another document holds.
#[tactic(auto, unfolding(crate::specs::Spelling::document_bytes, crate::specs::Spelling::document_holds))]
fn write_document(base: Base, document: u32, out: &mut Vec<u8>) -> Result<(), AllocError>
    requires { IsTrue (document_holds base document) }
    ensures { IfOk result (λ _. out.new.items ≡ out.old.items ++ document_bytes base document) }
{
    if document == base.document {
        return Ok(());
    }
    write_number(0, out)?;
    write_number(document, out)
}

/// Appends the offset, by its difference from that of the point before.
#[tactic(auto, unfolding(crate::specs::Spelling::offset_bytes, crate::specs::Spelling::is_later))]
fn write_offset(before: Option<u32>, offset: u32, out: &mut Vec<u8>) -> Result<(), AllocError>
    requires { IsTrue (is_later before offset) }
    ensures { IfOk result (λ _. out.new.items ≡ out.old.items ++ offset_bytes before offset) }
{
    match before {
        None => write_number(offset, out),
        Some(before) => write_number(offset - before, out),
    }
}

/// Appends the column difference.
#[tactic(auto, unfolding(crate::specs::Spelling::columns_bytes, // the difference of columns
crate::specs::Spelling::ends_behind, // the end behind the start
crate::specs::Grammar::are_lines // what fits a line and a column
))]
fn write_columns(lines: (u32, u32, u32, u32), out: &mut Vec<u8>) -> Result<(), AllocError>
    requires good { IsTrue (are_lines lines) }
    requires behind { IsTrue (ends_behind lines) }
    ensures { IfOk result (λ _. out.new.items ≡ out.old.items ++ columns_bytes lines) }
{
    let (line, column, end_line, end_column) = lines;
    if line == end_line {
        return write_number(end_column - column, out);
    }
    write_difference(column, end_column, out)
}

/// Appends the start.
#[tactic(auto, unfolding(crate::specs::Spelling::start_bytes, // the start, or what differs from the last
crate::specs::Spelling::is_near, // near enough to be told as a difference
crate::specs::Grammar::are_lines // what fits a line and a column
))]
fn write_start(
    start: Option<(u32, u32)>,
    lines: (u32, u32, u32, u32),
    out: &mut Vec<u8>,
) -> Result<(), AllocError>
    requires good { IsTrue (are_lines lines) }
    requires near { IsTrue (is_near start lines) }
    ensures { IfOk result (λ _. out.new.items ≡ out.old.items ++ start_bytes start lines) }
{
    let (line, column, _, _) = lines;
    match start {
        None => {
            write_number(line, out)?;
            write_number(column, out)
        }
        Some((last_line, last_column)) => {
            write_difference(last_line, line, out)?;
            write_difference(last_column, column, out)
        }
    }
}

/// Appends line difference, column difference and start.
#[tactic(auto, unfolding(crate::specs::Spelling::lines_bytes, // lines, columns, start
crate::specs::Spelling::are_writable, // where they can be spelled
crate::specs::Spelling::ends_behind, // the end behind the start
crate::specs::Grammar::are_lines // what fits a line and a column
))]
fn write_lines(
    start: Option<(u32, u32)>,
    lines: Option<(u32, u32, u32, u32)>,
    out: &mut Vec<u8>,
) -> Result<(), AllocError>
    requires { IsTrue (are_writable start lines) }
    ensures { IfOk result (λ _. out.new.items ≡ out.old.items ++ lines_bytes start lines) }
{
    let Some(lines) = lines else {
        write_number(0, out)?;
        return write_number(0, out);
    };
    let (line, _, end_line, _) = lines;
    write_number(end_line - line, out)?;
    write_columns(lines, out)?;
    write_start(start, lines, out)
}

/// Appends the records of a point.
#[tactic(auto, unfolding(crate::specs::Spelling::point_bytes, crate::specs::Spelling::is_writable))]
fn write_point(base: Base, point: Point, out: &mut Vec<u8>) -> Result<(), AllocError>
    requires { IsTrue (is_writable base point) }
    ensures { IfOk result (λ _. out.new.items ≡ out.old.items ++ point_bytes base point) }
{
    write_document(base, point.document, out)?;
    write_offset(base.offset, point.offset, out)?;
    write_lines(base.start, point.lines, out)
}

/// Appends the records of these points.
fn write_records(base: Base, points: &[Point], out: &mut Vec<u8>) -> Result<(), WriteFault>
    ensures { WritesBehind out.old.items out.new.items result (records_of base points.now) }
{
    let mut base = base;
    for i in 0..points.len() {
        let point = points[i];
        if !is_writable(base, point) {
            return Err(WriteFault::NotWritable(i));
        }
        write_point(base, point, out)?;
        base = base.after(Record::Sequence(point));
    }
    Ok(())
}

/// The document that holds at first.
#[tactic(auto, unfolding(crate::specs::Spelling::first_document))]
fn first_document(document: u32, points: &[Point]) -> u32
    ensures first { result ≡ first_document document points.now }
    ensures few { document ≡ 0 → result < 2 ^ 29 }
{
    if document != 0 {
        return document;
    }
    match points {
        [point, ..] if is_row(point.document) => point.document,
        _ => 1,
    }
}

/// Appends the local signature row, and the document that holds at first where Document is nil.
#[tactic(auto, unfolding(crate::specs::Spelling::header_bytes))]
fn write_header(locals: u32, document: u32, first: u32, out: &mut Vec<u8>) -> Result<(), AllocError>
    requires locals { locals < 2 ^ 29 }
    requires first { document ≡ 0 → first < 2 ^ 29 }
    ensures { IfOk result (λ _. out.new.items ≡ out.old.items ++ header_bytes locals document first) }
{
    write_number(locals, out)?;
    if document != 0 {
        return Ok(());
    }
    write_number(first, out)
}

/// The blob for the SequencePoints column of a method with this local signature row, this row in its
/// Document column, 0 for nil, and these points, each number in its shortest spelling (Portable PDB
/// v1.0, Sequence Points Blob). Where Document is nil the blob has the first point's document in it,
/// and row 1 where there is no point; a point of another document than the one before it has a
/// document record. `NotWritable` with the index of the first point that
/// can't be spelled behind those before it: an offset or a line is 2^29 or more, a line 0xFEEFEE, a
/// column 2^16 or more; its end isn't behind its start; its offset isn't past that of the point
/// before; its start line is 2^28 lines or more from that of the last point that isn't hidden (2^28
/// before it is still good); its document isn't a row below 2^29, or it is the first point, and
/// Document is another row. `Memory` where there is none.
#[tactic(auto, unfolding(crate::specs::Spelling::blob_of))]
pub fn write_points(
    alloc: Global,
    locals: u32,
    document: u32,
    points: &[Point],
) -> Result<Vec<u8>, WriteFault>
    requires { locals < 2 ^ 29 }
    ensures { Writes result (blob_of locals document points.now) }
{
    let first = first_document(document, points);
    let mut out = Vec::new(alloc);
    write_header(locals, document, first, &mut out)?;
    write_records(Base::opened(first), points, &mut out)?;
    Ok(out)
}
