//! Blobs of sequence points by `enc_seqpoints` (Portable PDB v1.0, Sequence Points Blob), read and written.

use crate::lines::{Args, Fault, parts};
use enc_seqpoints::{Point, PointFault, Points, WriteFault, read_points, write_points};
use std::alloc::Global;

/// A point: its offset, its document, and `hidden` or the line and the column of its start and of its end.
fn point_text(alloc: Global, point: &Point) -> Result<String, Fault> {
    let (offset, document) = (point.offset, point.document);
    let Some((line, column, end_line, end_column)) = point.lines else {
        return Ok(format!(in alloc; "{offset}:{document}:hidden")?);
    };
    Ok(format!(in alloc; "{offset}:{document}:{line},{column}-{end_line},{end_column}")?)
}

/// The local signature's row, and the points.
fn points_text(alloc: Global, points: &Points) -> Result<String, Fault> {
    let mut out = format!(in alloc; "locals {}", points.locals())?;
    for i in 0..points.len() {
        let point = point_text(alloc, &points.point(i))?;
        out.push_str(" ")?;
        out.push_str(point.as_str())?;
    }
    Ok(out)
}

/// What the blob of `read_points DOCUMENT BLOB` says, `refused` where it isn't one.
fn read(alloc: Global, args: &mut Args<'_>) -> Result<String, Fault> {
    let document = args.number()?;
    let blob = parts::bytes(alloc, args)?;
    match read_points(alloc, &blob, document) {
        Ok(points) => points_text(alloc, &points),
        Err(PointFault::Grammar) => Ok(String::from_str(alloc, "refused")?),
        Err(PointFault::Memory) => Err(Fault::Memory),
    }
}

/// Two texts with a separator between them.
fn halves<'a>(text: &'a str, separator: char) -> Result<(&'a str, &'a str), Fault> {
    match text.split_once(separator) {
        Some(halves) => Ok(halves),
        None => Err(Fault::Form),
    }
}

/// A number in decimal digits.
fn number(digits: &str) -> Result<u32, Fault> {
    match digits.parse::<u32>() {
        Ok(number) => Ok(number),
        Err(_) => Err(Fault::Form),
    }
}

/// A line and a column.
fn place_of(text: &str) -> Result<(u32, u32), Fault> {
    let (line, column) = halves(text, ',')?;
    Ok((number(line)?, number(column)?))
}

/// The lines of a point, None of a hidden one.
fn lines_of(text: &str) -> Result<Option<(u32, u32, u32, u32)>, Fault> {
    if text == "hidden" {
        return Ok(None);
    }
    let (start, end) = halves(text, '-')?;
    let (line, column) = place_of(start)?;
    let (end_line, end_column) = place_of(end)?;
    Ok(Some((line, column, end_line, end_column)))
}

/// A point as it is told.
fn point_of(word: &str) -> Result<Point, Fault> {
    let (offset, rest) = halves(word, ':')?;
    let (document, lines) = halves(rest, ':')?;
    Ok(Point {
        offset: number(offset)?,
        document: number(document)?,
        lines: lines_of(lines)?,
    })
}

/// The points to the end of the line.
fn points_of(alloc: Global, args: &mut Args<'_>) -> Result<Vec<Point>, Fault> {
    let mut points = Vec::new(alloc);
    for _ in 0..1000 {
        if !args.has_more() {
            return Ok(points);
        }
        let point = point_of(args.word()?)?;
        if points.push(point).is_err() {
            return Err(Fault::Memory);
        }
    }
    Err(Fault::Form)
}

/// The blob of `write_points LOCALS DOCUMENT POINT..`, or the number of the first point, from 0, that can't be
/// written.
fn write(alloc: Global, args: &mut Args<'_>) -> Result<String, Fault> {
    let locals = args.number()?;
    let document = args.number()?;
    let points = points_of(alloc, args)?;
    if locals >= 0x2000_0000 {
        return Err(Fault::Form);
    }
    match write_points(alloc, locals, document, &points) {
        Ok(blob) => parts::told(alloc, &blob),
        Err(WriteFault::NotWritable(i)) => Ok(format!(in alloc; "refused {i}")?),
        Err(WriteFault::Memory) => Err(Fault::Memory),
    }
}

/// The answer to a call of this file, None where the call is another. A point is one word: its offset, its document,
/// and `hidden` or `LINE,COLUMN-LINE,COLUMN`.
pub fn answer(alloc: Global, call: &str, args: &mut Args<'_>) -> Result<Option<String>, Fault> {
    Ok(Some(match call {
        "read_points" => read(alloc, args)?,
        "write_points" => write(alloc, args)?,
        _ => return Ok(None),
    }))
}
