//! Reading a sequence points blob.
ghost use Rattle.std.specs.Prelude.{◌≡◌, ℕ, ◌+◌, ◌-◌, ◌∷◌, length, option_map};
ghost use Rattle.enc_seqpoints.specs.Grammar.{is_line, are_lines, start_in, spanned, seen_in, lines_in, offset_from, point_in, begun_in, record_in, records_in, document_in, header_in, body_in, points_in, opened};
ghost use Rattle.enc_seqpoints.specs.Reads.{GivesAll, GivesPoints, AddsRecord};

use crate::base::{Base, Record};
use crate::number::{below_limit, columns, moved, moved_by, row};
use crate::point::{Point, PointFault};
use crate::points::Points;
use enc_base::unsigned_front;
use std::alloc::Global;

/// The start line and column at the front and what is behind them.
#[tactic(auto, unfolding(crate::specs::Grammar::start_in))]
fn start(from: Option<(u32, u32)>, bytes: &[u8]) -> Option<((u32, u32), &[u8])>
    ensures { option_map (λ x. ((x.0.0, x.0.1), x.1.now)) result ≡ start_in from bytes.now }
{
    let Some((from_line, from_column)) = from else {
        let (line, rest) = unsigned_front(bytes)?;
        let (column, rest) = unsigned_front(rest)?;
        return Some(((line, column), rest));
    };
    let (line, rest) = moved_by(from_line, bytes)?;
    let (column, rest) = moved_by(from_column, rest)?;
    Some(((line, column), rest))
}

/// Whether this may be a line.
fn is_line(n: u32) -> bool
    ensures { result ≡ is_line n }
{
    n < 0x2000_0000 && n != 0x00fe_efee
}

/// Whether these may be the lines of a point.
#[tactic(auto, unfolding(crate::specs::Grammar::are_lines))]
pub(crate) fn are_lines(lines: (u32, u32, u32, u32)) -> bool
    ensures { result ≡ are_lines lines }
{
    let (line, column, end_line, end_column) = lines;
    is_line(line) && column < 0x1_0000 && is_line(end_line) && end_column < 0x1_0000
}

/// The lines of a point with this line and column difference from its start to its end.
#[tactic(auto, unfolding(crate::specs::Grammar::spanned))]
fn spanned(lines: u32, columns: u32, start: (u32, u32)) -> Option<(u32, u32, u32, u32)>
    ensures { result ≡ spanned lines columns start }
{
    let (line, column) = start;
    let end_line = below_limit(u64::from(line) + u64::from(lines))?;
    let end_column = moved(column, columns)?;
    let whole = (line, column, end_line, end_column);
    if are_lines(whole) {
        return Some(whole);
    }
    None
}

/// What stands behind the differences of a point.
#[tactic(auto, unfolding(crate::specs::Grammar::seen_in))]
fn seen(
    from: Option<(u32, u32)>,
    lines: u32,
    columns: u32,
    bytes: &[u8],
) -> Option<(Option<(u32, u32, u32, u32)>, &[u8])>
    ensures { option_map (λ x. (x.0, x.1.now)) result ≡ seen_in from lines columns bytes.now }
{
    if lines == 0 && columns == 0 {
        return Some((None, bytes));
    }
    let (start, rest) = start(from, bytes)?;
    let whole = spanned(lines, columns, start)?;
    Some((Some(whole), rest))
}

/// The lines of a point.
#[tactic(auto, unfolding(crate::specs::Grammar::lines_in))]
fn lines(from: Option<(u32, u32)>, bytes: &[u8]) -> Option<(Option<(u32, u32, u32, u32)>, &[u8])>
    ensures { option_map (λ x. (x.0, x.1.now)) result ≡ lines_in from bytes.now }
{
    let (lines, rest) = unsigned_front(bytes)?;
    let (columns, rest) = columns(lines, rest)?;
    seen(from, lines, columns, rest)
}

/// A point at this offset.
#[tactic(auto, unfolding(crate::specs::Grammar::point_in))]
fn point(base: Base, offset: u64, bytes: &[u8]) -> Option<(Record, &[u8])>
    ensures { option_map (λ x. (x.0, x.1.now)) result ≡ point_in base offset bytes.now }
{
    if offset >= 0x2000_0000 {
        return None;
    }
    let (lines, rest) = lines(base.start, bytes)?;
    let point = Point {
        offset: offset as u32,
        document: base.document,
        lines,
    };
    Some((Record::Sequence(point), rest))
}

/// What this offset difference begins.
#[tactic(auto, unfolding(crate::specs::Grammar::begun_in))]
fn begun(base: Base, difference: u32, bytes: &[u8]) -> Option<(Record, &[u8])>
    ensures { option_map (λ x. (x.0, x.1.now)) result ≡ begun_in base difference bytes.now }
{
    let Some(before) = base.offset else {
        return point(base, u64::from(difference), bytes);
    };
    if difference == 0 {
        let (row, rest) = row(bytes)?;
        return Some((Record::Document(row), rest));
    }
    point(base, u64::from(before) + u64::from(difference), bytes)
}

/// The record at the front and what is behind it.
#[tactic(auto, unfolding(crate::specs::Grammar::record_in))]
fn record(base: Base, bytes: &[u8]) -> Option<(Record, &[u8])>
    ensures { option_map (λ x. (x.0, x.1.now)) result ≡ record_in base bytes.now }
{
    let (difference, rest) = unsigned_front(bytes)?;
    begun(base, difference, rest)
}

/// The points of a record put behind these.
fn with_record(mut points: Vec<Point>, record: Record) -> Result<Vec<Point>, PointFault>
    ensures { AddsRecord result points.items «record» }
{
    match record {
        Record::Document(_) => Ok(points),
        Record::Sequence(point) => {
            points.push(point)?;
            Ok(points)
        }
    }
}

/// The points of the records to the end of the bytes.
fn records(alloc: Global, base: Base, bytes: &[u8]) -> Result<Vec<Point>, PointFault>
    ensures { GivesPoints result (records_in (length bytes.now) base bytes.now) }
{
    let mut points = Vec::new(alloc);
    let mut base = base;
    let mut rest = bytes;
    for i in 0..bytes.len() {
        if rest.is_empty() {
            return Ok(points);
        }
        let Some((record, behind)) = record(base, rest) else {
            return Err(PointFault::Grammar);
        };
        points = with_record(points, record)?;
        base = base.after(record);
        rest = behind;
    }
    if rest.is_empty() {
        return Ok(points);
    }
    Err(PointFault::Grammar)
}

/// The document of the first point and what is behind it.
#[tactic(auto, unfolding(crate::specs::Grammar::document_in))]
fn document_behind(document: u32, bytes: &[u8]) -> Option<(u32, &[u8])>
    ensures { option_map (λ x. (x.0, x.1.now)) result ≡ document_in document bytes.now }
{
    if document == 0 {
        return row(bytes);
    }
    Some((document, bytes))
}

/// The local signature row, the document of the first point, and what is behind them.
#[tactic(auto, unfolding(crate::specs::Grammar::header_in))]
fn header(document: u32, bytes: &[u8]) -> Option<((u32, u32), &[u8])>
    ensures { option_map (λ x. ((x.0.0, x.0.1), x.1.now)) result ≡ header_in document bytes.now }
{
    let (locals, rest) = unsigned_front(bytes)?;
    let (document, rest) = document_behind(document, rest)?;
    Some(((locals, document), rest))
}

/// What a blob with a header says.
#[tactic(auto, unfolding(crate::specs::Grammar::body_in))]
fn body(alloc: Global, document: u32, bytes: &[u8]) -> Result<Points, PointFault>
    ensures { GivesAll result (body_in document bytes.now) }
{
    let Some(((locals, document), rest)) = header(document, bytes) else {
        return Err(PointFault::Grammar);
    };
    let items = records(alloc, Base::opened(document), rest)?;
    Ok(Points { locals, items })
}

/// What the blob in the SequencePoints column says of a method with this row in its Document column,
/// 0 for nil (Portable PDB v1.0, MethodDebugInformation and Sequence Points Blob): where Document is
/// nil the blob has the first point's document behind the local signature row. An empty blob has
/// local signature row 0 and no points. `Grammar` where the blob isn't one, an offset or a line is
/// 2^29 or more, a line 0xFEEFEE, a column 2^16 or more, or a document row 0; `Memory` where there is
/// none.
#[tactic(auto, unfolding(crate::specs::Grammar::points_in))]
pub fn read_points(alloc: Global, blob: &[u8], document: u32) -> Result<Points, PointFault>
    ensures { GivesAll result (points_in document blob.now) }
{
    if blob.is_empty() {
        return Ok(Points {
            locals: 0,
            items: Vec::new(alloc),
        });
    }
    body(alloc, document, blob)
}
