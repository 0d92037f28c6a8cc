//! The parts of a Portable PDB that is written: its documents, each once, and the points of each
//! method (Portable PDB v1.0).
ghost use Rattle.std.specs.Prelude.{◌≡◌, ℕ, ◌+◌, ◌-◌, ◌*◌, ◌^◌, ◌<◌, ◌≤◌, ◌==◌, true, false, length, Some, Ok, is_ok, nat_lt, slice_get, IfOk, OnOk};
ghost use Rattle.enc_base.specs.Token.{nth_row as row_from};
ghost use Rattle.enc_meta.specs.Built.{joined_size};
ghost use Rattle.enc_plain.specs.SoundDebug.{IsSoundPdb};
ghost use Rattle.enc_rows.specs.Written.{count_at, IndicesFit};
ghost use Rattle.enc_base.specs.Tables.{document as document_table, method_def, method_debug_information};
ghost use Rattle.std.specs.List.{list_all};
ghost use Rattle.enc_seqpoints.specs.declared.point.Point.{Point as ThePoint};
ghost use Rattle.enc_seqpoints.specs.Grammar.{method_points, points_in};
ghost use Rattle.enc_seqpoints.specs.Spelling.{blob_of};
ghost use Rattle.enc_ppdb.specs.Written.{nth_method, documents_of, row_among, points_numbered, method_weight, pdb_weight, most_pdb_weight, TellsPdb, HoldPdb};
ghost use Rattle.enc_ppdb.specs.Method.{one_document};
ghost use Rattle.enc_ppdb.specs.Holding.{heaps_size, RefusesPdb, documents_upto, pdb_weight_of, have_rows, WrittenUpto, IsRowAt, AreNumbered, IsWritten, MethodGiven};

use crate::fault::nth_row;
use crate::writer::{Writer, add_blob, weighed};
use enc_base::tables::{METHOD_DEBUG_INFORMATION, METHOD_DEF};
use enc_base::{StreamName, written_laws};
use enc_meta::{BuildFault, HeapBuilder};
use enc_plain::PointSource;
use enc_rows::TableBuilder;
use enc_seqpoints::{Point, Points, WriteFault, point_laws, write_points};
use std::alloc::{AllocError, Global};

/// The parts of a PDB: its heaps, and the rows of its tables.
#[derive(Drop)]
pub struct PdbParts {
    pub heaps: HeapBuilder,
    pub tables: TableBuilder,
}

/// The weight with that of a method with so many points; `TooLarge` where it passes its limit.
fn weighed_method(weight: u64, points: usize) -> Result<u64, BuildFault>
    ensures sum { IfOk result (λ w. w ≡ weight + (64 + 32 * points)) }
    ensures few { IfOk result (λ w. w ≤ 2 ^ 29) }
    ensures refused { RefusesPdb result (nat_lt most_pdb_weight (weight + (64 + 32 * points))) }
{
    if points > 0x100_0000 {
        return Err(BuildFault::TooLarge(StreamName::Pdb));
    }
    weighed(weight, 64 + 32 * points as u64)
}

/// Whether each point has this document.
fn have_document(points: &[Point], document: u32) -> bool
    ensures { result ≡ list_all (λ (q : ThePoint). q.document == document) points.now }
{
    points.iter().all(|point| point.document == document)
}

/// The document of all points, 0 where they have several, or none is there.
#[tactic(auto, unfolding(crate::specs::Method::one_document))]
fn document_of(points: &[Point]) -> u32
    ensures { result ≡ one_document points.now }
{
    match points {
        [] => 0,
        [first, ..] => {
            if have_document(points, first.document) {
                return first.document;
            }
            0
        }
    }
}

/// The blob of points that can be spelled.
fn spelled(
    alloc: Global,
    locals: u32,
    document: u32,
    points: &[Point],
) -> Result<Vec<u8>, AllocError>
    requires locals { locals < 2 ^ 29 }
    requires spelled { is_ok (blob_of locals document points.now) ≡ true }
    ensures { IfOk result (λ blob. blob_of locals document points.now ≡ Ok blob.items) }
{
    match write_points(alloc, locals, document, points) {
        Ok(blob) => Ok(blob),
        Err(WriteFault::Memory) => Err(AllocError),
        Err(WriteFault::NotWritable(_)) => unreachable!(),
    }
}

/// The blob of a method's points, none where there is nothing to say.
fn method_blob(
    alloc: Global,
    locals: u32,
    document: u32,
    points: &[Point],
) -> Result<Vec<u8>, AllocError>
    requires locals { locals < 2 ^ 29 }
    requires spelled { is_ok (blob_of locals document points.now) ≡ true }
    ensures reads { IfOk result (λ blob. points_in document blob.items ≡ Some (method_points locals points.now)) }
    ensures few { IfOk result (λ blob. length blob.items ≤ 8 + 28 * length points.now) }
{
    point_laws();
    if locals == 0 && points.is_empty() {
        return Ok(Vec::new(alloc));
    }
    let blob = spelled(alloc, locals, document, points)?;
    Ok(blob)
}

/// Adds the row of a method with this local signature row and these points.
fn push_method(
    alloc: Global,
    locals: u32,
    points: &[Point],
    writer: &mut Writer,
) -> Result<(), BuildFault>
    requires locals { locals < 2 ^ 29 }
    requires spelled { is_ok (blob_of locals (one_document points.now) points.now) ≡ true }
    requires few { count_at writer.old.tables method_debug_information < 2 ^ 24 - 1 }
    ensures given { OnOk result (MethodGiven locals points.now writer.old writer.new) }
    ensures refused { RefusesPdb result
        (nat_lt most_pdb_weight (heaps_size writer.old.heaps + (12 + 28 * length points.now))) }
{
    let document = document_of(points);
    let blob = method_blob(alloc, locals, document, points)?;
    let offset = match add_blob(&mut writer.heaps, &blob) {
        Ok(offset) => offset,
        Err(fault) => return Err(fault),
    };
    writer
        .tables
        .push(METHOD_DEBUG_INFORMATION, &[document, offset])?;
    Ok(())
}

/// The row of the document of a point of a method, counted from 0. The document of a place that is
/// known isn't looked at again.
fn document_row<P: PointSource>(
    alloc: Global,
    source: &P,
    n: u32,
    points: &Points,
    i: usize,
    writer: &mut Writer,
) -> Result<u32, BuildFault>
    requires sound { IsSoundPdb (P.debug source.now) }
    requires few { n < 2 ^ 24 - 1 }
    requires points { points.now ≡ P.said source.now (row_from method_def n) }
    requires there { i < length points.now.points }
    requires so_far { WrittenUpto (P.debug source.now) (P.placed source.now) n i writer.old }
    ensures so_far { OnOk result (WrittenUpto (P.debug source.now) (P.placed source.now) n (i + 1) writer.new) }
    ensures row { IfOk result (λ row. IsRowAt (P.debug source.now) n i row) }
    ensures refused { RefusesPdb result (nat_lt most_pdb_weight
        (pdb_weight_of (P.debug source.now) (n + 1) (documents_upto (P.debug source.now) n (i + 1)))) }
{
    let method = nth_row(METHOD_DEF, n);
    let number = points.point(i).document;
    let place = source.document_place(method, number);
    if let Some(row) = writer.places.get(&place) {
        return Ok(*row);
    }
    let Some(document) = source.document(method, number) else {
        unreachable!()
    };
    let row = match writer.row_of(alloc, &document) {
        Ok(row) => row,
        Err(fault) => return Err(fault),
    };
    match writer.places.insert(place, row) {
        Ok(_) => Ok(row),
        Err(_) => Err(BuildFault::Memory),
    }
}

/// Puts a point of a method behind those before it, with the row of its document.
fn push_point<P: PointSource>(
    alloc: Global,
    source: &P,
    n: u32,
    points: &Points,
    i: usize,
    writer: &mut Writer,
    rows: &mut Vec<Point>,
) -> Result<(), BuildFault>
    requires sound { IsSoundPdb (P.debug source.now) }
    requires few { n < 2 ^ 24 - 1 }
    requires points { points.now ≡ P.said source.now (row_from method_def n) }
    requires there { i < length points.now.points }
    requires so_far { WrittenUpto (P.debug source.now) (P.placed source.now) n i writer.old }
    requires rows { AreNumbered (P.debug source.now) n i rows.old.items }
    ensures so_far { OnOk result (WrittenUpto (P.debug source.now) (P.placed source.now) n (i + 1) writer.new) }
    ensures rows { OnOk result (AreNumbered (P.debug source.now) n (i + 1) rows.new.items) }
    ensures refused { RefusesPdb result (nat_lt most_pdb_weight
        (pdb_weight_of (P.debug source.now) (n + 1) (documents_of (P.debug source.now) (n + 1)))) }
{
    let point = points.point(i);
    let document = match document_row(alloc, source, n, points, i, writer) {
        Ok(row) => row,
        Err(fault) => return Err(fault),
    };
    rows.push(Point {
        offset: point.offset,
        document,
        lines: point.lines,
    })?;
    Ok(())
}

/// The points of a method, with the rows of their documents.
#[tactic(auto, using(crate::proofs::MethodsHeld::numbered_none))]
fn numbered<P: PointSource>(
    alloc: Global,
    source: &P,
    n: u32,
    points: &Points,
    writer: &mut Writer,
) -> Result<Vec<Point>, BuildFault>
    requires sound { IsSoundPdb (P.debug source.now) }
    requires few { n < 2 ^ 24 - 1 }
    requires points { points.now ≡ P.said source.now (row_from method_def n) }
    requires so_far { WrittenUpto (P.debug source.now) (P.placed source.now) n 0 writer.old }
    ensures so_far { OnOk result (WrittenUpto (P.debug source.now) (P.placed source.now) n
        (length points.now.points) writer.new) }
    ensures rows { IfOk result (λ rows. AreNumbered (P.debug source.now) n (length points.now.points) rows.items) }
    ensures refused { RefusesPdb result (nat_lt most_pdb_weight
        (pdb_weight_of (P.debug source.now) (n + 1) (documents_of (P.debug source.now) (n + 1)))) }
{
    let mut rows = Vec::new(alloc);
    for i in 0..points.len() {
        match push_point(alloc, source, n, points, i, writer, &mut rows) {
            Ok(()) => {}
            Err(fault) => return Err(fault),
        }
    }
    Ok(rows)
}

/// Adds what is known of a method, counted from 0.
fn add_method<P: PointSource>(
    alloc: Global,
    source: &P,
    n: u32,
    writer: &mut Writer,
) -> Result<(), BuildFault>
    requires sound { IsSoundPdb (P.debug source.now) }
    requires few { n < 2 ^ 24 - 1 }
    requires so_far { IsWritten (P.debug source.now) n n 0 (P.placed source.now)
        (documents_of (P.debug source.now) n) writer.old }
    ensures so_far { OnOk result (IsWritten (P.debug source.now) (n + 1) (n + 1) 0 (P.placed source.now)
        (documents_of (P.debug source.now) (n + 1)) writer.new) }
    ensures refused { RefusesPdb result (nat_lt most_pdb_weight
        (pdb_weight_of (P.debug source.now) (n + 1) (documents_of (P.debug source.now) (n + 1)))) }
{
    let method = nth_row(METHOD_DEF, n);
    let points = source.points(alloc, method)?;
    writer.weight = match weighed_method(writer.weight, points.len()) {
        Ok(weight) => weight,
        Err(fault) => return Err(fault),
    };
    let rows = match numbered(alloc, source, n, &points, writer) {
        Ok(rows) => rows,
        Err(fault) => return Err(fault),
    };
    match push_method(alloc, points.locals(), &rows, writer) {
        Ok(()) => Ok(()),
        Err(fault) => Err(fault),
    }
}

/// What is written of so many methods.
fn written<P: PointSource>(alloc: Global, source: &P, methods: u32) -> Result<Writer, BuildFault>
    requires sound { IsSoundPdb (P.debug source.now) }
    requires few { methods < 2 ^ 24 }
    ensures so_far { IfOk result (λ w. IsWritten (P.debug source.now) methods methods 0 (P.placed source.now)
        (documents_of (P.debug source.now) methods) w) }
    ensures refused { RefusesPdb result (nat_lt most_pdb_weight (pdb_weight (P.debug source.now) methods)) }
{
    let mut writer = Writer::begin(alloc)?;
    for n in 0..methods {
        match add_method(alloc, source, n, &mut writer) {
            Ok(()) => {}
            Err(fault) => return Err(fault),
        }
    }
    Ok(writer)
}

/// The parts of a PDB that hold what is known of so many methods: the documents of their points, each
/// value once, in the order of first use, and for each method its points, of which a Document is told
/// where they have one alone. `TooLarge(Pdb)` exactly where the weight passes 2^29: 65,536, 64 for
/// each method, 32 for each point, and for each document 96, its name and its hash. Within the weight
/// are the heaps, 16 bytes for each row of Document, 8 for each of MethodDebugInformation, and 65,000
/// more.
pub fn pdb_parts<P: PointSource>(
    alloc: Global,
    source: &P,
    methods: u32,
) -> Result<PdbParts, BuildFault>
    requires sound { IsSoundPdb (P.debug source.now) }
    requires few { methods < 2 ^ 24 }
    ensures held { IfOk result (λ r. HoldPdb (P.debug source.now) methods r.heaps r.tables) }
    ensures fit { IfOk result (λ r. IndicesFit r.tables false) }
    ensures documents { IfOk result (λ r. count_at r.tables document_table < 2 ^ 23) }
    ensures size { IfOk result (λ r. joined_size r.heaps + 16 * count_at r.tables document_table + 8 * methods + 65000
        ≤ pdb_weight (P.debug source.now) methods) }
    ensures tells { TellsPdb result (pdb_weight (P.debug source.now) methods) }
{
    let writer = match written(alloc, source, methods) {
        Ok(writer) => writer,
        Err(fault) => return Err(fault),
    };
    writer.heaps.laws();
    written_laws();
    let Writer { heaps, tables, .. } = writer;
    Ok(PdbParts { heaps, tables })
}
