//! Why a Portable PDB is refused, and where.
ghost use Rattle.std.specs.Prelude.{◌≡◌, ◌<◌, ◌^◌, IfOk, is_some, option_map};
ghost use Rattle.enc_base.specs.Token.{nth_row};
ghost use Rattle.enc_base.specs.declared.refusal.ReadFault.TheVariants.{Refused};
ghost use Rattle.enc_plain.specs.DebugSeen.{document_seen};
ghost use Rattle.enc_ppdb.specs.Pdb.{points_of};
ghost use Rattle.enc_ppdb.specs.Fault.{is_document, is_there, are_there, is_method, document_fault, method_fault, documents_fault, methods_fault, first_row_fault, fits_methods, refused_at};
ghost use Rattle.enc_ppdb.specs.Seen.{good_document};

use crate::file::File;
use enc_base::tables::{DOCUMENT, METHOD_DEBUG_INFORMATION};
use enc_base::{Code, Place, ReadFault, Refusal, Token};
use enc_plain::{DocumentRef, NameRef};
use enc_schema::columns::{
    DOCUMENT_HASH, DOCUMENT_HASH_ALGORITHM, DOCUMENT_LANGUAGE, DOCUMENT_NAME,
    METHOD_DEBUG_INFORMATION_DOCUMENT, METHOD_DEBUG_INFORMATION_SEQUENCE_POINTS,
};
use enc_seqpoints::{Point, PointFault, Points, read_points};
use std::alloc::{AllocError, Global};

/// A row of a table, from 0.
pub(crate) fn nth_row(table: u8, n: u32) -> Token
    requires { n < 2 ^ 24 }
    ensures { result ≡ nth_row table n }
{
    Token { table, row: n + 1 }
}

/// A refusal at a place.
pub(crate) fn refused(place: Place) -> ReadFault
    ensures { result ≡ Refused (refused_at place) }
{
    ReadFault::Refused(Refusal {
        code: Code::F(12),
        place,
    })
}

/// The document of a row, None where one of its offsets or its name isn't good.
#[tactic(auto, unfolding(crate::specs::Seen::good_document, // a document, where it is good:
crate::specs::Fault::is_document, // its columns stand in their heaps
crate::specs::Pdb::name_of_document // and it has a name
))]
pub(crate) fn good_document(file: &File, row: Token) -> Option<DocumentRef<'_>>
    ensures { option_map document_seen result ≡ good_document file.now row }
{
    let heaps = file.heaps();
    let name = NameRef::at(file.heaps(), file.cell(row, DOCUMENT_NAME))?;
    let algorithm = heaps.guid(file.cell(row, DOCUMENT_HASH_ALGORITHM))?;
    let hash = heaps.blob(file.cell(row, DOCUMENT_HASH))?;
    let language = heaps.guid(file.cell(row, DOCUMENT_LANGUAGE))?;
    Some(DocumentRef {
        name,
        algorithm,
        hash,
        language,
    })
}

/// Whether a row of Document is good.
fn is_document(file: &File, row: Token) -> bool
    ensures { result ≡ is_document file.now row }
{
    good_document(file, row).is_some()
}

/// A row of Document, from 0, where it isn't good.
#[tactic(auto, unfolding(crate::specs::Fault::document_fault))]
fn document_fault(file: &File, n: u32) -> Option<Place>
    requires { n < 2 ^ 24 }
    ensures { result ≡ document_fault file.now n }
{
    let row = nth_row(DOCUMENT, n);
    if is_document(file, row) {
        return None;
    }
    Some(Place::Row(row))
}

/// The first row of Document that isn't good.
#[tactic(auto, using(enc_base::proofs::First::first_steps), unfolding(crate::specs::Fault::documents_fault))]
pub(crate) fn documents_fault(file: &File) -> Option<Place>
    ensures { result ≡ documents_fault file.now }
{
    for n in 0..file.count(DOCUMENT) {
        match document_fault(file, n) {
            Some(place) => return Some(place),
            None => {}
        }
    }
    None
}

/// The points of the method in a row of MethodDebugInformation, None where its blob isn't one.
#[tactic(auto, unfolding(crate::specs::Pdb::points_of))]
pub(crate) fn points_of(
    alloc: Global,
    file: &File,
    row: Token,
) -> Result<Option<Points>, AllocError>
    ensures { IfOk result (λ points. points ≡ points_of file.now row) }
{
    let document = file.cell(row, METHOD_DEBUG_INFORMATION_DOCUMENT);
    let heaps = file.heaps();
    let Some(blob) = heaps.blob(file.cell(row, METHOD_DEBUG_INFORMATION_SEQUENCE_POINTS)) else {
        return Ok(None);
    };
    match read_points(alloc, blob, document) {
        Ok(points) => Ok(Some(points)),
        Err(PointFault::Grammar) => Ok(None),
        Err(PointFault::Memory) => Err(AllocError),
    }
}

/// Whether the document of a point is one of so many rows.
fn is_there(count: u32, point: Point) -> bool
    ensures { result ≡ is_there count point }
{
    0 < point.document && point.document <= count
}

/// Whether each point's document is one of so many rows.
#[tactic(auto, unfolding(crate::specs::Fault::are_there))]
pub(crate) fn are_there(count: u32, points: &Points) -> bool
    ensures { result ≡ are_there count points.now.points }
{
    for i in 0..points.len() {
        if !is_there(count, points.point(i)) {
            return false;
        }
    }
    true
}

/// Whether a row of MethodDebugInformation is good.
#[tactic(auto, unfolding(crate::specs::Fault::is_method))]
fn is_method(alloc: Global, file: &File, row: Token) -> Result<bool, AllocError>
    ensures { IfOk result (λ good. good ≡ is_method file.now row) }
{
    match points_of(alloc, file, row)? {
        Some(points) => Ok(are_there(file.count(DOCUMENT), &points)),
        None => Ok(false),
    }
}

/// A row of MethodDebugInformation, from 0, where it isn't good.
#[tactic(auto, unfolding(crate::specs::Fault::method_fault))]
fn method_fault(alloc: Global, file: &File, n: u32) -> Result<Option<Place>, AllocError>
    requires { n < 2 ^ 24 }
    ensures { IfOk result (λ place. place ≡ method_fault file.now n) }
{
    let row = nth_row(METHOD_DEBUG_INFORMATION, n);
    if is_method(alloc, file, row)? {
        return Ok(None);
    }
    Ok(Some(Place::Row(row)))
}

/// The first row of MethodDebugInformation that isn't good.
#[tactic(auto, using(enc_base::proofs::First::first_steps), unfolding(crate::specs::Fault::methods_fault))]
fn methods_fault(alloc: Global, file: &File) -> Result<Option<Place>, AllocError>
    ensures { IfOk result (λ place. place ≡ methods_fault file.now) }
{
    for n in 0..file.count(METHOD_DEBUG_INFORMATION) {
        match method_fault(alloc, file, n)? {
            Some(place) => return Ok(Some(place)),
            None => {}
        }
    }
    Ok(None)
}

/// The first row that isn't good.
pub(crate) fn row_fault(alloc: Global, file: &File) -> Result<Option<Place>, AllocError>
    ensures { IfOk result (λ place. place ≡ first_row_fault file.now) }
{
    match documents_fault(file) {
        Some(place) => Ok(Some(place)),
        None => methods_fault(alloc, file),
    }
}

/// Whether MethodDebugInformation has no row, or one for each method.
#[tactic(auto, unfolding(crate::specs::Fault::fits_methods))]
pub(crate) fn fits_methods(file: &File, methods: u32) -> bool
    ensures { result ≡ fits_methods methods file.now }
{
    let rows = file.count(METHOD_DEBUG_INFORMATION);
    rows == 0 || rows == methods
}
