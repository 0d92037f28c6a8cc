//! The bytes of a delta's PDB that says an edit list (Portable PDB v1.0).
ghost use Rattle.std.specs.Prelude.{◌≡◌, map, IfOk, IsTrue};
ghost use Rattle.enc_edit_list.specs.Form.{list_fits};
ghost use Rattle.enc_pdb_writer.specs.Listed.{documents_used, row_placed, pdb_listed, list_pdb, AreByRows, IsPdbListed};
ghost use Rattle.enc_pdb_writer.specs.Methods.{SaysMethods};
ghost use Rattle.enc_pdb_writer.specs.Stated.{AreMethods, points_stand};
ghost use Rattle.enc_pdb_writer.specs.Written.{SaysEdits};

use crate::documents::StatedDocuments;
use crate::edits::{MethodEdit, by_rows};
use crate::methods::write_methods;
use crate::points::ListPoints;
use enc_base::Token;
use enc_edit_list::{DocumentValue, EditList};
use enc_meta::BuildFault;
use std::alloc::{AllocError, Global};

/// The documents of the edits with points, none where no edit has one.
fn documents_used<'a>(placed: &[MethodEdit], documents: &'a [DocumentValue]) -> &'a [DocumentValue]
    ensures { result.now ≡ documents_used placed.now documents.now }
{
    match placed {
        [] => &[],
        [..] => documents,
    }
}

/// The edits with points, of which a PDB can be written.
fn listed(alloc: Global, list: &EditList, methods: &[Token]) -> Result<Vec<MethodEdit>, AllocError>
    requires form { IsTrue (list_fits list.now) }
    requires points { IsTrue (points_stand list.now) }
    requires methods { AreMethods methods.now list.now.edits }
    ensures placed { IfOk result (λ placed. AreByRows methods.now list.now.edits placed.items) }
    ensures listed { IfOk result (λ placed. IsPdbListed list.now placed.items) }
{
    let placed = by_rows(alloc, list.edits.as_slice(), methods)?;
    Ok(placed)
}

/// The points of the edits.
fn source_of<'a>(
    alloc: Global,
    list: &'a EditList,
    placed: &'a [MethodEdit],
) -> Result<ListPoints<'a>, AllocError>
    requires { IsPdbListed list.now placed.now }
    ensures { IfOk result (λ source. pdb_listed source ≡ list_pdb list.now placed.now) }
{
    let documents = documents_used(placed, list.documents.as_slice());
    Ok(ListPoints {
        edits: list.edits.as_slice(),
        placed,
        documents: StatedDocuments::of(alloc, documents)?,
    })
}

/// The rows of the methods of edits.
fn rows_of(alloc: Global, placed: &[MethodEdit]) -> Result<Vec<u32>, AllocError>
    ensures { IfOk result (λ rows. rows.items ≡ map row_placed placed.now) }
{
    let mut rows = Vec::new(alloc);
    for edit in placed {
        rows.push(edit.row)?;
    }
    Ok(rows)
}

/// The PDB of the edits with points.
fn write_listed(
    alloc: Global,
    list: &EditList,
    placed: &[MethodEdit],
) -> Result<Vec<u8>, AllocError>
    requires { IsPdbListed list.now placed.now }
    ensures { IfOk result (λ v. SaysMethods (list_pdb list.now placed.now) (map row_placed placed.now) v.items) }
{
    let rows = rows_of(alloc, placed)?;
    let source = source_of(alloc, list, placed)?;
    match write_methods(alloc, &source, &rows) {
        Ok(bytes) => Ok(bytes),
        Err(BuildFault::Memory) => Err(AllocError),
        Err(BuildFault::TooLarge(_)) => unreachable!(),
    }
}

/// The Portable PDB of the delta of an edit list: a row of MethodDebugInformation for each method whose
/// edit has points, in the order of their rows, which EncMap names, and the documents that these points
/// have, each value once. `methods` has for each edit the token of its method, nil where it has none. A
/// method whose points are of several documents has Document nil. The time is linear in what is written
/// and in the sources of the documents, but that the methods are sorted. `AllocError` where there is no
/// memory.
pub fn write_pdb_delta(
    alloc: Global,
    list: &EditList,
    methods: &[Token],
) -> Result<Vec<u8>, AllocError>
    requires form { IsTrue (list_fits list.now) }
    requires points { IsTrue (points_stand list.now) }
    requires methods { AreMethods methods.now list.now.edits }
    ensures says { IfOk result (λ v. SaysEdits list.now methods.now v.items) }
{
    let placed = listed(alloc, list, methods)?;
    let bytes = write_listed(alloc, list, &placed)?;
    Ok(bytes)
}
