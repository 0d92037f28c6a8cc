//! The sequence points of edits.
ghost use Rattle.std.specs.Prelude.{◌≡◌, ◌≤◌, ◌<◌, ◌+◌, ◌*◌, ◌^◌, min, length, sum_by, is_ok, IfOk, IfSome};
ghost use Rattle.std.specs.List.{list_all};
ghost use Rattle.enc_seqpoints.specs.Spelling.{blob_of};
ghost use Rattle.enc_rules.specs.First.{first_such};
ghost use Rattle.enc_rules.specs.Listed.{points_given};
ghost use Rattle.enc_rules.specs.Rules.{has_document, room_of_points, room_of_document, points_are_bad};
ghost use Rattle.enc_rules.specs.Sums.{most_room, points_break};

use crate::context::Context;
use crate::sums::capped;
use enc_edit_list::{DocumentValue, Edit};
use enc_plain::ChainView;
use enc_seqpoints::{Point, WriteFault, write_points};
use std::alloc::{AllocError, Global};

/// The sequence points that an edit gives a method.
pub fn points_given(edit: &Edit) -> &[Point]
    ensures { result.now ≡ points_given edit.now }
{
    match edit {
        Edit::Add { points, .. } => points.as_slice(),
        Edit::Body { points, .. } => points.as_slice(),
    }
}

/// The points can be spelled.
fn are_spelled(alloc: Global, points: &[Point]) -> Result<bool, AllocError>
    ensures { IfOk result (λ good. good ≡ is_ok (blob_of 0 0 points.now)) }
{
    match write_points(alloc, 0, 0, points) {
        Ok(_) => Ok(true),
        Err(WriteFault::NotWritable(_)) => Ok(false),
        Err(WriteFault::Memory) => Err(AllocError),
    }
}

/// The document of each point is one of so many.
fn have_documents(points: &[Point], documents: usize) -> bool
    ensures { result ≡ list_all (has_document documents) points.now }
{
    let mut rest = points;
    while let [point, tail @ ..] = rest {
        if point.document == 0 || point.document as usize > documents {
            return false;
        }
        rest = tail;
    }
    true
}

/// The bytes that the PDB takes at most for an edit's points, up to the limit of sums.
fn room_of_points(edit: &Edit) -> u64
    ensures room { result ≡ min most_room (room_of_points edit.now) }
    ensures few { result ≤ most_room }
{
    let points = points_given(edit);
    if points.is_empty() {
        return 0;
    }
    capped(64 + 32 * capped(points.len() as u64))
}

/// The bytes that the PDB takes at most for a document, up to the limit of sums.
fn room_of_document(document: &DocumentValue) -> u64
    ensures room { result ≡ min most_room (room_of_document document.now) }
    ensures few { result ≤ most_room }
{
    capped(128 + capped(document.name.len() as u64))
}

/// The same for all documents.
fn room_of_documents(documents: &[DocumentValue]) -> u64
    ensures room { result ≡ min most_room (sum_by room_of_document documents.now) }
    ensures few { result ≤ most_room }
{
    let mut sum = 0;
    for k in 0..documents.len() {
        sum = capped(sum + room_of_document(&documents[k]));
    }
    sum
}

/// The edit has points that can't be spelled, or that name none of so many documents, or with which the PDB
/// takes so much room.
fn points_break(alloc: Global, edit: &Edit, documents: usize, room: u64) -> Result<bool, AllocError>
    ensures { IfOk result (λ bad. bad ≡ points_break documents room edit.now) }
{
    let points = points_given(edit);
    if points.is_empty() {
        return Ok(false);
    }
    if !are_spelled(alloc, points)? {
        return Ok(true);
    }
    Ok(!have_documents(points, documents) || room > 0x2000_0000)
}

/// The first edit with points that can't be spelled, or that name no document, or with which the PDB gets too long.
#[tactic(auto, using(crate::proofs::EditAt::such_none))]
pub fn points_are_bad<C: ChainView>(
    alloc: Global,
    context: &Context<'_, C>,
) -> Result<Option<u32>, AllocError>
    ensures first { IfOk result (λ k. k ≡ first_such (points_are_bad context.now.chain context.now.list)
        (length context.now.list.edits)) }
    ensures few { IfOk result (λ k. IfSome k (λ n. n < 2 ^ 24)) }
{
    let edits = context.edits();
    let documents = context.list.documents.as_slice();
    let names = room_of_documents(documents);
    let mut sum = 0;
    for k in 0..edits.len() {
        let edit = &edits[k];
        sum = capped(sum + room_of_points(edit));
        match points_break(alloc, edit, documents.len(), 0x1_0000 + sum + names) {
            Err(error) => return Err(error),
            Ok(true) => return Ok(Some(k as u32)),
            Ok(false) => {}
        }
    }
    Ok(None)
}
