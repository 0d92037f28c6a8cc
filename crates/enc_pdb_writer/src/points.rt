//! The points of the edits that have some, as a source of points for rows that have no gaps.
ghost use Rattle.std.specs.Prelude.{◌≡◌, true, [], option_map, IfOk, Some};
ghost use Rattle.enc_seqpoints.specs.Grammar.{points_in};
ghost use Rattle.enc_pdb_writer.specs.Listed.{said_by, said_at, can_be_said, can_be_spelled_at, edit_of_row, numbered_document, points_said_of, pdb_listed, listed_known};

use crate::documents::StatedDocuments;
use crate::edits::{MethodEdit, locals_row};
use enc_base::Token;
use enc_base::tables::METHOD_DEF;
use enc_edit_list::Edit;
use enc_plain::{DocumentRef, PointSource};
use enc_rules::points_given;
use enc_seqpoints::{PointFault, Points, WriteFault, point_laws, read_points, write_points};
use std::alloc::{AllocError, Global};
use std::marker::Model;

/// The points of edits: the n-th of them, from 1, stands for row n of MethodDef, and of all other
/// tokens nothing is known.
#[derive(Drop)]
pub(crate) struct ListPoints<'a> {
    pub(crate) edits: &'a [Edit],
    pub(crate) placed: &'a [MethodEdit],
    pub(crate) documents: StatedDocuments<'a>,
}

impl<'a> Model for ListPoints<'a> {
    ghost use Rattle.std.specs.Prelude.{◌≡◌, true};
    ghost use Rattle.enc_pdb_writer.specs.Listed.{said_at, can_be_spelled_at, ListedPdb};

    ghost Value = { ListedPdb };

    ghost view = { λ s. record { documents = s.documents; methods = said_at s.edits.now s.placed.now } };

    ghost invariant = { λ s. can_be_spelled_at s.edits.now s.placed.now ≡ true };
}

/// The blob of the points of an edit.
fn spelled(alloc: Global, edit: &Edit) -> Result<Vec<u8>, AllocError>
    requires { can_be_said (Some edit.now) ≡ true }
    ensures { IfOk result (λ blob. points_in 0 blob.items ≡ Some (said_by (Some edit.now))) }
{
    point_laws();
    match write_points(alloc, locals_row(edit), 0, points_given(edit)) {
        Ok(blob) => Ok(blob),
        Err(WriteFault::Memory) => Err(AllocError),
        Err(WriteFault::NotWritable(_)) => unreachable!(),
    }
}

/// The local signature row and the points that an edit gives its method.
fn said(alloc: Global, edit: &Edit) -> Result<Points, AllocError>
    requires { can_be_said (Some edit.now) ≡ true }
    ensures { IfOk result (λ points. points ≡ said_by (Some edit.now)) }
{
    let blob = spelled(alloc, edit)?;
    match read_points(alloc, &blob, 0) {
        Ok(points) => Ok(points),
        Err(PointFault::Memory) => Err(AllocError),
        Err(PointFault::Grammar) => unreachable!(),
    }
}

/// The edit of the n-th row, from 1.
fn edit_of<'a>(edits: &'a [Edit], placed: &[MethodEdit], row: u32) -> Option<&'a Edit>
    ensures { option_map (λ e. e.now) result ≡ edit_of_row edits.now placed.now row }
{
    let n = row.checked_sub(1)?;
    let edit = placed.get(n as usize)?;
    edits.get(edit.place)
}

/// The local signature row and the points of a method, 0 and none where no edit has points for it.
#[tactic(auto, unfolding(crate::specs::Listed::points_said_of))]
fn points_of(
    alloc: Global,
    edits: &[Edit],
    placed: &[MethodEdit],
    method: Token,
) -> Result<Points, AllocError>
    requires { can_be_spelled_at edits.now placed.now ≡ true }
    ensures { IfOk result (λ points. points ≡ points_said_of (said_at edits.now placed.now) method) }
{
    if method.table != METHOD_DEF {
        return Ok(Points::none(alloc));
    }
    match edit_of(edits, placed, method.row) {
        Some(edit) => said(alloc, edit),
        None => Ok(Points::none(alloc)),
    }
}

impl PointSource for ListPoints<'_> {
    ghost debug = { λ s. pdb_listed s };

    ghost said = { λ s method. points_said_of s.methods method };

    ghost documents = { λ s method. numbered_document s.documents };

    ghost placed = { λ s place. numbered_document s.documents place };

    fn points(&self, alloc: Global, method: Token) -> Result<Points, AllocError> {
        points_of(alloc, self.edits, self.placed, method)
    }

    fn document(&self, _method: Token, number: u32) -> Option<DocumentRef<'_>> {
        let n = number.checked_sub(1)?;
        self.documents.get(n as usize)
    }

    fn document_place(&self, _method: Token, number: u32) -> u64 {
        u64::from(number)
    }

    ghost knows = { λ s method. listed_known s method };
}
