//! The edits that have points, by the rows of their methods.
ghost use Rattle.std.specs.Prelude.{◌≡◌, ◌++◌, true, length, IfOk, OnOk};
ghost use Rattle.std.specs.List.{list_all};
ghost use Rattle.std.specs.List.Sorted.{IsPermutation, IsNonDecreasingBy};
ghost use Rattle.enc_edit_list.specs.Form.{edit_fits};
ghost use Rattle.enc_rules.specs.Listed.{body_given, points_given};
ghost use Rattle.enc_rules.specs.Rules.{has_points};
ghost use Rattle.enc_pdb_writer.specs.Listed.{placed_edit, placed_from, row_placed, AreByRows};
ghost use Rattle.enc_pdb_writer.specs.Stated.{locals_row, AreMethods};

use enc_base::Token;
use enc_edit_list::Edit;
use enc_rules::{body_given, points_given};
use std::alloc::{AllocError, Global};

/// An edit with points: the row of its method in MethodDef, and its place in the list, from 0.
#[derive(Clone, Copy, Debug, PartialEq, Eq, Drop)]
pub(crate) struct MethodEdit {
    pub(crate) row: u32,
    pub(crate) place: usize,
}

/// The row of the local signature of the body that an edit gives, 0 where it has none.
pub(crate) fn locals_row(edit: &Edit) -> u32
    ensures { result ≡ locals_row (body_given edit.now) }
{
    match body_given(edit) {
        Some(body) => body.locals.row,
        None => 0,
    }
}

/// Whether an edit has points.
fn has_points(edit: &Edit) -> bool
    ensures { result ≡ has_points edit.now }
{
    !points_given(edit).is_empty()
}

/// Puts an edit behind the others, if it has points.
#[tactic(auto, unfolding(crate::specs::Listed::placed_edit))]
fn push_edit(
    edit: &Edit,
    method: Token,
    place: usize,
    placed: &mut Vec<MethodEdit>,
) -> Result<(), AllocError>
    ensures { OnOk result (placed.new.items ≡ placed.old.items ++ placed_edit place method edit.now) }
{
    if !has_points(edit) {
        return Ok(());
    }
    placed.push(MethodEdit {
        row: method.row,
        place,
    })?;
    Ok(())
}

/// The edits with points, in the order of the list.
fn edits_with_points(
    alloc: Global,
    edits: &[Edit],
    methods: &[Token],
) -> Result<Vec<MethodEdit>, AllocError>
    requires { length methods.now ≡ length edits.now }
    ensures { IfOk result (λ placed. placed.items ≡ placed_from 0 methods.now edits.now) }
{
    let mut placed = Vec::new(alloc);
    for place in 0..edits.len() {
        push_edit(&edits[place], methods[place], place, &mut placed)?;
    }
    Ok(placed)
}

/// The edits in the order of the rows of their methods.
fn sorted(mut placed: Vec<MethodEdit>) -> Vec<MethodEdit>
    ensures rises { IsNonDecreasingBy row_placed result.items }
    ensures same { IsPermutation placed.items result.items }
{
    placed.sort_unstable_by_key(|edit| edit.row);
    placed
}

/// The edits with points, in the order of the rows of their methods.
pub(crate) fn by_rows(
    alloc: Global,
    edits: &[Edit],
    methods: &[Token],
) -> Result<Vec<MethodEdit>, AllocError>
    requires form { list_all edit_fits edits.now ≡ true }
    requires methods { AreMethods methods.now edits.now }
    ensures { IfOk result (λ placed. AreByRows methods.now edits.now placed.items) }
{
    let placed = edits_with_points(alloc, edits, methods)?;
    Ok(sorted(placed))
}
