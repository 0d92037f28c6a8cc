//! The numbers of references in indices and coded indices (ECMA-335 II.24.2.6).
ghost use Rattle.std.specs.Prelude.{◌≡◌, ◌<◌, ◌^◌, true, false, Some, IsTrue};
ghost use Rattle.enc_meta.specs.Heaps.{Counted};
ghost use Rattle.enc_plain.specs.Cell.{is_body, is_field, refer};
ghost use Rattle.enc_plain.specs.Module.{has_row, cell_of};
ghost use Rattle.enc_plain.specs.Reading.{cell_read};
ghost use Rattle.enc_plain.specs.Sound.{IsSound, is_reference};
ghost use Rattle.enc_schema.specs.Schema.{column_in};
ghost use Rattle.enc_rewriter.specs.Numbers.{reading_by};
ghost use Rattle.enc_schema.specs.declared.column.Column.TheVariants.{Index, Coded};

use enc_base::Token;
use enc_plain::ModuleView;
use enc_schema::{Coding, encode_coded};

/// The token in a column of an index.
#[tactic(auto, using(crate::proofs::RefersTo::index_kind, crate::proofs::RefersTo::index_sound))]
fn index_token<V: ModuleView>(view: &V, row: Token, i: u8, table: u8) -> Token
    requires sound { IsSound (V.meaning view.now) }
    requires row { IsTrue (has_row (V.meaning view.now) row) }
    requires column { column_in row.table i ≡ Some (Index table) }
    ensures cell { cell_of (V.meaning view.now) row i ≡ Some (refer result) }
    ensures sound { is_reference (V.meaning view.now) (Index table) result ≡ true }
{
    view.refer(row, i)
}

/// The number of a reference in an index: its row.
#[tactic(auto, using(crate::proofs::RefersTo::index_says))]
pub(crate) fn index_number<V: ModuleView>(view: &V, row: Token, i: u8, table: u8) -> u32
    requires sound { IsSound (V.meaning view.now) }
    requires row { IsTrue (has_row (V.meaning view.now) row) }
    requires column { column_in row.table i ≡ Some (Index table) }
    ensures { (h : Counted) → cell_read (reading_by (V.meaning view.now) h) (Index table) result
        ≡ cell_of (V.meaning view.now) row i }
{
    index_token(view, row, i, table).row
}

/// The token in a column of a coded index.
#[tactic(auto, using(crate::proofs::RefersTo::coded_steps))]
fn coded_token<V: ModuleView>(view: &V, row: Token, i: u8, kind: Coding) -> Token
    requires sound { IsSound (V.meaning view.now) }
    requires row { IsTrue (has_row (V.meaning view.now) row) }
    requires column { column_in row.table i ≡ Some (Coded kind) }
    ensures cell { cell_of (V.meaning view.now) row i ≡ Some (refer result) }
    ensures sound { is_reference (V.meaning view.now) (Coded kind) result ≡ true }
    ensures low { result.row < 2 ^ 24 }
{
    view.refer(row, i)
}

/// The number of a reference in a coded index.
#[tactic(auto, using(crate::proofs::RefersTo::coded_says, crate::proofs::RefersTo::coded_there))]
pub(crate) fn coded_number<V: ModuleView>(view: &V, row: Token, i: u8, kind: Coding) -> u32
    requires sound { IsSound (V.meaning view.now) }
    requires row { IsTrue (has_row (V.meaning view.now) row) }
    requires column { column_in row.table i ≡ Some (Coded kind) }
    ensures { (h : Counted) → cell_read (reading_by (V.meaning view.now) h) (Coded kind) result
        ≡ cell_of (V.meaning view.now) row i }
{
    match encode_coded(kind, coded_token(view, row, i, kind)) {
        Some(number) => number,
        None => unreachable!(),
    }
}
