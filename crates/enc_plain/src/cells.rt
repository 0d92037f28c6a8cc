//! Rows whose cells may be asked for without knowing that the rows are there.
ghost use Rattle.std.specs.Prelude.{◌≡◌, ℕ, List, Option, Some, is_some};
ghost use Rattle.enc_base.specs.declared.token.Token.{Token as TheToken};
ghost use Rattle.enc_plain.specs.Cell.{Cell, kind_in, numbers, texts, blobs, references};
ghost use Rattle.enc_plain.specs.Module.{cells_of};
ghost use Rattle.enc_plain.specs.Rows.{number_at, bytes_at, token_at, AreStoredAt};

use crate::view::{ModuleView, is_row};
use enc_base::Token;

/// Rows by their tokens: those of a module, or of a module with a delta that isn't applied yet.
/// Rows count from 1, columns from 0 in the order of ECMA-335 II.22. A cell may be asked for where
/// the column is of that kind, whether the row is there or not. No call takes memory.
pub trait CellView {
    // The cells of each row.
    ghost rows: { Self → TheToken → Option (List Cell) };
    // The blob at each place.
    ghost stored: { Self → ℕ → Option (List ℕ) };

    /// Whether the token names a row.
    fn has(&self, row: Token) -> bool
        ensures { result ≡ is_some (rows self.now row) };

    /// The number in a column, 0 where there is no such row.
    fn number(&self, row: Token, column: u8) -> u32
        requires { kind_in row.table column ≡ Some numbers }
        ensures { result ≡ number_at (rows self.now) row column };

    /// The bytes of a text, without a zero; none where there is no such row.
    fn text(&self, row: Token, column: u8) -> &[u8]
        requires { kind_in row.table column ≡ Some texts }
        ensures { result.now ≡ bytes_at (rows self.now) row column };

    /// The bytes of a blob, none where there is no such row.
    fn blob(&self, row: Token, column: u8) -> &[u8]
        requires { kind_in row.table column ≡ Some blobs }
        ensures { result.now ≡ bytes_at (rows self.now) row column };

    /// The place of a blob, None where there is no such row, or none stands there: cells with one
    /// place have one blob.
    fn blob_place(&self, row: Token, column: u8) -> Option<u64>
        requires { kind_in row.table column ≡ Some blobs }
        ensures { AreStoredAt (stored self.now) result (bytes_at (rows self.now) row column) };

    /// The token in a column of an index, nil where there is no such row.
    fn token(&self, row: Token, column: u8) -> Token
        requires { kind_in row.table column ≡ Some references }
        ensures { result ≡ token_at (rows self.now) row column };
}

/// The rows of a module.
#[derive(Drop)]
pub struct Viewed<'a, V: ModuleView> {
    /// The module that is viewed.
    pub view: &'a V,
}

impl<V: ModuleView> CellView for Viewed<'_, V> {
    ghost rows = { λ v. cells_of (V.meaning v.view.now) };

    ghost stored = { λ v. V.stored v.view.now };

    #[tactic(auto, using(crate::proofs::CellsOf::has_cells))]
    fn has(&self, row: Token) -> bool {
        is_row(self.view, row)
    }

    #[tactic(auto, using(crate::proofs::CellsOf::number_there, crate::proofs::CellsOf::number_absent))]
    fn number(&self, row: Token, column: u8) -> u32 {
        if !is_row(self.view, row) {
            return 0;
        }
        self.view.num(row, column)
    }

    #[tactic(auto, using(crate::proofs::CellsOf::text_there, crate::proofs::CellsOf::bytes_absent))]
    fn text(&self, row: Token, column: u8) -> &[u8] {
        if !is_row(self.view, row) {
            return &[];
        }
        self.view.text(row, column)
    }

    #[tactic(auto, using(crate::proofs::CellsOf::blob_there, crate::proofs::CellsOf::bytes_absent))]
    fn blob(&self, row: Token, column: u8) -> &[u8] {
        if !is_row(self.view, row) {
            return &[];
        }
        self.view.blob(row, column)
    }

    #[tactic(auto, using(crate::proofs::CellsOf::bytes_absent))]
    fn blob_place(&self, row: Token, column: u8) -> Option<u64> {
        if !is_row(self.view, row) {
            return None;
        }
        Some(self.view.blob_place(row, column))
    }

    #[tactic(auto, using(crate::proofs::CellsOf::token_there, crate::proofs::CellsOf::token_absent))]
    fn token(&self, row: Token, column: u8) -> Token {
        if !is_row(self.view, row) {
            return Token { table: 0, row: 0 };
        }
        self.view.refer(row, column)
    }
}
