//! What is known of some methods, as a source of points for rows that have no gaps.
ghost use Rattle.std.specs.Prelude.{◌≡◌};
ghost use Rattle.enc_merge.specs.Points.{nth_listed, debug_of_rows};

use enc_base::Token;
use enc_base::tables::METHOD_DEF;
use enc_plain::{DocumentRef, PointSource};
use enc_seqpoints::Points;
use std::alloc::{AllocError, Global};

/// What is known of some methods: row n of MethodDef, from 1, stands for the n-th of them.
#[derive(Drop)]
pub(crate) struct SomePoints<'a, P> {
    pub(crate) points: &'a P,
    pub(crate) methods: &'a [Token],
}

/// The method that a row stands for; nil, of which nothing is known, where there is none.
#[tactic(auto, unfolding(crate::specs::Points::nth_listed))]
fn method_of(methods: &[Token], row: Token) -> Token
    ensures { result ≡ nth_listed methods.now row }
{
    let none = Token { table: 0, row: 0 };
    if row.table != METHOD_DEF || row.row == 0 {
        return none;
    }
    match methods.get(row.row as usize - 1) {
        Some(method) => *method,
        None => none,
    }
}

impl<P: PointSource> PointSource for SomePoints<'_, P> {
    ghost debug = { λ s. debug_of_rows s.methods.now (P.debug s.points.now) };

    ghost said = { λ s t. P.said s.points.now (nth_listed s.methods.now t) };

    ghost documents = { λ s t. P.documents s.points.now (nth_listed s.methods.now t) };

    ghost placed = { λ s. P.placed s.points.now };

    fn points(&self, alloc: Global, method: Token) -> Result<Points, AllocError> {
        self.points.points(alloc, method_of(self.methods, method))
    }

    fn document(&self, method: Token, number: u32) -> Option<DocumentRef<'_>> {
        self.points
            .document(method_of(self.methods, method), number)
    }

    fn document_place(&self, method: Token, number: u32) -> u64 {
        self.points
            .document_place(method_of(self.methods, method), number)
    }

    ghost knows = { λ s t. P.knows s.points.now (nth_listed s.methods.now t) };
}
