//! The points of methods whose rows were moved.
ghost use Rattle.enc_compact.specs.Seen.{old_by, pdb_by};
ghost use Rattle.enc_schema.specs.Schema.{list_at};

use enc_base::Token;
use enc_plain::{DocumentRef, PointSource};
use enc_row_order::Order;
use enc_seqpoints::Points;
use std::alloc::{AllocError, Global};
use std::rc::Rc;

/// The sequence points of methods whose rows were moved: each has those that it had, which are lent.
#[derive(Drop)]
pub struct PlainPoints<'a, P: PointSource> {
    pub(crate) points: &'a P,
    pub(crate) order: Rc<Order>,
}

impl<P: PointSource> PointSource for PlainPoints<'_, P> {
    ghost debug = { λ s. pdb_by (list_at s.order.value) (P.debug s.points.now) };

    ghost said = { λ s t. P.said s.points.now (old_by (list_at s.order.value) t) };

    ghost documents = { λ s t. P.documents s.points.now (old_by (list_at s.order.value) t) };

    ghost placed = { λ s. P.placed s.points.now };

    fn points(&self, alloc: Global, method: Token) -> Result<Points, AllocError> {
        self.points.points(alloc, self.order.old(method))
    }

    fn document(&self, method: Token, number: u32) -> Option<DocumentRef<'_>> {
        self.points.document(self.order.old(method), number)
    }

    fn document_place(&self, method: Token, number: u32) -> u64 {
        self.points.document_place(self.order.old(method), number)
    }

    ghost knows = { λ s t. P.knows s.points.now (old_by (list_at s.order.value) t) };
}
