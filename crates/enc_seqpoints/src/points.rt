//! The points of a method that were read.
ghost use Rattle.std.specs.Prelude.{◌≡◌, ◌<◌, ◌==◌, [], length, slice_get, Some, find};
ghost use Rattle.enc_seqpoints.specs.declared.point.Point.{Point as ThePoint};
ghost use Rattle.enc_seqpoints.specs.Grammar.{AreRising, method_points};

use crate::point::Point;
use std::alloc::Global;
use std::marker::Model;

/// The sequence points of a method, in the order of their offsets, and its local signature row.
#[derive(Debug, Drop)]
pub struct Points {
    pub(crate) locals: u32,
    pub(crate) items: Vec<Point>,
}

impl Model for Points {
    ghost use Rattle.enc_seqpoints.specs.Grammar.{AreRising, MethodPoints};

    ghost Value = { MethodPoints };

    ghost view = { λ p. record { locals = p.locals; points = p.items.items } };

    ghost invariant = { λ p. AreRising p.items.items };
}

impl Points {
    /// No points, and no local signature: what is known where nothing is told. It takes no memory.
    pub fn none(alloc: Global) -> Points
        ensures { result ≡ method_points 0 [] }
    {
        Points {
            locals: 0,
            items: Vec::new(alloc),
        }
    }

    /// The row of the method's local signature in StandAloneSig, 0 where it has none.
    pub fn locals(&self) -> u32
        ensures { result ≡ self.now.locals }
    {
        self.locals
    }

    /// How many points there are.
    pub fn len(&self) -> usize
        ensures { result ≡ length self.now.points }
    {
        self.items.len()
    }

    /// The i-th point, from 0.
    pub fn point(&self, i: usize) -> Point
        requires { i < length self.now.points }
        ensures { slice_get self.now.points i ≡ Some result }
    {
        self.items[i]
    }

    /// The point at an offset, None where none stands there. Its time is logarithmic in the number of points.
    pub fn at(&self, offset: u32) -> Option<Point>
        ensures { result ≡ find (λ (p : ThePoint). p.offset == offset) self.now.points }
    {
        match self.items.binary_search_by_key(&offset, |p| p.offset) {
            Ok(i) => Some(self.items[i]),
            Err(_) => None,
        }
    }

    /// The offsets of the points rise.
    pub fn rising(&self)
        ensures { AreRising self.now.points }
    {
        let _ = &self.items;
    }
}
