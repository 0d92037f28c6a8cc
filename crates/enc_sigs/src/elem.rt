ghost use Rattle.std.specs.Prelude.{◌≡◌, slice_get, option_map};
ghost use Rattle.enc_sigs.specs.Tree.{trees, forest_of};

use enc_base::Token;
use std::marker::Model;

/// A type in a signature (ECMA-335 II.23.2.12), or what stands in its place: `41` is the sentinel
/// around the parameter behind it (II.23.2.2), and 0 holds numbers of an array or of a function
/// pointer.
#[derive(Debug, Drop)]
pub struct Elem {
    /// Its first byte (II.23.1.16).
    pub element: u8,
    /// The token behind it, nil where there is none.
    pub token: Token,
    /// The number behind it: of a generic parameter, a rank, a size, the 32 bits of a lower bound,
    /// the `11` or `12` of a generic instance, the first byte of a function pointer's method, the
    /// count of its generic parameters.
    pub number: u32,
    pub(crate) kids: Vec<Elem>,
}

impl Model for Elem {
    ghost use Rattle.std.specs.Prelude.{◌+◌};
    ghost use Rattle.std.proofs.Common.{arith};
    ghost use Rattle.enc_sigs.specs.Tree.{Tree, coded_tree, forest_of, tree_size, most_size};

    ghost Value = { Tree };

    ghost coded = { coded_tree };

    ghost view = { λ a. record {
      element = a.element;
      token = a.token;
      number = a.number;
      kids = forest_of a.kids.items;
    } };

    ghost size = { tree_size };

    ghost size_decreases = { λ a h. omega (arith, most_size a.kids.items) };
}

fn nth(kids: &[Elem], i: u32) -> Option<&Elem>
    ensures { option_map (λ x. x.now) result ≡ slice_get kids.now i }
{
    kids.get(i as usize)
}

impl Elem {
    /// The i-th part within, from 0; None past the end. Of an array these are its type, its sizes
    /// and its lower bounds; of a function pointer the count of its generic parameters, its return
    /// type and its parameters.
    pub fn kid(&self, i: u32) -> Option<&Elem>
        ensures { option_map (λ x. x.now) result ≡ slice_get (trees self.now.kids) i }
    {
        nth(self.kids(), i)
    }

    /// The parts within.
    pub(crate) fn kids(&self) -> &[Elem]
        ensures list { result.now ≡ trees self.now.kids }
        ensures forest { forest_of result.now ≡ self.now.kids }
    {
        self.kids.as_slice()
    }
}
