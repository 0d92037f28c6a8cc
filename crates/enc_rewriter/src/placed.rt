//! The code of an image that is written: bodies and initial bytes of fields, and where each stands.
ghost use Rattle.std.specs.Prelude.{◌≡◌, ◌+◌, ◌<◌, ◌≤◌, ◌^◌, ℕ, length, slice_index, IfOk};
ghost use Rattle.enc_meta.specs.Built.{heaps_built};
ghost use Rattle.enc_meta.specs.Heaps.{user_at};
ghost use Rattle.enc_rewriter.specs.Placed.{IsPlaced};
ghost use Rattle.enc_rewriter.specs.Standing.{MayPlaceCode};
ghost use Rattle.enc_rewriter.specs.Weight.{bodies_weight, fields_weight};

use crate::bodies::{PlacedBodies, place_bodies};
use crate::fields::place_fields;
use enc_meta::HeapBuilder;
use enc_plain::ModuleView;
use std::alloc::{AllocError, Global};
use std::marker::Model;

/// The code of an image: bodies and initial bytes of fields, and the RVA of each, 0 for none
/// (ECMA-335 II.22.18, II.22.26).
#[derive(Drop)]
pub struct PlacedCode {
    code: Vec<u8>,
    bodies: Vec<u32>,
    fields: Vec<u32>,
}

impl Model for PlacedCode {
    ghost use Rattle.enc_rewriter.specs.Placed.{Placed};

    ghost Value = { Placed };

    ghost view = { λ p. record { code = p.code.items; bodies = p.bodies.items; fields = p.fields.items } };
}

/// The RVA with a number, 0 past the end.
fn rva_at(rvas: &[u32], n: usize) -> u32
    ensures { result ≡ slice_index rvas.now n }
{
    if n < rvas.len() { rvas[n] } else { 0 }
}

impl PlacedCode {
    /// The RVA of a method's body, 0 for none. Methods count from 0.
    pub fn body(&self, n: usize) -> u32
        ensures { result ≡ slice_index self.now.bodies n }
    {
        rva_at(&self.bodies, n)
    }

    /// The RVA of the bytes of a row of FieldRVA, 0 for none. Rows count from 0.
    pub fn field(&self, n: usize) -> u32
        ensures { result ≡ slice_index self.now.fields n }
    {
        rva_at(&self.fields, n)
    }

    /// The code, which begins at `enc_pe::CODE_RVA`.
    pub fn code(&self) -> &[u8]
        ensures { result.now ≡ self.now.code }
    {
        &self.code
    }
}

/// Each number of four bytes is one.
fn words_law(words: &[u32])
    ensures { (n : ℕ) → slice_index words.now n < 2 ^ 32 }
{
    let _all = &words[..];
}

/// Places the bodies of all methods, their user texts named in the heaps, and the initial bytes of
/// all fields.
pub(crate) fn placed_code<V: ModuleView>(
    alloc: Global,
    view: &V,
    heaps: &mut HeapBuilder,
) -> Result<PlacedCode, AllocError>
    requires { MayPlaceCode (V.meaning view.now) heaps.old }
    ensures placed { IfOk result (λ p. IsPlaced (V.meaning view.now) (user_at (heaps_built heaps.old).users) p) }
    ensures size { IfOk result (λ p. length p.code ≤ bodies_weight (V.meaning view.now) + fields_weight
        (V.meaning view.now) + 4096) }
    ensures same { heaps.new ≡ heaps.old }
{
    let placed = match place_bodies(alloc, view, heaps) {
        Ok(placed) => placed,
        Err(fault) => return Err(fault),
    };
    let PlacedBodies {
        mut code,
        rvas: bodies,
    } = placed;
    let fields = match place_fields(alloc, view, &mut code) {
        Ok(fields) => fields,
        Err(fault) => return Err(fault),
    };
    words_law(&bodies);
    words_law(&fields);
    Ok(PlacedCode {
        code,
        bodies,
        fields,
    })
}
