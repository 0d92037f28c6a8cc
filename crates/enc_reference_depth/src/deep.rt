//! The references that lie too deep in one another.
ghost use Rattle.std.specs.Prelude.{◌≡◌, IfOk};
ghost use Rattle.enc_reference_depth.specs.Depth.{first_deep};
ghost use Rattle.enc_plain.specs.Sound.{IsSound};

use crate::depths::{all_depths, first_deep_row};
use enc_base::Token;
use enc_base::tables::{TYPE_REF, TYPE_SPEC};
use enc_plain::ModuleView;
use std::alloc::{AllocError, Global};

/// The first TypeRef of depth 100, or else the first such TypeSpec: a token has one more than its scope,
/// or than the deepest token in its signature (ECMA-335 II.22.38, II.22.39). The time is linear in
/// what the tables and signatures say, a hundred rounds over the tokens that they name.
pub fn first_deep<V: ModuleView>(alloc: Global, view: &V) -> Result<Option<Token>, AllocError>
    requires sound { IsSound (V.meaning view.now) }
    ensures { IfOk result (λ t. t ≡ first_deep (V.meaning view.now)) }
{
    let refs = view.count(TYPE_REF);
    let depths = all_depths(alloc, view)?;
    match first_deep_row(&depths, 0, TYPE_REF, refs) {
        Some(token) => Ok(Some(token)),
        None => Ok(first_deep_row(&depths, refs, TYPE_SPEC, view.count(TYPE_SPEC))),
    }
}
