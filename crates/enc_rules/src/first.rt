//! The first rule that an edit list breaks after its chain.
ghost use Rattle.std.specs.Prelude.{◌≡◌, false, IfOk, IsTrue, length};
ghost use Rattle.enc_base.specs.Order.{first_below};
ghost use Rattle.enc_edit_list.specs.Form.{list_fits};
ghost use Rattle.enc_plain.specs.Sound.{IsSound};
ghost use Rattle.enc_rules.specs.First.{first_at, edit_rules, first_edit};
ghost use Rattle.enc_rules.specs.Rules.{heaps_are_full};

use crate::bodies::body_is_broken;
use crate::cells::token_is_missing;
use crate::context::Context;
use crate::heaps::heap_passes;
use crate::members::{field_is_out_of_layout, member_has_twin, method_has_no_slot};
use crate::order::sooner;
use crate::owners::{owner_is_missing, table_is_closed};
use crate::points::points_are_bad;
use crate::rows::{context_of, row_is_edited_twice};
use crate::signatures::{locals_are_bad, signature_is_bad};
use crate::whole::first_of_list;
use enc_edit_list::{Added, EditList};
use enc_plain::ChainView;
use std::alloc::{AllocError, Global};

/// The first edit that breaks a rule, counted from 1, with the first rule that it breaks. Each rule goes over
/// the edits by itself.
fn first_of_edits<C: ChainView>(
    alloc: Global,
    context: &Context<'_, C>,
) -> Result<Option<(u8, u32)>, AllocError>
    requires sound { IsSound context.now.chain.plain }
    requires room { heaps_are_full context.now.chain context.now.list ≡ false }
    ensures { IfOk result (λ r. r ≡ first_below (first_at edit_rules context.now.chain context.now.list)
        (length context.now.list.edits)) }
{
    let first = sooner(None, 5, heap_passes(alloc, context)?);
    let first = sooner(first, 6, row_is_edited_twice(alloc, context)?);
    let first = sooner(first, 10, owner_is_missing(context));
    let first = sooner(first, 12, table_is_closed(context));
    let first = sooner(first, 13, token_is_missing(context));
    let first = sooner(first, 16, body_is_broken(alloc, context)?);
    let first = sooner(first, 18, field_is_out_of_layout(context));
    let first = sooner(first, 19, method_has_no_slot(context));
    let first = sooner(first, 20, member_has_twin(alloc, context)?);
    let first = sooner(first, 21, signature_is_bad(context));
    let first = sooner(first, 23, locals_are_bad(context));
    Ok(sooner(first, 22, points_are_bad(alloc, context)?))
}

/// The first rule that an edit list breaks after a chain, with the number of the edit: 0 for the list as a
/// whole (rules 4, 5 and 24), and else counted from 1 (5, 6, 10, 12, 13, 16, 18 to 21, 23 and 22 in this
/// order). None where it breaks none. It takes memory for what the list brings for each heap, and for some
/// numbers for each edit.
#[tactic(auto, unfolding(crate::specs::First::first_edit))]
pub fn first_broken<C: ChainView>(
    alloc: Global,
    chain: &C,
    list: &EditList,
) -> Result<Option<(u8, u32)>, AllocError>
    requires sound { IsSound (C.chain chain.now).plain }
    requires form { IsTrue (list_fits list.now) }
    ensures { IfOk result (λ r. r ≡ first_edit (C.chain chain.now) list.now) }
{
    let added = Added::of(alloc, &list.edits)?;
    if let Some(rule) = first_of_list(chain, list, &added) {
        return Ok(Some((rule, 0)));
    }
    let context = context_of(alloc, chain, list, added)?;
    first_of_edits(alloc, &context)
}
