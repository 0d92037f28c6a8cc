//! A case that is drawn from a number: a base that no file holds, and edit lists that follow it.
ghost use Rattle.std.specs.Prelude.{◌≡◌, ◌≤◌, IfOk};
ghost use Rattle.enc_generator.specs.Generated.{generated_base, generated_lists};

use crate::base::make_base;
use crate::lists::{EditLists, make_lists};
use enc_memory_module::PlainModule;
use std::alloc::{AllocError, Global};

/// A base and the lists that follow it.
#[derive(Drop)]
pub struct Case {
    pub base: PlainModule,
    pub lists: EditLists,
}

/// The case of a number: a base of a thousand methods, and so many lists of twenty turns, each of which adds a method
/// or replaces a body. `AllocError` where there is no memory.
pub fn make_case(alloc: Global, start: u64, count: u32) -> Result<Case, AllocError>
    requires few { count ≤ 64 }
    ensures base { IfOk result (λ c. c.base.plain ≡ generated_base) }
    ensures lists { IfOk result (λ c. c.lists ≡ generated_lists start count) }
{
    let base = make_base(alloc)?;
    let lists = make_lists(alloc, start, count)?;
    Ok(Case { base, lists })
}
