//! What C holds: one pointer, null where it is closed.
ghost use Rattle.std.specs.Prelude.{◌≡◌, Option, Some, None, MatchOption};
ghost use Rattle.enc_c.specs.State.{State};
ghost use Rattle.enc_c.specs.Handle.{held_coded, owns_held};

use crate::held::Held;
use crate::loose::Loose;
use std::alloc::Global;
use std::marker::Model;
use std::mem::replace;
use std::ptr::null_mut;

/// A module that C holds. It means nothing where it is closed, and else a base with the deltas that follow it.
#[repr(C)]
pub struct Handle {
    at: *mut u8,
    pub ghost held: { Option State } by { held_coded },
}

impl Model for Handle {
    ghost also_owns = { λ h. owns_held h.at h.held };
}

impl Handle {
    /// A closed handle.
    pub fn closed() -> Handle
        ensures { result.held ≡ None }
    {
        Handle { at: null_mut() }
    }

    /// A handle of what stands behind a pointer.
    fn of(loose: Loose<Held, Global>) -> Handle
        ensures { result.held ≡ Some loose.value }
    {
        let Loose { at, alloc: _ } = loose;
        Handle { at: at as *mut u8 }
    }

    /// What the handle holds; None where it is closed.
    pub fn into_loose(self, alloc: Global) -> Option<Loose<Held, Global>>
        ensures { MatchOption result (self.held ≡ None) (λ l. self.held ≡ Some l.value) }
    {
        let Handle { at } = self;
        if at.is_null() {
            None
        } else {
            Some(Loose {
                at: at as *mut Held,
                alloc,
            })
        }
    }
}

/// Takes what a handle holds, which leaves it closed.
pub fn take(handle: &mut Handle, alloc: Global) -> Option<Box<Held, Global>>
    ensures closed { handle.new.held ≡ None }
    ensures held { MatchOption result (handle.old.held ≡ None) (λ b. handle.old.held ≡ Some b.value) }
{
    match replace(handle, Handle::closed()).into_loose(alloc) {
        Some(loose) => Some(loose.into_box()),
        None => None,
    }
}

/// Has a handle hold this. What it held before is freed.
pub fn put(handle: &mut Handle, alloc: Global, held: Box<Held, Global>)
    ensures { handle.new.held ≡ Some held.value }
{
    match replace(handle, Handle::of(Loose::of(held))).into_loose(alloc) {
        Some(loose) => drop(loose.into_box()),
        None => {}
    }
}
