//! What C holds of a session: one pointer, null where it is closed.
ghost use Rattle.std.specs.Prelude.{◌≡◌, Option, Some, None, MatchOption};
ghost use Rattle.enc_session.specs.Recording.{Recorded};
ghost use Rattle.enc_c.specs.SessionHandle.{owns_session, session_coded};

use crate::loose::Loose;
use enc_session::Recording;
use std::alloc::Global;
use std::marker::Model;
use std::mem::replace;
use std::ptr::null_mut;

/// A session that C holds. It means nothing where it is closed, and else a session that is recorded.
#[repr(C)]
pub struct SessionHandle {
    at: *mut u8,
    pub ghost held: { Option Recorded } by { session_coded },
}

impl Model for SessionHandle {
    ghost also_owns = { λ h. owns_session h.at h.held };
}

impl SessionHandle {
    /// A closed handle.
    pub fn closed() -> SessionHandle
        ensures { result.held ≡ None }
    {
        SessionHandle { at: null_mut() }
    }

    /// A handle of what stands behind a pointer.
    fn of(loose: Loose<Recording, Global>) -> SessionHandle
        ensures { result.held ≡ Some loose.value }
    {
        let Loose { at, alloc: _ } = loose;
        SessionHandle { at: at as *mut u8 }
    }

    /// What the handle holds; None where it is closed.
    pub fn into_loose(self, alloc: Global) -> Option<Loose<Recording, Global>>
        ensures { MatchOption result (self.held ≡ None) (λ l. self.held ≡ Some l.value) }
    {
        let SessionHandle { at } = self;
        if at.is_null() {
            None
        } else {
            Some(Loose {
                at: at as *mut Recording,
                alloc,
            })
        }
    }
}

/// Takes what a handle holds, which leaves it closed.
pub fn take_session(handle: &mut SessionHandle, alloc: Global) -> Option<Box<Recording, Global>>
    ensures closed { handle.new.held ≡ None }
    ensures held { MatchOption result (handle.old.held ≡ None) (λ b. handle.old.held ≡ Some b.value) }
{
    match replace(handle, SessionHandle::closed()).into_loose(alloc) {
        Some(loose) => Some(loose.into_box()),
        None => None,
    }
}

/// Has a handle hold this. What it held before is freed.
pub fn put_session(handle: &mut SessionHandle, alloc: Global, held: Box<Recording, Global>)
    ensures { handle.new.held ≡ Some held.value }
{
    match replace(handle, SessionHandle::of(Loose::of(held))).into_loose(alloc) {
        Some(loose) => drop(loose.into_box()),
        None => {}
    }
}
