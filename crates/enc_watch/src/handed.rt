//! Watchers that are there to be attached.
ghost use Rattle.std.specs.Prelude.{◌≡◌, ◌<◌, IfSome, IfNone, length, map, option_map, remove, slice_get};
ghost use Rattle.enc_watch.specs.Audience.{first_of_kind, is_kind, without_kind};

use crate::event::WatchKind;
use crate::watcher::Watcher;
use std::marker::Model;

/// Watchers that are there to be attached, in the order in which they were handed in.
#[derive(Drop)]
pub struct Handed<W: Watcher> {
    watchers: Vec<W>,
}

impl<W: Watcher> Model for Handed<W> {
    ghost use Rattle.std.specs.Prelude.{List, map};
    ghost use Rattle.enc_watch.specs.Audience.{Watching};

    ghost Value = { List Watching };

    ghost view = { λ h. map W.watching h.watchers.items };
}

/// Whether two kinds are one.
fn is_kind(a: WatchKind, b: WatchKind) -> bool
    ensures { result ≡ is_kind a b }
{
    match (a, b) {
        (WatchKind::Trace, WatchKind::Trace) => true,
        (WatchKind::Cover, WatchKind::Cover) => true,
        (WatchKind::Failing, WatchKind::Failing) => true,
        _ => false,
    }
}

/// The place of the first of a kind, None where there is none.
fn place_of<W: Watcher>(watchers: &[W], kind: WatchKind) -> Option<usize>
    ensures none { IfNone result (first_of_kind kind
        (map W.watching watchers.now) ≡ None) }
    ensures low { IfSome result (λ i. i < length watchers.now) }
    ensures first { IfSome result (λ i. first_of_kind kind (map W.watching watchers.now) ≡ slice_get
        (map W.watching watchers.now) i) }
    ensures rest { IfSome result (λ i. without_kind kind (map W.watching watchers.now)
        ≡ remove (map W.watching watchers.now) i) }
    ensures all { IfNone result (without_kind kind (map W.watching watchers.now) ≡ map W.watching watchers.now) }
{
    for i in 0..watchers.len() {
        if is_kind(watchers[i].kind(), kind) {
            return Some(i);
        }
    }
    None
}

impl<W: Watcher> Handed<W> {
    /// These watchers.
    pub fn from_vec(watchers: Vec<W>) -> Handed<W>
        ensures { result ≡ map W.watching watchers.items }
    {
        Handed { watchers }
    }

    /// Takes the first of a kind, None where there is none.
    pub fn take(&mut self, kind: WatchKind) -> Option<W>
        ensures taken { option_map W.watching result
            ≡ first_of_kind kind self.old }
        ensures left { self.new ≡ without_kind kind self.old }
    {
        match place_of(&self.watchers, kind) {
            None => None,
            Some(i) => Some(self.watchers.remove(i)),
        }
    }
}
