//! A watcher that fails.
ghost use Rattle.std.specs.Prelude.{◌≡◌, [], Some};
ghost use Rattle.enc_watch.specs.declared.event.WatchKind.TheVariants as kind;

use crate::event::{Event, HearError, WatchKind};
use crate::trace::Trace;
use crate::watcher::Watcher;
use std::alloc::{AllocError, Global};
use std::marker::Model;

/// Hears so many events and fails at each one more. It reports as a trace does.
#[derive(Drop)]
pub struct Failing {
    trace: Trace,
    after: u32,
}

impl Model for Failing {
    ghost use Rattle.enc_watch.specs.Watched.{Hearing};

    ghost Value = { Hearing };

    ghost view = { λ f. record { events = f.trace; after = f.after } };
}

impl Failing {
    /// A watcher that fails after so many events. It has heard nothing and takes no memory.
    pub fn begin(alloc: Global, after: u32) -> Failing
        ensures { result ≡ record { events = []; after = after } }
    {
        Failing {
            trace: Trace::begin(alloc),
            after,
        }
    }
}

impl Watcher for Failing {
    ghost watching = { λ f. record { kind = kind.Failing; limit = Some f.after; heard = f.events } };

    fn kind(&self) -> WatchKind {
        WatchKind::Failing
    }

    fn hear(&mut self, event: Event) -> Result<(), HearError> {
        if self.after as usize <= self.trace.len() {
            return Err(HearError::Failed);
        }
        self.trace.hear(event)
    }

    fn report(&self, out: &mut Vec<u8>) -> Result<(), AllocError> {
        self.trace.report(out)
    }
}
