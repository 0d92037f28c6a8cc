//! A watcher that reports each event.
ghost use Rattle.std.specs.Prelude.{◌≡◌, [], None, length};
ghost use Rattle.enc_watch.specs.declared.event.WatchKind.TheVariants as kind;

use crate::event::{Event, HearError, WatchKind};
use crate::lines::trace_report;
use crate::watcher::Watcher;
use std::alloc::{AllocError, Global};
use std::marker::Model;

/// Hears every event, and reports a line for each.
#[derive(Drop)]
pub struct Trace {
    events: Vec<Event>,
}

impl Model for Trace {
    ghost use Rattle.std.specs.Prelude.{List};
    ghost use Rattle.enc_watch.specs.declared.event.Event.{Event};

    ghost Value = { List Event };

    ghost view = { λ t. t.events.items };
}

impl Trace {
    /// A trace that has heard nothing, which takes no memory.
    pub fn begin(alloc: Global) -> Trace
        ensures { result ≡ [] }
    {
        Trace {
            events: Vec::new(alloc),
        }
    }

    /// How many events were heard.
    pub(crate) fn len(&self) -> usize
        ensures { result ≡ length self.now }
    {
        self.events.len()
    }
}

impl Watcher for Trace {
    ghost watching = { λ t. record { kind = kind.Trace; limit = None; heard = t } };

    fn kind(&self) -> WatchKind {
        WatchKind::Trace
    }

    fn hear(&mut self, event: Event) -> Result<(), HearError> {
        self.events.push(event)?;
        Ok(())
    }

    fn report(&self, out: &mut Vec<u8>) -> Result<(), AllocError> {
        let text = trace_report(*self.events.allocator(), &self.events)?;
        out.extend_from_slice(&text)
    }
}
