//! A watcher that reports how often each line was heard.
ghost use Rattle.std.specs.Prelude.{◌≡◌, [], None};
ghost use Rattle.enc_watch.specs.declared.event.WatchKind.TheVariants as kind;

use crate::event::{Event, HearError, WatchKind};
use crate::hits::cover_report;
use crate::watcher::Watcher;
use std::alloc::{AllocError, Global};
use std::marker::Model;

/// Hears every event, and reports each line of a method that was heard, with how often it was.
#[derive(Drop)]
pub struct Cover {
    events: Vec<Event>,
}

impl Model for Cover {
    ghost use Rattle.std.specs.Prelude.{List};
    ghost use Rattle.enc_watch.specs.declared.event.Event.{Event};

    ghost Value = { List Event };

    ghost view = { λ c. c.events.items };
}

impl Cover {
    /// A cover that has heard nothing, which takes no memory.
    pub fn begin(alloc: Global) -> Cover
        ensures { result ≡ [] }
    {
        Cover {
            events: Vec::new(alloc),
        }
    }
}

impl Watcher for Cover {
    ghost watching = { λ c. record { kind = kind.Cover; limit = None; heard = c } };

    fn kind(&self) -> WatchKind {
        WatchKind::Cover
    }

    fn hear(&mut self, event: Event) -> Result<(), HearError> {
        self.events.push(event)?;
        Ok(())
    }

    fn report(&self, out: &mut Vec<u8>) -> Result<(), AllocError> {
        let text = cover_report(*self.events.allocator(), &self.events)?;
        out.extend_from_slice(&text)
    }
}
