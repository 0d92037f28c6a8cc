//! Lines of methods, counted.
ghost use Rattle.std.specs.Prelude.{◌≡◌, ◌+◌, ◌-◌, ◌<◌, ◌^◌, ◌++◌, [], OnOk, IfOk, flat_map};
ghost use Rattle.enc_watch.specs.Watched.{hits_at, with_hit, hits_with, hits_in, hits_line, cover_text};
ghost use Rattle.enc_watch.specs.declared.method_line.MethodLine.{MethodLine};

use crate::event::Event;
use crate::method_line::MethodLine;
use enc_text::{push_decimal, push_long, push_str, push_token};
use std::alloc::{AllocError, Global};
use std::collections::BTreeMap;
use std::marker::Model;

/// The lines of methods that were heard, in their order, with how often each was.
#[derive(Drop)]
struct LineHits {
    counts: BTreeMap<MethodLine, u64>,
}

impl Model for LineHits {
    ghost use Rattle.enc_watch.specs.Watched.{Hits};

    ghost Value = { Hits };

    ghost view = { λ h. h.counts.entries };
}

impl LineHits {
    /// No lines, which take no memory.
    fn begin(alloc: Global) -> LineHits
        ensures { result ≡ [] }
    {
        LineHits {
            counts: BTreeMap::new(alloc),
        }
    }

    /// How often a line was heard.
    fn at(&self, at: MethodLine) -> u64
        ensures { result ≡ hits_at at self.now }
    {
        self.counts.get(&at).copied().unwrap_or(0)
    }

    /// Counts a line once more.
    #[tactic(auto, unfolding(crate::specs::Watched::with_hit))]
    fn hit(&mut self, at: MethodLine) -> Result<(), AllocError>
        requires { hits_at at self.old + 1 < 2 ^ 64 }
        ensures { OnOk result (self.new ≡ with_hit at self.old) }
    {
        let hits = self.at(at) + 1;
        match self.counts.insert(at, hits) {
            Ok(_) => Ok(()),
            Err(_) => Err(AllocError),
        }
    }

    /// Counts the line of an event, where it is of one.
    fn hear(&mut self, event: Event) -> Result<(), AllocError>
        requires { (at : MethodLine) → hits_at at self.old + 1 < 2 ^ 64 }
        ensures { OnOk result (self.new ≡ hits_with self.old event) }
    {
        match event {
            Event::Line { method, line, .. } => self.hit(MethodLine { method, line }),
            _ => Ok(()),
        }
    }

    /// The lines of events, counted.
    #[tactic(auto, unfolding(crate::specs::Watched::hits_in))]
    fn of(alloc: Global, heard: &[Event]) -> Result<LineHits, AllocError>
        ensures { IfOk result (λ hits. hits ≡ hits_in heard.now) }
    {
        let mut hits = LineHits::begin(alloc);
        for event in heard {
            hits.hear(*event)?;
        }
        Ok(hits)
    }

    /// A line of each, in their order.
    fn text(&self, alloc: Global) -> Result<Vec<u8>, AllocError>
        ensures { IfOk result (λ text. text.items ≡ flat_map hits_line self.now) }
    {
        let mut text = Vec::new(alloc);
        for (at, hits) in &self.counts {
            push_hits(alloc, *at, *hits, &mut text)?;
        }
        Ok(text)
    }
}

/// Appends a line of a method, a line of its source and how often that was heard.
#[tactic(auto, unfolding(crate::specs::Watched::hits_line))]
fn push_hits(alloc: Global, at: MethodLine, hits: u64, out: &mut Vec<u8>) -> Result<(), AllocError>
    ensures { OnOk result (out.new.items ≡ out.old.items ++ hits_line (at, hits)) }
{
    push_token(out, at.method)?;
    push_str(out, " ")?;
    push_decimal(alloc, out, at.line)?;
    push_str(out, " ")?;
    push_long(alloc, out, hits)?;
    push_str(out, "\n")
}

/// The report of a cover over these events.
#[tactic(auto, unfolding(crate::specs::Watched::cover_text))]
pub(crate) fn cover_report(alloc: Global, heard: &[Event]) -> Result<Vec<u8>, AllocError>
    ensures { IfOk result (λ text. text.items ≡ cover_text heard.now) }
{
    LineHits::of(alloc, heard)?.text(alloc)
}
