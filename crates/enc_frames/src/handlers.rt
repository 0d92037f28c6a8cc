//! Handlers that begin and end in a frame (ECMA-335 I.12.4.2, III.3.35, III.3.46).
ghost use Rattle.std.specs.Prelude.{◌≡◌, ◌∷◌, [], ◌<◌, ◌==◌, length, IfOk};
ghost use Rattle.enc_unwind.specs.Search.{is_in_range, handlers_of};
ghost use Rattle.enc_frames.specs.Callers.{first_if_any, without_first};
ghost use Rattle.enc_frames.specs.Does.{Does};
ghost use Rattle.enc_frames.specs.Handlers.{handler_range, pruned, gone_to, start, left_by};
ghost use Rattle.enc_frames.specs.HandlersSeen.{own_clauses};
ghost use Rattle.std.specs.Prelude.{Ok};

use crate::frame::Frame;
use crate::handler::{Reason, Running};
use crate::stop::Stop;
use enc_il::clause;
use enc_opcodes::CodeRef;
use std::alloc::{AllocError, Global};
use std::marker::Model;

/// Where the handler of a clause stands, from its first byte to one past its last.
#[tactic(auto, unfolding(crate::specs::Handlers::handler_range))]
pub(crate) fn handler_range(code: &CodeRef<'_>, number: u32) -> (u32, u32)
    ensures { result ≡ handler_range (handlers_of code.now.sections.now) number }
{
    match clause(code, number) {
        None => (0, 0),
        Some(clause) => clause.handler,
    }
}

/// Whether an offset lies in a range.
pub(crate) fn is_within(range: (u32, u32), offset: u32) -> bool
    ensures { result ≡ is_in_range range offset }
{
    range.0 <= offset && offset < range.1
}

/// The handlers that run in a frame; their list has the last begun first.
#[derive(Drop)]
pub(crate) struct RunningHandlers {
    items: Vec<Running>,
}

impl Model for RunningHandlers {
    ghost use Rattle.std.specs.Prelude.{List, reverse};
    ghost use Rattle.enc_frames.specs.declared.handler.Running.{Running as TheRunning};

    ghost Value = { List TheRunning };

    ghost view = { λ r. reverse r.items.items };
}

/// Those of these handlers within which an offset lies.
#[tactic(auto, unfolding(crate::specs::Handlers::pruned))]
fn kept(
    alloc: Global,
    code: &CodeRef<'_>,
    offset: u32,
    running: &[Running],
) -> Result<Vec<Running>, AllocError>
    ensures { IfOk result (λ l. l.items ≡ pruned (handlers_of code.now.sections.now) offset running.now) }
{
    let mut kept = Vec::new(alloc);
    for k in 0..running.len() {
        let handler = running[k];
        if is_within(handler_range(code, handler.clause), offset) {
            kept.push(handler)?;
        }
    }
    Ok(kept)
}

impl RunningHandlers {
    /// None. It takes no memory.
    pub(crate) fn begin(alloc: Global) -> RunningHandlers
        ensures { result ≡ [] }
    {
        RunningHandlers {
            items: Vec::new(alloc),
        }
    }

    /// Whether there are none.
    pub(crate) fn is_empty(&self) -> bool
        ensures { result ≡ (length self.now == 0) }
    {
        self.items.is_empty()
    }

    /// Those that still run at an offset.
    #[tactic(auto, using(crate::proofs::Reversed::filter_seen), unfolding(crate::specs::Handlers::pruned))]
    pub(crate) fn kept(
        &self,
        alloc: Global,
        code: &CodeRef<'_>,
        offset: u32,
    ) -> Result<RunningHandlers, AllocError>
        ensures { IfOk result (λ r. r ≡ pruned (handlers_of code.now.sections.now) offset self.now) }
    {
        let items = kept(alloc, code, offset, self.items.as_slice())?;
        Ok(RunningHandlers { items })
    }

    /// The last begun, None where none runs.
    pub(crate) fn last(&self) -> Option<Running>
        ensures { result ≡ first_if_any self.now }
    {
        let n = self.items.len();
        if n == 0 {
            return None;
        }
        Some(self.items[n - 1])
    }

    /// The last begun ends, where one runs.
    pub(crate) fn end_last(&mut self)
        ensures { self.new ≡ without_first self.old }
    {
        let _ = self.items.pop();
    }

    /// Those before the last begun.
    pub(crate) fn before_last(&self, alloc: Global) -> Result<RunningHandlers, AllocError>
        ensures { IfOk result (λ r. r ≡ without_first self.now) }
    {
        let mut items = Vec::new(alloc);
        items.extend_from_slice(self.items.as_slice())?;
        let mut handlers = RunningHandlers { items };
        handlers.end_last();
        Ok(handlers)
    }

    /// The same with one more begun.
    #[tactic(auto, using(crate::proofs::Reversed::one_more))]
    fn with(mut self, handler: Running) -> Result<RunningHandlers, AllocError>
        ensures { IfOk result (λ r. r ≡ handler ∷ self) }
    {
        self.items.push(handler)?;
        Ok(self)
    }
}

impl Frame {
    /// The frame goes to an offset with nothing on its stack.
    #[tactic(auto, unfolding(crate::specs::Handlers::gone_to))]
    pub(crate) fn go_to(&mut self, alloc: Global, offset: u32) -> Result<(), Stop>
        ensures { Does result self.new self.old (Ok (gone_to (own_clauses self.old) offset self.old)) }
    {
        let running = self.running.kept(alloc, &self.body(), offset)?;
        self.running = running;
        self.offset = offset;
        self.stack.clear();
        Ok(())
    }

    /// The handler of a clause begins.
    #[tactic(auto, unfolding(crate::specs::Handlers::start, crate::specs::Handlers::gone_to))]
    pub fn start(&mut self, alloc: Global, handler: Running) -> Result<(), Stop>
        ensures { Does result self.new self.old
            (Ok (start (own_clauses self.old) handler.clause handler.origin handler.reason self.old)) }
    {
        let code = self.body();
        let begin = handler_range(&code, handler.clause).0;
        let running = self.running.kept(alloc, &code, begin)?;
        let running = running.with(handler)?;
        self.running = running;
        self.offset = begin;
        self.stack.clear();
        Ok(())
    }

    /// The frame is on its way from an offset to another: the handler of the next clause begins, and where
    /// there is none the frame is there.
    pub(crate) fn leave_by(
        &mut self,
        alloc: Global,
        origin: u32,
        goal: u32,
        next: Option<u32>,
    ) -> Result<(), Stop>
        ensures { Does result self.new self.old (Ok (left_by (own_clauses self.old) origin goal next self.old)) }
    {
        match next {
            None => self.go_to(alloc, goal),
            Some(clause) => self.start(
                alloc,
                Running {
                    clause,
                    origin,
                    reason: Reason::Leave(goal),
                },
            ),
        }
    }
}
