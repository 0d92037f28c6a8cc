//! Frames on their way out of protected code, and handlers that end (ECMA-335 I.12.4.2, III.3.35, III.3.46).
ghost use Rattle.std.specs.Prelude.{◌≡◌, Ok, Some, option_map};
ghost use Rattle.enc_frames.specs.Callers.{without_first};
ghost use Rattle.enc_frames.specs.Does.{Does};
ghost use Rattle.enc_frames.specs.Handlers.{ending_handler, leave_to, left_by, taken_in};
ghost use Rattle.enc_frames.specs.HandlersSeen.{own_clauses};
ghost use Rattle.enc_unwind.specs.Search.{next_among};
ghost use Rattle.enc_unwind.specs.declared.way_out.WayOut.TheVariants as TheWay;

use crate::frame::Frame;
use crate::handler::Running;
use crate::handlers::{handler_range, is_within};
use crate::stop::Stop;
use enc_objects::Value;
use enc_unwind::{WayOut, next_handler};
use std::alloc::Global;
use std::mem;

impl Frame {
    /// `leave` to an offset (ECMA-335 III.3.46).
    #[tactic(auto, unfolding(crate::specs::Handlers::leave_to))]
    pub fn leave(&mut self, alloc: Global, goal: u32) -> Result<(), Stop>
        ensures { Does result self.new self.old (Ok (leave_to (own_clauses self.old) goal self.old)) }
    {
        let next = next_handler(&self.body(), None, self.offset, WayOut::Leave(goal));
        self.leave_by(alloc, self.offset, goal, next)
    }
}

impl Frame {
    /// The handler of a clause begins with a thrown object.
    #[tactic(auto, unfolding(crate::specs::Handlers::gone_to))]
    pub fn take(&mut self, alloc: Global, clause: u32, object: u32) -> Result<(), Stop>
        ensures { Does result self.new self.old (Ok (taken_in (own_clauses self.old) clause object self.old)) }
    {
        let code = self.body();
        let begin = handler_range(&code, clause).0;
        let running = self.running.kept(alloc, &code, begin)?;
        self.stack.be_single(Value::Obj(object))?;
        self.running = running;
        self.offset = begin;
        Ok(())
    }
}

impl Frame {
    /// The handler that ends where it stands, None where none does.
    pub fn ending(&self) -> Option<Running>
        ensures { option_map (λ r. (r, without_first self.now.running)) result
            ≡ ending_handler (own_clauses self.now) self.now.offset self.now.running }
    {
        let handler = self.running.last()?;
        let range = handler_range(&self.body(), handler.clause);
        if !is_within(range, self.offset) {
            return None;
        }
        Some(handler)
    }

    /// The last handler begun ends, where one runs.
    pub fn end_handler(&mut self)
        ensures { self.new ≡ record self.old { running = without_first self.old.running } }
    {
        self.running.end_last();
    }

    /// The last handler begun ends, and the way out by `leave` goes on behind it. Without memory nothing changes.
    pub fn resume(&mut self, alloc: Global, handler: Running, goal: u32) -> Result<(), Stop>
        ensures { Does result self.new self.old (Ok (left_by (own_clauses self.old) handler.origin goal
            (next_among (own_clauses self.old) (Some handler.clause) handler.origin (TheWay.Leave goal))
            (record self.old { running = without_first self.old.running }))) }
    {
        let next = next_handler(
            &self.body(),
            Some(handler.clause),
            handler.origin,
            WayOut::Leave(goal),
        );
        let rest = self.running.before_last(alloc)?;
        let running = mem::replace(&mut self.running, rest);
        match self.leave_by(alloc, handler.origin, goal, next) {
            Ok(()) => Ok(()),
            Err(stop) => {
                self.running = running;
                Err(stop)
            }
        }
    }
}
