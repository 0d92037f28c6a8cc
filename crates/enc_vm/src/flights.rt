//! Thrown objects on their way, and what runs on the way (ECMA-335 I.12.4.2).
ghost use Rattle.std.specs.Prelude.{◌≡◌, ◌<◌, Some, None};
ghost use Rattle.enc_frames.specs.Callers.{without_first};
ghost use Rattle.enc_frames.specs.Does.{Does};
ghost use Rattle.enc_vm.specs.FlightsSeen.{FliesTo, Flies};
ghost use Rattle.enc_frames.specs.declared.handler.Reason.TheVariants as TheReason;
ghost use Rattle.enc_frames.specs.Handlers.{end_finally, resumed_by, is_taking, way_out, fly, flown, handled, object_taken, left_on};
ghost use Rattle.enc_frames.specs.HandlersSeen.{own_clauses};
ghost use Rattle.std.specs.Prelude.{Ok};

use crate::thread::Thread;
use enc_base::Token;
use enc_frames::{Flight, Reason, Running, Stop};
use enc_objects::Trap;
use enc_unwind::{WayOut, next_handler};
use std::alloc::Global;

impl Thread {
    /// Whether the innermost frame takes the object of a flight.
    fn is_taking(&self, flight: Flight) -> bool
        ensures { result ≡ is_taking self.now flight }
    {
        flight.frame == self.below.len()
    }

    /// How far the innermost frame's clauses run.
    fn way_out(&self, flight: Flight) -> WayOut
        ensures { result ≡ way_out self.now flight }
    {
        if self.is_taking(flight) {
            return WayOut::Before(flight.clause);
        }
        WayOut::All
    }
}

impl Thread {
    /// The way out by `leave` goes on behind a handler of the innermost frame, which ends.
    fn resume(&mut self, alloc: Global, handler: Running, goal: u32) -> Result<(), Stop>
        ensures { Does result self.new self.old (Ok (resumed_by (own_clauses self.old.top) self.old handler
            (TheReason.Leave goal) (record self.old.top { running = without_first self.old.top.running }))) }
    {
        self.top.resume(alloc, handler, goal)
    }

    /// `endfinally` (ECMA-335 III.3.35).
    #[tactic(auto, unfolding(enc_frames::specs::Handlers::end_finally))]
    pub(crate) fn end_finally(&mut self, alloc: Global) -> Result<(), Stop>
        ensures { Does result self.new self.old (end_finally (own_clauses self.old.top) self.old) }
    {
        let Some(handler) = self.top.ending() else {
            return Err(Stop::Trap(Trap::X2));
        };
        match handler.reason {
            Reason::Leave(goal) => self.resume(alloc, handler, goal),
            Reason::Flight(flight) => {
                self.top.end_handler();
                self.flight = Some(flight);
                Ok(())
            }
        }
    }
}

/// What a flight's step made of a task's frames.
#[derive(Clone, Copy, Debug, PartialEq, Eq)]
pub(crate) enum FlightEnd {
    /// The innermost frame goes on in a handler.
    Stays,
    /// The innermost frame was left, which was of this method.
    Left(Token),
    /// So was the last one, and the task ends.
    LeftLast(Token),
}

impl Thread {
    /// The handler of a clause begins on the way of an object.
    fn handle(&mut self, alloc: Global, flight: Flight, clause: u32) -> Result<(), Stop>
        ensures { Does result (Some self.new) (Some self.old)
            (Ok (handled (own_clauses self.old.top) self.old flight clause).thread) }
    {
        let on_way = Flight {
            tried: Some(clause),
            ..flight
        };
        self.top.start(
            alloc,
            Running {
                clause,
                origin: flight.origin,
                reason: Reason::Flight(on_way),
            },
        )?;
        self.flight = None;
        Ok(())
    }

    /// The innermost frame takes the object.
    fn take(&mut self, alloc: Global, flight: Flight) -> Result<(), Stop>
        ensures { Does result (Some self.new) (Some self.old)
            (Ok (object_taken (own_clauses self.old.top) self.old flight).thread) }
    {
        self.top.take(alloc, flight.clause, flight.object)?;
        self.flight = None;
        Ok(())
    }

    /// The innermost frame is left on the way of an object.
    fn leave_on(&mut self, flight: Flight) -> FlightEnd
        ensures { FliesTo result self.new self.old (left_on self.old flight self.old.below) }
    {
        let method = self.top.method();
        let Some(frame) = self.below.leave() else {
            return FlightEnd::LeftLast(method);
        };
        let origin = frame.offset().saturating_sub(1);
        self.top = frame;
        self.flight = Some(Flight {
            origin,
            tried: None,
            ..flight
        });
        FlightEnd::Left(method)
    }
}

impl Thread {
    /// A step of a task whose object is on its way: the handler of the next clause begins, or the object is
    /// taken, or the innermost frame is left. Without memory nothing changes.
    #[tactic(auto, unfolding(enc_frames::specs::Handlers::fly))]
    pub(crate) fn fly(&mut self, alloc: Global, flight: Flight) -> Result<FlightEnd, Stop>
        ensures { Flies result self.new self.old (fly (own_clauses self.old.top) self.old flight) }
    {
        let next = next_handler(
            &self.top.body(),
            flight.tried,
            flight.origin,
            self.way_out(flight),
        );
        let Some(clause) = next else {
            return self.take_or_leave(alloc, flight);
        };
        match self.handle(alloc, flight, clause) {
            Err(stop) => Err(stop),
            Ok(()) => Ok(FlightEnd::Stays),
        }
    }

    /// The object is taken by the innermost frame, or that is left.
    fn take_or_leave(&mut self, alloc: Global, flight: Flight) -> Result<FlightEnd, Stop>
        ensures { Flies result self.new self.old (flown (own_clauses self.old.top) self.old flight None) }
    {
        if !self.is_taking(flight) {
            return Ok(self.leave_on(flight));
        }
        match self.take(alloc, flight) {
            Err(stop) => Err(stop),
            Ok(()) => Ok(FlightEnd::Stays),
        }
    }
}
