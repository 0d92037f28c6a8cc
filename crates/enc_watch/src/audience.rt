//! Watchers that are attached, and what is told to them.
ghost use Rattle.std.specs.Prelude.{◌≡◌, ◌≢◌, ◌+◌, ◌<◌, ◌≤◌, ◌^◌, ◌++◌, ◌∷◌, [], IfOk, IfErr, OnOk, OnErr, IfSome, IfNone, length, option_map, remove, slice_get, vec_len, vec_capacity};
ghost use Rattle.enc_watch.specs.Audience.{AreTold, Seat, attached, fault_room, reports, seat_at, without};
ghost use Rattle.enc_watch.specs.Telling.{IsHeardAt, IsEventTold};

use crate::attached::Attached;
use crate::event::{Event, HearError};
use crate::watcher::Watcher;
use std::alloc::{AllocError, Global};
use std::marker::Model;

/// Watchers that are attached, in order of their numbers, which count from 1 and are given once.
#[derive(Drop)]
pub struct Audience<W: Watcher> {
    seats: Vec<Attached<W>>,
    given: u32,
    alloc: Global,
}

impl<W: Watcher> Model for Audience<W> {
    ghost use Rattle.enc_watch.specs.Audience.{Seated};

    ghost Value = { Seated };

    ghost view = { λ a. record { seats = a.seats.items; given = a.given } };
}

/// Tells an event to the watcher at a place.
fn hear_at<W: Watcher>(
    seats: &mut Vec<Attached<W>>,
    i: usize,
    event: Event,
) -> Result<(), HearError>
    requires { i < length seats.old.items }
    ensures at { IsHeardAt result event i seats.new.items seats.old.items }
    ensures len { vec_len seats.new ≡ vec_len seats.old }
{
    match seats.get_mut(i) {
        Some(seat) => seat.hear(event),
        None => unreachable!(),
    }
}

/// Tells an event to all, in order of number. One that doesn't hear it is gone, and a line says so.
fn tell_event<W: Watcher>(seats: &mut Vec<Attached<W>>, event: Event, out: &mut Vec<u8>)
    requires { vec_len out.old + fault_room seats.old.items ≤ vec_capacity out.old }
    ensures told { IsEventTold event seats.new.items seats.old.items out.new.items out.old.items }
    ensures room { vec_len out.new + fault_room seats.new.items ≤ vec_capacity out.new }
{
    let mut i = 0;
    while i < seats.len() {
        match hear_at(seats, i, event) {
            Ok(()) => i += 1,
            Err(fault) => {
                let gone = seats.remove(i);
                gone.push_fault(fault, out);
            }
        }
    }
}

/// Tells events in order, each to all in order of number.
#[tactic(auto, using(crate::proofs::Eventful::told_none, crate::proofs::Eventful::told_more))]
fn tell_all<W: Watcher>(seats: &mut Vec<Attached<W>>, events: &[Event], out: &mut Vec<u8>)
    requires { vec_len out.old + fault_room seats.old.items ≤ vec_capacity out.old }
    ensures { AreTold events.now seats.new.items seats.old.items out.new.items out.old.items }
{
    for event in events {
        tell_event(seats, *event, out);
    }
}

/// The place of the watcher with a number, None where there is none.
fn place_of<W: Watcher>(seats: &[Attached<W>], number: u32) -> Option<usize>
    ensures none { IfNone result ((seat_at number seats.now ≡ None) × (without number seats.now ≡ seats.now)) }
    ensures low { IfSome result (λ i. i < length seats.now) }
    ensures seat { IfSome result (λ i. seat_at number seats.now ≡ slice_get seats.now i) }
    ensures rest { IfSome result (λ i. without number seats.now ≡ remove seats.now i) }
{
    for i in 0..seats.len() {
        let seat = &seats[i];
        if seat.number == number {
            return Some(i);
        }
    }
    None
}

impl<W: Watcher> Audience<W> {
    /// No watchers, and no numbers given. It takes no memory.
    pub fn begin(alloc: Global) -> Audience<W>
        ensures { result ≡ record { seats = []; given = 0 } }
    {
        Audience {
            seats: Vec::new(alloc),
            given: 0,
            alloc,
        }
    }

    /// How many numbers were given.
    pub fn given(&self) -> u32
        ensures { result ≡ self.now.given }
    {
        self.given
    }

    /// Attaches a watcher, which gets the next number. Without memory it is handed back, and nothing changes.
    pub fn attach(&mut self, watcher: W) -> Result<u32, W>
        requires { self.old.given + 1 < 2 ^ 32 }
        ensures number { IfOk result (λ number. number ≡ self.new.given) }
        ensures ok { OnOk result (self.new ≡ attached
            (W.watching watcher) self.old) }
        ensures err { IfErr result (λ back. back ≡ watcher) }
        ensures kept { OnErr result (self.new ≡ self.old) }
    {
        let number = self.given + 1;
        if self.seats.reserve(1).is_err() {
            return Err(watcher);
        }
        match Attached::new(self.alloc, number, watcher) {
            Err(watcher) => Err(watcher),
            Ok(seat) => {
                self.seats.push_reserved(seat);
                self.given = number;
                Ok(number)
            }
        }
    }

    /// Detaches the watcher with a number and hands it back; None where none has it. It hears nothing more.
    pub fn detach(&mut self, number: u32) -> Option<W>
        ensures taken { option_map W.watching result
            ≡ option_map (λ (s : Seat). s.watching) (seat_at number self.old.seats) }
        ensures left { self.new ≡ record { seats = without number self.old.seats; given = self.old.given } }
    {
        match place_of(&self.seats, number) {
            None => None,
            Some(i) => {
                let seat = self.seats.remove(i);
                Some(seat.into_watcher())
            }
        }
    }

    /// The room that the lines take that all are gone; None where it is more than there can be.
    #[tactic(auto, using(crate::proofs::Hearing::room_none, crate::proofs::Hearing::room_more))]
    pub fn fault_room(&self) -> Option<usize>
        ensures { IfSome result (λ room. room ≡ fault_room self.now.seats) }
    {
        let mut room: usize = 0;
        for seat in &self.seats {
            room = room.checked_add(seat.room())?;
        }
        Some(room)
    }

    /// Tells events in order, each to all in order of number. One that doesn't hear an event is gone, and a line in
    /// `out` says so, for which there is room. It takes no memory.
    pub fn tell(&mut self, events: &[Event], out: &mut Vec<u8>)
        requires { vec_len out.old + fault_room self.old.seats ≤ vec_capacity out.old }
        ensures told { AreTold events.now self.new.seats self.old.seats out.new.items out.old.items }
        ensures given { self.new.given ≡ self.old.given }
    {
        tell_all(&mut self.seats, events, out);
    }

    /// Appends the reports of all, in order of number, each behind a line that says whose it is.
    #[tactic(auto, unfolding(crate::specs::Audience::reports))]
    pub fn push_reports(&self, out: &mut Vec<u8>) -> Result<(), AllocError>
        ensures { OnOk result (out.new.items ≡ out.old.items ++ reports self.now.seats) }
    {
        for seat in &self.seats {
            seat.push_report(out)?;
        }
        Ok(())
    }
}
