//! A watcher that is attached.
ghost use Rattle.std.specs.Prelude.{◌≡◌, ◌≤◌, ◌+◌, ◌++◌, length, IfOk, IfErr, OnOk, vec_len, vec_capacity};
ghost use Rattle.enc_watch.specs.Audience.{fault_line, gone_text, line_front, seat_report, seat_room};
ghost use Rattle.enc_watch.specs.Telling.{IsHearing};

use crate::event::{Event, HearError};
use crate::watcher::Watcher;
use enc_text::{push_decimal, push_str};
use std::alloc::{AllocError, Global};
use std::marker::Model;

/// A watcher with its number, and how a line of it begins.
#[derive(Drop)]
pub(crate) struct Attached<W: Watcher> {
    pub(crate) number: u32,
    name: Vec<u8>,
    pub(crate) watcher: W,
}

impl<W: Watcher> Model for Attached<W> {
    ghost use Rattle.std.specs.Prelude.{◌≡◌};
    ghost use Rattle.enc_watch.specs.Audience.{Seat, line_front};

    ghost Value = { Seat };

    ghost view = { λ a. record {
      number = a.number;
      watching = W.watching a.watcher;
    } };

    ghost invariant = { λ a. a.name.items ≡ line_front a.number };
}

/// How a line of the watcher with a number begins.
fn name_of(alloc: Global, number: u32) -> Result<Vec<u8>, AllocError>
    ensures { IfOk result (λ name. name.items ≡ line_front number) }
{
    let mut name = Vec::new(alloc);
    push_str(&mut name, "watcher ")?;
    push_decimal(alloc, &mut name, number)?;
    push_str(&mut name, " ")?;
    Ok(name)
}

/// Why a watcher is gone.
fn fault_word(fault: HearError) -> &'static str
    ensures word { result.now ≡ gone_text fault }
    ensures short { length result.now ≤ 13 }
{
    match fault {
        HearError::Failed => "failed",
        HearError::Memory => "out of memory",
    }
}

/// Appends bytes for which there is room.
fn append(out: &mut Vec<u8>, bytes: &[u8])
    requires { vec_len out.old + length bytes.now ≤ vec_capacity out.old }
    ensures text { out.new.items ≡ out.old.items ++ bytes.now }
    ensures len { vec_len out.new ≡ vec_len out.old + length bytes.now }
    ensures capacity { vec_capacity out.old ≤ vec_capacity out.new }
{
    let Ok(()) = out.extend_from_slice(bytes) else {
        unreachable!()
    };
}

impl<W: Watcher> Attached<W> {
    /// A watcher with its number. Without memory it is handed back.
    pub(crate) fn new(alloc: Global, number: u32, watcher: W) -> Result<Attached<W>, W>
        ensures ok { IfOk result (λ a. a ≡ record {
          number = number;
          watching = W.watching watcher;
        }) }
        ensures err { IfErr result (λ w. w ≡ watcher) }
    {
        match name_of(alloc, number) {
            Err(_) => Err(watcher),
            Ok(name) => Ok(Attached {
                number,
                name,
                watcher,
            }),
        }
    }

    /// The watcher alone.
    pub(crate) fn into_watcher(self) -> W
        ensures { W.watching result ≡ self.watching }
    {
        self.watcher
    }

    /// Tells it an event.
    #[tactic(auto, using(crate::proofs::Hearings::reached_is, crate::proofs::Hearings::unreached_is))]
    pub(crate) fn hear(&mut self, event: Event) -> Result<(), HearError>
        ensures { IsHearing result event self.new self.old }
    {
        self.watcher.hear(event)
    }

    /// The room that the line takes that it is gone.
    #[tactic(auto, unfolding(crate::specs::Audience::watcher_line))]
    pub(crate) fn room(&self) -> usize
        ensures { result ≡ seat_room self.now }
    {
        self.name.len() + 14
    }

    /// Appends the line that it is gone, for which there is room.
    #[tactic(auto, unfolding(crate::specs::Audience::watcher_line))]
    pub(crate) fn push_fault(&self, fault: HearError, out: &mut Vec<u8>)
        requires { vec_len out.old + seat_room self.now ≤ vec_capacity out.old }
        ensures text { out.new.items ≡ out.old.items ++ fault_line self.now.number fault }
        ensures len { vec_len out.new ≤ vec_len out.old + seat_room self.now }
        ensures capacity { vec_capacity out.old ≤ vec_capacity out.new }
    {
        append(out, &self.name);
        append(out, fault_word(fault).as_bytes());
        append(out, b"\n");
    }

    /// Appends its report, behind a line that says whose it is.
    #[tactic(auto, unfolding(crate::specs::Audience::watcher_line, crate::specs::Audience::seat_report))]
    pub(crate) fn push_report(&self, out: &mut Vec<u8>) -> Result<(), AllocError>
        ensures { OnOk result (out.new.items ≡ out.old.items ++ seat_report self.now) }
    {
        out.extend_from_slice(&self.name)?;
        push_str(out, "report\n")?;
        self.watcher.report(out)
    }
}
