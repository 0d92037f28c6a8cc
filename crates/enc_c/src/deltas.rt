//! The calls that write a delta.
ghost use Rattle.std.specs.Prelude.{◌≡◌, ◌<◌, length};
ghost use Rattle.enc_c.specs.Deltas.{Delivers, GivesDelta, StandsForLast, StandsForText, TellsWhy, delivery, reason_of_fault, unmerged, unwritten};
ghost use Rattle.enc_c.specs.Saved.{buffer_of};

use crate::fill::{Three, copy_three};
use crate::handle::{Handle, put, take};
use crate::held::Held;
use crate::reason::{Reason, numbers_of_reason};
use crate::refusal::RefusalNumbers;
use crate::status::Status;
use enc_base::StreamName;
use enc_emit::DeltaBytes;
use enc_jobs::{JobFault, read_edits};
use enc_merge::{MergeFault, merge_last};
use enc_plain::ChainView;
use enc_writer::{EditFault, write_delta};
use std::alloc::Global;

/// Why a delta isn't written: what its call comes to, with a reason or without.
#[derive(Clone, Copy)]
pub enum Unwritten {
    Only(Status),
    Because(Reason),
}

/// Why an edit list isn't read.
fn unread(fault: JobFault) -> Unwritten
    ensures { result ≡ reason_of_fault fault }
{
    match fault {
        JobFault::Memory => Unwritten::Only(Status::Memory),
        JobFault::J1 => Unwritten::Because(Reason::Json),
        JobFault::J2(number) => Unwritten::Because(Reason::Element(number)),
        JobFault::L3 => Unwritten::Only(Status::Limit),
    }
}

impl Held {
    /// How many deltas there are.
    fn delta_count(&self) -> u32
        ensures { result ≡ length self.now.followed.deltas }
    {
        self.chain.rows().generations() - 1
    }

    /// The delta that stands for the last two: `Few` where there are fewer, `Limit` where a delta is too
    /// long to be merged, the reason where the PDB would pass its limit, or where a reference lies too deep
    /// in others.
    #[tactic(auto, unfolding(crate::specs::Deltas::unmerged))]
    pub fn merge(&self, alloc: Global) -> Result<DeltaBytes, Unwritten>
        ensures { GivesDelta result (StandsForLast self.now) (unmerged self.now) }
    {
        if self.delta_count() < 2 {
            return Err(Unwritten::Only(Status::Few));
        }
        if !self.short {
            return Err(Unwritten::Only(Status::Limit));
        }
        self.chain.holds();
        match merge_last(alloc, self.chain.rows(), self.chain.points()) {
            Ok(files) => Ok(files),
            Err(MergeFault::Memory) => Err(Unwritten::Only(Status::Memory)),
            Err(MergeFault::TooLarge) => Err(Unwritten::Because(Reason::Heap(StreamName::Pdb))),
            Err(MergeFault::Deep(token)) => Err(Unwritten::Because(Reason::Deep(token))),
        }
    }

    /// The delta of the edit list that a text says, as JSON: the reason where it says none, or where one of
    /// its edits breaks a rule.
    #[tactic(auto, unfolding(crate::specs::Deltas::unwritten))]
    pub fn write(&self, alloc: Global, text: &[u8]) -> Result<DeltaBytes, Unwritten>
        ensures { GivesDelta result (StandsForText text.now self.now) (unwritten text.now self.now) }
    {
        let list = match read_edits(alloc, text) {
            Ok(list) => list,
            Err(fault) => return Err(unread(fault)),
        };
        match write_delta(alloc, self.chain.rows(), &list) {
            Ok(files) => Ok(files),
            Err(EditFault::Memory) => Err(Unwritten::Only(Status::Memory)),
            Err(EditFault::Broken(rule, edit)) => Err(Unwritten::Because(Reason::Edit(rule, edit))),
        }
    }
}

/// Tells why a delta isn't written.
fn tell_why(why: Unwritten, refusal: &mut RefusalNumbers) -> u32
    ensures { TellsWhy result refusal.old refusal.new why }
{
    match why {
        Unwritten::Only(status) => status.number(),
        Unwritten::Because(reason) => {
            *refusal = numbers_of_reason(reason);
            Status::Refused.number()
        }
    }
}

/// The files of a delta as they are copied.
fn three(files: &DeltaBytes) -> Three<'_, u8>
    ensures meta { result.first.now ≡ files.now.meta }
    ensures il { result.second.now ≡ files.now.il }
    ensures pdb { result.third.now ≡ files.now.pdb }
{
    Three {
        first: files.meta.as_slice(),
        second: files.il.as_slice(),
        third: files.pdb.as_slice(),
    }
}

/// Writes one delta that stands for the last two. No buffer is written where one is too short.
#[unsafe(no_mangle)]
pub extern "C" fn enc_merge(
    alloc: Global,
    handle: &mut Handle,
    meta: &mut [u8],
    meta_size: &mut usize,
    il: &mut [u8],
    il_size: &mut usize,
    pdb: &mut [u8],
    pdb_size: &mut usize,
    refusal: &mut RefusalNumbers,
) -> u32
    ensures kept { handle.new.held ≡ handle.old.held }
    ensures answer { Delivers (delivery result (buffer_of meta.old meta.new meta_size.old meta_size.new)
        (buffer_of il.old il.new il_size.old il_size.new)
        (buffer_of pdb.old pdb.new pdb_size.old pdb_size.new) refusal.old refusal.new) handle.old.held StandsForLast
        unmerged }
{
    let Some(held) = take(handle, alloc) else {
        return Status::Closed.number();
    };
    let merged = held.merge(alloc);
    put(handle, alloc, held);
    match merged {
        Ok(files) => {
            *meta_size = files.meta.len();
            *il_size = files.il.len();
            *pdb_size = files.pdb.len();
            copy_three(three(&files), meta, il, pdb)
        }
        Err(why) => tell_why(why, refusal),
    }
}

/// Writes the delta of an edit list, which is JSON. No buffer is written where one is too short.
#[unsafe(no_mangle)]
pub extern "C" fn enc_write(
    alloc: Global,
    handle: &mut Handle,
    json: &[u8],
    meta: &mut [u8],
    meta_size: &mut usize,
    il: &mut [u8],
    il_size: &mut usize,
    pdb: &mut [u8],
    pdb_size: &mut usize,
    refusal: &mut RefusalNumbers,
) -> u32
    ensures kept { handle.new.held ≡ handle.old.held }
    ensures answer { Delivers (delivery result (buffer_of meta.old meta.new meta_size.old meta_size.new)
        (buffer_of il.old il.new il_size.old il_size.new)
        (buffer_of pdb.old pdb.new pdb_size.old pdb_size.new) refusal.old refusal.new) handle.old.held
        (StandsForText json.now) (unwritten json.now) }
{
    let Some(held) = take(handle, alloc) else {
        return Status::Closed.number();
    };
    let written = held.write(alloc, json);
    put(handle, alloc, held);
    match written {
        Ok(files) => {
            *meta_size = files.meta.len();
            *il_size = files.il.len();
            *pdb_size = files.pdb.len();
            copy_three(three(&files), meta, il, pdb)
        }
        Err(why) => tell_why(why, refusal),
    }
}
