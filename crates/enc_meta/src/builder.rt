//! Heaps that are written (ECMA-335 II.24.2.3 to II.24.2.5).
ghost use Rattle.std.specs.Prelude.{◌≡◌, ◌%◌, ◌==◌, length, not, IsTrue, IfOk, OnOk, OnErr};
ghost use Rattle.std.specs.List.{list_any};
ghost use Rattle.enc_base.specs.declared.refusal.StreamName.TheVariants.{Strings, Users, Blobs, Guids as GuidStream};
ghost use Rattle.enc_meta.specs.Built.{AreWithinLimits, none_from, unit_bytes, with_text, with_user, with_blob, with_guid, text_offset, user_offset, blob_offset, guid_number, text_passes, user_passes, blob_passes, guid_passes, heaps_built, joined_size};
ghost use Rattle.enc_meta.specs.BuiltLaws.{IsGood};
ghost use Rattle.enc_meta.specs.BuiltSeen.{RefusesWhere, heap_bytes_seen};

use crate::guids::Guids;
use crate::heap_form::HeapForm;
use crate::heaps::HeapLengths;
use crate::pool::Pool;
use enc_base::{Bytes, StreamName};
use std::alloc::{AllocError, AllocFailed, Global};
use std::marker::Model;

/// Why a value wasn't added: there is no memory, or its joined heap would pass its limit.
#[derive(Clone, Copy, Debug, PartialEq, Eq)]
pub enum BuildFault {
    Memory,
    TooLarge(StreamName),
}

impl From<AllocError> for BuildFault {
    ghost use Rattle.std.specs.Prelude.{◌≡◌};
    ghost use Rattle.enc_meta.specs.declared.builder.BuildFault.TheVariants.{Memory};

    ghost from_gives = { λ _ e. e ≡ Memory };

    fn from(_error: AllocError) -> BuildFault {
        BuildFault::Memory
    }
}

impl<T: Drop> From<AllocFailed<T>> for BuildFault {
    ghost use Rattle.std.specs.Prelude.{◌≡◌};
    ghost use Rattle.enc_meta.specs.declared.builder.BuildFault.TheVariants.{Memory};

    ghost from_gives = { λ _ e. e ≡ Memory };

    fn from(_error: AllocFailed<T>) -> BuildFault {
        BuildFault::Memory
    }
}

/// The bytes of the four heaps.
#[derive(Drop)]
pub struct HeapBytes {
    pub strings: Bytes,
    pub users: Bytes,
    pub blobs: Bytes,
    pub guids: Bytes,
}

/// The four heaps of a generation while they are written: each value once, in the order of first
/// use. Offsets count from the front of the chain's first heaps. `#US` may reach 2^24 joined bytes
/// and each other heap 2^29, of which a GUID takes 16.
pub struct HeapBuilder {
    texts: Pool,
    users: Pool,
    blobs: Pool,
    guids: Guids,
}

// By hand: a caller's proof then takes the end of a builder as one call, and not as that of each
// part, which costs it seconds wherever it may return.
impl Drop for HeapBuilder {
    fn drop(self) {
        let HeapBuilder {
            texts: _texts,
            users: _users,
            blobs: _blobs,
            guids: _guids,
        } = self;
    }
}

impl Model for HeapBuilder {
    ghost use Rattle.enc_meta.specs.Built.{Built};
    ghost use Rattle.enc_meta.specs.Pools.{HaveForms};

    ghost Value = { Built };

    ghost view = { λ h. record {
      starts = record { strings = h.texts.start; users = h.users.start; blobs = h.blobs.start; guids = h.guids.start };
      texts = h.texts.values;
      users = h.users.values;
      blobs = h.blobs.values;
      guids = h.guids.guids;
    } };

    ghost invariant = { λ h. HaveForms h.texts h.users h.blobs };
}

impl HeapBuilder {
    /// Heaps with no value yet, behind joined heaps of these lengths.
    pub fn begin(alloc: Global, starts: HeapLengths) -> Result<HeapBuilder, AllocError>
        ensures { IfOk result (λ b. b ≡ none_from starts) }
    {
        Ok(HeapBuilder {
            texts: Pool::begin(alloc, HeapForm::Text, starts.strings),
            users: Pool::begin(alloc, HeapForm::User, starts.users),
            blobs: Pool::begin(alloc, HeapForm::Blob, starts.blobs),
            guids: Guids::begin(alloc, starts.guids),
        })
    }

    /// The offset of a text in `#Strings` (II.24.2.3): 0 for the empty one. `TooLarge` where it isn't
    /// there and the joined heap would pass its limit with it.
    pub fn add_text(&mut self, text: &[u8]) -> Result<u32, BuildFault>
        requires { IsTrue (not (list_any (λ c. c == 0) text.now)) }
        ensures added { OnOk result (self.new ≡ with_text self.old text.now) }
        ensures offset { IfOk result (λ offset. offset ≡ text_offset self.old text.now) }
        ensures refused { RefusesWhere result Strings (text_passes self.old text.now) }
        ensures err { OnErr result (self.new ≡ self.old) }
    {
        self.texts.add(text)
    }

    /// The offset of bytes in `#Blob` (II.24.2.4): 0 for none. `TooLarge` where they aren't there and
    /// the joined heap would pass its limit with them.
    pub fn add_blob(&mut self, bytes: &[u8]) -> Result<u32, BuildFault>
        ensures added { OnOk result (self.new ≡ with_blob self.old bytes.now) }
        ensures offset { IfOk result (λ offset. offset ≡ blob_offset self.old bytes.now) }
        ensures refused { RefusesWhere result Blobs (blob_passes self.old bytes.now) }
        ensures err { OnErr result (self.new ≡ self.old) }
    {
        self.blobs.add(bytes)
    }

    /// The offset of a text in `#US` (II.24.2.4), of which these are the UTF-16 units, the low byte of
    /// each first: 0 for the empty one. `TooLarge` where it isn't there and the joined heap would pass
    /// its limit with it.
    pub fn add_units(&mut self, units: &[u8]) -> Result<u32, BuildFault>
        requires { length units.now % 2 ≡ 0 }
        ensures added { OnOk result (self.new ≡ with_user self.old units.now) }
        ensures offset { IfOk result (λ offset. offset ≡ user_offset self.old units.now) }
        ensures refused { RefusesWhere result Users (user_passes self.old units.now) }
        ensures err { OnErr result (self.new ≡ self.old) }
    {
        self.users.add(units)
    }

    /// The offset in `#US` of a text of UTF-16 units, as `add_units` gives it. It takes memory for
    /// their bytes.
    #[tactic(auto, using(crate::proofs::Units::units_even))]
    pub fn add_user(&mut self, units: &[u16]) -> Result<u32, BuildFault>
        ensures added { OnOk result (self.new ≡ with_user self.old (unit_bytes units.now)) }
        ensures offset { IfOk result (λ offset. offset ≡ user_offset self.old (unit_bytes units.now)) }
        ensures refused { RefusesWhere result Users (user_passes self.old (unit_bytes units.now)) }
        ensures err { OnErr result (self.new ≡ self.old) }
    {
        let bytes = unit_bytes(self.users.alloc(), units)?;
        self.add_units(&bytes)
    }

    /// The number of a GUID in `#GUID` (II.24.2.5), from 1: 0 for nil. `TooLarge` where it isn't there
    /// and the joined heap would pass its limit with it.
    pub fn add_guid(&mut self, guid: [u8; 16]) -> Result<u32, BuildFault>
        ensures added { OnOk result (self.new ≡ with_guid self.old guid) }
        ensures number { IfOk result (λ number. number ≡ guid_number self.old guid) }
        ensures refused { RefusesWhere result GuidStream (guid_passes self.old guid) }
        ensures err { OnErr result (self.new ≡ self.old) }
    {
        self.guids.add(guid)
    }

    /// How long the four joined heaps are together, in bytes.
    #[tactic(auto, unfolding(crate::specs::Built::joined_size))]
    pub fn size(&self) -> u64
        ensures { result ≡ joined_size self.now }
    {
        self.texts.end() + self.users.end() + self.blobs.end() + self.guids.size()
    }

    /// What holds of the values.
    pub fn laws(&self)
        ensures good { IsGood self.now }
        ensures within { AreWithinLimits self.now }
    {
        self.texts.laws();
        self.users.laws();
        self.blobs.laws();
        self.guids.laws();
    }

    /// The bytes of the heaps. It takes memory for all of them, and time in line with their number.
    #[tactic(auto, unfolding(crate::specs::Built::heaps_built))]
    pub fn finish(self) -> Result<HeapBytes, AllocError>
        ensures bytes { IfOk result (λ h. heap_bytes_seen h ≡ heaps_built self) }
        ensures good { OnOk result (IsGood self) }
        ensures within { OnOk result (AreWithinLimits self) }
    {
        self.laws();
        Ok(HeapBytes {
            strings: self.texts.bytes()?,
            users: self.users.bytes()?,
            blobs: self.blobs.bytes()?,
            guids: self.guids.bytes()?,
        })
    }
}

/// The bytes of units, the low one first.
#[tactic(auto, using(crate::proofs::Units::units_more))]
fn unit_bytes(alloc: Global, units: &[u16]) -> Result<Vec<u8>, AllocError>
    ensures { IfOk result (λ b. b.items ≡ unit_bytes units.now) }
{
    let mut out = Vec::new(alloc);
    for unit in units {
        out.extend_from_slice(&[(*unit % 0x100) as u8, (*unit / 0x100) as u8])?;
    }
    Ok(out)
}
