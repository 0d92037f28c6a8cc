//! The GUIDs of a heap, each once, in the order of their first use (ECMA-335 II.24.2.5).
ghost use Rattle.std.specs.Prelude.{◌≡◌, ◌+◌, ◌*◌, ◌≤◌, ◌^◌, ◌==◌, ◌++◌, [], length, max, replicate, flat_map, true, false, IsTrue, IfSome, IfNone, IfOk, OnOk, OnErr};
ghost use Rattle.std.specs.List.{list_all};
ghost use Rattle.enc_base.specs.declared.refusal.StreamName.TheVariants.{Guids as GuidStream};
ghost use Rattle.enc_meta.specs.Built.{is_guid_kept, with_entry, guid_number_in, entry_passes, guid_bytes};
ghost use Rattle.enc_meta.specs.BuiltSeen.{RefusesWhere};
ghost use Rattle.enc_meta.specs.Pools.{with_listed};

use crate::builder::BuildFault;
use enc_base::{Bytes, StreamName};
use indexmap::IndexSet;
use std::alloc::{AllocError, Global};
use std::marker::Model;

/// How many bytes the joined heap may have.
const LIMIT: u64 = 0x2000_0000;

/// The GUIDs of a heap that follows so many entries of a chain.
#[derive(Drop)]
pub struct Guids {
    start: u32,
    entries: IndexSet<[u8; 16]>,
}

impl Model for Guids {
    ghost use Rattle.enc_meta.specs.Pools.{Listed, IsListed};

    ghost Value = { Listed };

    ghost view = { λ g. record { start = g.start; guids = g.entries.keys } };

    ghost invariant = { λ g. IsListed g.start g.entries.keys };
}

impl Guids {
    /// No GUID behind so many entries.
    pub fn begin(alloc: Global, start: u32) -> Guids
        ensures { result ≡ record { start = start; guids = [] } }
    {
        Guids {
            start,
            entries: IndexSet::new(alloc),
        }
    }

    /// The number of a GUID in the joined heap. One that isn't there is put behind the last.
    pub fn add(&mut self, guid: [u8; 16]) -> Result<u32, BuildFault>
        ensures guids { OnOk result (self.new ≡ with_listed self.old guid) }
        ensures number { IfOk result (λ number. number ≡ guid_number_in self.old.start self.old.guids guid) }
        ensures refused { RefusesWhere result GuidStream (entry_passes self.old.start self.old.guids guid) }
        ensures err { OnErr result (self.new ≡ self.old) }
    {
        match self.kept(&guid) {
            Some(number) => Ok(number),
            None => self.put(guid),
        }
    }

    /// The number of a GUID that takes no entry: 0 for nil, else its own where it is there.
    fn kept(&self, guid: &[u8; 16]) -> Option<u32>
        ensures found { IfSome result (λ number. (is_guid_kept self.now.guids guid.now ≡ true)
            × (number ≡ guid_number_in self.now.start self.now.guids guid.now)) }
        ensures none { IfNone result (is_guid_kept self.now.guids guid.now ≡ false) }
    {
        if *guid == [0; 16] {
            return Some(0);
        }
        match self.entries.get_index_of(guid) {
            Some(before) => Some(self.start + 1 + before as u32),
            None => None,
        }
    }

    /// Puts a GUID that isn't there behind the last.
    fn put(&mut self, guid: [u8; 16]) -> Result<u32, BuildFault>
        requires { is_guid_kept self.old.guids guid ≡ false }
        ensures guids { OnOk result (self.new ≡ with_listed self.old guid) }
        ensures number { IfOk result (λ number. number ≡ guid_number_in self.old.start self.old.guids guid) }
        ensures refused { RefusesWhere result GuidStream (entry_passes self.old.start self.old.guids guid) }
        ensures err { OnErr result (self.new ≡ self.old) }
    {
        let number = u64::from(self.start) + self.entries.len() as u64 + 1;
        if LIMIT < 16 * number {
            return Err(BuildFault::TooLarge(StreamName::Guids));
        }
        self.entries.insert(guid)?;
        Ok(number as u32)
    }

    /// The bytes of the heap: nil entries for those of the chain, and then the GUIDs.
    pub fn bytes(&self) -> Result<Bytes, AllocError>
        ensures { IfOk result (λ b. b ≡ guid_bytes self.now.start self.now.guids) }
    {
        let nil = Vec::from_elem(*self.entries.allocator(), 0, 16 * self.start as usize)?;
        Ok(Bytes::from_vec(with_all(nil, self.entries.as_slice())?))
    }

    /// How long the joined heap is.
    pub fn size(&self) -> u64
        ensures size { result ≡ 16 * (self.now.start + length self.now.guids) }
        ensures few { result ≤ 2 ^ 36 }
    {
        16 * (u64::from(self.start) + self.entries.len() as u64)
    }

    /// What holds of the GUIDs.
    pub fn laws(&self)
        ensures good { IsTrue (list_all (λ g. length g == 16) self.now.guids) }
        ensures within { 16 * (self.now.start + length self.now.guids) ≤ max (2 ^ 29) (16 * self.now.start) }
    {
        let _ = &self.start;
    }
}

/// The bytes with those of the GUIDs behind them.
fn with_all(mut out: Vec<u8>, guids: &[[u8; 16]]) -> Result<Vec<u8>, AllocError>
    ensures { IfOk result (λ b. b.items ≡ out.items ++ flat_map (λ g. g) guids.now) }
{
    for guid in guids {
        out.extend_from_slice(guid)?;
    }
    Ok(out)
}
