//! The values of one heap, each once, in the order of their first use.
ghost use Rattle.std.specs.Prelude.{◌≡◌, ℕ, ◌+◌, ◌<◌, ◌≤◌, ◌^◌, true, false, max, map, [], IsTrue, IfSome, IfNone, IfOk, OnOk, OnErr};
ghost use Rattle.std.specs.List.{list_all};
ghost use Rattle.enc_meta.specs.Built.{is_among, is_kept, place_among, heap_bytes, joined_end};
ghost use Rattle.enc_meta.specs.BuiltSeen.{RefusesWhere};
ghost use Rattle.enc_meta.specs.Pools.{encoded, limit_of, stream_name_of, is_fit, value_is_good, with_pooled, pooled_offset, pooled_passes};

use crate::builder::BuildFault;
use crate::heap_form::HeapForm;
use enc_base::Bytes;
use indexmap::IndexMap;
use std::alloc::{AllocError, Global};
use std::marker::Model;

/// The values of one heap with their offsets in the joined heap.
#[derive(Drop)]
pub struct Pool {
    form: HeapForm,
    start: u32,
    // the offset behind the last value
    end: u64,
    offsets: IndexMap<Vec<u8>, u32>,
}

impl Model for Pool {
    ghost use Rattle.std.specs.Prelude.{map};
    ghost use Rattle.std.specs.Map.{keys_of};
    ghost use Rattle.enc_meta.specs.Pools.{Pooled, IsTied};

    ghost Value = { Pooled };

    ghost view = { λ p. record {
      form = p.form;
      start = p.start;
      values = map (λ v. v.items) (keys_of p.offsets.entries);
    } };

    ghost invariant = { λ p. IsTied (λ v. v.items) p.form p.start p.end p.offsets.entries };
}

/// A number of four bytes is one.
fn word_law(n: u32)
    ensures { n < 2 ^ 32 }
{}

impl Pool {
    /// No value, in a heap that begins at a joined offset.
    pub fn begin(alloc: Global, form: HeapForm, start: u32) -> Pool
        ensures { result ≡ record { form = form; start = start; values = [] } }
    {
        Pool {
            form,
            start,
            end: u64::from(start) + 1,
            offsets: IndexMap::new(alloc),
        }
    }

    /// The allocator.
    pub fn alloc(&self) -> Global {
        *self.offsets.allocator()
    }

    /// The offset of a value in the joined heap. A value that isn't there is put behind the last.
    pub fn add(&mut self, value: &[u8]) -> Result<u32, BuildFault>
        requires { IsTrue (is_fit self.old.form value.now) }
        ensures values { OnOk result (self.new ≡ with_pooled self.old value.now) }
        ensures offset { IfOk result (λ offset. offset ≡ pooled_offset self.old value.now) }
        ensures refused { RefusesWhere result (stream_name_of self.old.form) (pooled_passes self.old value.now) }
        ensures err { OnErr result (self.new ≡ self.old) }
    {
        match self.kept(value) {
            Some(offset) => Ok(offset),
            None => self.put(value),
        }
    }

    /// The offset of a value that takes no place: 0 for the empty one, else its own where it is there.
    #[tactic(auto, unfolding(crate::specs::Built::is_kept, crate::specs::Built::offset_in))]
    fn kept(&self, value: &[u8]) -> Option<u32>
        ensures found { IfSome result (λ offset. (is_kept self.now.values value.now ≡ true)
            × (offset ≡ pooled_offset self.now value.now)) }
        ensures none { IfNone result (is_kept self.now.values value.now ≡ false) }
    {
        match value {
            [] => Some(0),
            _ => self.find(value),
        }
    }

    /// The offset of a value that is there.
    fn find(&self, value: &[u8]) -> Option<u32>
        ensures found { IfSome result (λ offset. (is_among self.now.values value.now ≡ true)
            × (offset ≡ place_among (encoded self.now.form) (self.now.start + 1) self.now.values value.now)) }
        ensures none { IfNone result (is_among self.now.values value.now ≡ false) }
    {
        self.offsets.get(value).copied()
    }

    /// Puts a value that isn't there behind the last.
    fn put(&mut self, value: &[u8]) -> Result<u32, BuildFault>
        requires new { is_kept self.old.values value.now ≡ false }
        requires fit { IsTrue (is_fit self.old.form value.now) }
        ensures values { OnOk result (self.new ≡ with_pooled self.old value.now) }
        ensures offset { IfOk result (λ offset. offset ≡ pooled_offset self.old value.now) }
        ensures refused { RefusesWhere result (stream_name_of self.old.form) (pooled_passes self.old value.now) }
        ensures err { OnErr result (self.new ≡ self.old) }
    {
        let end = self.end + self.form.size_of(value);
        if self.form.limit() < end {
            return Err(BuildFault::TooLarge(self.form.stream()));
        }
        let offset = self.end as u32;
        let key = value.to_vec(self.alloc())?;
        self.offsets.insert(key, offset)?;
        self.end = end;
        Ok(offset)
    }

    /// The bytes of the heap.
    pub fn bytes(&self) -> Result<Bytes, AllocError>
        ensures { IfOk result (λ b. b ≡ heap_bytes (encoded self.now.form) self.now.values) }
    {
        let bytes = heap_of(self.alloc(), self.form, self.offsets.keys().as_slice())?;
        Ok(Bytes::from_vec(bytes))
    }

    /// Where the joined heap ends.
    pub fn end(&self) -> u64
        ensures end { result ≡ joined_end (encoded self.now.form) self.now.start self.now.values }
        ensures few { result ≤ 2 ^ 32 }
    {
        word_law(self.start);
        self.end
    }

    /// What holds of the values.
    pub fn laws(&self)
        ensures good { IsTrue (list_all (value_is_good self.now.form) self.now.values) }
        ensures within { joined_end (encoded self.now.form) self.now.start self.now.values ≤
            max (limit_of self.now.form) (self.now.start + 1) }
    {
        let _ = &self.form;
    }
}

/// The bytes of a zero and of these values.
fn heap_of(alloc: Global, form: HeapForm, values: &[Vec<u8>]) -> Result<Vec<u8>, AllocError>
    requires { IsTrue (list_all (value_is_good form) (map (λ v. v.items) values.now)) }
    ensures { IfOk result (λ b. b.items ≡ heap_bytes (encoded form) (map (λ v. v.items) values.now)) }
{
    let mut out = Vec::new(alloc);
    out.push(0)?;
    for value in values {
        form.push(value, &mut out)?;
    }
    Ok(out)
}
