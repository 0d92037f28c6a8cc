//! The distinct values of a heap before they are copied.
ghost use Rattle.std.specs.Prelude.{◌≡◌, ◌+◌, ◌≤◌, ◌<◌, ◌^◌, [], ◌∷◌, true, length, OnOk, OnErr};
ghost use Rattle.enc_base.specs.Numbers.{spelled};
ghost use Rattle.std.specs.List.{list_all};
ghost use Rattle.enc_rewriter.specs.Values.{with_all, no_starts, heap_limit, heap_of, IsPast};
ghost use Rattle.enc_rewriter.specs.Distinct.{borrowed, written_in, may_be_listed, with_borrowed, with_list, bytes_of, HasRoomFor, RefusesIn};
ghost use Rattle.enc_rewriter.specs.declared.pass.Pass.TheVariants.{Texts, Users, Blobs};

use crate::pass::Pass;
use enc_base::StreamName;
use enc_meta::{BuildFault, HeapBuilder};
use indexmap::IndexSet;
use std::alloc::{AllocError, Global};
use std::marker::Model;

/// The distinct values of one heap, in the order of their first use. They are borrowed, so that a value takes a
/// few words however long it is.
#[derive(Drop)]
pub(crate) struct Distinct<'a> {
    pass: Pass,
    // how many bytes the values take in their heap
    bytes: u64,
    values: IndexSet<&'a [u8]>,
}

impl<'a> Model for Distinct<'a> {
    ghost use Rattle.enc_rewriter.specs.Distinct.{BorrowedList, AreBorrowed, borrowed};

    ghost Value = { BorrowedList };

    ghost view = { λ d. record { pass = d.pass; values = borrowed d.values.keys } };

    ghost invariant = { λ d. AreBorrowed d.pass d.bytes (borrowed d.values.keys) };
}

/// How many bytes spell a length.
fn spelled_len(len: u64) -> u64
    ensures { result ≡ length (spelled len) }
{
    if len < 0x80 {
        1
    } else if len < 0x4000 {
        2
    } else {
        4
    }
}

impl Pass {
    /// How many bytes a value takes in its heap.
    fn size_of(self, value: &[u8]) -> u64
        ensures { result ≡ length (written_in self value.now) }
    {
        let len = value.len() as u64;
        match self {
            Pass::Texts => len + 1,
            Pass::Users => spelled_len(len + 1) + len + 1,
            Pass::Blobs => spelled_len(len) + len,
            Pass::Guids => len,
        }
    }

    /// How many bytes the heap may have.
    fn limit(self) -> u64
        ensures { result ≡ heap_limit self }
    {
        match self {
            Pass::Users => 0x100_0000,
            _ => 0x2000_0000,
        }
    }

    /// The stream that has the heap.
    fn stream(self) -> StreamName
        ensures { result ≡ heap_of self }
    {
        match self {
            Pass::Texts => StreamName::Strings,
            Pass::Users => StreamName::Users,
            Pass::Blobs => StreamName::Blobs,
            Pass::Guids => StreamName::Guids,
        }
    }
}

impl<'a> Distinct<'a> {
    /// No value.
    pub(crate) fn begin(alloc: Global, pass: Pass) -> Distinct<'a>
        ensures { result ≡ record { pass = pass; values = [] } }
    {
        Distinct {
            pass,
            bytes: 0,
            values: IndexSet::new(alloc),
        }
    }

    /// Adds a value where it isn't there. `TooLarge` where the heap would pass its limit with it.
    pub(crate) fn add(&mut self, value: &'a [u8]) -> Result<(), BuildFault>
        requires { may_be_listed self.old.pass value.now ≡ true }
        ensures added { OnOk result (self.new ≡ with_borrowed self.old value.now) }
        ensures refused { RefusesIn result self.old value.now }
        ensures err { OnErr result (self.new ≡ self.old) }
    {
        if value.is_empty() {
            return Ok(());
        }
        let bytes = self.bytes + self.pass.size_of(value);
        if bytes < self.pass.limit() {
            return self.put(value, bytes);
        }
        if self.values.contains(value) {
            return Ok(());
        }
        Err(BuildFault::TooLarge(self.pass.stream()))
    }

    /// Adds a value that isn't empty, with which the values take so many bytes.
    fn put(&mut self, value: &'a [u8], bytes: u64) -> Result<(), BuildFault>
        requires { HasRoomFor self.old value.now bytes }
        ensures added { OnOk result (self.new ≡ with_borrowed self.old value.now) }
        ensures refused { RefusesIn result self.old value.now }
        ensures err { OnErr result (self.new ≡ self.old) }
    {
        if self.values.insert(value)? {
            self.bytes = bytes;
        }
        Ok(())
    }

    /// How many bytes the values take in their heap.
    pub(crate) fn bytes(&self) -> u64
        ensures bytes { result ≡ bytes_of self.now.pass self.now.values }
        ensures few { result < 2 ^ 29 }
    {
        self.bytes
    }

    /// What holds of the values.
    pub(crate) fn laws(&self)
        ensures within { bytes_of self.now.pass self.now.values + 1 ≤ heap_limit self.now.pass }
    {
        let _ = &self.pass;
    }

    /// Copies the values into a heap that has none yet.
    pub(crate) fn copy(self, heaps: &mut HeapBuilder) -> Result<(), AllocError>
        requires starts { heaps.old.starts ≡ no_starts }
        requires none { heaps.old ≡ with_list self.pass heaps.old [] }
        ensures { OnOk result (heaps.new ≡ with_list self.entry.pass heaps.old self.entry.values) }
    {
        match copy_all(self.pass, self.values.as_slice(), heaps) {
            Ok(()) => Ok(()),
            Err(BuildFault::Memory) => Err(AllocError),
            Err(BuildFault::TooLarge(_)) => unreachable!(),
        }
    }
}

/// Adds a text.
#[tactic(auto, using(crate::proofs::Fills::text_past), unfolding(crate::specs::Values::with_all))]
fn copy_text(text: &[u8], heaps: &mut HeapBuilder) -> Result<(), BuildFault>
    requires { may_be_listed Texts text.now ≡ true }
    ensures filled { OnOk result (heaps.new ≡ with_all Texts heaps.old (text.now ∷ [])) }
    ensures past { IsPast result Texts (with_all Texts heaps.old (text.now ∷ [])) }
{
    match heaps.add_text(text) {
        Ok(_) => Ok(()),
        Err(fault) => Err(fault),
    }
}

/// Adds the units of a user text.
#[tactic(auto, using(crate::proofs::Fills::user_past), unfolding(crate::specs::Values::with_all))]
fn copy_units(units: &[u8], heaps: &mut HeapBuilder) -> Result<(), BuildFault>
    requires { may_be_listed Users units.now ≡ true }
    ensures filled { OnOk result (heaps.new ≡ with_all Users heaps.old (units.now ∷ [])) }
    ensures past { IsPast result Users (with_all Users heaps.old (units.now ∷ [])) }
{
    match heaps.add_units(units) {
        Ok(_) => Ok(()),
        Err(fault) => Err(fault),
    }
}

/// Adds a blob.
#[tactic(auto, using(crate::proofs::Fills::blob_past), unfolding(crate::specs::Values::with_all))]
fn copy_blob(blob: &[u8], heaps: &mut HeapBuilder) -> Result<(), BuildFault>
    ensures filled { OnOk result (heaps.new ≡ with_all Blobs heaps.old (blob.now ∷ [])) }
    ensures past { IsPast result Blobs (with_all Blobs heaps.old (blob.now ∷ [])) }
{
    match heaps.add_blob(blob) {
        Ok(_) => Ok(()),
        Err(fault) => Err(fault),
    }
}

/// Adds a value of a pass.
fn copy_one(pass: Pass, value: &[u8], heaps: &mut HeapBuilder) -> Result<(), BuildFault>
    requires { may_be_listed pass value.now ≡ true }
    ensures filled { OnOk result (heaps.new ≡ with_all pass heaps.old (value.now ∷ [])) }
    ensures past { IsPast result pass (with_all pass heaps.old (value.now ∷ [])) }
{
    match pass {
        Pass::Texts => copy_text(value, heaps),
        Pass::Users => copy_units(value, heaps),
        Pass::Blobs => copy_blob(value, heaps),
        Pass::Guids => unreachable!(),
    }
}

/// Adds values of a pass, one behind the other.
fn copy_all(pass: Pass, values: &[&[u8]], heaps: &mut HeapBuilder) -> Result<(), BuildFault>
    requires { list_all (may_be_listed pass) (borrowed values.now) ≡ true }
    ensures filled { OnOk result (heaps.new ≡ with_all pass heaps.old (borrowed values.now)) }
    ensures past { IsPast result pass (with_all pass heaps.old (borrowed values.now)) }
{
    for value in values {
        match copy_one(pass, value, heaps) {
            Ok(()) => {}
            Err(fault) => return Err(fault),
        }
    }
    Ok(())
}
