//! The joined heaps of an aggregate. The generation in which an entry stands is searched for by
//! halves, by what the generations have before them.
ghost use Rattle.std.specs.Prelude.{◌≡◌, ℕ, ◌<◌, ◌≤◌, Some, length, map, take, reverse, is_some, option_copied, slice_index};
ghost use Rattle.enc_meta.specs.Heaps.{Counted};
ghost use Rattle.enc_meta.specs.HeapKinds.{bytes_in, joined_at};
ghost use Rattle.enc_meta.specs.Joined.{joined_text, joined_guid};
ghost use Rattle.enc_agg.specs.Extend.{chain_with};
ghost use Rattle.enc_agg.specs.Seen.{sources, AllAdded, own_place, own_guid_place};
ghost use Rattle.enc_agg.specs.Starts.{starts, measure_in, HaveBegun, IsParted, NeverFall};
ghost use Rattle.enc_agg.specs.Place.{heap_place, guid_place};

use crate::added::{Added, newest};
use crate::place::HeapPlace;
use enc_image::Image;
use enc_meta::{Heap, HeapLengths, Heaps};

/// What generations have one behind the other: bytes of a heap, or numbers of `#GUID`.
#[derive(Clone, Copy, Debug, PartialEq, Eq)]
pub enum Measure {
    Bytes(Heap),
    Guids,
}

/// How many there are.
fn measured(lengths: &HeapLengths, measure: Measure) -> u32
    ensures { result ≡ measure_in measure lengths.now }
{
    match measure {
        Measure::Bytes(heap) => lengths.of(heap),
        Measure::Guids => lengths.guids,
    }
}

/// How many a delta has before it.
fn start(added: &[Added], measure: Measure, i: usize) -> u32
    requires { i < length added.now }
    ensures { result ≡ slice_index (starts measure added.now) i }
{
    measured(&added[i].before, measure)
}

/// How many deltas have a number or fewer before them.
fn begun(added: &[Added], measure: Measure, n: u32) -> usize
    requires { NeverFall (starts measure added.now) }
    ensures { IsParted (starts measure added.now) n result }
{
    let mut low = 0;
    let mut high = added.len();
    while low < high {
        let middle = low + (high - low) / 2;
        if start(added, measure, middle) <= n {
            low = middle + 1;
        } else {
            high = middle;
        }
    }
    low
}

/// The deltas that have a number or fewer before them.
fn upto<'a>(image: &Image, added: &'a [Added], measure: Measure, n: u32) -> &'a [Added]
    requires { AllAdded image.now (reverse added.now) }
    ensures front { result.now ≡ take (length result.now) added.now }
    ensures few { length result.now ≤ length added.now }
    ensures begun { HaveBegun measure n (reverse result.now) }
    ensures past { (i : ℕ) → length result.now ≤ i → i < length added.now
        → n < slice_index (starts measure added.now) i }
{
    let _ = image;
    &added[..begun(added, measure, n)]
}

/// The entry at an offset of a joined heap, None where the offset isn't good.
pub fn entry_in<'a>(
    image: &'a Image,
    added: &'a [Added],
    heap: Heap,
    offset: u32,
) -> Option<&'a [u8]>
    requires { AllAdded image.now (reverse added.now) }
    ensures { option_copied result ≡ joined_at heap (chain_with image.now (sources (reverse added.now))).heaps offset }
{
    let Some((last, _)) = newest(upto(image, added, Measure::Bytes(heap), offset)) else {
        return image.heaps().at(heap, offset);
    };
    if offset == 0 {
        return Some(&[]);
    }
    let own = offset - last.before.of(heap);
    last.delta.heaps().entry(heap, own)
}

/// Whether a text stands at an offset of the joined `#Strings`.
pub fn has_text_in(image: &Image, added: &[Added], offset: u32) -> bool
    requires { AllAdded image.now (reverse added.now) }
    ensures { result ≡ is_some (joined_text (chain_with image.now (sources (reverse added.now))).heaps offset) }
{
    let Some((last, _)) = newest(upto(image, added, Measure::Bytes(Heap::Strings), offset)) else {
        return image.heaps().has_text(offset);
    };
    if offset == 0 {
        return true;
    }
    let own = offset - last.before.strings;
    last.delta.heaps().has_text_entry(own)
}

/// Entry k of the joined `#GUID`, from the first generation that has it; None where none has.
pub fn guid_in(image: &Image, added: &[Added], k: u32) -> Option<[u8; 16]>
    requires { AllAdded image.now (reverse added.now) }
    ensures { result ≡ joined_guid (chain_with image.now (sources (reverse added.now))).heaps k }
{
    let Some(number) = k.checked_sub(1) else {
        return Some([0; 16]);
    };
    match newest(upto(image, added, Measure::Guids, number)) {
        None => image.heaps().guid(k),
        Some((last, _)) => last.delta.heaps().guid(k),
    }
}

/// The place of an offset in a generation's own heap; None past its end.
fn own_place(heaps: &Heaps<'_>, heap: Heap, generation: u32, offset: u32) -> Option<HeapPlace>
    ensures { result ≡ own_place (bytes_in heap heaps.now) generation offset }
{
    if (offset as usize) < heaps.counted(heap).len() {
        Some(HeapPlace { generation, offset })
    } else {
        None
    }
}

/// Where an offset of a joined heap stands. None where it is past the heap.
pub fn heap_place_in(image: &Image, added: &[Added], heap: Heap, offset: u32) -> Option<HeapPlace>
    requires { AllAdded image.now (reverse added.now) }
    ensures { result ≡ heap_place (map (bytes_in heap) (chain_with image.now (sources (reverse added.now))).heaps)
        offset }
{
    let upto = upto(image, added, Measure::Bytes(heap), offset);
    let Some((last, _)) = newest(upto) else {
        return own_place(&image.heaps(), heap, 0, offset);
    };
    let own = offset - last.before.of(heap);
    own_place(&last.delta.heaps(), heap, upto.len() as u32, own)
}

/// The place of entry k of a generation's own `#GUID`, k from 1; None where it has fewer.
fn own_guid_place(heaps: &Heaps<'_>, generation: u32, k: u32) -> Option<HeapPlace>
    ensures { result ≡ own_guid_place heaps.now.guids generation k }
{
    if k == 0 || k as usize > heaps.guids().len() / 16 {
        return None;
    }
    Some(HeapPlace {
        generation,
        offset: k,
    })
}

/// The place of entry k of `#GUID`, k from 1, in the first generation that has it; None where none
/// has.
pub fn guid_place_in(image: &Image, added: &[Added], k: u32) -> Option<HeapPlace>
    requires { AllAdded image.now (reverse added.now) }
    ensures { result ≡ guid_place (map (λ (h : Counted). h.guids)
        (chain_with image.now (sources (reverse added.now))).heaps) k }
{
    let Some(number) = k.checked_sub(1) else {
        return None;
    };
    let upto = upto(image, added, Measure::Guids, number);
    match newest(upto) {
        None => own_guid_place(&image.heaps(), 0, k),
        Some((last, _)) => own_guid_place(&last.delta.heaps(), upto.len() as u32, k),
    }
}
