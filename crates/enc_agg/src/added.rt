//! The deltas of an aggregate, asked from the newest to the oldest.
ghost use Rattle.std.specs.Prelude.{◌≡◌, ◌<◌, ◌+◌, ◌/◌, ◌^◌, max, [], ◌∷◌, Some, IfSome, MatchOption, length, map, reverse, option_map, slice_get};
ghost use Rattle.enc_opcodes.specs.Body.{code_seen};
ghost use Rattle.enc_plain.specs.Module.{rows_in};
ghost use Rattle.enc_meta.specs.Joined.{joined_lengths};
ghost use Rattle.enc_agg.specs.Extend.{chain_with};
ghost use Rattle.enc_agg.specs.Follows.{AllFollow};
ghost use Rattle.enc_agg.specs.Seen.{sources, AllAdded, newest_number, code_in, rows_counted};

use enc_base::{Counts, Token};
use enc_delta::Delta;
use enc_image::Image;
use enc_meta::{HeapLengths, Heaps};
use enc_opcodes::CodeRef;
use enc_plain::ModuleView;

/// A delta that was accepted, with what is asked for often: the lengths of the joined heaps before
/// it, its EncId, and how many rows each table has after it.
#[derive(Drop)]
pub struct Added {
    pub delta: Delta,
    pub before: HeapLengths,
    pub id: [u8; 16],
    pub counts: Counts,
}

/// The deltas up to the newest that lists a token, and the token's position there.
#[derive(Drop)]
pub struct Found<'a> {
    pub upto: &'a [Added],
    pub row: u32,
}

/// The newest delta, and those before it.
pub fn newest(added: &[Added]) -> Option<(&Added, &[Added])>
    ensures parts { MatchOption result (reverse added.now ≡ []) (λ r. reverse added.now ≡ r.0.now ∷ reverse r.1.now) }
    ensures fewer { IfSome result (λ r. length r.1.now < length added.now) }
{
    match added {
        [] => None,
        [older @ .., last] => Some((last, older)),
    }
}

/// The number in a column of a row of the newest delta.
pub fn number(added: &[Added], row: Token, column: u8) -> u32
    ensures { newest_number (reverse added.now) row column ≡ result }
{
    match newest(added) {
        Some((last, _)) => last.delta.cell(row, column),
        None => 0,
    }
}

/// The parts of the body at a place of the newest delta's code, None where none stands whole there.
pub fn body_in(added: &[Added], place: u32) -> Option<CodeRef<'_>>
    ensures code { option_map code_seen result ≡ code_in (reverse added.now) place }
    ensures few { IfSome result (λ c. length c.code.now < 2 ^ 32) }
    ensures short { IfSome result (λ c. length c.sections.now < 2 ^ 32) }
{
    match newest(added) {
        Some((last, _)) => last.delta.code(place),
        None => None,
    }
}

/// The lengths of joined heaps with one generation more.
fn longer(before: &HeapLengths, heaps: &Heaps<'_>) -> HeapLengths
    requires strings { before.now.strings + length heaps.now.strings < 2 ^ 32 }
    requires users { before.now.users + length heaps.now.users < 2 ^ 32 }
    requires blobs { before.now.blobs + length heaps.now.blobs < 2 ^ 32 }
    requires guids { length heaps.now.guids < 2 ^ 32 }
    ensures strings { result.strings ≡ before.now.strings + length heaps.now.strings }
    ensures users { result.users ≡ before.now.users + length heaps.now.users }
    ensures blobs { result.blobs ≡ before.now.blobs + length heaps.now.blobs }
    ensures guids { result.guids ≡ max before.now.guids (length heaps.now.guids / 16) }
{
    HeapLengths {
        strings: before.strings + heaps.strings().len() as u32,
        users: before.users + heaps.users().len() as u32,
        blobs: before.blobs + heaps.blobs().len() as u32,
        guids: before.guids.max((heaps.guids().len() / 16) as u32),
    }
}

/// The lengths of the joined heaps.
pub fn lengths_in(image: &Image, added: &[Added]) -> HeapLengths
    requires { AllAdded image.now (reverse added.now) }
    ensures { result ≡ joined_lengths (chain_with image.now (sources (reverse added.now))).heaps }
{
    match newest(added) {
        None => image.lengths(),
        Some((last, _)) => longer(&last.before, &last.delta.heaps()),
    }
}

/// The EncId of a delta, from 0.
pub fn id_in(added: &[Added], n: u32) -> [u8; 16]
    requires { n < length added.now }
    ensures { Some result ≡ slice_get (map (λ (a : Added). a.id) added.now) n }
{
    added[n as usize].id
}

/// The number of rows of a table, by those of all; no other table has any.
pub fn count_of(counts: &Counts, table: u8) -> u32
    ensures { result ≡ rows_counted counts.now.rows table }
{
    if table < 64 {
        counts.rows[table as usize]
    } else {
        0
    }
}

/// The number of rows of a table.
pub fn count_in(image: &Image, added: &[Added], table: u8) -> u32
    requires { AllAdded image.now (reverse added.now) }
    ensures count { result ≡ length (rows_in (chain_with image.now (sources (reverse added.now))).plain table) }
    ensures few { result < 2 ^ 24 }
{
    image.sound();
    let Some((last, _)) = newest(added) else {
        return image.count(table);
    };
    count_of(&last.counts, table)
}

/// A base that is sound, and deltas of which each was read from two files and follows those before it.
pub fn all_follow(image: &Image, added: &[Added])
    requires { AllAdded image.now (reverse added.now) }
    ensures { AllFollow image.now (sources (reverse added.now)) }
{
    image.sound();
    let mut rest = added;
    while let Some((last, older)) = newest(rest) {
        last.delta.was_read();
        rest = older;
    }
}
