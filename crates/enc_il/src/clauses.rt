//! The exception clauses of a method's body (ECMA-335 II.25.4.6).
ghost use Rattle.std.specs.Prelude.{◌≡◌, ◌<◌, true, false, Some, slice_get, is_some, IsTrue};
ghost use Rattle.std.specs.Int.{w8, w16, w32};
ghost use Rattle.enc_opcodes.specs.Clause.{number_or_zero, range_of, clause_in, clauses_in, clauses_of};
ghost use Rattle.enc_il.specs.Seen.{all_sections};

use crate::bytes::rest_at;
use crate::section::{behind_sections, clause_size, section_front};
use enc_base::{u8_at, u16_at, u32_at};
use enc_opcodes::{Clause, CodeRef};

/// The byte at a place, 0 past the end.
fn byte_or_zero(bytes: &[u8], at: usize) -> u32
    ensures { result ≡ number_or_zero w8 bytes.now at }
{
    u32::from(u8_at(bytes, at).unwrap_or(0))
}

/// The number of two bytes at a place, 0 where it doesn't stand whole there.
fn short_or_zero(bytes: &[u8], at: usize) -> u32
    ensures { result ≡ number_or_zero w16 bytes.now at }
{
    u32::from(u16_at(bytes, at).unwrap_or(0))
}

/// The number of four bytes at a place, 0 where it doesn't stand whole there.
fn long_or_zero(bytes: &[u8], at: usize) -> u32
    ensures { result ≡ number_or_zero w32 bytes.now at }
{
    u32_at(bytes, at).unwrap_or(0)
}

/// Where a range begins and where it ends, one past its last byte.
fn range_of(start: u32, len: u32) -> (u32, u32)
    ensures { result ≡ range_of start len }
{
    (start, start.wrapping_add(len))
}

/// The fat clause at the front (ECMA-335 II.25.4.6).
#[tactic(auto, unfolding(enc_opcodes::specs::Clause::clause_in))]
fn fat_clause(bytes: &[u8]) -> Clause
    ensures { result ≡ clause_in true bytes.now }
{
    Clause {
        kind: long_or_zero(bytes, 0),
        tries: range_of(long_or_zero(bytes, 4), long_or_zero(bytes, 8)),
        handler: range_of(long_or_zero(bytes, 12), long_or_zero(bytes, 16)),
        extra: long_or_zero(bytes, 20),
    }
}

/// The small clause at the front (ECMA-335 II.25.4.6).
#[tactic(auto, unfolding(enc_opcodes::specs::Clause::clause_in))]
fn small_clause(bytes: &[u8]) -> Clause
    ensures { result ≡ clause_in false bytes.now }
{
    Clause {
        kind: short_or_zero(bytes, 0),
        tries: range_of(short_or_zero(bytes, 2), byte_or_zero(bytes, 4)),
        handler: range_of(short_or_zero(bytes, 5), byte_or_zero(bytes, 7)),
        extra: long_or_zero(bytes, 8),
    }
}

/// The clause at the front: a fat one of 24 bytes, or a small one of 12. A field that doesn't stand
/// whole there is 0 (ECMA-335 II.25.4.6).
pub fn clause_front(fat: bool, bytes: &[u8]) -> Clause
    ensures { result ≡ clause_in fat bytes.now }
{
    if fat {
        fat_clause(bytes)
    } else {
        small_clause(bytes)
    }
}

/// The clause with this number, from 0, of so many one behind the other.
fn nth(fat: bool, count: u32, bytes: &[u8], i: u32) -> Clause
    requires { i < count }
    ensures { Some result ≡ slice_get (clauses_in fat count bytes.now) i }
{
    clause_front(fat, rest_at(bytes, clause_size(fat) * i as usize))
}

/// The clause with this number, from 0, of those in these sections, which stand whole.
fn clause_in_sections(sections: &[u8], i: u32) -> Option<Clause>
    requires { IsTrue (is_some (all_sections sections.now)) }
    ensures { result ≡ slice_get (clauses_of sections.now) i }
{
    let mut rest = sections;
    let mut left = i;
    while let Some((section, behind)) = section_front(rest) {
        if left < section.count {
            return Some(nth(section.fat, section.count, section.clauses, left));
        }
        if !section.more {
            return None;
        }
        left -= section.count;
        rest = behind;
    }
    None
}

/// The clause with this number, from 0, of those in all of the body's sections. None where there
/// are no more.
pub fn clause(code: &CodeRef<'_>, i: u32) -> Option<Clause>
    ensures { result ≡ slice_get (clauses_of code.now.sections.now) i }
{
    match behind_sections(code.sections) {
        None => None,
        Some(_) => clause_in_sections(code.sections, i),
    }
}
