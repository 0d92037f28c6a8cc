//! The data sections behind a method's code (ECMA-335 II.25.4.5).
ghost use Rattle.std.specs.Prelude.{◌≡◌, ◌<◌, ◌≤◌, length, option_map, IfSome};
ghost use Rattle.enc_opcodes.specs.Clause.{clause_size as size_of_clause, counted_in, with_clauses as with_bytes, section_of_kind as of_kind, section_in};
ghost use Rattle.enc_opcodes.specs.Body.{sections_at};
ghost use Rattle.enc_il.specs.Seen.{behind_all, section_seen};

use crate::bytes::range_at;

/// A data section of exception clauses (ECMA-335 II.25.4.5).
#[derive(Clone, Copy, Debug, PartialEq, Eq)]
pub struct SectionRef<'a> {
    /// Its clauses are the fat ones, of 24 bytes each in place of 12.
    pub fat: bool,
    /// Another section follows it.
    pub more: bool,
    /// The number of its clauses.
    pub count: u32,
    /// The bytes of its clauses.
    pub clauses: &'a [u8],
}

/// The bytes of a clause.
pub fn clause_size(fat: bool) -> usize
    ensures size { result ≡ size_of_clause fat }
    ensures few { result ≤ 24 }
{
    if fat { 24 } else { 12 }
}

/// How many clauses a section has, by the three bytes behind its kind: a fat section's size is of
/// all three, a small one's of the first.
fn counted(fat: bool, a: u8, b: u8, c: u8) -> u32
    ensures { result ≡ counted_in fat a b c }
{
    if fat {
        ((u32::from(c) * 256 + u32::from(b)) * 256 + u32::from(a)) / 24
    } else {
        u32::from(a) / 12
    }
}

/// The section with so many clauses, and the bytes behind them. None where they don't stand whole
/// in the bytes.
#[tactic(auto, unfolding(enc_opcodes::specs::Instruction::range_at))]
fn with_clauses<'a>(
    fat: bool,
    more: bool,
    count: u32,
    rest: &'a [u8],
) -> Option<(SectionRef<'a>, &'a [u8])>
    ensures section { option_map section_seen result ≡ with_bytes fat more count rest.now }
    ensures within { IfSome result (λ x. length x.1.now ≤ length rest.now) }
{
    let size = clause_size(fat) * count as usize;
    let clauses = range_at(rest, 0, size)?;
    let behind = rest.get(size..)?;
    let section = SectionRef {
        fat,
        more,
        count,
        clauses,
    };
    Some((section, behind))
}

/// The section behind a kind byte and the three bytes of its size, and the bytes behind it. None
/// where it isn't one of exception clauses.
#[tactic(auto, unfolding(enc_opcodes::specs::Clause::section_of_kind))]
fn section_of_kind<'a>(
    kind: u8,
    a: u8,
    b: u8,
    c: u8,
    rest: &'a [u8],
) -> Option<(SectionRef<'a>, &'a [u8])>
    ensures section { option_map section_seen result ≡ of_kind kind a b c rest.now }
    ensures within { IfSome result (λ x. length x.1.now ≤ length rest.now) }
{
    match kind {
        0x01 => with_clauses(false, false, counted(false, a, b, c), rest),
        0x41 => with_clauses(true, false, counted(true, a, b, c), rest),
        0x81 => with_clauses(false, true, counted(false, a, b, c), rest),
        0xC1 => with_clauses(true, true, counted(true, a, b, c), rest),
        _ => None,
    }
}

/// The section at the front, and the bytes behind it. None where no section of exception clauses
/// stands whole there.
#[tactic(auto, unfolding(enc_opcodes::specs::Clause::section_in))]
pub fn section_front<'a>(bytes: &'a [u8]) -> Option<(SectionRef<'a>, &'a [u8])>
    ensures section { option_map section_seen result ≡ section_in bytes.now }
    ensures shorter { IfSome result (λ x. length x.1.now < length bytes.now) }
{
    match bytes {
        [kind, a, b, c, rest @ ..] => section_of_kind(*kind, *a, *b, *c, rest),
        _ => None,
    }
}

/// The bytes behind the sections at the front. None where one of the sections isn't whole.
pub fn behind_sections(bytes: &[u8]) -> Option<&[u8]>
    ensures behind { option_map (λ x. x.now) result ≡ behind_all bytes.now }
    ensures within { IfSome result (λ x. length x.now ≤ length bytes.now) }
{
    let mut rest = bytes;
    while let Some((section, behind)) = section_front(rest) {
        if !section.more {
            return Some(behind);
        }
        rest = behind;
    }
    None
}

/// The sections at the front, up to the end of the last. None where one of them isn't whole.
#[tactic(auto, unfolding(enc_opcodes::specs::Body::sections_at))]
pub fn sections_front(bytes: &[u8]) -> Option<&[u8]>
    ensures { option_map (λ x. x.now) result ≡ sections_at bytes.now }
{
    let behind = behind_sections(bytes)?;
    bytes.get(..bytes.len() - behind.len())
}
