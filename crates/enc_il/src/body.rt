//! The parts of a method's body (ECMA-335 II.25.4).
ghost use Rattle.std.specs.Prelude.{◌≡◌, ◌+◌, ◌*◌, ◌<◌, ◌≤◌, ◌^◌, length, option_map, IfOk, IfSome};
ghost use Rattle.enc_base.specs.Numbers.{padded as padded_to};
ghost use Rattle.enc_opcodes.specs.Body.{code_seen, nil_or, sections_behind as behind, if_short, tiny_at, fat_at, body_at};
ghost use Rattle.enc_il.specs.Seen.{body_seen};

use crate::bytes::{range_at, rest_at};
use crate::section::sections_front;
use enc_base::{Token, u8_at, u16_at, u32_at};
use enc_opcodes::CodeRef;

/// No header, code and sections of a body stand whole there.
#[derive(Clone, Copy, Debug, PartialEq, Eq)]
pub struct BodyFault;

/// The token, nil where its row is 0.
pub fn nil_or(token: Token) -> Token
    ensures { result ≡ nil_or token }
{
    if token.row == 0 {
        return Token { table: 0, row: 0 };
    }
    token
}

/// The next multiple of four.
#[tactic(auto, unfolding(enc_base::specs::Numbers::padded))]
pub fn padded(n: usize) -> usize
    requires { n < 2 ^ 32 }
    ensures padded { result ≡ padded_to n }
    ensures more { n ≤ result }
    ensures few { result < n + 4 }
{
    (n + 3) / 4 * 4
}

/// The body behind a tiny header of one byte, by the size of its code (ECMA-335 II.25.4.2).
fn tiny_at(bytes: &[u8], at: usize, size: usize) -> Option<CodeRef<'_>>
    requires { at < length bytes.now }
    ensures body { option_map code_seen result ≡ tiny_at bytes.now at size }
    ensures few { IfSome result (λ c. length c.code.now ≤ size) }
    ensures short { IfSome result (λ c. length c.sections.now < 2 ^ 32) }
{
    let code = range_at(bytes, at + 1, size)?;
    Some(CodeRef {
        max: 8,
        init: false,
        locals: Token { table: 0, row: 0 },
        code,
        sections: &[],
    })
}

/// Sections of fewer than 2^32 bytes; longer ones are none.
fn if_short(sections: &[u8]) -> Option<&[u8]>
    ensures short { option_map (λ x. x.now) result ≡ if_short sections.now }
    ensures few { IfSome result (λ x. length x.now < 2 ^ 32) }
{
    if sections.len() < 0x1_0000_0000 {
        return Some(sections);
    }
    None
}

/// The data sections at the place behind the code, where a flag says that there are any.
fn sections_behind(bytes: &[u8], at: usize, more: bool) -> Option<&[u8]>
    ensures sections { option_map (λ x. x.now) result ≡ behind bytes.now at more }
    ensures few { IfSome result (λ x. length x.now < 2 ^ 32) }
{
    if more {
        if_short(sections_front(rest_at(bytes, at))?)
    } else {
        Some(&[])
    }
}

/// The body with a fat header of twelve bytes (ECMA-335 II.25.4.3).
#[tactic(auto, unfolding(enc_opcodes::specs::Body::fat_at))]
fn fat_at(bytes: &[u8], at: usize) -> Option<CodeRef<'_>>
    ensures body { option_map code_seen result ≡ fat_at bytes.now at }
    ensures few { IfSome result (λ c. length c.code.now < 2 ^ 32) }
    ensures short { IfSome result (λ c. length c.sections.now < 2 ^ 32) }
{
    let flags = u16_at(bytes, at)?;
    let max = u16_at(bytes, at + 2)?;
    let size = u32_at(bytes, at + 4)? as usize;
    let locals = nil_or(Token::of(u32_at(bytes, at + 8)?));
    let code = range_at(bytes, at + 12, size)?;
    let sections = sections_behind(bytes, at + 12 + padded(size), flags / 8 % 2 == 1)?;
    if flags / 0x1000 == 3 {
        let init = flags / 0x10 % 2 == 1;
        return Some(CodeRef {
            max,
            init,
            locals,
            code,
            sections,
        });
    }
    None
}

/// The body whose header stands at a place of the bytes, None where none stands whole there.
#[tactic(auto, unfolding(enc_opcodes::specs::Body::body_at))]
fn body_in(bytes: &[u8], at: usize, place: u32) -> Option<CodeRef<'_>>
    ensures body { option_map code_seen result ≡ body_at bytes.now at place }
    ensures few { IfSome result (λ c. length c.code.now < 2 ^ 32) }
    ensures short { IfSome result (λ c. length c.sections.now < 2 ^ 32) }
{
    let first = u8_at(bytes, at)?;
    if first % 4 == 2 {
        return tiny_at(bytes, at, usize::from(first / 4));
    }
    if first % 4 == 3 && place % 4 == 0 {
        return fat_at(bytes, at);
    }
    None
}

/// The body whose header stands at a place of the bytes, which is this place of the image or of the
/// delta's code (its RVA or its offset): a fat header begins at a multiple of four of the latter
/// (ECMA-335 II.25.4). Sections of 2^32 bytes or more are none.
pub fn read_body(bytes: &[u8], at: usize, place: u32) -> Result<CodeRef<'_>, BodyFault>
    ensures body { body_seen result ≡ body_at bytes.now at place }
    ensures few { IfOk result (λ c. length c.code.now < 2 ^ 32) }
    ensures short { IfOk result (λ c. length c.sections.now < 2 ^ 32) }
{
    match body_in(bytes, at, place) {
        Some(code) => Ok(code),
        None => Err(BodyFault),
    }
}
