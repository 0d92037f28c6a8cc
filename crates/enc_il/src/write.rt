//! Bodies that are written: a tiny or a fat header, the code, and fat sections of clauses
//! (ECMA-335 II.25.4).
ghost use Rattle.std.specs.Prelude.{◌≡◌, ◌+◌, ◌-◌, ◌*◌, ◌<◌, ◌≤◌, ◌^◌, ◌++◌, ◌∷◌, [], length, flat_map, IfOk, OnOk, OnErr, IsTrue, if◌then◌else◌};
ghost use Rattle.std.specs.Int.{w32, to_le_bytes};
ghost use Rattle.enc_opcodes.specs.Body.{code_seen};
ghost use Rattle.enc_il.specs.Written.{range_length, clause_bytes, most_clauses as most, size_bytes, data_section_written, sections_written, is_tiny as tiny_serves, flags_written, code_written, fat_written, tiny_written, body_written, place_for as place_behind, with_body};

use crate::body::{nil_or, padded};
use enc_base::{push_half, push_word, push_zeros};
use enc_opcodes::{Clause, CodeRef};
use std::alloc::{AllocError, Global};

/// Appends a range as a fat clause has it, by its start and its length.
fn push_range(range: (u32, u32), out: &mut Vec<u8>) -> Result<(), AllocError>
    ensures { OnOk result (out.new.items ≡ out.old.items ++ to_le_bytes w32 range.0 ++ to_le_bytes w32
        (range_length range)) }
{
    push_word(range.0, out)?;
    push_word(range.1.wrapping_sub(range.0), out)
}

/// Appends a fat clause (ECMA-335 II.25.4.6).
#[tactic(auto, unfolding(crate::specs::Written::clause_bytes))]
fn push_clause(clause: &Clause, out: &mut Vec<u8>) -> Result<(), AllocError>
    ensures { OnOk result (out.new.items ≡ out.old.items ++ clause_bytes clause.now) }
{
    push_word(clause.kind, out)?;
    push_range(clause.tries, out)?;
    push_range(clause.handler, out)?;
    push_word(clause.extra, out)
}

/// Appends fat clauses, one behind the other.
fn push_clauses(clauses: &[Clause], out: &mut Vec<u8>) -> Result<(), AllocError>
    ensures { OnOk result (out.new.items ≡ out.old.items ++ flat_map clause_bytes clauses.now) }
{
    for clause in clauses {
        push_clause(clause, out)?;
    }
    Ok(())
}

/// The kind of a section of fat clauses: 41, and 80 where another section follows it.
fn section_kind(more: bool) -> u8
    ensures { result ≡ (if more then 0xC1 else 0x41) }
{
    if more { 0xC1 } else { 0x41 }
}

/// Appends the header of a section of fat clauses of so many bytes, its own four among them.
fn push_section_header(more: bool, size: usize, out: &mut Vec<u8>) -> Result<(), AllocError>
    requires { size < 2 ^ 24 }
    ensures { OnOk result (out.new.items ≡ out.old.items ++ ((if more then 0xC1 else 0x41) ∷ size_bytes size)) }
{
    out.extend_from_slice(&[
        section_kind(more),
        (size % 0x100) as u8,
        (size / 0x100 % 0x100) as u8,
        (size / 0x1_0000) as u8,
    ])
}

/// Appends a section of fat clauses, behind which another may follow (ECMA-335 II.25.4.5).
#[tactic(auto, unfolding(crate::specs::Written::data_section_written))]
fn push_section(more: bool, clauses: &[Clause], out: &mut Vec<u8>) -> Result<(), AllocError>
    requires { 4 + 24 * length clauses.now < 2 ^ 24 }
    ensures { OnOk result (out.new.items ≡ out.old.items ++ data_section_written more clauses.now) }
{
    push_section_header(more, 4 + 24 * clauses.len(), out)?;
    push_clauses(clauses, out)
}

/// As many clauses as the three bytes of a section's size can say.
#[tactic(auto, unfolding(crate::specs::Written::most_clauses))]
fn most_clauses() -> usize
    ensures most { result ≡ most }
    ensures some { 0 < result }
    ensures few { 4 + 24 * result < 2 ^ 24 }
{
    699_050
}

/// Appends sections with all clauses, of which there is one.
#[tactic(auto, using(crate::proofs::SectionsWritten::written_steps))]
fn push_sections(clauses: &[Clause], out: &mut Vec<u8>) -> Result<(), AllocError>
    requires { 0 < length clauses.now }
    ensures { OnOk result (out.new.items ≡ out.old.items ++ sections_written clauses.now) }
{
    let most = most_clauses();
    let mut rest = clauses;
    while rest.len() > most {
        let (front, behind) = rest.split_at(most);
        push_section(true, front, out)?;
        rest = behind;
    }
    push_section(false, rest, out)
}

/// Appends the code, and behind it the sections where there are clauses, at a multiple of four.
fn push_code(code: &CodeRef<'_>, clauses: &[Clause], out: &mut Vec<u8>) -> Result<(), AllocError>
    requires { length code.now.code.now < 2 ^ 32 }
    ensures { OnOk result (out.new.items ≡ out.old.items ++ code_written (code_seen code.now) clauses.now) }
{
    let len = code.code.len();
    out.extend_from_slice(code.code)?;
    match clauses {
        [] => Ok(()),
        [_, ..] => {
            push_zeros(padded(len) - len, out)?;
            push_sections(clauses, out)
        }
    }
}

/// The flags of a fat header: fat, sections where there are clauses, init, and its size.
fn flags(init: bool, clauses: &[Clause]) -> u16
    ensures { result ≡ flags_written init clauses.now }
{
    let sections = if clauses.is_empty() { 0 } else { 8 };
    let zeroed = if init { 0x10 } else { 0 };
    0x3003 + sections + zeroed
}

/// Appends a body with a fat header of twelve bytes (ECMA-335 II.25.4.3).
#[tactic(auto, unfolding(crate::specs::Written::fat_written))]
fn push_fat(code: &CodeRef<'_>, clauses: &[Clause], out: &mut Vec<u8>) -> Result<(), AllocError>
    requires row { code.now.locals.row < 2 ^ 24 }
    requires size { length code.now.code.now < 2 ^ 32 }
    ensures { OnOk result (out.new.items ≡ out.old.items ++ fat_written (code_seen code.now) clauses.now) }
{
    push_half(flags(code.init, clauses), out)?;
    push_half(code.max, out)?;
    push_word(code.code.len() as u32, out)?;
    push_word(nil_or(code.locals).number(), out)?;
    push_code(code, clauses, out)
}

/// Appends a body with a tiny header of one byte (ECMA-335 II.25.4.2).
fn push_tiny(code: &CodeRef<'_>, out: &mut Vec<u8>) -> Result<(), AllocError>
    requires { length code.now.code.now < 64 }
    ensures { OnOk result (out.new.items ≡ out.old.items ++ tiny_written (code_seen code.now)) }
{
    out.extend_from_slice(&[(code.code.len() * 4 + 2) as u8])?;
    out.extend_from_slice(code.code)
}

/// A tiny header says enough: at most 63 bytes of code, 8 values on the stack, no locals and no
/// clauses.
#[tactic(auto, unfolding(crate::specs::Written::is_tiny))]
fn is_tiny(code: &CodeRef<'_>, clauses: &[Clause]) -> bool
    ensures tiny { result ≡ tiny_serves (code_seen code.now) clauses.now }
    ensures few { IsTrue result → length code.now.code.now < 64 }
{
    match clauses {
        [] => code.code.len() < 64 && code.max == 8 && !code.init && code.locals.row == 0,
        [_, ..] => false,
    }
}

/// Appends a body.
#[tactic(auto, unfolding(crate::specs::Written::body_written))]
fn push_body(code: &CodeRef<'_>, clauses: &[Clause], out: &mut Vec<u8>) -> Result<(), AllocError>
    requires row { code.now.locals.row < 2 ^ 24 }
    requires size { length code.now.code.now < 2 ^ 32 }
    ensures { OnOk result (out.new.items ≡ out.old.items ++ body_written (code_seen code.now) clauses.now) }
{
    if is_tiny(code, clauses) {
        return push_tiny(code, out);
    }
    push_fat(code, clauses, out)
}

/// Where a body begins behind so many bytes: a fat one at a multiple of four.
#[tactic(auto, unfolding(crate::specs::Written::place_for))]
fn place_for(size: usize, code: &CodeRef<'_>, clauses: &[Clause]) -> usize
    requires { size < 2 ^ 32 }
    ensures place { result ≡ place_behind size (code_seen code.now) clauses.now }
    ensures behind { size ≤ result }
    ensures few { result < size + 4 }
{
    if is_tiny(code, clauses) {
        return size;
    }
    padded(size)
}

/// Writes a body behind the bytes in `out`, and answers where in them it begins. The body's own
/// `sections` are passed over: its clauses are those in `clauses`, which are written in fat
/// sections. Its header is tiny where that says enough, else fat and at a multiple of four, with
/// zeros in front of it (ECMA-335 II.25.4). The time is linear in what is written. An error says
/// that there is no memory, and `out` is then as it was.
#[tactic(auto, unfolding(crate::specs::Written::with_body))]
pub fn write_body(
    alloc: Global,
    code: &CodeRef<'_>,
    clauses: &[Clause],
    out: &mut Vec<u8>,
) -> Result<u32, AllocError>
    requires row { code.now.locals.row < 2 ^ 24 }
    requires size { length out.old.items + length code.now.code.now + 28 * length clauses.now + 32 < 2 ^ 32 }
    ensures written { OnOk result (out.new.items ≡ with_body out.old.items (code_seen code.now) clauses.now) }
    ensures place { IfOk result (λ place. place
        ≡ place_behind (length out.old.items) (code_seen code.now) clauses.now) }
    ensures few { OnOk result (length out.new.items
        < length out.old.items + length code.now.code.now + 28 * length clauses.now + 32) }
    ensures err { OnErr result (out.new.items ≡ out.old.items) }
{
    let size = out.len();
    let place = place_for(size, code, clauses);
    let mut body = Vec::new(alloc);
    push_zeros(place - size, &mut body)?;
    push_body(code, clauses, &mut body)?;
    out.extend_from_slice(&body)?;
    Ok(place as u32)
}
