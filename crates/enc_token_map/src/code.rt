//! The code of a body with its tokens moved: each stands in the last four bytes of its instruction
//! (ECMA-335 III.1.9).
ghost use Rattle.std.specs.Prelude.{◌≡◌, ◌+◌, ◌-◌, ◌<◌, ◌≤◌, ◌^◌, ◌++◌, Some, length, take, drop, IfOk, OnOk};
ghost use Rattle.enc_base.specs.Numbers.{AreBytes};
ghost use Rattle.enc_il.specs.Seen.{instr_seen};
ghost use Rattle.enc_token_map.specs.Copied.{with_number, IsMovedFrom, IsMovedUpTo};
ghost use Rattle.enc_opcodes.specs.Instruction.{instr_in};

use crate::moves::Moves;
use enc_base::push_word;
use enc_il::instr_at;
use enc_opcodes::{Arg, CodeRef, Instr};
use std::alloc::{AllocError, Global};

/// Each number in bytes is one of a byte.
#[tactic(auto, using(crate::proofs::CodeBytes::all_bytes))]
pub(crate) fn bytes_law(bytes: &[u8])
    ensures { AreBytes bytes.now }
{
    let _all = &bytes[..];
}

/// Appends the bytes from a place up to another.
fn push_plain(code: &[u8], at: usize, end: usize, out: &mut Vec<u8>) -> Result<(), AllocError>
    requires order { at ≤ end }
    requires within { end ≤ length code.now }
    ensures { OnOk result (out.new.items ≡ out.old.items ++ take (end - at) (drop at code.now)) }
{
    out.extend_from_slice(&code[at..end])
}

/// Appends an instruction with the token of a number as its last four bytes.
fn push_token(
    code: &[u8],
    at: u32,
    end: u32,
    number: u32,
    out: &mut Vec<u8>,
) -> Result<(), AllocError>
    requires order { at + 4 < end }
    requires within { end ≤ length code.now }
    ensures { OnOk result (out.new.items ≡ with_number out.old.items code.now at (end - 4) number) }
{
    push_plain(code, at as usize, (end - 4) as usize, out)?;
    push_word(number, out)
}

/// Appends the instruction that was read at a place, its token moved. It comes with the offset behind
/// it.
fn push_instr<M: Moves>(
    code: &CodeRef<'_>,
    at: u32,
    read: &(Instr<'_>, u32),
    moves: &M,
    out: &mut Vec<u8>,
) -> Result<(), AllocError>
    requires bytes { AreBytes code.now.code.now }
    requires read { instr_in code.now.code.now at ≡ Some (instr_seen read.now) }
    requires moved { IsMovedUpTo (M.to moves.now) code.now.code.now out.old.items at }
    ensures { OnOk result (IsMovedUpTo (M.to moves.now) code.now.code.now out.new.items read.now.1) }
{
    match read.0.arg {
        Arg::Token(token) => push_token(code.code, at, read.1, moves.moved(token).number(), out),
        _ => push_plain(code.code, at as usize, read.1 as usize, out),
    }
}

/// The code with its tokens moved. What stands behind its last whole instruction stays as it is.
pub(crate) fn moved_code<M: Moves>(
    alloc: Global,
    code: &CodeRef<'_>,
    moves: &M,
) -> Result<Vec<u8>, AllocError>
    requires few { length code.now.code.now < 2 ^ 32 }
    ensures moved { IfOk result (λ v. IsMovedFrom (M.to moves.now) code.now.code.now v.items 0) }
    ensures size { IfOk result (λ v. length v.items ≡ length code.now.code.now) }
{
    bytes_law(code.code);
    let mut out = Vec::new(alloc);
    let mut at = 0;
    while let Some(read) = instr_at(code, at) {
        match push_instr(code, at, &read, moves, &mut out) {
            Ok(()) => {}
            Err(fault) => return Err(fault),
        }
        at = read.1;
    }
    match push_plain(code.code, at as usize, code.code.len(), &mut out) {
        Ok(()) => Ok(out),
        Err(fault) => Err(fault),
    }
}
