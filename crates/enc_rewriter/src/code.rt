//! The code of a body that is written: its user texts are named by their offsets in the new heap
//! (ECMA-335 III.1.9, III.4.16).
ghost use Rattle.std.specs.Prelude.{◌≡◌, ◌+◌, ◌-◌, ◌<◌, ◌≤◌, ◌^◌, ◌++◌, ◌*◌, true, List, Some, length, take, drop, IsTrue, IfOk, OnOk};
ghost use Rattle.std.specs.List.{list_all};
ghost use Rattle.std.specs.Int.{w32, to_le_bytes};
ghost use Rattle.enc_il.specs.Seen.{arg_seen, instr_seen};
ghost use Rattle.enc_meta.specs.Built.{is_kept, heaps_built};
ghost use Rattle.enc_meta.specs.Heaps.{user_at};
ghost use Rattle.enc_opcodes.specs.Body.{code_seen, told};
ghost use Rattle.enc_opcodes.specs.Instruction.{instr_in};
ghost use Rattle.enc_rewriter.specs.Copied.{SaysSame, IsCopied, IsNamed};
ghost use Rattle.enc_rewriter.specs.Standing.{MayBeCopied};
ghost use Rattle.enc_rewriter.specs.Values.{no_starts, text_named, units_told};

use crate::kept::user_offset;
use crate::users::units_at;
use enc_base::push_word;
use enc_il::instr_at;
use enc_meta::HeapBuilder;
use enc_opcodes::{Arg, CodeRef, Instr};
use enc_plain::ModuleView;
use std::alloc::{AllocError, Global};

/// Where an instruction stands in a code: from one offset up to another.
#[derive(Drop)]
struct Span<'a> {
    code: &'a [u8],
    at: u32,
    end: u32,
}

/// Appends an instruction as it stands.
fn push_plain(span: &Span<'_>, out: &mut Vec<u8>) -> Result<(), AllocError>
    requires order { span.now.at ≤ span.now.end }
    requires within { span.now.end ≤ length span.now.code.now }
    ensures { OnOk result (out.new.items ≡ out.old.items
        ++ take (span.now.end - span.now.at) (drop span.now.at span.now.code.now)) }
{
    out.extend_from_slice(&span.code[span.at as usize..span.end as usize])
}

/// Appends an instruction with the token of the user text at an offset as its last four bytes.
fn push_named(span: &Span<'_>, offset: u32, out: &mut Vec<u8>) -> Result<(), AllocError>
    requires order { span.now.at + 4 < span.now.end }
    requires within { span.now.end ≤ length span.now.code.now }
    requires low { offset < 2 ^ 24 }
    ensures { OnOk result (out.new.items ≡ (out.old.items
        ++ take (span.now.end - 4 - span.now.at) (drop span.now.at span.now.code.now))
        ++ to_le_bytes w32 (0x70000000 + offset)) }
{
    let front = Span {
        code: span.code,
        at: span.at,
        end: span.end - 4,
    };
    push_plain(&front, out)?;
    push_word(0x7000_0000 + offset, out)
}

/// Appends an instruction that names the user text at an offset, with its token in the new heap.
fn push_text<V: ModuleView>(
    view: &V,
    span: &Span<'_>,
    offset: u32,
    heaps: &mut HeapBuilder,
    out: &mut Vec<u8>,
) -> Result<(), AllocError>
    requires starts { heaps.old.starts ≡ no_starts }
    requires order { span.now.at + 4 < span.now.end }
    requires within { span.now.end ≤ length span.now.code.now }
    requires kept { is_kept heaps.old.users (units_told (V.users view.now offset)) ≡ true }
    ensures named { OnOk result (IsNamed (V.users view.now) (user_at (heaps_built heaps.old).users)
        span.now.code.now span.now.at span.now.end offset out.old.items out.new.items) }
    ensures same { heaps.new ≡ heaps.old }
{
    match user_offset(heaps, units_at(view, offset)) {
        Ok(there) => push_named(span, there, out),
        Err(fault) => Err(fault),
    }
}

/// Appends the instruction that stands at a place, its user text named in the new heap.
#[tactic(auto, using(crate::proofs::OwnBytes::user_room, enc_opcodes::proofs::Instructions::instr_ends))]
fn push_instr<V: ModuleView>(
    view: &V,
    span: &Span<'_>,
    instr: &Instr<'_>,
    heaps: &mut HeapBuilder,
    out: &mut Vec<u8>,
) -> Result<(), AllocError>
    requires starts { heaps.old.starts ≡ no_starts }
    requires read { instr_in span.now.code.now span.now.at ≡ Some (instr_seen (instr.now, span.now.end)) }
    requires kept { list_all (is_kept heaps.old.users)
        (text_named (told (V.users view.now) (arg_seen span.now.end instr.now.arg))) ≡ true }
    requires copied { IsCopied (V.users view.now) (user_at (heaps_built heaps.old).users)
        span.now.code.now out.old.items span.now.at }
    ensures copied { OnOk result (IsCopied (V.users view.now) (user_at (heaps_built heaps.old).users)
        span.now.code.now out.new.items span.now.end) }
    ensures same { heaps.new ≡ heaps.old }
{
    match instr.arg {
        Arg::User(offset) => push_text(view, span, offset, heaps, out),
        _ => push_plain(span, out),
    }
}

/// The code with its user texts named by their offsets in the new heap.
pub(crate) fn patched<V: ModuleView>(
    alloc: Global,
    view: &V,
    code: &CodeRef<'_>,
    heaps: &mut HeapBuilder,
) -> Result<Vec<u8>, AllocError>
    requires { MayBeCopied (V.users view.now) heaps.old (code_seen code.now) }
    ensures says { IfOk result (λ v. SaysSame (V.users view.now)
        (user_at (heaps_built heaps.old).users) code.now.code.now v.items 0) }
    ensures size { IfOk result (λ v. length v.items ≡ length code.now.code.now) }
    ensures same { heaps.new ≡ heaps.old }
{
    let mut out = Vec::new(alloc);
    let mut at = 0;
    while let Some((instr, end)) = instr_at(code, at) {
        let span = Span {
            code: code.code,
            at,
            end,
        };
        match push_instr(view, &span, &instr, heaps, &mut out) {
            Ok(()) => {}
            Err(fault) => return Err(fault),
        }
        at = end;
    }
    Ok(out)
}
