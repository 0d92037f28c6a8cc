//! The calls that ask of an earlier generation.
ghost use Rattle.std.specs.Prelude.{◌≡◌};
ghost use Rattle.enc_base.specs.Token.{token_of};
ghost use Rattle.enc_agg.specs.Seen.{module_of_all, users_of_all};
ghost use Rattle.enc_agg.specs.Stored.{code_stored};
ghost use Rattle.enc_c.specs.Asked.{of_open};
ghost use Rattle.enc_c.specs.Code.{asked_body, LendsCode};
ghost use Rattle.enc_c.specs.Copied.{CopiesOrStays};
ghost use Rattle.enc_c.specs.SessionNumbers.{pairs_of};
ghost use Rattle.enc_c.specs.Earlier.{TellsBodyAt, TellsOrStays, asked_document_at, asked_points_at, asked_move, asked_row_at};

use crate::code::{CodeHead, copy_code, method_row};
use crate::copy::copy_items;
use crate::handle::{Handle, put, take};
use crate::held::Held;
use crate::points::PointNumbers;
use crate::session_numbers::PairNumbers;
use crate::status::{Status, tell};
use enc_agg::Earlier;
use enc_base::Token;
use enc_opcodes::CodeRef;
use enc_remap::Standing;
use std::alloc::Global;

/// Copies the row as it was printed after the first so many deltas.
#[unsafe(no_mangle)]
pub extern "C" fn enc_row_at(
    alloc: Global,
    handle: &mut Handle,
    generation: u32,
    row: u32,
    buffer: &mut [u8],
    size: &mut usize,
) -> u32
    ensures kept { handle.new.held ≡ handle.old.held }
    ensures answer { CopiesOrStays result buffer.old buffer.new size.old size.new
        (of_open handle.old.held (λ s. asked_row_at s generation (token_of row))) }
{
    let Some(held) = take(handle, alloc) else {
        return Status::Closed.number();
    };
    let status = copy_items(held.row_at(alloc, generation, Token::of(row)), buffer, size);
    put(handle, alloc, held);
    status
}

/// Copies the code that a method's body had after the first so many deltas, and tells what stands before it.
#[tactic(auto, unfolding(crate::specs::Earlier::TellsBodyAt))]
#[unsafe(no_mangle)]
pub extern "C" fn enc_code_at(
    alloc: Global,
    handle: &mut Handle,
    generation: u32,
    method: u32,
    buffer: &mut [u8],
    size: &mut usize,
    head: &mut CodeHead,
) -> u32
    ensures kept { handle.new.held ≡ handle.old.held }
    ensures answer { TellsBodyAt handle.old.held generation
        (token_of method) result buffer.old buffer.new size.old size.new head.old head.new }
{
    let Some(held) = take(handle, alloc) else {
        return Status::Closed.number();
    };
    let status = copy_code_at(&held, generation, Token::of(method), buffer, size, head);
    put(handle, alloc, held);
    status
}

/// Copies the code of a method's body of an earlier generation.
#[tactic(auto, unfolding(crate::specs::Earlier::TellsBodyAt))]
fn copy_code_at(
    held: &Held,
    generation: u32,
    method: Token,
    buffer: &mut [u8],
    size: &mut usize,
    head: &mut CodeHead,
) -> u32
    ensures { TellsBodyAt (Some held.now) generation method result buffer.old buffer.new size.old size.new head.old
        head.new }
{
    if !held.has_generation(generation) {
        return Status::Later.number();
    }
    let view = held.chain.rows().at(generation);
    copy_code(code_in(&view, method), buffer, size, head)
}

/// The body that a method had, as it stood in the newest file that had it.
#[tactic(auto, unfolding(crate::specs::Code::asked_body))]
fn code_in<'a>(view: &'a Earlier<'_>, method: Token) -> Result<CodeRef<'a>, Status>
    ensures { LendsCode (users_of_all view.now) (code_stored view.now.base view.now.deltas method) result
        (asked_body (module_of_all view.now) method) }
{
    match method_row(view, method) {
        Err(status) => Err(status),
        Ok(()) => match view.code_of(method) {
            Some(code) => Ok(code),
            None => Err(Status::Absent),
        },
    }
}

/// Copies the sequence points that a method had after the first so many deltas.
#[unsafe(no_mangle)]
pub extern "C" fn enc_points_at(
    alloc: Global,
    handle: &mut Handle,
    generation: u32,
    method: u32,
    buffer: &mut [PointNumbers],
    size: &mut usize,
) -> u32
    ensures kept { handle.new.held ≡ handle.old.held }
    ensures answer { CopiesOrStays result buffer.old buffer.new size.old size.new
        (of_open handle.old.held (λ s. asked_points_at s generation (token_of method))) }
{
    let Some(held) = take(handle, alloc) else {
        return Status::Closed.number();
    };
    let status = copy_items(
        held.points_at(alloc, generation, Token::of(method)),
        buffer,
        size,
    );
    put(handle, alloc, held);
    status
}

/// Copies the name of the document that a number means in the points that a method had after the first so many deltas.
#[unsafe(no_mangle)]
pub extern "C" fn enc_document_at(
    alloc: Global,
    handle: &mut Handle,
    generation: u32,
    method: u32,
    number: u32,
    buffer: &mut [u8],
    size: &mut usize,
) -> u32
    ensures kept { handle.new.held ≡ handle.old.held }
    ensures answer { CopiesOrStays result buffer.old buffer.new size.old size.new
        (of_open handle.old.held (λ s. asked_document_at s generation (token_of method) number)) }
{
    let Some(held) = take(handle, alloc) else {
        return Status::Closed.number();
    };
    let status = copy_items(
        held.document_at(alloc, generation, Token::of(method), number),
        buffer,
        size,
    );
    put(handle, alloc, held);
    status
}

/// Tells whether a frame of a host's own may go on in the newest body of its method: it stands at an offset of the body
/// that the method had after the first so many deltas. The rule is 0, or the first of Q3 to Q7 that is broken.
#[unsafe(no_mangle)]
pub extern "C" fn enc_may_remap(
    alloc: Global,
    handle: &mut Handle,
    method: u32,
    generation: u32,
    offset: u32,
    map: &[PairNumbers],
    rule: &mut u32,
) -> u32
    ensures kept { handle.new.held ≡ handle.old.held }
    ensures answer { TellsOrStays result rule.old rule.new
        (of_open handle.old.held (λ s. asked_move s generation (token_of method) offset (pairs_of map.now))) }
{
    let Some(held) = take(handle, alloc) else {
        return Status::Closed.number();
    };
    let at = Standing {
        method: Token::of(method),
        offset,
    };
    let answer = held.may_remap(alloc, generation, at, map);
    put(handle, alloc, held);
    tell(answer, rule)
}
