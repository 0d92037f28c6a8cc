//! The calls that copy into a buffer of the caller's.
ghost use Rattle.std.specs.Prelude.{◌≡◌};
ghost use Rattle.enc_base.specs.Token.{token_of};
ghost use Rattle.enc_c.specs.Copied.{Copies, CopiesOrStays};
ghost use Rattle.enc_c.specs.State.{chain_after, module_after};
ghost use Rattle.enc_c.specs.Cells.{asked_text, asked_blob, asked_guid};
ghost use Rattle.enc_c.specs.Family.{asked_kids};
ghost use Rattle.enc_c.specs.Opened.{TellsBodyOf};
ghost use Rattle.enc_c.specs.Reasons.{words_by};
ghost use Rattle.enc_c.specs.Asked.{of_open, asked_id, asked_row, asked_points, asked_document};

use crate::code::{CodeHead, copy_code};
use crate::copy::{copy_bytes, copy_guid, copy_items};
use crate::handle::{Handle, put, take};
use crate::points::PointNumbers;
use crate::reason::words_by;
use crate::refusal::RefusalNumbers;
use crate::status::Status;
use enc_base::Token;
use std::alloc::Global;

/// Copies the EncId of a generation, sixteen zeros for the base.
#[unsafe(no_mangle)]
pub extern "C" fn enc_id(
    alloc: Global,
    handle: &mut Handle,
    generation: u32,
    buffer: &mut [u8],
    size: &mut usize,
) -> u32
    ensures kept { handle.new.held ≡ handle.old.held }
    ensures answer { Copies result buffer.old buffer.new size.old size.new
        (of_open handle.old.held (λ s. asked_id (chain_after s) generation)) }
{
    let Some(held) = take(handle, alloc) else {
        return Status::Closed.number();
    };
    let status = copy_guid(held.id(generation), buffer, size);
    put(handle, alloc, held);
    status
}

/// Copies the bytes of a text.
#[unsafe(no_mangle)]
pub extern "C" fn enc_text(
    alloc: Global,
    handle: &mut Handle,
    row: u32,
    column: u8,
    buffer: &mut [u8],
    size: &mut usize,
) -> u32
    ensures kept { handle.new.held ≡ handle.old.held }
    ensures answer { Copies result buffer.old buffer.new size.old size.new
        (of_open handle.old.held (λ s. asked_text (module_after s) (token_of row) column)) }
{
    let Some(held) = take(handle, alloc) else {
        return Status::Closed.number();
    };
    let status = copy_bytes(held.text(Token::of(row), column), buffer, size);
    put(handle, alloc, held);
    status
}

/// Copies the bytes of a blob.
#[unsafe(no_mangle)]
pub extern "C" fn enc_blob(
    alloc: Global,
    handle: &mut Handle,
    row: u32,
    column: u8,
    buffer: &mut [u8],
    size: &mut usize,
) -> u32
    ensures kept { handle.new.held ≡ handle.old.held }
    ensures answer { Copies result buffer.old buffer.new size.old size.new
        (of_open handle.old.held (λ s. asked_blob (module_after s) (token_of row) column)) }
{
    let Some(held) = take(handle, alloc) else {
        return Status::Closed.number();
    };
    let status = copy_bytes(held.blob(Token::of(row), column), buffer, size);
    put(handle, alloc, held);
    status
}

/// Copies the sixteen bytes of a GUID.
#[unsafe(no_mangle)]
pub extern "C" fn enc_guid(
    alloc: Global,
    handle: &mut Handle,
    row: u32,
    column: u8,
    buffer: &mut [u8],
    size: &mut usize,
) -> u32
    ensures kept { handle.new.held ≡ handle.old.held }
    ensures answer { Copies result buffer.old buffer.new size.old size.new
        (of_open handle.old.held (λ s. asked_guid (module_after s) (token_of row) column)) }
{
    let Some(held) = take(handle, alloc) else {
        return Status::Closed.number();
    };
    let status = copy_guid(held.guid(Token::of(row), column), buffer, size);
    put(handle, alloc, held);
    status
}

/// Copies the rows of a row's children in a child table.
#[unsafe(no_mangle)]
pub extern "C" fn enc_kids(
    alloc: Global,
    handle: &mut Handle,
    row: u32,
    table: u8,
    buffer: &mut [u32],
    size: &mut usize,
) -> u32
    ensures kept { handle.new.held ≡ handle.old.held }
    ensures answer { CopiesOrStays result buffer.old buffer.new size.old size.new
        (of_open handle.old.held (λ s. asked_kids (module_after s) (token_of row) table)) }
{
    let Some(held) = take(handle, alloc) else {
        return Status::Closed.number();
    };
    let status = copy_items(held.kids(alloc, Token::of(row), table), buffer, size);
    put(handle, alloc, held);
    status
}

/// Copies the printed row.
#[unsafe(no_mangle)]
pub extern "C" fn enc_row(
    alloc: Global,
    handle: &mut Handle,
    row: u32,
    buffer: &mut [u8],
    size: &mut usize,
) -> u32
    ensures kept { handle.new.held ≡ handle.old.held }
    ensures answer { CopiesOrStays result buffer.old buffer.new size.old size.new
        (of_open handle.old.held (λ s. asked_row s (token_of row))) }
{
    let Some(held) = take(handle, alloc) else {
        return Status::Closed.number();
    };
    let status = copy_items(held.row(alloc, Token::of(row)), buffer, size);
    put(handle, alloc, held);
    status
}

/// Copies the sequence points of a method.
#[unsafe(no_mangle)]
pub extern "C" fn enc_points(
    alloc: Global,
    handle: &mut Handle,
    method: u32,
    buffer: &mut [PointNumbers],
    size: &mut usize,
) -> u32
    ensures kept { handle.new.held ≡ handle.old.held }
    ensures answer { CopiesOrStays result buffer.old buffer.new size.old size.new
        (of_open handle.old.held (λ s. asked_points s (token_of method))) }
{
    let Some(held) = take(handle, alloc) else {
        return Status::Closed.number();
    };
    let status = copy_items(held.points(alloc, Token::of(method)), buffer, size);
    put(handle, alloc, held);
    status
}

/// Copies the name of the document that a number means in the points of a method.
#[unsafe(no_mangle)]
pub extern "C" fn enc_document(
    alloc: Global,
    handle: &mut Handle,
    method: u32,
    number: u32,
    buffer: &mut [u8],
    size: &mut usize,
) -> u32
    ensures kept { handle.new.held ≡ handle.old.held }
    ensures answer { CopiesOrStays result buffer.old buffer.new size.old size.new
        (of_open handle.old.held (λ s. asked_document s (token_of method) number)) }
{
    let Some(held) = take(handle, alloc) else {
        return Status::Closed.number();
    };
    let status = copy_items(
        held.document(alloc, Token::of(method), number),
        buffer,
        size,
    );
    put(handle, alloc, held);
    status
}

/// Copies the code of a method's body, and tells what stands before it.
#[unsafe(no_mangle)]
pub extern "C" fn enc_code(
    alloc: Global,
    handle: &mut Handle,
    method: u32,
    buffer: &mut [u8],
    size: &mut usize,
    head: &mut CodeHead,
) -> u32
    ensures kept { handle.new.held ≡ handle.old.held }
    ensures answer { TellsBodyOf handle.old.held
        (token_of method) result buffer.old buffer.new size.old size.new head.old head.new }
{
    let Some(held) = take(handle, alloc) else {
        return Status::Closed.number();
    };
    let status = copy_code(held.code(Token::of(method)), buffer, size, head);
    put(handle, alloc, held);
    status
}

/// Copies the words of a refusal: its rule and its place, as the program prints them, and the end of a line.
#[unsafe(no_mangle)]
pub extern "C" fn enc_words(
    alloc: Global,
    refusal: &RefusalNumbers,
    buffer: &mut [u8],
    size: &mut usize,
) -> u32
    ensures { CopiesOrStays result buffer.old buffer.new size.old size.new (words_by refusal.now) }
{
    copy_items(words_by(alloc, *refusal), buffer, size)
}
