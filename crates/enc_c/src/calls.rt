//! The calls that tell numbers, tokens and places.
ghost use Rattle.std.specs.Prelude.{◌≡◌};
ghost use Rattle.enc_base.specs.Token.{token_of};
ghost use Rattle.enc_c.specs.Status.{TellsValue};
ghost use Rattle.enc_c.specs.State.{module_after};
ghost use Rattle.enc_c.specs.Cells.{asked_number, asked_token};
ghost use Rattle.enc_c.specs.Family.{asked_owner};
ghost use Rattle.enc_c.specs.Asked.{of_open, told_by_number, asked_generations, asked_count, asked_place, asked_heap_place};

use crate::handle::{Handle, put, take};
use crate::newest_module::PlaceNumbers;
use crate::status::{Status, tell};
use enc_base::Token;
use std::alloc::Global;

/// Tells how many generations there are, the base among them.
#[unsafe(no_mangle)]
pub extern "C" fn enc_generations(alloc: Global, handle: &mut Handle, count: &mut u32) -> u32
    ensures kept { handle.new.held ≡ handle.old.held }
    ensures answer { TellsValue result count.old count.new (of_open handle.old.held asked_generations) }
{
    let Some(held) = take(handle, alloc) else {
        return Status::Closed.number();
    };
    *count = held.generations();
    put(handle, alloc, held);
    Status::Done.number()
}

/// Tells how many rows a table has.
#[unsafe(no_mangle)]
pub extern "C" fn enc_count(alloc: Global, handle: &mut Handle, table: u8, count: &mut u32) -> u32
    ensures kept { handle.new.held ≡ handle.old.held }
    ensures answer { TellsValue result count.old count.new (of_open handle.old.held (λ s. asked_count s table)) }
{
    let Some(held) = take(handle, alloc) else {
        return Status::Closed.number();
    };
    *count = held.count(table);
    put(handle, alloc, held);
    Status::Done.number()
}

/// Tells where a row stands.
#[unsafe(no_mangle)]
pub extern "C" fn enc_locate(
    alloc: Global,
    handle: &mut Handle,
    row: u32,
    place: &mut PlaceNumbers,
) -> u32
    ensures kept { handle.new.held ≡ handle.old.held }
    ensures answer { TellsValue result place.old place.new
        (of_open handle.old.held (λ s. asked_place s (token_of row))) }
{
    let Some(held) = take(handle, alloc) else {
        return Status::Closed.number();
    };
    let answer = held.place(Token::of(row));
    put(handle, alloc, held);
    tell(answer, place)
}

/// Tells where an offset of a joined heap stands; of `#GUID` it is the number of an entry.
#[unsafe(no_mangle)]
pub extern "C" fn enc_locate_heap(
    alloc: Global,
    handle: &mut Handle,
    heap: u32,
    offset: u32,
    place: &mut PlaceNumbers,
) -> u32
    ensures kept { handle.new.held ≡ handle.old.held }
    ensures answer { TellsValue result place.old place.new
        (of_open handle.old.held (λ s. asked_heap_place s heap offset)) }
{
    let Some(held) = take(handle, alloc) else {
        return Status::Closed.number();
    };
    let answer = held.heap_place(heap, offset);
    put(handle, alloc, held);
    tell(answer, place)
}

/// Tells the number in a column.
#[unsafe(no_mangle)]
pub extern "C" fn enc_number(
    alloc: Global,
    handle: &mut Handle,
    row: u32,
    column: u8,
    number: &mut u32,
) -> u32
    ensures kept { handle.new.held ≡ handle.old.held }
    ensures answer { TellsValue result number.old number.new
        (of_open handle.old.held (λ s. asked_number (module_after s) (token_of row) column)) }
{
    let Some(held) = take(handle, alloc) else {
        return Status::Closed.number();
    };
    let answer = held.number(Token::of(row), column);
    put(handle, alloc, held);
    tell(answer, number)
}

/// Tells the token in a column of an index, by its number.
#[unsafe(no_mangle)]
pub extern "C" fn enc_token(
    alloc: Global,
    handle: &mut Handle,
    row: u32,
    column: u8,
    token: &mut u32,
) -> u32
    ensures kept { handle.new.held ≡ handle.old.held }
    ensures answer { TellsValue result token.old token.new
        (of_open handle.old.held (λ s. told_by_number (asked_token (module_after s) (token_of row) column))) }
{
    let Some(held) = take(handle, alloc) else {
        return Status::Closed.number();
    };
    let answer = held.token(Token::of(row), column);
    put(handle, alloc, held);
    tell(answer, token)
}

/// Tells the token of the row that owns a row of Field, MethodDef, Param, Event or Property.
#[unsafe(no_mangle)]
pub extern "C" fn enc_owner(alloc: Global, handle: &mut Handle, row: u32, owner: &mut u32) -> u32
    ensures kept { handle.new.held ≡ handle.old.held }
    ensures answer { TellsValue result owner.old owner.new
        (of_open handle.old.held (λ s. told_by_number (asked_owner (module_after s) (token_of row)))) }
{
    let Some(held) = take(handle, alloc) else {
        return Status::Closed.number();
    };
    let answer = held.owner(Token::of(row));
    put(handle, alloc, held);
    tell(answer, owner)
}
