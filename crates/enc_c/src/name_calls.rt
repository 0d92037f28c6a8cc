//! The calls that find types and members by their names.
ghost use Rattle.std.specs.Prelude.{◌≡◌};
ghost use Rattle.enc_base.specs.Token.{token_of};
ghost use Rattle.enc_c.specs.Asked.{of_open, told_by_number};
ghost use Rattle.enc_c.specs.Copied.{CopiesOrStays};
ghost use Rattle.enc_c.specs.Names.{asked_members, asked_type};
ghost use Rattle.enc_c.specs.State.{module_after};
ghost use Rattle.enc_c.specs.Status.{TellsValue};

use crate::copy::copy_items;
use crate::handle::{Handle, put, take};
use crate::names::{members, type_number};
use crate::status::{Status, tell};
use enc_base::Token;
use std::alloc::Global;

/// Tells the type with these names, which is nested in another, or in none where that is 0.
#[unsafe(no_mangle)]
pub extern "C" fn enc_find_type(
    alloc: Global,
    handle: &mut Handle,
    enclosing: u32,
    namespace: &[u8],
    name: &[u8],
    token: &mut u32,
) -> u32
    ensures kept { handle.new.held ≡ handle.old.held }
    ensures answer { TellsValue result token.old token.new (of_open handle.old.held
        (λ s. told_by_number (asked_type (module_after s) (token_of enclosing) namespace.now name.now))) }
{
    let Some(held) = take(handle, alloc) else {
        return Status::Closed.number();
    };
    let answer = type_number(held.chain.rows(), Token::of(enclosing), namespace, name);
    put(handle, alloc, held);
    tell(answer, token)
}

/// Copies the rows of a child table with a name that belong to a row.
#[unsafe(no_mangle)]
pub extern "C" fn enc_find_member(
    alloc: Global,
    handle: &mut Handle,
    owner: u32,
    table: u8,
    name: &[u8],
    buffer: &mut [u32],
    size: &mut usize,
) -> u32
    ensures kept { handle.new.held ≡ handle.old.held }
    ensures answer { CopiesOrStays result buffer.old buffer.new size.old size.new
        (of_open handle.old.held (λ s. asked_members (module_after s) (token_of owner) table name.now)) }
{
    let Some(held) = take(handle, alloc) else {
        return Status::Closed.number();
    };
    let status = copy_items(
        members(alloc, held.chain.rows(), Token::of(owner), table, name),
        buffer,
        size,
    );
    put(handle, alloc, held);
    status
}
