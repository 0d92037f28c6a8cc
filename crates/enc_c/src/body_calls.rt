//! The calls that copy what a body has beside its code: exception clauses, and the user texts that it loads.
ghost use Rattle.std.specs.Prelude.{◌≡◌};
ghost use Rattle.enc_base.specs.Token.{token_of};
ghost use Rattle.enc_meta.specs.Joined.{joined_user};
ghost use Rattle.enc_c.specs.Asked.{of_open};
ghost use Rattle.enc_c.specs.Clauses.{asked_clauses};
ghost use Rattle.enc_c.specs.Copied.{Copies, CopiesOrStays};
ghost use Rattle.enc_c.specs.Names.{asked_user};
ghost use Rattle.enc_c.specs.State.{chain_after, module_after};

use crate::clauses::{ClauseNumbers, clauses};
use crate::copy::{copy_bytes, copy_items};
use crate::handle::{Handle, put, take};
use crate::names::user_text;
use crate::status::Status;
use enc_base::Token;
use std::alloc::Global;

/// Copies the exception clauses of a method's body.
#[unsafe(no_mangle)]
pub extern "C" fn enc_clauses(
    alloc: Global,
    handle: &mut Handle,
    method: u32,
    buffer: &mut [ClauseNumbers],
    size: &mut usize,
) -> u32
    ensures kept { handle.new.held ≡ handle.old.held }
    ensures answer { CopiesOrStays result buffer.old buffer.new size.old size.new
        (of_open handle.old.held (λ s. asked_clauses (module_after s) (token_of method))) }
{
    let Some(held) = take(handle, alloc) else {
        return Status::Closed.number();
    };
    let status = copy_items(
        clauses(alloc, held.chain.rows(), Token::of(method)),
        buffer,
        size,
    );
    put(handle, alloc, held);
    status
}

/// Copies the bytes of the UTF-16 units of the user text at an offset.
#[unsafe(no_mangle)]
pub extern "C" fn enc_user_text(
    alloc: Global,
    handle: &mut Handle,
    offset: u32,
    buffer: &mut [u8],
    size: &mut usize,
) -> u32
    ensures kept { handle.new.held ≡ handle.old.held }
    ensures answer { Copies result buffer.old buffer.new size.old size.new
        (of_open handle.old.held (λ s. asked_user (joined_user (chain_after s).heaps) offset)) }
{
    let Some(held) = take(handle, alloc) else {
        return Status::Closed.number();
    };
    let status = copy_bytes(user_text(held.chain.rows(), offset), buffer, size);
    put(handle, alloc, held);
    status
}
