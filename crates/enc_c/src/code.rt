//! The body of a method, over any view of a module.
ghost use Rattle.std.specs.Prelude.{◌≡◌, Err, IfErr, IfOk, IsTrue};
ghost use Rattle.enc_base.specs.Tables.{method_def};
ghost use Rattle.enc_plain.specs.Module.{has_row};
ghost use Rattle.enc_c.specs.Code.{asked_body, body_lent, CopiesCode};

use crate::copy::copy_out;
use crate::status::Status;
use enc_base::Token;
use enc_base::tables::METHOD_DEF;
use enc_opcodes::CodeRef;
use enc_plain::{ModuleView, is_row};

/// What stands before the code of a body.
#[repr(C)]
#[derive(Clone, Copy)]
pub struct CodeHead {
    /// The most values on the stack.
    pub stack: u32,
    /// The row of StandAloneSig, 0 where there are no locals.
    pub locals: u32,
    /// 1 where locals begin as zeros, and else 0.
    pub init: u32,
}

/// Whether a token is a method of the module: `Absent` where it is no row, and `Unlike` where it is one of another
/// table.
#[tactic(auto, unfolding(crate::specs::Code::asked_body))]
pub fn method_row<V: ModuleView>(view: &V, method: Token) -> Result<(), Status>
    ensures row { IfOk result (λ u. IsTrue (has_row (V.meaning view.now) method)) }
    ensures table { IfOk result (λ u. method.table ≡ method_def) }
    ensures none { IfErr result (λ s. asked_body (V.meaning view.now) method ≡ Err s) }
{
    if !is_row(view, method) {
        return Err(Status::Absent);
    }
    if method.table != METHOD_DEF {
        return Err(Status::Unlike);
    }
    Ok(())
}

/// The body of a method.
#[tactic(auto, unfolding(crate::specs::Code::asked_body))]
pub fn code<V: ModuleView>(view: &V, method: Token) -> Result<CodeRef<'_>, Status>
    ensures { body_lent (V.users view.now) result ≡ asked_body (V.meaning view.now) method }
{
    match method_row(view, method) {
        Err(status) => Err(status),
        Ok(()) => match view.code(method) {
            Some(code) => Ok(code),
            None => Err(Status::Absent),
        },
    }
}

/// Copies the code of a body and tells its head, or tells why there is none.
pub fn copy_code(
    answer: Result<CodeRef<'_>, Status>,
    buffer: &mut [u8],
    size: &mut usize,
    head: &mut CodeHead,
) -> u32
    ensures { CopiesCode result buffer.old buffer.new size.old size.new head.old head.new answer.entry }
{
    match answer {
        Ok(code) => {
            *head = CodeHead {
                stack: u32::from(code.max),
                locals: code.locals.row,
                init: u32::from(code.init),
            };
            copy_out(code.code, buffer, size)
        }
        Err(status) => status.number(),
    }
}
