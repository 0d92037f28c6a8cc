//! Calls that are under way.
ghost use Rattle.std.specs.Prelude.{◌≡◌, ◌<◌, ◌^◌, ◌==◌, length, not, OnOk, OnErr};
ghost use Rattle.enc_opcodes.specs.Body.{code_seen};
ghost use Rattle.enc_base.specs.Tables.{method_def};
ghost use Rattle.enc_frames.specs.Moves.{moved_to};

use crate::cells::Cells;
use crate::handlers::RunningHandlers;
use crate::stack::Stack;
use enc_base::Token;
use enc_objects::Value;
use enc_opcodes::CodeRef;
use enc_versions::Code;
use std::alloc::AllocError;
use std::marker::Model;
use std::rc::Rc;

/// A call that is under way (ECMA-335 I.12.3.2): its method, the code that it keeps, with which it began or
/// to which it was moved last, the offset of its next instruction, its arguments, local variables and stack,
/// and the handlers that it runs.
#[derive(Drop)]
pub struct Frame {
    pub(crate) method: Token,
    pub(crate) code: Rc<Code>,
    pub(crate) offset: u32,
    pub(crate) args: Cells,
    pub(crate) locals: Cells,
    pub(crate) stack: Stack,
    pub(crate) running: RunningHandlers,
}

impl Model for Frame {
    ghost use Rattle.std.specs.Prelude.{◌≡◌};
    ghost use Rattle.enc_base.specs.Tables.{method_def};
    ghost use Rattle.enc_versions.specs.Version.{Version};
    ghost use Rattle.enc_frames.specs.Machine.{Frame as TheFrame};

    ghost Value = { TheFrame Version };

    ghost view = { λ f. record {
      method = f.method;
      code = f.code.value;
      offset = f.offset;
      args = f.args;
      locals = f.locals;
      stack = f.stack;
      running = f.running;
    } };

    ghost invariant = { λ f. f.method.table ≡ method_def };
}

impl Frame {
    /// Its body.
    #[inline(always)]
    pub fn body(&self) -> CodeRef<'_>
        ensures body { code_seen result ≡ self.now.code.code }
        ensures few { length self.now.code.code.code < 2 ^ 32 }
        ensures short { length self.now.code.code.sections < 2 ^ 32 }
    {
        self.code.as_ref().body()
    }

    /// Its method.
    #[inline(always)]
    pub fn method(&self) -> Token
        ensures method { result ≡ self.now.method }
        ensures table { result.table ≡ method_def }
    {
        self.method
    }

    /// The offset of its next instruction.
    #[inline(always)]
    pub fn offset(&self) -> u32
        ensures { result ≡ self.now.offset }
    {
        self.offset
    }

    /// The code that it keeps: the one with which it began, or that of its last move.
    #[inline(always)]
    pub fn code(&self) -> &Rc<Code>
        ensures { result.now.value ≡ self.now.code }
    {
        &self.code
    }

    /// Its stack.
    #[inline(always)]
    pub fn stack(&self) -> &Stack
        ensures { result.now ≡ self.now.stack }
    {
        &self.stack
    }

    /// Whether it runs a handler.
    pub fn is_handling(&self) -> bool
        ensures { result ≡ not (length self.now.running == 0) }
    {
        !self.running.is_empty()
    }

    /// Goes on in another code, at an offset of it, with more local variables behind its own; all else stays.
    /// Without memory nothing changes.
    pub fn move_to(&mut self, code: Rc<Code>, offset: u32, more: &[Value]) -> Result<(), AllocError>
        ensures ok { OnOk result (self.new ≡ moved_to code.value offset more.now self.old) }
        ensures err { OnErr result (self.new ≡ self.old) }
    {
        self.locals.append(more)?;
        self.code = code;
        self.offset = offset;
        Ok(())
    }

    /// How many values its stack may hold.
    #[inline(always)]
    pub(crate) fn max(&self) -> u16
        ensures { result ≡ self.now.code.code.max }
    {
        self.body().max
    }
}
