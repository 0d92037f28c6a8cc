//! Frames as they are shown.
ghost use Rattle.std.specs.Prelude.{◌≡◌, ◌==◌, length, not, reverse};
ghost use Rattle.enc_base.specs.Tables.{method_def};

use crate::frame::Frame;
use enc_base::Token;
use enc_objects::Value;
use enc_versions::Code;
use std::marker::Model;
use std::rc::Rc;

/// A frame of a task: a call that is under way (ECMA-335 I.12.3.2).
#[derive(Drop)]
pub struct FrameRef<'a> {
    pub(crate) frame: &'a Frame,
}

impl<'a> Model for FrameRef<'a> {
    ghost use Rattle.enc_versions.specs.Version.{Version};
    ghost use Rattle.enc_frames.specs.Machine.{Frame as TheFrame};

    ghost Value = { TheFrame Version };

    ghost view = { λ f. f.frame.now };
}

impl<'a> FrameRef<'a> {
    /// Its method.
    pub fn method(&self) -> Token
        ensures method { result ≡ self.now.method }
        ensures table { result.table ≡ method_def }
    {
        let frame = self.frame;
        frame.method()
    }

    /// The offset of its next instruction.
    pub fn offset(&self) -> u32
        ensures { result ≡ self.now.offset }
    {
        let frame = self.frame;
        frame.offset
    }

    /// The code that it keeps: the one with which it began, or that of its last move.
    pub fn code(&self) -> &'a Rc<Code>
        ensures { result.now.value ≡ self.now.code }
    {
        let frame = self.frame;
        &frame.code
    }

    /// Its arguments.
    pub fn args(&self) -> &'a [Value]
        ensures { result.now ≡ self.now.args }
    {
        let frame = self.frame;
        frame.args.as_slice()
    }

    /// Its local variables.
    pub fn locals(&self) -> &'a [Value]
        ensures { result.now ≡ self.now.locals }
    {
        let frame = self.frame;
        frame.locals.as_slice()
    }

    /// Its stack, from the bottom up.
    pub fn stack(&self) -> &'a [Value]
        ensures { reverse result.now ≡ self.now.stack }
    {
        let frame = self.frame;
        frame.stack.as_slice()
    }

    /// Whether it runs a handler.
    pub fn is_handling(&self) -> bool
        ensures { result ≡ not (length self.now.running == 0) }
    {
        let frame = self.frame;
        frame.is_handling()
    }
}

impl Frame {
    /// The frame, as it is shown.
    pub fn shown(&self) -> FrameRef<'_>
        ensures { result ≡ self.now }
    {
        FrameRef { frame: self }
    }
}
