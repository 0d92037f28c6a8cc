//! What a frame takes and gives on its stack.
ghost use Rattle.std.specs.Prelude.{◌≡◌, ◌∷◌, ◌<◌, ◌≤◌, drop, length, nat_lt, OnOk, OnErr};
ghost use Rattle.enc_frames.specs.Does.{Does};
ghost use Rattle.enc_frames.specs.FramesSeen.{handed_in, with_object_first};
ghost use Rattle.enc_frames.specs.Straight.{moved_on};
ghost use Rattle.enc_frames.specs.Values.{value_given};
ghost use Rattle.enc_objects.specs.declared.value.Value.TheVariants.{Null};

use crate::frame::Frame;
use crate::stop::Stop;
use crate::values::fit;
use enc_objects::{Kind, Trap, Value};
use std::alloc::AllocError;

impl Frame {
    /// What its method gives: nothing, or the value on the top as it is. X4 where that is of a wrong kind.
    pub fn given(&self, kind: Option<Kind>) -> Result<Option<Value>, Trap>
        ensures { result ≡ value_given kind self.now.stack }
    {
        let Some(kind) = kind else {
            return Ok(None);
        };
        let value = self.stack.upper()?;
        let _ = fit(kind, value)?;
        Ok(Some(value))
    }

    /// It goes on at an offset, with so many values fewer on its stack.
    pub(crate) fn move_on(&mut self, next: u32, n: usize)
        ensures { self.new ≡ moved_on next (drop n self.old.stack) self.old }
    {
        self.stack.remove(n);
        self.offset = next;
    }

    /// Whether its stack can hold one value more in the place of so many.
    pub fn can_take(&self, n: usize) -> bool
        requires { n ≤ length self.now.stack }
        ensures { result ≡ nat_lt (length (drop n self.now.stack)) self.now.code.code.max }
    {
        self.stack.len() - n < self.max() as usize
    }

    /// Null more on its stack. Without memory nothing changes.
    pub fn push_null(&mut self) -> Result<(), AllocError>
        ensures ok { OnOk result (self.new ≡ record self.old { stack = Null ∷ self.old.stack }) }
        ensures err { OnErr result (self.new ≡ self.old) }
    {
        self.stack.push(Value::Null)
    }

    /// The value on the top of its stack goes.
    pub fn pop(&mut self)
        ensures { self.new ≡ record self.old { stack = drop 1 self.old.stack } }
    {
        self.stack.remove(1);
    }

    /// It goes on at an offset, with a value in the place of so many upper ones.
    pub fn put(&mut self, next: u32, n: usize, value: Value)
        requires some { 0 < n }
        requires there { n ≤ length self.old.stack }
        ensures { self.new ≡ moved_on next (value ∷ drop n self.old.stack) self.old }
    {
        self.stack.replace(n, value);
        self.offset = next;
    }

    /// Its first argument becomes another.
    pub fn set_object(&mut self, value: Value)
        ensures { self.new ≡ with_object_first value self.old }
    {
        self.args.set(0, value);
    }
}

impl Frame {
    /// A value that was given goes on its stack, if any. X13 where the stack may not hold more.
    pub(crate) fn take_given(&mut self, value: Option<Value>) -> Result<(), Stop>
        ensures { Does result self.new self.old (handed_in value self.old) }
    {
        let Some(value) = value else {
            return Ok(());
        };
        if self.stack.len() >= self.max() as usize {
            return Err(Stop::Trap(Trap::X13));
        }
        self.stack.push(value)?;
        Ok(())
    }
}
