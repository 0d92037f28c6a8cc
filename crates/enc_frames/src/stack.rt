//! The evaluation stack of a frame.
ghost use Rattle.std.specs.Prelude.{◌≡◌, ◌∷◌, ◌<◌, ◌≤◌, [], drop, length, slice_get, reverse, OnOk, OnErr};
ghost use Rattle.enc_frames.specs.ArgumentsSeen.{taken_seen};
ghost use Rattle.enc_frames.specs.Values.{arguments};
ghost use Rattle.enc_frames.specs.Values.{upper, upper_two, upper_three};

use enc_objects::{Trap, Value};
use std::alloc::{AllocError, Global};
use std::marker::Model;

/// The values on a frame's evaluation stack; its list has the top first.
#[derive(Drop)]
pub struct Stack {
    items: Vec<Value>,
}

impl Model for Stack {
    ghost use Rattle.std.specs.Prelude.{List, reverse};
    ghost use Rattle.enc_objects.specs.declared.value.Value.{Value as TheValue};

    ghost Value = { List TheValue };

    ghost view = { λ s. reverse s.items.items };
}

impl Stack {
    /// No values. It takes no memory: a body may name room for 65,535 values and use one, so the stack grows as it
    /// is used.
    #[inline(always)]
    pub(crate) fn begin(alloc: Global) -> Stack
        ensures { result ≡ [] }
    {
        Stack {
            items: Vec::new(alloc),
        }
    }

    /// How many values there are.
    #[inline(always)]
    pub(crate) fn len(&self) -> usize
        ensures { result ≡ length self.now }
    {
        self.items.len()
    }

    /// All, from the bottom up.
    pub(crate) fn as_slice(&self) -> &[Value]
        ensures { reverse result.now ≡ self.now }
    {
        self.items.as_slice()
    }

    /// The value so many below the top, None where there are fewer.
    #[inline(always)]
    pub(crate) fn below_top(&self, i: usize) -> Option<Value>
        ensures { result ≡ slice_get self.now i }
    {
        let n = self.items.len();
        if i >= n {
            return None;
        }
        Some(self.items[n - 1 - i])
    }

    /// The value on the top.
    #[inline(always)]
    pub fn upper(&self) -> Result<Value, Trap>
        ensures { result ≡ upper self.now }
    {
        match self.below_top(0) {
            None => Err(Trap::X3),
            Some(a) => Ok(a),
        }
    }

    /// The two upper values, the top last.
    #[inline(always)]
    pub(crate) fn upper_two(&self) -> Result<(Value, Value), Trap>
        ensures { result ≡ upper_two self.now }
    {
        let Some(a) = self.below_top(1) else {
            return Err(Trap::X3);
        };
        match self.below_top(0) {
            None => Err(Trap::X3),
            Some(b) => Ok((a, b)),
        }
    }

    /// The three upper values, the top last.
    pub(crate) fn upper_three(&self) -> Result<(Value, Value, Value), Trap>
        ensures { result ≡ upper_three self.now }
    {
        let Some(a) = self.below_top(2) else {
            return Err(Trap::X3);
        };
        let Some(b) = self.below_top(1) else {
            return Err(Trap::X3);
        };
        match self.below_top(0) {
            None => Err(Trap::X3),
            Some(c) => Ok((a, b, c)),
        }
    }

    /// So many values from the top, in the order in which they were put there. X3 where there are fewer.
    #[tactic(auto, unfolding(crate::specs::Values::arguments))]
    pub(crate) fn taken(&self, n: usize) -> Result<&[Value], Trap>
        ensures { taken_seen result ≡ arguments n self.now }
    {
        let len = self.items.len();
        if n > len {
            return Err(Trap::X3);
        }
        Ok(&self.items.as_slice()[len - n..])
    }

    /// One value more. Without memory nothing changes.
    #[inline(always)]
    pub(crate) fn push(&mut self, value: Value) -> Result<(), AllocError>
        ensures ok { OnOk result (self.new ≡ value ∷ self.old) }
        ensures err { OnErr result (self.new ≡ self.old) }
    {
        self.items.push(value)?;
        Ok(())
    }

    /// So many upper values go, or all where there are fewer.
    #[inline(always)]
    pub(crate) fn remove(&mut self, n: usize)
        ensures { self.new ≡ drop n self.old }
    {
        let len = self.items.len();
        if n >= len {
            self.items.clear();
        } else {
            self.items.truncate(len - n);
        }
    }

    /// One value alone. Without memory nothing changes.
    pub(crate) fn be_single(&mut self, value: Value) -> Result<(), AllocError>
        ensures ok { OnOk result (self.new ≡ value ∷ []) }
        ensures err { OnErr result (self.new ≡ self.old) }
    {
        if self.items.len() == 0 {
            return self.push(value);
        }
        self.items.truncate(1);
        self.items[0] = value;
        Ok(())
    }

    /// All values go.
    pub(crate) fn clear(&mut self)
        ensures { self.new ≡ [] }
    {
        self.items.clear();
    }

    /// A value stands in the place of so many upper ones, of which there is one at least.
    #[inline(always)]
    pub(crate) fn replace(&mut self, n: usize, value: Value)
        requires some { 0 < n }
        requires there { n ≤ length self.old }
        ensures { self.new ≡ value ∷ drop n self.old }
    {
        let first = self.items.len() - n;
        self.items[first] = value;
        self.items.truncate(first + 1);
    }
}
