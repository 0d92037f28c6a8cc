//! The arguments or local variables of a frame.
ghost use Rattle.std.specs.Prelude.{◌≡◌, ◌<◌, ◌++◌, length, slice_get, slice_set, OnOk, OnErr};

use enc_objects::Value;
use std::alloc::AllocError;
use std::marker::Model;

/// Values by their numbers, from 0.
#[derive(Drop)]
pub(crate) struct Cells {
    items: Vec<Value>,
}

impl Model for Cells {
    ghost use Rattle.std.specs.Prelude.{List};
    ghost use Rattle.enc_objects.specs.declared.value.Value.{Value as TheValue};

    ghost Value = { List TheValue };

    ghost view = { λ c. c.items.items };
}

impl Cells {
    /// These values. It takes no memory.
    #[inline(always)]
    pub(crate) fn of(items: Vec<Value>) -> Cells
        ensures { result ≡ items.items }
    {
        Cells { items }
    }

    /// How many there are.
    #[inline(always)]
    pub(crate) fn len(&self) -> usize
        ensures { result ≡ length self.now }
    {
        self.items.len()
    }

    /// The value of a number, None past the last.
    #[inline(always)]
    pub(crate) fn get(&self, n: u32) -> Option<Value>
        ensures { result ≡ slice_get self.now n }
    {
        self.items.get(n as usize).copied()
    }

    /// Sets the value of a number, where there is one.
    #[inline(always)]
    pub(crate) fn set(&mut self, n: u32, value: Value)
        ensures { self.new ≡ slice_set self.old n value }
    {
        if (n as usize) < self.items.len() {
            self.items[n as usize] = value;
        }
    }

    /// Puts values behind the last. Without memory nothing changes.
    pub(crate) fn append(&mut self, more: &[Value]) -> Result<(), AllocError>
        ensures ok { OnOk result (self.new ≡ self.old ++ more.now) }
        ensures err { OnErr result (self.new ≡ self.old) }
    {
        self.items.extend_from_slice(more)
    }

    /// All, in order.
    pub(crate) fn as_slice(&self) -> &[Value]
        ensures { result.now ≡ self.now }
    {
        self.items.as_slice()
    }
}
