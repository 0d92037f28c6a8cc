//! The frames below the innermost.
ghost use Rattle.std.specs.Prelude.{◌≡◌, ◌∷◌, [], ◌<◌, drop, length, reverse, OnOk, OnErr};
ghost use Rattle.enc_frames.specs.Callers.{without_first, first_if_any};
ghost use Rattle.enc_frames.specs.Does.{Does};
ghost use Rattle.enc_frames.specs.FramesSeen.{handed_first, nearest_or, with_nearest};
ghost use Rattle.enc_frames.specs.Straight.{moved_on};

use crate::frame::Frame;
use crate::stop::Stop;
use enc_objects::Value;
use std::alloc::{AllocError, Global};
use std::marker::Model;
use std::mem;

/// The frames below the innermost one, fewer than 1,024; their list begins with the nearest.
#[derive(Drop)]
pub struct Callers {
    pub(crate) items: Vec<Frame>,
}

impl Model for Callers {
    ghost use Rattle.std.specs.Prelude.{◌<◌, List, length, reverse};
    ghost use Rattle.enc_versions.specs.Version.{Version};
    ghost use Rattle.enc_frames.specs.Machine.{Frame as TheFrame};

    ghost Value = { List (TheFrame Version) };

    ghost view = { λ c. reverse c.items.items };

    ghost invariant = { λ c. length c.items.items < 1024 };
}

impl Callers {
    /// None. It takes no memory.
    pub fn begin(alloc: Global) -> Callers
        ensures { result ≡ [] }
    {
        Callers {
            items: Vec::new(alloc),
        }
    }

    /// How many there are.
    pub fn len(&self) -> usize
        ensures len { result ≡ length self.now }
        ensures few { result < 1024 }
    {
        self.items.len()
    }

    /// All, the outermost first.
    pub fn as_slice(&self) -> &[Frame]
        ensures { reverse result.now ≡ self.now }
    {
        self.items.as_slice()
    }

    /// A frame becomes the innermost one, and what was it the nearest below. Without memory nothing changes.
    pub fn enter(&mut self, top: &mut Frame, frame: Frame) -> Result<(), AllocError>
        requires { length self.old < 1023 }
        ensures top { OnOk result (top.new ≡ frame) }
        ensures below { OnOk result (self.new ≡ top.old ∷ self.old) }
        ensures same_top { OnErr result (top.new ≡ top.old) }
        ensures same_below { OnErr result (self.new ≡ self.old) }
    {
        self.items.push(frame)?;
        let last = self.items.len() - 1;
        mem::swap(top, &mut self.items[last]);
        Ok(())
    }

    /// The nearest frame becomes the innermost one, None where there is none.
    pub fn leave(&mut self) -> Option<Frame>
        ensures frame { result ≡ first_if_any self.old }
        ensures rest { self.new ≡ without_first self.old }
    {
        self.items.pop()
    }
}

impl Callers {
    /// A frame becomes the innermost one, and what was it the nearest below, which goes on at an offset with
    /// so many values fewer on its stack. Without memory nothing changes.
    pub fn enter_call(
        &mut self,
        top: &mut Frame,
        frame: Frame,
        next: u32,
        n: usize,
    ) -> Result<(), AllocError>
        requires { length self.old < 1023 }
        ensures top { OnOk result (top.new ≡ frame) }
        ensures below { OnOk result (self.new ≡ moved_on next (drop n top.old.stack) top.old ∷ self.old) }
        ensures same_top { OnErr result (top.new ≡ top.old) }
        ensures same_below { OnErr result (self.new ≡ self.old) }
    {
        self.items.push(frame)?;
        let last = self.items.len() - 1;
        top.move_on(next, n);
        mem::swap(top, &mut self.items[last]);
        Ok(())
    }

    /// A frame more, which is the nearest. Without memory nothing changes.
    pub fn hold(&mut self, frame: Frame) -> Result<(), AllocError>
        requires { length self.old < 1023 }
        ensures ok { OnOk result (self.new ≡ frame ∷ self.old) }
        ensures err { OnErr result (self.new ≡ self.old) }
    {
        self.items.push(frame)?;
        Ok(())
    }

    /// The innermost frame and the nearest below it change places, where there is one below.
    pub fn swap_nearest(&mut self, top: &mut Frame)
        ensures below { self.new ≡ with_nearest top.old self.old }
        ensures top { top.new ≡ nearest_or top.old self.old }
    {
        let n = self.items.len();
        if n == 0 {
            return;
        }
        mem::swap(top, &mut self.items[n - 1]);
    }
}

impl Callers {
    /// A value that was given goes on the nearest frame's stack, if any.
    #[tactic(auto, using(crate::proofs::Nearest::none_there))]
    pub fn hand(&mut self, value: Option<Value>) -> Result<(), Stop>
        ensures { Does result self.new self.old (handed_first value self.old) }
    {
        let n = self.items.len();
        if n == 0 {
            return Ok(());
        }
        self.items[n - 1].take_given(value)
    }
}
