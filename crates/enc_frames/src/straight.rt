//! Instructions on a frame's own values (ECMA-335 III.3).
ghost use Rattle.std.specs.Prelude.{◌<◌};
ghost use Rattle.enc_frames.specs.Does.{Does};
ghost use Rattle.enc_frames.specs.Straight.{load, load_argument, load_local, store_argument, store_local, duplicate, discard, branch_if, branch_by, on_upper_two, on_top};

use crate::act::Test;
use crate::frame::Frame;
use crate::stop::Stop;
use crate::values::{fit, is_set, tested};
use enc_objects::{Kind, Trap, Value, binary, convert};
use enc_opcodes::Op;

impl Frame {
    /// A value goes on the stack.
    #[inline(always)]
    #[tactic(auto, unfolding(crate::specs::Straight::load))]
    pub(crate) fn load(&mut self, next: u32, value: Value) -> Result<(), Stop>
        ensures { Does result self.new self.old (load self.old.code.code.max next value self.old) }
    {
        if self.stack.len() >= self.max() as usize {
            return Err(Stop::Trap(Trap::X13));
        }
        self.stack.push(value)?;
        self.offset = next;
        Ok(())
    }

    /// `ldarg` (ECMA-335 III.3.38).
    #[inline(always)]
    #[tactic(auto, unfolding(crate::specs::Straight::load_argument))]
    pub(crate) fn load_argument(&mut self, next: u32, n: u32) -> Result<(), Stop>
        ensures { Does result self.new self.old (load_argument self.old.code.code.max next n self.old) }
    {
        match self.args.get(n) {
            None => Err(Stop::Trap(Trap::X2)),
            Some(value) => self.load(next, value),
        }
    }

    /// `ldloc` (ECMA-335 III.3.43).
    #[inline(always)]
    #[tactic(auto, unfolding(crate::specs::Straight::load_local))]
    pub(crate) fn load_local(&mut self, next: u32, n: u32) -> Result<(), Stop>
        ensures { Does result self.new self.old (load_local self.old.code.code.max next n self.old) }
    {
        match self.locals.get(n) {
            None => Err(Stop::Trap(Trap::X2)),
            Some(value) => self.load(next, value),
        }
    }

    /// `starg`, by the argument's kind (ECMA-335 III.3.61).
    #[inline(always)]
    #[tactic(auto, unfolding(crate::specs::Straight::store_argument))]
    pub(crate) fn store_argument(
        &mut self,
        kind: Option<Kind>,
        next: u32,
        n: u32,
    ) -> Result<(), Stop>
        ensures { Does result self.new self.old (store_argument kind next n self.old) }
    {
        let Some(kind) = kind else {
            return Err(Stop::Trap(Trap::X2));
        };
        let value = self.stack.upper()?;
        let value = fit(kind, value)?;
        self.args.set(n, value);
        self.stack.remove(1);
        self.offset = next;
        Ok(())
    }

    /// `stloc`, by the local variable's kind (ECMA-335 III.3.63).
    #[inline(always)]
    #[tactic(auto, unfolding(crate::specs::Straight::store_local))]
    pub(crate) fn store_local(&mut self, kind: Option<Kind>, next: u32, n: u32) -> Result<(), Stop>
        ensures { Does result self.new self.old (store_local kind next n self.old) }
    {
        let Some(kind) = kind else {
            return Err(Stop::Trap(Trap::X2));
        };
        let value = self.stack.upper()?;
        let value = fit(kind, value)?;
        self.locals.set(n, value);
        self.stack.remove(1);
        self.offset = next;
        Ok(())
    }

    /// `dup` (ECMA-335 III.3.34).
    #[inline(always)]
    #[tactic(auto, unfolding(crate::specs::Straight::duplicate))]
    pub(crate) fn duplicate(&mut self, next: u32) -> Result<(), Stop>
        ensures { Does result self.new self.old (duplicate self.old.code.code.max next self.old) }
    {
        match self.stack.upper() {
            Err(trap) => Err(Stop::Trap(trap)),
            Ok(value) => self.load(next, value),
        }
    }

    /// `pop` (ECMA-335 III.3.54).
    #[inline(always)]
    #[tactic(auto, unfolding(crate::specs::Straight::discard))]
    pub(crate) fn discard(&mut self, next: u32) -> Result<(), Stop>
        ensures { Does result self.new self.old (discard next self.old) }
    {
        let _ = self.stack.upper()?;
        self.stack.remove(1);
        self.offset = next;
        Ok(())
    }

    /// An instruction on two values.
    #[inline(always)]
    #[tactic(auto, unfolding(crate::specs::Straight::on_upper_two))]
    pub fn on_upper_two(&mut self, op: Op, next: u32) -> Result<(), Stop>
        ensures { Does result self.new self.old (on_upper_two op next self.old) }
    {
        let (a, b) = self.stack.upper_two()?;
        let value = binary(op, a, b)?;
        self.stack.replace(2, value);
        self.offset = next;
        Ok(())
    }

    /// An instruction on one value.
    #[inline(always)]
    #[tactic(auto, unfolding(crate::specs::Straight::on_top))]
    pub fn on_top(&mut self, op: Op, next: u32) -> Result<(), Stop>
        ensures { Does result self.new self.old (on_top op next self.old) }
    {
        let a = self.stack.upper()?;
        let value = convert(op, a)?;
        self.stack.replace(1, value);
        self.offset = next;
        Ok(())
    }

    /// `brtrue` where true is wanted, `brfalse` where false is (ECMA-335 III.3.17, III.3.18).
    #[inline(always)]
    #[tactic(auto, unfolding(crate::specs::Straight::branch_if))]
    pub(crate) fn branch_if(&mut self, wanted: bool, goal: u32, next: u32) -> Result<(), Stop>
        ensures { Does result self.new self.old (branch_if wanted goal next self.old) }
    {
        let value = self.stack.upper()?;
        self.offset = if is_set(value) == wanted { goal } else { next };
        self.stack.remove(1);
        Ok(())
    }

    /// A branch by a comparison (ECMA-335 III.3.5 to III.3.14).
    #[inline(always)]
    #[tactic(auto, unfolding(crate::specs::Straight::branch_by))]
    pub(crate) fn branch_by(&mut self, test: Test, goal: u32, next: u32) -> Result<(), Stop>
        ensures { Does result self.new self.old (branch_by test goal next self.old) }
    {
        let (a, b) = self.stack.upper_two()?;
        let holds = tested(test, a, b)?;
        self.offset = if holds { goal } else { next };
        self.stack.remove(2);
        Ok(())
    }
}
