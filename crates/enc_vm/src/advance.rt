//! The instruction at which a frame stands (ECMA-335 I.12.3.2).
ghost use Rattle.std.specs.Prelude.{◌≡◌, option_map};
ghost use Rattle.enc_base.specs.Numbers.{AreBytes};
ghost use Rattle.enc_il.specs.Seen.{instr_seen};
ghost use Rattle.enc_opcodes.specs.Instruction.{instr_in};
ghost use Rattle.enc_vm.specs.SharedSeen.{shared_in};
ghost use Rattle.enc_vm.specs.World.{world_in};
ghost use Rattle.enc_vm.specs.EffectsSeen.{Performs};
ghost use Rattle.enc_vm.specs.Placed.{IsFramePlaced};
ghost use Rattle.enc_vm.specs.Step.{advance};

use crate::effect::Effect;
use crate::shared::Shared;
use crate::thread::Thread;
use crate::world::World;
use enc_frames::Stop;
use enc_il::instr_at;
use enc_objects::Trap;
use enc_opcodes::Instr;
use enc_plain::ModuleView;
use enc_versions::Code;

/// Each number in bytes is one of a byte.
#[tactic(auto, using(crate::proofs::AtOffset::all_bytes))]
fn bytes_law(bytes: &[u8])
    ensures { AreBytes bytes.now }
{
    let _all = &bytes[..];
}

/// The instruction at an offset of a code, and the offset behind it.
#[inline(always)]
pub(crate) fn instruction_in<'a>(code: &'a Code, offset: u32) -> Option<(Instr<'a>, u32)>
    ensures instr { option_map instr_seen result ≡ instr_in code.now.code.code offset }
    ensures bytes { AreBytes code.now.code.code }
{
    let body = code.body();
    bytes_law(body.code);
    instr_at(&body, offset)
}

impl Thread {
    /// The instruction at which the innermost frame stands. X1 where it stands behind its code. Where it
    /// traps, and without memory, nothing changes.
    #[inline(always)]
    #[tactic(auto, using(crate::proofs::AtOffset::ends_at, crate::proofs::AtOffset::performs_at))]
    pub(crate) fn advance<V: ModuleView>(
        &mut self,
        world: &World<'_, V>,
        shared: &mut Shared,
    ) -> Result<Effect, Stop>
        requires placed { IsFramePlaced (world_in V.users V.meaning world.now) self.old.top }
        ensures { Performs result (shared_in shared.new) (shared_in shared.old) self.new self.old
            (advance (world_in V.users V.meaning world.now) (shared_in shared.old) self.old) }
    {
        let code = self.top.code().clone()?;
        match instruction_in(code.as_ref(), self.top.offset()) {
            None => Err(Stop::Trap(Trap::X1)),
            Some((instr, next)) => self.perform(world, shared, next, instr),
        }
    }
}
