//! The call that judges a delta and adds nothing.
ghost use Rattle.std.specs.Prelude.{◌≡◌};
ghost use Rattle.enc_c.specs.State.{given_bytes, applied_state};
ghost use Rattle.enc_c.specs.Outcomes.{bytes_held};
ghost use Rattle.enc_c.specs.Judging.{JudgesAs, Judges, JudgesFiles};

use crate::handle::{Handle, put, take};
use crate::held::Held;
use crate::open::{files_of, tell_fault};
use crate::refusal::RefusalNumbers;
use crate::status::Status;
use enc_base::ReadFault;
use enc_checker::Files;
use std::alloc::Global;

impl Held {
    /// Judges the files of a delta after those before it, and adds nothing. `Refused` names the first rule that they
    /// break.
    #[tactic(auto, unfolding(crate::specs::State::applied_state))]
    pub fn judge(&self, alloc: Global, files: Files) -> Result<(), ReadFault>
        ensures { JudgesAs result (applied_state self.now files.meta.items files.il.items (bytes_held files.pdb)) }
    {
        self.chain.check(alloc, files)?;
        Ok(())
    }
}

/// Judges the files of a delta after what an open handle holds.
fn judge(alloc: Global, held: &Held, files: Files, refusal: &mut RefusalNumbers) -> u32
    ensures { Judges result refusal.old refusal.new
        (applied_state held.now files.meta.items files.il.items (bytes_held files.pdb)) }
{
    match held.judge(alloc, files) {
        Ok(()) => Status::Done.number(),
        Err(fault) => tell_fault(fault, refusal),
    }
}

/// Judges a delta after those before it, with its PDB, where that has bytes, as `enc_apply` does, and adds nothing.
#[unsafe(no_mangle)]
pub extern "C" fn enc_check(
    alloc: Global,
    handle: &mut Handle,
    meta: &[u8],
    il: &[u8],
    pdb: &[u8],
    refusal: &mut RefusalNumbers,
) -> u32
    ensures kept { handle.new.held ≡ handle.old.held }
    ensures answer { JudgesFiles result handle.old.held refusal.old refusal.new
        (λ s. applied_state s meta.now il.now (given_bytes pdb.now)) }
{
    let Some(held) = take(handle, alloc) else {
        return Status::Closed.number();
    };
    let status = match files_of(alloc, meta, il, pdb) {
        Ok(files) => judge(alloc, &held, files, refusal),
        Err(_) => Status::Memory.number(),
    };
    put(handle, alloc, held);
    status
}
