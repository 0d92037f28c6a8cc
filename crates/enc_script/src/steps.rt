//! Steps of a task, one behind the other.
ghost use Rattle.std.specs.Prelude.{◌≡◌, IfOk};
ghost use Rattle.enc_script.specs.Ran.{HaveStepped};
ghost use Rattle.enc_script.specs.Run.{steps_of};

use enc_session::Session;
use enc_vm::StepEnd;
use enc_watch::Watcher;
use std::alloc::AllocError;

/// At most so many steps of a task, and the lines that they print: how many were made. One that trapped isn't
/// counted.
pub(crate) fn make_steps<W: Watcher>(
    session: &mut Session<W>,
    task: u32,
    count: u32,
    out: &mut Vec<u8>,
) -> Result<u32, AllocError>
    ensures stepped { IfOk result (λ made. HaveStepped
        (steps_of task count) made session.new session.old out.new.items out.old.items) }
    ensures given { session.new.seated.given ≡ session.old.seated.given }
{
    let mut made = 0;
    while made < count {
        match session.step(task, out)? {
            StepEnd::Ran => made += 1,
            StepEnd::Ended => return Ok(made + 1),
            StepEnd::Trapped(_) | StepEnd::Idle | StepEnd::Absent => return Ok(made),
        }
    }
    Ok(made)
}
