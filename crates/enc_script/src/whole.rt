//! A run of a script.
ghost use Rattle.std.specs.Prelude.{◌≡◌, ◌≤◌, ◌<◌, ◌+◌, ◌^◌, [], OnOk, length, map};
ghost use Rattle.enc_script.specs.Ran.{HasRan};
ghost use Rattle.enc_script.specs.Run.{RunWasAppended, commands_ran, named_delta};

use crate::files::NamedDelta;
use crate::running::Running;
use enc_image::Image;
use enc_jobs::Command;
use enc_ppdb::Pdb;
use enc_watch::Watcher;
use std::alloc::{AllocError, Global};

/// Commands in order, and the lines that they print.
fn run_commands<W: Watcher>(
    running: &mut Running<W>,
    deltas: &[NamedDelta],
    script: &[Command],
    out: &mut Vec<u8>,
) -> Result<(), AllocError>
    requires { running.old.session.seated.given + length script.now < 2 ^ 32 }
    ensures { OnOk result (HasRan (commands_ran (map named_delta deltas.now) script.now) running.new running.old
        out.new.items out.old.items) }
{
    for command in script {
        running.command(deltas, command, out)?;
    }
    Ok(())
}

/// Runs a script over a base, its PDB, where it has one, the deltas that the script names, and watchers that it may
/// attach, and appends what it prints: the lines of its commands, and the reports of the watchers that are attached at
/// the end. A delta that isn't accepted is a line, and changes nothing. Of each hearing it is free only whether the
/// watcher found memory for it.
pub fn run<W: Watcher>(
    alloc: Global,
    image: Image,
    pdb: Option<Pdb>,
    watchers: Vec<W>,
    deltas: &[NamedDelta],
    script: &[Command],
    out: &mut Vec<u8>,
) -> Result<(), AllocError>
    requires { length script.now < 2 ^ 32 }
    ensures { OnOk result (RunWasAppended (map named_delta deltas.now) (map
        W.watching watchers.items)
        (record { base = image; deltas = []; debug = pdb; debugs = [] }) script.now out.new.items out.old.items) }
{
    let mut running = Running::begin(alloc, image, pdb, watchers)?;
    run_commands(&mut running, deltas, script, out)?;
    running.push_reports(out)
}
