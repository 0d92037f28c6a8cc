//! The program `enc`: runs its words over real files and standard output.
#![tactic(auto)]

mod program;

use program::run_program;
use std::process::ExitCode;

fn main(rt: HostRuntime) -> ExitCode {
    run_program(rt)
}
