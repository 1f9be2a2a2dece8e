//! The editing server's program, run on a script whose eighth line is refused.
#![tactic(auto)]

use mgs_program::run;
use std::process::ExitCode;

fn main(rt: HostRuntime) -> ExitCode {
    run(&rt)
}
