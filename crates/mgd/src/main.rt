//! The editing server's program.
#![tactic(auto)]

use mgs_program::run;
use std::process::ExitCode;

fn main(rt: HostRuntime) -> ExitCode {
    run(&rt)
}
