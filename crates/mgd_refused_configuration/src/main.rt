//! The editing server's program, run on a configuration whose buffer has an owner that is no user.
#![tactic(auto)]

use mgs_program::run;
use std::process::ExitCode;

fn main(rt: HostRuntime) -> ExitCode {
    run(&rt)
}
