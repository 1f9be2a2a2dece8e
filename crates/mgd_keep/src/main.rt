//! The editing server with a journal: its program.
#![tactic(auto)]

use mgs_keeper::run;
use std::process::ExitCode;

fn main(rt: HostRuntime) -> ExitCode {
    run(&rt, &rt)
}
