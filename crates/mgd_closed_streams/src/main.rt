//! The editing server's program, run on a configuration that is refused, where its standard input is closed: what is opened behind that has
//! the number of no standard stream.
#![tactic(auto)]

use mgs_command::WRONG_ARGUMENTS;
use mgs_program::run;
use std::fs::{File, Files};
use std::io;
use std::os::fd::AsRawFd;
use std::process::ExitCode;

// The numbers of standard input, standard output and standard error are those below.
const STANDARD_STREAMS: i32 = 3;

const STANDARD_INPUT: i32 = 0;

// Whether a file that is opened now has the number of no standard stream.
fn is_opened_above<R: Files<File = File>>(rt: &R) -> io::Result<bool> {
    let file = File::open(rt, "faulty.toml")?;
    Ok(file.as_raw_fd() >= STANDARD_STREAMS)
}

// It ends by the status of wrong arguments where a standard stream was left closed.
fn main(rt: HostRuntime) -> ExitCode {
    let _closed = libc::close(STANDARD_INPUT);
    let status = run(&rt);
    match is_opened_above(&rt) {
        Ok(true) => status,
        Ok(false) | Err(_) => ExitCode::from(WRONG_ARGUMENTS),
    }
}
