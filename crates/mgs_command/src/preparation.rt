// What is done before the program does its work.
ghost use Rattle.std.specs.Prelude.{◌≡◌, ◌≢◌, IfErr};

use crate::arguments::{Task, read_task};
use crate::standard_error::tell;
use crate::streams::{SystemNull, open_closed_streams};
use mgs_config::Config;
use mgs_disk::load_config;
use std::env::Env;
use std::fs::{self, File};
use std::io::ErrorKind;

/// The program's status where its work is done.
pub const DONE: u8 = 0;

/// The program's status where its work failed, or a configuration is refused.
pub const FAILED: u8 = 1;

/// The program's status where its arguments are wrong.
pub const WRONG_ARGUMENTS: u8 = 2;

/// The program's status where it cannot listen, or not learn who is ready.
pub const NO_SOCKETS: u8 = 3;

/// What is told where memory is refused.
pub const NO_MEMORY: &str = "no memory";

const USAGE: &str = "usage: mgd replay | mgd serve CONFIG PORT";

/// What the program's arguments ask for.
#[derive(Drop)]
pub enum Work {
    /// To replay the script of standard input.
    Replay,
    /// To serve this configuration on this port; 0 is any.
    Serve { config: Config, port: u16 },
}

// Tells a cause on standard error.
fn refuse<R: Eprint>(rt: &R, line: &str, status: u8) -> Result<Work, u8>
    ensures { result ≡ Err status }
{
    tell(rt, line);
    Err(status)
}

// The configuration in the file at a path, to be served on a port.
fn prepare_serving<R: fs::Files<File = File> + AllocGlobal + Eprint>(
    rt: &R,
    path: &str,
    port: u16,
) -> Result<Work, u8>
    ensures { IfErr result (λ status. status ≢ 0) }
{
    if open_closed_streams(&mut SystemNull { rt }).is_err() {
        return refuse(rt, "listening failed", NO_SOCKETS);
    }
    match load_config(rt, path) {
        Ok(config) => Ok(Work::Serve { config, port }),
        Err(fault) => {
            tell(rt, fault);
            Err(FAILED)
        }
    }
}

/// Reads the program's arguments, and the configuration where one is to be served: `replay`, or `serve CONFIG PORT`, where PORT is a
/// decimal number up to 65535.
///
/// Where that is refused the cause is told on standard error, and `Err` has the program's status. Before a configuration is read, the
/// null device is opened as each standard stream that is closed; where it cannot be, nothing is served.
pub fn prepare<R: Env + fs::Files<File = File> + AllocGlobal + Eprint>(rt: &R) -> Result<Work, u8>
    ensures { IfErr result (λ status. status ≢ 0) }
{
    match read_task(rt) {
        Ok(Task::Replay) => Ok(Work::Replay),
        Ok(Task::Serve { config, port }) => prepare_serving(rt, config.as_str(), port),
        Err(fault) if fault.kind() == ErrorKind::OutOfMemory => refuse(rt, NO_MEMORY, FAILED),
        Ok(Task::Wrong) | Err(_) => refuse(rt, USAGE, WRONG_ARGUMENTS),
    }
}
