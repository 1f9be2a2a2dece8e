// What the program does.
ghost use Rattle.std.specs.Prelude.{◌≡◌};
ghost use Rattle.mgs_program.specs.Endings.{EndsBy, EndsWell};

use crate::script_replay::replay_script;
use crate::service::serve_config;
use mgs_command::{Work, prepare};
use std::env::Env;
use std::fs::{self, File};
use std::io::{self, Read, Write};
use std::net::Net;
use std::process::ExitCode;
use std::random::RandomSource;
use std::sync::Wait;
use std::time::Clock;

// Does what was asked for.
fn perform<
    R: AllocGlobal + fs::Files<File = File> + RandomSource + Net + Clock + Print + Eprint + Wait,
    I: Read,
    O: Write,
>(rt: &R, work: Work, reader: &mut I, writer: &mut O) -> u8
    ensures { EndsBy work (I.remaining reader.old) (I.remaining reader.new) (O.contents writer.old) (O.contents writer.new) result }
{
    match work {
        Work::Replay => replay_script(rt, reader, writer),
        Work::Serve { config, port } => serve_config(rt, config, port),
    }
}

/// Reads the program's arguments and does what they ask for (`mgs_command::prepare`): a script is read from the reader and prints to the
/// writer, and a configuration is served by the runtime's files, sockets and clock.
///
/// It answers the program's status: `DONE` where a replay was done, `FAILED` where one ended by a fault or a configuration is refused,
/// `WRONG_ARGUMENTS`, or `NO_SOCKETS` where the server cannot listen, or not learn who is ready. What ends it but `DONE` is told on
/// standard error.
#[tactic(auto, using(crate::proofs::Ending::ended_by, crate::proofs::Ending::not_done))]
pub fn run_over<
    R: Env
        + AllocGlobal
        + fs::Files<File = File>
        + RandomSource
        + Net
        + Clock
        + Print
        + Eprint
        + Wait,
    I: Read,
    O: Write,
>(rt: &R, reader: &mut I, writer: &mut O) -> u8
    ensures { EndsWell (I.remaining reader.old) (I.remaining reader.new) (O.contents writer.old) (O.contents writer.new) result }
{
    match prepare(rt) {
        Ok(work) => perform(rt, work, reader, writer),
        Err(status) => status,
    }
}

/// The whole program: `run_over` the runtime's standard input and output.
pub fn run<
    R: Env
        + AllocGlobal
        + fs::Files<File = File>
        + RandomSource
        + Net
        + Clock
        + Input
        + Print
        + Eprint
        + Wait,
>(rt: &R) -> ExitCode {
    let mut reader = rt.reader();
    let mut writer = io::writer(rt);
    ExitCode::from(run_over(rt, &mut reader, &mut writer))
}
