// What the program does.
use crate::events::print_events;
use crate::keep_arguments::{Task, read_task};
use crate::service::serve;
use crate::status::{FAILED, WRONG_ARGUMENTS};
use mgs_command::{NO_MEMORY, tell};
use std::io::ErrorKind;
use std::process::ExitCode;
use std::sync::Wait;

const USAGE: &str =
    "usage: mgd-keep serve FOLDER CONFIG PORT [--forget BUFFER] [--discard] [--owner BUFFER NAME] [--owner-of OLD NEW] [--list BUFFER ENTRY] | mgd-keep audit FOLDER [--user U] [--buffer B] [--since WHEN]";

fn perform<W: Eprint + Wait>(rt: &HostRuntime, wait: &W, task: Task) -> u8 {
    match task {
        Task::Serve {
            folder,
            config,
            port,
            mendings,
        } => serve(rt, wait, folder.as_str(), config.as_str(), port, &mendings),
        Task::Audit { folder, wanted } => print_events(rt, folder.as_str(), &wanted),
        Task::Wrong => {
            tell(rt, USAGE);
            WRONG_ARGUMENTS
        }
    }
}

/// The whole program: it reads its arguments and does what they ask for. `wait` is the runtime again, as a handle that waits.
pub fn run<W: Eprint + Wait>(rt: &HostRuntime, wait: &W) -> ExitCode {
    let status = match read_task(rt) {
        Ok(task) => perform(rt, wait, task),
        Err(error) => {
            if error.kind() == ErrorKind::OutOfMemory {
                tell(rt, NO_MEMORY);
                FAILED
            } else {
                tell(rt, USAGE);
                WRONG_ARGUMENTS
            }
        }
    };
    ExitCode::from(status)
}
