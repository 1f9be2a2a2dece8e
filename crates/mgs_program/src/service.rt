// A configuration that is served.
ghost use Rattle.std.specs.Prelude.{◌≡◌, ◌≢◌, IfOk};
ghost use Rattle.mgs_config.specs.World.{paths_of};
ghost use Rattle.mgs_disk.specs.Places.{AreFound};
ghost use Rattle.mgs_disk.specs.Saving.{places_in, rows_in, steps_of};
ghost use Rattle.mgs_program.specs.Serves.{Serves, ServedOn, start_status};
ghost use Rattle.mgs_program.specs.Turning.{EndsByFailure};

use mgs_command::{FAILED, NO_SOCKETS, tell};
use mgs_config::{BufferFile, Config, ConfigFault, ConfigTable, TableFault};
use mgs_disk::{DiskFiles, FileStore, Finds};
use mgs_server::{EngineServer, ListenFault, Server, TakesTurns};
use mgs_store::Store;
use mgs_written::Replaces;
use std::alloc::{AllocError, Global};
use std::fs::{self, File};
use std::mem;
use std::net::Net;
use std::random::RandomSource;
use std::sync::Wait;
use std::time::Clock;
use thiserror::Error;

/// Why a configuration is not served.
#[derive(Clone, Copy, Debug, Error)]
pub enum StartFault {
    /// Memory was refused to the store of its files.
    #[error("{0}")]
    Store(ConfigFault),
    /// The port cannot be had, or memory was refused to the server.
    #[error("{0}")]
    Listen(ListenFault),
}

// Memory was refused before the server was made.
fn no_store() -> StartFault {
    StartFault::Store(ConfigFault {
        table: ConfigTable::Top,
        index: 0,
        fault: TableFault::Short,
    })
}

// The store of these files, which are taken.
fn store_of<D: Finds + Replaces + Drop>(
    alloc: Global,
    disk: D,
    files: &mut Vec<BufferFile>,
) -> Result<FileStore<D>, AllocError>
    ensures named { IfOk result (λ store. rows_in store ≡ paths_of files.old.items) }
    ensures found { IfOk result (λ store. AreFound (D.leads disk) (places_in store)) }
    ensures untouched { IfOk result (λ store. steps_of D.done store ≡ D.done disk) }
{
    let taken = mem::replace(files, Vec::new(alloc));
    FileStore::new(alloc, disk, taken)
}

/// Listens on a port of the loopback address, on one that the system chooses where it is 0, and serves a configuration: its users log in by
/// its tickets, its buffers stand as it has them, and each that has a file is saved there, by this disk. Logins are timed by the clock.
///
/// # Errors
///
/// `Store`: memory was refused to the store of the files. `Listen`: the server does not listen. Nothing is left of it then, and no file
/// was touched.
#[tactic(auto, using(crate::proofs::Serving::served))]
pub fn open_server<R: AllocGlobal + Net, D: Finds + Replaces + Drop, C: Clock + Drop>(
    rt: &R,
    disk: D,
    mut config: Config,
    port: u16,
    clock: C,
) -> Result<EngineServer<FileStore<D>, C>, StartFault>
    ensures { IfOk result (ServedOn ⟦<FileStore<D> as Store>⟧.failed ⟦<FileStore<D> as Store>⟧.accepted D.leads D.done disk config port) }
{
    let alloc = rt.alloc();
    let store = match store_of(alloc, disk, &mut config.files) {
        Ok(store) => store,
        Err(_) => return Err(no_store()),
    };
    match Server::listen(rt, port, config, store, clock) {
        Ok(server) => Ok(server),
        Err(fault) => Err(StartFault::Listen(fault)),
    }
}

// The program's status where a configuration is not served, which is told.
fn end_start<R: Eprint>(rt: &R, fault: StartFault) -> u8
    ensures status { result ≡ start_status fault }
    ensures failed { result ≢ 0 }
{
    tell(rt, fault);
    match fault {
        StartFault::Store(_) => FAILED,
        StartFault::Listen(_) => NO_SOCKETS,
    }
}

/// Prints the server's port, and serves turn by turn without end. It returns where a turn failed, and only then, as `NO_SOCKETS`, and tells
/// that on standard error.
pub fn serve<R: Print + Eprint + Wait, T: TakesTurns>(rt: &R, server: &mut T) -> u8
    ensures status { result ≡ NO_SOCKETS }
    ensures failed { EndsByFailure T.turns T.fails server.old server.new }
{
    let port = server.port();
    let _ = println!(rt; "listening 127.0.0.1:{port}");
    for _ in rt.forever() {
        match server.turn() {
            Ok(()) => {}
            Err(fault) => {
                tell(rt, fault);
                return NO_SOCKETS;
            }
        }
    }
    unreachable!()
}

// Serves a configuration by the system's disk, sockets and clock.
fn open_on_disk<'a, R: AllocGlobal + fs::Files<File = File> + RandomSource + Net + Clock>(
    rt: &'a R,
    config: Config,
    port: u16,
) -> Result<EngineServer<FileStore<DiskFiles<'a, R>>, &'a R>, StartFault> {
    match DiskFiles::new(rt) {
        Ok(disk) => open_server(rt, disk, config, port, rt),
        Err(_) => Err(no_store()),
    }
}

/// Serves a configuration on a port of the loopback address, its texts saved in the files of the system (`open_server`, then `serve`).
///
/// It returns where that cannot be begun, or not gone on with, and tells why on standard error: `FAILED` where memory is refused to the
/// store of its files, `NO_SOCKETS` where the server does not listen, or where a turn failed.
pub fn serve_config<
    R: AllocGlobal + fs::Files<File = File> + RandomSource + Net + Clock + Print + Eprint + Wait,
>(rt: &R, config: Config, port: u16) -> u8
    ensures { result ≢ 0 }
{
    match open_on_disk(rt, config, port) {
        Ok(mut server) => serve(rt, &mut server),
        Err(fault) => end_start(rt, fault),
    }
}
