// Turns of a server with a journal.
ghost use Rattle.std.specs.Prelude.{◌≢◌};

use crate::shared_printer::SharedPrinter;
use crate::status::{FAILED, JOURNAL_FAILED, NO_SOCKETS};
use crate::watch::Watch;
use mgs_command::{NO_MEMORY, tell};
use mgs_journal::{Journal, JournalFault};
use mgs_keep::Kept;
use mgs_marks::Marked;
use mgs_model::Tickets;
use mgs_server::Server;
use mgs_store::Store;
use std::alloc::AllocError;
use std::fs::Files;
use std::net::Net;
use std::sync::Wait;
use std::time::Clock;

// Prints on which port it listens.
fn announce<R: AllocGlobal>(
    rt: &R,
    printer: SharedPrinter<'_>,
    port: u16,
) -> Result<(), AllocError> {
    let line = format!(in rt.alloc(); "listening 127.0.0.1:{port}\n")?;
    printer.announce(line.as_str())
}

// Serves turn by turn without end. It returns if a turn or the journal failed, or if a file of the journal was moved, and says so.
fn serve_turns<
    R: AllocGlobal + Files + Clock,
    W: Eprint + Wait,
    T: Marked + Drop,
    S: Store + Drop,
    J: Journal + Drop,
    C: Clock + Drop,
>(
    rt: &R,
    wait: &W,
    server: &mut Server<Kept<T, S, J>, C>,
    printer: SharedPrinter<'_>,
    mut watch: Watch,
) -> u8
    ensures { result ≢ 0 }
{
    if announce(rt, printer, server.port()).is_err() {
        tell(wait, NO_MEMORY);
        return FAILED;
    }
    for _ in wait.forever() {
        printer.send();
        if let Err(fault) = server.turn() {
            tell(wait, fault);
            return NO_SOCKETS;
        }
        if server.sessions().has_failed() || watch.is_moved(rt) {
            tell(wait, JournalFault);
            return JOURNAL_FAILED;
        }
    }
    unreachable!()
}

/// Serves what a journal keeps on a port of the loopback address, to whoever has one of the tickets. It returns `NO_SOCKETS` if that cannot
/// be begun or continued, and `JOURNAL_FAILED` if the journal failed or a file of it was moved, and says why on standard error.
pub(crate) fn serve_kept<
    R: AllocGlobal + Net + Files + Clock,
    W: Eprint + Wait,
    T: Marked + Drop,
    S: Store + Drop,
    J: Journal + Drop,
    C: Clock + Drop,
>(
    rt: &R,
    wait: &W,
    port: u16,
    kept: Kept<T, S, J>,
    tickets: Tickets,
    clock: C,
    printer: SharedPrinter<'_>,
    watch: Watch,
) -> u8
    ensures { result ≢ 0 }
{
    match Server::over(rt, port, kept, tickets, clock) {
        Ok(mut server) => serve_turns(rt, wait, &mut server, printer, watch),
        Err(fault) => {
            tell(wait, fault);
            NO_SOCKETS
        }
    }
}
