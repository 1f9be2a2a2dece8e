// Logins, connections, configurations and scripts.
use mgs_config::{Config, ConfigFault, Files, read_config};
use mgs_core::SessionId;
use mgs_engine::Engine;
use mgs_marks::Marked;
use mgs_model::{Short, Tickets};
use mgs_replay::{ReplayFault, replay};
use mgs_store::Store;
use mgs_wire::{Conn, PumpedIn, PumpedOut, Stream, pump_in, pump_out};
use std::alloc::Global;
use std::io::{Read, Write};

// A connection is read once and written once.
fn use_connection<T: Marked + Drop, S: Store + Drop, R: Read, W: Stream>(
    alloc: Global,
    engine: &mut Engine<T, S>,
    tickets: &Tickets,
    reader: &mut R,
    writer: &mut W,
) -> Result<Option<SessionId>, Short> {
    let made: Result<Conn, Short> = Conn::new(alloc);
    let mut conn = made?;
    let read: PumpedIn = pump_in(&mut conn, engine, tickets, reader);
    let written: PumpedOut = pump_out(&mut conn, engine, writer);
    match (read, written) {
        (PumpedIn::Took(_) | PumpedIn::Idle | PumpedIn::Finished | PumpedIn::Failed, _) => {
            Ok(conn.session())
        }
    }
}

// A configuration is read with its files.
fn use_config<F: Files>(alloc: Global, text: &str, files: &mut F) -> Result<usize, ConfigFault> {
    let config: Config = read_config(alloc, text, files)?;
    Ok(config.files.len())
}

// A script is replayed.
fn use_replay<R: Read, W: Write>(
    alloc: Global,
    reader: &mut R,
    writer: &mut W,
) -> Result<(), ReplayFault> {
    replay(alloc, reader, writer)
}
