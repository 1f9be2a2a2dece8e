// A server of one buffer of ann.
ghost use Rattle.mgs_buffers.specs.MarkedBuffer.{AreUnmarked};

use mgs_acl::{List, read_entry};
use mgs_buffers::Buffers;
use mgs_config::Config;
use mgs_gap::GapText;
use mgs_model::Tickets;
use mgs_policy::Directory;
use mgs_server::{EngineServer, Server};
use mgs_store::RefusingStore;
use std::alloc::Global;
use std::cell::Cell;
use std::io;
use std::test::Fail;
use std::time::{Clock, Duration};

/// A clock that stands still until it is set.
#[derive(Drop)]
pub(crate) struct Dial {
    millis: Cell<u64>,
}

impl Dial {
    /// A clock at its start.
    pub(crate) fn new() -> Dial {
        Dial {
            millis: Cell::new(0),
        }
    }
}

impl Clock for Dial {
    fn monotonic(&self) -> io::Result<Duration> {
        Ok(Duration::from_millis(self.millis.get()))
    }

    fn since_1970(&self) -> io::Result<Duration> {
        self.monotonic()
    }
}

/// A server whose buffers have no files, and its clock.
#[derive(Drop)]
pub(crate) struct Office<'a> {
    server: EngineServer<RefusingStore, &'a Dial>,
    dial: &'a Dial,
}

impl Office<'_> {
    /// The port that it listens on.
    pub(crate) fn port(&self) -> u16 {
        self.server.port()
    }
}

// Ann may do everything with the notes, and bob read and write them.
fn notes_list() -> Result<List, Fail> {
    let mut list = List::new();
    for &entry in &["ALLOW OWNER@ rwatdcCo", "ALLOW bob rwat"] {
        let entry = read_entry(entry).ok().ok_or("no entry")?;
        list.insert(list.len(), entry).ok().ok_or("no room")?;
    }
    Ok(list)
}

// Adds a buffer of ann without a text.
fn add_buffer(buffers: &mut Buffers<GapText>, name: &str, list: List) -> Result<(), Fail>
    ensures { AreUnmarked buffers.old → AreUnmarked buffers.new }
{
    buffers.add(name, "ann", None, list, &[], false)?;
    Ok(())
}

// The users, and nobody more.
fn add_users(directory: &mut Directory) -> Result<(), Fail> {
    directory.add_user("ann")?;
    directory.add_user("bob")?;
    Ok(())
}

fn add_tickets(tickets: &mut Tickets) -> Result<(), Fail> {
    tickets.add("ann", "t1")?;
    tickets.add("bob", "t2")?;
    Ok(())
}

// The users with their tickets, and the notes, which are empty.
fn furnish(config: &mut Config, list: List) -> Result<(), Fail> {
    add_users(&mut config.directory)?;
    add_tickets(&mut config.tickets)?;
    add_buffer(&mut config.buffers, "notes", list)
}

// What the office starts with.
fn office_config(alloc: Global, list: List) -> Result<Config, Fail> {
    let mut config = Config {
        directory: Directory::new(alloc),
        tickets: Tickets::new(alloc),
        buffers: Buffers::new(alloc),
        files: Vec::new(alloc),
    };
    furnish(&mut config, list)?;
    Ok(config)
}

/// A server of the notes on this port; 0 is one that the system chooses.
pub(crate) fn open_office<'a>(
    rt: &HostRuntime,
    dial: &'a Dial,
    port: u16,
) -> Result<Office<'a>, Fail> {
    let config = office_config(rt.alloc(), notes_list()?)?;
    let server = Server::listen(rt, port, config, RefusingStore::new(), dial)?;
    Ok(Office { server, dial })
}

/// One turn of the server, so many milliseconds after the clock's start.
pub(crate) fn turn_at(office: &mut Office<'_>, millis: u64) -> Result<(), Fail> {
    office.dial.millis.set(millis);
    turn(office)
}

/// One turn of the server.
pub(crate) fn turn(office: &mut Office<'_>) -> Result<(), Fail> {
    office.server.turn()?;
    Ok(())
}
