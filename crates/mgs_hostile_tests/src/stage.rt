// A server over any texts, and the terminals of its sessions. These calls tell proofs nothing but what `Core::new` asks for:
// what is looked at is what runs. `None` is everywhere: memory was refused to what is not the server's, or a line tells of nothing.
ghost use Rattle.std.specs.Prelude.{IfSome};
ghost use Rattle.mgs_buffers.specs.MarkedBuffer.{AreUnmarked};

use crate::screen::{COLS, ROWS, cut_field, cut_word, is_screen};
use crate::store::{Shelf, Takes};
use mgs_acl::{List, read_entry};
use mgs_buffers::Buffers;
use mgs_core::Core;
use mgs_engine::Engine;
use mgs_keys::read_keys;
use mgs_marks::Marked;
use mgs_model::{Keyed, OpenFault, SessionId};
use mgs_policy::Directory;
use mgs_term::Term;
use std::alloc::Global;

/// A session, and its terminal.
#[derive(Drop)]
struct Seat {
    id: SessionId,
    term: Term,
}

/// A server, and the terminals of its sessions in the order in which they sat down. Behind each event each terminal takes what waits for it.
#[derive(Drop)]
pub(crate) struct Stage<T: Marked + Drop> {
    /// Where memory comes from.
    pub alloc: Global,
    /// The server.
    pub engine: Engine<T, Shelf>,
    /// Whether memory was refused to an event.
    pub is_refused: bool,
    seats: Vec<Seat>,
}

fn users(alloc: Global) -> Option<Directory> {
    let mut directory = Directory::new(alloc);
    for &user in &["ann", "bob", "cat"] {
        directory.add_user(user).ok()?;
    }
    Some(directory)
}

// The list of these entries, which `; ` parts.
fn list_of(entries: &str) -> Option<List> {
    let mut list = List::new();
    for entry in entries.split("; ") {
        let entry = read_entry(entry).ok()?;
        list.insert(list.len(), entry).ok()?;
    }
    Some(list)
}

fn characters(alloc: Global, text: &str) -> Option<Vec<char>> {
    text.chars().collect(alloc).ok()
}

// Adds a buffer of which this line tells: NAME OWNER | ENTRY; ENTRY; .. | TEXT. It has a file.
fn add<T: Marked + Drop>(alloc: Global, buffers: &mut Buffers<T>, line: &str) -> Option<()>
    ensures { AreUnmarked buffers.old → AreUnmarked buffers.new }
{
    let (buffer, rest) = cut_field(line);
    let (entries, text) = cut_field(rest);
    let (name, owner) = cut_word(buffer);
    let text = characters(alloc, text)?;
    buffers
        .add(name, owner, None, list_of(entries)?, &text, true)
        .ok()
}

// The buffers of these lines.
fn buffers_of<T: Marked + Drop>(alloc: Global, lines: &str) -> Option<Buffers<T>>
    ensures { IfSome result (λ buffers. AreUnmarked buffers) }
{
    let mut buffers = Buffers::new(alloc);
    for line in lines.lines() {
        add(alloc, &mut buffers, line.trim_start())?;
    }
    Some(buffers)
}

/// A server of the users ann, bob and cat, and of the buffers of which these lines tell:
///     NAME OWNER | ENTRY; ENTRY; .. | TEXT
pub(crate) fn served<T: Marked + Drop>(
    alloc: Global,
    lines: &str,
    takes: Takes,
) -> Option<Stage<T>> {
    let buffers = buffers_of(alloc, lines)?;
    let core = Core::new(alloc, users(alloc)?, buffers, Shelf::new(takes)).ok()?;
    let engine = Engine::new(alloc, core).ok()?;
    Some(Stage {
        alloc,
        engine,
        is_refused: false,
        seats: Vec::new(alloc),
    })
}

// The terminal of a session takes what waits for it.
fn feed<T: Marked + Drop>(engine: &mut Engine<T, Shelf>, seat: &mut Seat) {
    let pending = engine.pending(seat.id);
    let count = pending.len();
    let _ = seat.term.feed_all(pending);
    engine.took(seat.id, count);
}

/// So does each.
pub(crate) fn feed_all<T: Marked + Drop>(stage: &mut Stage<T>) {
    for seat in stage.seats.iter_mut() {
        feed(&mut stage.engine, seat);
    }
}

/// A session of a user is opened at a terminal, or refused.
pub(crate) fn open<T: Marked + Drop>(
    stage: &mut Stage<T>,
    user: &str,
) -> Option<Result<SessionId, OpenFault>> {
    let term = Term::new(stage.alloc, ROWS, COLS).ok()?;
    match stage.engine.open(user, ROWS, COLS) {
        Ok(id) => {
            stage.seats.push(Seat { id, term }).ok()?;
            feed_all(stage);
            Some(Ok(id))
        }
        Err(fault) => {
            stage.is_refused = stage.is_refused || fault == OpenFault::Short;
            Some(Err(fault))
        }
    }
}

/// The bytes of these keys, or of none.
pub(crate) fn bytes_of(alloc: Global, keys: &str) -> Option<Vec<u8>> {
    if keys.is_empty() {
        return Some(Vec::new(alloc));
    }
    read_keys(alloc, keys).ok()
}

/// The answer to the last of these bytes of a session, or to the first that is not done.
pub(crate) fn press<T: Marked + Drop>(stage: &mut Stage<T>, id: SessionId, bytes: &[u8]) -> Keyed {
    for byte in bytes {
        let answer = stage.engine.byte(id, *byte);
        feed_all(stage);
        stage.is_refused = stage.is_refused || answer == Keyed::Short;
        if answer != Keyed::Done {
            return answer;
        }
    }
    Keyed::Done
}

/// The terminal of a session.
pub(crate) fn term_of<T: Marked + Drop>(stage: &Stage<T>, id: SessionId) -> Option<&Term> {
    for seat in stage.seats.iter() {
        if seat.id == id {
            return Some(&seat.term);
        }
    }
    None
}

/// Whether the terminal of a session shows this screen.
pub(crate) fn shows<T: Marked + Drop>(stage: &Stage<T>, id: SessionId, screen: &str) -> bool {
    match term_of(stage, id) {
        Some(term) => is_screen(term.grid(), screen),
        None => false,
    }
}
