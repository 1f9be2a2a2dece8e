// What the tests share: a server of one buffer, the keys of its sessions, and what their terminals show. These calls tell proofs
// nothing: what is looked at is what runs.
use mgs_acl::{List, read_entry};
use mgs_buffers::Buffers;
use mgs_core::Core;
use mgs_engine::Engine;
use mgs_marks::PlainMarked;
use mgs_model::{Keyed, SessionId};
use mgs_policy::Directory;
use mgs_store::{Store, StoreFault};
use mgs_term::{Cell, Term};
use std::alloc::Global;
use std::process::Abort;

const ROWS: usize = 6;

const COLS: usize = 20;

const MODE_ROW: usize = 4;

const ECHO_ROW: usize = 5;

/// The engine of the tests.
pub(crate) type Server = Engine<PlainMarked, Stand>;

/// A store that takes all texts, or none.
#[derive(Clone, Copy)]
pub(crate) struct Stand {
    takes: bool,
    faults: u64,
}

impl Stand {
    pub(crate) fn new(takes: bool) -> Stand {
        Stand { takes, faults: 0 }
    }
}

impl Store for Stand {
    ghost use Rattle.std.specs.Prelude.{None};

    ghost failed = { λ stand. stand.faults };

    ghost accepted = { λ stand. None };

    fn save(&mut self, _name: &str, _text: &[char]) -> Result<(), StoreFault> {
        if self.takes {
            return Ok(());
        }
        self.faults = self.faults.saturating_add(1);
        Err(StoreFault)
    }

    fn faults(&self) -> u64 {
        self.faults
    }
}

// ann, bob and cyn.
pub(crate) fn users(alloc: Global, rt: &impl Abort) -> Directory {
    let mut directory = Directory::new(alloc);
    for &user in &["ann", "bob", "cyn"] {
        assert!(rt; directory.add_user(user).is_ok());
    }
    directory
}

pub(crate) fn list_of(entries: &[&str], rt: &impl Abort) -> List {
    let mut list = List::new();
    for entry in entries {
        match read_entry(entry) {
            Ok(entry) => assert!(rt; list.insert(list.len(), entry).is_ok()),
            Err(_) => panic!(rt; "no entry"),
        }
    }
    list
}

// A core of the buffer `notes` of ann, which has a file, this list and this text, and of the empty `plan` of cyn, which cyn may read and
// write. The users are ann, bob and cyn.
pub(crate) fn core_of(
    alloc: Global,
    entries: &[&str],
    text: &[char],
    store: Stand,
    rt: &impl Abort,
) -> Core<PlainMarked, Stand> {
    let notes = list_of(entries, rt);
    let plan = list_of(&["ALLOW OWNER@ rwat"], rt);
    let mut buffers = Buffers::new(alloc);
    assert!(rt; buffers.add("notes", "ann", None, notes, text, true).is_ok());
    assert!(rt; buffers.add("plan", "cyn", None, plan, &[], false).is_ok());
    match Core::new(alloc, users(alloc, rt), buffers, store) {
        Ok(core) => core,
        Err(_) => panic!(rt; "no memory"),
    }
}

// The same in an engine, over a store that refuses.
pub(crate) fn serve(alloc: Global, entries: &[&str], text: &[char], rt: &impl Abort) -> Server {
    let core = core_of(alloc, entries, text, Stand::new(false), rt);
    match Engine::new(alloc, core) {
        Ok(engine) => engine,
        Err(_) => panic!(rt; "no memory"),
    }
}

// A session of a user in a core without an engine.
pub(crate) fn sit_in_core(
    core: &mut Core<PlainMarked, Stand>,
    user: &str,
    rows: usize,
    cols: usize,
    rt: &impl Abort,
) -> SessionId {
    match core.open(user, rows, cols) {
        Ok(id) => id,
        Err(_) => panic!(rt; "not opened"),
    }
}

// The answer of a core to a key of a session.
pub(crate) fn press_in_core(core: &mut Core<PlainMarked, Stand>, id: SessionId, key: u8) -> Keyed {
    core.key(id, key)
}

// A session of a user, on a terminal of so many rows and columns.
pub(crate) fn sit(
    engine: &mut Server,
    user: &str,
    rows: usize,
    cols: usize,
    rt: &impl Abort,
) -> SessionId {
    match engine.open(user, rows, cols) {
        Ok(id) => id,
        Err(_) => panic!(rt; "not opened"),
    }
}

// The answer to the last of these keys of a session, or to the first that is not done.
pub(crate) fn press(engine: &mut Server, id: SessionId, keys: &[u8]) -> Keyed {
    for key in keys {
        let answer = engine.byte(id, *key);
        if answer != Keyed::Done {
            return answer;
        }
    }
    Keyed::Done
}

// What waits for the terminal of a session.
pub(crate) fn waiting(engine: &Server, id: SessionId) -> &[u8] {
    engine.pending(id)
}

pub(crate) fn is_open(engine: &Server, id: SessionId) -> bool {
    engine.is_open(id)
}

// The first bytes that wait for the terminal of a session are taken, up to so many.
pub(crate) fn take(engine: &mut Server, id: SessionId, most: usize, taken: &mut Vec<u8>) {
    let pending = engine.pending(id);
    let count = pending.len().min(most);
    let _ = taken.extend_from_slice(&pending[..count]);
    engine.took(id, count);
}

// A terminal of 6 rows and 20 columns that took these bytes, if it refused none.
pub(crate) fn fed(alloc: Global, bytes: &[u8]) -> Option<Term> {
    match Term::new(alloc, ROWS, COLS) {
        Ok(mut term) => {
            if term.feed_all(bytes).is_err() {
                return None;
            }
            Some(term)
        }
        Err(_) => None,
    }
}

// A row of a screen that is told as
//     FIRST ROW | MODE LINE | ECHO LINE
// The rows from the first to the mode line are blank, and an echo line that is blank too may be left out. Behind a wide character
// stands a NUL, for its right half.
fn row_of(screen: &str, row: usize) -> &str {
    let (text, rest) = screen.split_once(" | ").unwrap_or((screen, ""));
    let (mode, echo) = rest.split_once(" | ").unwrap_or((rest, ""));
    match row {
        0 => text,
        MODE_ROW => mode,
        ECHO_ROW => echo,
        _ => "",
    }
}

// Whether a cell is that of this screen. Behind the text of a row there are blanks.
fn is_cell(screen: &str, i: usize, cell: &Cell) -> bool {
    let row = i / COLS;
    let character = row_of(screen, row).chars().nth(i % COLS).unwrap_or(' ');
    cell.character == character && cell.reversed == (row == MODE_ROW)
}

fn is_screen(term: &Term, screen: &str) -> bool {
    for (i, cell) in term.grid().iter().enumerate() {
        if !is_cell(screen, i, cell) {
            return false;
        }
    }
    true
}

// Whether a terminal of 6 rows and 20 columns that takes these bytes shows this screen and this cursor. The screen is told in one
// text, since a proof of a test goes over each literal.
pub(crate) fn show(alloc: Global, bytes: &[u8], screen: &str, cursor: (usize, usize)) -> bool {
    match fed(alloc, bytes) {
        Some(term) => is_screen(&term, screen) && term.cursor() == cursor,
        None => false,
    }
}
