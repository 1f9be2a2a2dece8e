//! Counts what a server sends for a key. In each case ann types at a terminal of 24 by 80 while bob watches the same text at
//! another; printed are the keys, and the bytes that each of the two terminals was sent for them all.
#![tactic(auto)]

use mgs_acl::{List, read_entry};
use mgs_buffers::Buffers;
use mgs_core::Core;
use mgs_engine::Engine;
use mgs_keys::read_keys;
use mgs_marks::PlainMarked;
use mgs_model::SessionId;
use mgs_policy::Directory;
use mgs_store::RefusingStore;
use std::alloc::Global;
use std::process::ExitCode;

const ROWS: usize = 24;

const COLS: usize = 80;

/// What each line of the text ends with, behind a letter that differs from those of the lines around it.
const LINE: &str = ": the quick brown fox jumps over the lazy dog\n";

type Server = Engine<PlainMarked, RefusingStore>;

/// How many keys were typed, and the bytes that were sent for them.
struct Sent {
    keys: usize,
    to_ann: usize,
    to_bob: usize,
}

/// So many lines. `None`: memory was refused.
fn text_of(alloc: Global, lines: usize) -> Option<Vec<char>> {
    let mut text = Vec::new(alloc);
    for letter in ('a'..='z').cycle().take(lines) {
        text.push(letter).ok()?;
        for character in LINE.chars() {
            text.push(character).ok()?;
        }
    }
    Some(text)
}

/// A list by which everybody reads and writes. `None`: memory was refused.
fn open_list() -> Option<List> {
    let mut list = List::new();
    match read_entry("ALLOW EVERYONE@ rwat") {
        Ok(entry) => match list.insert(0, entry) {
            Ok(()) => Some(list),
            Err(_) => None,
        },
        Err(_) => None,
    }
}

/// The users ann and bob. `None`: memory was refused.
fn users(alloc: Global) -> Option<Directory> {
    let mut directory = Directory::new(alloc);
    for user in ["ann", "bob"] {
        if directory.add_user(user).is_err() {
            return None;
        }
    }
    Some(directory)
}

/// A server of one buffer of ann, which bob uses too. `None`: memory was refused.
fn server_of(alloc: Global, text: &[char]) -> Option<Server> {
    let directory = users(alloc)?;
    let list = open_list()?;
    let mut buffers = Buffers::new(alloc);
    if buffers
        .add("notes", "ann", None, list, text, false)
        .is_err()
    {
        return None;
    }
    match Core::new(alloc, directory, buffers, RefusingStore::new()) {
        Ok(core) => Engine::new(alloc, core).ok(),
        Err(_) => None,
    }
}

/// The terminal of a session takes all that waits for it: so many bytes.
fn take(server: &mut Server, id: SessionId) -> usize {
    let count = server.pending(id).len();
    server.took(id, count);
    count
}

/// Types keys, as `read_keys` reads them, into a text of so many lines. `None`: memory was refused.
fn count(alloc: Global, lines: usize, keys: &str) -> Option<Sent> {
    let text = text_of(alloc, lines)?;
    let mut server = server_of(alloc, &text)?;
    let ann = server.open("ann", ROWS, COLS).ok()?;
    let bob = server.open("bob", ROWS, COLS).ok()?;
    take(&mut server, ann);
    take(&mut server, bob);
    let bytes = read_keys(alloc, keys).ok()?;
    let mut sent = Sent {
        keys: bytes.len(),
        to_ann: 0,
        to_bob: 0,
    };
    for byte in bytes.iter() {
        server.byte(ann, *byte);
        sent.to_ann = sent.to_ann.saturating_add(take(&mut server, ann));
        sent.to_bob = sent.to_bob.saturating_add(take(&mut server, bob));
    }
    Some(sent)
}

fn main(rt: HostRuntime) -> ExitCode {
    for (case, lines, keys) in [
        (
            "typing in an empty text",
            0,
            "'the SPC 'quick SPC 'brown SPC 'fox",
        ),
        (
            "typing at a line's start",
            10,
            "'the SPC 'quick SPC 'brown SPC 'fox",
        ),
        (
            "opening lines at the text's start",
            10,
            "RET RET RET RET RET RET",
        ),
        ("going by characters", 10, "C-f C-f C-f C-f C-b C-b"),
        ("going by lines", 10, "C-n C-n C-n C-p C-p"),
        ("going by screens", 100, "C-v C-v M-v M-v"),
        ("deleting backward", 10, "C-e DEL DEL DEL DEL DEL"),
        ("killing lines", 10, "C-k C-k C-k C-k"),
        ("yanking a line", 10, "C-k C-k C-y C-y"),
        ("typing at a prompt", 10, "C-x 'b 'notes RET"),
        ("splitting a window", 10, "C-x '2 C-x 'o C-x '1"),
    ] {
        let Some(sent) = count(rt.alloc(), lines, keys) else {
            return ExitCode::FAILURE;
        };
        let Sent {
            keys,
            to_ann,
            to_bob,
        } = sent;
        if println!(rt; "{case}: {keys} keys, {to_ann} bytes to ann, {to_bob} to bob").is_err() {
            return ExitCode::FAILURE;
        }
    }
    ExitCode::SUCCESS
}
