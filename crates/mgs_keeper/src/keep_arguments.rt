// What the program is asked to do.
ghost use Rattle.std.specs.Prelude.{◌≤◌, ◌<◌, IsSome, length};

use std::env::{self, Env};
use std::io;

/// What a start does first with what the journal keeps.
#[derive(Drop)]
pub(crate) enum Mending {
    /// What it keeps of the buffer of this name goes: the configuration's holds.
    Forget(String),
    /// The owner of the buffer is this user.
    Owner(String, String),
    /// The owner of each buffer of the one user is the other.
    OwnerOf(String, String),
    /// The list of the buffer begins with this entry.
    List(String, String),
}

/// What a start does first, in this order.
#[derive(Drop)]
pub(crate) struct Mendings {
    pub all: Vec<Mending>,
    /// Whether a text that was not saved can go with what is forgotten.
    pub may_discard: bool,
}

/// Which events are printed.
#[derive(Drop)]
pub(crate) struct Wanted {
    /// Those of this user.
    pub user: Option<String>,
    /// Those about this buffer.
    pub buffer: Option<String>,
    /// Those from this time on.
    pub since: Option<String>,
}

/// What the program's arguments ask for.
#[derive(Drop)]
pub(crate) enum Task {
    /// To serve a configuration on a port with the journal in a folder, mended before.
    Serve {
        folder: String,
        config: String,
        port: u16,
        mendings: Mendings,
    },
    /// To print the events of the journal in a folder.
    Audit {
        folder: String,
        wanted: Wanted,
    },
    /// Anything else.
    Wrong,
}

fn read_port(word: &str) -> Option<u16> {
    if word.starts_with('+') {
        return None;
    }
    match word.parse::<u16>() {
        Ok(port) => Some(port),
        Err(_) => None,
    }
}

// Takes the first word away.
fn take(words: &mut Vec<String>) -> Option<String>
    ensures kept { length words.new.items ≤ length words.old.items }
    ensures less { IsSome result → length words.new.items < length words.old.items }
{
    if words.is_empty() {
        return None;
    }
    Some(words.remove(0))
}

// Reads an option of `serve` with its words. `None`: it is none, or lacks a word.
fn read_mending(option: &str, words: &mut Vec<String>) -> Option<Mending>
    ensures { length words.new.items ≤ length words.old.items }
{
    let first = take(words)?;
    if option == "--forget" {
        return Some(Mending::Forget(first));
    }
    let second = take(words)?;
    match option {
        "--owner" => Some(Mending::Owner(first, second)),
        "--owner-of" => Some(Mending::OwnerOf(first, second)),
        "--list" => Some(Mending::List(first, second)),
        _ => None,
    }
}

// What the options of `serve` ask for; none where one is no option or lacks a word.
fn read_mendings<R: AllocGlobal>(rt: &R, words: &mut Vec<String>) -> io::Result<Option<Mendings>> {
    let mut all = Vec::new(rt.alloc());
    let mut may_discard = false;
    while let Some(word) = take(words) {
        if word.as_str() == "--discard" {
            may_discard = true;
            continue;
        }
        match read_mending(word.as_str(), words) {
            Some(mending) => all.push(mending)?,
            None => return Ok(None),
        }
    }
    Ok(Some(Mendings { all, may_discard }))
}

fn read_serve<R: AllocGlobal>(rt: &R, words: &mut Vec<String>) -> io::Result<Task> {
    let (Some(folder), Some(config), Some(port)) = (take(words), take(words), take(words)) else {
        return Ok(Task::Wrong);
    };
    let Some(port) = read_port(port.as_str()) else {
        return Ok(Task::Wrong);
    };
    match read_mendings(rt, words)? {
        Some(mendings) => Ok(Task::Serve {
            folder,
            config,
            port,
            mendings,
        }),
        None => Ok(Task::Wrong),
    }
}

// Reads one option of `audit`: whether it was one.
fn read_wanted(words: &mut Vec<String>, option: &str, wanted: &mut Wanted) -> bool
    ensures { length words.new.items ≤ length words.old.items }
{
    let Some(value) = take(words) else {
        return false;
    };
    match option {
        "--user" => wanted.user = Some(value),
        "--buffer" => wanted.buffer = Some(value),
        "--since" => wanted.since = Some(value),
        _ => return false,
    }
    true
}

fn read_audit(words: &mut Vec<String>) -> Task {
    let Some(folder) = take(words) else {
        return Task::Wrong;
    };
    let mut wanted = Wanted {
        user: None,
        buffer: None,
        since: None,
    };
    while let Some(option) = take(words) {
        if !read_wanted(words, option.as_str(), &mut wanted) {
            return Task::Wrong;
        }
    }
    Task::Audit { folder, wanted }
}

fn read_words<R: Env + AllocGlobal>(rt: &R) -> io::Result<Vec<String>> {
    let mut words = Vec::new(rt.alloc());
    for word in env::args(rt)?.skip(1) {
        words.push(word)?;
    }
    Ok(words)
}

/// Reads the program's arguments.
///
/// `OutOfMemory` is out of memory. Any other error is an argument that is not UTF-8.
pub(crate) fn read_task<R: Env + AllocGlobal>(rt: &R) -> io::Result<Task> {
    let mut words = read_words(rt)?;
    let Some(first) = take(&mut words) else {
        return Ok(Task::Wrong);
    };
    match first.as_str() {
        "serve" => read_serve(rt, &mut words),
        "audit" => Ok(read_audit(&mut words)),
        _ => Ok(Task::Wrong),
    }
}
