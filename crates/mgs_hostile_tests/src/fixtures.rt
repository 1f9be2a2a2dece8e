// What the tests share: sessions at a server, and steps that are told in lines.
use crate::screen::{COLS, ROWS, cut_field, cut_word};
use crate::stage::{Stage, bytes_of, feed_all, open, press, served, shows, term_of};
use crate::store::Takes;
use mgs_engine::Cause;
use mgs_marks::Marked;
use mgs_model::{Keyed, SessionId};
use std::alloc::Global;
use std::process::Abort;
use std::test::Fail;

/// Sessions of these users sit down: the ids from 1 on.
pub(crate) fn sit<T: Marked + Drop>(stage: &mut Stage<T>, users: &[&str]) -> Result<(), Fail> {
    for user in users {
        let opened = open(stage, user).ok_or("no terminal")?;
        opened.ok().ok_or("not opened")?;
    }
    Ok(())
}

/// A server of the users ann, bob and cat, of the buffers of which these lines tell, and of a store, where these users sit:
///     NAME OWNER | ENTRY; ENTRY; .. | TEXT
pub(crate) fn seated<T: Marked + Drop>(
    alloc: Global,
    lines: &str,
    takes: Takes,
    users: &[&str],
) -> Result<Stage<T>, Fail> {
    let mut stage = served(alloc, lines, takes).ok_or("no server")?;
    sit(&mut stage, users)?;
    Ok(stage)
}

/// What waits for a session without a terminal is taken.
pub(crate) fn take<T: Marked + Drop>(stage: &mut Stage<T>, id: SessionId) {
    let count = stage.engine.pending(id).len();
    stage.engine.took(id, count);
}

/// A session without a terminal: what waits for it stays until it is taken.
pub(crate) fn visit<T: Marked + Drop>(stage: &mut Stage<T>, user: &str) -> Option<SessionId> {
    stage.engine.open(user, ROWS, COLS).ok()
}

/// A session is closed.
pub(crate) fn close<T: Marked + Drop>(stage: &mut Stage<T>, id: SessionId) {
    stage.engine.close(id);
    feed_all(stage);
}

/// How the session ended that is told next, and its id.
pub(crate) fn told<T: Marked + Drop>(stage: &mut Stage<T>) -> Option<(SessionId, Cause)> {
    stage.engine.ended()
}

pub(crate) fn is_open<T: Marked + Drop>(stage: &Stage<T>, id: SessionId) -> bool {
    stage.engine.is_open(id)
}

/// Whether two terminals show the same, cell by cell, with the same cursor.
pub(crate) fn show_the_same<T: Marked + Drop>(
    one: &Stage<T>,
    other: &Stage<T>,
    id: SessionId,
    same: SessionId,
) -> bool {
    match (term_of(one, id), term_of(other, same)) {
        (Some(a), Some(b)) => a.grid() == b.grid() && a.cursor() == b.cursor(),
        _ => false,
    }
}

fn answer_of(word: &str) -> Keyed {
    match word {
        "Short" => Keyed::Short,
        "Quit" => Keyed::Quit,
        "NoSession" => Keyed::NoSession,
        _ => Keyed::Done,
    }
}

// One step: SESSION KEYS | ANSWER | ROW/ROW/.. | MODE LINE | ECHO LINE. A session without keys is looked at.
fn step<T: Marked + Drop>(rt: &impl Abort, stage: &mut Stage<T>, line: &str) -> Result<(), Fail> {
    let (keys, rest) = cut_field(line);
    let (answer, screen) = cut_field(rest);
    let (id, keys) = cut_word(keys);
    let id = id.parse::<u64>().ok().ok_or("no session")?;
    let bytes = bytes_of(stage.alloc, keys).ok_or("no keys")?;
    assert!(rt; press(stage, id, &bytes) == answer_of(answer), "{line}");
    assert!(rt; shows(stage, id, screen), "{line}");
    Ok(())
}

/// Steps, each with what is answered to the last of its keys, and what the terminal of its session then shows:
///     SESSION KEYS | ANSWER | ROW/ROW/.. | MODE LINE | ECHO LINE
pub(crate) fn plays<T: Marked + Drop>(
    rt: &impl Abort,
    stage: &mut Stage<T>,
    steps: &str,
) -> Result<(), Fail> {
    for line in steps.lines() {
        if !line.trim().is_empty() {
            step(rt, stage, line.trim_start())?;
        }
    }
    Ok(())
}

/// Steps come out so where these users sit.
pub(crate) fn comes_out<T: Marked + Drop>(
    rt: &impl Abort,
    alloc: Global,
    lines: &str,
    takes: Takes,
    users: &[&str],
    steps: &str,
) -> Result<(), Fail> {
    let mut stage = seated::<T>(alloc, lines, takes, users)?;
    plays(rt, &mut stage, steps)
}
