// Steps in a folder, told in lines.
use crate::faulty::Faulty;
use crate::files::{bytes_of, has_count, has_mode, holds, is_link, write};
use crate::room::{
    Room, enter, has_size, is_asked, is_refused, is_unreadable, loads, open_store, path_of, reads,
    saves, text_in,
};
use mgs_store::Store;
use std::os::unix::fs::symlink;
use std::path::Path;
use std::process::Abort;
use std::test::Fail;
use std::{fs, io};

// What stands before the first blank of a line, and what behind it.
fn cut(line: &str) -> (&str, &str) {
    line.split_once(' ').unwrap_or((line, ""))
}

fn is_number(word: &str, number: u64) -> bool {
    word.parse::<u64>().ok() == Some(number)
}

// Writes a file of so many pieces.
fn write_times(rt: &HostRuntime, path: Path<'_>, times: &str, piece: &str) -> io::Result<()> {
    let times = times.parse::<usize>().unwrap_or(0);
    let text = piece.repeat(rt.alloc(), times)?;
    fs::write(rt, path, text.as_str())
}

// Writes a text behind so many blanks.
fn write_padded(rt: &HostRuntime, path: Path<'_>, blanks: &str, text: &str) -> io::Result<()> {
    let mut padded = " ".repeat(rt.alloc(), blanks.parse::<usize>().unwrap_or(0))?;
    padded.push('\n')?;
    padded.push_str(text)?;
    fs::write(rt, path, padded.as_str())
}

// Whether a save of `notes` of so many pieces is done.
fn saves_times(room: &mut Room<'_>, rest: &str) -> Result<bool, Fail> {
    let (times, piece) = cut(rest);
    let text = piece.repeat(room.rt.alloc(), times.parse::<usize>().unwrap_or(0))?;
    Ok(saves(room, "notes", text.as_str())?)
}

// Whether a file has so many pieces and nothing else.
fn holds_times(rt: &HostRuntime, path: Path<'_>, rest: &str) -> Result<bool, Fail> {
    let (times, piece) = cut(rest);
    let text = piece.repeat(rt.alloc(), times.parse::<usize>().unwrap_or(0))?;
    Ok(holds(rt, path, text.as_str())?)
}

// Does something to a file, or None where the word is of no such step.
fn change(
    room: &mut Room<'_>,
    word: &str,
    path: Path<'_>,
    rest: &str,
) -> Result<Option<bool>, Fail> {
    let (mode, text) = cut(rest);
    match word {
        "file" => write(room.rt, path, mode, text_in(room, text)?.as_str())?,
        "long" => write_times(room.rt, path, mode, text)?,
        "padded" => write_padded(room.rt, path, mode, text_in(room, text)?.as_str())?,
        "bytes" => fs::write(room.rt, path, &bytes_of(room.rt.alloc(), rest)?)?,
        "link" => symlink(room.rt, rest, path)?,
        "folder" => fs::create_dir(room.rt, path)?,
        "remove" => fs::remove_file(room.rt, path)?,
        "store" => open_store(room, path.as_str(), "")?,
        "stores" => open_store(room, path.as_str(), text_in(room, rest)?.as_str())?,
        _ => return Ok(None),
    }
    Ok(Some(true))
}

// Whether something is so of a file.
fn is_so(room: &Room<'_>, word: &str, path: Path<'_>, rest: &str) -> Result<bool, Fail> {
    let text = text_in(room, rest)?;
    let is_so = match word {
        "holds" => holds(room.rt, path, text.as_str())?,
        "times" => holds_times(room.rt, path, rest)?,
        "mode" => has_mode(room.rt, path, rest)?,
        "linked" => is_link(room.rt, path)?,
        "count" => has_count(room.rt, path, rest)?,
        "reads" => reads(room.rt, path.as_str(), text.as_str())?,
        "fits" => has_size(room.rt, path.as_str(), true),
        "past" => has_size(room.rt, path.as_str(), false),
        "odd" => is_unreadable(room.rt, path.as_str()),
        "loads" => loads(room.rt, path.as_str(), text.as_str())?,
        "fault" => is_refused(room.rt, path.as_str(), rest)?,
        _ => false,
    };
    Ok(is_so)
}

// A step of a file, which comes first behind its word.
fn step_of_file(room: &mut Room<'_>, word: &str, rest: &str) -> Result<bool, Fail> {
    let (name, rest) = cut(rest);
    let path = path_of(room, name)?;
    match change(room, word, path.as_path(), rest)? {
        Some(done) => Ok(done),
        None => is_so(room, word, path.as_path(), rest),
    }
}

// What the program is asked: WORDS | WORK | LINE.
fn step_of_program(room: &Room<'_>, rest: &str) -> Result<bool, Fail> {
    let written = text_in(room, rest)?;
    let mut fields = written.as_str().splitn(3, '|');
    let (words, work, line) = (fields.next(), fields.next(), fields.next());
    match (words, work, line) {
        (Some(words), Some(work), Some(line)) => Ok(is_asked(room.rt, words, work, line)),
        _ => Ok(false),
    }
}

// A step of the store or of the program, or one of a file.
fn step(room: &mut Room<'_>, line: &str) -> Result<bool, Fail> {
    let (word, rest) = cut(line);
    let is_so = match word {
        "zeros" => {
            room.faulty.give_zeros(rest.parse::<u32>().unwrap_or(0));
            true
        }
        "keep" => {
            room.faulty.keep_names();
            true
        }
        "saves" => saves(room, "notes", text_in(room, rest)?.as_str())?,
        "fails" => !saves(room, "notes", rest)?,
        "other" => saves(room, "other", rest)?,
        "unkept" => !saves(room, "other", rest)?,
        "pieces" => saves_times(room, rest)?,
        "faults" => is_number(rest, room.store.faults()),
        "asked" => step_of_program(room, rest)?,
        _ => step_of_file(room, word, rest)?,
    };
    Ok(is_so)
}

// Each step of these lines comes out so.
fn go(rt: &impl Abort, room: &mut Room<'_>, lines: &str) -> Result<(), Fail> {
    for line in lines.lines() {
        let line = line.trim_start();
        assert!(rt; line.is_empty() || step(room, line)?, "{line}");
    }
    Ok(())
}

// The same in an empty folder of this name, which goes again.
fn go_in_folder(
    abort: &impl Abort,
    rt: &HostRuntime,
    folder: &str,
    lines: &str,
) -> Result<(), Fail> {
    let faulty = Faulty::new(rt, "", "");
    let mut room = enter(rt, &faulty, folder)?;
    go(abort, &mut room, lines)?;
    fs::remove_dir_all(rt, room.folder.as_path())?;
    Ok(())
}

/// Each list of steps, behind a line of two `=` and what it is about, comes out so in a folder of its own:
///     file NAME MODE TEXT, long NAME COUNT PIECE, padded NAME COUNT TEXT, bytes NAME HEX .., link NAME TARGET, folder NAME, remove NAME: does this
///     store NAME, stores NAME PATH: the buffer `notes` is saved in this file from now on, and `other` in none, or in that at a path
///     saves TEXT, pieces COUNT PIECE, fails TEXT, other TEXT, unkept TEXT: a save of `notes` is done, or refused; one of `other` as well
///     faults COUNT: so many saves were refused
///     zeros COUNT, keep: the next random bytes are 0; nothing is renamed
///     holds NAME TEXT, times NAME COUNT PIECE, mode NAME MODE, linked NAME, count NAME COUNT: this is so
///     reads NAME TEXT, odd NAME: the file of a buffer is read so, or refused
///     fits NAME, past NAME: it is read as no more characters than a text may have, or as more
///     loads NAME TEXT, fault NAME FAULT: a configuration is read, and gives `notes` this text, or is refused
///     asked WORDS|WORK|LINE: what the program is to do for its arguments, and tells
/// In texts `/` is a line feed, and `$` the path of the folder and a slash.
pub(crate) fn all_hold(
    abort: &impl Abort,
    rt: &HostRuntime,
    folder: &str,
    lists: &str,
) -> Result<(), Fail> {
    for named in lists.split("== ").skip(1) {
        let (_, lines) = named.split_once('\n').ok_or("no list")?;
        go_in_folder(abort, rt, folder, lines)?;
    }
    Ok(())
}
