// A terminal that reads nothing until much waits for it.
use crate::office::{Office, turn};
use crate::terminal::{Terminal, enter, take};
use mgs_term::{Cell, Term};
use std::alloc::Global;
use std::test::Fail;

const ROWS: usize = 64;

const COLS: usize = 160;

// The rows above the mode line.
const TEXT_ROWS: usize = 62;

// Ann writes a line of 159 letters, and 62 more by a macro.
const FILLS: &[u8] = b"login ann t1 6 20\n\x18(\x15159x\r\x18)\x1562\x18e";

// As many turns as what was sent takes, and more.
const TURNS: usize = 20;

// As many reads as what waits takes, and more.
const READS: usize = 40;

// At least so many bytes paint a screen that is full of letters.
const PAINT: usize = 10_000;

fn turn_on(office: &mut Office<'_>) -> Result<(), Fail> {
    for _ in 0..TURNS {
        turn(office)?;
    }
    Ok(())
}

// Takes all that has come. The server does nothing meanwhile.
fn take_all(terminal: &mut Terminal) -> Result<(), Fail> {
    for _ in 0..READS {
        take(terminal)?;
    }
    Ok(())
}

// Whether a row shows letters up to its last column.
fn is_full(row: &[Cell]) -> bool {
    for cell in row.iter().take(COLS - 1) {
        if cell.character != 'x' {
            return false;
        }
    }
    true
}

// Whether all rows above the mode line do.
fn are_all_full(term: &Term) -> bool {
    for row in term.grid().chunks(COLS).take(TEXT_ROWS) {
        if !is_full(row) {
            return false;
        }
    }
    true
}

// Whether these bytes paint a screen that is full of letters.
fn is_painted(alloc: Global, bytes: &[u8]) -> Result<bool, Fail> {
    let mut term = Term::new(alloc, ROWS, COLS)?;
    term.feed_all(bytes)?;
    Ok(bytes.len() >= PAINT && are_all_full(&term))
}

/// Whether all bytes come to one who reads nothing until the server has painted his whole screen, and turns no more.
pub(crate) fn is_painted_at_once(rt: &HostRuntime, office: &mut Office<'_>) -> Result<bool, Fail> {
    let _ann = enter(rt, office.port(), FILLS)?;
    turn_on(office)?;
    let mut bob = enter(rt, office.port(), b"login bob t2 64 160\n")?;
    turn_on(office)?;
    take_all(&mut bob)?;
    is_painted(rt.alloc(), bob.got.as_slice())
}
