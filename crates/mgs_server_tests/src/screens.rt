// What terminals of 6 rows and 20 columns show.
use crate::office::{Office, turn};
use crate::terminal::{Terminal, take};
use mgs_term::{Cell, Term};
use std::alloc::{AllocError, Global};
use std::test::Fail;

const ROWS: usize = 6;

const COLS: usize = 20;

// The most turns until all screens are as they are to be.
const TURNS: usize = 200;

// How a row ends: with `!` where all of it is shown in reverse.
fn end_of(row: &[Cell]) -> &'static str {
    for cell in row {
        if !cell.reversed {
            return "|\n";
        }
    }
    "!\n"
}

// A row as a line.
fn push_row(screen: &mut String, row: &[Cell]) -> Result<(), AllocError> {
    screen.push('|')?;
    for cell in row {
        screen.push(cell.character)?;
    }
    screen.push_str(end_of(row))
}

// All rows of a terminal, and behind them the cursor.
fn push_screen(screen: &mut String, term: &Term) -> Result<(), AllocError> {
    for row in term.grid().chunks(COLS) {
        push_row(screen, row)?;
    }
    let (row, col) = term.cursor();
    writeln!(screen, "cursor {row} {col}")
}

// The whole screen of a terminal, and behind it the cursor.
fn screen_of(alloc: Global, term: &Term) -> Result<String, Fail> {
    let mut screen = String::new(alloc);
    push_screen(&mut screen, term)?;
    Ok(screen)
}

// Whether a terminal that takes these bytes shows this screen.
fn shows(alloc: Global, term: &mut Term, bytes: &[u8], wanted: &str) -> Result<bool, Fail> {
    term.feed_all(bytes)?;
    let screen = screen_of(alloc, term)?;
    Ok(screen.as_str() == wanted)
}

// Takes what came to a terminal, and whether it then shows this screen.
fn takes(alloc: Global, terminal: &mut Terminal, wanted: &str) -> Result<bool, Fail> {
    take(terminal)?;
    let mut term = Term::new(alloc, ROWS, COLS)?;
    shows(alloc, &mut term, terminal.got.as_slice(), wanted)
}

/// Whether a terminal comes to show this screen, while the server turns.
pub(crate) fn comes_to_show(
    alloc: Global,
    office: &mut Office<'_>,
    terminal: &mut Terminal,
    wanted: &str,
) -> Result<bool, Fail> {
    for _ in 0..TURNS {
        turn(office)?;
        if takes(alloc, terminal, wanted)? {
            return Ok(true);
        }
    }
    Ok(false)
}

/// Whether two terminals come to show these screens at once, while the server turns.
pub(crate) fn both_show(
    alloc: Global,
    office: &mut Office<'_>,
    first: &mut Terminal,
    first_wanted: &str,
    second: &mut Terminal,
    second_wanted: &str,
) -> Result<bool, Fail> {
    for _ in 0..TURNS {
        turn(office)?;
        let first_shows = takes(alloc, first, first_wanted)?;
        let second_shows = takes(alloc, second, second_wanted)?;
        if first_shows && second_shows {
            return Ok(true);
        }
    }
    Ok(false)
}

// Takes what came to each of these terminals, and whether all then show this screen.
fn all_take(alloc: Global, terminals: &mut Vec<Terminal>, wanted: &str) -> Result<bool, Fail> {
    let mut all_show = true;
    for terminal in terminals.iter_mut() {
        all_show &= takes(alloc, terminal, wanted)?;
    }
    Ok(all_show)
}

/// Whether all of these terminals come to show this screen at once, while the server turns.
pub(crate) fn all_show(
    alloc: Global,
    office: &mut Office<'_>,
    terminals: &mut Vec<Terminal>,
    wanted: &str,
) -> Result<bool, Fail> {
    for _ in 0..TURNS {
        turn(office)?;
        if all_take(alloc, terminals, wanted)? {
            return Ok(true);
        }
    }
    Ok(false)
}
