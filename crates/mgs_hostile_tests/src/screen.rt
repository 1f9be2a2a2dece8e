// What a terminal is to show, told in a line.
use mgs_term::Cell;

/// The rows of each terminal.
pub(crate) const ROWS: usize = 6;

/// And its columns.
pub(crate) const COLS: usize = 40;

const MODE_ROW: usize = 4;

const ECHO_ROW: usize = 5;

/// What comes before the next `|` of a line, less the blanks before the mark, and what comes behind the mark and a blank.
pub(crate) fn cut_field(line: &str) -> (&str, &str) {
    match line.split_once('|') {
        Some((field, rest)) => (field.trim_end(), rest.strip_prefix(' ').unwrap_or(rest)),
        None => (line.trim_end(), ""),
    }
}

/// The first word of a field, and what stands behind it.
pub(crate) fn cut_word(field: &str) -> (&str, &str) {
    field.split_once(' ').unwrap_or((field, ""))
}

// The character in the column of a row that is told: a mode line is filled up with `-`, any other row with blanks.
fn wanted_at(row: &str, col: usize) -> char {
    match row.as_bytes().get(col) {
        Some(byte) => *byte as char,
        None if row.starts_with('-') => '-',
        None => ' ',
    }
}

// A row of the screen that is told as ROW/ROW/.. | MODE LINE | ECHO LINE.
fn row_of<'a>(screen: &'a str, row: usize) -> &'a str {
    let (text, rest) = cut_field(screen);
    let (mode, rest) = cut_field(rest);
    let (echo, _) = cut_field(rest);
    match row {
        MODE_ROW => mode,
        ECHO_ROW => echo,
        _ => text.split('/').nth(row).unwrap_or(""),
    }
}

/// Whether these cells are those of a screen: ROW/ROW/.. | MODE LINE | ECHO LINE. What is left out behind a row are blanks, and behind a mode
/// line `-`.
pub(crate) fn is_screen(cells: &[Cell], screen: &str) -> bool {
    for (i, cell) in cells.iter().enumerate() {
        if cell.character != wanted_at(row_of(screen, i / COLS), i % COLS) {
            return false;
        }
    }
    true
}

// Whether a row of these cells shows this text.
fn is_row(cells: &[Cell], row: usize, text: &str) -> bool {
    for (i, cell) in cells.iter().enumerate() {
        if i / COLS == row && cell.character != wanted_at(text, i % COLS) {
            return false;
        }
    }
    true
}

/// Whether the first row is one of these texts, which `; ` parts.
pub(crate) fn is_first_row_of(cells: &[Cell], texts: &str) -> bool {
    for text in texts.split("; ") {
        if is_row(cells, 0, text) {
            return true;
        }
    }
    false
}

/// Whether the echo line tells that memory was refused.
pub(crate) fn tells_no_memory(cells: &[Cell]) -> bool {
    is_row(cells, ECHO_ROW, "No memory")
}

/// Whether all rows but the echo line are the same.
pub(crate) fn are_same_above(before: &[Cell], now: &[Cell]) -> bool {
    for (i, cell) in now.iter().enumerate() {
        if i / COLS != ECHO_ROW && before.get(i) != Some(cell) {
            return false;
        }
    }
    true
}
