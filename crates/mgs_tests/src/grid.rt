// Rows as they are seen.
use mgs_grid::{Grid, ShiftedRow, shift_for};
use mgs_model::{Decision, Direction, Message, Name, Question, Right};
use mgs_text::{PlainText, Text};
use std::process::Abort;
use std::test::Fail;

// Whether a row has these characters, all of them in reverse or none. Behind a wide character stands a NUL, for its right half.
fn has_row(grid: &Grid, row: usize, expected: &str, reversed: bool) -> bool {
    let Some(line) = grid.lines().get(row) else {
        return false;
    };
    let text = line.text();
    for (i, c) in text.iter().enumerate() {
        if expected.chars().nth(i) != Some(*c) {
            return false;
        }
    }
    text.len() == expected.chars().count() && line.is_reversed() == reversed
}

fn shows(rt: &impl Abort, grid: &Grid, row: usize, expected: &str, reversed: bool) {
    assert!(rt;
        has_row(grid, row, expected, reversed),
        "row {row} is not {expected}"
    );
}

const BLANK: &str = "                    ";

#[test]
fn rows_of_a_text(rt: HostRuntime) -> Result<(), Fail> {
    let text = PlainText::of(rt.alloc(), &['a', '\t', 'b', '\x01', '\x7f', '\n', 'c'])?;
    let mut grid = Grid::new(rt.alloc(), 6, 20)?;
    assert!(rt; (grid.rows(), grid.cols(), grid.lines().len()) == (6, 20, 6));
    assert!(rt; grid.cursor() == (0, 0));
    for row in 0..6 {
        shows(&rt, &grid, row, BLANK, false);
    }
    grid.draw_text(1, 2, &text, 0, ShiftedRow { row: 0, shift: 0 });
    for &(row, expected) in &[
        (0, BLANK),
        (1, "a       b^A^?       "),
        (2, "c                   "),
        (3, BLANK),
    ] {
        shows(&rt, &grid, row, expected, false);
    }
    assert!(rt; grid.rows() == 6);
    grid.draw_blank(1, 1);
    shows(&rt, &grid, 1, BLANK, false);
    shows(&rt, &grid, 2, "c                   ", false);
    assert!(rt; grid.rows() == 6);
    grid.draw_blank(1, 2);
    shows(&rt, &grid, 1, BLANK, false);
    shows(&rt, &grid, 2, BLANK, false);
    Ok(())
}

// The cursor's column, where the cursor is in the row from 1 on, and the row.
const SHIFTED: [(usize, usize, &str); 4] = [
    (0, 1, "abcdefghijklmnopqrs$"),
    (18, 19, "abcdefghijklmnopqrs$"),
    (19, 11, "$klmnopqrstuvwxyzab$"),
    (299, 12, "$defghijklmn        "),
];

// A line of 300 characters: the alphabet, again and again.
#[test]
fn rows_of_a_long_line(rt: HostRuntime) -> Result<(), Fail> {
    let mut chars = ['a'; 300];
    for i in 0..300 {
        chars[i] = (b'a' + (i % 26) as u8) as char;
    }
    let text = PlainText::of(rt.alloc(), &chars)?;
    let mut grid = Grid::new(rt.alloc(), 6, 20)?;
    for &(column, cursor, row) in &SHIFTED {
        assert!(rt; column < 300 && grid.rows() == 6);
        let shift = shift_for(20, column);
        assert!(rt; column - shift + 1 == cursor, "column {column}");
        grid.draw_text(1, 2, &text, 0, ShiftedRow { row: 0, shift });
        shows(&rt, &grid, 1, row, false);
    }
    Ok(())
}

const DENIED_BY_1: Decision = Decision::DeniedBy {
    entry: 1,
    bit: Right::ReadData,
};

const UNREAD: Decision = Decision::NotGranted {
    bit: Right::ReadData,
};

const NOT_GRANTED: Decision = Decision::NotGranted {
    bit: Right::WriteData,
};

#[test]
fn mode_lines_and_masks(rt: HostRuntime) -> Result<(), Fail> {
    let notes = Name::read("notes").ok_or("no name")?;
    let mut grid = Grid::new(rt.alloc(), 6, 20)?;
    grid.draw_mode(4, Some((notes, true)), Some((6, 0)));
    shows(&rt, &grid, 4, "-**-notes-L6-C0-----", true);
    grid.draw_none_mode(4);
    shows(&rt, &grid, 4, "-None---------------", true);
    grid.draw_unread(1, 2, DENIED_BY_1);
    shows(&rt, &grid, 1, "[no read: entry 1]  ", false);
    shows(&rt, &grid, 2, BLANK, false);
    grid.draw_unread(1, 1, UNREAD);
    shows(&rt, &grid, 1, "[no read: no entry] ", false);
    grid.set_cursor(5, 19);
    assert!(rt; grid.cursor() == (5, 19));
    let mut grid = Grid::new(rt.alloc(), 6, 40)?;
    grid.draw_mode(4, None, None);
    let masked = "-??-?-(no read)-------------------------";
    shows(&rt, &grid, 4, masked, true);
    Ok(())
}

// What is asked and typed, the echo row, and the column behind it. 19 cells leave one for the cursor, and of more the end is
// shown, where half of a wide character is a blank. Nothing is left of the line before.
const PROMPTS: [(Question, &[char], &str, usize); 17] = [
    (Question::SwitchTo, &[], "Switch to buffer:   ", 18),
    (Question::SwitchTo, &['n'], "Switch to buffer: n ", 19),
    (Question::SwitchTo, &['n', 'o'], "$itch to buffer: no ", 19),
    (Question::FindWhich, &[], "Find file:          ", 11),
    (
        Question::FindWhich,
        &[
            '0', '1', '2', '3', '4', '5', '6', '7', '8', '9', '0', '1', '2', '3', '4', '5', '6',
            '7', '8', '9', '0', '1', '2', '3', '4', '5', '6', '7',
        ],
        "$012345678901234567 ",
        19,
    ),
    (Question::KillWhich, &[], "Kill buffer:        ", 13),
    (Question::InsertWhich, &[], "Insert buffer:      ", 15),
    (Question::WhichOwner, &[], "Owner:              ", 7),
    (
        Question::WhichOwner,
        &['a', 'n', 'n'],
        "Owner: ann          ",
        10,
    ),
    (Question::ReplaceWhat, &[], "Query replace:      ", 15),
    (Question::ReplaceWith, &[], "With:               ", 6),
    (
        Question::SwitchTo,
        &['n', 'o', 't', 'e', 's'],
        "$h to buffer: notes ",
        19,
    ),
    (Question::ReplaceWith, &['x'], "With: x             ", 7),
    (
        Question::FindWhich,
        &['\u{e9}', '\u{6f22}'],
        "Find file: \u{e9}\u{6f22}\0      ",
        14,
    ),
    (
        Question::WhichOwner,
        &['\u{301}'],
        "Owner: \\u{301}      ",
        14,
    ),
    // The end of a line of 29 cells begins with a whole character, and that of one of 30 with a right half.
    (
        Question::FindWhich,
        &[
            '\u{6f22}', 'a', 'a', 'a', 'a', 'a', 'a', 'a', 'a', 'a', 'a', 'a', 'a', 'a', 'a', 'a',
            'a',
        ],
        "$\u{6f22}\0aaaaaaaaaaaaaaaa ",
        19,
    ),
    (
        Question::FindWhich,
        &[
            '\u{6f22}', 'a', 'a', 'a', 'a', 'a', 'a', 'a', 'a', 'a', 'a', 'a', 'a', 'a', 'a', 'a',
            'a', 'a',
        ],
        "$ aaaaaaaaaaaaaaaaa ",
        19,
    ),
];

// The way of a search, whether it fails, its pattern, the echo row, and the column behind it.
const SEARCHES: [(Direction, bool, &[char], &str, usize); 5] = [
    (
        Direction::Forward,
        false,
        &['b', 'B'],
        "I-search: bB        ",
        12,
    ),
    (Direction::Forward, true, &['x'], "Failing I-search: x ", 19),
    (
        Direction::Backward,
        false,
        &['x'],
        "$search backward: x ",
        19,
    ),
    (Direction::Backward, false, &[], "I-search backward:  ", 19),
    (
        Direction::Forward,
        false,
        &['\u{6f22}'],
        "I-search: \u{6f22}\0        ",
        12,
    ),
];

#[test]
fn echo_rows(rt: HostRuntime) -> Result<(), Fail> {
    let mut grid = Grid::new(rt.alloc(), 6, 20)?;
    for &(question, input, expected, column) in &PROMPTS {
        assert!(rt; grid.rows() == 6 && input.len() <= 120);
        assert!(rt;
            grid.draw_prompt(5, question, input) == column,
            "{expected}"
        );
        shows(&rt, &grid, 5, expected, false);
    }
    for &(direction, failing, pattern, expected, column) in &SEARCHES {
        assert!(rt; grid.rows() == 6 && pattern.len() <= 120);
        assert!(rt;
            grid.draw_search(5, direction, failing, pattern) == column,
            "{expected}"
        );
        shows(&rt, &grid, 5, expected, false);
    }
    assert!(rt; grid.rows() == 6);
    grid.draw_echo(5, &Message::Denied(NOT_GRANTED));
    shows(&rt, &grid, 5, "Denied: no entry gr$", false);
    assert!(rt; grid.rows() == 6);
    grid.draw_echo(5, &Message::Denied(DENIED_BY_1));
    shows(&rt, &grid, 5, "Denied: entry 1 den$", false);
    Ok(())
}
