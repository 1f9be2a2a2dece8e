// Lines and columns of a text.
use crate::searches::cut_at;
use mgs_lines::{column, column_place, indent_end, line_end, line_start, settled_top, width};
use mgs_text::{PlainText, Text};
use std::process::Abort;
use std::test::Fail;

// Lines `ab`, a tab and `c` and e acute, and `d`.
const LINES: [char; 8] = ['a', 'b', '\n', '\t', 'c', '\u{e9}', '\n', 'd'];

// At a place: start and end of its line, and its column.
const PLACES: [(usize, usize, usize, usize); 6] = [
    (0, 0, 2, 0),
    (2, 0, 2, 2),
    (3, 3, 6, 0),
    (5, 3, 6, 9),
    (6, 3, 6, 10),
    (7, 7, 8, 0),
];

// The top of a window of two rows, for the top that it had and a point.
const TOPS: [(usize, usize, usize); 3] = [(0, 4, 0), (0, 7, 3), (7, 0, 0)];

const WIDTHS: [(usize, char, usize); 9] = [
    (3, '\t', 5),
    (8, '\t', 8),
    (0, '\x01', 2),
    (0, '~', 1),
    (0, '\x7f', 2),
    (0, '\u{e9}', 1),
    (0, '\u{6f22}', 2),
    (0, '\u{301}', 7),
    (0, '\u{1f600}', 2),
];

// Whether a place has this start and end of its line, and this column.
fn lies_in_line(text: &impl Text, p: usize, start: usize, end: usize, cells: usize) -> bool {
    text.len() == 8
        && p <= 8
        && line_start(text, p) == start
        && line_end(text, p) == end
        && column(text, p) == cells
}

// Whether the top of a window of two rows settles there.
fn settles(text: &impl Text, top: usize, point: usize, settled: usize) -> bool {
    top <= text.len() && point <= text.len() && settled_top(text, 2, top, point) == settled
}

#[test]
fn parts_lines_and_counts_cells(rt: HostRuntime) -> Result<(), Fail> {
    let text = PlainText::of(rt.alloc(), &LINES)?;
    for &(p, start, end, cells) in &PLACES {
        assert!(rt; lies_in_line(&text, p, start, end, cells), "at {p}");
    }
    for &(top, point, settled) in &TOPS {
        assert!(rt; settles(&text, top, point, settled), "{top} for {point}");
    }
    for &(at, c, cells) in &WIDTHS {
        assert!(rt; width(at, c) == cells, "{c} at {at}");
    }
    Ok(())
}

// Whether a text of 20 characters ends in this column.
fn ends_in_column(text: &impl Text, cells: usize) -> bool {
    text.len() == 20 && column(text, 20) == cells
}

// Columns are counted on where the characters of a line do not lie together.
#[test]
fn columns_go_on_behind_a_gap(rt: HostRuntime) -> Result<(), Fail> {
    let text = cut_at(rt.alloc(), &['x'; 20], 10)?;
    assert!(rt; ends_in_column(&text, 20));
    Ok(())
}

// In `a`, a tab, `^A`, e acute, and a line `b`: the place in a line that is nearest to a goal column.
const GOALS: [(usize, usize, usize); 10] = [
    (0, 0, 0),
    (0, 1, 1),
    (0, 7, 1),
    (0, 8, 2),
    (0, 9, 2),
    (0, 10, 3),
    (0, 15, 4),
    (0, 16, 4),
    (0, 99, 4),
    (5, 99, 6),
];

// In a space, a tab, `a`, and a line of a tab and `b`: the end of the indent before a place.
const INDENTS: [(usize, usize); 7] = [(0, 0), (1, 1), (2, 2), (3, 2), (4, 4), (5, 5), (6, 5)];

// Whether the place in the line of a start that is nearest to a goal column is this one.
fn is_nearest(text: &impl Text, start: usize, goal: usize, place: usize) -> bool {
    text.len() == 6 && start <= 6 && column_place(text, start, goal) == place
}

// Whether the indent before a place ends there.
fn indents_to(text: &impl Text, p: usize, end: usize) -> bool {
    text.len() == 6 && p <= 6 && indent_end(text, p) == end
}

#[test]
fn goal_columns_and_indents(rt: HostRuntime) -> Result<(), Fail> {
    let text = PlainText::of(rt.alloc(), &['a', '\t', '\x01', '\u{e9}', '\n', 'b'])?;
    for &(start, goal, place) in &GOALS {
        assert!(rt; is_nearest(&text, start, goal, place), "goal {goal}");
    }
    let text = PlainText::of(rt.alloc(), &[' ', '\t', 'a', '\n', '\t', 'b'])?;
    for &(p, end) in &INDENTS {
        assert!(rt; indents_to(&text, p, end), "from {p}");
    }
    Ok(())
}
