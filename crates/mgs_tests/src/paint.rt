// A grid, painted on a terminal.
ghost use Rattle.std.specs.Prelude.{◌≡◌, ◌<◌, ◌^◌, length, IfOk};

use mgs_grid::{Grid, ShiftedRow};
use mgs_model::{Message, Name, Notice};
use mgs_paint::{bound, first, paint};
use mgs_term::{Cell, Term};
use mgs_text::{PlainText, Text};
use std::alloc::Global;
use std::process::Abort;
use std::test::Fail;

// A screen of 6 rows of 20 columns: a line of the buffer `notes` in row 1, its mode line in row 5, and the cursor in row 1
// at a column from 0.
fn screen_of(alloc: Global, line: &[char], column: usize) -> Result<Grid, Fail>
    requires line { length line.now < 2 ^ 16 }
    requires column { column < 20 }
    ensures rows { IfOk result (λ g. g.rows ≡ 6) }
    ensures cols { IfOk result (λ g. g.cols ≡ 20) }
{
    let notes = Name::read("notes").ok_or("no name")?;
    let mut grid = Grid::new(alloc, 6, 20)?;
    let text = PlainText::of(alloc, line)?;
    grid.draw_text(0, 4, &text, 0, ShiftedRow { row: 0, shift: 0 });
    grid.draw_mode(4, Some((notes, true)), Some((1, column)));
    grid.set_cursor(0, column);
    Ok(grid)
}

// A terminal that a whole screen was painted on.
fn terminal_of(rt: &impl Abort, alloc: Global, grid: &Grid) -> Result<Term, Fail>
    requires rows { grid.now.rows ≡ 6 }
    requires cols { grid.now.cols ≡ 20 }
{
    let mut term = Term::new(alloc, 6, 20)?;
    let mut out = Vec::with_capacity(alloc, bound(6, 20))?;
    first(grid, &mut out);
    assert!(rt; out.len() <= 592);
    assert!(rt; term.feed_all(&out) == Ok(()));
    Ok(term)
}

// Whether these bytes paint `new` over `old`.
fn is_painted(alloc: Global, old: &Grid, new: &Grid, expected: &[u8]) -> Result<bool, Fail>
    requires rows { new.now.rows ≡ old.now.rows }
    requires cols { new.now.cols ≡ old.now.cols }
    requires height { new.now.rows ≡ 6 }
    requires width { new.now.cols ≡ 20 }
{
    let mut out = Vec::with_capacity(alloc, bound(6, 20))?;
    paint(old, new, &mut out);
    Ok(out.as_slice() == expected)
}

// Whether two terminals show the same.
fn are_alike(one: &Term, other: &Term) -> bool {
    one.grid() == other.grid() && one.cursor() == other.cursor()
}

// Paints `new` over `old` on a terminal that shows `old`: these bytes, after which it shows `new`.
fn paints(
    rt: &impl Abort,
    alloc: Global,
    old: &Grid,
    new: &Grid,
    expected: &[u8],
) -> Result<(), Fail>
    requires old_rows { old.now.rows ≡ 6 }
    requires old_cols { old.now.cols ≡ 20 }
    requires new_rows { new.now.rows ≡ 6 }
    requires new_cols { new.now.cols ≡ 20 }
{
    assert!(rt; is_painted(alloc, old, new, expected)?);
    let mut term = terminal_of(rt, alloc, old)?;
    term.feed_all(expected)?;
    let fresh = terminal_of(rt, alloc, new)?;
    assert!(rt; are_alike(&term, &fresh));
    Ok(())
}

// A line and the cursor's column, what becomes of both, and the bytes: of the mode line one digit changes.
const PAINTED: [(&[char], usize, &[char], usize, &[u8]); 4] = [
    (
        &['h'],
        1,
        &['h', 'i'],
        2,
        b"i\x1b[5;15H\x1b[7m2\x1b[m\x1b[1;3H",
    ),
    (
        &['a', 'c', 'd'],
        1,
        &['a', 'b', 'c', 'd'],
        2,
        b"bcd\x1b[5;15H\x1b[7m2\x1b[m\x1b[1;3H",
    ),
    (&['h', 'i'], 2, &['h', 'i'], 2, b""),
    (
        &['h', 'a', 'l', 'f'],
        2,
        &['h'],
        2,
        b"\x1b[1;2H   \x1b[1;3H",
    ),
];

#[test]
fn changes_of_a_line_are_painted(rt: HostRuntime) -> Result<(), Fail> {
    for &(old, from, new, to, bytes) in &PAINTED {
        assert!(rt; old.len() < 20 && from < 20 && new.len() < 20 && to < 20);
        let old = screen_of(rt.alloc(), old, from)?;
        let new = screen_of(rt.alloc(), new, to)?;
        paints(&rt, rt.alloc(), &old, &new, bytes)?;
    }
    Ok(())
}

// The echo row is erased, and then the cursor alone moves.
#[test]
fn the_echo_row_and_the_cursor_are_painted(rt: HostRuntime) -> Result<(), Fail> {
    let plain = screen_of(rt.alloc(), &['h', 'i'], 2)?;
    let mut told = screen_of(rt.alloc(), &['h', 'i'], 2)?;
    told.draw_echo(5, &Message::Says(Notice::KeyNotBound));
    paints(&rt, rt.alloc(), &told, &plain, b"\x1b[6;1H\x1b[K\x1b[1;3H")?;
    let mut moved = screen_of(rt.alloc(), &['h', 'i'], 2)?;
    moved.set_cursor(5, 19);
    paints(&rt, rt.alloc(), &plain, &moved, b"\x1b[6;20H")
}

// The first row is reversed alone, and no longer.
#[test]
fn the_reverse_of_a_row_is_painted(rt: HostRuntime) -> Result<(), Fail> {
    let mode = [
        '-', 'N', 'o', 'n', 'e', '-', '-', '-', '-', '-', '-', '-', '-', '-', '-', '-', '-', '-',
        '-', '-',
    ];
    let plain = screen_of(rt.alloc(), &mode, 0)?;
    let mut reversed = screen_of(rt.alloc(), &mode, 0)?;
    reversed.draw_none_mode(0);
    paints(
        &rt,
        rt.alloc(),
        &plain,
        &reversed,
        b"\x1b[7m-None---------------\x1b[m\x1b[1;1H",
    )?;
    paints(
        &rt,
        rt.alloc(),
        &reversed,
        &plain,
        b"-None---------------\x1b[1;1H",
    )
}

#[test]
fn a_new_grid_is_blank(rt: HostRuntime) -> Result<(), Fail> {
    let grid = Grid::new(rt.alloc(), 6, 20)?;
    let term = terminal_of(&rt, rt.alloc(), &grid)?;
    assert!(rt; term.cursor() == (1, 1));
    assert!(rt; term.grid().len() == 120);
    for cell in term.grid() {
        assert!(rt; *cell == Cell::BLANK);
    }
    Ok(())
}
