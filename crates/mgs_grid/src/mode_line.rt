// The words of a mode line: the buffer's name, whether it is modified, and where the point stands.
ghost use Rattle.std.specs.Prelude.{◌≡◌, ◌+◌, ◌<◌, ◌≤◌, ◌^◌, ◌++◌, codes};
ghost use Rattle.mgs_model.specs.Rows.{heading_text, place_text};
ghost use Rattle.mgs_grid.specs.Cells.{Wrote};

use crate::cells::{put_bytes, put_decimal, put_name};
use mgs_model::Name;

// A name, and a dash.
fn put_titled(row: &mut [char], column: usize, name: &Name) -> usize
    requires { column < 2 ^ 62 }
    ensures wrote { Wrote row.old column (name.now ++ codes "-") row.new result }
    ensures few { result ≤ column + 33 }
{
    let end = put_name(row, column, name);
    put_bytes(row, end, b"-")
}

// Whether a buffer is modified, and its name.
fn put_title(row: &mut [char], title: &(Name, bool)) -> usize
    ensures wrote { Wrote row.old 0 (heading_text (Some title.now)) row.new result }
    ensures few { result ≤ 64 }
{
    let (name, modified) = title;
    if *modified {
        let start = put_bytes(row, 0, b"-**-");
        put_titled(row, start, name)
    } else {
        let start = put_bytes(row, 0, b"----");
        put_titled(row, start, name)
    }
}

/// Writes the front of a mode line from column 0 on, and tells the column after it, at most 64: the buffer's name and
/// whether it is modified. `None` stands for what may not be told.
pub(crate) fn put_heading(row: &mut [char], heading: Option<(Name, bool)>) -> usize
    ensures wrote { Wrote row.old 0 (heading_text heading) row.new result }
    ensures few { result ≤ 64 }
{
    match heading {
        None => put_bytes(row, 0, b"-??-?-"),
        Some(title) => put_title(row, &title),
    }
}

/// Writes the point's line and column, as given, the way a mode line has them, from a column below 2^60 on, and tells
/// the column after them, at most 64 further. `None` stands for what may not be told.
pub(crate) fn put_place(row: &mut [char], column: usize, place: Option<(usize, usize)>) -> usize
    requires { column < 2 ^ 60 }
    ensures wrote { Wrote row.old column (place_text place) row.new result }
    ensures few { result ≤ column + 64 }
{
    let Some((line, place_column)) = place else {
        return put_bytes(row, column, b"(no read)");
    };
    let at_line = put_bytes(row, column, b"L");
    let at_mark = put_decimal(row, at_line, line);
    let at_column = put_bytes(row, at_mark, b"-C");
    put_decimal(row, at_column, place_column)
}
