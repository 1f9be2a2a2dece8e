ghost use Rattle.std.specs.Prelude.{◌≡◌, ℕ, List, ◌+◌, ◌*◌, ◌≤◌, ◌++◌, length, vec_len, vec_capacity, All};
ghost use Rattle.mgs_model.specs.Picture.{IsRow, IsSize};
ghost use Rattle.mgs_model.specs.declared.limits.TheConstants.{COLS_MAX, ROWS_MAX};
ghost use Rattle.mgs_paint.specs.Painting.{bound_of, Paints};
ghost use Rattle.mgs_paint.specs.Operations.{bytes_of, rows_operations, whole_operations};

use crate::put::{put_goto, put_reverse, put_row, put_unwrap};
use mgs_grid::{Grid, Line};
use mgs_model::ROWS_MAX;

/// The most bytes that a paint of this many rows and columns gives.
pub fn bound(rows: usize, cols: usize) -> usize
    requires { IsSize rows cols }
    ensures { result ≡ bound_of rows cols }
{
    rows * (16 + 4 * cols) + 16
}

fn put_rows(out: &mut Vec<u8>, cols: usize, lines: &[Line])
    requires rows { length lines.now ≤ ROWS_MAX }
    requires cols { cols ≤ COLS_MAX }
    requires each { All (IsRow cols) lines.now }
    requires room { vec_len out.old + length lines.now * (13 + 4 * cols) ≤ vec_capacity out.old }
    ensures items { out.new.items ≡ out.old.items ++ bytes_of (rows_operations 0 lines.now) }
    ensures capacity { vec_capacity out.new ≡ vec_capacity out.old }
    ensures len { vec_len out.new ≤ vec_len out.old + length lines.now * (13 + 4 * cols) }
{
    for (i, line) in lines.iter().enumerate() {
        put_row(out, i, line);
    }
}

fn put_whole(out: &mut Vec<u8>, new: &Grid)
    requires room { vec_len out.old + bound_of new.now.rows new.now.cols ≤ vec_capacity out.old }
    ensures items { out.new.items ≡ out.old.items ++ bytes_of (whole_operations new.now) }
    ensures capacity { vec_capacity out.new ≡ vec_capacity out.old }
    ensures len { vec_len out.new ≤ vec_len out.old + bound_of new.now.rows new.now.cols }
{
    put_unwrap(out);
    put_rows(out, new.cols(), new.lines());
    put_reverse(out, false);
    let (row, col) = new.cursor();
    put_goto(out, row, col);
}

/// Appends the bytes that paint a grid on a terminal of its size, whatever that shows, and wherever its cursor and flags
/// stand, as long as it is between two sequences. Afterwards it shows the grid, with reverse and wrap off.
/// `out` has room for `bound` bytes more, and no memory is taken.
pub fn first(new: &Grid, out: &mut Vec<u8>)
    requires room { vec_len out.old + bound_of new.now.rows new.now.cols ≤ vec_capacity out.old }
    ensures paints { (bytes : List ℕ) × (out.new.items ≡ out.old.items ++ bytes) × Paints new.now bytes }
    ensures capacity { vec_capacity out.new ≡ vec_capacity out.old }
{
    prove!(new.rows() <= ROWS_MAX);
    put_whole(out, new);
}
