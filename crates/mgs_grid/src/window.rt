// Rows one below another. None of this takes memory.
ghost use Rattle.std.specs.Prelude.{◌≡◌, ◌<◌, ◌≤◌, ◌^◌, length, drop, false, All};
ghost use Rattle.mgs_model.specs.Rows.{blank_rows, text_rows, shift_at};
ghost use Rattle.mgs_grid.specs.Cells.{HasWidth};
ghost use Rattle.mgs_grid.specs.RowSets.{AreSameApart};

use crate::row_set::RowSet;
use crate::screen_row::Line;
use crate::shift::ShiftedRow;
use mgs_model::ROWS_MAX;
use mgs_text::Text;

// Draws a text from the line that starts at `top` on; one row is shown from another column than 0.
pub(crate) fn draw_rows<T: Text>(
    lines: &mut [Line],
    cols: usize,
    text: &T,
    top: usize,
    shifted: ShiftedRow,
)
    requires some { 4 ≤ cols }
    requires width { cols < 2 ^ 62 }
    requires each { All (HasWidth cols) lines.old }
    requires within { top ≤ length (T.text text.now) }
    requires short { length (T.text text.now) < 2 ^ 32 }
    requires shift { shifted.shift < 2 ^ 62 }
    ensures { lines.new ≡ text_rows cols (shift_at shifted.row shifted.shift) 0 (length lines.old) (drop top (T.text text.now)) }
{
    let mut start = top;
    for (i, line) in lines.iter_mut().enumerate() {
        let from = if i == shifted.row { shifted.shift } else { 0 };
        let end = line.draw_text(text, start, from);
        start = if end < text.len() { end + 1 } else { end };
    }
}

// Clears rows: plain blanks.
pub(crate) fn clear_rows(lines: &mut [Line], cols: usize)
    requires { All (HasWidth cols) lines.old }
    ensures { lines.new ≡ blank_rows cols (length lines.old) }
{
    for line in lines.iter_mut() {
        line.draw_blank();
    }
}

// Copies a row, where it may differ.
fn take_row(line: &mut Line, from: &Line, may_differ: bool)
    requires width { length line.old.text ≡ length from.now.text }
    requires same { may_differ ≡ false → from.now ≡ line.old }
    ensures { line.new ≡ from.now }
{
    if may_differ {
        line.take(from);
    }
}

// Copies rows of the same width: those of a set, where the others are the same.
fn take_rows(lines: &mut [Line], cols: usize, from: &[Line], rows: &RowSet)
    requires count { length lines.old ≡ length from.now }
    requires few { length from.now ≤ ROWS_MAX }
    requires each { All (HasWidth cols) lines.old }
    requires each_from { All (HasWidth cols) from.now }
    requires same { AreSameApart rows.now lines.old from.now }
    ensures { lines.new ≡ from.now }
{
    for (i, line) in lines.iter_mut().enumerate() {
        take_row(line, &from[i], rows.has(i));
    }
}

// Copies rows of the same width, where a set has any: those of the set. The others are the same.
#[tactic(auto, using(crate::proofs::RowSets::none_apart))]
pub(crate) fn take_some(lines: &mut [Line], cols: usize, from: &[Line], rows: &RowSet)
    requires count { length lines.old ≡ length from.now }
    requires few { length from.now ≤ ROWS_MAX }
    requires each { All (HasWidth cols) lines.old }
    requires each_from { All (HasWidth cols) from.now }
    requires same { AreSameApart rows.now lines.old from.now }
    ensures { lines.new ≡ from.now }
{
    if !rows.is_none() {
        take_rows(lines, cols, from, rows);
    }
}
