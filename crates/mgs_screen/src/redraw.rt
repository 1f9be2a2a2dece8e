// The rows of a text, drawn where those of an earlier one stand.
ghost use Rattle.std.specs.Prelude.{◌≡◌, ◌<◌, ◌^◌};
ghost use Rattle.mgs_model.specs.Rows.{shift_at};
ghost use Rattle.mgs_world.specs.Worlds.{buffers_of};
ghost use Rattle.mgs_buffers.specs.MarkedBuffer.{HasBuffer};
ghost use Rattle.mgs_screen.specs.Canvas.{IsDrawnOn, IsPane, IsReadOf};
ghost use Rattle.mgs_screen.specs.Changes.{CompletesChange, CompletesLine, CompletesRow, CompletesShifts};
ghost use Rattle.mgs_screen.specs.TextsDrawn.{DoesShow, MayStand, showing};

use crate::change::{Change, change_since};
use crate::drawn_texts::{DrawnText, Shown};
use crate::tab_stops::begin_at;
use mgs_buffers::Found;
use mgs_grid::{Grid, RowSet, ShiftedRow};
use mgs_marks::Marked;
use mgs_model::ROWS_MAX;
use mgs_text::Text;

/// Draws all rows of a text.
fn draw_rows_of<T: Text>(text: &T, drawn: &DrawnText, rows: &mut RowSet, grid: &mut Grid)
    requires pane { IsPane (T.text text.now) drawn.now grid.old }
    ensures grid { grid.new ≡ showing drawn.now drawn.now.shown.row drawn.now.shown.shift (T.text text.now) grid.old }
    ensures drawn { IsDrawnOn rows.old rows.new grid.old grid.new }
{
    prove!(grid.rows() <= ROWS_MAX);
    let own = ShiftedRow {
        row: drawn.shown.row,
        shift: drawn.shown.shift,
    };
    grid.draw_text(drawn.first, drawn.height, text, drawn.shown.start, own);
    rows.insert_rows(drawn.first, drawn.height);
}

/// Draws one row of a text from a column. Where it is out of sight there is nothing to draw. A row
/// of the point's line is drawn from its tab stop.
fn draw_row_of<T: Text>(
    text: &T,
    drawn: &DrawnText,
    at: ShiftedRow,
    rows: &mut RowSet,
    grid: &mut Grid,
)
    requires pane { IsPane (T.text text.now) drawn.now grid.old }
    requires shift { at.shift < 2 ^ 62 }
    ensures grid { CompletesRow drawn.now at.row at.shift (T.text text.now) grid.old grid.new }
    ensures drawn { IsDrawnOn rows.old rows.new grid.old grid.new }
{
    prove!(grid.rows() <= ROWS_MAX);
    if at.row >= drawn.height {
        return;
    }
    let begin = begin_at(text, drawn.shown.above + at.row, at.shift, drawn.shown.stop);
    grid.draw_text_row(drawn.first + at.row, text, begin.place, begin.shift);
    rows.insert(drawn.first + at.row);
}

/// Shows a row of a text that stands from column `to`.
fn shift_row<T: Text>(
    text: &T,
    drawn: &DrawnText,
    from: ShiftedRow,
    to: usize,
    rows: &mut RowSet,
    grid: &mut Grid,
)
    requires pane { IsPane (T.text text.now) drawn.now grid.old }
    requires shift { to < 2 ^ 62 }
    ensures grid { DoesShow drawn.now from.row from.shift (T.text text.now) grid.old → grid.new ≡ showing drawn.now from.row to (T.text text.now) grid.old }
    ensures drawn { IsDrawnOn rows.old rows.new grid.old grid.new }
{
    prove!(grid.rows() <= ROWS_MAX);
    if from.shift == to {
        return;
    }
    let at = ShiftedRow {
        row: from.row,
        shift: to,
    };
    draw_row_of(text, drawn, at, rows, grid);
}

/// Shows a text that stands, and of which one row is shifted, with its own row shifted.
fn shift_rows<T: Text>(
    text: &T,
    drawn: &DrawnText,
    from: ShiftedRow,
    rows: &mut RowSet,
    grid: &mut Grid,
)
    requires pane { IsPane (T.text text.now) drawn.now grid.old }
    ensures grid { CompletesShifts drawn.now from.row from.shift (T.text text.now) grid.old grid.new }
    ensures drawn { IsDrawnOn rows.old rows.new grid.old grid.new }
{
    prove!(grid.rows() <= ROWS_MAX);
    if from.row == drawn.shown.row {
        shift_row(text, drawn, from, drawn.shown.shift, rows, grid);
        return;
    }
    shift_row(text, drawn, from, 0, rows, grid);
    let own = ShiftedRow {
        row: drawn.shown.row,
        shift: 0,
    };
    shift_row(text, drawn, own, drawn.shown.shift, rows, grid);
}

/// From which column a text shows a row.
fn shift_of(drawn: &DrawnText, row: usize) -> usize
    requires { drawn.now.shown.shift < 2 ^ 62 }
    ensures value { result ≡ shift_at drawn.now.shown.row drawn.now.shown.shift row }
    ensures near { result < 2 ^ 62 }
{
    if row == drawn.shown.row {
        drawn.shown.shift
    } else {
        0
    }
}

/// Draws the row of the one line that changed, in a text whose other rows stand, and of which one row is shifted. Tells from which column
/// this is shown then.
fn draw_line_of<T: Text>(
    text: &T,
    drawn: &DrawnText,
    down: usize,
    from: ShiftedRow,
    rows: &mut RowSet,
    grid: &mut Grid,
) -> usize
    requires pane { IsPane (T.text text.now) drawn.now grid.old }
    ensures grid { CompletesLine drawn.now down from.row from.shift result (T.text text.now) grid.old grid.new }
    ensures drawn { IsDrawnOn rows.old rows.new grid.old grid.new }
{
    if down != from.row {
        let at = ShiftedRow {
            row: down,
            shift: 0,
        };
        draw_row_of(text, drawn, at, rows, grid);
        return from.shift;
    }
    let shift = shift_of(drawn, from.row);
    let at = ShiftedRow { row: down, shift };
    draw_row_of(text, drawn, at, rows, grid);
    shift
}

/// Draws those rows of a text that are not as they were when it was drawn earlier.
fn redraw_rows<T: Text>(
    change: Change,
    text: &T,
    drawn: &DrawnText,
    earlier: &Shown,
    rows: &mut RowSet,
    grid: &mut Grid,
)
    requires pane { IsPane (T.text text.now) drawn.now grid.old }
    ensures grid { CompletesChange change earlier.now drawn.now (T.text text.now) grid.old grid.new }
    ensures drawn { IsDrawnOn rows.old rows.new grid.old grid.new }
{
    prove!(grid.rows() <= ROWS_MAX);
    let from = ShiftedRow {
        row: earlier.row,
        shift: earlier.shift,
    };
    match change {
        Change::Nothing => shift_rows(text, drawn, from, rows, grid),
        Change::Line(down) => {
            let shift = draw_line_of(text, drawn, down, from, rows, grid);
            shift_rows(text, drawn, ShiftedRow { shift, ..from }, rows, grid);
        }
        Change::Anything => draw_rows_of(text, drawn, rows, grid),
    }
}

/// Draws the rows of a text that may be read: where it is shown as before, those that changed, and else all.
pub(crate) fn redraw_pane<T: Marked + Drop>(
    found: &Found<T>,
    text: &T,
    drawn: &DrawnText,
    earlier: &Option<Shown>,
    rows: &mut RowSet,
    grid: &mut Grid,
)
    requires kept { HasBuffer found.now.name found.now.all }
    requires read { IsReadOf found.now drawn.now.shown (T.text text.now) }
    requires pane { IsPane (T.text text.now) drawn.now grid.old }
    requires stands { MayStand (buffers_of found.now.all) grid.old found.now.name drawn.now.first drawn.now.height earlier.now }
    ensures grid { grid.new ≡ showing drawn.now drawn.now.shown.row drawn.now.shown.shift (T.text text.now) grid.old }
    ensures drawn { IsDrawnOn rows.old rows.new grid.old grid.new }
{
    let Some(earlier) = earlier else {
        draw_rows_of(text, drawn, rows, grid);
        return;
    };
    let change = change_since(found, text, &drawn.shown, earlier);
    redraw_rows(change, text, drawn, earlier, rows, grid);
}
