// What a window measures of a text before it shows it.
ghost use Rattle.std.specs.Prelude.{◌≡◌, ◌-◌, ◌<◌, ◌≤◌, ◌^◌, true, length, IsSome};
ghost use Rattle.mgs_model.specs.Rows.{shift_for};
ghost use Rattle.mgs_marks.specs.Marks.{mark_in};
ghost use Rattle.mgs_screen.specs.Canvas.{IsLineStart};
ghost use Rattle.mgs_screen.specs.Screens.{IsMeasuredBy, screen_shift};
ghost use Rattle.mgs_screen.specs.TabStops.{IsKnown, IsTabStop};

use crate::tab_stops::{TabStop, cells_to, first_stop, near_stop};
use mgs_grid::shift_for;
use mgs_marks::Marked;
use mgs_windows::WindowMarks;

/// What a window measures of a text before it shows it.
#[derive(Clone, Copy)]
pub(crate) struct Measures {
    /// The line that the first row shows.
    pub(crate) above: usize,
    /// Where that starts.
    pub(crate) start: usize,
    /// The point's line.
    pub(crate) line: usize,
    /// The point's column.
    pub(crate) column: usize,
    /// The row of the point's line, from the window's first.
    pub(crate) row: usize,
    /// From which column that is shown.
    pub(crate) shift: usize,
    /// The cursor's column on the screen.
    pub(crate) col: usize,
    /// A tab stop in the point's line.
    pub(crate) stop: TabStop,
}

/// From which column the point's line is shown, and where the cursor then is. Only the selected window is shifted.
fn shifted(cols: usize, column: usize, selected: bool) -> (usize, usize)
    requires cols { 20 ≤ cols }
    ensures shift { result.0 ≡ screen_shift selected cols column }
    ensures few { result.0 ≤ column }
    ensures col { result.1 < cols }
    ensures cursor { selected ≡ true → result.1 ≡ column - shift_for cols column }
{
    if selected {
        let shift = shift_for(cols, column);
        (shift, column - shift)
    } else {
        (0, 0)
    }
}

/// What a window measures of a text. Only the selected window shifts the point's line. Columns are counted from the tab stop that is known,
/// where it lies before the point in its line.
pub(crate) fn measure<T: Marked>(
    text: &T,
    window_marks: &WindowMarks,
    selected: bool,
    cols: usize,
    known: Option<TabStop>,
) -> Measures
    requires point { IsSome (mark_in (T.marks text.now) window_marks.now.point) }
    requires top { IsSome (mark_in (T.marks text.now) window_marks.now.top) }
    requires short { length (T.text text.now) ≤ 1048576 }
    requires cols { 20 ≤ cols }
    requires narrow { cols < 2 ^ 32 }
    requires known { IsKnown (T.text text.now) known }
    ensures is { IsMeasuredBy (T.text text.now) (T.marks text.now) window_marks.now result.line result.row result.column result.start }
    ensures shift { result.shift ≡ screen_shift selected cols result.column }
    ensures cursor { selected ≡ true → result.col ≡ result.column - shift_for cols result.column }
    ensures top { IsLineStart (T.text text.now) result.start result.above }
    ensures few { result.line ≤ 1048576 }
    ensures near { result.shift < 2 ^ 62 }
    ensures col { result.col < cols }
    ensures stop { IsTabStop (T.text text.now) result.stop }
{
    let point = text.pos(window_marks.point);
    let top = text.pos(window_marks.top);
    let line = text.line_of(point);
    let above = text.line_of(top);
    let line_start = text.start_of(line);
    let first = first_stop(known, line_start, point);
    let stop = near_stop(text, line_start, first, point, cols);
    let column = cells_to(text, line_start, stop, point);
    let (shift, col) = shifted(cols, column, selected);
    Measures {
        above,
        start: text.start_of(above),
        line,
        column,
        row: line.saturating_sub(above),
        shift,
        col,
        stop,
    }
}
