// Columns that are counted from a tab stop on, and not from the start of the line.
ghost use Rattle.std.specs.Prelude.{◌≡◌, ℕ, List, ◌*◌, ◌≤◌, ◌<◌, ◌^◌, length, slice_range};
ghost use Rattle.mgs_model.specs.Cells.{cells};
ghost use Rattle.mgs_model.specs.Lines.{line_start, start_of};
ghost use Rattle.mgs_screen.specs.TabStops.{AreShownAlike, IsKnown, IsStopBefore, IsTabStop};

use mgs_lines::{column_from, width};
use mgs_text::Text;

/// A place of a line, and its column, a multiple of eight.
#[derive(Clone, Copy)]
pub(crate) struct TabStop {
    /// Where it is in the text.
    pub(crate) place: usize,
    /// Its column.
    pub(crate) column: usize,
}

/// Where a row begins that shows a line, and from which column on it shows what stands there.
#[derive(Clone, Copy)]
pub(crate) struct Begin {
    /// Where in the text it begins.
    pub(crate) place: usize,
    /// The column, counted from there.
    pub(crate) shift: usize,
}

/// From where the line of a number may be drawn that is shown from column `shift` on: from a tab stop of it before that column, and else from
/// the line's start. The row is the same.
pub(crate) fn begin_at<T: Text>(text: &T, line: usize, shift: usize, stop: TabStop) -> Begin
    requires stop { IsTabStop (T.text text.now) stop }
    requires shift { shift < 2 ^ 62 }
    ensures row { AreShownAlike (T.text text.now) result.shift result.place shift (start_of line (T.text text.now)) }
    ensures within { result.place ≤ length (T.text text.now) }
    ensures shift { result.shift < 2 ^ 62 }
{
    if shift <= stop.column {
        return begin_at_start(text, line, shift);
    }
    if text.line_of(stop.place) != line {
        return begin_at_start(text, line, shift);
    }
    Begin {
        place: stop.place,
        shift: shift - stop.column,
    }
}

/// From the start of the line.
fn begin_at_start<T: Text>(text: &T, line: usize, shift: usize) -> Begin
    ensures place { result.place ≡ start_of line (T.text text.now) }
    ensures within { result.place ≤ length (T.text text.now) }
    ensures shift { result.shift ≡ shift }
{
    Begin {
        place: text.start_of(line),
        shift,
    }
}

/// A tab stop at or before a position, in the line that starts at `start`: the one that is known, where it lies there, and else that start.
pub(crate) fn first_stop(known: Option<TabStop>, start: usize, p: usize) -> TabStop
    ensures { (text : List ℕ) → start ≡ line_start text p → p ≤ length text → IsKnown text known → IsStopBefore text start p result }
{
    let line = TabStop {
        place: start,
        column: 0,
    };
    let Some(stop) = known else {
        return line;
    };
    if stop.place < start {
        return line;
    }
    if p < stop.place {
        return line;
    }
    stop
}

/// The number of cells before a position in the line that starts at `start`, counted from a tab stop on.
pub(crate) fn cells_to<T: Text>(text: &T, start: usize, stop: TabStop, p: usize) -> usize
    requires stop { IsStopBefore (T.text text.now) start p stop }
    requires short { length (T.text text.now) < 2 ^ 32 }
    ensures value { result ≡ length (cells (slice_range (T.text text.now) start p)) }
    ensures few { result ≤ 12 * p }
{
    column_from(text, stop.place, stop.column, p)
}

/// The first tab stop from a place on, before another one; where there is none, the one that is known.
fn stop_from<T: Text>(text: &T, start: usize, stop: TabStop, from: usize, p: usize) -> TabStop
    requires stop { IsStopBefore (T.text text.now) start from stop }
    requires before { from ≤ p }
    requires within { p ≤ length (T.text text.now) }
    requires short { length (T.text text.now) < 2 ^ 32 }
    ensures { IsStopBefore (T.text text.now) start p result }
{
    let mut at = cells_to(text, start, stop, from);
    for i in from..p {
        if at % 8 == 0 {
            return TabStop {
                place: i,
                column: at,
            };
        }
        at += width(at, text.at(i));
    }
    stop
}

/// A tab stop from which few characters are left to a position, and more than a row of `cols` columns shows before it.
pub(crate) fn near_stop<T: Text>(
    text: &T,
    start: usize,
    stop: TabStop,
    p: usize,
    cols: usize,
) -> TabStop
    requires stop { IsStopBefore (T.text text.now) start p stop }
    requires short { length (T.text text.now) < 2 ^ 32 }
    requires narrow { cols < 2 ^ 32 }
    ensures { IsStopBefore (T.text text.now) start p result }
{
    let back = cols + 8;
    if p - stop.place <= 2 * back {
        return stop;
    }
    stop_from(text, start, stop, p - back, p)
}
