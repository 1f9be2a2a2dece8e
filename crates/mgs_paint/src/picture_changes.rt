// The bytes of what changes from a shown picture to a new one.
ghost use Rattle.std.specs.Prelude.{◌≡◌, ℕ, ◌+◌, ◌-◌, ◌*◌, ◌<◌, ◌≤◌, List, ◌++◌, length, take, drop, replicate, max, vec_len, vec_capacity, true, false, All};
ghost use Rattle.mgs_model.specs.Cells.{AreCells, starts_half};
ghost use Rattle.mgs_model.specs.Picture.{IsRow};
ghost use Rattle.mgs_model.specs.declared.limits.TheConstants.{COLS_MAX, ROWS_MAX};
ghost use Rattle.mgs_grid.specs.RowSets.{AreSameApart};
ghost use Rattle.mgs_paint.specs.Painting.{bound_of};
ghost use Rattle.mgs_paint.specs.Repainting.{Repaints};
ghost use Rattle.mgs_paint.specs.Operations.{bytes_of};
ghost use Rattle.mgs_paint.specs.Changes.{change_start, change_end, whole_end, ink_end, start_column, end_column, moved, way, plain_piece, piece, row_changes, rows_changes, changes};

use crate::put::{put_erase, put_goto, put_plain_on, put_reverse, put_text};
use mgs_grid::{Grid, Line, RowSet};
use mgs_model::RIGHT_HALF;

// How many cells are compared at a time where texts are the same.
const STRIDE: usize = 8;

// Whether two texts of one length are the same. Where that is short and known this costs no call.
#[tactic(auto, using(crate::proofs::Strides::whole_prefix))]
fn is_same(old: &[char], new: &[char]) -> bool
    requires { length old.now ≡ length new.now }
    ensures { result ≡ true → old.now ≡ new.now }
{
    old.starts_with(new)
}

// A place not past the first at which two texts differ: what stands before it was compared by strides.
fn skip_same(old: &[char], new: &[char]) -> usize
    requires { length old.now ≡ length new.now }
    ensures within { result ≤ length new.now }
    ensures same { take result old.now ≡ take result new.now }
{
    let mut i = 0;
    while STRIDE <= new.len() - i && is_same(&old[i..i + STRIDE], &new[i..i + STRIDE]) {
        i += STRIDE;
    }
    i
}

// The first place at which two texts differ, or their length.
fn change_start(old: &[char], new: &[char]) -> usize
    requires { length old.now ≡ length new.now }
    ensures { result ≡ change_start old.now new.now }
{
    let mut i = skip_same(old, new);
    while i < new.len() && old[i] == new[i] {
        i += 1;
    }
    i
}

// A place not before the last at which two texts differ: what stands from it on was compared by strides.
fn skip_same_back(old: &[char], new: &[char]) -> usize
    requires { length old.now ≡ length new.now }
    ensures within { result ≤ length new.now }
    ensures same { drop result old.now ≡ drop result new.now }
{
    let mut end = new.len();
    while STRIDE <= end && is_same(&old[end - STRIDE..end], &new[end - STRIDE..end]) {
        end -= STRIDE;
    }
    end
}

// The place after the last at which they differ, or 0.
fn change_end(old: &[char], new: &[char]) -> usize
    requires { length old.now ≡ length new.now }
    ensures value { result ≡ change_end old.now new.now }
    ensures within { result ≤ length new.now }
{
    let mut end = skip_same_back(old, new);
    while end > 0 && old[end - 1] == new[end - 1] {
        end -= 1;
    }
    end
}

// The end of a change, behind the right half that stands there.
#[tactic(auto, using(crate::proofs::WholeCells::half_here, crate::proofs::WholeCells::half_none))]
fn whole_end(text: &[char], end: usize) -> usize
    requires { end ≤ length text.now }
    ensures value { result ≡ whole_end text.now end }
    ensures within { result ≤ length text.now }
{
    if end == 0 || end == text.len() {
        return end;
    }
    if text[end] == RIGHT_HALF {
        end + 1
    } else {
        end
    }
}

// A place not before the last character that is no blank: the blanks from it on were compared by strides.
fn skip_blanks_back(text: &[char]) -> usize
    ensures within { result ≤ length text.now }
    ensures blank { drop result text.now ≡ drop result (replicate (length text.now) 32) }
{
    let mut end = text.len();
    while STRIDE <= end && is_same(&text[end - STRIDE..end], &[' '; STRIDE]) {
        end -= STRIDE;
    }
    end
}

// The place after the last character that is no blank, or 0.
fn ink_end(text: &[char]) -> usize
    ensures value { result ≡ ink_end text.now }
    ensures within { result ≤ length text.now }
{
    let mut end = skip_blanks_back(text);
    while end > 0 && text[end - 1] == ' ' {
        end -= 1;
    }
    end
}

// The place from which an erase would go, at or behind `start`. Where the change up to `end` has no blanks to erase at its
// end, that is some place near `end`: most changes end in ink, and the blanks behind are then not looked at.
fn erase_start(text: &[char], start: usize, end: usize) -> usize
    requires order { start < end }
    requires within { end ≤ length text.now }
    ensures from { start ≤ result }
    ensures to { result ≤ length text.now }
    ensures erased { result + 3 < end → result ≡ max (ink_end text.now) start }
    ensures written { end ≤ result + 3 → end ≤ max (ink_end text.now) start + 3 }
{
    if text[end - 1] != ' ' {
        return end;
    }
    ink_end(text).max(start)
}

// The first column of a row that changes: all of them do where its reverse does.
fn start_column(old: &Line, new: &Line) -> usize
    requires { length old.now.text ≡ length new.now.text }
    ensures { result ≡ start_column old.now new.now }
{
    if old.is_reversed() == new.is_reversed() {
        change_start(old.text(), new.text())
    } else {
        0
    }
}

// The column after the last that changes: 0 where the row stays the same. A row that cannot differ is not looked at.
#[tactic(auto, using(crate::proofs::Columns::no_columns))]
fn end_column(old: &Line, new: &Line, may_differ: bool) -> usize
    requires width { length old.now.text ≡ length new.now.text }
    requires same { may_differ ≡ false → old.now ≡ new.now }
    ensures value { result ≡ end_column old.now new.now }
    ensures within { result ≤ length new.now.text }
{
    if !may_differ {
        return 0;
    }
    if old.is_reversed() == new.is_reversed() {
        whole_end(new.text(), change_end(old.text(), new.text()))
    } else {
        new.text().len()
    }
}

// Moves the cursor, unless it is there.
fn put_way(out: &mut Vec<u8>, from: (usize, usize), to: (usize, usize))
    requires row { to.0 < 99 }
    requires col { to.1 < 999 }
    requires room { vec_len out.old + 9 ≤ vec_capacity out.old }
    ensures items { out.new.items ≡ out.old.items ++ bytes_of (way from to) }
    ensures capacity { vec_capacity out.new ≡ vec_capacity out.old }
    ensures len { vec_len out.new ≤ vec_len out.old + 9 }
{
    if from.0 != to.0 || from.1 != to.1 {
        put_goto(out, to.0, to.1);
    }
}

// What changes in a plain row, from the cursor's column on, and where that leaves the cursor. An erase stands for the
// blanks at the row's end where it is shorter.
fn put_plain(
    out: &mut Vec<u8>,
    row: usize,
    text: &[char],
    start: usize,
    end: usize,
) -> (usize, usize)
    requires order { start < end }
    requires within { end ≤ length text.now }
    requires width { length text.now ≤ COLS_MAX }
    requires whole { AreCells false text.now }
    requires first { starts_half (drop start text.now) ≡ false }
    requires last { starts_half (drop end text.now) ≡ false }
    requires room { vec_len out.old + 4 * (end - start) ≤ vec_capacity out.old }
    ensures items { out.new.items ≡ out.old.items ++ bytes_of (plain_piece text.now start end) }
    ensures capacity { vec_capacity out.new ≡ vec_capacity out.old }
    ensures len { vec_len out.new ≤ vec_len out.old + 4 * (end - start) }
    ensures cursor { result ≡ moved (length text.now) (row, start) (plain_piece text.now start end) }
{
    let ink = erase_start(text, start, end);
    if ink + 3 < end {
        put_text(out, &text[start..ink]);
        put_erase(out);
        (row, ink)
    } else {
        put_text(out, &text[start..end]);
        (row, end.min(text.len() - 1))
    }
}

// What changes in a row, from the cursor's column on, and where that leaves the cursor.
fn put_piece(out: &mut Vec<u8>, row: usize, new: &Line, start: usize, end: usize) -> (usize, usize)
    requires order { start < end }
    requires within { end ≤ length new.now.text }
    requires width { length new.now.text ≤ COLS_MAX }
    requires whole { AreCells false new.now.text }
    requires first { starts_half (drop start new.now.text) ≡ false }
    requires last { starts_half (drop end new.now.text) ≡ false }
    requires room { vec_len out.old + (7 + 4 * (end - start)) ≤ vec_capacity out.old }
    ensures items { out.new.items ≡ out.old.items ++ bytes_of (piece new.now start end) }
    ensures capacity { vec_capacity out.new ≡ vec_capacity out.old }
    ensures len { vec_len out.new ≤ vec_len out.old + (7 + 4 * (end - start)) }
    ensures cursor { result ≡ moved (length new.now.text) (row, start) (piece new.now start end) }
{
    let text = new.text();
    if new.is_reversed() {
        put_reverse(out, true);
        put_text(out, &text[start..end]);
        put_plain_on(out);
        (row, end.min(text.len() - 1))
    } else {
        put_plain(out, row, text, start, end)
    }
}

// One row, which may differ or stays the same, and where its bytes leave the cursor.
#[tactic(auto, using(crate::proofs::Columns::start_first, crate::proofs::Columns::start_apart_new, crate::proofs::Columns::end_apart))]
fn put_row_changes(
    out: &mut Vec<u8>,
    at: (usize, usize),
    row: usize,
    old: &Line,
    new: &Line,
    may_differ: bool,
) -> (usize, usize)
    requires row { row < ROWS_MAX }
    requires lengths { length old.now.text ≡ length new.now.text }
    requires same { may_differ ≡ false → old.now ≡ new.now }
    requires width { length new.now.text ≤ COLS_MAX }
    requires whole_old { AreCells false old.now.text }
    requires whole_new { AreCells false new.now.text }
    requires room { vec_len out.old + (16 + 4 * length new.now.text) ≤ vec_capacity out.old }
    ensures items { out.new.items ≡ out.old.items ++ bytes_of (row_changes at row old.now new.now) }
    ensures capacity { vec_capacity out.new ≡ vec_capacity out.old }
    ensures len { vec_len out.new ≤ vec_len out.old + (16 + 4 * length new.now.text) }
    ensures cursor { result ≡ moved (length new.now.text) at (row_changes at row old.now new.now) }
{
    let end = end_column(old, new, may_differ);
    if end == 0 {
        return at;
    }
    let start = start_column(old, new);
    put_way(out, at, (row, start));
    put_piece(out, row, new, start, end)
}

// Each row, and where their bytes leave the cursor. Those that are not of the set stay the same.
#[tactic(auto, using(crate::proofs::Changing::none_items, crate::proofs::Changing::none_moved))]
fn put_rows_changes(
    out: &mut Vec<u8>,
    at: (usize, usize),
    cols: usize,
    old: &[Line],
    new: &[Line],
    rows: &RowSet,
) -> (usize, usize)
    requires count { length old.now ≡ length new.now }
    requires rows { length new.now ≤ ROWS_MAX }
    requires cols { cols ≤ COLS_MAX }
    requires each_old { All (IsRow cols) old.now }
    requires each_new { All (IsRow cols) new.now }
    requires same { AreSameApart rows.now old.now new.now }
    requires room { vec_len out.old + length new.now * (16 + 4 * cols) ≤ vec_capacity out.old }
    ensures items { out.new.items ≡ out.old.items ++ bytes_of (rows_changes cols at 0 old.now new.now) }
    ensures capacity { vec_capacity out.new ≡ vec_capacity out.old }
    ensures len { vec_len out.new ≤ vec_len out.old + length new.now * (16 + 4 * cols) }
    ensures cursor { result ≡ moved cols at (rows_changes cols at 0 old.now new.now) }
{
    if rows.is_none() {
        return at;
    }
    let mut cursor = at;
    for (i, line) in new.iter().enumerate() {
        cursor = put_row_changes(out, cursor, i, &old[i], line, rows.has(i));
    }
    cursor
}

// Each row that changes, and the cursor. The rows that are not of the set stay the same. Of a row that changes, the columns
// from the first that differs to the last are written, or blanks at its end erased where that is shorter.
fn put_changes(out: &mut Vec<u8>, old: &Grid, new: &Grid, rows: &RowSet)
    requires rows { new.now.rows ≡ old.now.rows }
    requires cols { new.now.cols ≡ old.now.cols }
    requires same { AreSameApart rows.now old.now.lines new.now.lines }
    requires room { vec_len out.old + bound_of new.now.rows new.now.cols ≤ vec_capacity out.old }
    ensures items { out.new.items ≡ out.old.items ++ bytes_of (changes old.now new.now) }
    ensures capacity { vec_capacity out.new ≡ vec_capacity out.old }
    ensures len { vec_len out.new ≤ vec_len out.old + bound_of new.now.rows new.now.cols }
{
    let cursor = put_rows_changes(
        out,
        old.cursor(),
        new.cols(),
        old.lines(),
        new.lines(),
        rows,
    );
    put_way(out, cursor, new.cursor());
}

/// Appends bytes that repaint a terminal which shows `old`, with reverse and wrap off: it then shows `new`, with both off.
/// A row that stays the same is left alone, and where nothing changes there are no bytes. Which bytes they are is left
/// open.
///
/// The grids have the same size, `out` has room for `bound` bytes more, and no memory is taken.
pub fn paint(old: &Grid, new: &Grid, out: &mut Vec<u8>)
    requires rows { new.now.rows ≡ old.now.rows }
    requires cols { new.now.cols ≡ old.now.cols }
    requires room { vec_len out.old + bound_of new.now.rows new.now.cols ≤ vec_capacity out.old }
    ensures repaints { (bytes : List ℕ) × (out.new.items ≡ out.old.items ++ bytes) × Repaints old.now new.now bytes }
    ensures capacity { vec_capacity out.new ≡ vec_capacity out.old }
{
    prove!(old.rows() == new.rows());
    paint_rows(old, new, &RowSet::all(), out);
}

/// The same where it is known that the grids are the same but for their cursors and the rows of a set: only these rows are
/// compared.
///
/// The grids have the same size, `out` has room for `bound` bytes more, and no memory is taken.
pub fn paint_rows(old: &Grid, new: &Grid, rows: &RowSet, out: &mut Vec<u8>)
    requires rows { new.now.rows ≡ old.now.rows }
    requires cols { new.now.cols ≡ old.now.cols }
    requires same { AreSameApart rows.now old.now.lines new.now.lines }
    requires room { vec_len out.old + bound_of new.now.rows new.now.cols ≤ vec_capacity out.old }
    ensures repaints { (bytes : List ℕ) × (out.new.items ≡ out.old.items ++ bytes) × Repaints old.now new.now bytes }
    ensures capacity { vec_capacity out.new ≡ vec_capacity out.old }
{
    prove!(old.rows() == new.rows());
    put_changes(out, old, new, rows);
}
