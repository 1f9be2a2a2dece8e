//! Lines and columns of a text.
//!
//! Positions, lines and columns count from 0. A line ends before its line feed or where the text ends.
#![tactic(auto)]

ghost use Rattle.std.specs.Prelude.{◌≡◌, ◌+◌, ◌-◌, ◌*◌, ◌<◌, ◌≤◌, ◌^◌, length};
ghost use Rattle.std.specs.Int.Digits.{digits_of};
ghost use Rattle.mgs_model.specs.Cells.{glyph};
ghost use Rattle.mgs_model.specs.Lines.{line_of, line_start, line_end, column, settled_top};

mod columns;
mod fill_lines;
mod kills;
mod paragraphs;
mod vertical;
mod white_space;
mod words;

pub use columns::column_from;
pub use fill_lines::{paragraph_end, paragraph_start};
pub use kills::kill_line_end;
use mgs_model::own_columns;
use mgs_text::Text;
pub use paragraphs::{backward_paragraph, forward_paragraph};
pub use vertical::{column_place, indent_end, is_first_line, is_last_line, lines_down, lines_up};
pub use white_space::{blanks_end, blanks_start, is_blank_at, white_end, white_start};
pub use words::{backward_word, forward_word};

/// Where the line of a position starts: after the line feed before it, or at the text's start.
///
/// It asks the text, and walks over nothing itself.
#[tactic(auto, using(crate::proofs::Feeds::start_of_line))]
pub fn line_start<T: Text>(text: &T, p: usize) -> usize
    requires { p ≤ length (T.text text.now) }
    ensures value { result ≡ line_start (T.text text.now) p }
    ensures within { result ≤ p }
{
    text.start_of(text.line_of(p))
}

/// Where the line of a position ends: at the line feed from there on, or at the text's end.
///
/// It asks the text where the next line starts, and walks over nothing itself.
pub fn line_end<T: Text>(text: &T, p: usize) -> usize
    requires { p ≤ length (T.text text.now) }
    ensures value { result ≡ line_end (T.text text.now) p }
    ensures from { p ≤ result }
    ensures within { result ≤ length (T.text text.now) }
{
    end_of(text, p, text.line_of(p))
}

// Where the line of a position ends, of which the number is known.
pub(crate) fn end_of<T: Text>(text: &T, p: usize, line: usize) -> usize
    requires within { p ≤ length (T.text text.now) }
    requires number { line ≡ line_of (T.text text.now) p }
    ensures value { result ≡ line_end (T.text text.now) p }
    ensures from { p ≤ result }
    ensures within { result ≤ length (T.text text.now) }
{
    if p == text.len() {
        return p;
    }
    let next = text.start_of(line + 1);
    if text.at(next - 1) == '\n' {
        next - 1
    } else {
        next
    }
}

// Where the line above one starts, of which the number is known.
pub(crate) fn start_above<T: Text>(text: &T, start: usize, line: usize) -> usize
    requires some { 0 < start }
    requires within { start ≤ length (T.text text.now) }
    requires start { line_start (T.text text.now) start ≡ start }
    requires number { line ≡ line_of (T.text text.now) start }
    ensures value { result ≡ line_start (T.text text.now) (start - 1) }
    ensures within { result ≤ start - 1 }
    ensures some { 0 < line }
{
    text.start_of(line - 1)
}

fn hex_len(n: u32) -> usize
    ensures value { result ≡ length (digits_of 16 n) }
    ensures few { result ≤ 8 }
{
    if n == 0 { 0 } else { hex_len(n / 16) + 1 }
}

/// How many cells a character takes in a column, 1 to 12: a tab goes to the next multiple of eight,
/// other control characters take two (`^A`), visible ASCII one, characters past it their own one or two columns, and all
/// else is written `\u{hex}`.
pub fn width(column: usize, c: char) -> usize
    ensures value { result ≡ length (glyph column c) }
    ensures some { 0 < result }
    ensures few { result ≤ 12 }
{
    if c == '\t' {
        8 - column % 8
    } else if c < ' ' {
        2
    } else if c < '\x7f' {
        1
    } else if c == '\x7f' {
        2
    } else {
        let columns = own_columns(c);
        if columns == 0 {
            4 + hex_len(c as u32)
        } else {
            columns
        }
    }
}

/// The number of cells before a position in its line.
pub fn column<T: Text>(text: &T, p: usize) -> usize
    requires within { p ≤ length (T.text text.now) }
    requires short { length (T.text text.now) < 2 ^ 32 }
    ensures value { result ≡ column (T.text text.now) p }
    ensures few { result ≤ 12 * p }
{
    column_from(text, line_start(text, p), 0, p)
}

#[tactic(auto, using(crate::proofs::Walks::back_within))]
/// The position whose line a window of `height` rows shows first, so that it shows the point's line:
/// `top` where it does already, and else the start of the line that lies half the height above the point's,
/// or of the first line.
pub fn settled_top<T: Text>(text: &T, height: usize, top: usize, point: usize) -> usize
    requires top { top ≤ length (T.text text.now) }
    requires point { point ≤ length (T.text text.now) }
    requires some { 0 < height }
    ensures value { result ≡ settled_top height top point (T.text text.now) }
    ensures within { result ≤ length (T.text text.now) }
    ensures settled { settled_top height result point (T.text text.now) ≡ result }
    ensures above { line_of (T.text text.now) result ≤ line_of (T.text text.now) point }
    ensures below { line_of (T.text text.now) point < line_of (T.text text.now) result + height }
{
    let first = text.line_of(top);
    let line = text.line_of(point);
    if first <= line && line - first < height {
        top
    } else {
        text.start_of(line.saturating_sub(height / 2))
    }
}
