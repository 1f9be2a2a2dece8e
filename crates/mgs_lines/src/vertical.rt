// Lines up and down, and the place of a column in a line.
ghost use Rattle.std.specs.Prelude.{◌≡◌, ◌<◌, ◌≤◌, ◌^◌, length};
ghost use Rattle.mgs_model.specs.Lines.{line_start};
ghost use Rattle.mgs_model.specs.Walks.{is_first_line, is_last_line, lines_down, lines_up, column_place, indent_end};

use crate::columns::plain_from;
use crate::{line_end, line_start, width};
use mgs_text::Text;

/// Whether the line of a position is the text's first.
pub fn is_first_line<T: Text>(text: &T, p: usize) -> bool
    requires { p ≤ length (T.text text.now) }
    ensures { result ≡ is_first_line (T.text text.now) p }
{
    line_start(text, p) == 0
}

/// Whether the line of a position is the text's last.
pub fn is_last_line<T: Text>(text: &T, p: usize) -> bool
    requires { p ≤ length (T.text text.now) }
    ensures { result ≡ is_last_line (T.text text.now) p }
{
    line_end(text, p) == text.len()
}

/// The start of the line that stands so many lines below that of a position, or of the last line where there are fewer.
pub fn lines_down<T: Text>(text: &T, p: usize, lines: usize) -> usize
    requires { p ≤ length (T.text text.now) }
    ensures value { result ≡ lines_down (T.text text.now) p lines }
    ensures within { result ≤ length (T.text text.now) }
{
    let last = text.line_of(text.len());
    text.start_of(text.line_of(p).saturating_add(lines).min(last))
}

/// The start of the line that stands so many lines above that of a position, or of the first line where there are fewer.
pub fn lines_up<T: Text>(text: &T, p: usize, lines: usize) -> usize
    requires { p ≤ length (T.text text.now) }
    ensures value { result ≡ lines_up (T.text text.now) p lines }
    ensures within { result ≤ p }
{
    text.start_of(text.line_of(p).saturating_sub(lines))
}

/// The last place whose column is at most `goal`, of the line that starts at `start`.
pub fn column_place<T: Text>(text: &T, start: usize, goal: usize) -> usize
    requires within { start ≤ length (T.text text.now) }
    requires short { length (T.text text.now) < 2 ^ 32 }
    ensures value { result ≡ column_place (T.text text.now) start goal }
    ensures from { start ≤ result }
    ensures within { result ≤ length (T.text text.now) }
{
    let mut column = 0;
    let mut i = start;
    while i < text.len() {
        let plain = plain_from(text, i, goal - column);
        if 0 < plain {
            column += plain;
            i += plain;
            continue;
        }
        let c = text.at(i);
        if c == '\n' {
            return i;
        }
        column += width(column, c);
        if column > goal {
            return i;
        }
        i += 1;
    }
    text.len()
}

/// Where the white that begins the line of a position ends, but not past the position: spaces and tabs are white.
pub fn indent_end<T: Text>(text: &T, p: usize) -> usize
    requires { p ≤ length (T.text text.now) }
    ensures value { result ≡ indent_end (T.text text.now) p }
    ensures from { line_start (T.text text.now) p ≤ result }
    ensures within { result ≤ p }
{
    for i in line_start(text, p)..p {
        let c = text.at(i);
        if c != ' ' && c != '\t' {
            return i;
        }
    }
    p
}
