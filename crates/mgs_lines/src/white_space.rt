// White around a position, and runs of blank lines.
ghost use Rattle.std.specs.Prelude.{◌≡◌, ◌≤◌, length};
ghost use Rattle.mgs_model.specs.Lines.{line_end};
ghost use Rattle.mgs_model.specs.Walks.{is_white};
ghost use Rattle.mgs_model.specs.Whites.{blanks_end, blanks_start, is_blank_at, white_end, white_start};

use crate::paragraphs::is_blank_line;
use crate::{line_end, line_start};
use mgs_model::is_white;
use mgs_text::Text;

/// Where the white around a position begins: spaces and tabs.
pub fn white_start<T: Text>(text: &T, p: usize) -> usize
    requires { p ≤ length (T.text text.now) }
    ensures value { result ≡ white_start (T.text text.now) p }
    ensures within { result ≤ p }
{
    let mut at = p;
    while at > 0 {
        if !is_white(text.at(at - 1)) {
            break;
        }
        at -= 1;
    }
    at
}

/// Where the white around a position ends.
pub fn white_end<T: Text>(text: &T, p: usize) -> usize
    requires { p ≤ length (T.text text.now) }
    ensures value { result ≡ white_end (T.text text.now) p }
    ensures from { p ≤ result }
    ensures within { result ≤ length (T.text text.now) }
{
    for i in p..text.len() {
        if !is_white(text.at(i)) {
            return i;
        }
    }
    text.len()
}

/// Whether the line of a position has only white.
pub fn is_blank_at<T: Text>(text: &T, p: usize) -> bool
    requires { p ≤ length (T.text text.now) }
    ensures { result ≡ is_blank_at (T.text text.now) p }
{
    is_blank_line(text, line_start(text, p))
}

/// Where the blank lines begin that stand directly above the line of a position; where that line begins if none does.
pub fn blanks_start<T: Text>(text: &T, p: usize) -> usize
    requires { p ≤ length (T.text text.now) }
    ensures value { result ≡ blanks_start (T.text text.now) p }
    ensures within { result ≤ p }
{
    let mut at = line_start(text, p);
    while at > 0 {
        let above = line_start(text, at - 1);
        if !is_blank_line(text, above) {
            break;
        }
        at = above;
    }
    at
}

/// Where the last of the blank lines ends that directly follow the line of a position; where that line ends if none does.
pub fn blanks_end<T: Text>(text: &T, p: usize) -> usize
    requires { p ≤ length (T.text text.now) }
    ensures value { result ≡ blanks_end (T.text text.now) p }
    ensures from { p ≤ result }
    ensures after { line_end (T.text text.now) p ≤ result }
    ensures within { result ≤ length (T.text text.now) }
{
    let mut end = line_end(text, p);
    while end < text.len() {
        if !is_blank_line(text, end + 1) {
            break;
        }
        end = line_end(text, end + 1);
    }
    end
}
