// The lines that a paragraph is filled in: those around a position that are not blank.
ghost use Rattle.std.specs.Prelude.{◌≡◌, ◌<◌, ◌≤◌, ◌^◌, length};
ghost use Rattle.mgs_model.specs.Lines.{line_end};
ghost use Rattle.mgs_model.specs.Whites.{paragraph_end, paragraph_start};

use crate::paragraphs::is_blank_line;
use crate::{line_end, line_start};
use mgs_text::Text;

/// Where the lines that are not blank begin that stand directly above the line of a position; where that line begins if
/// none does.
pub fn paragraph_start<T: Text>(text: &T, p: usize) -> usize
    requires { p ≤ length (T.text text.now) }
    ensures value { result ≡ paragraph_start (T.text text.now) p }
    ensures within { result ≤ p }
{
    let mut at = line_start(text, p);
    while at > 0 {
        let above = line_start(text, at - 1);
        if is_blank_line(text, above) {
            break;
        }
        at = above;
    }
    at
}

/// Where the last of the lines ends that are not blank and directly follow the line of a position; where that line ends if
/// none does.
pub fn paragraph_end<T: Text>(text: &T, p: usize) -> usize
    requires { p ≤ length (T.text text.now) }
    ensures value { result ≡ paragraph_end (T.text text.now) p }
    ensures from { p ≤ result }
    ensures after { line_end (T.text text.now) p ≤ result }
    ensures within { result ≤ length (T.text text.now) }
    ensures fits { result < 2 ^ 61 }
{
    let mut end = line_end(text, p);
    while end < text.len() {
        if is_blank_line(text, end + 1) {
            break;
        }
        end = line_end(text, end + 1);
    }
    end
}
