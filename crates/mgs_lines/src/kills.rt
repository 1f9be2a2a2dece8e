// What a kill of lines takes.
ghost use Rattle.std.specs.Prelude.{◌≡◌, ◌+◌, ◌≤◌, length, drop};
ghost use Rattle.mgs_model.specs.Lines.{start_of};
ghost use Rattle.mgs_model.specs.Walks.{kill_line_end};

use crate::{line_end, line_start};
use mgs_text::Text;

// Over so many line feeds from a position on, or to the text's end.
fn past_feeds<T: Text>(text: &T, p: usize, feeds: usize) -> usize
    requires { p ≤ length (T.text text.now) }
    ensures value { result ≡ p + start_of feeds (drop p (T.text text.now)) }
    ensures within { result ≤ length (T.text text.now) }
{
    if feeds == 0 {
        return p;
    }
    // No text has more lines than that.
    let lines = feeds.min(text.len() + 1);
    text.start_of(text.line_of(p) + lines)
}

/// The other end of what a kill of lines takes from a position on. Without an argument that is the line's end, or the place
/// behind the line feed where one stands at the position; at the text's end it is the position. With 0 it is the line's
/// start. With more it is the place behind so many line feeds, or the text's end where there are fewer.
pub fn kill_line_end<T: Text>(text: &T, p: usize, argument: Option<usize>) -> usize
    requires { p ≤ length (T.text text.now) }
    ensures value { result ≡ kill_line_end (T.text text.now) p argument }
    ensures within { result ≤ length (T.text text.now) }
{
    match argument {
        None => {
            let end = line_end(text, p);
            if end == p && p < text.len() {
                p + 1
            } else {
                end
            }
        }
        Some(0) => line_start(text, p),
        Some(feeds) => past_feeds(text, p, feeds),
    }
}
