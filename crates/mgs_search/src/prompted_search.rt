// A search for what was typed at a prompt.
ghost use Rattle.std.specs.Prelude.{◌≡◌, ◌+◌, ◌<◌, ◌≤◌, ◌^◌, length, IfSome, IfOk};
ghost use Rattle.mgs_model.specs.Searching.{match_once};
ghost use Rattle.mgs_search.specs.Planned.{IsSearchPlan};

use crate::incremental::match_point;
use crate::{find_forward, find_past};
use mgs_model::{Direction, Message, Notice};
use mgs_text::Text;

// Forward the position itself counts, and backward it does not.
fn find_once<T: Text>(text: &T, direction: Direction, p: usize, pattern: &[char]) -> Option<usize>
    requires { p ≤ length (T.text text.now) }
    ensures value { result ≡ match_once direction pattern.now (T.text text.now) p }
    ensures within { IfSome result (λ m. m + length pattern.now ≤ length (T.text text.now)) }
    ensures fits { IfSome result (λ m. m + length pattern.now < 2 ^ 64) }
{
    match direction {
        Direction::Forward => find_forward(text, p, pattern),
        Direction::Backward => find_past(text, Direction::Backward, p, pattern),
    }
}

/// Plans a search from `p` on: the point goes behind the next match forward, where `p` counts, or to the start of the one
/// before `p`. `NoPattern` where there is nothing to look for, `NotFound` where it does not stand there.
pub fn search_for<T: Text>(
    text: &T,
    p: usize,
    direction: Direction,
    pattern: &[char],
) -> Result<usize, Message>
    requires { p ≤ length (T.text text.now) }
    ensures plan { IsSearchPlan direction pattern.now (T.text text.now) p result }
    ensures within { IfOk result (λ q. q ≤ length (T.text text.now)) }
{
    if pattern.is_empty() {
        return Err(Message::Says(Notice::NoPattern));
    }
    match find_once(text, direction, p, pattern) {
        Some(m) => Ok(match_point(direction, m, pattern)),
        None => Err(Message::Says(Notice::NotFound)),
    }
}
