//! Searches in a text: a pattern matches whatever the case of its ASCII letters.
#![tactic(auto)]

ghost use Rattle.std.specs.Prelude.{◌≡◌, ◌+◌, ◌<◌, ◌≤◌, ◌^◌, length, IfSome, true};
ghost use Rattle.std.specs.Char.{eq_ignore_ascii_case};
ghost use Rattle.mgs_model.specs.Searching.{matches_at, first_match, last_match, match_from, match_past};

mod heads;
mod incremental;
mod prompted_search;
mod query_matches;

use heads::{borders_of, head_of, last_tailed, next_headed, tail_of};
pub use incremental::IncrementalSearch;
use mgs_model::Direction;
use mgs_text::Text;
pub use prompted_search::search_for;
pub use query_matches::{MatchPlan, begin_replacing, replace_last, replace_match, skip_match};

// The case of ASCII letters is ignored.
fn is_same(a: char, b: char) -> bool
    ensures { result ≡ eq_ignore_ascii_case a b }
{
    a.eq_ignore_ascii_case(&b)
}

/// Whether a pattern stands at a position of a text. The case of ASCII letters is ignored.
pub fn matches_at<T: Text>(text: &T, p: usize, pattern: &[char]) -> bool
    requires { p ≤ length (T.text text.now) }
    ensures value { result ≡ matches_at pattern.now (T.text text.now) p }
    ensures within { result ≡ true → p + length pattern.now ≤ length (T.text text.now) }
    ensures fits { result ≡ true → p + length pattern.now < 2 ^ 64 }
{
    if text.len() - p < pattern.len() {
        return false;
    }
    for (i, c) in pattern.iter().enumerate() {
        if !is_same(*c, text.at(p + i)) {
            return false;
        }
    }
    true
}

/// The first position from `from` on where a pattern stands.
pub fn find_forward<T: Text>(text: &T, from: usize, pattern: &[char]) -> Option<usize>
    requires { from ≤ length (T.text text.now) }
    ensures value { result ≡ first_match pattern.now (T.text text.now) from }
    ensures within { IfSome result (λ p. p + length pattern.now ≤ length (T.text text.now)) }
    ensures fits { IfSome result (λ p. p + length pattern.now < 2 ^ 64) }
{
    if pattern.is_empty() {
        return Some(from);
    }
    let head = head_of(pattern);
    let borders = borders_of(head.as_slice());
    let mut p = next_headed(text, from, head.as_slice(), borders.as_slice());
    while p < text.len() {
        if matches_at(text, p, pattern) {
            return Some(p);
        }
        p = next_headed(text, p + 1, head.as_slice(), borders.as_slice());
    }
    None
}

/// The last position up to `from` where a pattern stands.
pub fn find_backward<T: Text>(text: &T, from: usize, pattern: &[char]) -> Option<usize>
    requires { from ≤ length (T.text text.now) }
    ensures value { result ≡ last_match pattern.now (T.text text.now) from }
    ensures within { IfSome result (λ p. p + length pattern.now ≤ length (T.text text.now)) }
    ensures fits { IfSome result (λ p. p + length pattern.now < 2 ^ 64) }
{
    if pattern.is_empty() {
        return Some(from);
    }
    let tail = tail_of(pattern);
    let borders = borders_of(tail.as_slice());
    let end = text.len().min(from + 1);
    let mut left = last_tailed(text, end, pattern, tail.as_slice(), borders.as_slice());
    while left > 0 {
        if matches_at(text, left - 1, pattern) {
            return Some(left - 1);
        }
        left = last_tailed(text, left - 1, pattern, tail.as_slice(), borders.as_slice());
    }
    None
}

/// The next position in a direction where a pattern stands. The position `p` itself counts.
pub fn find_from<T: Text>(
    text: &T,
    direction: Direction,
    p: usize,
    pattern: &[char],
) -> Option<usize>
    requires { p ≤ length (T.text text.now) }
    ensures value { result ≡ match_from direction pattern.now (T.text text.now) p }
    ensures within { IfSome result (λ m. m + length pattern.now ≤ length (T.text text.now)) }
    ensures fits { IfSome result (λ m. m + length pattern.now < 2 ^ 64) }
{
    match direction {
        Direction::Forward => find_forward(text, p, pattern),
        Direction::Backward => find_backward(text, p, pattern),
    }
}

/// The next position in a direction where a pattern stands. The position `p` itself does not count.
pub fn find_past<T: Text>(
    text: &T,
    direction: Direction,
    p: usize,
    pattern: &[char],
) -> Option<usize>
    requires { p ≤ length (T.text text.now) }
    ensures value { result ≡ match_past direction pattern.now (T.text text.now) p }
    ensures within { IfSome result (λ m. m + length pattern.now ≤ length (T.text text.now)) }
    ensures fits { IfSome result (λ m. m + length pattern.now < 2 ^ 64) }
{
    match direction {
        Direction::Forward if p < text.len() => find_forward(text, p + 1, pattern),
        Direction::Backward if p > 0 => find_backward(text, p - 1, pattern),
        Direction::Forward => None,
        Direction::Backward => None,
    }
}
