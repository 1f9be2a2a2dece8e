// Query-replace: where its matches are.
ghost use Rattle.std.specs.Prelude.{◌≡◌, ℕ, ◌+◌, ◌-◌, ◌≤◌, ◌<◌, ◌^◌, List, length, IfSome, IfOk, OnOk};
ghost use Rattle.std.specs.Option.{option_map};
ghost use Rattle.mgs_model.specs.declared.session.Replacement.TheVariants.{ReplaceMatch, ReplaceLast};
ghost use Rattle.mgs_search.specs.Planned.{IsBegun, IsReplacement, IsSkipped};

use crate::{find_forward, matches_at};
use mgs_model::{Message, Notice};
use mgs_text::Text;

/// The plan of a replacement at an anchor.
#[derive(Clone, Copy, PartialEq, Eq)]
pub struct MatchPlan {
    /// Whether the text still stands at the anchor, and is replaced.
    pub replaces: bool,
    /// Where the next match begins when that is done.
    pub next: Option<usize>,
}

/// Plans the begin of a query-replace of `old` from `p` on: the first match, where there is one. `NoPattern` where there is
/// nothing to replace.
pub fn begin_replacing<T: Text>(text: &T, p: usize, old: &[char]) -> Result<Option<usize>, Message>
    requires { p ≤ length (T.text text.now) }
    ensures plan { IsBegun old.now (T.text text.now) p result }
    ensures within { IfOk result (λ o. IfSome o (λ m. m + length old.now ≤ length (T.text text.now))) }
    ensures some { OnOk result (0 < length old.now) }
{
    if old.is_empty() {
        return Err(Message::Says(Notice::NoPattern));
    }
    Ok(find_forward(text, p, old))
}

/// Plans that the match at an anchor stays as it is: the next match behind it, or from the anchor on where the text no
/// longer stands there.
pub fn skip_match<T: Text>(text: &T, anchor: usize, old: &[char]) -> Option<usize>
    requires { anchor ≤ length (T.text text.now) }
    ensures plan { IsSkipped old.now (T.text text.now) anchor result }
    ensures within { IfSome result (λ m. m + length old.now ≤ length (T.text text.now)) }
{
    if matches_at(text, anchor, old) {
        return find_forward(text, anchor + old.len(), old);
    }
    find_forward(text, anchor, old)
}

// The same match, counted in a text where another stretch ends at `to` in place of `from`.
fn moved(found: Option<usize>, from: usize, to: usize) -> Option<usize>
    requires found { IfSome found (λ m. m < 2 ^ 32) }
    requires to { to < 2 ^ 33 }
    ensures { result ≡ option_map (λ m. m - from + to) found }
{
    match found {
        Some(m) => Some(m.saturating_sub(from) + to),
        None => None,
    }
}

/// Plans a replacement of the match at an anchor by `put`, and where the next match begins when it is done: behind what is
/// put in. Where the text no longer stands there, nothing is replaced, and the next match is looked for from the anchor on.
#[tactic(auto, using(crate::proofs::Edited::kept_so))]
pub fn replace_match<T: Text>(text: &T, anchor: usize, old: &[char], put: &[char]) -> MatchPlan
    requires anchor { anchor ≤ length (T.text text.now) }
    requires short { length (T.text text.now) < 2 ^ 32 }
    requires put { length put.now < 2 ^ 32 }
    ensures { IsReplacement ReplaceMatch old.now put.now (T.text text.now) anchor result }
{
    if !matches_at(text, anchor, old) {
        return MatchPlan {
            replaces: false,
            next: find_forward(text, anchor, old),
        };
    }
    let from = anchor + old.len();
    let next = moved(find_forward(text, from, old), from, anchor + put.len());
    MatchPlan {
        replaces: true,
        next,
    }
}

/// Plans the last replacement, at an anchor: no next match is looked for.
pub fn replace_last<T: Text>(text: &T, anchor: usize, old: &[char]) -> MatchPlan
    requires { anchor ≤ length (T.text text.now) }
    ensures { (put : List ℕ) → IsReplacement ReplaceLast old.now put (T.text text.now) anchor result }
{
    MatchPlan {
        replaces: matches_at(text, anchor, old),
        next: None,
    }
}
