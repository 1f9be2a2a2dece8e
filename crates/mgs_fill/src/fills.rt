// Paragraphs that are filled.
ghost use Rattle.std.specs.Prelude.{◌≡◌, ℕ, ◌+◌, ◌<◌, ◌≤◌, ◌^◌, ◌++◌, ◌∷◌, length, min, nat_le, slice_range, Ok, IfOk, OnOk};
ghost use Rattle.mgs_model.specs.Cells.{cells};
ghost use Rattle.mgs_model.specs.Plans.{alteration};
ghost use Rattle.mgs_model.specs.Walks.{over};
ghost use Rattle.mgs_model.specs.Whites.{is_between, refilled};
ghost use Rattle.mgs_model.specs.declared.session.Alteration.TheVariants.{FillParagraph};
ghost use Rattle.mgs_fill.specs.Rewriting.{filled_by, is_in_word, IsRewrite, RewriteWithin};

use crate::rewrite::{Given, Point, Rewrite, Written};
use mgs_lines::{is_blank_at, paragraph_end, paragraph_start, width};
use mgs_model::Short;
use mgs_text::Text;
use std::alloc::Global;

fn is_between(c: char) -> bool
    ensures { result ≡ is_between c }
{
    c == ' ' || c == '\t' || c == '\n'
}

/// Over what parts words, from a place on.
fn over_between(chars: &[char], at: usize) -> usize
    requires { at ≤ length chars.now }
    ensures value { result ≡ over is_between chars.now at }
    ensures from { at ≤ result }
    ensures within { result ≤ length chars.now }
{
    for i in at..chars.len() {
        if !is_between(chars[i]) {
            return i;
        }
    }
    chars.len()
}

/// Over a word, from a place on.
fn over_word(chars: &[char], at: usize) -> usize
    requires { at ≤ length chars.now }
    ensures value { result ≡ over is_in_word chars.now at }
    ensures from { at ≤ result }
    ensures within { result ≤ length chars.now }
{
    for i in at..chars.len() {
        if is_between(chars[i]) {
            return i;
        }
    }
    chars.len()
}

/// How many cells characters take that begin a line, or the fill column where they pass it.
fn cells_wide(chars: &[char], fill: usize) -> usize
    ensures { result ≡ min (length (cells chars.now)) fill }
{
    let mut wide = 0;
    for i in 0..chars.len() {
        let more = width(wide, chars[i]);
        if more > fill - wide {
            return fill;
        }
        wide += more;
    }
    wide
}

/// Whether a word and a space before it end in the fill column or before it.
fn fits(column: usize, wide: usize, fill: usize) -> bool
    ensures { result ≡ nat_le (column + 1 + wide) fill }
{
    wide < fill && column < fill - wide
}

/// A word comes behind a space or a line feed.
fn put_word(filled: &mut Vec<char>, parted: char, word: &[char]) -> Result<(), Short>
    ensures { OnOk result (filled.new.items ≡ filled.old.items ++ (parted ∷ word.now)) }
{
    if filled.push(parted).is_err() {
        return Err(Short);
    }
    match filled.extend_from_slice(word) {
        Ok(()) => Ok(()),
        Err(_) => Err(Short),
    }
}

/// Characters as their words are written when they are filled: one space between them, or a line feed where the next word
/// would pass the fill column. `Short`: memory was refused.
pub fn refill(alloc: Global, chars: &[char], fill: usize) -> Result<Vec<char>, Short>
    ensures { IfOk result (λ v. v.items ≡ refilled fill chars.now) }
{
    let first = over_between(chars, 0);
    let mut at = over_word(chars, first);
    let mut column = cells_wide(&chars[first..at], fill);
    let Ok(mut filled) = Vec::from_slice(alloc, &chars[first..at]) else {
        return Err(Short);
    };
    while at < chars.len() {
        let start = over_between(chars, at);
        if start == chars.len() {
            break;
        }
        let end = over_word(chars, start);
        let wide = cells_wide(&chars[start..end], fill);
        if fits(column, wide, fill) {
            put_word(&mut filled, ' ', &chars[start..end])?;
            column += 1 + wide;
        } else {
            put_word(&mut filled, '\n', &chars[start..end])?;
            column = wide;
        }
        at = end;
    }
    Ok(filled)
}

/// How many characters come in for one, behind a character of a word or behind another.
fn filled_by(in_word: bool, c: char) -> usize
    ensures value { result ≡ filled_by in_word c }
    ensures few { result ≤ 2 }
{
    if is_between(c) {
        0
    } else if in_word {
        1
    } else {
        2
    }
}

#[tactic(auto, using(crate::proofs::Counts::counted_next, crate::proofs::Counts::counted_all))]
/// How many characters `refill` makes of those between two positions, whichever the fill column: a space and a line feed
/// each take one.
fn filled_len<T: Text>(text: &T, from: usize, to: usize) -> usize
    requires order { from ≤ to }
    requires within { to ≤ length (T.text text.now) }
    requires fits { to < 2 ^ 61 }
    ensures { (fill : ℕ) → length (refilled fill (slice_range (T.text text.now) from to)) ≡ result }
{
    let mut len = 0;
    let mut in_word = false;
    for i in from..to {
        let c = text.at(i);
        len += filled_by(in_word, c);
        in_word = !is_between(c);
    }
    // Nothing stands before the first word.
    len.saturating_sub(1)
}

/// The paragraph around the place is filled, and the point goes behind it. In a blank line nothing is.
pub fn fill_paragraph<T: Text>(text: &T, given: &Given) -> Rewrite
    requires { given.now.place ≤ length (T.text text.now) }
    ensures plan { IsRewrite (alteration FillParagraph) given.now (T.text text.now) (Ok result) }
    ensures within { RewriteWithin (T.text text.now) result }
{
    let at = given.place;
    if is_blank_at(text, at) {
        return Rewrite {
            from: at,
            to: at,
            written: Written::Nothing,
            point: Point::Stays,
        };
    }
    let from = paragraph_start(text, at);
    let to = paragraph_end(text, at);
    Rewrite {
        from,
        to,
        written: Written::Filled {
            fill: given.fill,
            len: filled_len(text, from, to),
        },
        point: Point::Behind,
    }
}
