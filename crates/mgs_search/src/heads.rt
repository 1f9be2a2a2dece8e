// Reading a text once for a pattern: no character of it is looked at again.
ghost use Rattle.std.specs.Prelude.{◌≡◌, ℕ, ◌+◌, ◌-◌, ◌<◌, ◌≤◌, ◌^◌, ◌++◌, ◌∷◌, [], List, min, length, get_or, true, false};
ghost use Rattle.mgs_model.specs.Searching.{first_match, last_match_before};
ghost use Rattle.mgs_search.specs.Borders.{char_at, IsBorders, IsFirst, IsHead, IsOther, IsRead, IsReadBack, IsReadOn, IsStep, IsTail, IsWalk};

use arrayvec::ArrayVec;
use mgs_text::Text;

// How many characters of a pattern are looked for at once: as many as one that was typed can have.
const HEAD: usize = 120;

/// The first characters of a pattern, at most 120, in small case.
pub(crate) fn head_of(pattern: &[char]) -> ArrayVec<char, 120>
    ensures head { IsHead pattern.now result.items }
    ensures count { length result.items ≡ min (length pattern.now) 120 }
{
    let mut head = ArrayVec::new();
    for t in 0..pattern.len().min(HEAD) {
        head.push(pattern[t].to_ascii_lowercase());
    }
    head
}

/// The last characters of a pattern, at most 120, in small case, the last one first.
pub(crate) fn tail_of(pattern: &[char]) -> ArrayVec<char, 120>
    ensures tail { IsTail pattern.now result.items }
    ensures count { length result.items ≡ min (length pattern.now) 120 }
{
    let mut tail = ArrayVec::new();
    for t in 0..pattern.len().min(HEAD) {
        tail.push(pattern[pattern.len() - 1 - t].to_ascii_lowercase());
    }
    tail
}

// Whether none of a head's characters stands.
fn none_stands(k: usize) -> bool
    ensures none { result ≡ true → k ≡ 0 }
    ensures some { result ≡ false → 1 ≤ k }
{
    k == 0
}

// How many of the k first characters of a head that stood are left when the next one differs.
fn left_of(borders: &[usize], k: usize) -> usize
    requires { k < length borders.now }
    ensures { (head : List ℕ) → IsBorders head borders.now → 1 ≤ k → IsRead head (char_at head) 1 k result }
{
    borders[k]
}

// How many of a head's first characters stand when c has come behind q of them.
fn step(head: &[char], borders: &[usize], q: usize, c: char) -> usize
    requires borders { IsBorders head.now borders.now }
    requires head { length borders.now ≤ length head.now }
    requires within { q < length borders.now }
    ensures value { IsStep head.now q c result }
    ensures within { result ≤ q + 1 }
{
    let mut k = q;
    while head[k] != c {
        if none_stands(k) {
            return 0;
        }
        k = left_of(borders, k);
    }
    k + 1
}

// The two cases of a head's first character.
#[derive(Clone, Copy)]
struct First {
    small: char,
    large: char,
}

fn first_of(head: &[char]) -> First
    requires { 0 < length head.now }
    ensures { IsFirst head.now result }
{
    First {
        small: head[0],
        large: head[0].to_ascii_uppercase(),
    }
}

fn is_other(c: char, first: First) -> bool
    ensures { result ≡ true → IsOther first c }
{
    c != first.small && c != first.large
}

// How many characters stand before the first one that is a head's first character, in whatever case. Two comparisons with
// it cost less than to fold each.
fn passed(piece: &[char], first: First) -> usize
    ensures none { (t : ℕ) → t < result → IsOther first (get_or piece.now t 0) }
    ensures within { result ≤ length piece.now }
{
    for i in 0..piece.len() {
        if !is_other(piece[i], first) {
            return i;
        }
    }
    piece.len()
}

// The same, back from a position of a text.
fn passed_back<T: Text>(text: &T, end: usize, first: First) -> usize
    requires { end ≤ length (T.text text.now) }
    ensures none { (t : ℕ) → t < result → IsOther first (get_or (T.text text.now) (end - 1 - t) 0) }
    ensures within { result ≤ end }
{
    let mut left = end;
    while left > 0 {
        if !is_other(text.at(left - 1), first) {
            break;
        }
        left -= 1;
    }
    end - left
}

// One more border: of as many characters as have one.
fn add_border(borders: &mut ArrayVec<usize, 120>, kept: usize)
    requires { length borders.old.items < 120 }
    ensures { borders.new.items ≡ borders.old.items ++ kept ∷ [] }
{
    borders.push(kept);
}

/// The borders of a head.
pub(crate) fn borders_of(head: &[char]) -> ArrayVec<usize, 120>
    requires some { 0 < length head.now }
    requires short { length head.now ≤ 120 }
    ensures borders { IsBorders head.now result.items }
    ensures count { length result.items ≡ length head.now }
{
    let mut borders = ArrayVec::new();
    borders.push(0);
    let mut kept = 0;
    for n in 1..head.len() {
        add_border(&mut borders, kept);
        kept = step(head, borders.as_slice(), kept, head[n]);
    }
    borders
}

// How far a piece of a text was read, and how many of a head's first characters stand there.
#[derive(Clone, Copy)]
struct Walked {
    read: usize,
    stands: usize,
}

// Where a piece is read on from its i-th character: where none of a head stands, at the next one that it may begin with.
fn next_read(piece: &[char], head: &[char], i: usize, stands: usize) -> usize
    requires some { 0 < length head.now }
    requires within { i ≤ length piece.now }
    ensures order { i ≤ result }
    ensures within { result ≤ length piece.now }
    ensures read { IsReadOn head.now piece.now i result stands }
{
    if stands > 0 {
        return i;
    }
    i + passed(&piece[i..], first_of(head))
}

// Reads a piece until the head stands, or to its end.
fn walk(piece: &[char], head: &[char], borders: &[usize], q: usize) -> Walked
    requires borders { IsBorders head.now borders.now }
    requires head { length borders.now ≤ length head.now }
    requires within { q < length borders.now }
    ensures value { IsWalk head.now q piece.now result.read result.stands }
    ensures read { result.read ≤ length piece.now }
    ensures stands { result.stands ≤ length borders.now }
    ensures end { result.stands < length borders.now → result.read ≡ length piece.now }
{
    let mut stands = q;
    let mut i = 0;
    while i < piece.len() {
        let next = next_read(piece, head, i, stands);
        if next == piece.len() {
            return Walked { read: next, stands };
        }
        stands = step(head, borders, stands, piece[next].to_ascii_lowercase());
        i = next + 1;
        if stands == borders.len() {
            return Walked { read: i, stands };
        }
    }
    Walked { read: i, stands }
}

/// The first place from `from` on where a head stands, or the end. No pattern that begins so stands at a place before.
pub(crate) fn next_headed<T: Text>(text: &T, from: usize, head: &[char], borders: &[usize]) -> usize
    requires from { from ≤ length (T.text text.now) }
    requires borders { IsBorders head.now borders.now }
    requires head { length borders.now ≤ length head.now }
    requires some { 0 < length borders.now }
    ensures value { (chars : List ℕ) → IsHead chars head.now → first_match chars (T.text text.now) result ≡ first_match chars (T.text text.now) from }
    ensures order { from ≤ result }
    ensures within { result ≤ length (T.text text.now) }
{
    let mut i = from;
    let mut stands = 0;
    while i < text.len() {
        let piece = text.piece(i);
        let walked = walk(piece, head, borders, stands);
        i += walked.read;
        stands = walked.stands;
        if stands == borders.len() {
            return i - stands;
        }
    }
    text.len()
}

// Where the characters before `top` are read on, of which i were read back.
fn next_read_back<T: Text>(text: &T, tail: &[char], top: usize, i: usize, stands: usize) -> usize
    requires some { 0 < length tail.now }
    requires top { top ≤ length (T.text text.now) }
    requires within { i ≤ top }
    ensures order { i ≤ result }
    ensures within { result ≤ top }
    ensures read { IsReadBack tail.now (T.text text.now) top i stands → IsReadBack tail.now (T.text text.now) top result stands }
{
    if stands > 0 {
        return i;
    }
    i + passed_back(text, top - i, first_of(tail))
}

// Where a pattern ends at most that begins before `end`.
fn reach<T: Text>(text: &T, end: usize, pattern: &[char]) -> usize
    requires some { 0 < end }
    requires end { end ≤ length (T.text text.now) }
    ensures value { result ≡ min (length (T.text text.now)) (end - 1 + length pattern.now) }
    ensures fits { result < 2 ^ 63 }
{
    text.len().min(end - 1 + pattern.len())
}

// The place behind the one where so many characters begin that end at `behind`, but `end` at most.
fn begun_behind(end: usize, behind: usize, count: usize) -> usize
    requires { behind < 2 ^ 63 }
    ensures { result ≡ min end (behind + 1 - count) }
{
    end.min((behind + 1).saturating_sub(count))
}

/// The place behind the last one before `end` where a pattern may stand, since its tail does, or 0. The pattern stands at no
/// place between.
pub(crate) fn last_tailed<T: Text>(
    text: &T,
    end: usize,
    pattern: &[char],
    tail: &[char],
    borders: &[usize],
) -> usize
    requires end { end ≤ length (T.text text.now) }
    requires tail { IsTail pattern.now tail.now }
    requires borders { IsBorders tail.now borders.now }
    requires head { length borders.now ≤ length tail.now }
    requires some { 0 < length borders.now }
    ensures value { last_match_before pattern.now (T.text text.now) result ≡ last_match_before pattern.now (T.text text.now) end }
    ensures order { result ≤ end }
{
    if end == 0 {
        return 0;
    }
    let top = reach(text, end, pattern);
    let mut stands = 0;
    let mut i = 0;
    while i < top {
        let next = next_read_back(text, tail, top, i, stands);
        if next == top {
            return 0;
        }
        stands = step(
            tail,
            borders,
            stands,
            text.at(top - 1 - next).to_ascii_lowercase(),
        );
        i = next + 1;
        if stands == borders.len() {
            let behind = top - (i - stands);
            return begun_behind(end, behind, pattern.len());
        }
    }
    0
}
