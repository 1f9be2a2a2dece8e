// Words: runs of ASCII letters and digits.
ghost use Rattle.std.specs.Prelude.{◌≡◌, ◌≤◌, length};
ghost use Rattle.mgs_model.specs.Walks.{over, back, is_word, is_gap, forward_word, backward_word, forward_words, backward_words};

use mgs_text::Text;

fn over_gap<T: Text>(text: &T, p: usize) -> usize
    requires { p ≤ length (T.text text.now) }
    ensures value { result ≡ over is_gap (T.text text.now) p }
    ensures from { p ≤ result }
    ensures within { result ≤ length (T.text text.now) }
{
    for i in p..text.len() {
        if text.at(i).is_ascii_alphanumeric() {
            return i;
        }
    }
    text.len()
}

fn over_word<T: Text>(text: &T, p: usize) -> usize
    requires { p ≤ length (T.text text.now) }
    ensures value { result ≡ over is_word (T.text text.now) p }
    ensures from { p ≤ result }
    ensures within { result ≤ length (T.text text.now) }
{
    for i in p..text.len() {
        if !text.at(i).is_ascii_alphanumeric() {
            return i;
        }
    }
    text.len()
}

fn back_gap<T: Text>(text: &T, p: usize) -> usize
    requires { p ≤ length (T.text text.now) }
    ensures value { result ≡ back is_gap (T.text text.now) p }
    ensures within { result ≤ p }
{
    let mut at = p;
    while at > 0 {
        if text.at(at - 1).is_ascii_alphanumeric() {
            break;
        }
        at -= 1;
    }
    at
}

fn back_word<T: Text>(text: &T, p: usize) -> usize
    requires { p ≤ length (T.text text.now) }
    ensures value { result ≡ back is_word (T.text text.now) p }
    ensures within { result ≤ p }
{
    let mut at = p;
    while at > 0 {
        if !text.at(at - 1).is_ascii_alphanumeric() {
            break;
        }
        at -= 1;
    }
    at
}

fn word_end<T: Text>(text: &T, p: usize) -> usize
    requires { p ≤ length (T.text text.now) }
    ensures value { result ≡ forward_word (T.text text.now) p }
    ensures from { p ≤ result }
    ensures within { result ≤ length (T.text text.now) }
{
    over_word(text, over_gap(text, p))
}

fn word_start<T: Text>(text: &T, p: usize) -> usize
    requires { p ≤ length (T.text text.now) }
    ensures value { result ≡ backward_word (T.text text.now) p }
    ensures within { result ≤ p }
{
    back_word(text, back_gap(text, p))
}

/// The end of the word at a position, or of the next one, and so on as many `times`. The text's end where there are no
/// more: there it stops.
pub fn forward_word<T: Text>(text: &T, p: usize, times: usize) -> usize
    requires { p ≤ length (T.text text.now) }
    ensures value { result ≡ forward_words (T.text text.now) p times }
    ensures from { p ≤ result }
    ensures within { result ≤ length (T.text text.now) }
{
    let mut at = p;
    for i in 0..times {
        if at == text.len() {
            break;
        }
        at = word_end(text, at);
    }
    at
}

/// The start of the word before a position, and so on as many `times`. The text's start where there are no more: there
/// it stops.
pub fn backward_word<T: Text>(text: &T, p: usize, times: usize) -> usize
    requires { p ≤ length (T.text text.now) }
    ensures value { result ≡ backward_words (T.text text.now) p times }
    ensures within { result ≤ p }
{
    let mut at = p;
    for i in 0..times {
        if at == 0 {
            break;
        }
        at = word_start(text, at);
    }
    at
}
