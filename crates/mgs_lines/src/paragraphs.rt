// Paragraphs: lines that are not blank, with blank lines between them.
ghost use Rattle.std.specs.Prelude.{◌≡◌, ◌+◌, ◌-◌, ◌≤◌, length, slice_range};
ghost use Rattle.mgs_model.specs.Lines.{line_of, line_start, line_end, start_of};
ghost use Rattle.mgs_model.specs.Walks.{over, back, lines, is_blank, is_written, forward_paragraph, backward_paragraph, forward_paragraphs, backward_paragraphs};

use crate::{end_of, line_start, start_above};
use mgs_text::Text;

// Whether the line that starts at a position has only white.
pub(crate) fn is_blank_line<T: Text>(text: &T, start: usize) -> bool
    requires { start ≤ length (T.text text.now) }
    ensures { result ≡ is_blank (slice_range (T.text text.now) start (line_end (T.text text.now) start)) }
{
    for i in start..text.len() {
        let c = text.at(i);
        if c == '\n' {
            return true;
        }
        if c != ' ' && c != '\t' {
            return false;
        }
    }
    true
}

// From the line that starts at a position down over blank lines.
fn below_blank_lines<T: Text>(text: &T, start: usize) -> usize
    requires within { start ≤ length (T.text text.now) }
    requires start { line_start (T.text text.now) start ≡ start }
    ensures value { result ≡ start_of (over is_blank (lines (T.text text.now)) (line_of (T.text text.now) start)) (T.text text.now) }
    ensures from { start ≤ result }
    ensures within { result ≤ length (T.text text.now) }
{
    let mut at = start;
    let mut line = text.line_of(start);
    while is_blank_line(text, at) {
        let end = end_of(text, at, line);
        if end == text.len() {
            return end;
        }
        at = end + 1;
        line += 1;
    }
    at
}

// From the line that starts at a position down over lines that are not blank.
fn below_written_lines<T: Text>(text: &T, start: usize) -> usize
    requires within { start ≤ length (T.text text.now) }
    requires start { line_start (T.text text.now) start ≡ start }
    ensures value { result ≡ start_of (over is_written (lines (T.text text.now)) (line_of (T.text text.now) start)) (T.text text.now) }
    ensures from { start ≤ result }
    ensures within { result ≤ length (T.text text.now) }
{
    let mut at = start;
    let mut line = text.line_of(start);
    while !is_blank_line(text, at) {
        let end = end_of(text, at, line);
        if end == text.len() {
            return end;
        }
        at = end + 1;
        line += 1;
    }
    at
}

// From the line that starts at a position up over blank lines: the start of the first that is not blank, or of the text.
fn above_blank_lines<T: Text>(text: &T, start: usize) -> usize
    requires within { start ≤ length (T.text text.now) }
    requires start { line_start (T.text text.now) start ≡ start }
    ensures value { result ≡ start_of (back is_blank (lines (T.text text.now)) (line_of (T.text text.now) start + 1) - 1) (T.text text.now) }
    ensures within { result ≤ start }
{
    let mut at = start;
    let mut line = text.line_of(start);
    while is_blank_line(text, at) {
        if at == 0 {
            break;
        }
        at = start_above(text, at, line);
        line -= 1;
    }
    at
}

// From the line that starts at a position up while the line above is not blank.
fn above_written_lines<T: Text>(text: &T, start: usize) -> usize
    requires within { start ≤ length (T.text text.now) }
    requires start { line_start (T.text text.now) start ≡ start }
    ensures value { result ≡ start_of (back is_written (lines (T.text text.now)) (line_of (T.text text.now) start)) (T.text text.now) }
    ensures within { result ≤ start }
{
    let mut at = start;
    let mut line = text.line_of(start);
    while at > 0 {
        let above = start_above(text, at, line);
        if is_blank_line(text, above) {
            break;
        }
        at = above;
        line -= 1;
    }
    at
}

fn paragraph_end<T: Text>(text: &T, p: usize) -> usize
    requires { p ≤ length (T.text text.now) }
    ensures value { result ≡ forward_paragraph (T.text text.now) p }
    ensures within { result ≤ length (T.text text.now) }
{
    let start = below_blank_lines(text, line_start(text, p));
    if start == text.len() {
        return start;
    }
    below_written_lines(text, start)
}

fn paragraph_start<T: Text>(text: &T, p: usize) -> usize
    requires { p ≤ length (T.text text.now) }
    ensures value { result ≡ backward_paragraph (T.text text.now) p }
    ensures within { result ≤ p }
{
    if p == 0 {
        return 0;
    }
    let start = above_blank_lines(text, line_start(text, p - 1));
    above_written_lines(text, start)
}

/// From the line of a position down over blank lines and then over lines that are not blank, and so on as many `times`:
/// the start of the blank line that is reached, or the text's end, where it stops. A blank line has only spaces and tabs.
pub fn forward_paragraph<T: Text>(text: &T, p: usize, times: usize) -> usize
    requires { p ≤ length (T.text text.now) }
    ensures value { result ≡ forward_paragraphs (T.text text.now) p times }
    ensures within { result ≤ length (T.text text.now) }
{
    let mut at = p;
    for i in 0..times {
        if at == text.len() {
            break;
        }
        at = paragraph_end(text, at);
    }
    at
}

/// From the line of a position, or the one above where the position is its start, up over blank lines and then up while
/// the line above is not blank, and so on as many `times`: the start of the line that is reached. At the text's start it
/// stops. A blank line has only spaces and tabs.
pub fn backward_paragraph<T: Text>(text: &T, p: usize, times: usize) -> usize
    requires { p ≤ length (T.text text.now) }
    ensures value { result ≡ backward_paragraphs (T.text text.now) p times }
    ensures within { result ≤ p }
{
    let mut at = p;
    for i in 0..times {
        if at == 0 {
            break;
        }
        at = paragraph_start(text, at);
    }
    at
}
