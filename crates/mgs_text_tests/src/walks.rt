// Walks over a text: words, paragraphs, lines up and down, and kills of lines.
use mgs_lines::{
    backward_paragraph, backward_word, forward_paragraph, forward_word, is_first_line,
    is_last_line, kill_line_end, lines_down, lines_up,
};
use mgs_text::{PlainText, Text};
use std::process::Abort;
use std::test::Fail;

// In `  ab1 -c.`: from a place, so many words on and so many back.
const WORDS: [(usize, usize, usize, usize); 16] = [
    (0, 0, 0, 0),
    (9, 0, 9, 9),
    (0, 1, 5, 0),
    (2, 1, 5, 0),
    (3, 1, 5, 2),
    (4, 1, 5, 2),
    (5, 1, 8, 2),
    (7, 1, 8, 2),
    (8, 1, 9, 7),
    (9, 1, 9, 7),
    (0, 2, 8, 0),
    (9, 2, 9, 2),
    (0, 3, 9, 0),
    (9, 3, 9, 0),
    (0, 9999, 9, 0),
    (9, 9999, 9, 0),
];

// Whether a walk of so many words from a place ends there, and one back here.
fn walks_words_to(text: &impl Text, p: usize, times: usize, end: usize, start: usize) -> bool {
    p <= text.len() && forward_word(text, p, times) == end && backward_word(text, p, times) == start
}

#[test]
fn walks_words(rt: HostRuntime) -> Result<(), Fail> {
    let chars = [' ', ' ', 'a', 'b', '1', ' ', '-', 'c', '.'];
    let text = PlainText::of(rt.alloc(), &chars)?;
    for &(p, times, end, start) in &WORDS {
        assert!(rt;
            walks_words_to(&text, p, times, end, start),
            "{times} from {p}"
        );
    }
    Ok(())
}

// An empty line, `ab`, `c`, two spaces, a tab, `de`, and an empty line.
const PAGE: [char; 14] = [
    '\n', 'a', 'b', '\n', 'c', '\n', ' ', ' ', '\n', '\t', '\n', 'd', 'e', '\n',
];

// From a place, so many paragraphs on and back, so many lines down and up, and the end of a kill of so many lines.
const WALKS: [(usize, usize, usize, usize, usize, usize, usize); 17] = [
    (2, 0, 2, 2, 1, 1, 1),
    (14, 0, 14, 14, 14, 14, 14),
    (0, 1, 6, 0, 1, 0, 1),
    (1, 1, 6, 0, 4, 0, 4),
    (2, 1, 6, 1, 4, 0, 4),
    (4, 1, 6, 1, 6, 1, 6),
    (5, 1, 6, 1, 6, 1, 6),
    (7, 1, 14, 1, 9, 4, 9),
    (11, 1, 14, 1, 14, 9, 14),
    (12, 1, 14, 11, 14, 9, 14),
    (14, 1, 14, 11, 14, 11, 14),
    (0, 2, 14, 0, 4, 0, 4),
    (2, 2, 14, 0, 6, 0, 6),
    (14, 2, 14, 1, 14, 9, 14),
    (0, 9999, 14, 0, 14, 0, 14),
    (2, 9999, 14, 0, 14, 0, 14),
    (14, 9999, 14, 0, 14, 0, 14),
];

// At a place: the end of a kill without an argument, and whether it is in the first line and in the last.
const PLACES: [(usize, usize, bool, bool); 4] = [
    (0, 1, true, false),
    (1, 3, false, false),
    (13, 14, false, false),
    (14, 14, false, true),
];

// Whether a walk of so many paragraphs from a place ends there, and one back here.
fn walks_paragraphs_to(text: &impl Text, p: usize, times: usize, end: usize, start: usize) -> bool {
    p <= text.len()
        && forward_paragraph(text, p, times) == end
        && backward_paragraph(text, p, times) == start
}

// Whether so many lines down and up from a place, and a kill of so many, end at these three.
fn walks_lines_to(
    text: &impl Text,
    p: usize,
    times: usize,
    below: usize,
    above: usize,
    killed: usize,
) -> bool {
    p <= text.len()
        && lines_down(text, p, times) == below
        && lines_up(text, p, times) == above
        && kill_line_end(text, p, Some(times)) == killed
}

// Whether a kill without an argument ends there, and whether a place is in the first line and in the last as it is said.
fn lies_so(text: &impl Text, p: usize, killed: usize, first: bool, last: bool) -> bool {
    p <= text.len()
        && kill_line_end(text, p, None) == killed
        && is_first_line(text, p) == first
        && is_last_line(text, p) == last
}

#[test]
fn walks_paragraphs_and_lines(rt: HostRuntime) -> Result<(), Fail> {
    let text = PlainText::of(rt.alloc(), &PAGE)?;
    for &(p, times, end, start, below, above, killed) in &WALKS {
        assert!(rt;
            walks_paragraphs_to(&text, p, times, end, start),
            "{times} paragraphs from {p}"
        );
        assert!(rt;
            walks_lines_to(&text, p, times, below, above, killed),
            "{times} lines from {p}"
        );
    }
    for &(p, killed, first, last) in &PLACES {
        assert!(rt; lies_so(&text, p, killed, first, last), "at {p}");
    }
    Ok(())
}

// Whether so many words, paragraphs and lines of no text end where they begin.
fn stays(none: &impl Text, times: usize) -> bool {
    forward_word(none, 0, times) == 0
        && forward_paragraph(none, 0, times) == 0
        && lines_down(none, 0, times) == 0
        && kill_line_end(none, 0, Some(times)) == 0
}

// Whether all of a text is one word.
fn is_one_word(text: &impl Text) -> bool {
    let end = forward_word(text, 0, 9999);
    end == text.len()
        && backward_word(text, end, 9999) == 0
        && backward_paragraph(text, end, 9999) == 0
}

#[test]
fn walks_no_text_and_a_word_of_all_there_may_be(rt: HostRuntime) -> Result<(), Fail> {
    let none = PlainText::of(rt.alloc(), &[])?;
    for &times in &[0, 1, 9999] {
        assert!(rt; stays(&none, times), "{times}");
    }
    assert!(rt; kill_line_end(&none, 0, None) == 0);
    let chars = vec![in rt.alloc(); 'a'; 1_048_576]?;
    let text = PlainText::of(rt.alloc(), &chars)?;
    assert!(rt; is_one_word(&text));
    Ok(())
}
