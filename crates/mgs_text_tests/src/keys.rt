// Keys that are written as tokens, quotes, and numbers that are written in digits.
use mgs_keys::{KeysFault, cut_at, quoted, read_keys, read_number};
use std::alloc::Global;
use std::process::Abort;

const TOKENS: [(&str, &[u8]); 3] = [
    ("C-x '2 M-f RET", b"\x182\x1Bf\r"),
    ("C-i M-SPC M-DEL C-SPC C-_", b"\t\x1B \x1B\x7F\x00\x1F"),
    ("SPC ESC DEL TAB 'ab' M-~", b" \x1B\x7F\tab'\x1B~"),
];

const NO_TOKENS: [&str; 11] = [
    "", "C-1", "'", "Tab", " RET", "RET ", "RET  RET", "C-A", "M-", "M-ab", "ret",
];

// Whether a text is read as these keys.
fn reads(alloc: Global, text: &str, keys: &[u8]) -> bool {
    match read_keys(alloc, text) {
        Ok(read) => read.as_slice() == keys,
        Err(_) => false,
    }
}

// Whether a text is refused for a token that is none.
fn is_refused(alloc: Global, text: &str) -> bool {
    matches!(&read_keys(alloc, text), Err(KeysFault::BadToken))
}

#[test]
fn keys_are_read(rt: HostRuntime) {
    for &(text, keys) in &TOKENS {
        assert!(rt; reads(rt.alloc(), text, keys), "{text}");
    }
    for &text in &NO_TOKENS {
        assert!(rt; is_refused(rt.alloc(), text), "{text}");
    }
}

const QUOTES: [(&[u8], Option<&[u8]>); 3] = [(b"'a'", Some(b"a'")), (b"'", None), (b"a", None)];

const NUMBERS: [(&[u8], Option<usize>); 12] = [
    (b"0", Some(0)),
    (b"7", Some(7)),
    (b"40", Some(40)),
    (b"999", Some(999)),
    (b"", None),
    (b"00", None),
    (b"07", None),
    (b"007", None),
    (b"1000", None),
    (b"+1", None),
    (b"1a", None),
    (b"1 ", None),
];

// Whether a text is cut at its first space into these two.
fn is_cut(text: &[u8], first: &[u8], rest: Option<&[u8]>) -> bool {
    cut_at(text, b' ') == (first, rest)
}

#[test]
fn words_are_read(rt: HostRuntime) {
    for &(word, text) in &QUOTES {
        assert!(rt; quoted(word) == text, "{word:?}");
    }
    for &(word, number) in &NUMBERS {
        assert!(rt; read_number(word) == number, "{word:?}");
    }
    assert!(rt; is_cut(b"show a b", b"show", Some(b"a b")));
    assert!(rt; is_cut(b"show", b"show", None));
}
