// Bytes that come to a terminal.
use mgs_model::Short;
use mgs_term::{OutOfProfile, Term};
use std::process::Abort;

// Whether a terminal takes all of these bytes.
fn takes(term: &mut Term, bytes: &[u8]) -> bool {
    term.feed_all(bytes) == Ok(())
}

fn refuses(term: &mut Term, byte: u8) -> bool {
    term.feed(byte) == Err(OutOfProfile)
}

// Whether this character is in a cell.
fn shows(term: &Term, cell: usize, character: char) -> bool {
    match term.grid().get(cell) {
        Some(cell) => cell.character == character,
        None => false,
    }
}

// What a terminal of 6 rows of 20 columns takes, from its start on.
fn keep_to_profile(rt: &impl Abort, term: &mut Term) {
    for &bytes in &[b"\x1b[?7l".as_slice(), b"\x1b[1;19H", b"abc"] {
        assert!(rt; takes(term, bytes));
    }
    assert!(rt; (term.rows(), term.cols()) == (6, 20));
    assert!(rt; term.grid().len() == 120);
    assert!(rt; shows(term, 18, 'a') && shows(term, 19, 'c'));
    assert!(rt; term.cursor() == (1, 20), "the last column stays");
    assert!(rt; takes(term, b"\x1b[7"));
    for &byte in b"Hm\x1b" {
        assert!(rt; refuses(term, byte), "{byte} in a sequence");
    }
    assert!(rt; term.cursor() == (1, 20));
}

#[test]
fn a_terminal_keeps_to_its_profile(rt: HostRuntime) -> Result<(), Short> {
    let mut term = Term::new(rt.alloc(), 6, 20)?;
    assert!(rt; refuses(&mut term, b'a'), "wrap is on");
    let mut term = Term::new(rt.alloc(), 6, 20)?;
    keep_to_profile(&rt, &mut term);
    Ok(())
}

// With wrap off, in the first row: what is then in its last two cells. Where one half of a wide character is hit, the other is a blank.
const WIDE: [(&[u8], char, char); 6] = [
    (b"\x1b[?7l\x1b[1;19H\xe6\xbc\xa2", '\u{6f22}', '\0'),
    (b"\x1b[?7l\x1b[1;18H\xe6\xbc\xa2\xc3\xa9", '\0', '\u{e9}'),
    (b"\x1b[?7l\x1b[1;19H\xe6\xbc\xa2x", ' ', 'x'),
    (b"\x1b[?7l\x1b[1;19H\xe6\xbc\xa2\x1b[1;19Hx", 'x', ' '),
    (b"\x1b[?7l\x1b[1;19H\xe6\xbc\xa2\x1b[K", ' ', ' '),
    (
        b"\x1b[?7l\x1b[1;19H\xe6\xbc\xa2\x1b[1;18H\xe6\xbc\xa2",
        '\0',
        ' ',
    ),
];

// Whether a terminal takes these bytes, the cursor is in the last column then, and these are in the last two cells.
fn fills(term: &mut Term, bytes: &[u8], left: char, right: char) -> bool {
    takes(term, bytes)
        && term.cursor() == (1, 20)
        && shows(term, 18, left)
        && shows(term, 19, right)
}

#[test]
fn a_wide_character_fills_two_cells(rt: HostRuntime) -> Result<(), Short> {
    for &(bytes, left, right) in &WIDE {
        let mut term = Term::new(rt.alloc(), 6, 20)?;
        assert!(rt; fills(&mut term, bytes, left, right), "{bytes:?}");
    }
    let mut term = Term::new(rt.alloc(), 6, 20)?;
    assert!(rt; takes(&mut term, b"\x1b[?7l\x1b[1;20H\xe6\xbc"));
    assert!(rt; refuses(&mut term, 0xA2), "the last column");
    assert!(rt; shows(&term, 19, ' '));
    Ok(())
}
