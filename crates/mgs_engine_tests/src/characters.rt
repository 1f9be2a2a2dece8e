// The bytes of characters past ASCII, as a terminal sends them: typed, asked for, searched and replaced.
use super::fixtures::{Server, press, serve, show, sit, waiting};
use mgs_model::{Keyed, SessionId};
use std::alloc::{AllocError, Global};
use std::process::Abort;
use std::test::Fail;

const ALL_RIGHTS: [&str; 1] = ["ALLOW ann rwatdcCo"];

// Keys, and the screen and the cursor then.
type Row = (&'static [u8], &'static str, (usize, usize));

// The text of most tests.
const TEXT: [char; 4] = ['a', 'b', '\u{e9}', '\u{6f22}'];

// A screen that begins so shows this text, with the point where the cursor is, or at the start where that is behind a prompt. Then comes the
// echo line.
const UNCHANGED: &str = "= ";

fn screen_of(
    alloc: Global,
    screen: &str,
    (row, column): (usize, usize),
) -> Result<String, AllocError> {
    let Some(echo) = screen.strip_prefix(UNCHANGED) else {
        return String::from_str(alloc, screen);
    };
    let point = if row == 1 {
        column.saturating_sub(1)
    } else {
        0
    };
    format!(in alloc; "ab\u{e9}\u{6f22}\0 | ----notes-L1-C{point}----- | {echo}")
}

// Whether the keys of a session lead to this screen and this cursor.
fn comes_to(
    alloc: Global,
    engine: &mut Server,
    id: SessionId,
    keys: &[u8],
    screen: &str,
    cursor: (usize, usize),
) -> Result<bool, AllocError> {
    let whole = screen_of(alloc, screen, cursor)?;
    Ok(
        press(engine, id, keys) == Keyed::Done
            && show(alloc, waiting(engine, id), whole.as_str(), cursor),
    )
}

// What each row says of ann in this text.
fn rows_come_to(rt: &impl Abort, alloc: Global, text: &[char], rows: &[Row]) -> Result<(), Fail> {
    for &(keys, screen, cursor) in rows {
        let mut engine = serve(alloc, &ALL_RIGHTS, text, rt);
        let ann = sit(&mut engine, "ann", 6, 20, rt);
        let is_so = comes_to(alloc, &mut engine, ann, keys, screen, cursor)?;
        assert!(rt; is_so, "{keys:?}: {screen}");
    }
    Ok(())
}

// In an empty text.
const TYPED: [Row; 21] = [
    (b"\xc3\xa9", "\u{e9} | -**-notes-L1-C1-----", (1, 2)),
    (b"\xe6\xbc\xa2", "\u{6f22}\0 | -**-notes-L1-C2-----", (1, 3)),
    (
        b"\xf0\x9f\x98\x80",
        "\u{1f600}\0 | -**-notes-L1-C2-----",
        (1, 3),
    ),
    // A combining character, one of no column and a control character are not shown as themselves.
    (b"a\xcc\x81", "a\\u{301} | -**-notes-L1-C8-----", (1, 9)),
    (b"\xe2\x80\x8b", "\\u{200b} | -**-notes-L1-C8-----", (1, 9)),
    (b"\xc2\x80", "\\u{80} | -**-notes-L1-C6-----", (1, 7)),
    // A character that is half read is not there yet, and C-g gives it up, also behind C-q and while a macro is recorded.
    (b"a\xe6\xbc", "a | -**-notes-L1-C1-----", (1, 2)),
    (b"\xe6\xbc\x07", " | ----notes-L1-C0----- | Quit", (1, 1)),
    (b"\x11\xe6\x07", " | ----notes-L1-C0----- | Quit", (1, 1)),
    (
        b"\x18(\xc3\x07\x18e",
        " | ----notes-L1-C0----- | No macro",
        (1, 1),
    ),
    // So many times, also behind C-q.
    (
        b"\x153\xe6\xbc\xa2",
        "\u{6f22}\0\u{6f22}\0\u{6f22}\0 | -**-notes-L1-C6-----",
        (1, 7),
    ),
    (
        b"\x153\x11\xc3\xa9",
        "\u{e9}\u{e9}\u{e9} | -**-notes-L1-C3-----",
        (1, 4),
    ),
    // Behind ESC, C-x and M-[ no character begins.
    (
        b"\x1b\xc3",
        " | ----notes-L1-C0----- | Key not bound",
        (1, 1),
    ),
    (b"\x1b\xc3a", "a | -**-notes-L1-C1-----", (1, 2)),
    (
        b"\x18\xc3",
        " | ----notes-L1-C0----- | Key not bound",
        (1, 1),
    ),
    (b"\x18\xc3a", "a | -**-notes-L1-C1-----", (1, 2)),
    (
        b"\x1b[\xc3",
        " | ----notes-L1-C0----- | Key not bound",
        (1, 1),
    ),
    (b"\x1b[\xc3a", "a | -**-notes-L1-C1-----", (1, 2)),
    // A macro keeps bytes. What is no character ends a play, and not the recording.
    (
        b"\x18(\xc3\xa9\x18)\x152\x18e",
        "\u{e9}\u{e9}\u{e9} | -**-notes-L1-C3-----",
        (1, 4),
    ),
    (
        b"\x18(z\xc3A\x18)\x152\x18e",
        "zz | -**-notes-L1-C2----- | Key not bound",
        (1, 3),
    ),
    // A return that breaks a character is none.
    (b"\xe6\xbc\ra", "a | -**-notes-L1-C1-----", (1, 2)),
];

#[test]
fn characters_are_typed_byte_by_byte(rt: HostRuntime) -> Result<(), Fail> {
    rows_come_to(&rt, rt.alloc(), &[], &TYPED)
}

#[test]
fn control_characters_take_more_cells(rt: HostRuntime) -> Result<(), Fail> {
    let text = ['\t', 'x', '\u{1}', '\u{7f}', '\u{e9}'];
    let screen = "        x^A^?\u{e9} | ----notes-L1-C0-----";
    rows_come_to(&rt, rt.alloc(), &text, &[(b"", screen, (1, 1))])
}

const ASKED: [Row; 30] = [
    (
        b"\x18\x06\xc3\xa9\xe6\xbc\xa2",
        "= Find file: \u{e9}\u{6f22}\0",
        (6, 15),
    ),
    (b"\x18\x06a\xe6\xbc", "= Find file: a", (6, 13)),
    (b"\x18\x06a\xe6\xbc\xa2\x7f", "= Find file: a", (6, 13)),
    (b"\x18\x06\xcc\x81", "= Find file: \\u{301}", (6, 19)),
    (b"\x18\x06\xe2\x80\x8b", "= Find file: \\u{200b}", (6, 20)),
    // Of a long line the end is shown, in cells, and half a character is a blank.
    (
        b"\x18\x06aa\xe6\xbc\xa2\xe6\xbc\xa2\xe6\xbc\xa2",
        "= Find file: aa\u{6f22}\0\u{6f22}\0\u{6f22}\0",
        (6, 20),
    ),
    (
        b"\x18\x06aaa\xe6\xbc\xa2\xe6\xbc\xa2\xe6\xbc\xa2",
        "= $nd file: aaa\u{6f22}\0\u{6f22}\0\u{6f22}\0",
        (6, 20),
    ),
    (
        b"\x18\x06\xe6\xbc\xa2aaaaaaaaaaaaaaaa",
        "= $\u{6f22}\0aaaaaaaaaaaaaaaa",
        (6, 20),
    ),
    (
        b"\x18\x06\xe6\xbc\xa2aaaaaaaaaaaaaaaaa",
        "= $ aaaaaaaaaaaaaaaaa",
        (6, 20),
    ),
    // C-g gives a prompt up within a character too, and a macro is recorded on. A mode that a play ends in stays.
    (b"\x18\x06a\xe6\xbc\x07", "= Quit", (1, 1)),
    (
        b"\x18(\x18\x06\xc3\x07z\x18)\x18e",
        "zab\u{e9}\u{6f22}\0 | -**-notes-L1-C1----- | Quit",
        (1, 2),
    ),
    (
        b"\x18(\x18\x06a\xc3A\x07\x18)\x18eb",
        "= Find file: ab",
        (6, 14),
    ),
    (b"\x18(\x13a\xc3A\x07\x18)\x18eb", "= I-search: ab", (1, 3)),
    // No name, no number and no entry has a character past ASCII.
    (b"\x18b\xc3\xa9\r", "= Bad name", (1, 1)),
    (b"\x18\x06\xc3\xa9\r", "= Bad name", (1, 1)),
    (b"\x18b\xc3\xa9\t", "= No match", (1, 1)),
    (b"\x18bn\xc3\xa9\t", "= No match", (1, 1)),
    (b"\x18k\xc3\xa9\r", "= No such buffer", (1, 1)),
    (b"\x1bx\xc3\xa9\r", "= No such command", (1, 1)),
    (b"\x1bx\xc3\xa9\t", "= No match", (1, 1)),
    (
        b"\x1bxinsert-buffer\r\xc3\xa9\r",
        "= No such buffer",
        (1, 1),
    ),
    (b"\x1bxset-owner\r\xc3\xa9\r", "= No such user", (1, 1)),
    (b"\x1bxset-group\r\xc3\xa9\r", "= No such group", (1, 1)),
    (b"\x18g1\xc3\xa9\r", "= Not a number", (1, 1)),
    (b"\x18g\xef\xbc\x91\r", "= Not a number", (1, 1)),
    (
        b"\x1bxacl-insert\r\xc3\xa9 ann r\r",
        "= Bad entry: Kind",
        (1, 1),
    ),
    (
        b"\x1bxacl-insert\rALLOW\xc2\xa0ann r\r",
        "= Bad entry: Kind",
        (1, 1),
    ),
    (
        b"\x1bxacl-insert\rALLOW \xc3\xa9 r\r",
        "= Bad entry: Who",
        (1, 1),
    ),
    (
        b"\x1bxacl-insert\rALLOW ann \xc3\xa9\r",
        "= Bad entry: Letters",
        (1, 1),
    ),
    (
        b"\x1bxacl-insert\rALLOW ann r \xc3\xa9\r",
        "= Bad entry: Trailing",
        (1, 1),
    ),
];

#[test]
fn answers_have_characters(rt: HostRuntime) -> Result<(), Fail> {
    rows_come_to(&rt, rt.alloc(), &TEXT, &ASKED)
}

const FOUND: [Row; 25] = [
    // A search is for what is typed, or for what was sought before. The case of ASCII letters alone is ignored.
    (b"\x1bs\xc3\xa9\r", "= ", (1, 4)),
    (b"\x1bsB\xc3\xa9\xe6\xbc\xa2\r", "= ", (1, 6)),
    (b"\x1b>\x1br\xc3\xa9\r", "= ", (1, 3)),
    (b"\x1bs\xc3\x89\r", "= Not found", (1, 1)),
    (b"\x13\xc3\xa9\r\x1b<\x1bs\r", "= ", (1, 4)),
    // An incremental one looks at the last byte of each character.
    (b"\x13\xe6\xbc", "= I-search: ", (1, 1)),
    (b"\x13\xe6\xbc\xa2", "= I-search: \u{6f22}\0", (1, 6)),
    (b"\x13B\xc3\xa9", "= I-search: B\u{e9}", (1, 4)),
    (b"\x13\xc3\xa9\x13", "= Failing I-search: \u{e9}", (1, 4)),
    (b"\x13\xc3\x89", "= Failing I-search: \u{c9}", (1, 1)),
    (b"\x13\xcc\x81", "= $ I-search: \\u{301}", (1, 1)),
    (b"\x1b>\x12\xc3\xa9", "= $search backward: \u{e9}", (1, 3)),
    (b"\x13b\xe6\xbc\xa2\x7f", "= I-search: b", (1, 3)),
    (b"\x13\xc3\xa9\r\x1b<\x13\x13", "= I-search: \u{e9}", (1, 4)),
    (b"\x13b\xe6\xbc\x07", "= Quit", (1, 1)),
    // A key of a search that breaks a character is none.
    (b"\x13a\xc3\r", "= Key not bound", (1, 2)),
    (b"\x13a\xc3\rb", "= I-search: ab", (1, 3)),
    (b"\x13b\xc3\x13", "= Key not bound", (1, 3)),
    // Both answers of a replacing have them, and at its question they do nothing.
    (b"\x1b%\xc3\xa9", "= Query replace: \u{e9}", (6, 17)),
    (b"\x1b%\xc3\xa9\r\xe6\xbc\xa2", "= With: \u{6f22}\0", (6, 9)),
    (b"\x1b%\xc3\xa9\r\xe6\xbc\xa2\r", "= Replace? ", (1, 4)),
    (
        b"\x1b%\xc3\xa9\r\xe6\xbc\xa2\r\xc3\xa9\x80\xff",
        "= Replace? ",
        (1, 4),
    ),
    (b"\x1b%\xc3\xa9\r\xe6\xbc\xa2\r\xc3\x07", "= Quit", (1, 4)),
    (
        b"\x1b%\xc3\xa9\r\xe6\xbc\xa2\r\xc3y",
        "ab\u{6f22}\0\u{6f22}\0 | -**-notes-L1-C4----- | Replaced 1",
        (1, 5),
    ),
    (
        b"\x1b%\xe6\xbc\xa2\r\xc3\xa9\r!",
        "ab\u{e9}\u{e9} | -**-notes-L1-C4----- | Replaced 1",
        (1, 5),
    ),
];

#[test]
fn searches_find_characters(rt: HostRuntime) -> Result<(), Fail> {
    rows_come_to(&rt, rt.alloc(), &TEXT, &FOUND)
}

// Bytes of which the last one breaks a character that the others begin, or begins none: what cannot go on at each place, a byte that only
// goes on, overlong forms, surrogates, and what is past U+10FFFF.
const BROKEN: [&[u8]; 17] = [
    b"\xc3A",
    b"\xc3\xc3",
    b"\xc3\x1b",
    b"\xe6A",
    b"\xe6\xbcA",
    b"\xe6\xbc\xe6",
    b"\xf0A",
    b"\xf0\x9fA",
    b"\xf0\x9f\x98A",
    b"\x80",
    b"\xc1",
    b"\xf5",
    b"\xff",
    b"\xe0\x80",
    b"\xed\xa0",
    b"\xf0\x80",
    b"\xf4\x90",
];

// What is typed before them, and the screens and cursors behind them and behind a `b` more.
type Mode = (
    &'static [u8],
    &'static str,
    (usize, usize),
    &'static str,
    (usize, usize),
);

const MODES: [Mode; 8] = [
    (
        b"",
        "= Key not bound",
        (1, 1),
        "bab\u{e9}\u{6f22}\0 | -**-notes-L1-C1-----",
        (1, 2),
    ),
    (
        b"\x11",
        "= Key not bound",
        (1, 1),
        "bab\u{e9}\u{6f22}\0 | -**-notes-L1-C1-----",
        (1, 2),
    ),
    (
        b"\x153",
        "= Key not bound",
        (1, 1),
        "bab\u{e9}\u{6f22}\0 | -**-notes-L1-C1-----",
        (1, 2),
    ),
    (
        b"\x153\x11",
        "= Key not bound",
        (1, 1),
        "bab\u{e9}\u{6f22}\0 | -**-notes-L1-C1-----",
        (1, 2),
    ),
    (
        b"\x18(",
        "= Key not bound",
        (1, 1),
        "bab\u{e9}\u{6f22}\0 | -**-notes-L1-C1-----",
        (1, 2),
    ),
    (
        b"\x18\x06a",
        "= Key not bound",
        (1, 1),
        "= Find file: ab",
        (6, 14),
    ),
    (
        b"\x13a",
        "= Key not bound",
        (1, 2),
        "= I-search: ab",
        (1, 3),
    ),
    (b"\x1b%a\rx\r", "= Replace? ", (1, 2), "= Replace? ", (1, 2)),
];

// Whether bytes that are no character lead to what a row says.
fn leaves_mode(
    alloc: Global,
    engine: &mut Server,
    id: SessionId,
    mode: &Mode,
    bytes: &[u8],
) -> Result<bool, AllocError> {
    let &(before, screen, cursor, later, place) = mode;
    press(engine, id, before);
    Ok(
        comes_to(alloc, engine, id, bytes, screen, cursor)?
            && comes_to(alloc, engine, id, b"b", later, place)?,
    )
}

// They are gone, with an argument and a C-q before them. A prompt, a search, a replacing and a recording go on.
#[test]
fn what_is_no_character_leaves_the_mode(rt: HostRuntime) -> Result<(), Fail> {
    let alloc = rt.alloc();
    for mode in &MODES {
        for &bytes in &BROKEN {
            let mut engine = serve(alloc, &ALL_RIGHTS, &TEXT, &rt);
            let ann = sit(&mut engine, "ann", 6, 20, &rt);
            let is_so = leaves_mode(alloc, &mut engine, ann, mode, bytes)?;
            let before = mode.0;
            assert!(rt; is_so, "{before:?} {bytes:?}");
        }
    }
    Ok(())
}

// One character is left where 119 are taken back.
const LIMITED: [Row; 3] = [
    (b"\x18\x06", "= Find file: \u{6f22}\0", (6, 14)),
    (b"\x13", "= I-search: \u{6f22}\0", (1, 6)),
    (b"\x1b%b\r", "= With: \u{6f22}\0", (6, 9)),
];

fn type_times(engine: &mut Server, id: SessionId, keys: &[u8], times: usize) {
    for _ in 0..times {
        press(engine, id, keys);
    }
}

// Whether that is so behind these keys and so many characters.
fn holds_120(
    alloc: Global,
    engine: &mut Server,
    id: SessionId,
    row: &Row,
    count: usize,
) -> Result<bool, AllocError> {
    let &(keys, screen, cursor) = row;
    press(engine, id, keys);
    type_times(engine, id, b"\xe6\xbc\xa2", count);
    type_times(engine, id, b"\x7f", 119);
    comes_to(alloc, engine, id, b"", screen, cursor)
}

#[test]
fn the_limit_of_120_counts_characters(rt: HostRuntime) -> Result<(), Fail> {
    let alloc = rt.alloc();
    for row in &LIMITED {
        for &count in &[120, 121] {
            let mut engine = serve(alloc, &ALL_RIGHTS, &TEXT, &rt);
            let ann = sit(&mut engine, "ann", 6, 20, &rt);
            assert!(rt; holds_120(alloc, &mut engine, ann, row, count)?, "{count}");
        }
    }
    Ok(())
}

// What a row shows in a column of a line of `a` in which a wide character stands at a column, where it shows the columns from one to another:
// half of it is a blank.
fn cell_of(at: usize, from: usize, to: usize, column: usize) -> &'static str {
    if column == at {
        return if column < to { "\u{6f22}" } else { " " };
    }
    if column == at.saturating_add(1) {
        return if column > from { "\0" } else { " " };
    }
    "a"
}

// The screen of a line that is longer than its row, and the point's column.
fn line_of(
    alloc: Global,
    start: &str,
    at: usize,
    from: usize,
    to: usize,
    point: usize,
) -> Result<String, AllocError> {
    let mut screen = String::from_str(alloc, start)?;
    for column in from..=to {
        screen.push_str(cell_of(at, from, to, column))?;
    }
    write!(screen, "$ | -**-notes-L1-C{point:-<6}")?;
    Ok(screen)
}

// So many `a`, a wide character and 40 `a` more: 20 columns show the first 19 of them. With the point at column 30 or 31 they show those behind
// column 18, and a sign in its place.
fn stands_at(
    alloc: Global,
    engine: &mut Server,
    id: SessionId,
    at: usize,
) -> Result<bool, AllocError> {
    type_times(engine, id, b"a", at);
    press(engine, id, b"\xe6\xbc\xa2\x1540a");
    let screen = line_of(alloc, "", at, 0, 18, 0)?;
    let is_at_start = comes_to(alloc, engine, id, b"\x01", screen.as_str(), (1, 1))?;
    let (point, cursor) = if at < 30 { (31, 14) } else { (30, 13) };
    let screen = line_of(alloc, "$", at, 19, 36, point)?;
    Ok(
        is_at_start
            && comes_to(
                alloc,
                engine,
                id,
                b"\x1530\x06",
                screen.as_str(),
                (1, cursor),
            )?,
    )
}

#[test]
fn a_wide_character_stands_at_each_column(rt: HostRuntime) -> Result<(), Fail> {
    let alloc = rt.alloc();
    for at in 0..40 {
        let mut engine = serve(alloc, &ALL_RIGHTS, &[], &rt);
        let ann = sit(&mut engine, "ann", 6, 20, &rt);
        assert!(rt; stands_at(alloc, &mut engine, ann, at)?, "{at}");
    }
    Ok(())
}

// Keys of ann's first session or of her second, and what the first one is shown then.
type Step = (bool, &'static [u8], &'static str, (usize, usize));

fn steps_show(
    rt: &impl Abort,
    alloc: Global,
    entries: &[&str],
    steps: &[Step],
) -> Result<(), Fail> {
    let mut engine = serve(alloc, entries, &TEXT, rt);
    let first = sit(&mut engine, "ann", 6, 20, rt);
    let second = sit(&mut engine, "ann", 6, 20, rt);
    for &(is_first, keys, screen, cursor) in steps {
        press(&mut engine, if is_first { first } else { second }, keys);
        let is_so = comes_to(alloc, &mut engine, first, b"", screen, cursor)?;
        assert!(rt; is_so, "{screen}");
    }
    Ok(())
}

// A right is asked for at the last byte of a character, and none for what is none.
const INSERTED: [Step; 2] = [
    (true, b"\xe6\xbc", "= ", (1, 1)),
    (true, b"\xa2", "= Denied: no entry gr$", (1, 1)),
];

const SOUGHT: [Step; 5] = [
    (true, b"\x13", "= I-search: ", (1, 1)),
    (
        false,
        b"\x151\x1bxacl-delete\r",
        "[no read: no entry] | ----notes-(no read)- | I-search: ",
        (1, 1),
    ),
    (
        true,
        b"\xc3",
        "[no read: no entry] | ----notes-(no read)- | I-search: ",
        (1, 1),
    ),
    (
        true,
        b"A",
        "[no read: no entry] | ----notes-(no read)- | Key not bound",
        (1, 1),
    ),
    (
        true,
        b"\xc3\xa9",
        "[no read: no entry] | ----notes-(no read)- | Denied: no entry gr$",
        (1, 1),
    ),
];

// Where its buffer is killed, a search is over, and what is half read goes on as a key.
const KILLED: [Step; 3] = [
    (true, b"\x13a\xc3", "= I-search: a", (1, 2)),
    (false, b"\x18k\r", " | -None---------------", (1, 1)),
    (true, b"\xa9", " | -None--------------- | No buffer", (1, 1)),
];

#[test]
fn a_character_is_judged_at_its_last_byte(rt: HostRuntime) -> Result<(), Fail> {
    let alloc = rt.alloc();
    steps_show(&rt, alloc, &["ALLOW ann rt"], &INSERTED)?;
    steps_show(&rt, alloc, &["ALLOW ann r", "ALLOW ann tC"], &SOUGHT)?;
    steps_show(&rt, alloc, &["ALLOW ann rtd"], &KILLED)
}
