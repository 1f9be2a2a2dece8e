// Words of keys and arguments, byte by byte.
use mgs_maps::{Fed, Keyboard, bindings};
use mgs_model::{Alteration, Command, Insertion, Motion, Sequence, Setting};
use std::process::Abort;

// What the last of these bytes comes to.
fn last_fed(keyboard: &mut Keyboard, bytes: &[u8]) -> Fed {
    let mut fed = Fed::Pending;
    for byte in bytes {
        fed = keyboard.feed(*byte);
    }
    fed
}

fn character(byte: u8, argument: Option<u32>) -> Fed {
    Fed::Run(
        Command::Insert(Insertion::SelfInsert(char::from(byte))),
        argument,
    )
}

// What a byte comes to behind these bytes of a word, where it is no part of an argument.
fn by_table(prefix: &[u8], byte: u8, argument: Option<u32>) -> Fed {
    for row in bindings() {
        if row.keys.strip_prefix(prefix) == Some([byte].as_slice()) {
            return Fed::Run(row.command, argument);
        }
    }
    match (prefix, byte) {
        ([], 0x11 | 0x18 | 0x1B) | ([0x18], 0x1B) | ([0x1B], b'[') | ([0x1B, b'['], 0x1B) => {
            Fed::Pending
        }
        ([], b'\t' | b' '..=b'~') => character(byte, argument),
        _ => Fed::Unbound,
    }
}

// What a byte comes to, after an argument and these bytes of a word.
fn answer(prefix: &[u8], byte: u8, argument: Option<u32>) -> Fed {
    match (prefix, byte) {
        ([] | [0x11], 0xC2..=0xF4) => Fed::Pending,
        ([0x11], 0x00..=0x7F) => character(byte, argument),
        ([0x11], _) => Fed::Unbound,
        (_, 0x07) => Fed::Run(Command::Set(Setting::KeyboardQuit), argument),
        ([], 0x15) | ([0x1B], b'0'..=b'9') => Fed::Pending,
        ([], b'0'..=b'9') if argument.is_some() => Fed::Pending,
        _ => by_table(prefix, byte, argument),
    }
}

const HELD: [(&[u8], Option<u32>); 7] = [
    (b"", None),
    (b"\x15", Some(4)),
    (b"\x153", Some(3)),
    (b"\x150", Some(0)),
    (b"\x1B3", Some(3)),
    (b"\x153\x15", Some(12)),
    (b"\x159999", Some(9999)),
];

const PREFIXES: [&[u8]; 7] = [
    b"",
    b"\x18",
    b"\x1B",
    b"\x18\x1B",
    b"\x1B[",
    b"\x1B[\x1B",
    b"\x11",
];

// Whether a byte has its answer behind what is held. Where a word ends, nothing of it is held.
fn has_answer(held: &Keyboard, prefix: &[u8], byte: u8, argument: Option<u32>) -> bool {
    let mut keyboard = *held;
    let fed = keyboard.feed(byte);
    fed == answer(prefix, byte, argument)
        && (fed == Fed::Pending || keyboard.feed(b'2') == character(b'2', None))
}

#[test]
fn every_byte_has_an_answer(rt: HostRuntime) {
    for &(typed, argument) in &HELD {
        for &prefix in &PREFIXES {
            let mut held = Keyboard::new();
            let _argument = last_fed(&mut held, typed);
            let _prefix = last_fed(&mut held, prefix);
            for byte in 0..=255u8 {
                assert!(rt;
                    has_answer(&held, prefix, byte, argument),
                    "{typed:?} {prefix:?} {byte}"
                );
            }
        }
    }
}

const ARGUMENTS: [(&[u8], u32); 15] = [
    (b"\x15x", 4),
    (b"\x15\x15x", 16),
    (b"\x153\x15x", 12),
    (b"\x153\x152x", 2),
    (b"\x1512x", 12),
    (b"\x1503x", 3),
    (b"\x150\x15x", 0),
    (b"\x1B2x", 2),
    (b"\x1B23x", 23),
    (b"\x1B2\x1B3x", 23),
    (b"\x15\x1B2x", 2),
    (b"\x153\x15\x1B2x", 2),
    (b"\x159999x", 9999),
    (b"\x1599999x", 9999),
    (b"\x15\x15\x15\x15\x15\x15\x15x", 9999),
];

const QUIT: Command = Command::Set(Setting::KeyboardQuit);

// A word that goes on keeps the argument, and an argument is typed before its word alone. C-g, ESC, C-u and digits are no keys
// after C-q, which begins a word alone.
const WORDS: [(&[u8], Fed); 23] = [
    (b"\x18\x1Bx", Fed::Unbound),
    (b"\x1B\x07", Fed::Run(QUIT, None)),
    (b"\x153\x18\x07", Fed::Run(QUIT, Some(3))),
    (b"\x153\x18\x1B\x07", Fed::Run(QUIT, Some(3))),
    (b"\x153\x1B[\x07", Fed::Run(QUIT, Some(3))),
    (b"\x153\x1B[\x1B\x07", Fed::Run(QUIT, Some(3))),
    (b"\x153\x185", Fed::Unbound),
    (b"\x18\x1B5", Fed::Unbound),
    (
        b"\x153\x18\x15",
        Fed::Run(Command::Alter(Alteration::UpcaseRegion), Some(3)),
    ),
    (
        b"\x153\x1B[D",
        Fed::Run(Command::Move(Motion::BackwardChar), Some(3)),
    ),
    (b"\x153\x18\x03", Fed::Run(Command::Exit, Some(3))),
    (b"\x1B[z", Fed::Unbound),
    (b"\x1B[\x1BA", Fed::Unbound),
    (b"\x1B\x1B", Fed::Unbound),
    (b"\x18\x11", Fed::Unbound),
    (b"\x1B\x11", Fed::Unbound),
    (b"\x153\x11\x80", Fed::Unbound),
    (
        b"\x15\x11x",
        Fed::Run(Command::Insert(Insertion::SelfInsert('x')), Some(4)),
    ),
    (
        b"\x11\x01",
        Fed::Run(Command::Insert(Insertion::SelfInsert('\x01')), None),
    ),
    (
        b"\x11\x07",
        Fed::Run(Command::Insert(Insertion::SelfInsert('\x07')), None),
    ),
    (
        b"\x11\x1B",
        Fed::Run(Command::Insert(Insertion::SelfInsert('\x1B')), None),
    ),
    (
        b"\x115",
        Fed::Run(Command::Insert(Insertion::SelfInsert('5')), None),
    ),
    (
        b"\x153\x11\x15",
        Fed::Run(Command::Insert(Insertion::SelfInsert('\x15')), Some(3)),
    ),
];

// Whether a word comes to this, and the byte behind it inserts itself, since nothing is held then.
fn comes_to(word: &[u8], fed: Fed, next: u8) -> bool {
    let mut keyboard = Keyboard::new();
    last_fed(&mut keyboard, word) == fed && keyboard.feed(next) == character(next, None)
}

#[test]
fn arguments_and_words_are_read(rt: HostRuntime) {
    for &(typed, argument) in &ARGUMENTS {
        let fed = character(b'x', Some(argument));
        assert!(rt; comes_to(typed, fed, b'y'), "{typed:?}");
    }
    for &(typed, fed) in &WORDS {
        assert!(rt; comes_to(typed, fed, b'2'), "{typed:?}");
    }
    for row in bindings() {
        let fed = last_fed(&mut Keyboard::new(), row.keys);
        assert!(rt; fed == Fed::Run(row.command, None), "{:?}", row.keys);
    }
}

fn inserts(c: char, argument: Option<u32>) -> Fed {
    Fed::Run(Command::Insert(Insertion::SelfInsert(c)), argument)
}

// The UTF-8 of characters: the first and the last of each length, those beside the surrogates, and some between.
const CHARACTERS: [(&[u8], char); 12] = [
    (b"\xC2\x80", '\u{80}'),
    (b"\xC3\xA9", '\u{E9}'),
    (b"\xCC\x81", '\u{301}'),
    (b"\xDF\xBF", '\u{7FF}'),
    (b"\xE0\xA0\x80", '\u{800}'),
    (b"\xE6\xBC\xA2", '\u{6F22}'),
    (b"\xED\x9F\xBF", '\u{D7FF}'),
    (b"\xEE\x80\x80", '\u{E000}'),
    (b"\xEF\xBF\xBF", '\u{FFFF}'),
    (b"\xF0\x90\x80\x80", '\u{10000}'),
    (b"\xF0\x9F\x98\x80", '\u{1F600}'),
    (b"\xF4\x8F\xBF\xBF", '\u{10FFFF}'),
];

// What is typed before a character, and the argument that it makes.
const BEFORE: [(&[u8], Option<u32>); 4] = [
    (b"", None),
    (b"\x153", Some(3)),
    (b"\x11", None),
    (b"\x15\x11", Some(4)),
];

// Whether the last of these bytes comes to this and each other one waits, and nothing is held then.
fn comes_to_at_last(before: &[u8], bytes: &[u8], fed: Fed) -> bool {
    let mut keyboard = Keyboard::new();
    let _before = last_fed(&mut keyboard, before);
    let mut last = Fed::Pending;
    for byte in bytes {
        if last != Fed::Pending {
            return false;
        }
        last = keyboard.feed(*byte);
    }
    last == fed && keyboard.feed(b'2') == character(b'2', None)
}

#[test]
fn characters_insert_themselves(rt: HostRuntime) {
    for &(before, argument) in &BEFORE {
        for &(bytes, c) in &CHARACTERS {
            let fed = inserts(c, argument);
            assert!(rt; comes_to_at_last(before, bytes, fed), "{before:?} {c}");
        }
    }
}

// Some first bytes of characters, with all rows of the table below among them.
const BEGINNINGS: [&[u8]; 15] = [
    b"\xC2",
    b"\xDF",
    b"\xE0",
    b"\xE0\xA0",
    b"\xE6",
    b"\xE6\xBC",
    b"\xED",
    b"\xED\x9F",
    b"\xF0",
    b"\xF0\x9F",
    b"\xF0\x9F\x98",
    b"\xF3",
    b"\xF4",
    b"\xF4\x8F",
    b"\xF4\x8F\xBF",
];

// Whether a byte may stand behind the first bytes of a character: table 3-7 of The Unicode Standard.
fn may_follow(bytes: &[u8], byte: u8) -> bool {
    match (bytes, byte) {
        ([0xE0], 0x80..=0x9F) | ([0xED], 0xA0..=0xBF) => false,
        ([0xF0], 0x80..=0x8F) | ([0xF4], 0x90..=0xBF) => false,
        (_, 0x80..=0xBF) => true,
        _ => false,
    }
}

// Whether a byte goes on behind the first bytes of a character, or ends the word with them.
fn goes_on_or_ends(held: &Keyboard, bytes: &[u8], byte: u8, argument: Option<u32>) -> bool {
    let mut keyboard = *held;
    let fed = keyboard.feed(byte);
    if may_follow(bytes, byte) {
        return match fed {
            Fed::Pending => true,
            Fed::Run(Command::Insert(Insertion::SelfInsert(_)), n) => n == argument,
            _ => false,
        };
    }
    let ended = if byte == 0x07 {
        Fed::Run(QUIT, argument)
    } else {
        Fed::Unbound
    };
    fed == ended && keyboard.feed(b'2') == character(b'2', None)
}

#[test]
fn every_byte_of_a_character_has_an_answer(rt: HostRuntime) {
    for &(before, argument) in &BEFORE {
        for &bytes in &BEGINNINGS {
            let mut held = Keyboard::new();
            let _before = last_fed(&mut held, before);
            let _bytes = last_fed(&mut held, bytes);
            for byte in 0..=255u8 {
                assert!(rt;
                    goes_on_or_ends(&held, bytes, byte, argument),
                    "{before:?} {bytes:?} {byte}"
                );
            }
        }
    }
}

// Bytes of which each runs no command by itself: overlong forms, surrogates, what is past the last character, bytes that only go
// on with one, and characters behind ESC, C-x and M-[.
const UNBOUND: [(&[u8], &[u8]); 11] = [
    (b"", b"\xC0\x80"),
    (b"", b"\xC1\xBF"),
    (b"", b"\x80\xBF"),
    (b"", b"\xF5\x80\xFF"),
    (b"\xE0", b"\x80\x80"),
    (b"\xF0", b"\x80\x80\x80"),
    (b"\xED", b"\xA0\x80"),
    (b"\xF4", b"\x90\x80\x80"),
    (b"\x1B", b"\xC3\xA9"),
    (b"\x18", b"\xE6\xBC\xA2"),
    (b"\x1B[", b"\xC3\xA9"),
];

fn are_unbound(before: &[u8], bytes: &[u8]) -> bool {
    let mut keyboard = Keyboard::new();
    if !before.is_empty() && last_fed(&mut keyboard, before) != Fed::Pending {
        return false;
    }
    for byte in bytes {
        if keyboard.feed(*byte) != Fed::Unbound {
            return false;
        }
    }
    keyboard.feed(b'2') == character(b'2', None)
}

#[test]
fn bytes_that_are_no_character_run_no_command(rt: HostRuntime) {
    for &(before, bytes) in &UNBOUND {
        assert!(rt; are_unbound(before, bytes), "{before:?} {bytes:?}");
    }
    // A letter that ends the bytes of a character is not typed, and the next one is.
    assert!(rt; comes_to(b"\xC3A", Fed::Unbound, b'a'));
    assert!(rt; comes_to(b"\x153\x11\xE6\xBC\x07", Fed::Run(QUIT, Some(3)), b'a'));
}

// Whether the last of these bytes ends a character and each other one goes on with it, and nothing is held then.
fn is_read(before: &[u8], bytes: &[u8], c: char) -> bool {
    let mut keyboard = Keyboard::new();
    let _before = last_fed(&mut keyboard, before);
    let mut read = Sequence::Begun;
    for byte in bytes {
        if read != Sequence::Begun {
            return false;
        }
        if !keyboard.is_character_byte(*byte) {
            return false;
        }
        read = keyboard.feed_character(*byte);
    }
    read == Sequence::Whole(c) && keyboard.feed(b'2') == character(b'2', None)
}

#[test]
fn characters_are_read(rt: HostRuntime) {
    for &(before, _) in &BEFORE {
        for &(bytes, c) in &CHARACTERS {
            assert!(rt; is_read(before, bytes, c), "{before:?} {c}");
        }
    }
}

// Whether a byte is one of a character behind what is held, where it is to be one, and then begins it or goes on with it, where it may.
fn is_judged(held: &Keyboard, byte: u8, belongs: bool, fits: bool) -> bool {
    let mut keyboard = *held;
    if !keyboard.is_character_byte(byte) {
        return !belongs;
    }
    match keyboard.feed_character(byte) {
        Sequence::Begun | Sequence::Whole(_) => belongs && fits,
        Sequence::Broken => belongs && !fits && keyboard.feed(b'2') == character(b'2', None),
    }
}

// C-g is a key within a character too.
#[test]
fn every_byte_goes_on_with_a_character_or_breaks_it(rt: HostRuntime) {
    for &bytes in &BEGINNINGS {
        let mut held = Keyboard::new();
        let _bytes = last_fed(&mut held, bytes);
        for byte in 0..=255u8 {
            let fits = may_follow(bytes, byte);
            assert!(rt; is_judged(&held, byte, byte != 7, fits), "{bytes:?} {byte}");
        }
    }
}

// Behind C-q a character may begin, and behind ESC, C-x and M-[ none.
#[test]
fn a_byte_past_ascii_begins_a_character_or_is_none(rt: HostRuntime) {
    for &prefix in &PREFIXES {
        let mut held = Keyboard::new();
        let _prefix = last_fed(&mut held, prefix);
        for byte in 0..=255u8 {
            let fits = matches!((prefix, byte), ([] | [0x11], 0xC2..=0xF4));
            assert!(rt;
                is_judged(&held, byte, byte >= 0x80, fits),
                "{prefix:?} {byte}"
            );
        }
    }
}
