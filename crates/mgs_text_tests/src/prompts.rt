// The input of a prompt, byte by byte, and what names have in common.
use mgs_mini::{Prompt, Step, completion};
use mgs_model::Question;
use std::process::Abort;

// What bytes make of a new prompt: what the last one comes to, and the input.
const KEYS: [(&[u8], Step, &[char]); 50] = [
    (b"ab ~", Step::GoesOn, &['a', 'b', ' ', '~']),
    (b"ab\x7F", Step::GoesOn, &['a']),
    (b"\x7F", Step::GoesOn, &[]),
    (b"ab\r", Step::Answered, &['a', 'b']),
    (b"a\t", Step::Completes, &['a']),
    (b"a\x07", Step::Quit, &['a']),
    (b"a\x1B\x07", Step::Quit, &['a']),
    (b"a\x1B[\x07", Step::Quit, &['a']),
    (b"a\x1B[\x1B\x07", Step::Quit, &['a']),
    (b"a\x1Bbc", Step::GoesOn, &['a', 'c']),
    (b"a\x1B\r", Step::GoesOn, &['a']),
    (b"a\x1B[Ac", Step::GoesOn, &['a', 'c']),
    (b"a\x1B[\x1Bbc", Step::GoesOn, &['a', 'c']),
    (b"a\x1B\x1Bc", Step::GoesOn, &['a', 'c']),
    (b"a\x18c", Step::GoesOn, &['a', 'c']),
    (&[b'a'; 120], Step::GoesOn, &['a'; 120]),
    (&[b'a'; 121], Step::GoesOn, &['a'; 120]),
    (b"a\xC3", Step::GoesOn, &['a']),
    (b"a\xC3\xA9", Step::GoesOn, &['a', '\u{E9}']),
    (b"\xE6\xBC\xA2c", Step::GoesOn, &['\u{6F22}', 'c']),
    (b"\xF0\x9F\x98\x80", Step::GoesOn, &['\u{1F600}']),
    (
        b"a\xCC\x81\xC2\x80",
        Step::GoesOn,
        &['a', '\u{301}', '\u{80}'],
    ),
    (b"a\xE6\xBC\xA2\x7F", Step::GoesOn, &['a']),
    // A byte that cannot go on with a character is gone with what came of it, also where it is a key by itself or begins another one.
    (b"a\xC3A", Step::Unbound, &['a']),
    (b"a\xC3Ac", Step::GoesOn, &['a', 'c']),
    (b"a\xE6A", Step::Unbound, &['a']),
    (b"a\xE6\xBCA", Step::Unbound, &['a']),
    (b"a\xF0A", Step::Unbound, &['a']),
    (b"a\xF0\x9FA", Step::Unbound, &['a']),
    (b"a\xF0\x9F\x98A", Step::Unbound, &['a']),
    (b"a\xC3\r", Step::Unbound, &['a']),
    (b"a\xC3\t", Step::Unbound, &['a']),
    (b"a\xC3\x7F", Step::Unbound, &['a']),
    (b"a\xC3\x1B", Step::Unbound, &['a']),
    (b"a\xC3\x1Bc", Step::GoesOn, &['a', 'c']),
    (b"a\xC3\xC3", Step::Unbound, &['a']),
    (b"a\xC3\xC3\xA9", Step::Unbound, &['a']),
    // What begins no character: a byte that only goes on, overlong forms, surrogates, and what is past U+10FFFF.
    (b"a\x80", Step::Unbound, &['a']),
    (b"a\xC1", Step::Unbound, &['a']),
    (b"a\xF5", Step::Unbound, &['a']),
    (b"a\xE0\x80", Step::Unbound, &['a']),
    (b"a\xED\xA0", Step::Unbound, &['a']),
    (b"a\xF0\x80", Step::Unbound, &['a']),
    (b"a\xF4\x90", Step::Unbound, &['a']),
    // C-g gives the prompt up, and behind ESC and M-[ no character begins.
    (b"a\xE6\xBC\x07", Step::Quit, &['a']),
    (b"a\x1B\xC3", Step::Unbound, &['a']),
    (b"a\x1B[\xC3", Step::Unbound, &['a']),
    (b"a\x1B[\x1B\xC3", Step::Unbound, &['a']),
    (b"a\x1B\xC3\xA9", Step::Unbound, &['a']),
    (b"a\x1B\xC3\xC3\xA9", Step::GoesOn, &['a', '\u{E9}']),
];

// What the last of these bytes comes to.
fn last_fed(prompt: &mut Prompt, bytes: &[u8]) -> Step {
    let mut step = Step::GoesOn;
    for byte in bytes {
        step = prompt.feed(*byte);
    }
    step
}

// Whether the last of these bytes comes to this, and so much stands in the prompt then.
fn comes_to(prompt: &mut Prompt, bytes: &[u8], last: Step, input: &[char]) -> bool {
    last_fed(prompt, bytes) == last && prompt.input() == input
}

#[test]
fn each_key_of_a_prompt(rt: HostRuntime) {
    for &(bytes, last, input) in &KEYS {
        let mut prompt = Prompt::new(Question::SwitchTo);
        assert!(rt; comes_to(&mut prompt, bytes, last, input), "{bytes:?}");
    }
}

const NAMES: [&[u8]; 4] = [b"notes.txt", b"notebook", b"other", b"note"];

const COMPLETED: [(&[char], Option<&[u8]>); 8] = [
    (&[], Some(b"")),
    (&['n'], Some(b"note")),
    (&['n', 'o', 't', 'e'], Some(b"note")),
    (&['n', 'o', 't', 'e', 's'], Some(b"notes.txt")),
    (&['o', 't', 'h', 'e', 'r'], Some(b"other")),
    (&['o', 't', 'h', 'e', 'r', 's'], None),
    (&['N'], None),
    (&['n', '\u{F6}'], None),
];

// Whether this stands in a prompt.
fn has_input(prompt: &Prompt, input: &[char]) -> bool {
    prompt.input() == input
}

// Whether a prompt takes a completion in that is short enough.
fn takes_in(prompt: &mut Prompt, text: &[u8]) -> bool {
    text.len() <= 120 && prompt.complete(Some(text))
}

// A new prompt for a buffer takes a completion in, and stays as it is where there is none.
fn complete(rt: &impl Abort, prompt: &mut Prompt) {
    assert!(rt; prompt.names_buffer());
    prompt.feed(b'n');
    assert!(rt; takes_in(prompt, b"notes"));
    assert!(rt; has_input(prompt, &['n', 'o', 't', 'e', 's']));
    assert!(rt; !prompt.complete(None));
    assert!(rt; has_input(prompt, &['n', 'o', 't', 'e', 's']));
    assert!(rt; prompt.feed(0x7F) == Step::GoesOn);
    assert!(rt; has_input(prompt, &['n', 'o', 't', 'e']));
}

#[test]
fn a_prompt_takes_in_what_names_have_in_common(rt: HostRuntime) {
    for &(input, wanted) in &COMPLETED {
        assert!(rt; completion(input, &NAMES) == wanted, "{input:?}");
    }
    assert!(rt; completion(&[], &[]) == None);
    complete(&rt, &mut Prompt::new(Question::KillWhich));
}

// A prompt into which so many characters of three bytes are typed.
fn typed(count: usize) -> Prompt {
    let mut prompt = Prompt::new(Question::SwitchTo);
    for _ in 0..count {
        let _last = last_fed(&mut prompt, b"\xE6\xBC\xA2");
    }
    prompt
}

#[test]
fn the_limit_counts_characters(rt: HostRuntime) {
    assert!(rt; typed(119).input().len() == 119);
    assert!(rt; typed(121).input() == ['\u{6F22}'; 120].as_slice());
}
