// Arguments and words of keys: what terminals show.
use super::replay::NOTES;
use super::steps::{scripts_show, text_of};
use std::alloc::Global;
use std::process::Abort;
use std::test::Fail;

// The scripts behind a text of so many characters.
fn on_a_text_of(rt: &impl Abort, alloc: Global, count: usize, scripts: &str) -> Result<(), Fail> {
    let pieces = [
        (NOTES, 1),
        ("text notes '", 1),
        ("a", count),
        ("\nopen a ann 6 20\n", 1),
    ];
    let setting = text_of(alloc, &pieces)?;
    scripts_show(rt, alloc, setting.as_str(), scripts)
}

#[test]
fn the_longest_argument_fills_a_text(rt: HostRuntime) -> Result<(), Fail> {
    let scripts = "
        == a number past 9,999 is 9,999, and so many characters are put in where there is just room for them
        keys a C-u '99999x
        show a
        screen a
        |$xxxxxxxxaaaaaaaaaa$|
        |                    |
        |                    |
        |                    |
        !-**-notes-L1-C9999--!
        |                    |
        cursor 1 10
    ";
    on_a_text_of(&rt, rt.alloc(), 1_038_577, scripts)
}

#[test]
fn nothing_of_an_argument_is_put_in_past_the_limit(rt: HostRuntime) -> Result<(), Fail> {
    let scripts = "
        == nothing of an argument is put in past the limit
        keys a C-u '9999x
        show a
        screen a
        |aaaaaaaaaaaaaaaaaaa$|
        |                    |
        |                    |
        |                    |
        !----notes-L1-C0-----!
        |Buffer full         |
        cursor 1 1
    ";
    on_a_text_of(&rt, rt.alloc(), 1_038_578, scripts)
}

#[test]
fn a_full_text_is_killed_and_comes_back(rt: HostRuntime) -> Result<(), Fail> {
    let scripts = "
        == a text of all the characters that it may have
        # It is gone over, killed, put back, and its edits taken back; no character more goes in.
        keys a C-k C-y C-_ C-_ M-> C-b C-t C-_ M-b M-f C-a 'x
        show a
        screen a
        |aaaaaaaaaaaaaaaaaaa$|
        |                    |
        |                    |
        |                    |
        !-**-notes-L1-C0-----!
        |Buffer full         |
        cursor 1 1
    ";
    on_a_text_of(&rt, rt.alloc(), 1_048_576, scripts)
}

#[test]
fn a_text_has_a_limit(rt: HostRuntime) -> Result<(), Fail> {
    let scripts = "
        == a text that has room for six characters
        # A text that comes in whole has no room, and a seventh character has none.
        keys a 'x M-x 'insert-buffer RET 'notes RET
        show a
        screen a
        |xaaaaaaaaaaaaaaaaaa$|
        |                    |
        |                    |
        |                    |
        !-**-notes-L1-C1-----!
        |Buffer full         |
        cursor 1 2
        keys a C-_ 'xxxxxx
        show a
        screen a
        |xxxxxxaaaaaaaaaaaaa$|
        |                    |
        |                    |
        |                    |
        !-**-notes-L1-C6-----!
        |                    |
        cursor 1 7
        keys a 'x
        show a
        screen a
        |xxxxxxaaaaaaaaaaaaa$|
        |                    |
        |                    |
        |                    |
        !-**-notes-L1-C6-----!
        |Buffer full         |
        cursor 1 7
        # Of all further replacements those that have room are done, and what is full ends the rest.
        keys a C-_ C-_ C-_ C-_ C-_ C-_ M-% 'a RET 'bbb RET '!
        show a
        screen a
        |bbbbbbbbbaaaaaaaaaa$|
        |                    |
        |                    |
        |                    |
        !-**-notes-L1-C10----!
        |Buffer full         |
        cursor 1 11
        keys a C-f
        show a
        screen a
        |bbbbbbbbbaaaaaaaaaa$|
        |                    |
        |                    |
        |                    |
        !-**-notes-L1-C11----!
        |                    |
        cursor 1 12
    ";
    on_a_text_of(&rt, rt.alloc(), 1_048_570, scripts)
}

#[test]
fn arguments_and_words_are_read(rt: HostRuntime) -> Result<(), Fail> {
    let shared = "
        == arguments repeat motions
        # Motions go as far as the text does; with an argument of 0 they go nowhere, also at the text's ends.
        text notes 'abcdefgh
        open a ann 6 20
        keys a C-u '0 C-b C-u C-f
        show a
        screen a
        |abcdefgh            |
        |                    |
        |                    |
        |                    |
        !----notes-L1-C4-----!
        |                    |
        cursor 1 5
        keys a C-u C-u C-f
        show a
        screen a
        |abcdefgh            |
        |                    |
        |                    |
        |                    |
        !----notes-L1-C8-----!
        |                    |
        cursor 1 9
        keys a C-u '0 C-f M-3 C-b
        show a
        screen a
        |abcdefgh            |
        |                    |
        |                    |
        |                    |
        !----notes-L1-C5-----!
        |                    |
        cursor 1 6
        keys a C-u '9999 C-b
        show a
        screen a
        |abcdefgh            |
        |                    |
        |                    |
        |                    |
        !----notes-L1-C0-----!
        |                    |
        cursor 1 1
        == words take their last byte
        # The last byte of C-x ESC x is no character of its own, and a digit after C-u begins a new number.
        open a ann 6 20
        keys a C-x ESC 'x
        show a
        screen a
        |                    |
        |                    |
        |                    |
        |                    |
        !----notes-L1-C0-----!
        |Key not bound       |
        cursor 1 1
        keys a C-u '3 C-u '2x
        show a
        screen a
        |xx                  |
        |                    |
        |                    |
        |                    |
        !-**-notes-L1-C2-----!
        |                    |
        cursor 1 3
        == sessions read their own words
        # What one session has half read is not another's.
        open a ann 6 20
        open b ann 6 20
        keys a C-u '3
        keys b 'y C-x
        keys a 'x
        keys b C-g
        show a
        screen a
        |xxxy                |
        |                    |
        |                    |
        |                    |
        !-**-notes-L1-C3-----!
        |                    |
        cursor 1 4
        show b
        screen b
        |xxxy                |
        |                    |
        |                    |
        |                    |
        !-**-notes-L1-C4-----!
        |Quit                |
        cursor 1 5
    ";
    scripts_show(&rt, rt.alloc(), NOTES, shared)?;
    let others = "
        == nothing is put in by an argument of 0
        # With an argument of 0 nothing is put in, the buffer is not modified, and the right is needed all the same.
        user ann
        user bob
        user cat
        buffer notes ann
        entry notes ALLOW ann rwat
        entry notes ALLOW bob at
        entry notes ALLOW cat rt
        text notes 'abc
        open a ann 6 20
        open b bob 6 20
        open c cat 6 20
        keys a C-u '0x C-u '0 RET
        keys b C-u '0x
        keys c C-u '0x
        show a
        screen a
        |abc                 |
        |                    |
        |                    |
        |                    |
        !----notes-L1-C0-----!
        |                    |
        cursor 1 1
        show b
        screen b
        |[no read: no entry] |
        |                    |
        |                    |
        |                    |
        !----notes-(no read)-!
        |                    |
        cursor 1 1
        show c
        screen c
        |abc                 |
        |                    |
        |                    |
        |                    |
        !----notes-L1-C0-----!
        |Denied: no entry gr$|
        cursor 1 1
    ";
    scripts_show(&rt, rt.alloc(), "", others)
}
