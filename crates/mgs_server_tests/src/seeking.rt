// Incremental searches (C-s, C-r), each step with what the terminal then shows.
use super::steps::{scripts_show, text_of};
use std::test::Fail;

const NOTES: &str = "user ann\n\
    user bob\n\
    user cat\n\
    buffer notes ann\n\
    entry notes ALLOW OWNER@ rwatdcCo\n\
    entry notes ALLOW bob at\n\
    text notes 'abcabc\n\
    open a ann 6 60\n";

#[test]
fn texts_are_found_as_they_are_typed(rt: HostRuntime) -> Result<(), Fail> {
    let shared = "
        == a text is found as it is typed
        # With an empty pattern the anchor itself counts, and with one it does not. C-g goes back, and sets no search string.
        a C-s            | abcabc | --L1-C0 | 1 1 | I-search:
        a 'c             | abcabc | --L1-C3 | 1 4 | I-search: c
        a C-s            | abcabc | --L1-C6 | 1 7 | I-search: c
        a C-s            | abcabc | --L1-C6 | 1 7 | Failing I-search: c
        a C-s            | abcabc | --L1-C6 | 1 7 | Failing I-search: c
        a C-g            | abcabc | --L1-C0 | 1 1 | Quit
        a C-s C-s        | abcabc | --L1-C0 | 1 1 | I-search:
        a C-r            | abcabc | --L1-C0 | 1 1 | I-search backward:
        a RET            | abcabc | --L1-C0 | 1 1
        a M-s RET        | abcabc | --L1-C0 | 1 1 | No pattern
        == a text is found backward
        # Backward the point is at a match's start. A match may end behind the origin, and the other way it does not count
        # where it is.
        a M-> C-r        | abcabc | --L1-C6 | 1 7 | I-search backward:
        a 'c             | abcabc | --L1-C5 | 1 6 | I-search backward: c
        a C-r            | abcabc | --L1-C2 | 1 3 | I-search backward: c
        a C-r            | abcabc | --L1-C2 | 1 3 | Failing I-search backward: c
        a C-s            | abcabc | --L1-C6 | 1 7 | I-search: c
        a C-r            | abcabc | --L1-C2 | 1 3 | I-search backward: c
        a C-g            | abcabc | --L1-C6 | 1 7 | Quit
        a M-< C-r 'a     | abcabc | --L1-C0 | 1 1 | I-search backward: a
        a C-r            | abcabc | --L1-C0 | 1 1 | Failing I-search backward: a
        a 'b             | abcabc | --L1-C0 | 1 1 | I-search backward: ab
        a 'x             | abcabc | --L1-C0 | 1 1 | Failing I-search backward: abx
        a DEL C-s        | abcabc | --L1-C5 | 1 6 | I-search: ab
        a RET C-b C-r 'b | abcabc | --L1-C4 | 1 5 | I-search backward: b
        a 'c             | abcabc | --L1-C4 | 1 5 | I-search backward: bc
        == what was looked for is looked for again
        # RET ends it, and what it looked for is the search string. An empty pattern leaves that as it was.
        a C-s 'c RET     | abcabc | --L1-C3 | 1 4
        a C-s            | abcabc | --L1-C3 | 1 4 | I-search:
        a C-s            | abcabc | --L1-C6 | 1 7 | I-search: c
        a RET            | abcabc | --L1-C6 | 1 7
        a M-< M-s RET    | abcabc | --L1-C3 | 1 4
        a M-r RET        | abcabc | --L1-C2 | 1 3
        a C-s RET M-s RET | abcabc | --L1-C3 | 1 4
        a C-r C-r        | abcabc | --L1-C2 | 1 3 | I-search backward: c
        a C-g C-r C-s    | abcabc | --L1-C6 | 1 7 | I-search: c
        a C-g M-s 'a RET | abcabc | --L1-C4 | 1 5
        a M-< C-s C-s    | abcabc | --L1-C3 | 1 4 | I-search: c
        a 'x RET M-s RET | abcabc | --L1-C3 | 1 4 | Not found
        == a search is begun by name
        # The argument means nothing to it, and digits are looked for.
        a C-u '3 C-s     | abcabc | --L1-C0 | 1 1  | I-search:
        a '3             | abcabc | --L1-C0 | 1 1  | Failing I-search: 3
        a C-g            | abcabc | --L1-C0 | 1 1  | Quit
        a M-x 'is TAB    | abcabc | --L1-C0 | 6 13 | M-x isearch-
        a 'f TAB RET     | abcabc | --L1-C0 | 1 1  | I-search:
        a 'ca            | abcabc | --L1-C4 | 1 5  | I-search: ca
        a M-x 'isearch-backward RET 'b | abcabc | --L1-C4 | 1 5 | I-search backward: b
        a C-r            | abcabc | --L1-C1 | 1 2  | I-search backward: b
    ";
    scripts_show(&rt, rt.alloc(), NOTES, shared)?;
    let others = "
        == what was typed is taken back
        # DEL looks again from the origin, and with an empty pattern goes there.
        user ann
        buffer notes ann
        entry notes ALLOW OWNER@ rwatdcCo
        text notes 'xabxac
        open a ann 6 60
        a C-f C-s 'a     | xabxac | --L1-C2 | 1 3 | I-search: a
        a 'c             | xabxac | --L1-C6 | 1 7 | I-search: ac
        a 'z             | xabxac | --L1-C6 | 1 7 | Failing I-search: acz
        a DEL            | xabxac | --L1-C6 | 1 7 | I-search: ac
        a DEL            | xabxac | --L1-C2 | 1 3 | I-search: a
        a DEL            | xabxac | --L1-C1 | 1 2 | I-search:
        a DEL            | xabxac | --L1-C1 | 1 2 | I-search:
        a 'z             | xabxac | --L1-C1 | 1 2 | Failing I-search: z
        a DEL            | xabxac | --L1-C1 | 1 2 | I-search:
        a 'x C-r         | xabxac | --L1-C0 | 1 1 | I-search backward: x
        a 'a             | xabxac | --L1-C0 | 1 1 | I-search backward: xa
        a DEL            | xabxac | --L1-C0 | 1 1 | I-search backward: x
        a DEL            | xabxac | --L1-C1 | 1 2 | I-search backward:
        == case is ignored
        # Letters of ASCII match in either case, and no other characters do.
        user ann
        buffer notes ann
        entry notes ALLOW OWNER@ rwatdcCo
        text notes 'aBc{AbC[
        open a ann 6 60
        a C-s 'b         | aBc{AbC[ | --L1-C2 | 1 3 | I-search: b
        a 'C             | aBc{AbC[ | --L1-C3 | 1 4 | I-search: bC
        a C-s            | aBc{AbC[ | --L1-C7 | 1 8 | I-search: bC
        a '[             | aBc{AbC[ | --L1-C8 | 1 9 | I-search: bC[
        a RET C-r C-r    | aBc{AbC[ | --L1-C5 | 1 6 | I-search backward: bC[
        a DEL C-r        | aBc{AbC[ | --L1-C1 | 1 2 | I-search backward: bC
        a '[             | aBc{AbC[ | --L1-C1 | 1 2 | Failing I-search backward: bC[
        == a window follows a search
        # A window follows the point, and C-g brings it back.
        user ann
        buffer notes ann
        entry notes ALLOW OWNER@ rwatdcCo
        text notes 'a RET 'b RET 'c RET 'd RET 'e RET 'f RET 'g RET 'h RET 'i RET 'j
        open a ann 6 60
        a C-s 'h         | f/g/h/i | --L8-C1 | 3 2 | I-search: h
        a C-g            | a/b/c/d | --L1-C0 | 1 1 | Quit
        == an empty text is searched
        user ann
        buffer notes ann
        entry notes ALLOW OWNER@ rwatdcCo
        open a ann 6 60
        a C-s            |   | --L1-C0 | 1 1 | I-search:
        a 'a             |   | --L1-C0 | 1 1 | Failing I-search: a
        a C-s            |   | --L1-C0 | 1 1 | Failing I-search: a
        a C-r            |   | --L1-C0 | 1 1 | Failing I-search backward: a
        a DEL            |   | --L1-C0 | 1 1 | I-search backward:
        a C-k            |   | --L1-C0 | 1 1 | End of buffer
        a C-r 'b RET     |   | --L1-C0 | 1 1
        a 'b C-r C-r     | b | **L1-C0 | 1 1 | I-search backward: b
    ";
    scripts_show(&rt, rt.alloc(), "", others)
}

#[test]
fn other_bytes_end_a_search(rt: HostRuntime) -> Result<(), Fail> {
    let scripts = "
        == another byte ends it
        # A byte that is none of its own ends it as RET does, and is handled.
        user ann
        buffer notes ann
        entry notes ALLOW OWNER@ rwatdcCo
        text notes 'ab SPC 'cd RET 'ab
        open a ann 6 60
        a C-s 'b C-a         | ab cd/ab      | --L1-C0 | 1 1
        a C-s C-s            | ab cd/ab      | --L1-C2 | 1 3 | I-search: b
        a C-n                | ab cd/ab      | --L2-C2 | 2 3
        a M-< C-s 'c TAB     | ab c    d/ab  | **L1-C8 | 1 9
        a M-< C-s 'c C-k     | ab c/ab       | **L1-C4 | 1 5
        a M-< C-s 'a ESC     | ab c/ab       | **L1-C1 | 1 2
        a 'f                 | ab c/ab       | **L1-C2 | 1 3
        a M-< C-s 'b C-u     | ab c/ab       | **L1-C2 | 1 3
        a '2 C-f             | ab c/ab       | **L1-C4 | 1 5
        a M-< C-s 'b C-q C-s | ab^S c/ab     | **L1-C4 | 1 5
        a M-< C-s 'b C-z     | ab^S c/ab     | **L1-C2 | 1 3 | Key not bound
        a C-s C-s            | ab^S c/ab     | **L2-C2 | 2 3 | I-search: b
        a C-f                | ab^S c/ab     | **L2-C2 | 2 3 | End of buffer
        a 'x                 | ab^S c/abx    | **L2-C3 | 2 4
        == a prefix ends it
        # Also a byte that begins a word of keys: both windows that come of it stand where the search was.
        user ann
        buffer notes ann
        entry notes ALLOW OWNER@ rwatdcCo
        text notes 'ab RET 'cd
        open a ann 6 20
        keys a C-s 'c C-x
        show a
        screen a
        |ab                  |
        |cd                  |
        |                    |
        |                    |
        !----notes-L2-C1-----!
        |                    |
        cursor 2 2
        keys a '2
        show a
        screen a
        |ab                  |
        |cd                  |
        !----notes-L2-C1-----!
        |cd                  |
        !----notes-L2-C1-----!
        |                    |
        cursor 2 2
        == a macro searches
        # A macro that ends in a search leaves it on, and a search that finds nothing ends no play. C-g in one does, and the
        # recording goes on.
        user ann
        buffer notes ann
        entry notes ALLOW OWNER@ rwatdcCo
        text notes 'abcabcabcabc
        open a ann 6 60
        a C-x '( C-s 'c C-x ')     | abcabcabcabc | --L1-C3 | 1 4
        a C-x 'e                   | abcabcabcabc | --L1-C6 | 1 7 | I-search: c
        a C-s                      | abcabcabcabc | --L1-C9 | 1 10 | I-search: c
        a C-g                      | abcabcabcabc | --L1-C3 | 1 4 | Quit
        a C-x '( C-s 'c RET C-f C-x ') | abcabcabcabc | --L1-C7 | 1 8
        a C-x 'e                   | abcabcabcabc | --L1-C10 | 1 11
        a C-u '2 C-x 'e            | abcabcabcabc | --L1-C12 | 1 13 | End of buffer
        a M-< C-x '( C-s 'z RET 'x C-x ') | xabcabcabcabc | **L1-C1 | 1 2
        a C-u '2 C-x 'e            | xxxabcabcabcabc | **L1-C3 | 1 4
        a C-x '( C-s 'c C-g        | xxxabcabcabcabc | **L1-C3 | 1 4 | Quit
        a 'y C-x ')                | xxxyabcabcabcabc | **L1-C4 | 1 5
        a C-x 'e                   | xxxyabcabcabcabc | **L1-C4 | 1 5 | Quit
    ";
    scripts_show(&rt, rt.alloc(), "", scripts)
}

const TYPED: &str = "== a pattern has 120 characters\na C-s 'cab";

const SHOWN: &str =
    " | abcabc | --L1-C5 | 1 6 | $aaaaaaaaaaaaaaaaaaaaaaaaaaaaaaaaaaaaaaaaaaaaaaaaaaaaaaaaaa
        a 'b   | abcabc | --L1-C5 | 1 6 | $aaaaaaaaaaaaaaaaaaaaaaaaaaaaaaaaaaaaaaaaaaaaaaaaaaaaaaaaab
        a 'c   | abcabc | --L1-C5 | 1 6 | $aaaaaaaaaaaaaaaaaaaaaaaaaaaaaaaaaaaaaaaaaaaaaaaaaaaaaaaaab
        a DEL  | abcabc | --L1-C5 | 1 6 | $aaaaaaaaaaaaaaaaaaaaaaaaaaaaaaaaaaaaaaaaaaaaaaaaaaaaaaaaaa
        a 'c   | abcabc | --L1-C5 | 1 6 | $aaaaaaaaaaaaaaaaaaaaaaaaaaaaaaaaaaaaaaaaaaaaaaaaaaaaaaaaac
        a C-g  | abcabc | --L1-C0 | 1 1 | Quit
    ";

// The 120th character is put behind the pattern, and the 121st is not. Of a long line the end is shown. Where DEL finds nothing from
// the origin on, the point stays.
#[test]
fn a_pattern_has_120_characters(rt: HostRuntime) -> Result<(), Fail> {
    let pieces = [
        (TYPED, 1),
        (" 'aaaaaaaaaaaaaaaaaaaaaaaaaaaaa", 4),
        (SHOWN, 1),
    ];
    let steps = text_of(rt.alloc(), &pieces)?;
    scripts_show(&rt, rt.alloc(), NOTES, steps.as_str())
}

#[test]
fn a_search_goes_with_the_text_and_its_right(rt: HostRuntime) -> Result<(), Fail> {
    let shared = "
        == a search goes with the text
        # Origin and anchor go with the text, also where another takes out what they stood in.
        open b ann 6 60
        a C-f C-s 'c     | abcabc   | --L1-C3 | 1 4 | I-search: c
        b 'xx            | xxabcabc | **L1-C2 | 1 3
        a                | xxabcabc | **L1-C5 | 1 6 | I-search: c
        a C-s            | xxabcabc | **L1-C8 | 1 9 | I-search: c
        a C-r            | xxabcabc | **L1-C4 | 1 5 | I-search backward: c
        a C-g            | xxabcabc | **L1-C3 | 1 4 | Quit
        a C-f C-s 'ca    | xxabcabc | **L1-C6 | 1 7 | I-search: ca
        b M-< C-u '6 C-d | bc       | **L1-C0 | 1 1
        a                | bc       | **L1-C0 | 1 1 | I-search: ca
        a DEL            | bc       | **L1-C2 | 1 3 | I-search: c
        b M-> 'z         | bcz      | **L1-C3 | 1 4
        a 'z             | bcz      | **L1-C3 | 1 4 | I-search: cz
        a C-g            | bcz      | **L1-C0 | 1 1 | Quit
        == a buffer is killed under a search
        # A search is over without a word where its buffer is killed, and what it looked for is not kept.
        open b ann 6 60
        a C-s 'b             | abcabc | --L1-C2       | 1 3 | I-search: b
        b C-x 'k RET         |        | :-None        | 1 1
        a                    |        | :-None        | 1 1
        a 'x                 |        | :-None        | 1 1 | No buffer
        a C-s                |        | :-None        | 1 1 | No buffer
        a C-x 'b 'new RET    |        | :----new-L1-C0 | 1 1
        a 'b M-< M-s RET     | b      | :-**-new-L1-C0 | 1 1 | No pattern
        == a search is begun by who may read
        open b bob 6 60
        b C-s            | [no read: no entry] | :----notes-(no read) | 1 1 | Denied: no entry grants READ_DATA
        b 'x             | [no read: no entry] | :-**-notes-(no read) | 1 1
        b C-r            | [no read: no entry] | :-**-notes-(no read) | 1 1 | Denied: no entry grants READ_DATA
        open c cat 6 60
        c C-s            |  | :-None | 1 1 | No buffer
    ";
    scripts_show(&rt, rt.alloc(), NOTES, shared)?;
    let others = "
        == a right is revoked under a search
        # Who loses READ_DATA sees the mask in that event, and the line of the search stays. The next byte of the search is
        # denied.
        open a ann 6 20
        open b bob 6 20
        keys b C-s 'a
        show b
        screen b
        |banana              |
        |                    |
        |                    |
        |                    |
        !----notes-L1-C2-----!
        |I-search: a         |
        cursor 1 3
        keys a C-u '2 M-x 'acl-delete RET
        show b
        screen b
        |[no read: no entry] |
        |                    |
        |                    |
        |                    |
        !-??-?-(no read)-----!
        |I-search: a         |
        cursor 1 1
        keys b C-s
        show b
        screen b
        |[no read: no entry] |
        |                    |
        |                    |
        |                    |
        !-??-?-(no read)-----!
        |Denied: no entry gr$|
        cursor 1 1
        == a denied search is over
        # A denial ends the search and sets no search string. A character that is inserted next is one of plain mode, and
        # wants its own right.
        open a ann 6 60
        open b bob 6 60
        b C-f C-s 'a                  | banana              | --L1-C2          | 1 3 | I-search: a
        a C-u '2 M-x 'acl-delete RET  | banana              | --L1-C0          | 1 1
        b 'n                          | [no read: no entry] | :-??-?-(no read) | 1 1 | Denied: no entry grants READ_DATA
        b 'n                          | [no read: no entry] | :-??-?-(no read) | 1 1 | Denied: no entry grants APPEND_DATA
        a M-x 'acl-insert RET 'ALLOW SPC 'bob SPC 'rt RET | banana | --L1-C0       | 1 1
        b M-s RET                     | banana              | --L1-C2          | 1 3 | No pattern
        b C-s 'na                     | banana              | --L1-C4          | 1 5 | I-search: na
        a C-u '2 M-x 'acl-delete RET  | banana              | --L1-C0          | 1 1
        b C-g                         | [no read: no entry] | :-??-?-(no read) | 1 1 | Quit
        a M-x 'acl-insert RET 'ALLOW SPC 'bob SPC 'rt RET | banana | --L1-C0       | 1 1
        b                             | banana              | --L1-C2          | 1 3 | Quit
    ";
    scripts_show(&rt, rt.alloc(), SHARED, others)
}

const SHARED: &str = "user ann\n\
    user bob\n\
    buffer notes ann\n\
    entry notes ALLOW OWNER@ rwatdcCo\n\
    entry notes ALLOW bob rt\n\
    text notes 'banana\n";
