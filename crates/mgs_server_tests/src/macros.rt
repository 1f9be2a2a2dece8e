// Keyboard macros: what is recorded and played, and what stops it.
use super::steps::{scripts_show, text_of};
use std::test::Fail;

const NOTES: &str = "user ann\n\
    buffer notes ann\n\
    entry notes ALLOW OWNER@ rwatdcCo\n\
    open a ann 6 60\n";

#[test]
fn macros_are_recorded_and_played(rt: HostRuntime) -> Result<(), Fail> {
    let shared = "
        == a macro is recorded
        a C-x ')         |      | --L1-C0 | 1 1 | Not in macro
        a C-x '(         |      | --L1-C0 | 1 1
        a 'ab            | ab   | **L1-C2 | 1 3
        a C-x '(         | ab   | **L1-C2 | 1 3 | In macro
        a C-x ')         | ab   | **L1-C2 | 1 3
        a C-x ')         | ab   | **L1-C2 | 1 3 | Not in macro
        a C-x '( 'c C-g  | abc  | **L1-C3 | 1 4 | Quit
        a C-x ')         | abc  | **L1-C3 | 1 4 | Not in macro
        a C-x '( C-x 'b C-g | abc | **L1-C3 | 1 4 | Quit
        a C-x ') 'd      | abcd | **L1-C4 | 1 5
        == a macro is played
        a C-x 'e              |            | --L1-C0  | 1 1 | No macro
        a C-x '( 'ab C-x ')   | ab         | **L1-C2  | 1 3
        a C-x 'e              | abab       | **L1-C4  | 1 5
        a C-u '3 C-x 'e       | ababababab | **L1-C10 | 1 11
        a C-u '0 C-x 'e       | ababababab | **L1-C10 | 1 11
        a C-u '101 C-x 'e     | ababababab | **L1-C10 | 1 11 | Too many
        a C-x '( C-x 'e       | ababababab | **L1-C10 | 1 11 | In macro
        a C-x ') C-x 'e       | ababababab | **L1-C10 | 1 11 | In macro
        a C-x '( 'y C-u '3 C-x ') | abababababy | **L1-C11 | 1 12
        a C-x 'e 'z           | abababababyyzzz | **L1-C15 | 1 16
        == a failure ends a play
        # The first failure ends the play, and what was done stays.
        a C-x '( C-f 'x C-x ')   | x    | **L1-C1 | 1 2
        a C-x 'e                 | x    | **L1-C1 | 1 2 | End of buffer
        a C-a C-x 'e             | xx   | **L1-C2 | 1 3
        a C-a C-u '3 C-x 'e      | xxxx | **L1-C4 | 1 5 | End of buffer
        a C-a C-u '9 C-x 'e      | xxxxxxxx | **L1-C8 | 1 9 | End of buffer
        a C-x '( 'y C-x C-s C-x ') | xxxxxxxxy | **L1-C9 | 1 10
        a C-x 'e                 | xxxxxxxxyy | **L1-C10 | 1 11 | In macro
    ";
    scripts_show(&rt, rt.alloc(), NOTES, shared)?;
    let others = "
        == a macro revokes its own right
        # Each act is judged in the world that the acts before it left: a macro may take its own right away.
        user ann
        buffer notes ann
        entry notes ALLOW OWNER@ rwatdcCo
        entry notes ALLOW OWNER@ rwatdcCo
        open a ann 6 60
        a C-x '( 'x M-x 'acl-delete RET 'y C-x ') | xy | **L1-C2 | 1 3
        a C-u '9 C-x 'e | [no read: no entry] | :-??-?-(no read) | 1 1 | Denied: no entry grants APPEND_DATA
        a C-x 'e        | [no read: no entry] | :-??-?-(no read) | 1 1 | Denied: no entry grants APPEND_DATA
    ";
    scripts_show(&rt, rt.alloc(), "", others)
}

const RECORDED: &str = "== a macro has 512 bytes\na C-x '(";

const SHOWN: &str = " 'x     | x  | **L1-C1 | 1 2
        a 'y            | x  | **L1-C1 | 1 2 | Macro too long
        a 'z            | xz | **L1-C2 | 1 3
        a C-x ')        | xz | **L1-C2 | 1 3 | Not in macro
    ";

// The byte that is one too many is not handled, and the recording is over.
#[test]
fn a_macro_has_512_bytes(rt: HostRuntime) -> Result<(), Fail> {
    let steps = text_of(rt.alloc(), &[(RECORDED, 1), (" C-a", 511), (SHOWN, 1)])?;
    scripts_show(&rt, rt.alloc(), NOTES, steps.as_str())
}
