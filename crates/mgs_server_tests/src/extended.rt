// Commands that are run by their names (M-x), each step with what the terminal then shows.
use super::steps::scripts_show;
use std::test::Fail;

const TWO: &str = "user ann\n\
    buffer notes ann\n\
    entry notes ALLOW OWNER@ rwatdcCo\n\
    text notes 'abcd RET 'efg\n\
    open a ann 6 60\n";

#[test]
fn commands_are_run_by_name(rt: HostRuntime) -> Result<(), Fail> {
    let shared = "
        == a command of a name takes the argument
        a M-x                            | abcd/efg | --L1-C0 | 6 5 | M-x
        a 'forward-char                  | abcd/efg | --L1-C0 | 6 17 | M-x forward-char
        a RET                            | abcd/efg | --L1-C1 | 1 2
        a C-u '3 M-x 'backward-char RET  | abcd/efg | --L1-C0 | 1 1
        a C-u '3 M-x 'forward-char RET   | abcd/efg | --L1-C3 | 1 4
        a M-2 M-x 'newline RET           | abc//d/efg | **L3-C0 | 3 1
        == kills by name are not joined
        # A question is a command, so a kill behind it begins anew.
        a M-x 'kill-line RET | /efg     | **L1-C0 | 1 1
        a M-x 'kill-line RET | efg      | **L1-C0 | 1 1
        a C-y                | /efg     | **L2-C0 | 2 1
        a C-k C-y C-y        | /efgefg  | **L2-C6 | 2 7
        == names of commands are completed
        a M-x 'forw TAB      | abcd/efg | --L1-C0 | 6 13 | M-x forward-
        a 'c TAB             | abcd/efg | --L1-C0 | 6 17 | M-x forward-char
        a TAB RET            | abcd/efg | --L1-C1 | 1 2
        a M-x 'shr TAB       | abcd/efg | --L1-C1 | 6 18 | M-x shrink-window
        a C-g                | abcd/efg | --L1-C1 | 1 2  | Quit
        a M-x 'z TAB         | abcd/efg | --L1-C1 | 1 2  | No match
        a 'z                 | abcd/efg | --L1-C1 | 6 7  | M-x zz
        a RET                | abcd/efg | --L1-C1 | 1 2  | No such command
        a M-x RET            | abcd/efg | --L1-C1 | 1 2  | No such command
        a C-u M-x 'forward RET | abcd/efg | --L1-C1 | 1 2 | No such command
        a C-f                | abcd/efg | --L1-C2 | 1 3
        == a command of a name asks in its turn
        a M-x 'switch-to-buffer RET   | abcd/efg | --L1-C0       | 6 19 | Switch to buffer:
        a 'new RET                    |          | :----new-L1-C0 | 1 1
        a 'hi M-x 'kill-buffer RET RET |         | :-None        | 1 1
        a M-x 'forward-char RET       |          | :-None        | 1 1 | No buffer
        a M-x 'save-buffer RET        |          | :-None        | 1 1 | No buffer
        a M-x 'keyboard-quit RET      |          | :-None        | 1 1 | Quit
    ";
    scripts_show(&rt, rt.alloc(), TWO, shared)?;
    let others = "
        == a window is made smaller
        # No word of keys makes a window smaller.
        user ann
        buffer notes ann
        entry notes ALLOW OWNER@ rwatdcCo
        open a ann 8 20
        keys a C-x '2 M-x 'shrink-window RET
        show a
        screen a
        |                    |
        |                    |
        !----notes-L1-C0-----!
        |                    |
        |                    |
        |                    |
        !----notes-L1-C0-----!
        |                    |
        cursor 1 1
        == a session ends by name
        user ann
        open a ann 6 20
        keys a M-x 'save-buffers-kill-emacs RET 'x
        show a
        ended a Quit
    ";
    scripts_show(&rt, rt.alloc(), "", others)
}
