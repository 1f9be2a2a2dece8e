// Buffers that are asked for by name, each step with what the terminal then shows.
use super::steps::scripts_show;
use std::test::Fail;

const THREE: &str = "user ann\n\
    user bob\n\
    user cat\n\
    buffer notes ann\n\
    entry notes ALLOW OWNER@ rwatdcCo\n\
    entry notes ALLOW bob rwat\n\
    buffer names ann\n\
    entry names ALLOW OWNER@ rwatdcCo\n\
    buffer secret cat\n\
    entry secret ALLOW OWNER@ rwatdcCo\n\
    text notes 'abc\n\
    open a ann 6 60\n";

#[test]
fn buffers_are_asked_for(rt: HostRuntime) -> Result<(), Fail> {
    let shared = "
        == names are completed
        a C-x 'b 'n TAB            | abc | --L1-C0 | 6 20 | Switch to buffer: n
        a 'o TAB                   | abc | --L1-C0 | 6 24 | Switch to buffer: notes
        a DEL DEL C-f ESC '[A M-x  | abc | --L1-C0 | 6 22 | Switch to buffer: not
        a C-g                      | abc | --L1-C0 | 1 1  | Quit
        a C-x 'b 's TAB            | abc | --L1-C0 | 1 1  | No match
        a TAB 'x                   | abc | --L1-C0 | 6 21 | Switch to buffer: sx
        a ESC C-g                  | abc | --L1-C0 | 1 1  | Quit
        a C-f                      | abc | --L1-C1 | 1 2
        == buffers are made and shown
        a C-f C-x 'b 'secret RET | abc | --L1-C1          | 1 2  | Denied: no entry grants READ_ATTRIBUTES
        a C-x C-f 'new           | abc | --L1-C1          | 6 15 | Find file: new
        a RET                    |     | :----new-L1-C0   | 1 1
        a 'hi                    | hi  | :-**-new-L1-C2   | 1 3
        a C-x 'b 'notes RET      | abc | --L1-C1          | 1 2
        a C-x 'b 'new RET        | hi  | :-**-new-L1-C2   | 1 3
        a C-x C-f 'a SPC 'b RET  | hi  | :-**-new-L1-C2   | 1 3  | Bad name
        a C-x 'b RET             | hi  | :-**-new-L1-C2   | 1 3  | Bad name
        open c cat 6 60
        c C-x 'b 'new RET        |     | :----secret-L1-C0 | 1 1 | Denied: no entry grants READ_ATTRIBUTES
        c C-x 'b 'other RET 'x   | x   | :-**-other-L1-C1 | 1 2
        == a kill goes into another buffer
        # What was killed in one text is yanked into another.
        a M-d                   |     | **L1-C0         | 1 1
        a C-x 'b 'mine RET C-y  | abc | :-**-mine-L1-C3 | 1 4
        a C-x 'b 'notes RET C-y | abc | **L1-C3         | 1 4
        == buffers are killed under others
        # A buffer goes under the windows of all who show it, and a later one of its name is another.
        open b bob 6 60
        b C-f                    | abc | --L1-C1        | 1 2
        a C-x 'k 'none RET       | abc | --L1-C0        | 1 1 | No such buffer
        a C-x 'k 'secret RET     | abc | --L1-C0        | 1 1 | Denied: no entry grants DELETE
        b C-x 'k RET             | abc | --L1-C1        | 1 2 | Denied: no entry grants DELETE
        b C-x 'b 'no             | abc | --L1-C1        | 6 21 | Switch to buffer: no
        a C-x 'k RET             |     | :-None         | 1 1
        b                        |     | :-None         | 6 21 | Switch to buffer: no
        b 't RET                 |     | :----not-L1-C0 | 1 1
        a C-f                    |     | :-None         | 1 1 | No buffer
        a C-x 'k RET             |     | :-None         | 1 1 | No buffer
        a C-x 'b 'notes RET 'z   | z   | **L1-C1        | 1 2
        b C-x 'b 'notes RET      |     | :----not-L1-C0 | 1 1 | Denied: no entry grants READ_ATTRIBUTES
    ";
    scripts_show(&rt, rt.alloc(), THREE, shared)?;
    let others = "
        == windows leave their places
        # A window that comes to a buffer stands where the last window left it, and not where another one stands in it.
        user ann
        buffer notes ann
        entry notes ALLOW OWNER@ rwatdcCo
        buffer names ann
        entry names ALLOW OWNER@ rwatdcCo
        text notes 'abc
        open a ann 6 20
        keys a C-x '2 C-x 'o C-f C-f C-x 'b 'names RET
        show a
        screen a
        |abc                 |
        |                    |
        !----notes-L1-C0-----!
        |                    |
        !----names-L1-C0-----!
        |                    |
        cursor 4 1
        keys a C-x 'b 'notes RET
        show a
        screen a
        |abc                 |
        |                    |
        !----notes-L1-C0-----!
        |abc                 |
        !----notes-L1-C2-----!
        |                    |
        cursor 4 3
        == the end of a long answer is shown
        # The end of a line that is too long is shown, with the cursor in the last column.
        user ann
        buffer notes ann
        entry notes ALLOW OWNER@ rwatdcCo
        open a ann 6 20
        keys a C-x 'b 'notes
        show a
        screen a
        |                    |
        |                    |
        |                    |
        |                    |
        !----notes-L1-C0-----!
        |$h to buffer: notes |
        cursor 6 20
    ";
    scripts_show(&rt, rt.alloc(), "", others)
}
