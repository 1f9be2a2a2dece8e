// The list of all buffers in a window: it follows what others do, is scrolled, and leaves the text as it was.
use super::steps::scripts_show;
use std::test::Fail;

const BEFORE: &str = "user ann\n\
    user cat\n\
    buffer notes ann\n\
    entry notes ALLOW OWNER@ rwatdcCo\n\
    buffer secret cat\n\
    entry secret ALLOW OWNER@ rwatdcCo\n\
    open a ann 6 30\n\
    open b ann 6 30\n\
    keys a 'hi C-x C-b\n";

#[test]
fn the_list_of_buffers_is_shown(rt: HostRuntime) -> Result<(), Fail> {
    let scripts = "
        == the list of buffers is shown
        show a
        screen a
        |*       2 notes ann           |
        |                              |
        |                              |
        |                              |
        !-Buffers----------------------!
        |                              |
        cursor 1 1
        keys b 'x
        show a
        screen a
        |*       3 notes ann           |
        |                              |
        |                              |
        |                              |
        !-Buffers----------------------!
        |                              |
        cursor 1 1
        == the list of buffers is scrolled
        keys a C-v
        show a
        screen a
        |                              |
        |                              |
        |                              |
        |                              |
        !-Buffers----------------------!
        |                              |
        cursor 1 1
        keys a M-v
        show a
        screen a
        |*       2 notes ann           |
        |                              |
        |                              |
        |                              |
        !-Buffers----------------------!
        |                              |
        cursor 1 1
        == a text comes back at its point
        keys a C-f
        show a
        screen a
        |*       2 notes ann           |
        |                              |
        |                              |
        |                              |
        !-Buffers----------------------!
        |No buffer                     |
        cursor 1 1
        keys b 'x
        keys a C-x 'b 'notes RET
        show a
        screen a
        |xhi                           |
        |                              |
        |                              |
        |                              |
        !-**-notes-L1-C3---------------!
        |                              |
        cursor 1 4
    ";
    scripts_show(&rt, rt.alloc(), BEFORE, scripts)
}
