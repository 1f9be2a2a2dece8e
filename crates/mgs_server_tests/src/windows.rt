// Windows of a session: how they share its rows, and what they show.
use super::replay::{NOTES, plays};
use super::steps::scripts_show;
use std::alloc::{AllocError, Global};
use std::test::Fail;

// Heights of windows on an empty text, and the row of the cursor.
#[test]
fn rows_are_shared(rt: HostRuntime) -> Result<(), Fail> {
    let scripts = "
        == four rows are split into two and one
        open a ann 6 60
        a C-x '2        | 2 1 | = | 1 1
        a C-x '2        | 2 1 | = | 1 1 | Window too small
        a C-x 'o C-x '2 | 2 1 | = | 4 1 | Window too small
        a C-x '1        | 4   | = | 1 1
        == three rows are split into one and one
        open a ann 10 60
        a C-x '2 C-x '2 | 2 1 3   | = | 1 1
        a C-x 'p C-x '2 | 2 1 1 1 | = | 6 1
        == windows are selected in a circle
        open a ann 10 60
        a C-x 'o C-x 'n C-x 'p | 8     | = | 1 1
        a C-x '2 C-x '2        | 2 1 3 | = | 1 1
        a C-x 'o               | 2 1 3 | = | 4 1
        a C-x 'n               | 2 1 3 | = | 6 1
        a C-x 'o               | 2 1 3 | = | 1 1
        a C-x 'p               | 2 1 3 | = | 6 1
        a C-x 'p               | 2 1 3 | = | 4 1
        a C-u '2 C-x 'p        | 2 1 3 | = | 1 1
        == rows of a deleted window go to the one above
        open a ann 10 60
        a C-x '0               | 8     | = | 1 1 | Only one window
        a C-x '2 C-x '2 C-x 'o | 2 1 3 | = | 4 1
        a C-x '0               | 4 3   | = | 1 1
        a C-x 'o               | 4 3   | = | 6 1
        a C-x '0               | 8     | = | 1 1
        a C-x '0               | 8     | = | 1 1 | Only one window
        == rows of the first window go to the one below
        open a ann 10 60
        a C-x '2 C-x '2 C-x '0 | 4 3 | = | 1 1
        a C-x '0               | 8   | = | 1 1
        == other windows are deleted
        open a ann 10 60
        a C-x '1                      | 8 | = | 1 1
        a C-x '2 C-x '2 C-x 'o C-x '1 | 8 | = | 1 1
        == rows are given by the window below or above
        open a ann 10 60
        a C-x '^               | 8     | = | 1 1 | Only one window
        a C-u '0 C-x '^        | 8     | = | 1 1 | Only one window
        a C-x '2 C-x '2 C-x '^ | 2 1 3 | = | 1 1 | Impossible change
        a C-u '0 C-x '^        | 2 1 3 | = | 1 1
        a C-x 'p C-x '^        | 2 1 3 | = | 6 1 | Impossible change
        a C-x 'p C-x '^        | 2 2 2 | = | 4 1
        a C-u '2 C-x '^        | 2 2 2 | = | 4 1 | Impossible change
        a C-u '9999 C-x '^     | 2 2 2 | = | 4 1 | Impossible change
        a C-x 'o C-x '^        | 2 1 3 | = | 6 1
        a C-x '1               | 8     | = | 1 1
        == eight windows are the most
        # Where there are eight, one that is too small says so first.
        open a ann 24 60
        a C-x '2 C-x '2 C-x '2               | 2 2 5 10        | = | 1 1
        a C-x 'n C-x 'n C-x '2               | 2 2 2 2 10      | = | 7 1
        a C-x 'n C-x 'n C-x '2 C-x '2        | 2 2 2 2 2 2 4   | = | 13 1
        a C-x 'p C-x 'n C-x 'n C-x 'n C-x '2 | 2 2 2 2 2 2 2 1 | = | 19 1
        a C-x 'p C-x '^                      | 2 2 2 2 2 3 1 1 | = | 16 1
        a C-x '2                             | 2 2 2 2 2 3 1 1 | = | 16 1 | Too many windows
        a C-x 'n C-x '2                      | 2 2 2 2 2 3 1 1 | = | 20 1 | Window too small
        a C-x '1                             | 22              | = | 1 1
    ";
    scripts_show(&rt, rt.alloc(), NOTES, scripts)
}

#[test]
fn windows_follow_their_points(rt: HostRuntime) -> Result<(), Fail> {
    let shared = "
        == split windows begin at the same point
        # Both windows of a split show the same text at the same point, and each then settles and goes by itself.
        text notes 'a RET 'b RET 'c RET 'd RET 'e
        open a ann 6 20
        keys a C-u '6 C-f C-x '2
        show a
        screen a
        |c                   |
        |d                   |
        !----notes-L4-C0-----!
        |d                   |
        !----notes-L4-C0-----!
        |                    |
        cursor 2 1
        keys a C-b C-b
        show a
        screen a
        |c                   |
        |d                   |
        !----notes-L3-C0-----!
        |d                   |
        !----notes-L4-C0-----!
        |                    |
        cursor 1 1
        == the selected window alone is shifted
        text notes 'xxxxxxxxxxxxxxxxxxxxxxxxxxxxxxxxxxxxxxxx
        open a ann 6 20
        keys a C-u '19 C-f C-x '2
        show a
        screen a
        |$xxxxxxxxxxxxxxxxxx$|
        |                    |
        !----notes-L1-C19----!
        |xxxxxxxxxxxxxxxxxxx$|
        !----notes-L1-C19----!
        |                    |
        cursor 1 11
        keys a C-x 'o
        show a
        screen a
        |xxxxxxxxxxxxxxxxxxx$|
        |                    |
        !----notes-L1-C19----!
        |$xxxxxxxxxxxxxxxxxx$|
        !----notes-L1-C19----!
        |                    |
        cursor 4 11
    ";
    scripts_show(&rt, rt.alloc(), NOTES, shared)?;
    let others = "
        == points of windows follow edits
        # Two windows of one session on one text: points that another's edit and an edit in the other window move.
        user ann
        user bob
        buffer notes ann
        entry notes ALLOW EVERYONE@ rwat
        text notes 'abc
        open a ann 6 20
        open b bob 6 20
        keys a C-x '2 C-f C-f C-f C-x 'o C-f
        keys b 'xy
        show a
        screen a
        |xyabc               |
        |                    |
        !-**-notes-L1-C5-----!
        |xyabc               |
        !-**-notes-L1-C3-----!
        |                    |
        cursor 4 4
        keys a 'q
        show a
        screen a
        |xyaqbc              |
        |                    |
        !-**-notes-L1-C6-----!
        |xyaqbc              |
        !-**-notes-L1-C4-----!
        |                    |
        cursor 4 5
        show b
        screen b
        |xyaqbc              |
        |                    |
        |                    |
        |                    |
        !-**-notes-L1-C2-----!
        |                    |
        cursor 1 3
        == points at an insertion stay
        # One who may not read adds at the text's end: no point that stands there moves.
        user ann
        user bob
        buffer notes ann
        entry notes ALLOW ann rwat
        entry notes ALLOW bob at
        text notes 'abc
        open a ann 6 20
        open b bob 6 20
        keys a C-x '2 C-f C-f C-f C-x 'o C-f
        keys b 'x C-x '2
        show a
        screen a
        |abcx                |
        |                    |
        !-**-notes-L1-C3-----!
        |abcx                |
        !-**-notes-L1-C1-----!
        |                    |
        cursor 4 2
        show b
        screen b
        |[no read: no entry] |
        |                    |
        !-**-notes-(no read)-!
        |[no read: no entry] |
        !-**-notes-(no read)-!
        |                    |
        cursor 1 1
        == windows without a buffer are split
        # A window without a buffer is split into two such windows, and denials come in the selected window.
        user ann
        buffer notes ann
        open a ann 6 20
        keys a C-x '2 C-x 'o 'x
        show a
        screen a
        |                    |
        |                    |
        !-None---------------!
        |                    |
        !-None---------------!
        |No buffer           |
        cursor 4 1
    ";
    scripts_show(&rt, rt.alloc(), "", others)
}

const ENDED: &str = "refused more 3 Full\n\
    ended s0 Quit\n\
    ended s1 Quit\n\
    ended s2 Closed\n\
    screen last\n\
    |xxxxxxxxxxxxxxxxxxx$|\n\
    |                    |\n\
    |                    |\n\
    |                    |\n\
    !-**-notes-L1-C0-----!\n\
    |                    |\n\
    cursor 1 1\n";

// A session with two windows.
fn push_opened(lines: &mut String, n: usize) -> Result<(), AllocError> {
    writeln!(lines, "open s{n} ann 6 20\nkeys s{n} C-x '2")
}

// The end of a session, by a byte or a close.
fn push_ended(lines: &mut String, n: usize) -> Result<(), AllocError> {
    match n % 3 {
        0 => writeln!(lines, "keys s{n} 'x C-x C-c"),
        1 => writeln!(lines, "keys s{n} C-x '0 C-x '2 C-x C-c"),
        _ => writeln!(lines, "close s{n}"),
    }
}

fn push_sessions(lines: &mut String) -> Result<(), AllocError> {
    for i in 0..64usize {
        push_opened(lines, i)?;
    }
    lines.push_str("open more ann 6 20\n")?;
    for i in 0..64usize {
        push_ended(lines, i * 27 % 64)?;
    }
    lines.push_str("show s0\nshow s1\nshow s2\nopen last ann 6 20\nshow last\n")
}

fn sessions(alloc: Global) -> Result<String, AllocError> {
    let mut lines = String::new(alloc);
    push_sessions(&mut lines)?;
    Ok(lines)
}

// Sessions with two windows end in another order than they opened, by a byte or a close.
#[test]
fn sessions_end_in_any_order(rt: HostRuntime) -> Result<(), Fail> {
    let lines = sessions(rt.alloc())?;
    plays(
        &rt,
        rt.alloc(),
        "64 sessions",
        lines.as_str(),
        ENDED,
        Ok(()),
    )
}
