// Whole scripts, over readers and writers in memory.
use super::steps::{scripts_show, text_of};
use mgs_marks::PlainMarked;
use mgs_model::SCRIPT_LIMIT;
use mgs_replay::{ReplayFault, replay, replay_over};
use std::alloc::Global;
use std::io::{self, ErrorKind, Read, Write};
use std::process::Abort;
use std::test::Fail;

pub(crate) const NOTES: &str = "user ann\nbuffer notes ann\nentry notes ALLOW OWNER@ rwatdcCo\n";

// Whether a script gives this output and this end over the texts of the programs.
fn is_given(alloc: Global, script: &[u8], output: &str, end: Result<(), ReplayFault>) -> bool {
    let mut reader = script;
    let mut written = Vec::new(alloc);
    let outcome = replay(alloc, &mut reader, &mut written);
    outcome == end && written.as_slice() == output.as_bytes()
}

// Whether it gives them over plain texts.
fn is_given_plainly(
    alloc: Global,
    script: &[u8],
    output: &str,
    end: Result<(), ReplayFault>,
) -> bool {
    let mut reader = script;
    let mut written = Vec::new(alloc);
    let outcome = replay_over::<PlainMarked, _, _>(alloc, &mut reader, &mut written);
    outcome == end && written.as_slice() == output.as_bytes()
}

// A script gives this output and this end, over the texts of the programs and over plain ones. A message calls it by this name.
pub(crate) fn gives(
    rt: &impl Abort,
    alloc: Global,
    name: &str,
    script: &[u8],
    output: &str,
    end: Result<(), ReplayFault>,
) {
    assert!(rt; is_given(alloc, script, output, end), "{name}");
    assert!(rt;
        is_given_plainly(alloc, script, output, end),
        "{name}, over plain texts"
    );
}

// The same of lines after the user, the buffer and the entry of `NOTES`.
pub(crate) fn plays(
    rt: &impl Abort,
    alloc: Global,
    name: &str,
    lines: &str,
    output: &str,
    end: Result<(), ReplayFault>,
) -> Result<(), Fail> {
    let script = format!(in alloc; "{NOTES}{lines}")?;
    gives(rt, alloc, name, script.as_bytes(), output, end);
    Ok(())
}

#[test]
fn screens_are_printed(rt: HostRuntime) -> Result<(), Fail> {
    let scripts = "
        == the first screen is printed
        open a ann 6 20
        keys a 'hi
        show a
        screen a
        |hi                  |
        |                    |
        |                    |
        |                    |
        !-**-notes-L1-C2-----!
        |                    |
        cursor 1 3
        close a
        == screens follow the point
        open a ann 6 20
        keys a RET RET RET RET RET
        show a
        screen a
        |                    |
        |                    |
        |                    |
        |                    |
        !-**-notes-L6-C0-----!
        |                    |
        cursor 4 1
        == the point moves
        open a ann 6 20
        keys a 'hi C-f
        show a
        screen a
        |hi                  |
        |                    |
        |                    |
        |                    |
        !-**-notes-L1-C2-----!
        |End of buffer       |
        cursor 1 3
        keys a C-b
        show a
        screen a
        |hi                  |
        |                    |
        |                    |
        |                    |
        !-**-notes-L1-C1-----!
        |                    |
        cursor 1 2
        == C-c is not bound
        open a ann 6 60
        a C-c |  | --L1-C0 | 1 1 | Key not bound
        == C-h is not bound
        open a ann 6 60
        a C-h |  | --L1-C0 | 1 1 | Key not bound
        == C-z is not bound
        open a ann 6 60
        a C-z |  | --L1-C0 | 1 1 | Key not bound
        == C-x C-d is not bound
        open a ann 6 60
        a C-x C-d |  | --L1-C0 | 1 1 | Key not bound
        == C-x C-q is not bound
        open a ann 6 60
        a C-x C-q |  | --L1-C0 | 1 1 | Key not bound
        == C-x C-z is not bound
        open a ann 6 60
        a C-x C-z |  | --L1-C0 | 1 1 | Key not bound
        == M-a is not bound
        open a ann 6 60
        a M-a |  | --L1-C0 | 1 1 | Key not bound
        == M-z is not bound
        open a ann 6 60
        a M-z |  | --L1-C0 | 1 1 | Key not bound
        == arguments repeat and words are ended
        open a ann 6 20
        keys a C-u C-u 'x RET C-u '3 C-u 'y M-2 'z C-u '9 ESC C-g
        show a
        screen a
        |xxxxxxxxxxxxxxxx    |
        |yyyyyyyyyyyyzz      |
        |                    |
        |                    |
        !-**-notes-L2-C14----!
        |Quit                |
        cursor 2 15
        == a byte ends its session
        # Later bytes of the line, later keys and a close do nothing.
        open a ann 6 20
        keys a 'hi C-x C-c 'x
        show a
        ended a Quit
        keys a 'y
        close a
        show a
        ended a Quit
        open b ann 6 20
        show b
        screen b
        |hi                  |
        |                    |
        |                    |
        |                    |
        !-**-notes-L1-C0-----!
        |                    |
        cursor 1 1
        == a session that was closed stays closed
        open a ann 6 20
        close a
        keys a C-x C-c
        show a
        ended a Closed
        == sessions are closed
        open a ann 6 20
        close a
        show a
        ended a Closed
        keys a 'x
        close a
        show a
        ended a Closed
        == what one types the other sees
        text notes 'ab
        open a ann 6 20
        open b ann 6 20
        keys b C-f C-f
        keys a 'x
        show a
        screen a
        |xab                 |
        |                    |
        |                    |
        |                    |
        !-**-notes-L1-C1-----!
        |                    |
        cursor 1 2
        show b
        screen b
        |xab                 |
        |                    |
        |                    |
        |                    |
        !-**-notes-L1-C3-----!
        |                    |
        cursor 1 4
        == a tab reaches the next multiple of eight
        open a ann 6 20
        keys a TAB 'x
        show a
        screen a
        |        x           |
        |                    |
        |                    |
        |                    |
        !-**-notes-L1-C9-----!
        |                    |
        cursor 1 10
        == tabs insert themselves
        open a ann 6 20
        keys a TAB 'x C-i
        show a
        screen a
        |        x           |
        |                    |
        |                    |
        |                    |
        !-**-notes-L1-C16----!
        |                    |
        cursor 1 17
        == a long line is not shifted
        text notes 'xxxxxxxxxxxxxxxxxxxxxxxxxxxxxxxxxxxxxxxxxxxxxxxxxxxxxxxxxxxxxxxxxxxxxxxxxxxxxxxxxxxxxxxxxxxxxxxxxxxxxxxxxxxxxxxxxxxxxxxxxxxxxxxxxxxxxxxxxxxxxxxxxxxxxxxxxxxxxxxxxxxxxxxxxxxxxxxxxxxxxxxxxxxxxxxxxxxxxxxxxxxxxxxxxxxxxxxxxxxxxxxxxxxxxxxxxxxxxxxxxxxxxxxxxxxxxxxxxxxxxxxxxxxxxxxxxxxxxxxxxxxxxxxxxxxxxxxxxxxx
        open a ann 6 20
        keys a C-f C-f C-f C-f C-f C-f C-f C-f C-f C-f C-f C-f C-f C-f C-f C-f C-f C-f
        show a
        screen a
        |xxxxxxxxxxxxxxxxxxx$|
        |                    |
        |                    |
        |                    |
        !----notes-L1-C18----!
        |                    |
        cursor 1 19
        == a long line is shifted
        text notes 'xxxxxxxxxxxxxxxxxxxxxxxxxxxxxxxxxxxxxxxxxxxxxxxxxxxxxxxxxxxxxxxxxxxxxxxxxxxxxxxxxxxxxxxxxxxxxxxxxxxxxxxxxxxxxxxxxxxxxxxxxxxxxxxxxxxxxxxxxxxxxxxxxxxxxxxxxxxxxxxxxxxxxxxxxxxxxxxxxxxxxxxxxxxxxxxxxxxxxxxxxxxxxxxxxxxxxxxxxxxxxxxxxxxxxxxxxxxxxxxxxxxxxxxxxxxxxxxxxxxxxxxxxxxxxxxxxxxxxxxxxxxxxxxxxxxxxxxxxxxx
        open a ann 6 20
        keys a C-f C-f C-f C-f C-f C-f C-f C-f C-f C-f C-f C-f C-f C-f C-f C-f C-f C-f C-f
        show a
        screen a
        |$xxxxxxxxxxxxxxxxxx$|
        |                    |
        |                    |
        |                    |
        !----notes-L1-C19----!
        |                    |
        cursor 1 11
        == a long line is shown to its end
        text notes 'xxxxxxxxxxxxxxxxxxxxxxxxxxxxxxxxxxxxxxxxxxxxxxxxxxxxxxxxxxxxxxxxxxxxxxxxxxxxxxxxxxxxxxxxxxxxxxxxxxxxxxxxxxxxxxxxxxxxxxxxxxxxxxxxxxxxxxxxxxxxxxxxxxxxxxxxxxxxxxxxxxxxxxxxxxxxxxxxxxxxxxxxxxxxxxxxxxxxxxxxxxxxxxxxxxxxxxxxxxxxxxxxxxxxxxxxxxxxxxxxxxxxxxxxxxxxxxxxxxxxxxxxxxxxxxxxxxxxxxxxxxxxxxxxxxxxxxxxxxxx
        open a ann 6 20
        keys a C-u '299 C-f
        show a
        screen a
        |$xxxxxxxxxxx        |
        |                    |
        |                    |
        |                    |
        !----notes-L1-C299---!
        |                    |
        cursor 1 12
    ";
    scripts_show(&rt, rt.alloc(), NOTES, scripts)
}

#[test]
fn rights_are_told(rt: HostRuntime) -> Result<(), Fail> {
    let scripts = "
        == denials are shown
        user ann
        buffer notes ann
        entry notes ALLOW ann rt
        open a ann 6 20
        keys a 'x
        show a
        screen a
        |                    |
        |                    |
        |                    |
        |                    |
        !----notes-L1-C0-----!
        |Denied: no entry gr$|
        cursor 1 1
        == who may not read appends
        user ann
        user bob
        buffer notes ann
        entry notes ALLOW ann rwat
        entry notes ALLOW bob at
        text notes 'abc
        open a ann 6 20
        open b bob 6 20
        keys b 'x
        show a
        screen a
        |abcx                |
        |                    |
        |                    |
        |                    |
        !-**-notes-L1-C0-----!
        |                    |
        cursor 1 1
        show b
        screen b
        |[no read: no entry] |
        |                    |
        |                    |
        |                    |
        !-**-notes-(no read)-!
        |                    |
        cursor 1 1
        keys b C-f
        show b
        screen b
        |[no read: no entry] |
        |                    |
        |                    |
        |                    |
        !-**-notes-(no read)-!
        |Denied: no entry gr$|
        cursor 1 1
        show a
        screen a
        |abcx                |
        |                    |
        |                    |
        |                    |
        !-**-notes-L1-C0-----!
        |                    |
        cursor 1 1
        == the mask names its entry
        user ann
        user bob
        buffer notes ann
        entry notes DENY bob r
        entry notes ALLOW bob at
        text notes 'abc
        open b bob 6 20
        show b
        screen b
        |[no read: entry 1]  |
        |                    |
        |                    |
        |                    |
        !----notes-(no read)-!
        |                    |
        cursor 1 1
        keys b C-f
        show b
        screen b
        |[no read: entry 1]  |
        |                    |
        |                    |
        |                    |
        !----notes-(no read)-!
        |Denied: entry 1 den$|
        cursor 1 1
        == denials name their entry
        user ann
        user bob
        buffer notes ann
        entry notes DENY bob r
        entry notes ALLOW bob at
        open b bob 6 20
        keys b C-f
        show b
        screen b
        |[no read: entry 1]  |
        |                    |
        |                    |
        |                    |
        !----notes-(no read)-!
        |Denied: entry 1 den$|
        cursor 1 1
        == groups are granted
        user ann
        user bob
        user cat
        group staff ann bob
        buffer notes ann
        entry notes ALLOW group:staff rt
        text notes TAB 'abc
        open b bob 6 20
        open c cat 6 20
        show b
        screen b
        |        abc         |
        |                    |
        |                    |
        |                    |
        !----notes-L1-C0-----!
        |                    |
        cursor 1 1
        show c
        screen c
        |                    |
        |                    |
        |                    |
        |                    |
        !-None---------------!
        |                    |
        cursor 1 1
        == others have no buffer beside a group
        user ann
        user bob
        user cat
        group staff ann bob
        buffer notes ann
        entry notes ALLOW group:staff rt
        text notes 'abc
        open b bob 6 60
        open c cat 6 60
        b    | abc | --L1-C0 | 1 1
        c    |     | :-None  | 1 1
        c 'x |     | :-None  | 1 1 | No buffer
        b    | abc | --L1-C0 | 1 1
        == who may see nothing has no buffer
        user ann
        buffer notes ann
        open a ann 6 20
        keys a 'x
        show a
        screen a
        |                    |
        |                    |
        |                    |
        |                    |
        !-None---------------!
        |No buffer           |
        cursor 1 1
    ";
    scripts_show(&rt, rt.alloc(), "", scripts)
}

// A line is refused behind the ones before, as the line of this number, and what those print is printed.
fn is_refused(
    rt: &impl Abort,
    alloc: Global,
    before: &str,
    output: &str,
    number: usize,
    line: &str,
) -> Result<(), Fail> {
    let script = format!(in alloc; "{NOTES}{before}{line}")?;
    let end = Err(ReplayFault::Line(number));
    gives(rt, alloc, line, script.as_bytes(), output, end);
    Ok(())
}

// So is each of these lines.
fn are_refused(
    rt: &impl Abort,
    alloc: Global,
    before: &str,
    output: &str,
    number: usize,
    lines: &str,
) -> Result<(), Fail> {
    for line in lines.split('\n') {
        is_refused(rt, alloc, before, output, number, line)?;
    }
    Ok(())
}

const FIRST: &str = "user\n\
    user ann\n\
    user Ann\n\
    user bob cat\n\
    group all\n\
    group All ann\n\
    group all ann eve\n\
    group all ann \n\
    buffer notes ann\n\
    buffer more bob\n\
    buffer more ann ann\n\
    buffer more\n\
    entry more ALLOW ann r\n\
    entry notes ALLOW ann x\n\
    owngroup notes staff\n\
    owngroup notes ann\n\
    owngroup notes\n\
    text more 'a\n\
    text notes Tab\n\
    open a ann 06 20\n\
    open a ann 6\n\
    keys a 'x\n\
    show a\n\
    close a\n \nshow a\r";

const BEHIND_AN_OPEN: &str = "open a ann 6 20\n\
    keys a 'x\n\
    show a\n\
    close a\n\
    user bob\n\
    group all ann\n\
    buffer more ann\n\
    entry notes ALLOW ann r\n\
    owngroup notes staff\n\
    text notes 'a\n\
    keys b 'x";

#[test]
fn a_refused_line_ends_a_script(rt: HostRuntime) -> Result<(), Fail> {
    let alloc = rt.alloc();
    let script = b"user ann\nfrob\nopen a ann 6 20\n";
    gives(&rt, alloc, "frob", script, "", Err(ReplayFault::Line(2)));
    let opened = "open a ann 0 20\nopen b bob 6 20\n# a remark\n\n";
    let printed = "refused a 2 Size\nrefused b 1 NoUser\n";
    is_refused(&rt, alloc, opened, printed, 8, "frob\nshow a\n")?;
    for &(before, output, number, lines) in &[
        ("", "", 4, FIRST),
        (
            "open a bob 6 20\n",
            "refused a 1 NoUser\n",
            5,
            BEHIND_AN_OPEN,
        ),
        (
            "open a ann 6 20\nclose a\n",
            "",
            6,
            "keys a Tab\nopen a ann 6 20",
        ),
    ] {
        are_refused(&rt, alloc, before, output, number, lines)?;
    }
    Ok(())
}

// With the entry of `NOTES` these are 64, and the next one is refused.
fn are_full(rt: &impl Abort, alloc: Global, entries: &str) -> Result<(), Fail> {
    plays(rt, alloc, "64 entries", entries, "", Ok(()))?;
    is_refused(rt, alloc, entries, "", 67, "entry notes ALLOW ann r")
}

#[test]
fn lists_are_full_at_64_entries(rt: HostRuntime) -> Result<(), Fail> {
    let entries = text_of(rt.alloc(), &[("entry notes ALLOW ann r\n", 63)])?;
    are_full(&rt, rt.alloc(), entries.as_str())
}

// Has nothing to read, and takes all, which it cannot flush; or neither reads nor takes. The first read may fail so.
#[derive(Drop)]
struct Broken {
    takes: bool,
    first: Option<ErrorKind>,
}

impl Read for Broken {
    fn read(&mut self, _buf: &mut [u8]) -> io::Result<usize> {
        if let Some(fault) = self.first {
            self.first = None;
            return Err(io::Error::from(fault));
        }
        if self.takes {
            return Ok(0);
        }
        Err(io::Error::from(ErrorKind::Other))
    }
}

impl Write for Broken {
    fn write(&mut self, buf: &[u8]) -> io::Result<usize> {
        if self.takes {
            return Ok(buf.len());
        }
        Err(io::Error::from(ErrorKind::Other))
    }

    fn flush(&mut self) -> io::Result<()> {
        if self.takes {
            return Err(io::Error::from(ErrorKind::Other));
        }
        Ok(())
    }
}

// The end of a script for such a writer.
fn end_at(alloc: Global, script: &[u8], takes: bool) -> Result<(), ReplayFault> {
    let mut reader = script;
    let mut writer = Broken { takes, first: None };
    replay(alloc, &mut reader, &mut writer)
}

// The end of what is read after a read that fails so, or not at all.
fn read_end(alloc: Global, takes: bool, first: ErrorKind) -> Result<(), ReplayFault> {
    let mut written = Vec::new(alloc);
    let mut reader = Broken {
        takes,
        first: Some(first),
    };
    replay(alloc, &mut reader, &mut written)
}

#[test]
fn faults_of_readers_and_writers_are_told(rt: HostRuntime) {
    for &(takes, first, end) in &[
        (true, ErrorKind::Interrupted, Ok(())),
        (false, ErrorKind::Interrupted, Err(ReplayFault::Read)),
        (true, ErrorKind::WouldBlock, Err(ReplayFault::Read)),
    ] {
        assert!(rt; read_end(rt.alloc(), takes, first) == end);
    }
    assert!(rt; end_at(rt.alloc(), b"open a bob 6 20", false) == Err(ReplayFault::Write));
    assert!(rt; end_at(rt.alloc(), b"frob", true) == Err(ReplayFault::Write));
}

// A remark of so many bytes gives no output and this end.
fn remark_ends(
    rt: &impl Abort,
    alloc: Global,
    name: &str,
    length: usize,
    end: Result<(), ReplayFault>,
) -> Result<(), Fail> {
    let remark = vec![in alloc; b'#'; length]?;
    gives(rt, alloc, name, &remark, "", end);
    Ok(())
}

#[test]
fn long_scripts_are_not_read(rt: HostRuntime) -> Result<(), Fail> {
    let alloc = rt.alloc();
    remark_ends(
        &rt,
        alloc,
        "too long",
        SCRIPT_LIMIT + 1,
        Err(ReplayFault::Read),
    )?;
    remark_ends(&rt, alloc, "the longest", SCRIPT_LIMIT, Ok(()))
}
