// Lines of a script.
use mgs_model::Name;
use mgs_script::{Line, LineFault, cut_line, read_line};
use std::alloc::Global;
use std::test::Fail;

// Whether this is the first line of a script, and what stands behind that.
fn is_cut(script: &[u8], line: &[u8], rest: Option<&[u8]>) -> bool {
    cut_line(script) == (line, rest)
}

#[test]
fn scripts_are_cut_at_the_first_line_feed(rt: HostRuntime) {
    assert!(rt; is_cut(b"user ann\n# end\n", b"user ann", Some(b"# end\n")));
    assert!(rt; is_cut(b"# end", b"# end", None));
}

// Whether a line is read so.
fn is_read(alloc: Global, line: &[u8], wanted: Line<'_>) -> bool {
    read_line(alloc, line) == Ok(wanted)
}

fn named(name: &str) -> Result<Name, Fail> {
    let name = Name::read(name).ok_or("no name")?;
    Ok(name)
}

// Whether a line says the group `staff` of two.
fn group_is_read(alloc: Global, line: &[u8]) -> Result<bool, Fail> {
    let members = vec![in alloc; "ann", "bob"]?;
    let name = "staff";
    Ok(is_read(alloc, line, Line::Group { name, members }))
}

#[test]
fn lines_before_the_first_open_are_read(rt: HostRuntime) -> Result<(), Fail> {
    let alloc = rt.alloc();
    assert!(rt; is_read(alloc, b"# any \xFF bytes", Line::Nothing));
    assert!(rt; is_read(alloc, b"", Line::Nothing));
    assert!(rt; is_read(alloc, b"user ann", Line::User { name: "ann" }));
    assert!(rt; group_is_read(alloc, b"group staff ann bob")?);
    let name = "notes";
    let owner = "ann";
    assert!(rt; is_read(alloc, b"buffer notes ann", Line::Buffer { name, owner }));
    let buffer = named("notes")?;
    let group = "staff";
    assert!(rt;
        is_read(
            alloc,
            b"owngroup notes staff",
            Line::OwnGroup { buffer, group }
        )
    );
    let entry = "ALLOW  EVERYONE@ rw";
    assert!(rt;
        is_read(
            alloc,
            b"entry notes ALLOW  EVERYONE@ rw",
            Line::Entry { buffer, entry }
        )
    );
    Ok(())
}

// Whether a line says these characters for the text `notes`.
fn text_is(alloc: Global, line: &[u8], characters: &[char]) -> Result<bool, Fail> {
    let buffer = named("notes")?;
    let text = Vec::from_slice(alloc, characters)?;
    Ok(is_read(alloc, line, Line::Text { buffer, text }))
}

// Whether a session of this label and this user opens on so many rows and columns.
fn opens(alloc: Global, label: &str, user: &str, rows: usize, cols: usize) -> Result<bool, Fail> {
    let line = format!(in alloc; "open {label} {user} {rows} {cols}")?;
    let label = named(label)?;
    let open = Line::Open {
        label,
        user,
        rows,
        cols,
    };
    Ok(is_read(alloc, line.as_bytes(), open))
}

// Whether a line says these bytes for a session.
fn keys_are(alloc: Global, line: &[u8], label: Name, bytes: &[u8]) -> Result<bool, Fail> {
    let keys = Vec::from_slice(alloc, bytes)?;
    Ok(is_read(alloc, line, Line::Keys { label, keys }))
}

#[test]
fn lines_of_texts_and_sessions_are_read(rt: HostRuntime) -> Result<(), Fail> {
    let alloc = rt.alloc();
    assert!(rt; text_is(alloc, b"text notes 'a RET TAB SPC", &['a', '\n', '\t', ' '])?);
    assert!(rt;
        text_is(
            alloc,
            b"text notes 'hi SPC RET ''",
            &['h', 'i', ' ', '\n', '\'']
        )?
    );
    for &(label, user, rows, cols) in &[
        ("*notes*", "Ann", 24, 80),
        ("a", "ann", 6, 20),
        ("a", "ann", 0, 20),
        ("a", "ann", 64, 160),
    ] {
        assert!(rt; opens(alloc, label, user, rows, cols)?, "{rows} {cols}");
    }
    let label = named("a")?;
    assert!(rt; keys_are(alloc, b"keys a C-x '2", label, &[0x18, 0x32])?);
    assert!(rt; is_read(alloc, b"show a", Line::Show { label }));
    assert!(rt; is_read(alloc, b"close a", Line::Close { label }));
    Ok(())
}

const OTHERS: &str = "open a ann 06 20\n\
    open a ann 020 20\n\
    open a ann 6 1000\n\
    open a ann 00 20\n\
    open a ann 6\n\
    open a  6 20\n\
    show  a\n\
    show a \n \nshow a\r\n\
    show\n\
    show a b\n\
    keys a\n\
    keys a \n\
    keys a Tab\n\
    text notes\n\
    text notes Tab\n\
    text notes '\n\
    text notes 'a  RET\n\
    buffer notes\n\
    user\n\
    entry notes\n\
    owngroup notes\n\
    owngroup\n\
    group\n\
    group all\n\
    groups all ann\n\
    frob x\n show a";

// Whether a line is refused.
fn is_bad(alloc: Global, line: &[u8]) -> bool {
    read_line(alloc, line) == Err(LineFault::Bad)
}

#[test]
fn other_lines_are_refused(rt: HostRuntime) {
    for line in OTHERS.split('\n') {
        assert!(rt; is_bad(rt.alloc(), line.as_bytes()), "{line}");
    }
    assert!(rt; is_bad(rt.alloc(), b"entry notes \xFF"));
}
