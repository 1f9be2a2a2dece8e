// What is told of changes, and which lines an audit prints.
use crate::calls::{add, birth, remove, replace, set, set_text, text};
use crate::desk::{Dial, again, begin, last_lines, lines};
use mgs_journal::Journal;
use mgs_ledger::Filter;
use std::alloc::Global;
use std::test::Fail;

// Ann makes a buffer, and changes each of its rights, and nobody kills it. Says whether the change was taken.
fn change<J: Journal>(desk: &mut J) -> Result<bool, Fail> {
    add(desk, "notes", "ann", "staff", "ALLOW OWNER@ rw;DENY bob w")?;
    let is_set = set(desk, "notes", "bob", "-", "ALLOW OWNER@ r")?;
    remove(desk, "-")?;
    Ok(is_set)
}

#[test]
fn a_change_is_told_with_what_was_before(rt: HostRuntime) -> Result<(), Fail> {
    let dial = Dial::new();
    let mut desk = begin(rt.alloc(), &dial)?;
    assert!(rt; change(&mut desk)?);
    let text = last_lines(rt.alloc(), desk)?;
    assert_eq!(rt;
        text.as_str(),
        "2026-11-29T01:22:33Z\t1\tann\tcreate\tnotes\tann:staff ALLOW OWNER@ rw; DENY bob w\n\
         2026-11-29T01:22:33Z\t2\tann\tlist\tnotes\t1: ALLOW OWNER@ rw; DENY bob w -> ALLOW OWNER@ r\n\
         2026-11-29T01:22:33Z\t3\tann\towner\tnotes\tann -> bob\n\
         2026-11-29T01:22:33Z\t4\tann\tgroup\tnotes\tstaff -> \n\
         2026-11-29T01:22:33Z\t5\t\tkill\tnotes\t\n"
    );
    Ok(())
}

// Ann makes a buffer, and gives it the rights that it has. Says whether that was taken.
fn change_nothing<J: Journal>(desk: &mut J) -> Result<bool, Fail> {
    add(desk, "notes", "ann", "-", "ALLOW OWNER@ rw")?;
    set(desk, "notes", "ann", "-", "ALLOW OWNER@ rw")
}

#[test]
fn what_is_as_it_was_is_not_told(rt: HostRuntime) -> Result<(), Fail> {
    let dial = Dial::new();
    let mut desk = begin(rt.alloc(), &dial)?;
    assert!(rt; change_nothing(&mut desk)?);
    let text = last_lines(rt.alloc(), desk)?;
    assert_eq!(rt;
        text.as_str(),
        "2026-11-29T01:22:33Z\t1\tann\tcreate\tnotes\tann: ALLOW OWNER@ rw\n"
    );
    Ok(())
}

// Ann makes a buffer, nobody kills it, and a second later she makes another.
fn make_two<J: Journal>(desk: &mut J, dial: &Dial) -> Result<(), Fail> {
    add(desk, "notes", "ann", "-", "ALLOW OWNER@ rw")?;
    remove(desk, "-")?;
    dial.pass_second();
    add(desk, "todo", "ann", "-", "ALLOW OWNER@ rw")
}

#[test]
fn an_audit_prints_what_is_asked_for(rt: HostRuntime) -> Result<(), Fail> {
    let dial = Dial::new();
    let mut desk = begin(rt.alloc(), &dial)?;
    make_two(&mut desk, &dial)?;
    let mut conn = desk.close()?;
    let nobodys = Filter {
        user: Some(""),
        buffer: None,
        since: None,
    };
    assert_eq!(rt;
        lines(rt.alloc(), &mut conn, &nobodys)?.as_str(),
        "2026-11-29T01:22:33Z\t2\t\tkill\tnotes\t\n"
    );
    let later = Filter {
        user: Some("ann"),
        buffer: Some("todo"),
        since: Some(1_795_915_354),
    };
    assert_eq!(rt;
        lines(rt.alloc(), &mut conn, &later)?.as_str(),
        "2026-11-29T01:22:34Z\t3\tann\tcreate\ttodo\tann: ALLOW OWNER@ rw\n"
    );
    Ok(())
}

// Ann makes a buffer with a text, and a user, a group and a buffer that are called `-` take part in one change: it is killed, and another
// one comes in its place. Says whether the new one has no text, and its birth number.
fn replace_all<J: Journal>(alloc: Global, desk: &mut J) -> Result<bool, Fail> {
    add(desk, "-", "ann", "-", "ALLOW OWNER@ rw")?;
    set_text(desk, alloc, 0, "secret", true, 1)?;
    replace(desk, "-", "-", "bob", "-")?;
    Ok(text(alloc, desk, 0)?.as_str() == "-" && birth(desk) == 7)
}

#[test]
fn a_kill_and_a_create_in_one_change_are_told_apart(rt: HostRuntime) -> Result<(), Fail> {
    let dial = Dial::new();
    let mut desk = begin(rt.alloc(), &dial)?;
    assert!(rt; replace_all(rt.alloc(), &mut desk)?);
    let desk = again(rt.alloc(), &dial, desk)?;
    assert!(rt; text(rt.alloc(), &desk, 0)?.as_str() == "-" && birth(&desk) == 0);
    let text = last_lines(rt.alloc(), desk)?;
    assert_eq!(rt;
        text.as_str(),
        "2026-11-29T01:22:33Z\t1\tann\tcreate\t-\tann: ALLOW OWNER@ rw\n\
         2026-11-29T01:22:33Z\t2\t-\tkill\t-\t\n\
         2026-11-29T01:22:33Z\t3\t-\tcreate\t-\tann: ALLOW EVERYONE@ rw\n\
         2026-11-29T01:22:33Z\t4\t-\tlist\t-\t1: ALLOW EVERYONE@ rw -> ALLOW OWNER@ r\n\
         2026-11-29T01:22:33Z\t5\t-\towner\t-\tann -> bob\n\
         2026-11-29T01:22:33Z\t6\t-\tgroup\t-\t -> -\n"
    );
    Ok(())
}
