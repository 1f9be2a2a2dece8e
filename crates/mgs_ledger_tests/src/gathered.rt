// When what is gathered is committed.
use crate::calls::{add, come, come_in_rounds, name, set_text, tell, tick};
use crate::desk::{Dial, audit_sum, begin, last_lines};
use mgs_journal::{Journal, Told};
use mgs_model::{Decision, Right};
use std::alloc::Global;
use std::test::Fail;

// Tells that bob came, that he was denied two rights, and three ends.
fn tell_all<J: Journal>(desk: &mut J) -> Result<(), Fail> {
    let bob = name("bob")?;
    let denied = Decision::DeniedBy {
        entry: 2,
        bit: Right::ReadData,
    };
    let missing = Decision::NotGranted {
        bit: Right::WriteData,
    };
    tell(desk, Told::Came(bob))?;
    tell(desk, Told::Denied(bob, name("notes")?, denied))?;
    tell(desk, Told::Denied(bob, name("plan")?, missing))?;
    tell(desk, Told::Quit(bob))?;
    tell(desk, Told::Closed(bob))?;
    tell(desk, Told::FellBehind(bob))
}

#[test]
fn what_is_told_comes_before_the_next_change(rt: HostRuntime) -> Result<(), Fail> {
    let dial = Dial::new();
    let mut desk = begin(rt.alloc(), &dial)?;
    tell_all(&mut desk)?;
    assert_eq!(rt; dial.line_count(), 0);
    add(&mut desk, "notes", "ann", "-", "ALLOW OWNER@ rw")?;
    let text = "2026-11-29T01:22:33Z\t1\tbob\tlogin\t\t\n\
         2026-11-29T01:22:33Z\t2\tbob\tdenied\tnotes\tREAD_DATA entry 2\n\
         2026-11-29T01:22:33Z\t3\tbob\tdenied\tplan\tWRITE_DATA no entry\n\
         2026-11-29T01:22:33Z\t4\tbob\tend\t\tquit\n\
         2026-11-29T01:22:33Z\t5\tbob\tend\t\tclosed\n\
         2026-11-29T01:22:33Z\t6\tbob\tend\t\tslow\n\
         2026-11-29T01:22:33Z\t7\tann\tcreate\tnotes\tann: ALLOW OWNER@ rw\n";
    assert_eq!(rt; last_lines(rt.alloc(), desk)?.as_str(), text);
    Ok(())
}

// How many lines are written once 256 are gathered, and once there is one more.
fn gather_past_the_limit<J: Journal>(
    desk: &mut J,
    dial: &Dial,
    alloc: Global,
) -> Result<(u64, u64), Fail> {
    come_in_rounds(desk, alloc, 64, 4)?;
    let before = dial.line_count();
    come(desk, 1)?;
    Ok((before, dial.line_count()))
}

#[test]
fn what_is_gathered_is_committed_where_no_more_fits(rt: HostRuntime) -> Result<(), Fail> {
    let dial = Dial::new();
    let mut desk = begin(rt.alloc(), &dial)?;
    assert!(rt; gather_past_the_limit(&mut desk, &dial, rt.alloc())? == (0, 256));
    Ok(())
}

// How many lines are written at a tick at once, and at one a second later.
fn tick_twice<J: Journal>(desk: &mut J, dial: &Dial) -> Result<(u64, u64), Fail> {
    come(desk, 1)?;
    tick(desk)?;
    let before = dial.line_count();
    dial.pass_second();
    tick(desk)?;
    Ok((before, dial.line_count()))
}

#[test]
fn what_is_gathered_is_committed_a_second_later(rt: HostRuntime) -> Result<(), Fail> {
    let dial = Dial::new();
    let mut desk = begin(rt.alloc(), &dial)?;
    assert!(rt; tick_twice(&mut desk, &dial)? == (0, 1));
    Ok(())
}

// Prints events with a change, with a tick a second later, and with a text.
fn print_all_kinds<J: Journal>(desk: &mut J, dial: &Dial, alloc: Global) -> Result<(), Fail> {
    tell_all(desk)?;
    add(desk, "notes", "ann", "-", "ALLOW OWNER@ rw")?;
    tick_twice(desk, dial)?;
    come(desk, 1)?;
    set_text(desk, alloc, 0, "a", false, 0)
}

#[test]
fn a_ledger_prints_the_lines_of_an_audit(rt: HostRuntime) -> Result<(), Fail> {
    let dial = Dial::new();
    let mut desk = begin(rt.alloc(), &dial)?;
    print_all_kinds(&mut desk, &dial, rt.alloc())?;
    let sum = audit_sum(rt.alloc(), desk)?;
    assert!(rt; dial.line_count() == 9 && dial.sum() == sum);
    Ok(())
}
