// What is counted of events of one second.
use crate::calls::{add, come, come_in_rounds, deny, name, tell, tick};
use crate::desk::{Dial, begin, last_lines};
use mgs_journal::{Journal, Told};
use mgs_model::{Decision, Right};
use mgs_wire::Refusal;
use std::alloc::Global;
use std::test::Fail;

// Tells of equal denials, between some that differ in one part, and of two equal ones that no entry decides.
fn deny_all_kinds<J: Journal>(desk: &mut J) -> Result<(), Fail> {
    deny(desk, "bob", 2, Right::ReadData, 300)?;
    deny(desk, "cat", 2, Right::ReadData, 1)?;
    deny(desk, "bob", 3, Right::ReadData, 1)?;
    deny(desk, "bob", 2, Right::WriteData, 2)?;
    deny(desk, "bob", 2, Right::ReadData, 12)?;
    let missing = Told::Denied(
        name("bob")?,
        name("notes")?,
        Decision::NotGranted {
            bit: Right::ReadData,
        },
    );
    tell(desk, missing)?;
    tell(desk, missing)?;
    let other = Told::Denied(
        name("bob")?,
        name("plan")?,
        Decision::NotGranted {
            bit: Right::ReadData,
        },
    );
    tell(desk, other)
}

#[test]
fn equal_denials_are_one_event_with_a_count(rt: HostRuntime) -> Result<(), Fail> {
    let dial = Dial::new();
    let mut desk = begin(rt.alloc(), &dial)?;
    deny_all_kinds(&mut desk)?;
    let text = "2026-11-29T01:22:33Z\t1\tbob\tdenied\tnotes\tREAD_DATA entry 2 x 312\n\
         2026-11-29T01:22:33Z\t2\tcat\tdenied\tnotes\tREAD_DATA entry 2\n\
         2026-11-29T01:22:33Z\t3\tbob\tdenied\tnotes\tREAD_DATA entry 3\n\
         2026-11-29T01:22:33Z\t4\tbob\tdenied\tnotes\tWRITE_DATA entry 2 x 2\n\
         2026-11-29T01:22:33Z\t5\tbob\tdenied\tnotes\tREAD_DATA no entry x 2\n\
         2026-11-29T01:22:33Z\t6\tbob\tdenied\tplan\tREAD_DATA no entry\n";
    assert_eq!(rt; last_lines(rt.alloc(), desk)?.as_str(), text);
    Ok(())
}

// Tells of logins that are refused, each cause twice, and of some that are not equal.
fn refuse_all_kinds<J: Journal>(desk: &mut J) -> Result<(), Fail> {
    let bob = name("bob")?;
    for told in [
        Told::RefusedUnnamed(Refusal::Line),
        Told::Refused(bob, Refusal::NoUser),
        Told::Refused(bob, Refusal::Ticket),
        Told::Refused(bob, Refusal::Size),
        Told::Refused(bob, Refusal::Full),
        Told::Refused(bob, Refusal::Short),
    ] {
        tell(desk, told)?;
        tell(desk, told)?;
    }
    tell(desk, Told::RefusedUnnamed(Refusal::Size))?;
    tell(desk, Told::Refused(name("cat")?, Refusal::Size))
}

#[test]
fn equal_refused_logins_are_one_event_with_a_count(rt: HostRuntime) -> Result<(), Fail> {
    let dial = Dial::new();
    let mut desk = begin(rt.alloc(), &dial)?;
    refuse_all_kinds(&mut desk)?;
    let text = "2026-11-29T01:22:33Z\t1\t\trefused\t\tno login line x 2\n\
         2026-11-29T01:22:33Z\t2\tbob\trefused\t\tno user x 2\n\
         2026-11-29T01:22:33Z\t3\tbob\trefused\t\tticket x 2\n\
         2026-11-29T01:22:33Z\t4\tbob\trefused\t\tsize x 2\n\
         2026-11-29T01:22:33Z\t5\tbob\trefused\t\tfull x 2\n\
         2026-11-29T01:22:33Z\t6\tbob\trefused\t\tno memory x 2\n\
         2026-11-29T01:22:33Z\t7\t\trefused\t\tsize\n\
         2026-11-29T01:22:33Z\t8\tcat\trefused\t\tsize\n";
    assert_eq!(rt; last_lines(rt.alloc(), desk)?.as_str(), text);
    Ok(())
}

// Tells of a denial, and then of bob's logins past the limit of rows a second. Equal denials go on being counted, others are beyond it. Cat
// has rows of her own, and so has nobody.
fn pass_the_limit<J: Journal>(desk: &mut J) -> Result<(), Fail> {
    deny(desk, "bob", 1, Right::ReadData, 1)?;
    come(desk, 18)?;
    tell(desk, Told::Quit(name("bob")?))?;
    come(desk, 6)?;
    deny(desk, "bob", 1, Right::ReadData, 3)?;
    deny(desk, "bob", 2, Right::ReadData, 4)?;
    tell(desk, Told::Came(name("cat")?))?;
    tell(desk, Told::RefusedUnnamed(Refusal::Line))
}

#[test]
fn past_twenty_rows_a_second_one_event_counts_the_rest(rt: HostRuntime) -> Result<(), Fail> {
    let dial = Dial::new();
    let mut desk = begin(rt.alloc(), &dial)?;
    pass_the_limit(&mut desk)?;
    let text = last_lines(rt.alloc(), desk)?;
    assert!(rt;
        text.as_str().starts_with(
            "2026-11-29T01:22:33Z\t1\tbob\tdenied\tnotes\tREAD_DATA entry 1 x 4\n"
        )
    );
    assert!(rt;
        text.as_str().ends_with(
            "2026-11-29T01:22:33Z\t19\tbob\tlogin\t\t\n\
         2026-11-29T01:22:33Z\t20\tbob\tend\t\tquit\n\
         2026-11-29T01:22:33Z\t21\tbob\tmore\t\t10 events\n\
         2026-11-29T01:22:33Z\t22\tcat\tlogin\t\t\n\
         2026-11-29T01:22:33Z\t23\t\trefused\t\tno login line\n",
        )
    );
    Ok(())
}

// Tells of logins and equal denials in two seconds.
fn pass_a_second<J: Journal>(desk: &mut J, dial: &Dial) -> Result<(), Fail> {
    deny(desk, "bob", 1, Right::ReadData, 2)?;
    come(desk, 20)?;
    dial.pass_second();
    deny(desk, "bob", 1, Right::ReadData, 3)?;
    come(desk, 19)
}

#[test]
fn the_next_second_has_rows_of_its_own(rt: HostRuntime) -> Result<(), Fail> {
    let dial = Dial::new();
    let mut desk = begin(rt.alloc(), &dial)?;
    pass_a_second(&mut desk, &dial)?;
    let text = last_lines(rt.alloc(), desk)?;
    assert!(rt;
        text.as_str().starts_with(
            "2026-11-29T01:22:33Z\t1\tbob\tdenied\tnotes\tREAD_DATA entry 1 x 2\n"
        )
    );
    let next = "2026-11-29T01:22:33Z\t21\tbob\tmore\t\t1 events\n\
         2026-11-29T01:22:34Z\t22\tbob\tdenied\tnotes\tREAD_DATA entry 1 x 3\n\
         2026-11-29T01:22:34Z\t23\tbob\tlogin\t\t\n";
    assert!(rt; text.as_str().contains(next));
    assert!(rt;
        text.as_str()
            .ends_with("2026-11-29T01:22:34Z\t41\tbob\tlogin\t\t\n")
    );
    Ok(())
}

// Tells of logins and equal denials before and after a change, in one second.
fn commit_in_a_second<J: Journal>(desk: &mut J) -> Result<(), Fail> {
    deny(desk, "bob", 1, Right::ReadData, 2)?;
    come(desk, 14)?;
    add(desk, "notes", "ann", "-", "ALLOW OWNER@ rw")?;
    deny(desk, "bob", 1, Right::ReadData, 3)?;
    come(desk, 6)
}

#[test]
fn a_commit_does_not_begin_the_rows_of_a_second_again(rt: HostRuntime) -> Result<(), Fail> {
    let dial = Dial::new();
    let mut desk = begin(rt.alloc(), &dial)?;
    commit_in_a_second(&mut desk)?;
    let text = last_lines(rt.alloc(), desk)?;
    assert!(rt;
        text.as_str().ends_with(
            "2026-11-29T01:22:33Z\t16\tann\tcreate\tnotes\tann: ALLOW OWNER@ rw\n\
         2026-11-29T01:22:33Z\t17\tbob\tdenied\tnotes\tREAD_DATA entry 1 x 3\n\
         2026-11-29T01:22:33Z\t18\tbob\tlogin\t\t\n\
         2026-11-29T01:22:33Z\t19\tbob\tlogin\t\t\n\
         2026-11-29T01:22:33Z\t20\tbob\tlogin\t\t\n\
         2026-11-29T01:22:33Z\t21\tbob\tlogin\t\t\n\
         2026-11-29T01:22:33Z\t22\tbob\tmore\t\t2 events\n",
        )
    );
    Ok(())
}

// How many lines are written for 64 users, each of whom came 30 times in a second, and once for each of 40 more.
fn fill_a_second<J: Journal>(desk: &mut J, dial: &Dial, alloc: Global) -> Result<(u64, u64), Fail> {
    come_in_rounds(desk, alloc, 64, 30)?;
    dial.pass_second();
    tick(desk)?;
    let many = dial.line_count();
    come_in_rounds(desk, alloc, 40, 1)?;
    dial.pass_second();
    tick(desk)?;
    Ok((many, dial.line_count()))
}

#[test]
fn each_of_64_users_has_21_rows_a_second(rt: HostRuntime) -> Result<(), Fail> {
    let dial = Dial::new();
    let mut desk = begin(rt.alloc(), &dial)?;
    assert!(rt; fill_a_second(&mut desk, &dial, rt.alloc())? == (1344, 1384));
    Ok(())
}

// How many lines are written for 300 users, each of whom came once in a second: the last 44 have the row alone that counts the rest.
fn fill_the_tally<J: Journal>(desk: &mut J, dial: &Dial, alloc: Global) -> Result<u64, Fail> {
    come_in_rounds(desk, alloc, 300, 2)?;
    dial.pass_second();
    tick(desk)?;
    Ok(dial.line_count())
}

#[test]
fn users_past_the_tally_are_counted_too(rt: HostRuntime) -> Result<(), Fail> {
    let dial = Dial::new();
    let mut desk = begin(rt.alloc(), &dial)?;
    assert!(rt; fill_the_tally(&mut desk, &dial, rt.alloc())? == 600);
    let text = last_lines(rt.alloc(), desk)?;
    assert!(rt; text.as_str().ends_with("\tu299\tmore\t\t1 events\n"));
    Ok(())
}
