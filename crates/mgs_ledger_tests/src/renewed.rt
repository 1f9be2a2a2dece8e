// A ledger that goes on in the tables of another file.
use crate::calls::{add, is_taken, kept, name, remove, set, set_text, text};
use crate::desk::{Desk, Dial, again, all_lines, begin, last_lines, tables};
use mgs_journal::Journal;
use mgs_ledger::{Ledger, LedgerFault};
use mgs_model::Name;
use sqlite::{Alter, Connection, MemStore};
use std::alloc::Global;
use std::io::Write;
use std::test::Fail;
use std::time::Clock;

// Makes a buffer, with a text, and another one, which ann kills.
fn fill<J: Journal>(alloc: Global, desk: &mut J) -> Result<(), Fail> {
    add(desk, "plan", "ann", "-", "ALLOW ann rw")?;
    remove(desk, "ann")?;
    add(desk, "notes", "ann", "staff", "ALLOW ann rw;DENY bob r")?;
    set_text(desk, alloc, 0, "two words", true, 7)
}

// A ledger over any tables goes on, since a call over those of the tests is dear to prove.
fn renew_over<S: Alter + Drop, C: Clock + Drop, W: Write + Drop>(
    desk: &mut Ledger<S, C, W>,
    conn: Connection<S>,
    taken: &[Name],
) -> Result<Option<Connection<S>>, LedgerFault> {
    desk.renew(conn, 2, taken)
}

// Goes on in fresh tables, in which the names of both buffers are taken. Returns the tables before.
fn renew(alloc: Global, desk: &mut Desk<'_>) -> Result<Connection<MemStore>, Fail> {
    let taken = [name("plan")?, name("notes")?];
    match renew_over(desk, tables(alloc)?, &taken)? {
        Some(before) => Ok(before),
        None => Err(Fail::new("not filled")),
    }
}

// What is kept, the text of the first buffer, and whether both names are taken.
fn state<J: Journal>(alloc: Global, desk: &J) -> Result<String, Fail> {
    let rights = kept(alloc, desk)?;
    let words = text(alloc, desk, 0)?;
    let plan = is_taken(desk, "plan")?;
    let notes = is_taken(desk, "notes")?;
    Ok(format!(in alloc; "{rights} {words} {plan} {notes}")?)
}

// The old tables keep their events. The fresh ones begin with the next number, and have rights, texts and taken names.
#[test]
fn a_ledger_goes_on_in_fresh_tables(rt: HostRuntime) -> Result<(), Fail> {
    let dial = Dial::new();
    let mut desk = begin(rt.alloc(), &dial)?;
    fill(rt.alloc(), &mut desk)?;
    let mut before = renew(rt.alloc(), &mut desk)?;
    assert!(rt;
        set(
            &mut desk,
            "notes",
            "bob",
            "staff",
            "ALLOW ann rw;DENY bob r"
        )?
    );
    let old = all_lines(rt.alloc(), &mut before)?;
    assert!(rt; old.ends_with("\t3\tann\tcreate\tnotes\tann:staff ALLOW ann rw; DENY bob r\n"));
    let desk = again(rt.alloc(), &dial, desk)?;
    assert_eq!(rt;
        state(rt.alloc(), &desk)?.as_str(),
        "notes bob staff ALLOW ann rw;DENY bob r;/ true 7 two words true true"
    );
    let new = last_lines(rt.alloc(), desk)?;
    assert_eq!(rt;
        new.as_str(),
        "2026-11-29T01:22:33Z\t4\t\tfile\t\t2\n\
         2026-11-29T01:22:33Z\t5\t\tis\tnotes\tann:staff ALLOW ann rw; DENY bob r\n\
         2026-11-29T01:22:33Z\t6\t\ttaken\tplan\t\n\
         2026-11-29T01:22:33Z\t7\t\ttaken\tnotes\t\n\
         2026-11-29T01:22:33Z\t8\tann\towner\tnotes\tann -> bob\n"
    );
    Ok(())
}
