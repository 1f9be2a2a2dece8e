// What comes back of rights.
use crate::calls::{add, kept, remove, set};
use crate::desk::{Desk, Dial, again, begin, resume, tables};
use mgs_journal::Journal;
use mgs_tables::{EventRow, RightsRow, RowChange};
use sqlite::{Connection, MemStore};
use std::alloc::Global;
use std::test::Fail;

// What a ledger keeps that goes on with the tables of this one.
fn kept_again(alloc: Global, dial: &Dial, desk: Desk<'_>) -> Result<String, Fail> {
    kept(alloc, &again(alloc, dial, desk)?)
}

// Puts a row into the tables. Its event says that ann owns the buffer, with the group `staff` and the list `ALLOW bob r`.
fn insert(
    conn: &mut Connection<MemStore>,
    owner: &str,
    owning_group: &str,
    entries: &str,
) -> Result<(), Fail> {
    let rights = RightsRow {
        name: "notes",
        owner,
        owning_group,
        entries,
    };
    let event = EventRow {
        at: 0,
        user: "ann",
        what: "create",
        buffer: "notes",
        detail: "ann:staff ALLOW bob r",
    };
    mgs_tables::put_changes(conn, &[RowChange::Add(rights)], &[event])?;
    Ok(())
}

// What is said of tables with this row.
fn fault_of(alloc: Global, owner: &str, owning_group: &str, entries: &str) -> Result<String, Fail> {
    let dial = Dial::new();
    let mut conn = tables(alloc)?;
    insert(&mut conn, owner, owning_group, entries)?;
    match resume(alloc, conn, &dial) {
        Ok(_) => Ok(String::new(alloc)),
        Err(fault) => Ok(format!(in alloc; "{fault}")?),
    }
}

// Adds buffers with entries of all kinds, and says what is kept.
fn add_all_kinds<J: Journal>(alloc: Global, desk: &mut J) -> Result<String, Fail> {
    add(
        desk,
        "notes",
        "ann",
        "staff",
        "ALLOW OWNER@ rwatdcCo;DENY GROUP@ w;ALLOW EVERYONE@ r;DENY bob C;ALLOW group:staff rw",
    )?;
    add(desk, "*scratch*", "bob", "-", "ALLOW OWNER@ rw")?;
    kept(alloc, desk)
}

#[test]
fn rights_of_all_kinds_come_back(rt: HostRuntime) -> Result<(), Fail> {
    let dial = Dial::new();
    let mut desk = begin(rt.alloc(), &dial)?;
    let before = add_all_kinds(rt.alloc(), &mut desk)?;
    let after = kept_again(rt.alloc(), &dial, desk)?;
    assert_eq!(rt;
        after.as_str(),
        "notes ann staff ALLOW OWNER@ rwatdcCo;DENY GROUP@ w;ALLOW EVERYONE@ r;DENY bob C;\
         ALLOW group:staff rw;/*scratch* bob - ALLOW OWNER@ rw;/"
    );
    assert!(rt; before.as_str() == after.as_str());
    Ok(())
}

// Sets the rights of one of two buffers, and says what is kept. Then nobody kills it.
fn set_and_kill<J: Journal>(alloc: Global, desk: &mut J) -> Result<String, Fail> {
    add(desk, "notes", "ann", "staff", "ALLOW EVERYONE@ r")?;
    add(desk, "todo", "ann", "-", "ALLOW OWNER@ rw")?;
    if !set(desk, "notes", "bob", "-", "DENY ann r")? {
        return Err(Fail::new("not set"));
    }
    let after = kept(alloc, desk)?;
    remove(desk, "-")?;
    Ok(after)
}

#[test]
fn what_was_set_and_killed_stays_so(rt: HostRuntime) -> Result<(), Fail> {
    let dial = Dial::new();
    let mut desk = begin(rt.alloc(), &dial)?;
    let before = set_and_kill(rt.alloc(), &mut desk)?;
    let after = kept_again(rt.alloc(), &dial, desk)?;
    assert_eq!(rt;
        before.as_str(),
        "notes bob - DENY ann r;/todo ann - ALLOW OWNER@ rw;/"
    );
    assert_eq!(rt; after.as_str(), "todo ann - ALLOW OWNER@ rw;/");
    Ok(())
}

// Whether rights that are set under another name are refused.
fn refuses_another_name<J: Journal>(desk: &mut J) -> Result<bool, Fail> {
    add(desk, "notes", "ann", "-", "ALLOW OWNER@ rw")?;
    Ok(!set(desk, "todo", "bob", "-", "ALLOW OWNER@ r")?)
}

#[test]
fn rights_of_another_name_change_nothing(rt: HostRuntime) -> Result<(), Fail> {
    let dial = Dial::new();
    let mut desk = begin(rt.alloc(), &dial)?;
    assert!(rt; refuses_another_name(&mut desk)?);
    let after = kept_again(rt.alloc(), &dial, desk)?;
    assert_eq!(rt; after.as_str(), "notes ann - ALLOW OWNER@ rw;/");
    Ok(())
}

#[test]
fn a_row_that_is_no_rights_is_refused_by_name(rt: HostRuntime) -> Result<(), Fail> {
    for &(owner, owning_group, entries) in &[
        ("ann", "", "ALOW bob r\n"),
        ("ann", "", "ALLOW bob r"),
        ("ann", "", "ALLOW bob r\n\n"),
        ("Ann", "", "ALLOW bob r\n"),
        ("ann", "@", "ALLOW bob r\n"),
    ] {
        let fault = fault_of(rt.alloc(), owner, owning_group, entries)?;
        assert_eq!(rt; fault.as_str(), "buffer notes: not as it was kept");
    }
    let fault = fault_of(rt.alloc(), "ann", "staff", "ALLOW bob r\n")?;
    assert_eq!(rt; fault.as_str(), "");
    let fault = fault_of(rt.alloc(), "ann", "", "ALLOW bob r\n")?;
    assert_eq!(rt; fault.as_str(), "buffer notes: not as its events say");
    Ok(())
}
