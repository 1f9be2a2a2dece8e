// How events tell that a list changed, and how a start reads them.
use crate::calls::{add, kept, set};
use crate::desk::{Dial, again, begin, last_lines, resume, tables};
use mgs_journal::Journal;
use mgs_tables::{EventRow, RightsRow, RowChange};
use sqlite::{Connection, MemStore};
use std::alloc::Global;
use std::test::Fail;

// The lists that a buffer has, one after another: an entry is replaced, inserted, deleted, added, doubled and deleted again, all are
// exchanged, none is left, one comes, and it stays.
const LISTS: [&str; 10] = [
    "ALLOW OWNER@ rw;DENY cat r;ALLOW EVERYONE@ r",
    "ALLOW OWNER@ rw;DENY cat r;ALLOW bob r;ALLOW EVERYONE@ r",
    "DENY cat r;ALLOW bob r;ALLOW EVERYONE@ r",
    "DENY cat r;ALLOW bob r;ALLOW EVERYONE@ r;DENY GROUP@ w",
    "DENY cat r;ALLOW bob r;ALLOW bob r;ALLOW EVERYONE@ r;DENY GROUP@ w",
    "DENY cat r;ALLOW bob r;ALLOW EVERYONE@ r;DENY GROUP@ w",
    "ALLOW group:staff rw;ALLOW ann rwatdcCo",
    "",
    "ALLOW bob r",
    "ALLOW bob r",
];

// Gives a buffer all of these lists, and says what is kept.
fn give_all<J: Journal>(alloc: Global, desk: &mut J) -> Result<String, Fail> {
    add(
        desk,
        "notes",
        "ann",
        "-",
        "ALLOW OWNER@ rw;DENY bob r;ALLOW EVERYONE@ r",
    )?;
    for entries in &LISTS {
        if !set(desk, "notes", "ann", "-", entries)? {
            return Err(Fail::new("not set"));
        }
    }
    kept(alloc, desk)
}

#[test]
fn an_event_of_a_list_names_the_entries_that_differ(rt: HostRuntime) -> Result<(), Fail> {
    let dial = Dial::new();
    let mut desk = begin(rt.alloc(), &dial)?;
    let before = give_all(rt.alloc(), &mut desk)?;
    let desk = again(rt.alloc(), &dial, desk)?;
    let after = kept(rt.alloc(), &desk)?;
    assert!(rt;
        before.as_str() == "notes ann - ALLOW bob r;/" && before.as_str() == after.as_str()
    );
    let text = last_lines(rt.alloc(), desk)?;
    assert_eq!(rt;
        text.as_str(),
        "2026-11-29T01:22:33Z\t1\tann\tcreate\tnotes\tann: ALLOW OWNER@ rw; DENY bob r; ALLOW EVERYONE@ r\n\
         2026-11-29T01:22:33Z\t2\tann\tlist\tnotes\t2: DENY bob r -> DENY cat r\n\
         2026-11-29T01:22:33Z\t3\tann\tlist\tnotes\t3: - -> ALLOW bob r\n\
         2026-11-29T01:22:33Z\t4\tann\tlist\tnotes\t1: ALLOW OWNER@ rw -> -\n\
         2026-11-29T01:22:33Z\t5\tann\tlist\tnotes\t4: - -> DENY GROUP@ w\n\
         2026-11-29T01:22:33Z\t6\tann\tlist\tnotes\t3: - -> ALLOW bob r\n\
         2026-11-29T01:22:33Z\t7\tann\tlist\tnotes\t3: ALLOW bob r -> -\n\
         2026-11-29T01:22:33Z\t8\tann\tlist\tnotes\t1: DENY cat r; ALLOW bob r; ALLOW EVERYONE@ r; DENY GROUP@ w -> ALLOW group:staff rw; ALLOW ann rwatdcCo\n\
         2026-11-29T01:22:33Z\t9\tann\tlist\tnotes\t1: ALLOW group:staff rw; ALLOW ann rwatdcCo -> -\n\
         2026-11-29T01:22:33Z\t10\tann\tlist\tnotes\t1: - -> ALLOW bob r\n"
    );
    Ok(())
}

// Entries for the users of these numbers.
fn entries_of(alloc: Global, first: u32, end: u32) -> Result<String, Fail> {
    let mut text = String::new(alloc);
    for i in first..end {
        if i > first {
            text.push(';')?;
        }
        write!(text, "ALLOW u{i} r")?;
    }
    Ok(text)
}

// Makes a buffer with 64 entries, and takes its first out, puts it back and takes the last out. Says what is kept.
fn change_64<J: Journal>(alloc: Global, desk: &mut J) -> Result<String, Fail> {
    let all = entries_of(alloc, 0, 64)?;
    add(desk, "notes", "ann", "-", all.as_str())?;
    let is_set = set(
        desk,
        "notes",
        "ann",
        "-",
        entries_of(alloc, 1, 64)?.as_str(),
    )? && set(desk, "notes", "ann", "-", all.as_str())?
        && set(
            desk,
            "notes",
            "ann",
            "-",
            entries_of(alloc, 0, 63)?.as_str(),
        )?;
    if !is_set {
        return Err(Fail::new("not set"));
    }
    kept(alloc, desk)
}

#[test]
fn a_list_of_64_entries_comes_back(rt: HostRuntime) -> Result<(), Fail> {
    let dial = Dial::new();
    let mut desk = begin(rt.alloc(), &dial)?;
    let before = change_64(rt.alloc(), &mut desk)?;
    let desk = again(rt.alloc(), &dial, desk)?;
    let after = kept(rt.alloc(), &desk)?;
    assert!(rt; before.as_str() == after.as_str());
    let text = last_lines(rt.alloc(), desk)?;
    assert!(rt;
        text.as_str().ends_with(
            "\t2\tann\tlist\tnotes\t1: ALLOW u0 r -> -\n\
         2026-11-29T01:22:33Z\t3\tann\tlist\tnotes\t1: - -> ALLOW u0 r\n\
         2026-11-29T01:22:33Z\t4\tann\tlist\tnotes\t64: ALLOW u63 r -> -\n",
        )
    );
    Ok(())
}

// Puts a row with these entries into the tables. Its events say that ann made it with the list `ALLOW bob r`, and that the list changed so.
fn insert(conn: &mut Connection<MemStore>, entries: &str, change: &str) -> Result<(), Fail> {
    let rights = RightsRow {
        name: "notes",
        owner: "ann",
        owning_group: "",
        entries,
    };
    let made = EventRow {
        at: 0,
        user: "ann",
        what: "create",
        buffer: "notes",
        detail: "ann: ALLOW bob r",
    };
    let changed = EventRow {
        at: 0,
        user: "ann",
        what: "list",
        buffer: "notes",
        detail: change,
    };
    mgs_tables::put_changes(conn, &[RowChange::Add(rights)], &[made, changed])?;
    Ok(())
}

// What a start says of such tables.
fn fault_of(alloc: Global, entries: &str, change: &str) -> Result<String, Fail> {
    let dial = Dial::new();
    let mut conn = tables(alloc)?;
    insert(&mut conn, entries, change)?;
    match resume(alloc, conn, &dial) {
        Ok(_) => Ok(String::new(alloc)),
        Err(fault) => Ok(format!(in alloc; "{fault}")?),
    }
}

#[test]
fn a_start_reads_both_forms_of_an_event_of_a_list(rt: HostRuntime) -> Result<(), Fail> {
    for &(entries, change) in &[
        ("ALLOW cat r\n", "ALLOW bob r -> ALLOW cat r"),
        ("ALLOW cat r\n", "1: ALLOW bob r -> ALLOW cat r"),
        ("ALLOW bob r\nALLOW cat r\n", "2: - -> ALLOW cat r"),
        (
            "ALLOW cat r\nALLOW dan w\nALLOW bob r\n",
            "1: - -> ALLOW cat r; ALLOW dan w",
        ),
        ("", "1: ALLOW bob r -> -"),
        ("", "ALLOW bob r -> -"),
    ] {
        let fault = fault_of(rt.alloc(), entries, change)?;
        assert_eq!(rt; fault.as_str(), "");
    }
    Ok(())
}

#[test]
fn an_event_of_a_list_that_does_not_fit_is_refused(rt: HostRuntime) -> Result<(), Fail> {
    for change in &[
        "1: ALLOW dan r -> ALLOW cat r",
        "2: ALLOW bob r -> ALLOW cat r",
        "3: - -> ALLOW cat r",
        "0: - -> ALLOW cat r",
        "1 - -> ALLOW cat r",
        "1: ALLOW bob r; ALLOW cat r -> -",
        "ALLOW dan r -> ALLOW cat r",
    ] {
        let fault = fault_of(rt.alloc(), "ALLOW cat r\n", change)?;
        assert_eq!(rt;
            fault.as_str(),
            "event 2: does not follow from those before it"
        );
    }
    let fault = fault_of(rt.alloc(), "ALLOW cat r\n", "1: - -> ALLOW cat r")?;
    assert_eq!(rt; fault.as_str(), "buffer notes: not as its events say");
    Ok(())
}
