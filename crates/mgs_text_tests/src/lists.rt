// Access lists of no entry and of 64.
use crate::people::entry_of;
use mgs_acl::{List, ListFault};
use mgs_model::Entry;
use std::process::Abort;

// A list of 64: a write behind 63 reads.
fn full(rt: &impl Abort, read: &Entry, write: &Entry) -> List {
    let mut list = List::new();
    assert!(rt; list.insert(0, *write) == Ok(()));
    for _ in 1..64 {
        assert!(rt; list.insert(0, *read) == Ok(()));
    }
    assert!(rt; list.len() == 64);
    list
}

// Puts three entries into an empty list, before one another and behind.
fn put_in(rt: &impl Abort, list: &mut List, read: &Entry, write: &Entry) {
    assert!(rt; list.is_empty());
    assert!(rt; list.insert(1, *read) == Err(ListFault::NoSuchEntry));
    assert!(rt; list.delete(0) == Err(ListFault::NoSuchEntry));
    assert!(rt; list.replace(0, *read) == Err(ListFault::NoSuchEntry));
    assert!(rt; list.insert(0, *read) == Ok(()));
    assert!(rt; list.insert(0, *write) == Ok(()));
    assert!(rt; list.insert(2, *write) == Ok(()));
    assert!(rt; list.as_slice() == [*write, *read, *write].as_slice());
}

#[test]
fn entries_stand_where_they_are_put(rt: HostRuntime) {
    let read = entry_of(&rt, "ALLOW EVERYONE@ r");
    let write = entry_of(&rt, "DENY OWNER@ w");
    put_in(&rt, &mut List::new(), &read, &write);
}

// Tries to put one entry more into a full list, and to change and delete those behind its last.
fn refuse(rt: &impl Abort, list: &mut List, read: &Entry, write: &Entry) {
    assert!(rt; list.insert(0, *read) == Err(ListFault::Full));
    assert!(rt; list.insert(64, *write) == Err(ListFault::Full));
    assert!(rt; list.insert(65, *read) == Err(ListFault::NoSuchEntry));
    for &at in &[64, 65] {
        assert!(rt; list.replace(at, *write) == Err(ListFault::NoSuchEntry));
        assert!(rt; list.delete(at) == Err(ListFault::NoSuchEntry));
    }
}

// Whether a list is a copy of a full one, with this entry at its end.
fn is_copy(copy: &List, list: &List, last: &Entry) -> bool {
    copy.len() == 64 && copy.as_slice() == list.as_slice() && copy.as_slice().last() == Some(last)
}

#[test]
fn a_list_takes_64_entries(rt: HostRuntime) {
    let read = entry_of(&rt, "ALLOW EVERYONE@ r");
    let write = entry_of(&rt, "DENY OWNER@ w");
    let mut list = full(&rt, &read, &write);
    refuse(&rt, &mut list, &read, &write);
    assert!(rt; is_copy(&list.copy(), &list, &write));
}

// Whether a list begins with these entries.
fn begins_with(list: &List, entries: &[Entry]) -> bool {
    list.as_slice().get(..entries.len()) == Some(entries)
}

// Replaces the second entry of a full list, and deletes the first.
fn replace_and_delete(rt: &impl Abort, list: &mut List, read: &Entry, write: &Entry) {
    assert!(rt; list.replace(1, *write) == Ok(()));
    assert!(rt; list.len() == 64);
    assert!(rt; begins_with(list, &[*read, *write, *read]));
    assert!(rt; list.delete(0) == Ok(()));
    assert!(rt; list.len() == 63);
    assert!(rt; begins_with(list, &[*write, *read]));
}

#[test]
fn entries_of_64_are_replaced_and_deleted(rt: HostRuntime) {
    let read = entry_of(&rt, "ALLOW EVERYONE@ r");
    let write = entry_of(&rt, "DENY OWNER@ w");
    replace_and_delete(&rt, &mut full(&rt, &read, &write), &read, &write);
}
