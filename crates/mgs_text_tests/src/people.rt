// Names, lists and the directory of the tests on rights.
use mgs_acl::{List, read_entry};
use mgs_model::{Entry, Name, Owners};
use mgs_policy::Directory;
use std::alloc::Global;
use std::process::Abort;

pub(crate) fn named(rt: &impl Abort, text: &str) -> Name {
    match Name::read(text) {
        Some(name) => name,
        None => panic!(rt; "{text} is no name"),
    }
}

pub(crate) fn entry_of(rt: &impl Abort, text: &str) -> Entry {
    match read_entry(text) {
        Ok(entry) => entry,
        Err(_) => panic!(rt; "{text} is refused"),
    }
}

// A user who owns a buffer, and a group that owns it, or none.
pub(crate) fn owned(owner: Name, group: Option<Name>) -> Owners {
    Owners { owner, group }
}

// A list of these entries, one in a line.
pub(crate) fn list_of(rt: &impl Abort, entries: &str) -> List {
    let mut list = List::new();
    for text in entries.lines() {
        assert!(rt; list.insert(list.len(), entry_of(rt, text)) == Ok(()));
    }
    list
}

// ann, bob and cat, of whom ann and bob are the staff, and none is of the crew.
pub(crate) fn staff(rt: &impl Abort, alloc: Global) -> Directory {
    let mut directory = Directory::new(alloc);
    for &name in &["ann", "bob", "cat"] {
        assert!(rt; directory.add_user(name) == Ok(()));
    }
    assert!(rt; directory.add_group("staff", &["ann", "bob"]) == Ok(()));
    assert!(rt; directory.add_group("crew", &[]) == Ok(()));
    directory
}
