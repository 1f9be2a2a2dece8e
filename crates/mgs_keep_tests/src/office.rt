// Those who sit at the terminals of a server, and what they press.
use crate::book::Book;
use mgs_acl::{List, read_entry};
use mgs_journal::Journal;
use mgs_keep::Kept;
use mgs_marks::PlainMarked;
use mgs_model::{Keyed, SessionId};
use mgs_policy::Directory;
use mgs_store::{RefusingStore, Store};
use mgs_wire::Sessions;
use std::alloc::Global;
use std::process::Abort;

/// A server with a journal of tests.
pub(crate) type Server = Kept<PlainMarked, RefusingStore, Book>;

/// An access list of these entries.
pub(crate) fn list_of(entries: &[&str], rt: &impl Abort) -> List {
    let mut list = List::new();
    for entry in entries {
        match read_entry(entry) {
            Ok(entry) => assert!(rt; list.insert(list.len(), entry).is_ok()),
            Err(_) => panic!(rt; "no entry"),
        }
    }
    list
}

/// Ann and bob.
pub(crate) fn users(alloc: Global, rt: &impl Abort) -> Directory {
    let mut directory = Directory::new(alloc);
    for &user in &["ann", "bob"] {
        assert!(rt; directory.add_user(user).is_ok());
    }
    directory
}

/// Opens a session of a user.
pub(crate) fn sit<S: Store + Drop, J: Journal + Drop>(
    server: &mut Kept<PlainMarked, S, J>,
    user: &str,
    rt: &impl Abort,
) -> SessionId {
    match server.open(user, 6, 20) {
        Ok(id) => id,
        Err(_) => panic!(rt; "not opened"),
    }
}

/// Presses keys until one is not done.
pub(crate) fn press<S: Store + Drop, J: Journal + Drop>(
    server: &mut Kept<PlainMarked, S, J>,
    id: SessionId,
    keys: &[u8],
) -> Keyed {
    for key in keys {
        let answer = server.byte(id, *key);
        if answer != Keyed::Done {
            return answer;
        }
    }
    Keyed::Done
}
