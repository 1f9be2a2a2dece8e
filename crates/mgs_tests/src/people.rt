// Names and lists of the tests on buffers.
use mgs_acl::{List, read_entry};
use mgs_model::Name;
use std::process::Abort;

pub(crate) fn named(rt: &impl Abort, text: &str) -> Name {
    match Name::read(text) {
        Some(name) => name,
        None => panic!(rt; "{text} is no name"),
    }
}

// A list with one entry more, as its first.
pub(crate) fn with_entry(rt: &impl Abort, mut list: List, text: &str) -> List {
    match read_entry(text) {
        Ok(entry) => assert!(rt; list.insert(0, entry).is_ok()),
        Err(_) => panic!(rt; "{text} is refused"),
    }
    list
}

// A list of this entry.
pub(crate) fn list_of(rt: &impl Abort, text: &str) -> List {
    with_entry(rt, List::new(), text)
}
