// What is served at a start: what the journal keeps wins over the configuration.
use crate::book::Book;
use crate::office::{list_of, press, sit, users};
use mgs_buffers::{Buffers, Rights};
use mgs_keeper::start;
use mgs_marks::PlainMarked;
use mgs_model::{Name, Owners};
use mgs_store::RefusingStore;
use mgs_wire::Sessions;
use std::process::Abort;
use std::test::Fail;

const OWNERS_ENTRY: &str = "ALLOW OWNER@ rwatdcCo";

fn name_of(text: &str, rt: &impl Abort) -> Name {
    match Name::read(text) {
        Some(name) => name,
        None => panic!(rt; "no name"),
    }
}

// It keeps a buffer that is its owner's alone.
fn keep(
    book: &mut Book,
    buffer: &str,
    owner: &str,
    text: Option<&str>,
    rt: &impl Abort,
) -> Result<(), Fail> {
    let owners = Owners {
        owner: name_of(owner, rt),
        group: None,
    };
    let rights = Rights {
        name: &name_of(buffer, rt),
        owners: &owners,
        list: &list_of(&[OWNERS_ENTRY], rt),
    };
    book.keep(&rights, text)
}

// Whether these bytes stand somewhere among others.
fn has(all: &[u8], bytes: &[u8]) -> bool {
    for i in 0..all.len() {
        if all[i..].starts_with(bytes) {
            return true;
        }
    }
    false
}

// By the configuration bob may read `notes`, and by the journal no longer; `plan` is the journal's alone, with an unsaved text, `letters` the
// configuration's.
#[test]
fn what_was_revoked_stays_revoked(rt: HostRuntime) -> Result<(), Fail> {
    let alloc = rt.alloc();
    let mut book = Book::new(alloc, 100);
    keep(&mut book, "notes", "ann", None, &rt)?;
    keep(&mut book, "plan", "bob", Some("kept words"), &rt)?;
    let mut configured: Buffers<PlainMarked> = Buffers::new(alloc);
    let list = list_of(&[OWNERS_ENTRY, "ALLOW bob rt"], &rt);
    assert!(rt;
        configured
            .add("notes", "ann", None, list, &['n'], false)
            .is_ok()
    );
    let list = list_of(&[OWNERS_ENTRY], &rt);
    assert!(rt;
        configured
            .add("letters", "ann", None, list, &['l'], false)
            .is_ok()
    );
    let Ok(mut server) = start(
        alloc,
        users(alloc, &rt),
        &configured,
        RefusingStore::new(),
        book,
    ) else {
        panic!(rt; "not started");
    };
    let bob = sit(&mut server, "bob", &rt);
    press(&mut server, bob, b"\x18bnotes\r");
    press(&mut server, bob, b"\x18bplan\r");
    press(&mut server, bob, b"x");
    assert!(rt;
        server.journal().words()
            == "- makes letters\nbob comes \nbob is denied notes READ_ATTRIBUTES\n"
    );
    assert!(rt; !server.has_failed());
    assert!(rt; has(server.pending(bob), b"kept words"));
    Ok(())
}
