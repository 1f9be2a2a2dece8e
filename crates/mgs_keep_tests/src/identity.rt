// A buffer that is killed and made again under its name is another buffer.
use crate::book::Book;
use crate::office::{Server, list_of, press, sit, users};
use mgs_buffers::Buffers;
use mgs_core::Core;
use mgs_engine::Engine;
use mgs_journal::Journal;
use mgs_keep::Kept;
use mgs_model::SessionId;
use mgs_store::RefusingStore;
use mgs_wire::{Served, Sessions};
use std::alloc::Global;
use std::process::Abort;

// The buffer `secret` of ann, with a file, which bob may delete and not read.
fn serve(alloc: Global, rt: &impl Abort) -> Server {
    let list = list_of(&["ALLOW ann rwatdcCo", "ALLOW bob td"], rt);
    let mut buffers = Buffers::new(alloc);
    assert!(rt;
        buffers
            .add("secret", "ann", None, list, &['s'], true)
            .is_ok()
    );
    let Ok(core) = Core::new(alloc, users(alloc, rt), buffers, RefusingStore::new()) else {
        panic!(rt; "no memory");
    };
    let Ok(engine) = Engine::new(alloc, core) else {
        panic!(rt; "no memory");
    };
    match Kept::new(alloc, engine, Book::new(alloc, 100)) {
        Ok(kept) => kept,
        Err(_) => panic!(rt; "not kept"),
    }
}

// Presses keys, and returns what the journal is told by them.
fn told<'a>(server: &'a mut Server, bob: SessionId, keys: &[u8]) -> &'a str {
    let before = server.journal().words().len();
    press(server, bob, keys);
    server.tell_ended();
    server.journal().words().get(before..).unwrap_or("?")
}

// The buffer that is kept first is bob's own, its text is empty, and it is as no file is.
fn is_bobs_own(server: &Server) -> bool {
    let journal = server.journal();
    match (journal.rights(0), journal.text(0)) {
        (Some(rights), Some(text)) => {
            rights.owners.owner.as_bytes() == b"bob".as_slice()
                && text.body.is_empty()
                && !text.modified
        }
        _ => false,
    }
}

// One key kills `secret` and makes it again: a macro is recorded whose TAB stays at `secr` as long as that is there.
#[test]
fn a_buffer_is_killed_and_made_again_by_one_key(rt: HostRuntime) {
    let mut server = serve(rt.alloc(), &rt);
    let bob = sit(&mut server, "bob", &rt);
    told(&mut server, bob, b"\x18bsecr\r");
    assert!(rt;
        told(&mut server, bob, b"\x18(\x18ksecr\t\r\x18bsecret\r\x18)") == "bob kills secr\n"
    );
    let was = server.journal().birth(0);
    assert!(rt;
        told(&mut server, bob, b"\x18e")
            == "bob kills secret\nbob makes secret\nsecret is as its file \n"
    );
    assert!(rt; was != server.journal().birth(0));
    assert!(rt; is_bobs_own(&server) && !server.has_failed());
}

// So do two keys, each an event.
#[test]
fn a_buffer_is_killed_and_made_again_by_two_keys(rt: HostRuntime) {
    let mut server = serve(rt.alloc(), &rt);
    let bob = sit(&mut server, "bob", &rt);
    assert!(rt; told(&mut server, bob, b"\x18ksecret\r") == "bob kills secret\n");
    assert!(rt;
        told(&mut server, bob, b"\x18bsecret\r") == "bob makes secret\nsecret is as its file \n"
    );
    assert!(rt; is_bobs_own(&server) && !server.has_failed());
}

// The changes of one event are as many as it makes.
#[test]
fn one_key_makes_three_buffers(rt: HostRuntime) {
    let mut server = serve(rt.alloc(), &rt);
    let bob = sit(&mut server, "bob", &rt);
    told(
        &mut server,
        bob,
        b"\x18(\x18bx\r\x18by\r\x18bz\r\x18)\x18kx\r\x18ky\r\x18kz\r",
    );
    assert!(rt;
        told(&mut server, bob, b"\x18e")
            == "bob makes x\nbob makes y\nbob makes z\nx is as its file \n"
    );
}
