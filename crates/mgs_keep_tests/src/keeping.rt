// What a journal is told of what two users do, and what is shown once it failed.
use crate::book::Book;
use crate::office::{Server, list_of, press, sit, users};
use mgs_buffers::Buffers;
use mgs_core::Core;
use mgs_engine::Engine;
use mgs_keep::Kept;
use mgs_marks::PlainMarked;
use mgs_model::SessionId;
use mgs_store::{RefusingStore, Store, StoreFault};
use mgs_wire::{Refusal, Served, Sessions};
use std::alloc::Global;
use std::process::Abort;

// The buffer `notes` of ann, which bob may read, with a journal that takes so many calls.
fn serve(alloc: Global, calls: usize, rt: &impl Abort) -> Server {
    serve_with(alloc, Book::new(alloc, calls), RefusingStore::new(), rt)
}

// The same with this journal and this store.
fn serve_with<S: Store + Drop>(
    alloc: Global,
    book: Book,
    store: S,
    rt: &impl Abort,
) -> Kept<PlainMarked, S, Book> {
    let list = list_of(&["ALLOW OWNER@ rwatdcCo", "ALLOW bob rt"], rt);
    let mut buffers = Buffers::new(alloc);
    assert!(rt;
        buffers
            .add("notes", "ann", None, list, &['n'], true)
            .is_ok()
    );
    let Ok(core) = Core::new(alloc, users(alloc, rt), buffers, store) else {
        panic!(rt; "no memory");
    };
    let Ok(engine) = Engine::new(alloc, core) else {
        panic!(rt; "no memory");
    };
    match Kept::new(alloc, engine, book) {
        Ok(kept) => kept,
        Err(_) => panic!(rt; "not kept"),
    }
}

// Who types what (`true`: ann), and what the journal is told by it.
const STEPS: [(bool, &[u8], &str); 8] = [
    (true, b"x", "notes is edited xn\n"),
    (false, b"y", "bob is denied notes WRITE_DATA\n"),
    (true, b"\x152\x1bxacl-delete\r", "ann changes notes\n"),
    // Who may not read types at the text's end.
    (false, b"y", "bob is denied notes APPEND_DATA\n"),
    (true, b"\x18bplan\r", "ann makes plan\n"),
    (true, b"\x18knotes\r", "ann kills notes\n"),
    (
        true,
        b"\x1bxset-owner\rbob\r",
        "ann changes plan\nplan is as its file \n",
    ),
    (false, b"\x18\x03", "bob quits \n"),
];

#[test]
fn a_journal_is_told_of_each_change_and_denial(rt: HostRuntime) {
    let mut server = serve(rt.alloc(), 100, &rt);
    let ann = sit(&mut server, "ann", &rt);
    let bob = sit(&mut server, "bob", &rt);
    assert!(rt; server.journal().words() == "- makes notes\nann comes \nbob comes \n");
    for &(is_ann, keys, told) in &STEPS {
        let before = server.journal().words().len();
        press(&mut server, if is_ann { ann } else { bob }, keys);
        server.tell_ended();
        assert!(rt; server.journal().words().get(before..) == Some(told));
        assert!(rt; !server.has_failed());
    }
}

// What bob presses while `notes` is shown to him, and what the journal is told by it.
const DENIALS: [(&[u8], &str); 3] = [
    (b"\x18bplan\r", "bob is denied plan READ_ATTRIBUTES\n"),
    (
        b"\x1bxinsert-buffer\rplan\r",
        "bob is denied plan READ_DATA\n",
    ),
    (b"y", "bob is denied notes WRITE_DATA\n"),
];

// The buffer of a denial is the one whose list denies, and not always the one that is shown.
#[test]
fn a_denial_is_told_with_its_buffer(rt: HostRuntime) {
    let mut server = serve(rt.alloc(), 100, &rt);
    let ann = sit(&mut server, "ann", &rt);
    let bob = sit(&mut server, "bob", &rt);
    press(&mut server, ann, b"\x18bplan\r");
    for &(keys, told) in &DENIALS {
        let before = server.journal().words().len();
        press(&mut server, bob, keys);
        assert!(rt; server.journal().words().get(before..) == Some(told));
    }
}

// What ann presses, and what the journal is told by it.
const PLAYS: [(&[u8], &str); 4] = [
    // A macro makes a buffer and kills it, twice.
    (
        b"\x18(\x18ba\r\x18ka\r\x18ba\r\x18ka\r\x18)",
        "ann makes a\nann kills a\nann makes a\nann kills a\n",
    ),
    // 256 acts of one key that did something are as many as are told one by one.
    (b"\x1564\x18e", ""),
    (b"\x1565\x18e", "ann does more \n"),
    (b"\x1564\x18e", ""),
];

#[test]
fn a_key_that_does_too_much_is_told_as_such(rt: HostRuntime) {
    let mut server = serve(rt.alloc(), 100, &rt);
    let ann = sit(&mut server, "ann", &rt);
    for &(keys, told) in &PLAYS {
        let before = server.journal().words().len();
        press(&mut server, ann, keys);
        assert!(rt; server.journal().words().get(before..) == Some(told));
    }
}

// A change that the journal does not take is not shown, and nothing else any more, of what waited before it.
#[test]
fn nothing_is_shown_once_the_journal_failed(rt: HostRuntime) {
    let mut server = serve(rt.alloc(), 3, &rt);
    let ann = sit(&mut server, "ann", &rt);
    let bob = sit(&mut server, "bob", &rt);
    assert!(rt; !server.pending(bob).is_empty());
    assert!(rt; server.next_due(0) == Some(ann));
    press(&mut server, ann, b"\x1bxacl-delete\r");
    assert!(rt; server.has_failed());
    assert!(rt; server.pending(ann).is_empty() && server.pending(bob).is_empty());
    assert!(rt; server.next_due(0).is_none());
    press(&mut server, ann, b"x");
    assert!(rt; server.pending(ann).is_empty());
}

// Logins that are refused, before a session is asked for and then, are told with the name that was said, if a user has it.
#[test]
fn refused_logins_are_told(rt: HostRuntime) {
    let mut server = serve(rt.alloc(), 100, &rt);
    let before = server.journal().words().len();
    server.refused(b"bob", Refusal::Ticket);
    server.refused(b"eve", Refusal::NoUser);
    server.refused(b"two words", Refusal::NoUser);
    server.refused(b"\xff", Refusal::NoUser);
    server.refused(b"", Refusal::Line);
    assert!(rt; server.open("ann", 1, 20).is_err());
    assert!(rt; server.open("eve", 6, 20).is_err());
    assert!(rt;
        server.journal().words().get(before..)
            == Some(
                "bob is refused ticket\n- is refused no user\n- is refused no user\n- is refused no user\n- is refused line\nann is refused size\n- is refused no user\n"
            )
    );
}

// What is kept of a text is all of it as it stands when a round comes to it, once.
#[test]
fn texts_are_kept_as_they_stand(rt: HostRuntime) {
    let mut server = serve(rt.alloc(), 100, &rt);
    let ann = sit(&mut server, "ann", &rt);
    let before = server.journal().words().len();
    for keys in &[b"".as_slice(), b"ab", b"", b"", b""] {
        press(&mut server, ann, keys);
        server.tell_ended();
    }
    assert!(rt;
        server.journal().words().get(before..)
            == Some("notes is as its file n\nnotes is edited abn\n")
    );
}

// Where no text is due, none is kept.
#[test]
fn a_text_that_is_not_due_is_not_kept(rt: HostRuntime) {
    let book = Book::without_texts(rt.alloc());
    let mut server = serve_with(rt.alloc(), book, RefusingStore::new(), &rt);
    let ann = sit(&mut server, "ann", &rt);
    let before = server.journal().words().len();
    press(&mut server, ann, b"ab");
    server.tell_ended();
    server.tell_ended();
    assert!(rt; server.journal().words().get(before..) == Some(""));
}

// What ann types, and the text that is kept in each of the turns that follow, until none is left.
const ROUNDS: [(&[u8], [&str; 4]); 3] = [
    (
        b"\x18bplan\rp\x18bdiary\rd",
        [
            "notes is as its file n\n",
            "plan is edited p\n",
            "diary is edited d\n",
            "",
        ],
    ),
    (b"\x18bplan\rq", ["plan is edited pq\n", "", "", ""]),
    (
        b"\x18bnotes\rx\x18bdiary\re",
        ["notes is edited xn\n", "diary is edited de\n", "", ""],
    ),
];

// A round comes to each buffer whose text stands otherwise than when it was kept, one a turn, in the order of the buffers.
#[test]
fn each_text_that_changed_is_kept_in_its_turn(rt: HostRuntime) {
    let mut server = serve(rt.alloc(), 100, &rt);
    let ann = sit(&mut server, "ann", &rt);
    for (keys, kept) in &ROUNDS {
        press(&mut server, ann, keys);
        for told in kept {
            let before = server.journal().words().len();
            server.tell_ended();
            assert!(rt; server.journal().words().get(before..) == Some(*told));
        }
    }
}

// A store that takes each text.
#[derive(Clone, Copy)]
struct TakingStore;

impl Store for TakingStore {
    ghost use Rattle.std.specs.Prelude.{None};

    ghost failed = { λ store. 0 };

    ghost accepted = { λ store. None };

    fn save(&mut self, _name: &str, _text: &[char]) -> Result<(), StoreFault> {
        Ok(())
    }

    fn faults(&self) -> u64 {
        0
    }
}

// Types into the buffer, saves it, and returns what the journal is told by that. Then the turn ends.
fn save<S: Store + Drop>(server: &mut Kept<PlainMarked, S, Book>, ann: SessionId) -> &str {
    let before = server.journal().words().len();
    press(server, ann, b"x\x18\x13");
    let end = server.journal().words().len();
    server.tell_ended();
    server.journal().words().get(before..end).unwrap_or("?")
}

// The text of a buffer that is saved is kept at once, and no second time.
#[test]
fn a_saved_text_is_kept_at_once(rt: HostRuntime) {
    let book = Book::new(rt.alloc(), 100);
    let mut server = serve_with(rt.alloc(), book, TakingStore, &rt);
    let ann = sit(&mut server, "ann", &rt);
    assert!(rt; save(&mut server, ann) == "ann saves notes\nnotes is as its file xn\n");
    assert!(rt;
        server
            .journal()
            .words()
            .ends_with("ann saves notes\nnotes is as its file xn\n")
    );
}
