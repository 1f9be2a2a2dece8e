// Screens by lists of more entries than are decided outright, so that a judge keeps what they decide: what becomes of a list, an owner, an
// owning group and the buffers is on each screen in the same event.
use super::fixtures::{Server, Stand, list_of, press, show, sit, users, waiting};
use mgs_acl::{List, read_entry};
use mgs_buffers::Buffers;
use mgs_core::Core;
use mgs_engine::Engine;
use std::alloc::Global;
use std::process::Abort;

// These entries, and ten that decide nothing for ann and bob.
fn long_list(entries: &[&str], rt: &impl Abort) -> List {
    let mut list = list_of(entries, rt);
    for _ in 0..10 {
        match read_entry("ALLOW cyn t") {
            Ok(entry) => assert!(rt; list.insert(list.len(), entry).is_ok()),
            Err(_) => panic!(rt; "no entry"),
        }
    }
    list
}

// The buffers `notes` and `other` of ann. bob is of the group staff.
fn serve_long(alloc: Global, rt: &impl Abort) -> Server {
    let mut directory = users(alloc, rt);
    assert!(rt; directory.add_group("staff", &["bob"]).is_ok());
    let mut buffers = Buffers::new(alloc);
    let notes = long_list(
        &["ALLOW bob rt", "ALLOW OWNER@ rwatdcCo", "ALLOW GROUP@ rt"],
        rt,
    );
    let other = long_list(&["ALLOW bob t", "ALLOW ann rwatdcCo"], rt);
    assert!(rt;
        buffers
            .add("notes", "ann", None, notes, &['n'], false)
            .is_ok()
    );
    assert!(rt;
        buffers
            .add("other", "ann", None, other, &['o'], false)
            .is_ok()
    );
    let Ok(core) = Core::new(alloc, directory, buffers, Stand::new(false)) else {
        panic!(rt; "no memory");
    };
    match Engine::new(alloc, core) {
        Ok(engine) => engine,
        Err(_) => panic!(rt; "no memory"),
    }
}

const TEXT: &str = "n | ----notes-L1-C0-----";

const HIDDEN: &str = "[no read: no entry] | -??-?-(no read)-----";

const NONE: &str = " | -None---------------";

const OTHER: &str = "[no read: no entry] | ----other-(no read)-";

// Who types what (`true`: ann), and the screens of ann and of bob then.
const STEPS: [(bool, &[u8], &str, &str); 8] = [
    (true, b"", TEXT, TEXT),
    // His entry goes.
    (true, b"\x151\x1bxacl-delete\r", TEXT, HIDDEN),
    // His group comes, and goes.
    (true, b"\x1bxset-group\rstaff\r", TEXT, TEXT),
    (true, b"\x1bxset-group\r\r", TEXT, HIDDEN),
    // He becomes the owner in her place.
    (true, b"\x1bxset-owner\rbob\r", HIDDEN, TEXT),
    // The other buffer comes to the place of this one.
    (false, b"\x18knotes\r", NONE, NONE),
    (false, b"\x18bother\r", NONE, OTHER),
    (true, b"\x18bother\r", "o | ----other-L1-C0-----", OTHER),
];

#[test]
fn long_lists_are_followed_on_screens(rt: HostRuntime) {
    let alloc = rt.alloc();
    let mut engine = serve_long(alloc, &rt);
    let ann = sit(&mut engine, "ann", 6, 20, &rt);
    let bob = sit(&mut engine, "bob", 6, 20, &rt);
    for &(is_ann, keys, hers, his) in &STEPS {
        press(&mut engine, if is_ann { ann } else { bob }, keys);
        assert!(rt; show(alloc, waiting(&engine, ann), hers, (1, 1)));
        assert!(rt; show(alloc, waiting(&engine, bob), his, (1, 1)));
    }
}
