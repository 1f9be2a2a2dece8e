// A buffer is saved by who may, where it has a file, and as the store answers.
use crate::buffers::change;
use crate::people::{list_of, named};
use mgs_buffers::{Buffers, SaveFault};
use mgs_marks::PlainMarked;
use mgs_model::{Decision, Right};
use mgs_policy::Directory;
use mgs_store::{RefusingStore, Store, StoreFault};
use std::alloc::Global;
use std::process::Abort;
use std::test::Fail;

// A store that takes the text `ab` of the buffer `notes`, and nothing else.
#[derive(Clone, Copy)]
struct OneText {
    faults: u64,
}

impl Store for OneText {
    ghost use Rattle.std.specs.Prelude.{None};

    ghost failed = { λ store. store.faults };

    ghost accepted = { λ store. None };

    fn save(&mut self, name: &str, text: &[char]) -> Result<(), StoreFault> {
        if name == "notes" && matches!(text, ['a', 'b']) {
            return Ok(());
        }
        self.faults = self.faults.saturating_add(1);
        Err(StoreFault)
    }

    fn faults(&self) -> u64 {
        self.faults
    }
}

// Two buffers of ann, which she alone may read and write: `notes` has a file, and `board` has none.
fn two(rt: &impl Abort, alloc: Global) -> Buffers<PlainMarked> {
    let mut all = Buffers::new(alloc);
    let list = list_of(rt, "ALLOW OWNER@ rw");
    assert!(rt; all.add("notes", "ann", None, list, &['a'], true) == Ok(()));
    let list = list_of(rt, "ALLOW OWNER@ rw");
    assert!(rt; all.add("board", "ann", None, list, &['a'], false) == Ok(()));
    all
}

// What a save of `notes` or `board` comes to.
fn save<S: Store>(
    rt: &impl Abort,
    all: &mut Buffers<PlainMarked>,
    directory: &Directory,
    user: &str,
    name: &str,
    store: &mut S,
) -> Result<(), SaveFault> {
    let (user, name) = (named(rt, user), named(rt, name));
    assert!(rt; all.has(&name));
    all.save_as(directory, &user, &name, store)
}

// Whether `notes` was edited since it was last saved.
fn is_modified(rt: &impl Abort, all: &Buffers<PlainMarked>) -> bool {
    let notes = named(rt, "notes");
    all.has(&notes) && all.is_modified(&notes)
}

const DENIED: SaveFault = SaveFault::Denied(Decision::NotGranted {
    bit: Right::ReadData,
});

// What is refused leaves the buffer modified, and a store that was asked counts it.
fn refuse(
    rt: &impl Abort,
    all: &mut Buffers<PlainMarked>,
    directory: &Directory,
    store: &mut OneText,
) {
    let mut refusing = RefusingStore::new();
    assert!(rt; save(rt, all, directory, "ann", "notes", &mut refusing) == Err(SaveFault::Store));
    assert!(rt; refusing.faults() == 1);
    assert!(rt; save(rt, all, directory, "bob", "notes", store) == Err(DENIED));
    assert!(rt; save(rt, all, directory, "bob", "board", store) == Err(DENIED));
    assert!(rt; save(rt, all, directory, "ann", "board", store) == Err(SaveFault::NoFile));
    assert!(rt; store.faults() == 0 && is_modified(rt, all));
}

#[test]
fn saves_are_judged_and_stored(rt: HostRuntime) -> Result<(), Fail> {
    let mut all = two(&rt, rt.alloc());
    let directory = Directory::new(rt.alloc());
    let mut store = OneText { faults: 0 };
    change(
        &rt,
        &mut all,
        &directory,
        &named(&rt, "notes"),
        1,
        1,
        &['b'],
    )?;
    refuse(&rt, &mut all, &directory, &mut store);
    assert!(rt; save(&rt, &mut all, &directory, "ann", "notes", &mut store) == Ok(()));
    assert!(rt; store.faults() == 0 && !is_modified(&rt, &all));
    Ok(())
}
