// Texts that have a file are saved, where the store takes them.
use super::fixtures::{Stand, core_of, press, show, sit, waiting};
use mgs_engine::Engine;
use std::alloc::Global;
use std::process::Abort;

// ann types a character into a text that has a file, saves it, and is shown this screen.
fn saving_shows(rt: &impl Abort, alloc: Global, takes: bool, screen: &str) {
    let store = Stand::new(takes);
    let core = core_of(alloc, &["ALLOW ann rwat"], &['a', 'b'], store, rt);
    let Ok(mut engine) = Engine::new(alloc, core) else {
        panic!(rt; "no memory");
    };
    let ann = sit(&mut engine, "ann", 6, 20, rt);
    press(&mut engine, ann, b"x\x18\x13");
    assert!(rt; show(alloc, waiting(&engine, ann), screen, (1, 2)));
}

#[test]
fn a_saved_text_is_not_modified(rt: HostRuntime) {
    let screen = "xab | ----notes-L1-C1----- | Wrote notes";
    saving_shows(&rt, rt.alloc(), true, screen);
}

#[test]
fn a_store_may_refuse(rt: HostRuntime) {
    let screen = "xab | -**-notes-L1-C1----- | Save failed";
    saving_shows(&rt, rt.alloc(), false, screen);
}
