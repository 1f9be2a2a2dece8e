// Bytes that wait, sessions that fall behind, and sessions that ended.
use super::fixtures::{
    Server, Stand, core_of, is_open, press, serve, show, sit, sit_in_core, take, waiting,
};
use mgs_engine::{Cause, Engine};
use mgs_model::{Keyed, OpenFault, SessionId};
use std::alloc::Global;
use std::process::Abort;

fn close(engine: &mut Server, id: SessionId) {
    engine.close(id);
}

fn ended(engine: &mut Server) -> Option<(SessionId, Cause)> {
    engine.ended()
}

#[test]
fn bytes_wait_while_others_come(rt: HostRuntime) {
    let alloc = rt.alloc();
    let mut engine = serve(alloc, &["ALLOW OWNER@ rwat"], &[], &rt);
    let ann = sit(&mut engine, "ann", 6, 20, &rt);
    let mut taken = Vec::new(alloc);
    for byte in b"hi" {
        assert!(rt; press(&mut engine, ann, &[*byte]) == Keyed::Done);
        take(&mut engine, ann, 5, &mut taken);
    }
    assert!(rt; !waiting(&engine, ann).is_empty());
    for _ in 0..100 {
        take(&mut engine, ann, 5, &mut taken);
    }
    assert!(rt; waiting(&engine, ann).is_empty());
    assert!(rt; show(alloc, &taken, "hi | -**-notes-L1-C2-----", (1, 3)));
}

// 62 lines of 150 characters, each of another letter than the next.
fn tall(alloc: Global, rt: &impl Abort) -> Vec<char> {
    let mut text = Vec::new(alloc);
    for i in 0..62 * 151 {
        let character = match (i % 151, i / 151 % 2) {
            (150, _) => '\n',
            (_, 0) => 'a',
            _ => 'b',
        };
        assert!(rt; text.push(character).is_ok());
    }
    text
}

#[test]
fn a_session_that_takes_nothing_falls_behind(rt: HostRuntime) {
    let alloc = rt.alloc();
    let text = tall(alloc, &rt);
    let mut engine = serve(alloc, &["ALLOW EVERYONE@ rwat"], &text, &rt);
    let ann = sit(&mut engine, "ann", 64, 160, &rt);
    let bob = sit(&mut engine, "bob", 6, 20, &rt);
    let mut taken = Vec::new(alloc);
    let mut waited = 0;
    for _ in 0..62 {
        if is_open(&engine, ann) {
            waited = waiting(&engine, ann).len();
            assert!(rt; press(&mut engine, bob, b"\r") == Keyed::Done);
            assert!(rt; is_open(&engine, ann) == (waited < 220_145));
            take(&mut engine, bob, 100_000, &mut taken);
        }
    }
    assert!(rt; waited >= 220_145);
    assert!(rt; waiting(&engine, ann).is_empty());
    assert!(rt; press(&mut engine, ann, b"x") == Keyed::NoSession);
    assert!(rt; ended(&mut engine) == Some((ann, Cause::Slow)));
    assert!(rt; ended(&mut engine).is_none());
    assert!(rt; is_open(&engine, bob));
}

// What ann is told who wants one more session of so many rows.
fn refusal(engine: &mut Server, rows: usize) -> Option<OpenFault> {
    engine.open("ann", rows, 20).err()
}

#[test]
fn an_ended_session_keeps_its_slot_until_it_is_told(rt: HostRuntime) {
    let alloc = rt.alloc();
    let mut engine = serve(alloc, &["ALLOW OWNER@ rwat"], &[], &rt);
    for _ in 0..64 {
        sit(&mut engine, "ann", 6, 20, &rt);
    }
    assert!(rt; refusal(&mut engine, 6) == Some(OpenFault::Full));
    assert!(rt; refusal(&mut engine, 5) == Some(OpenFault::Size));
    assert!(rt; press(&mut engine, 1, b"\x18") == Keyed::Done);
    assert!(rt; press(&mut engine, 1, b"\x03") == Keyed::Quit);
    close(&mut engine, 7);
    close(&mut engine, 7);
    assert!(rt; refusal(&mut engine, 6) == Some(OpenFault::Full));
    assert!(rt; ended(&mut engine) == Some((1, Cause::Quit)));
    assert!(rt; sit(&mut engine, "ann", 6, 20, &rt) == 65);
    assert!(rt; refusal(&mut engine, 6) == Some(OpenFault::Full));
    assert!(rt; ended(&mut engine) == Some((7, Cause::Closed)));
    assert!(rt; ended(&mut engine).is_none());
    assert!(rt; sit(&mut engine, "ann", 6, 20, &rt) == 66);
}

#[test]
fn a_session_is_painted(rt: HostRuntime) {
    let alloc = rt.alloc();
    let mut engine = serve(alloc, &["ALLOW OWNER@ rwt"], &['a', 'b'], &rt);
    assert!(rt; waiting(&engine, 1).is_empty());
    let ann = sit(&mut engine, "ann", 6, 20, &rt);
    assert!(rt; is_open(&engine, ann));
    let count = waiting(&engine, ann).len();
    assert!(rt; count > 0);
    let mut taken = Vec::new(alloc);
    take(&mut engine, ann, 1, &mut taken);
    assert!(rt; waiting(&engine, ann).len() == count - 1);
    take(&mut engine, ann, count - 1, &mut taken);
    assert!(rt; waiting(&engine, ann).is_empty());
    assert!(rt; press(&mut engine, ann, b"x") == Keyed::Done);
    assert!(rt; !waiting(&engine, ann).is_empty());
    close(&mut engine, ann);
    assert!(rt; !is_open(&engine, ann));
}

#[test]
fn an_open_session_is_painted_by_a_new_engine(rt: HostRuntime) {
    let alloc = rt.alloc();
    let mut core = core_of(
        alloc,
        &["ALLOW OWNER@ rwt"],
        &['a', 'b'],
        Stand::new(false),
        &rt,
    );
    let ann = sit_in_core(&mut core, "ann", 6, 20, &rt);
    let Ok(engine) = Engine::new(alloc, core) else {
        panic!(rt; "no memory");
    };
    assert!(rt; is_open(&engine, ann));
    assert!(rt; !waiting(&engine, ann).is_empty());
}
