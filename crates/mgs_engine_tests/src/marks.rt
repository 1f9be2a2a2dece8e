// The marks of a buffer, counted while sessions split windows, delete them and end, and the ids of sessions.
use super::fixtures::{Stand, core_of, press_in_core, sit_in_core};
use mgs_core::Core;
use mgs_marks::PlainMarked;
use mgs_model::{Keyed, Name};
use std::test::Fail;

// Each session of 1 to 64 whose id leaves this rest by 4 types these keys, or is closed where there are none. They do so not in the
// order of their ids.
fn a_quarter_types(core: &mut Core<PlainMarked, Stand>, rest: u64, keys: &[u8]) {
    for turn in 1..65u64 {
        let id = turn * 37 % 65;
        if id % 4 == rest {
            for key in keys {
                press_in_core(core, id, *key);
            }
            if keys.is_empty() {
                core.close(id);
            }
        }
    }
}

fn count(core: &Core<PlainMarked, Stand>, name: &Name) -> usize {
    core.mark_count(name)
}

// Which quarter of the sessions types what, and how many marks are left.
const TURNS: [(u64, &[u8], usize); 8] = [
    (0, b"\x182", 160),
    (1, b"\x182\x182", 224),
    (2, b"\x18\x03", 192),
    (1, b"\x181", 160),
    (0, b"\x180", 160),
    (3, b"", 128),
    (1, b"\x18\x03", 64),
    (0, b"", 0),
];

// A window has two marks, and so has the place that a deleted one leaves: one for all windows of a session.
#[test]
fn sessions_leave_no_marks(rt: HostRuntime) -> Result<(), Fail> {
    let notes = Name::read("notes").ok_or("no name")?;
    let mut core = core_of(
        rt.alloc(),
        &["ALLOW OWNER@ rwat"],
        &[],
        Stand::new(false),
        &rt,
    );
    assert!(rt; count(&core, &notes) == 0);
    for _ in 0..64 {
        sit_in_core(&mut core, "ann", 24, 80, &rt);
    }
    assert!(rt; count(&core, &notes) == 128);
    for &(rest, keys, left) in &TURNS {
        a_quarter_types(&mut core, rest, keys);
        assert!(rt; count(&core, &notes) == left);
    }
    Ok(())
}

#[test]
fn the_id_of_an_ended_session_is_not_used_again(rt: HostRuntime) {
    let mut core = core_of(
        rt.alloc(),
        &["ALLOW OWNER@ rwat"],
        &[],
        Stand::new(false),
        &rt,
    );
    let first = sit_in_core(&mut core, "ann", 6, 20, &rt);
    let second = sit_in_core(&mut core, "ann", 6, 20, &rt);
    assert!(rt; press_in_core(&mut core, first, 0x18) == Keyed::Done);
    assert!(rt; press_in_core(&mut core, second, 0x03) == Keyed::Done);
    assert!(rt; press_in_core(&mut core, first, 0x03) == Keyed::Quit);
    assert!(rt; press_in_core(&mut core, first, b'x') == Keyed::NoSession);
    assert!(rt; press_in_core(&mut core, second, b'x') == Keyed::Done);
    let third = sit_in_core(&mut core, "ann", 6, 20, &rt);
    assert!(rt; third != first && third != second);
    assert!(rt; press_in_core(&mut core, first, b'x') == Keyed::NoSession);
}
