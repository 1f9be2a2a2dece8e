// Keys of any bytes, and sessions that end in the middle of a word, a prompt or a search.
use crate::fixtures::{close, is_open, plays, seated, take, told, visit};
use crate::stage::{Stage, press};
use crate::store::Takes;
use mgs_engine::Cause;
use mgs_keys::read_keys;
use mgs_marks::PlainMarked;
use mgs_model::{Keyed, SessionId};
use std::alloc::Global;
use std::process::Abort;
use std::test::Fail;

type Plain = Stage<PlainMarked>;

const NOTES: &str = "notes ann | ALLOW OWNER@ rwatdcCo; ALLOW bob rwat | a b a";

// The keys that lead to each mode: to none, a half-read word, an argument, a prompt, an incremental search, a query-replace, a recording, and a
// window that shows the list of buffers or an access list.
const MODES: &str = "C-g
    ESC
    C-x
    ESC '[
    C-x ESC
    C-q
    C-u
    M-5
    M-x
    M-x 'acl-insert RET 'ALLOW
    C-x 'b 'n
    C-x 'b ESC
    C-x 'b ESC '[
    C-s
    C-s 'a
    C-r 'z
    M-% 'a RET
    M-% 'a RET 'a RET
    C-x '(
    C-x '( C-x 'b
    C-x C-b
    M-x 'acl-list RET";

// Whatever a session is in, it is in no mode behind these.
const BACK: &[u8] = b"\x07\x07\x07";

// A session comes to a mode and types a byte. Whether the answer was one of a session that is open and has memory: it is open then, or was
// ended by the byte.
fn takes_byte(rt: &impl Abort, stage: &mut Plain, id: SessionId, keys: &[u8], byte: u8) -> bool {
    assert!(rt; press(stage, id, BACK) == Keyed::Done);
    assert!(rt; press(stage, id, keys) == Keyed::Done);
    match press(stage, id, &[byte]) {
        Keyed::Done => is_open(stage, id) && told(stage).is_none(),
        Keyed::Quit => !is_open(stage, id) && told(stage) == Some((id, Cause::Quit)),
        Keyed::Short | Keyed::NoSession => false,
    }
}

// A session types each byte in one mode. Where a byte ends it, another one goes on.
fn takes_each_byte(rt: &impl Abort, alloc: Global, mode: &str) -> Result<(), Fail> {
    let keys = read_keys(alloc, mode)?;
    let mut stage = seated(alloc, NOTES, Takes::Nothing, &[])?;
    let mut id = 0;
    for byte in 0..=255u8 {
        if !is_open(&stage, id) {
            id = visit(&mut stage, "bob").ok_or("not opened")?;
        }
        assert!(rt;
            takes_byte(rt, &mut stage, id, &keys, byte),
            "{mode} {byte}"
        );
        take(&mut stage, id);
    }
    Ok(())
}

#[test]
fn each_byte_is_handled_in_each_mode(rt: HostRuntime) -> Result<(), Fail> {
    for mode in MODES.lines() {
        takes_each_byte(&rt, rt.alloc(), mode.trim())?;
    }
    Ok(())
}

// The keys after which a session ends: in a word, an argument, a quoted insertion, a prompt, a search, a query-replace, a recording.
const ENDS: &str = "ESC
    C-x
    ESC '[
    C-q
    C-u '3
    C-x 'b 'no
    C-s 'b
    M-% 'b RET 'c RET
    C-x '(";

// ann types a character and ends behind these keys. What she did before stands, and bob goes on.
fn ends_behind(rt: &impl Abort, alloc: Global, keys: &str) -> Result<(), Fail> {
    let mut stage: Plain = seated(alloc, NOTES, Takes::Nothing, &["ann", "bob"])?;
    plays(rt, &mut stage, "1 'x | Done | xa b a | -**-notes-L1-C1 |")?;
    let keys = read_keys(alloc, keys)?;
    assert!(rt; press(&mut stage, 1, &keys) == Keyed::Done);
    close(&mut stage, 1);
    assert!(rt; told(&mut stage) == Some((1, Cause::Closed)));
    assert!(rt; told(&mut stage).is_none());
    assert!(rt; press(&mut stage, 1, b"y") == Keyed::NoSession);
    let alone = "
        2    |      | xa b a  | -**-notes-L1-C0 |
        2 'z | Done | zxa b a | -**-notes-L1-C1 |
    ";
    plays(rt, &mut stage, alone)
}

#[test]
fn a_session_ends_in_the_middle_of_anything(rt: HostRuntime) -> Result<(), Fail> {
    for keys in ENDS.lines() {
        ends_behind(&rt, rt.alloc(), keys.trim())?;
    }
    Ok(())
}
