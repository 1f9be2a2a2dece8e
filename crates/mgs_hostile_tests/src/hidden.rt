// What one may not read has no effect on what one sees: two servers that differ in it alone show the same.
use crate::fixtures::{comes_out, plays, seated, show_the_same};
use crate::stage::{Stage, press};
use crate::store::Takes;
use mgs_keys::read_keys;
use mgs_marks::PlainMarked;
use mgs_model::{Keyed, SessionId};
use std::alloc::Global;
use std::process::Abort;
use std::test::Fail;

type Plain = Stage<PlainMarked>;

// The first session types keys at both servers, and behind each byte its terminals show the same.
fn types_at_both(
    rt: &impl Abort,
    alloc: Global,
    one: &mut Plain,
    other: &mut Plain,
    keys: &str,
) -> Result<(), Fail> {
    for byte in read_keys(alloc, keys)?.iter() {
        assert!(rt; press(one, 1, &[*byte]) == Keyed::Done);
        assert!(rt; press(other, 1, &[*byte]) == Keyed::Done);
        assert!(rt; show_the_same(one, other, 1, 1), "{keys}");
    }
    Ok(())
}

const ABC: &str = "secret cat | ALLOW cat rwat; ALLOW bob at | abc
    notes bob | ALLOW OWNER@ rwatdcCo | b a b";

const XYZ: &str = "secret cat | ALLOW cat rwat; ALLOW bob at | xyz
    notes bob | ALLOW OWNER@ rwatdcCo | b a b";

// What bob, who may not read the text, types in it and then in his own.
const READER: &str = "'q
    C-f
    C-_
    C-s
    C-r
    C-k
    C-q C-a
    M-% 'a RET 'b RET
    M-x 'insert-buffer RET 'secret RET
    C-x C-b
    C-v
    C-x 'b 's TAB RET
    M-q
    C-x '( 'z C-a C-x ') C-u '3 C-x 'e
    C-x 'b 'notes RET
    M-x 'insert-buffer RET 'secret RET
    C-s 'b C-s C-s RET
    M-s RET
    C-y";

#[test]
fn a_hidden_text_has_no_effect(rt: HostRuntime) -> Result<(), Fail> {
    let alloc = rt.alloc();
    let mut one = seated(alloc, ABC, Takes::Nothing, &["bob"])?;
    let mut other = seated(alloc, XYZ, Takes::Nothing, &["bob"])?;
    for keys in READER.lines() {
        types_at_both(&rt, alloc, &mut one, &mut other, keys.trim())?;
    }
    Ok(())
}

// The same, and what is shown.
#[test]
fn a_hidden_text_is_masked(rt: HostRuntime) -> Result<(), Fail> {
    let steps = "
        1 'q      | Done | [no read: no entry] | -**-secret-(no read) |
        1 C-f     | Done | [no read: no entry] | -**-secret-(no read) | Denied: no entry grants READ_DATA
        1 C-_     | Done | [no read: no entry] | -**-secret-(no read) | Denied: no entry grants READ_DATA
        1 C-s     | Done | [no read: no entry] | -**-secret-(no read) | Denied: no entry grants READ_DATA
        1 C-x C-b | Done | *       4 secret cat/        5 notes bob | -Buffers |
        1 C-x 'b 'notes RET | Done | b a b | ----notes-L1-C0 |
        1 C-s 'b  | Done | b a b | ----notes-L1-C1 | I-search: b
        1 C-s     | Done | b a b | ----notes-L1-C5 | I-search: b
        1 C-s     | Done | b a b | ----notes-L1-C5 | Failing I-search: b
    ";
    for buffers in &[ABC, XYZ] {
        comes_out::<PlainMarked>(&rt, rt.alloc(), buffers, Takes::Nothing, &["bob"], steps)?;
    }
    Ok(())
}

const CLOSED: &str = "secret cat | ALLOW cat rwat | one two
    notes bob | ALLOW OWNER@ rwatdcCo | b a b";

// What bob types, and what cat does in between in a text on which bob has no right.
const TURNS: [(&str, &str); 9] = [
    ("'x", "'three SPC"),
    ("C-f C-b", "C-_"),
    ("C-s 'b", "C-s 'two RET"),
    ("C-s RET", "M-% 'o RET '0 RET '!"),
    ("C-_", "C-x '( 'y C-a C-x ') C-u '9 C-x 'e"),
    ("C-x C-b", "C-x '2 C-x 'o M-> RET"),
    ("C-x 'b 's TAB C-g", "C-x 'b 'se TAB C-g M-x 'acl"),
    ("C-x 'b 'notes RET M-x 'acl-list RET", "C-g C-SPC M-< C-w"),
    ("C-x '2 C-x 'b 'notes RET C-k C-y", "C-y C-y M-~ C-u '7"),
];

// cat types keys at one server alone, and behind each byte bob's terminals show the same.
fn types_unseen(
    rt: &impl Abort,
    alloc: Global,
    one: &mut Plain,
    other: &Plain,
    keys: &str,
) -> Result<(), Fail> {
    let cat: SessionId = 2;
    for byte in read_keys(alloc, keys)?.iter() {
        assert!(rt; press(one, cat, &[*byte]) == Keyed::Done);
        assert!(rt; show_the_same(one, other, 1, 1), "{keys}");
    }
    Ok(())
}

#[test]
fn work_in_a_closed_buffer_leaves_no_trace(rt: HostRuntime) -> Result<(), Fail> {
    let alloc = rt.alloc();
    let mut one = seated(alloc, CLOSED, Takes::Nothing, &["bob", "cat"])?;
    let mut other = seated(alloc, CLOSED, Takes::Nothing, &["bob", "cat"])?;
    for &(bob, cat) in &TURNS {
        types_at_both(&rt, alloc, &mut one, &mut other, bob)?;
        types_unseen(&rt, alloc, &mut one, &other, cat)?;
    }
    assert!(rt; !show_the_same(&one, &other, 2, 2));
    plays(&rt, &mut other, "2 | | one two | ----secret-L1-C0 |")
}
