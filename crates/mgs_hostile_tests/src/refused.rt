// Growth is refused: the act that asked for it is not done, and what needs none is done all the same.
use crate::fixtures::{self, close, is_open, plays, seated, sit, told};
use crate::refusing::Refusing;
use crate::stage::open;
use crate::store::Takes;
use mgs_engine::Cause;
use mgs_marks::Marked;
use mgs_model::OpenFault;
use std::alloc::Global;
use std::process::Abort;
use std::test::Fail;

// Steps come out so where these users sit. The window of a session has two marks: they are growths of the text too.
fn comes_out(
    rt: &impl Abort,
    alloc: Global,
    buffers: &str,
    users: &[&str],
    steps: &str,
) -> Result<(), Fail> {
    fixtures::comes_out::<Refusing<0>>(rt, alloc, buffers, Takes::Nothing, users, steps)
}

#[test]
fn a_refused_insertion_is_not_done(rt: HostRuntime) -> Result<(), Fail> {
    let text = "notes ann | ALLOW OWNER@ rwatdcCo | 33";
    let steps = "
        1 'h | Short | 33  | ----notes-L1-C0 | No memory
        1 'i | Done  | i33 | -**-notes-L1-C1 |
    ";
    comes_out(&rt, rt.alloc(), text, &["ann"], steps)
}

// What joined the kill buffer before the edit is taken out again.
#[test]
fn a_refused_kill_leaves_the_kill_buffer(rt: HostRuntime) -> Result<(), Fail> {
    let text = "notes ann | ALLOW OWNER@ rwatdcCo | 44ab cd";
    let steps = "
        1 M-d | Done  |  cd     | -**-notes-L1-C0 |
        1 M-d | Short |  cd     | -**-notes-L1-C0 | No memory
        1 C-y | Done  | 44ab cd | -**-notes-L1-C4 |
    ";
    comes_out(&rt, rt.alloc(), text, &["ann"], steps)
}

// What is half read is forgotten: the argument does not count for the next key. A split takes marks.
#[test]
fn a_refused_word_is_forgotten(rt: HostRuntime) -> Result<(), Fail> {
    let text = "notes ann | ALLOW OWNER@ rwatdcCo | 35";
    let steps = "
        1 C-u '3 'h  | Short | 35 | ----notes-L1-C0 | No memory
        1 C-q C-a    | Short | 35 | ----notes-L1-C0 | No memory
        1 C-x '2     | Short | 35 | ----notes-L1-C0 | No memory
        1 C-x 'o     | Done  | 35 | ----notes-L1-C0 |
        1 'i         | Done  | i35 | -**-notes-L1-C1 |
        1 C-x '2     | Done  | i35//-**-notes-L1-C1/i35 | -**-notes-L1-C1 |
    ";
    comes_out(&rt, rt.alloc(), text, &["ann"], steps)
}

#[test]
fn replacements_before_a_refused_one_stand(rt: HostRuntime) -> Result<(), Fail> {
    let text = "notes ann | ALLOW OWNER@ rwatdcCo | 44a a a";
    let steps = "
        1 M-% 'a RET 'b RET | Done  | 44a a a | ----notes-L1-C3 | Replace?
        1 '!                | Short | 44b a a | -**-notes-L1-C5 | No memory
        1 '!                | Done  | 44b b b | -**-notes-L1-C7 | Replaced 3
    ";
    comes_out(&rt, rt.alloc(), text, &["ann"], steps)
}

#[test]
fn plays_before_a_refused_one_stand(rt: HostRuntime) -> Result<(), Fail> {
    let text = "notes ann | ALLOW OWNER@ rwatdcCo | 66";
    let steps = "
        1 C-x '( 'z C-x ') | Done  | z66    | -**-notes-L1-C1 |
        1 C-u '4 C-x 'e    | Short | zzz66  | -**-notes-L1-C3 | No memory
        1 C-x 'e           | Done  | zzzz66 | -**-notes-L1-C4 |
    ";
    comes_out(&rt, rt.alloc(), text, &["ann"], steps)
}

// A byte of a search that is none of its own ends the search and is a key: where that is refused, the search goes on.
#[test]
fn a_search_outlives_a_refused_key(rt: HostRuntime) -> Result<(), Fail> {
    let text = "notes ann | ALLOW OWNER@ rwatdcCo | 33abcb";
    let steps = "
        1 C-s 'b | Done  | 33abcb  | ----notes-L1-C4 | I-search: b
        1 TAB    | Short | 33abcb  | ----notes-L1-C4 | No memory
        1 C-s    | Done  | 33abcb  | ----notes-L1-C6 | I-search: b
        1 C-b    | Done  | 33abcb  | ----notes-L1-C5 |
        1 'x     | Done  | 33abcxb | -**-notes-L1-C6 |
    ";
    comes_out(&rt, rt.alloc(), text, &["ann"], steps)
}

// No text grows once two sessions sit there.
const SHARED: &str = "notes ann | ALLOW OWNER@ rwatdcCo; ALLOW bob rt | 59banana";

#[test]
fn a_revocation_takes_no_memory(rt: HostRuntime) -> Result<(), Fail> {
    let steps = "
        1 'x                         | Short | 59banana | ----notes-L1-C0 | No memory
        2 C-s 'a                     | Done  | 59banana | ----notes-L1-C4 | I-search: a
        1 C-u '2 M-x 'acl-delete RET | Done  | 59banana | ----notes-L1-C0 |
        2                            |       | [no read: no entry] | -??-?-(no read) | I-search: a
        2 C-s                        | Done  | [no read: no entry] | -??-?-(no read) | Denied: no entry grants READ_DATA
    ";
    comes_out(&rt, rt.alloc(), SHARED, &["ann", "bob"], steps)
}

#[test]
fn new_owners_take_no_memory(rt: HostRuntime) -> Result<(), Fail> {
    let text = "notes ann | ALLOW OWNER@ rwatdcCo | 59banana";
    let steps = "
        1 'x                        | Short | 59banana | ----notes-L1-C0 | No memory
        2                           |       | 59banana | ----notes-L1-C0 |
        1 M-x 'set-group RET RET    | Done  | 59banana | ----notes-L1-C0 |
        1 M-x 'set-owner RET 'bob RET | Done | [no read: no entry] | -??-?-(no read) |
        2                           |       | [no read: no entry] | -??-?-(no read) |
    ";
    comes_out(&rt, rt.alloc(), text, &["ann", "ann"], steps)
}

#[test]
fn the_end_of_a_buffer_takes_no_memory(rt: HostRuntime) -> Result<(), Fail> {
    let steps = "
        1 'x                | Short | 59banana | ----notes-L1-C0 | No memory
        2 C-s 'a            | Done  | 59banana | ----notes-L1-C4 | I-search: a
        1 C-x 'k 'notes RET | Done  |        | -None           |
        2                   |       |        | -None           |
        2 C-f               | Done  |        | -None           | No buffer
    ";
    comes_out(&rt, rt.alloc(), SHARED, &["ann", "bob"], steps)
}

#[test]
fn the_end_of_a_session_takes_no_memory(rt: HostRuntime) -> Result<(), Fail> {
    let mut stage = seated::<Refusing<0>>(rt.alloc(), SHARED, Takes::Nothing, &["ann", "bob"])?;
    let shared = "
        1 'x     | Short | 59banana | ----notes-L1-C0 | No memory
        2 C-s 'a | Done  | 59banana | ----notes-L1-C4 | I-search: a
    ";
    plays(&rt, &mut stage, shared)?;
    close(&mut stage, 1);
    assert!(rt; !is_open(&stage, 1));
    assert!(rt; told(&mut stage) == Some((1, Cause::Closed)));
    assert!(rt; told(&mut stage).is_none());
    let alone = "
        2        |      | 59banana | ----notes-L1-C4 | I-search: a
        2 C-s    | Done | 59banana | ----notes-L1-C6 | I-search: a
    ";
    plays(&rt, &mut stage, alone)
}

// What is denied, failed, quit, half read or unbound is never refused, nor what only looks, moves or asks.
#[test]
fn what_needs_no_memory_is_done_without(rt: HostRuntime) -> Result<(), Fail> {
    let steps = "
        2 'x            | Done  | 59banana | ----notes-L1-C0 | Denied: no entry grants WRITE_DATA
        2 C-b           | Done  | 59banana | ----notes-L1-C0 | Beginning of buffer
        2 C-f C-e C-b   | Done  | 59banana | ----notes-L1-C7 |
        2 C-x C-z       | Done  | 59banana | ----notes-L1-C7 | Key not bound
        2 C-u '7 C-x    | Done  | 59banana | ----notes-L1-C7 |
        2 C-g           | Done  | 59banana | ----notes-L1-C7 | Quit
        2 C-x 'b 'n TAB | Done  | 59banana | ----notes-L1-C7 | Switch to buffer: notes
        2 C-g           | Done  | 59banana | ----notes-L1-C7 | Quit
        1 C-x 'f        | Done  | 59banana | ----notes-L1-C0 | No argument
        1 M-% 'a RET 'o RET 'n 'q | Done | 59banana | ----notes-L1-C6 | Replaced 0
        1 C-y           | Done  | 59banana | ----notes-L1-C6 | Nothing to yank
        1 C-d           | Short | 59banana | ----notes-L1-C6 | No memory
        1 C-x 'z        | Done  | 59banana | ----notes-L1-C6 | Key not bound
    ";
    comes_out(&rt, rt.alloc(), SHARED, &["ann", "bob"], steps)
}

// ann asks for a new buffer, for which memory is refused twice: there is none, and her window is as before.
const UNBORN: &str = "
    1 C-x C-f 'new | Done  | abc | ----notes-L1-C0 | Find file: new
    1 RET          | Short | abc | ----notes-L1-C0 | No memory
    1 RET          | Short | abc | ----notes-L1-C0 | No memory
    1 C-g          | Done  | abc | ----notes-L1-C0 | Quit
    1 C-x 'b 'n TAB | Done | abc | ----notes-L1-C0 | Switch to buffer: notes
    1 RET          | Done  | abc | ----notes-L1-C0 |
    1 C-x C-b      | Done  |         3 notes ann | -Buffers |
";

const THREE: &str = "notes ann | ALLOW OWNER@ rwatdcCo | abc";

#[test]
fn a_refused_buffer_is_not_made(rt: HostRuntime) -> Result<(), Fail> {
    comes_out(&rt, rt.alloc(), THREE, &["ann"], UNBORN)
}

// The text of the new buffer is there, and then a mark of its window is refused: the buffer goes again. So does what an open has made.
fn is_not_shown<T: Marked + Drop>(rt: &impl Abort, alloc: Global) -> Result<(), Fail> {
    let mut stage = seated::<T>(alloc, THREE, Takes::Nothing, &[])?;
    assert!(rt; open(&mut stage, "ann").ok_or("no terminal")? == Err(OpenFault::Short));
    assert!(rt; !is_open(&stage, 1));
    sit(&mut stage, &["ann"])?;
    plays(rt, &mut stage, UNBORN)
}

#[test]
fn a_buffer_without_a_window_is_not_made(rt: HostRuntime) -> Result<(), Fail> {
    is_not_shown::<Refusing<1>>(&rt, rt.alloc())?;
    is_not_shown::<Refusing<2>>(&rt, rt.alloc())
}
