// Lists of calls, and their tape.
use super::fixtures::{Server, fed, serve, show, waiting};
use mgs_engine::{Answer, Call, Cause, Tape, drive};
use mgs_model::{Keyed, SessionId};
use std::alloc::Global;
use std::process::Abort;
use std::test::Fail;

// Makes these calls.
fn make(engine: &mut Server, calls: &[Call<'_>], tape: &mut Tape, rt: &impl Abort) {
    assert!(rt; drive(engine, calls, tape).is_ok());
}

// What was taken of a session.
fn taken(tape: &Tape, id: SessionId) -> &[u8] {
    tape.bytes(id)
}

// Whether an answer on the tape is the one of this place in the list of calls below.
fn is_answer(i: usize, answer: &Answer) -> bool {
    match i {
        0 => matches!(answer, Answer::Open(Ok(1))),
        1 => matches!(answer, Answer::Took(5)),
        2 => matches!(answer, Answer::Byte(Keyed::Done)),
        3 => matches!(answer, Answer::Took(0)),
        4 => matches!(answer, Answer::Close),
        5 => matches!(answer, Answer::Ended(Some((1, Cause::Closed)))),
        _ => matches!(answer, Answer::Ended(None)),
    }
}

#[test]
fn each_call_is_answered_on_the_tape(rt: HostRuntime) {
    let alloc = rt.alloc();
    let mut engine = serve(alloc, &["ALLOW OWNER@ rwat"], &[], &rt);
    let mut tape = Tape::new(alloc);
    let calls = [
        Call::Open("ann", 6, 20),
        Call::Took(1, 5),
        Call::Byte(1, b'h'),
        Call::Took(2, 5),
        Call::Close(1),
        Call::Ended,
        Call::Ended,
    ];
    make(&mut engine, &calls, &mut tape, &rt);
    assert!(rt; tape.answers().len() == 7);
    for (i, answer) in tape.answers().iter().enumerate() {
        assert!(rt; is_answer(i, answer));
    }
    assert!(rt; taken(&tape, 1).len() == 5);
    assert!(rt; taken(&tape, 2).is_empty());
}

// The first session types a byte, and five bytes of it are taken. Whether a terminal that takes its tape, of so many bytes, and then
// what waits for it shows this screen.
fn leads_to(
    rt: &impl Abort,
    alloc: Global,
    engine: &mut Server,
    tape: &mut Tape,
    byte: u8,
    count: usize,
    screen: &str,
    cursor: (usize, usize),
) -> Result<bool, Fail> {
    make(engine, &[Call::Byte(1, byte), Call::Took(1, 5)], tape, rt);
    let mut bytes = Vec::from_slice(alloc, taken(tape, 1))?;
    let is_so_long = bytes.len() == count;
    bytes.extend_from_slice(waiting(engine, 1))?;
    Ok(is_so_long && show(alloc, &bytes, screen, cursor))
}

#[test]
fn the_tape_and_what_waits_give_the_screen(rt: HostRuntime) -> Result<(), Fail> {
    let alloc = rt.alloc();
    let mut engine = serve(alloc, &["ALLOW OWNER@ rwat"], &[], &rt);
    let mut tape = Tape::new(alloc);
    make(&mut engine, &[Call::Open("ann", 6, 20)], &mut tape, &rt);
    let screen = "h | -**-notes-L1-C1-----";
    let is_shown = leads_to(&rt, alloc, &mut engine, &mut tape, b'h', 5, screen, (1, 2))?;
    assert!(rt; is_shown);
    let screen = "hi | -**-notes-L1-C2-----";
    let is_shown = leads_to(&rt, alloc, &mut engine, &mut tape, b'i', 10, screen, (1, 3))?;
    assert!(rt; is_shown);
    Ok(())
}

// Rows 2, 3, 4 and 6 of a terminal of 6 by 20 are full of `z`, and the cursor is behind a first character.
const FULL_ROWS: &[u8] =
    b"\x1b[?7l\x1b[2;1Hzzzzzzzzzzzzzzzzzzzz\x1b[3;1Hzzzzzzzzzzzzzzzzzzzz\x1b[4;1Hzzzzzzzzzzzzzzzzzzzz\x1b[6;1Hzzzzzzzzzzzzzzzzzzzz\x1b[1;2H";

// The character that a cell then has where only the two cells that changed were written.
fn expected(i: usize) -> char {
    match i {
        1 => 'i',
        94 => '2',
        20..=79 | 100..=119 => 'z',
        _ => ' ',
    }
}

#[test]
fn a_character_is_painted_in_two_rows(rt: HostRuntime) -> Result<(), Fail> {
    let alloc = rt.alloc();
    let mut engine = serve(alloc, &["ALLOW OWNER@ rwat"], &[], &rt);
    let calls = [
        Call::Open("ann", 6, 20),
        Call::Byte(1, b'h'),
        Call::Took(1, 100_000),
    ];
    make(&mut engine, &calls, &mut Tape::new(alloc), &rt);
    let mut tape = Tape::new(alloc);
    let calls = [Call::Byte(1, b'i'), Call::Took(1, 100_000)];
    make(&mut engine, &calls, &mut tape, &rt);
    let mut bytes = Vec::from_slice(alloc, FULL_ROWS)?;
    bytes.extend_from_slice(taken(&tape, 1))?;
    let term = fed(alloc, &bytes).ok_or("refused")?;
    for (i, cell) in term.grid().iter().enumerate() {
        assert!(rt; cell.character == expected(i));
    }
    Ok(())
}
