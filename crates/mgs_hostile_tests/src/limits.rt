// Acts at their limits: what is within them is done, and what is not is refused.
use crate::fixtures::{comes_out, seated};
use crate::stage::Stage;
use crate::store::Takes;
use mgs_marks::PlainMarked;
use std::alloc::{AllocError, Global};
use std::test::Fail;

// A buffer of ann with a text of so many characters.
fn long(alloc: Global, count: usize) -> Result<String, AllocError> {
    let mut line = String::from_str(alloc, "notes ann | ALLOW ann rwat | ")?;
    for _ in 0..count {
        line.push('a')?;
    }
    Ok(line)
}

// Two copies of this text are one character more than a kill buffer holds. Kills that follow each other are put together.
#[test]
fn a_kill_has_a_limit(rt: HostRuntime) -> Result<(), Fail> {
    let line = long(rt.alloc(), 524_289)?;
    let steps = "
        1 C-x 'h  | Done | aaaaaaaaaaaaaaaaaaaaaaaaaaaaaaaaaaaaaaa$ | ----notes-L1-C0 |
        1 M-w     | Done | aaaaaaaaaaaaaaaaaaaaaaaaaaaaaaaaaaaaaaa$ | ----notes-L1-C0 |
        1 C-w     | Done | aaaaaaaaaaaaaaaaaaaaaaaaaaaaaaaaaaaaaaa$ | ----notes-L1-C0 | Kill too large
        1 M-w M-w | Done | aaaaaaaaaaaaaaaaaaaaaaaaaaaaaaaaaaaaaaa$ | ----notes-L1-C0 | Kill too large
        1 C-f C-w | Done | a | -**-notes-L1-C1 |
        1 C-_     | Done | $aaaaaaaaaaaaaaaaaaaaa | -**-notes-L1-C524289 |
    ";
    let line = line.as_str();
    comes_out::<PlainMarked>(&rt, rt.alloc(), line, Takes::Nothing, &["ann"], steps)
}

// The longest text is saved, killed, yanked and saved again; a kill grows behind a long one; a macro replaces; and a character of four bytes
// is put in. The buffer has a file. An argument is 9,999 at most, so the text is there from the start.
#[test]
fn what_is_within_the_limits_is_done(rt: HostRuntime) -> Result<(), Fail> {
    let line = long(rt.alloc(), 1_048_574)?;
    let steps = "
        1 M-> RET 'b M-< | Done | aaaaaaaaaaaaaaaaaaaaaaaaaaaaaaaaaaaaaaa$/b | -**-notes-L1-C0 |
        1 C-x C-s  | Done | aaaaaaaaaaaaaaaaaaaaaaaaaaaaaaaaaaaaaaa$/b | ----notes-L1-C0 | Wrote notes
        1 C-SPC M-> C-w | Done |  | -**-notes-L1-C0 |
        1 C-y M-<  | Done | aaaaaaaaaaaaaaaaaaaaaaaaaaaaaaaaaaaaaaa$/b | -**-notes-L1-C0 |
        1 C-x C-s  | Done | aaaaaaaaaaaaaaaaaaaaaaaaaaaaaaaaaaaaaaa$/b | ----notes-L1-C0 | Wrote notes
        1 C-k C-k  | Done | b | -**-notes-L1-C0 |
        1 C-x '( M-< M-% 'b RET 'a RET '! C-x ') C-a | Done | a | -**-notes-L1-C0 |
        1 'b C-x 'e C-a | Done | aa | -**-notes-L1-C0 |
        1 '𝐀 DEL | Done | aa | -**-notes-L1-C0 |
    ";
    let takes = Takes::AllBut(9);
    let line = line.as_str();
    comes_out::<PlainMarked>(&rt, rt.alloc(), line, takes, &["ann"], steps)
}

// Whether as many sessions as there may be open at terminals of the largest size.
fn all_open(stage: &mut Stage<PlainMarked>) -> bool {
    for _ in 0..64 {
        if stage.engine.open("ann", 64, 160).is_err() {
            return false;
        }
    }
    true
}

#[test]
fn sixty_four_terminals_of_the_largest_size_open(rt: HostRuntime) -> Result<(), Fail> {
    let notes = "notes ann | ALLOW ann rwat |";
    let mut stage = seated::<PlainMarked>(rt.alloc(), notes, Takes::Nothing, &[])?;
    assert!(rt; all_open(&mut stage));
    Ok(())
}
