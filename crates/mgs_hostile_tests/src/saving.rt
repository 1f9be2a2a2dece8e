// Saves: what a store is asked to take, and stores that fail once.
use crate::fixtures::comes_out;
use crate::refusing::Refusing;
use crate::store::Takes;
use mgs_marks::PlainMarked;
use std::test::Fail;

const NOTES: &str = "notes ann | ALLOW ann rwat |";

// What each of three saves comes to where the first, the second or the third fails.
const FAILING: [&str; 3] = [
    "
        1 'x C-x C-s | Done | x   | -**-notes-L1-C1 | Save failed
        1 'x C-x C-s | Done | xx  | ----notes-L1-C2 | Wrote notes
        1 'x C-x C-s | Done | xxx | ----notes-L1-C3 | Wrote notes
    ",
    "
        1 'x C-x C-s | Done | x   | ----notes-L1-C1 | Wrote notes
        1 'x C-x C-s | Done | xx  | -**-notes-L1-C2 | Save failed
        1 'x C-x C-s | Done | xxx | ----notes-L1-C3 | Wrote notes
    ",
    "
        1 'x C-x C-s | Done | x   | ----notes-L1-C1 | Wrote notes
        1 'x C-x C-s | Done | xx  | ----notes-L1-C2 | Wrote notes
        1 'x C-x C-s | Done | xxx | -**-notes-L1-C3 | Save failed
    ",
];

#[test]
fn the_save_that_fails_is_told_alone(rt: HostRuntime) -> Result<(), Fail> {
    for (before, steps) in FAILING.iter().enumerate() {
        let takes = Takes::AllBut(before);
        comes_out::<PlainMarked>(&rt, rt.alloc(), NOTES, takes, &["ann"], steps)?;
    }
    Ok(())
}

// A store is asked for the buffer that is shown, under its name, with its text as it is.
#[test]
fn the_text_of_the_buffer_is_saved(rt: HostRuntime) -> Result<(), Fail> {
    let steps = "
        1 C-x C-s    | Done |    | ----notes-L1-C0 | Save failed
        1 'x C-x C-s | Done | x  | ----notes-L1-C1 | Wrote notes
        1 'y C-x C-s | Done | xy | -**-notes-L1-C2 | Save failed
        1 C-_ C-x C-s | Done | x | ----notes-L1-C1 | Wrote notes
        1 C-x C-f 'other RET 'x C-x C-s | Done | x | -**-other-L1-C1 | No file
    ";
    comes_out::<PlainMarked>(&rt, rt.alloc(), NOTES, Takes::Text("x"), &["ann"], steps)
}

// Whatever is refused from then on, and as often: the two growths of a window's marks and that of the first letter are had before.
#[test]
fn a_save_needs_no_growth(rt: HostRuntime) -> Result<(), Fail> {
    let text = "notes ann | ALLOW ann rwat | 49abc";
    let steps = "
        1 'x      | Done  | x49abc | -**-notes-L1-C1 |
        1 'y      | Short | x49abc | -**-notes-L1-C1 | No memory
        1 C-x C-s | Done  | x49abc | ----notes-L1-C1 | Wrote notes
        1 'y      | Short | x49abc | ----notes-L1-C1 | No memory
    ";
    let takes = Takes::Text("x49abc");
    comes_out::<Refusing<0>>(&rt, rt.alloc(), text, takes, &["ann"], steps)
}
