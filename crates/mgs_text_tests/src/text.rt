// A text is a list of characters, and its marks follow its edits: both texts through the same calls.
ghost use Rattle.std.specs.Prelude.{◌≡◌, ◌≤◌, length, IfOk, IsSome};
ghost use Rattle.mgs_marks.specs.Marks.{mark_in};

use mgs_gap::GapText;
use mgs_marks::{Marked, PlainMarked};
use mgs_model::{MarkId, Short};
use mgs_text::{PlainText, Text};
use std::alloc::Global;
use std::process::Abort;
use std::test::Fail;

// Whether these characters stand in a text from one place up to another.
fn reads(text: &impl Text, from: usize, to: usize, chars: &[char]) -> Result<bool, Short> {
    if from > to || to > text.len() {
        return Ok(false);
    }
    let copy = text.copy(from, to)?;
    Ok(copy.as_slice() == chars)
}

fn holds(text: &impl Text, chars: &[char]) -> Result<bool, Short> {
    let all = text.copy(0, text.len())?;
    Ok(all.as_slice() == chars)
}

// Whether the pieces of a text, one behind the other, are these characters.
fn lends(text: &impl Text, chars: &[char]) -> bool {
    let mut at = 0;
    for _ in 0..chars.len() {
        if at >= text.len() {
            break;
        }
        let piece = text.piece(at);
        let end = at + piece.len();
        if chars.get(at..end) != Some(piece) {
            return false;
        }
        at = end;
    }
    at == chars.len() && at == text.len()
}

// Puts two characters in the place of one, in a text `abc`.
fn edit(rt: &impl Abort, text: &mut impl Text) -> Result<(), Short> {
    assert!(rt; text.len() == 3);
    assert!(rt; reads(text, 1, 3, &['b', 'c'])?);
    text.replace(1, 2, &['X', 'Y'])?;
    assert!(rt; holds(text, &['a', 'X', 'Y', 'c'])?);
    assert!(rt; text.len() == 4 && text.at(3) == 'c');
    assert!(rt; lends(text, &['a', 'X', 'Y', 'c']));
    Ok(())
}

// Counts the lines of a text of `a`, an empty line, and `b`.
fn count_lines(rt: &impl Abort, text: &impl Text) {
    assert!(rt; text.len() == 4);
    assert!(rt; text.line_of(1) == 0);
    assert!(rt; text.line_of(2) == 1);
    assert!(rt; text.line_of(4) == 2);
    for &(line, start) in &[(0, 0), (1, 2), (2, 3), (3, 4)] {
        assert!(rt; text.start_of(line) == start, "line {line}");
    }
}

// Marks at 1, 2 and 3 of a text.
fn mark_thrice<T: Marked>(text: &mut T) -> Result<(MarkId, MarkId, MarkId), Short>
    requires { 3 ≤ length (T.text text.old) }
    ensures text { T.text text.new ≡ T.text text.old }
    ensures first { IfOk result (λ ids. IsSome (mark_in (T.marks text.new) ids.0)) }
    ensures second { IfOk result (λ ids. IsSome (mark_in (T.marks text.new) ids.1)) }
    ensures third { IfOk result (λ ids. IsSome (mark_in (T.marks text.new) ids.2)) }
{
    let first = text.add_mark(1)?;
    let second = text.add_mark(2)?;
    let third = text.add_mark(3)?;
    Ok((first, second, third))
}

fn follow(rt: &impl Abort, text: &mut impl Marked) -> Result<(), Short> {
    assert!(rt; text.len() == 4);
    let (first, second, third) = mark_thrice(text)?;
    text.replace(1, 3, &['x'])?;
    assert!(rt; text.pos(first) == 1);
    assert!(rt; text.pos(second) == 1);
    assert!(rt; text.pos(third) == 2);
    assert!(rt; holds(text, &['a', 'x', 'd'])?);
    Ok(())
}

// Whether a mark has a slot of its own.
fn is_apart(mark: MarkId, others: &[MarkId]) -> bool {
    for other in others {
        if mark.slot() == other.slot() {
            return false;
        }
    }
    true
}

fn mark_one_more(rt: &impl Abort, text: &mut impl Marked) -> Result<(), Short> {
    assert!(rt; text.len() == 4);
    let (first, second, third) = mark_thrice(text)?;
    text.replace(1, 3, &['x'])?;
    assert!(rt; text.len() == 3);
    let fourth = text.add_mark(2)?;
    assert!(rt; is_apart(fourth, &[first, second, third]));
    assert!(rt; text.pos(fourth) == 2);
    Ok(())
}

fn move_and_drop(rt: &impl Abort, text: &mut impl Marked) -> Result<(), Short> {
    assert!(rt; text.len() == 2);
    let first = text.add_mark(0)?;
    let second = text.add_mark(1)?;
    text.place(first, 2);
    assert!(rt; text.pos(first) == 2);
    assert!(rt; text.mark_count() == 2);
    text.drop_mark(second);
    assert!(rt; text.mark_count() == 1);
    assert!(rt; text.pos(first) == 2);
    assert!(rt; text.len() == 2);
    assert!(rt; text.at(1) == 'b');
    Ok(())
}

fn try_text<T: Text + Drop>(rt: &impl Abort, alloc: Global) -> Result<(), Short> {
    edit(rt, &mut T::of(alloc, &['a', 'b', 'c'])?)?;
    count_lines(rt, &T::of(alloc, &['a', '\n', '\n', 'b'])?);
    Ok(())
}

fn try_marks<T: Marked + Drop>(rt: &impl Abort, alloc: Global) -> Result<(), Short> {
    follow(rt, &mut T::of(alloc, &['a', 'b', 'c', 'd'])?)?;
    mark_one_more(rt, &mut T::of(alloc, &['a', 'b', 'c', 'd'])?)?;
    move_and_drop(rt, &mut T::of(alloc, &['a', 'b'])?)
}

#[test]
fn plain_text_is_edited(rt: HostRuntime) -> Result<(), Fail> {
    try_text::<PlainText>(&rt, rt.alloc())?;
    try_marks::<PlainMarked>(&rt, rt.alloc())?;
    Ok(())
}

#[test]
fn gap_text_is_edited(rt: HostRuntime) -> Result<(), Fail> {
    try_text::<GapText>(&rt, rt.alloc())?;
    try_marks::<GapText>(&rt, rt.alloc())?;
    Ok(())
}

// Puts a character at the end of a text `bc`, and one at its start.
fn put_at_both_ends(rt: &impl Abort, text: &mut impl Text) -> Result<(), Short> {
    assert!(rt; text.len() == 2);
    text.replace(2, 2, &['d'])?;
    text.replace(0, 0, &['a'])?;
    assert!(rt; holds(text, &['a', 'b', 'c', 'd'])?);
    assert!(rt; reads(text, 1, 3, &['b', 'c'])?);
    assert!(rt; lends(text, &['a', 'b', 'c', 'd']));
    Ok(())
}

// Takes the characters at both ends of a text `abcd`, and then the others.
fn take_from_both_ends(rt: &impl Abort, text: &mut impl Text) -> Result<(), Short> {
    assert!(rt; text.len() == 4);
    text.replace(0, 1, &[])?;
    assert!(rt; text.len() == 3);
    text.replace(2, 3, &[])?;
    assert!(rt; holds(text, &['b', 'c'])?);
    assert!(rt; text.len() == 2);
    text.replace(0, 2, &[])?;
    assert!(rt; text.len() == 0 && holds(text, &[])? && lends(text, &[]));
    Ok(())
}

#[test]
fn gap_text_is_edited_at_both_ends(rt: HostRuntime) -> Result<(), Fail> {
    let mut text = GapText::of(rt.alloc(), &['b', 'c'])?;
    put_at_both_ends(&rt, &mut text)?;
    take_from_both_ends(&rt, &mut text)?;
    Ok(())
}

// Whether an `a` stands at the start of a text, so many `q` behind it, and a `z` at its end.
fn is_grown(text: &impl Text, size: usize) -> bool {
    let len = text.len();
    0 < size
        && size < len
        && text.at(0) == 'a'
        && text.at(1) == 'q'
        && text.at(size) == 'q'
        && text.at(len - 1) == 'z'
}

// Puts so many characters behind the first one of a text, and then one at each end.
fn grow(rt: &impl Abort, text: &mut impl Text, put: &[char]) -> Result<(), Short> {
    let (len, size) = (text.len(), put.len());
    assert!(rt; 2 <= len && len < 4000 && size < 60);
    text.replace(1, 1, put)?;
    assert!(rt; text.len() == len + size);
    assert!(rt; is_grown(text, size), "by {size}");
    text.replace(len + size, len + size, &['z'])?;
    text.replace(0, 0, &['a'])
}

// Its block grows again and again, and its gap goes to both ends: what stands there is in memory that no clause shows.
#[test]
fn gap_text_grows(rt: HostRuntime) -> Result<(), Fail> {
    let mut text = GapText::of(rt.alloc(), &['a', 'z'])?;
    for size in 1..60usize {
        let put = vec![in rt.alloc(); 'q'; size]?;
        grow(&rt, &mut text, &put)?;
    }
    assert!(rt; text.len() == 1890);
    Ok(())
}

// Puts a hundred characters between the two of a text `<>`.
fn type_in_a_row(rt: &impl Abort, text: &mut impl Text) -> Result<(), Short> {
    for i in 0..100usize {
        assert!(rt; text.len() == i + 2);
        text.replace(i + 1, i + 1, &['a'])?;
    }
    assert!(rt; text.len() == 102);
    assert!(rt; text.at(100) == 'a');
    assert!(rt; text.at(101) == '>');
    Ok(())
}

#[test]
fn characters_are_typed_in_a_row(rt: HostRuntime) -> Result<(), Fail> {
    let mut text = GapText::of(rt.alloc(), &['<', '>'])?;
    type_in_a_row(&rt, &mut text)?;
    Ok(())
}
