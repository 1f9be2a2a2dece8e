// Plans of commands over small texts.
ghost use Rattle.std.specs.Prelude.{◌≡◌, None};

use mgs_edit::{
    Around, Goes, Joins, Piece, Put, alteration, insertion, motion, reading_insertion, scroll,
    scrolled_row,
};
use mgs_model::{
    Alteration, CursorPosition, Insertion, Kind, Message, Motion, Notice, ReadingInsertion,
    Scrolling, Short,
};
use mgs_text::{PlainText, Text};
use std::alloc::Global;
use std::process::Abort;
use std::test::Fail;

// At a place of a window with four rows, with a fill column of 4, after a command of that kind and without a mark.
pub(crate) fn after(kind: Kind, place: usize, argument: Option<usize>) -> Around
    ensures place { result.place ≡ place }
    ensures mark { result.mark ≡ None }
{
    Around {
        place,
        mark: None,
        argument,
        killed: 0,
        kind,
        height: 4,
        fill: 4,
    }
}

pub(crate) fn at(place: usize, argument: Option<usize>) -> Around
    ensures place { result.place ≡ place }
    ensures mark { result.mark ≡ None }
{
    after(Kind::Other, place, argument)
}

// What an alteration takes out and puts in and where the point goes, or what is told, at a place of a text with an argument.
pub(crate) fn altered(
    rt: &impl Abort,
    text: &PlainText,
    place: usize,
    argument: Option<usize>,
    command: Alteration,
) -> Result<(usize, usize, Put, Goes), Message> {
    assert!(rt; place <= text.len());
    match alteration(text, &at(place, argument), command) {
        Ok(change) => Ok((change.from, change.to, change.put, change.finish.point)),
        Err(message) => Err(message),
    }
}

// In `ab` and `cd`, in two lines: from a place with an argument, what a kill takes out.
const KILLS: [(usize, Option<usize>, Result<(usize, usize), Message>); 6] = [
    (0, None, Ok((0, 2))),
    (2, None, Ok((2, 3))),
    (0, Some(1), Ok((0, 3))),
    (0, Some(9999), Ok((0, 5))),
    (5, Some(0), Ok((3, 5))),
    (5, None, Err(Message::Says(Notice::EndOfBuffer))),
];

// What a line's kill takes out, or what is told.
fn killed(
    rt: &impl Abort,
    text: &PlainText,
    place: usize,
    argument: Option<usize>,
) -> Result<(usize, usize), Message> {
    match altered(rt, text, place, argument, Alteration::KillLine) {
        Ok((from, to, _, _)) => Ok((from, to)),
        Err(message) => Err(message),
    }
}

#[test]
fn lines_are_killed(rt: HostRuntime) -> Result<(), Fail> {
    let text = PlainText::of(rt.alloc(), &['a', 'b', '\n', 'c', 'd'])?;
    assert!(rt; text.len() == 5);
    for &(place, argument, wanted) in &KILLS {
        assert!(rt;
            killed(&rt, &text, place, argument) == wanted,
            "from {place}"
        );
    }
    Ok(())
}

// The piece that goes into the kill buffer from place 1 of a text, after a command of that kind.
fn piece(rt: &impl Abort, text: &PlainText, kind: Kind, command: Alteration) -> Option<Piece> {
    assert!(rt; 1 <= text.len());
    match alteration(text, &after(kind, 1, None), command) {
        Ok(change) => change.finish.kill,
        Err(_) => None,
    }
}

// A kill goes behind the one before, one back goes in front of it, and after another command it begins anew.
#[test]
fn kills_are_joined(rt: HostRuntime) -> Result<(), Fail> {
    let text = PlainText::of(rt.alloc(), &['a', 'b'])?;
    assert!(rt; text.len() == 2);
    let behind = Piece {
        from: 1,
        to: 2,
        joins: Joins::Behind,
    };
    assert!(rt; piece(&rt, &text, Kind::Kill, Alteration::KillWord) == Some(behind));
    for &(kind, joins) in &[(Kind::Kill, Joins::InFront), (Kind::Other, Joins::New)] {
        let before = Piece {
            from: 0,
            to: 1,
            joins,
        };
        assert!(rt; piece(&rt, &text, kind, Alteration::BackwardKillWord) == Some(before));
    }
    Ok(())
}

const GOAL_3: Kind = Kind::Line { goal: 3 };

// In `abc`, an empty line and `abcd`: after a command, from a place with an argument, where a line down is.
const DOWN: [(Kind, usize, Option<usize>, Result<Goes, Message>); 5] = [
    (Kind::Other, 3, None, Ok(Goes::To(4))),
    (GOAL_3, 4, None, Ok(Goes::To(8))),
    (Kind::Other, 4, None, Ok(Goes::To(5))),
    (
        Kind::Other,
        9,
        None,
        Err(Message::Says(Notice::EndOfBuffer)),
    ),
    (Kind::Other, 9, Some(0), Ok(Goes::To(9))),
];

// Where a line down is from a place of a text, or what is told.
fn down(
    rt: &impl Abort,
    text: &PlainText,
    kind: Kind,
    place: usize,
    argument: Option<usize>,
) -> Result<Goes, Message> {
    assert!(rt; place <= text.len() && text.len() < 100);
    match motion(text, &after(kind, place, argument), Motion::NextLine) {
        Ok(finish) => Ok(finish.point),
        Err(message) => Err(message),
    }
}

// What is told of the start of `hi`.
fn told(rt: &impl Abort, alloc: Global) -> Result<Message, Short> {
    let text = PlainText::of(alloc, &['h', 'i'])?;
    assert!(rt; text.len() == 2);
    match motion(&text, &at(0, None), Motion::WhatCursorPosition) {
        Ok(finish) => Ok(finish.told),
        Err(_) => panic!(rt; "refused"),
    }
}

#[test]
fn motions_are_planned(rt: HostRuntime) -> Result<(), Short> {
    let here = CursorPosition {
        point: 0,
        size: 2,
        line: 1,
        column: 0,
    };
    assert!(rt; told(&rt, rt.alloc())? == Message::CharacterAt('h', here));
    let text = PlainText::of(rt.alloc(), &['a', 'b', 'c', '\n', '\n', 'a', 'b', 'c', 'd'])?;
    assert!(rt; text.len() == 9);
    for &(kind, place, argument, wanted) in &DOWN {
        assert!(rt;
            down(&rt, &text, kind, place, argument) == wanted,
            "from {place}"
        );
    }
    Ok(())
}

// Where a scroll takes the point from a place of a text, or what is told.
fn scrolled(
    rt: &impl Abort,
    text: &PlainText,
    place: usize,
    argument: Option<usize>,
    command: Scrolling,
) -> Result<Goes, Message> {
    assert!(rt; place <= text.len());
    match scroll(text, &at(place, argument), command) {
        Ok(finish) => Ok(finish.point),
        Err(message) => Err(message),
    }
}

// In four empty lines: from a place with an argument, where a scroll takes the point.
const SCROLLED: [(usize, Option<usize>, Scrolling, Result<Goes, Message>); 3] = [
    (0, None, Scrolling::ScrollUp, Ok(Goes::To(2))),
    (4, Some(1), Scrolling::ScrollDown, Ok(Goes::To(3))),
    (
        4,
        None,
        Scrolling::ScrollUp,
        Err(Message::Says(Notice::EndOfBuffer)),
    ),
];

#[test]
fn scrolls_are_planned(rt: HostRuntime) -> Result<(), Fail> {
    let text = PlainText::of(rt.alloc(), &['\n', '\n', '\n', '\n'])?;
    assert!(rt; text.len() == 4);
    for &(place, argument, command, wanted) in &SCROLLED {
        assert!(rt;
            scrolled(&rt, &text, place, argument, command) == wanted,
            "from {place}"
        );
    }
    assert!(rt; scrolled_row(510, 4, Scrolling::ScrollUp) == 512);
    assert!(rt; scrolled_row(3, 4, Scrolling::ScrollDown) == 0);
    Ok(())
}

// Where an insertion at place 1 of three characters takes the point, or what is told.
fn inserted(command: Insertion) -> Result<Goes, Message> {
    match insertion(3, &at(1, None), command) {
        Ok(change) => Ok(change.finish.point),
        Err(message) => Err(message),
    }
}

// What a new line with the white of the one before puts in, at the end of a space, a tab and `a`.
fn indented(rt: &impl Abort, alloc: Global) -> Result<Put, Short> {
    let text = PlainText::of(alloc, &[' ', '\t', 'a'])?;
    assert!(rt; text.len() == 3);
    Ok(reading_insertion(&text, &at(3, None), ReadingInsertion::NewlineAndIndent).put)
}

#[test]
fn insertions_and_exchanges_are_planned(rt: HostRuntime) -> Result<(), Short> {
    assert!(rt; inserted(Insertion::Yank) == Err(Message::Says(Notice::NothingToYank)));
    assert!(rt; inserted(Insertion::OpenLine) == Ok(Goes::To(1)));
    let put = Put::Indented {
        feeds: 1,
        from: 0,
        to: 2,
    };
    assert!(rt; indented(&rt, rt.alloc())? == put);
    let text = PlainText::of(rt.alloc(), &['a', 'b', 'c', '\n'])?;
    assert!(rt; text.len() == 4);
    let exchanged = Ok((1, 3, Put::Exchanged { at: 2 }, Goes::To(3)));
    assert!(rt; altered(&rt, &text, 3, None, Alteration::TransposeChars) == exchanged);
    let refused = Err(Message::Says(Notice::BeginningOfBuffer));
    assert!(rt; altered(&rt, &text, 0, None, Alteration::TransposeChars) == refused);
    Ok(())
}
