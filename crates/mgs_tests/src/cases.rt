// Commands on the case of letters, as plans over small texts and as what they put in.
use crate::plans::{altered, at};
use mgs_edit::{Around, Case, Goes, Put, alteration, put_chars};
use mgs_model::{Alteration, Message, Notice, Short};
use mgs_text::{PlainText, Text};
use std::alloc::Global;
use std::process::Abort;
use std::test::Fail;

// What comes in another case, and where the point goes, or what is told, at a place of a text with an argument.
fn cased(
    rt: &impl Abort,
    text: &PlainText,
    place: usize,
    argument: Option<usize>,
    command: Alteration,
) -> Result<(Put, Goes), Message> {
    match altered(rt, text, place, argument, command) {
        Ok((_, _, put, point)) => Ok((put, point)),
        Err(message) => Err(message),
    }
}

// `one two`: from inside a word, over more than there are, at the end, and no times.
#[test]
fn goes_over_words(rt: HostRuntime) -> Result<(), Fail> {
    let text = PlainText::of(rt.alloc(), &['o', 'n', 'e', ' ', 't', 'w', 'o'])?;
    assert!(rt; text.len() == 7);
    let word = Put::Cased {
        from: 1,
        to: 3,
        case: Case::Upper,
    };
    assert!(rt; cased(&rt, &text, 1, None, Alteration::UpcaseWord) == Ok((word, Goes::Behind)));
    let words = Put::Cased {
        from: 3,
        to: 7,
        case: Case::Lower,
    };
    assert!(rt;
        cased(&rt, &text, 3, Some(9999), Alteration::DowncaseWord) == Ok((words, Goes::Behind))
    );
    assert!(rt;
        cased(&rt, &text, 7, None, Alteration::CapitalizeWord)
            == Err(Message::Says(Notice::EndOfBuffer))
    );
    let none = Put::Cased {
        from: 7,
        to: 7,
        case: Case::Capitalized,
    };
    assert!(rt;
        cased(&rt, &text, 7, Some(0), Alteration::CapitalizeWord) == Ok((none, Goes::Behind))
    );
    Ok(())
}

// What comes in another case from place 2 of a text with a mark at 6, and where the point goes.
fn region_cased(rt: &impl Abort, text: &PlainText) -> Option<(Put, Goes)> {
    assert!(rt; text.len() == 7);
    let marked = Around {
        mark: Some(6),
        ..at(2, None)
    };
    match alteration(text, &marked, Alteration::UpcaseRegion) {
        Ok(change) => Some((change.put, change.finish.point)),
        Err(_) => None,
    }
}

// A region goes from the mark to the point, or back, and the point stays.
#[test]
fn goes_over_a_region(rt: HostRuntime) -> Result<(), Fail> {
    let text = PlainText::of(rt.alloc(), &['o', 'n', 'e', ' ', 't', 'w', 'o'])?;
    let region = Put::Cased {
        from: 2,
        to: 6,
        case: Case::Upper,
    };
    assert!(rt; region_cased(&rt, &text) == Some((region, Goes::To(2))));
    assert!(rt;
        cased(&rt, &text, 2, None, Alteration::DowncaseRegion) == Err(Message::Says(Notice::NoMark))
    );
    Ok(())
}

// Whether the letters from one place of a text up to another are written so in that case.
fn is_written(
    rt: &impl Abort,
    alloc: Global,
    text: &PlainText,
    from: usize,
    to: usize,
    case: Case,
    expected: &[char],
) -> Result<bool, Short> {
    assert!(rt; from <= to && to <= text.len());
    let chars = put_chars(alloc, text, &[], &Put::Cased { from, to, case })?;
    Ok(chars.as_slice() == expected)
}

// What is written of `aB 1cD`.
const WRITTEN: [(usize, usize, Case, &[char]); 3] = [
    (0, 6, Case::Upper, &['A', 'B', ' ', '1', 'C', 'D']),
    (1, 5, Case::Lower, &['b', ' ', '1', 'c']),
    (1, 6, Case::Capitalized, &['B', ' ', '1', 'C', 'd']),
];

#[test]
fn writes_the_letters(rt: HostRuntime) -> Result<(), Fail> {
    let text = PlainText::of(rt.alloc(), &['a', 'B', ' ', '1', 'c', 'D'])?;
    assert!(rt; text.len() == 6);
    for &(from, to, case, expected) in &WRITTEN {
        assert!(rt;
            is_written(&rt, rt.alloc(), &text, from, to, case, expected)?,
            "{from} to {to}"
        );
    }
    Ok(())
}
