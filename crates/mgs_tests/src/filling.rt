// Paragraphs that are filled, as plans over small texts and as what they put in.
use crate::plans::{altered, at};
use mgs_edit::{Goes, Put, alteration, is_edit, put_chars, refill};
use mgs_model::{Alteration, Short};
use mgs_text::{PlainText, Text};
use std::alloc::Global;
use std::process::Abort;
use std::test::Fail;

// `a`, an empty line, `bb c` and `d`, a line with a tab, and `e`: the paragraph is the two lines in the middle.
#[test]
fn fills_the_lines_around(rt: HostRuntime) -> Result<(), Fail> {
    let text = PlainText::of(
        rt.alloc(),
        &[
            'a', '\n', '\n', 'b', 'b', ' ', 'c', '\n', 'd', '\n', '\t', '\n', 'e',
        ],
    )?;
    assert!(rt; text.len() == 13);
    let filled = Put::Filled {
        from: 3,
        to: 9,
        fill: 4,
        len: 6,
    };
    for &place in &[3, 6, 9] {
        assert!(rt;
            altered(&rt, &text, place, None, Alteration::FillParagraph)
                == Ok((3, 9, filled, Goes::Behind))
        );
    }
    Ok(())
}

// Whether filling from a place of a text is an edit.
fn is_filled(rt: &impl Abort, text: &PlainText, place: usize) -> bool {
    assert!(rt; place <= text.len());
    match alteration(text, &at(place, None), Alteration::FillParagraph) {
        Ok(change) => is_edit(&change, 0),
        Err(_) => panic!(rt; "refused"),
    }
}

// From a blank line nothing is filled.
#[test]
fn leaves_blank_lines(rt: HostRuntime) -> Result<(), Fail> {
    let text = PlainText::of(rt.alloc(), &['a', '\n', ' ', '\n', 'b'])?;
    assert!(rt; text.len() == 5);
    assert!(rt; !is_filled(&rt, &text, 3));
    let nothing = Ok((3, 3, Put::Nothing, Goes::Stays));
    assert!(rt; altered(&rt, &text, 3, None, Alteration::FillParagraph) == nothing);
    Ok(())
}

// White before the first word and behind the last goes, and one space or line feed stands between two.
#[test]
fn counts_what_is_written(rt: HostRuntime) -> Result<(), Fail> {
    let text = PlainText::of(
        rt.alloc(),
        &[
            ' ', 'a', '\t', ' ', 'b', 'c', '\n', ' ', 'd', 'd', 'd', 'd', 'd', ' ',
        ],
    )?;
    assert!(rt; text.len() == 14);
    let filled = Put::Filled {
        from: 0,
        to: 14,
        fill: 4,
        len: 10,
    };
    match alteration(&text, &at(2, None), Alteration::FillParagraph) {
        Err(_) => panic!(rt; "refused"),
        Ok(change) => {
            assert!(rt; change.put == filled);
            assert!(rt; is_edit(&change, 0));
            let chars = put_chars(rt.alloc(), &text, &[], &change.put)?;
            assert!(rt;
                chars.as_slice() == ['a', ' ', 'b', 'c', '\n', 'd', 'd', 'd', 'd', 'd'].as_slice()
            );
        }
    }
    Ok(())
}

// A word may end in the fill column, one that is longer than a line stands alone, and a control character takes two cells.
const FILLED: [(&[char], usize, &[char]); 5] = [
    (
        &[' ', 'a', '\t', ' ', 'b', 'c', '\n', 'd'],
        4,
        &['a', ' ', 'b', 'c', '\n', 'd'],
    ),
    (
        &['a', 'b', 'c', ' ', 'd', '\n', 'e'],
        2,
        &['a', 'b', 'c', '\n', 'd', '\n', 'e'],
    ),
    (&[' ', '\n'], 4, &[]),
    (&['a', ' ', '\x01', '\x01'], 6, &['a', ' ', '\x01', '\x01']),
    (&['a', ' ', '\x01', '\x01'], 5, &['a', '\n', '\x01', '\x01']),
];

// Whether characters are filled so.
fn refills(alloc: Global, chars: &[char], fill: usize, expected: &[char]) -> Result<bool, Short> {
    let filled = refill(alloc, chars, fill)?;
    Ok(filled.as_slice() == expected)
}

#[test]
fn words_are_filled(rt: HostRuntime) -> Result<(), Fail> {
    for &(chars, fill, expected) in &FILLED {
        assert!(rt;
            refills(rt.alloc(), chars, fill, expected)?,
            "{chars:?} up to {fill}"
        );
    }
    Ok(())
}
