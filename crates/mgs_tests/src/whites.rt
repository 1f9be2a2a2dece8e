// Commands on white space and blank lines, as plans over small texts.
use crate::plans::altered;
use mgs_edit::{Goes, Put};
use mgs_model::{Alteration, Message, Notice};
use mgs_text::{PlainText, Text};
use std::process::Abort;
use std::test::Fail;

const SPACE: Put = Put::Character { put: ' ', times: 1 };

// `a`, a space, a tab, a space and `b`; with no white one space comes in.
#[test]
fn takes_out_white(rt: HostRuntime) -> Result<(), Fail> {
    let text = PlainText::of(rt.alloc(), &['a', ' ', '\t', ' ', 'b', 'c'])?;
    assert!(rt; text.len() == 6);
    assert!(rt;
        altered(&rt, &text, 2, None, Alteration::JustOneSpace) == Ok((1, 4, SPACE, Goes::Behind))
    );
    assert!(rt;
        altered(&rt, &text, 5, None, Alteration::JustOneSpace) == Ok((5, 5, SPACE, Goes::Behind))
    );
    assert!(rt;
        altered(&rt, &text, 4, None, Alteration::DeleteHorizontalSpace)
            == Ok((1, 4, Put::Nothing, Goes::To(1)))
    );
    Ok(())
}

// `a`, a line with a space, an empty line and `b`: from `a`, from the line with the space, and from `b`.
#[test]
fn takes_out_blank_lines(rt: HostRuntime) -> Result<(), Fail> {
    let text = PlainText::of(rt.alloc(), &['a', '\n', ' ', '\n', '\n', 'b'])?;
    assert!(rt; text.len() == 6);
    for &(place, from, to, goes) in &[
        (0, 1, 4, Goes::Stays),
        (3, 2, 4, Goes::To(2)),
        (5, 6, 6, Goes::Stays),
    ] {
        assert!(rt;
            altered(&rt, &text, place, None, Alteration::DeleteBlankLines)
                == Ok((from, to, Put::Nothing, goes))
        );
    }
    Ok(())
}

// `a` and a space, and two spaces and `b`.
#[test]
fn joins_lines(rt: HostRuntime) -> Result<(), Fail> {
    let text = PlainText::of(rt.alloc(), &['a', ' ', '\n', ' ', ' ', 'b'])?;
    assert!(rt; text.len() == 6);
    assert!(rt;
        altered(&rt, &text, 6, None, Alteration::JoinLine) == Ok((1, 5, SPACE, Goes::To(1)))
    );
    assert!(rt;
        altered(&rt, &text, 2, None, Alteration::JoinLine)
            == Err(Message::Says(Notice::BeginningOfBuffer))
    );
    Ok(())
}
