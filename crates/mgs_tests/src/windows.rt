// The windows of a session.
use crate::people::named;
use mgs_model::MarkId;
use mgs_windows::{WindowMarks, Windows};
use std::process::Abort;
use std::test::Fail;

#[test]
fn one_window_fills_the_screen(rt: HostRuntime) -> Result<(), Fail> {
    let windows = Windows::one(6, None, Vec::with_capacity(rt.alloc(), 1)?);
    assert!(rt; windows.rows() == 6 && windows.as_slice().len() == 1);
    assert!(rt; windows.selected() == 0 && windows.places().is_empty());
    let window = windows.selected_window();
    assert!(rt; window.height == 4 && window.shows.is_none());
    let name = named(&rt, "notes");
    let shows = WindowMarks {
        name,
        point: MarkId::of(4),
        mark: None,
        top: MarkId::of(5),
    };
    let mut windows = Windows::one(6, Some(shows), Vec::with_capacity(rt.alloc(), 1)?);
    windows.set_mark(MarkId::of(7));
    let window = windows.selected_window();
    assert!(rt; window.height == 4);
    let Some(marks) = window.shows else {
        panic!(rt; "nothing shown");
    };
    assert!(rt; marks.name == name);
    assert!(rt; marks.point.slot() == 4);
    assert!(rt; marks.top.slot() == 5);
    let Some(mark) = marks.mark else {
        panic!(rt; "no mark");
    };
    assert!(rt; mark.slot() == 7);
    Ok(())
}
