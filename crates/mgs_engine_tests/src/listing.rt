// The listing of all buffers and an access list, as they are drawn.
use super::fixtures::list_of;
use mgs_buffers::Buffers;
use mgs_grid::{Grid, Line};
use mgs_marks::PlainMarked;
use mgs_model::{Mask, Name, Right};
use mgs_policy::Directory;
use mgs_screen::{Sight, Viewer, draw_entries, draw_listing};
use std::alloc::Global;
use std::process::Abort;
use std::test::Fail;

fn named(rt: &impl Abort, text: &str) -> Name {
    match Name::read(text) {
        Some(name) => name,
        None => panic!(rt; "no name"),
    }
}

// `notes` of ann and of a group, or of none, which was edited, and `secret` of cat.
fn two(alloc: Global, group: Option<&str>, rt: &impl Abort) -> Buffers<PlainMarked> {
    let mut all = Buffers::new(alloc);
    let list = list_of(&["ALLOW OWNER@ rwatdcCo"], rt);
    assert!(rt; all.add("notes", "ann", group, list, &['a'], false).is_ok());
    let list = list_of(&["ALLOW OWNER@ rwatdcCo"], rt);
    assert!(rt; all.add("secret", "cat", None, list, &['b'], false).is_ok());
    let notes = named(rt, "notes");
    assert!(rt; all.has(&notes));
    assert!(rt; all.text_len(&notes) == 1);
    assert!(rt; all.serial(&notes) == 0);
    let (directory, ann) = (Directory::new(alloc), named(rt, "ann"));
    let mask = Mask::of(Right::WriteData);
    assert!(rt; all.edit_as(&directory, &ann, &notes, mask, 1, 1, &['c']) == Ok(()));
    all
}

// Whether a row of 30 columns shows this text and blanks.
fn reads(line: &Line, text: &str, is_reversed: bool) -> bool {
    for i in 0..30 {
        let byte = match text.as_bytes().get(i) {
            Some(byte) => *byte,
            None => b' ',
        };
        if line.text().get(i) != Some(&(byte as char)) {
            return false;
        }
    }
    line.text().len() == 30 && line.is_reversed() == is_reversed
}

// Whether a window of three rows shows this text in the first, and blanks in the others, and this is its mode line.
fn shows(grid: &Grid, text: &str, mode: &str) -> bool {
    match grid.lines() {
        [first, second, third, last, ..] => {
            reads(first, text, false)
                && reads(second, "", false)
                && reads(third, "", false)
                && reads(last, mode, true)
        }
        _ => false,
    }
}

// Whether a user is shown this first row of the listing from a row on.
fn lists(
    rt: &impl Abort,
    alloc: Global,
    group: Option<&str>,
    user: &str,
    row: usize,
    text: &str,
) -> Result<bool, Fail> {
    let mut grid = Grid::new(alloc, 6, 30)?;
    let all = two(alloc, group, rt);
    let user = named(rt, user);
    assert!(rt; grid.rows() > 3);
    let directory = Directory::new(alloc);
    let mut judge = all.judge()?;
    let viewer = Viewer {
        directory: &directory,
        user: &user,
    };
    let sight = Sight {
        first: 0,
        height: 3,
        row,
    };
    draw_listing(&all, &mut judge, &viewer, sight, &mut grid);
    Ok(shows(&grid, text, "-Buffers----------------------"))
}

#[test]
fn the_listing_shows_what_may_be_seen(rt: HostRuntime) -> Result<(), Fail> {
    let alloc = rt.alloc();
    assert!(rt; lists(&rt, alloc, None, "ann", 0, "*       2 notes ann")?);
    assert!(rt; lists(&rt, alloc, None, "cat", 0, "        1 secret cat")?);
    assert!(rt; lists(&rt, alloc, None, "cat", 1, "")?);
    let staff = Some("staff");
    assert!(rt; lists(&rt, alloc, staff, "ann", 0, "*       2 notes ann:staff")?);
    assert!(rt; lists(&rt, alloc, staff, "cat", 0, "        1 secret cat")?);
    Ok(())
}

// Whether a user is shown this first row and this mode line for the access list of `notes`.
fn acl_shows(
    rt: &impl Abort,
    alloc: Global,
    user: &str,
    text: &str,
    mode: &str,
) -> Result<bool, Fail> {
    let mut grid = Grid::new(alloc, 6, 30)?;
    let all = two(alloc, None, rt);
    let user = named(rt, user);
    let notes = named(rt, "notes");
    assert!(rt; all.has(&notes));
    assert!(rt; grid.rows() > 3);
    let directory = Directory::new(alloc);
    let mut judge = all.judge()?;
    let viewer = Viewer {
        directory: &directory,
        user: &user,
    };
    let sight = Sight {
        first: 0,
        height: 3,
        row: 0,
    };
    draw_entries(&all, &mut judge, &viewer, &notes, sight, &mut grid);
    Ok(shows(&grid, text, mode))
}

#[test]
fn an_access_list_is_shown_or_masked(rt: HostRuntime) -> Result<(), Fail> {
    let alloc = rt.alloc();
    let entry = "1 ALLOW OWNER@ rwatdcCo";
    assert!(rt; acl_shows(&rt, alloc, "ann", entry, "-Acl-notes--------------------")?);
    let unlisted = "[no acl: no entry]";
    assert!(rt;
        acl_shows(
            &rt,
            alloc,
            "bob",
            unlisted,
            "-Acl-?------------------------"
        )?
    );
    Ok(())
}
