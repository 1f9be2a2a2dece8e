// An edit of a buffer is taken back by the plan of its undo.
use crate::buffers::{change, has_text};
use crate::people::{list_of, named};
use mgs_buffers::Buffers;
use mgs_edit::{Goes, is_undo_an_edit, is_undo_too_long, undo, undo_target};
use mgs_marks::PlainMarked;
use mgs_model::{Kind, Name, Short};
use mgs_policy::Directory;
use std::process::Abort;
use std::test::Fail;

// What takes back the last edit of a buffer after a command of that kind: from where up to where it takes out, what it puts in, and the
// kind that is left.
fn plan_of(
    rt: &impl Abort,
    all: &Buffers<PlainMarked>,
    name: &Name,
    kind: Kind,
) -> Result<(usize, usize, Vec<char>, Kind), Fail> {
    assert!(rt; all.has(name));
    let (size, serial) = (all.text_len(name), all.serial(name));
    assert!(rt; serial < 1000);
    let target = undo_target(kind, name, serial);
    let edit = all.item(name, target).ok_or("not kept")?;
    let undone = undo(edit, name, target, serial, size);
    assert!(rt; undone.serial == target && undone.finish.point == Goes::Behind);
    assert!(rt; is_undo_an_edit(&undone) && !is_undo_too_long(size, &undone));
    let to = undone.from.saturating_add(undone.gone);
    Ok((undone.from, to, edit.removed.clone()?, undone.finish.kind))
}

// Takes back the last edit of a buffer after a command of that kind. The kind that is left.
fn take_back(
    rt: &impl Abort,
    all: &mut Buffers<PlainMarked>,
    directory: &Directory,
    name: &Name,
    kind: Kind,
) -> Result<Kind, Fail> {
    let (from, to, removed, left) = plan_of(rt, all, name, kind)?;
    change(rt, all, directory, name, from, to, &removed)?;
    Ok(left)
}

fn undid(buffer: Name, target: u64, last: u64) -> Kind {
    Kind::Undo {
        buffer,
        target,
        last,
    }
}

// ann takes back that a buffer was edited.
fn unmodify(
    rt: &impl Abort,
    all: &mut Buffers<PlainMarked>,
    directory: &Directory,
    name: &Name,
) -> bool {
    all.has(name) && all.unmodify_as(directory, &named(rt, "ann"), name) == Ok(())
}

// Whether there is a buffer of a name that was not edited.
fn is_unmodified(all: &Buffers<PlainMarked>, name: &Name) -> bool {
    all.has(name) && !all.is_modified(name)
}

// Whether a buffer keeps no edit of this serial.
fn is_not_kept(all: &Buffers<PlainMarked>, name: &Name, serial: u64) -> bool {
    all.has(name) && all.item(name, serial).is_none()
}

// Two edits of a buffer.
fn edit_twice(
    rt: &impl Abort,
    all: &mut Buffers<PlainMarked>,
    directory: &Directory,
    name: &Name,
) -> Result<(), Short> {
    change(rt, all, directory, name, 1, 2, &['x', 'y'])?;
    change(rt, all, directory, name, 3, 4, &[])?;
    assert!(rt; has_text(all, name, &['a', 'x', 'y'], 2)?);
    assert!(rt; unmodify(rt, all, directory, name));
    assert!(rt; is_unmodified(all, name));
    Ok(())
}

// Two undos of these edits, one right after the other.
fn take_both_back(
    rt: &impl Abort,
    all: &mut Buffers<PlainMarked>,
    directory: &Directory,
    name: &Name,
) -> Result<(), Fail> {
    edit_twice(rt, all, directory, name)?;
    let first = take_back(rt, all, directory, name, Kind::Other)?;
    assert!(rt; first == undid(*name, 2, 3));
    let second = take_back(rt, all, directory, name, first)?;
    assert!(rt; second == undid(*name, 1, 4));
    assert!(rt; has_text(all, name, &['a', 'b', 'c'], 4)?);
    assert!(rt; is_not_kept(all, name, 0));
    Ok(())
}

#[test]
fn two_undos_in_a_row(rt: HostRuntime) -> Result<(), Fail> {
    let mut all = Buffers::<PlainMarked>::new(rt.alloc());
    let list = list_of(&rt, "ALLOW OWNER@ rw");
    assert!(rt; all.add("notes", "ann", None, list, &['a', 'b', 'c'], false) == Ok(()));
    take_both_back(
        &rt,
        &mut all,
        &Directory::new(rt.alloc()),
        &named(&rt, "notes"),
    )
}
