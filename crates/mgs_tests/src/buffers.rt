// Buffers by their names.
ghost use Rattle.std.specs.Prelude.{◌+◌, ◌<◌, ◌≤◌, ◌^◌, length};
ghost use Rattle.mgs_buffers.specs.MarkedBuffer.{HasBuffer, marked_at};

use crate::people::{list_of, named, with_entry};
use mgs_acl::List;
use mgs_buffers::{AddFault, Buffers, EditFault};
use mgs_marks::{Marked, PlainMarked};
use mgs_model::{Decision, Mask, Name, Right, Short};
use mgs_policy::Directory;
use mgs_text::Text;
use std::alloc::Global;
use std::process::Abort;
use std::test::Fail;

// Two buffers of ann: `first`, which she alone may see, and `second`, which everyone may.
fn two(alloc: Global, rt: &impl Abort) -> Buffers<PlainMarked> {
    let mut all = Buffers::new(alloc);
    assert!(rt; all.len() == 0);
    let list = list_of(rt, "ALLOW OWNER@ rt");
    assert!(rt; all.add("first", "ann", None, list, &['a', 'b'], false) == Ok(()));
    let list = list_of(rt, "ALLOW EVERYONE@ rwt");
    assert!(rt; all.add("second", "ann", None, list, &['c', 'd', 'e'], true) == Ok(()));
    all
}

// Where a mark at `p` is after a user put characters in at the front, where he could.
fn moved<T: Marked + Drop>(
    all: &mut Buffers<T>,
    directory: &Directory,
    user: &Name,
    name: &Name,
    p: usize,
    put: &[char],
) -> Result<Option<usize>, Short>
    requires kept { HasBuffer name.now all.old }
    requires within { p ≤ length (marked_at name.now all.old).buffer.text }
    requires serial { (marked_at name.now all.old).buffer.serial < 2 ^ 63 }
    requires room { length (marked_at name.now all.old).buffer.text + length put.now ≤ 1048576 }
{
    let id = all.add_mark(name, p)?;
    match all.edit_as(directory, user, name, Mask::of(Right::WriteData), 0, 0, put) {
        Ok(()) => {}
        Err(_) => return Ok(None),
    }
    let now = all.pos(name, id);
    all.drop_mark(name, id);
    Ok(Some(now))
}

// Where a mark at `p` is after it was placed at `q`.
fn placed<T: Marked + Drop>(
    all: &mut Buffers<T>,
    name: &Name,
    p: usize,
    q: usize,
) -> Result<usize, Short>
    requires kept { HasBuffer name.now all.old }
    requires from { p ≤ length (marked_at name.now all.old).buffer.text }
    requires to { q ≤ length (marked_at name.now all.old).buffer.text }
{
    let id = all.add_mark(name, p)?;
    all.place(name, id, q);
    Ok(all.pos(name, id))
}

// A name, an owner, a group or none, whether the text is too long, and the fault. The faults are told in their order: the names, a name
// that is taken, one buffer too many, and a text that is too long.
const REFUSED: [(&str, &str, Option<&str>, bool, AddFault); 8] = [
    ("", "ann", None, false, AddFault::Name),
    ("first", "Ann", None, false, AddFault::Name),
    ("first", "ann", Some("Staff"), false, AddFault::Name),
    ("third", "ann", Some(""), true, AddFault::Name),
    ("first", "bob", None, false, AddFault::Twice),
    ("first", "ann", Some("staff"), false, AddFault::Twice),
    ("first", "ann", None, true, AddFault::Twice),
    ("third", "ann", Some("staff"), true, AddFault::Long),
];

// Whether a buffer is refused with this fault, and the two stay alone.
fn is_refused(
    all: &mut Buffers<PlainMarked>,
    name: &str,
    owner: &str,
    group: Option<&str>,
    text: &[char],
    fault: AddFault,
) -> bool {
    all.add(name, owner, group, List::new(), text, false) == Err(fault) && all.len() == 2
}

// Adds a third buffer with a text, and empty ones up to the most there may be.
fn fill(
    rt: &impl Abort,
    alloc: Global,
    all: &mut Buffers<PlainMarked>,
    text: &[char],
) -> Result<(), Fail> {
    assert!(rt; all.add("third", "ann", None, List::new(), text, false) == Ok(()));
    assert!(rt; all.len() == 3);
    for i in all.len()..256 {
        let name = format!(in alloc; "b{i}")?;
        assert!(rt; all.add(&name, "ann", None, List::new(), &[], false) == Ok(()));
    }
    Ok(())
}

// Whether no buffer is added any more.
fn is_full(all: &mut Buffers<PlainMarked>, long: &[char]) -> bool {
    all.add("second", "ann", None, List::new(), &[], false) == Err(AddFault::Twice)
        && all.add("more", "ann", None, List::new(), long, false) == Err(AddFault::Full)
        && all.len() == 256
}

#[test]
fn buffers_are_refused(rt: HostRuntime) -> Result<(), Fail> {
    let mut all = two(rt.alloc(), &rt);
    let long = vec![in rt.alloc(); 'x'; 1_048_577]?;
    for &(name, owner, group, is_long, fault) in &REFUSED {
        let text = if is_long { long.as_slice() } else { &[] };
        assert!(rt;
            is_refused(&mut all, name, owner, group, text, fault),
            "{name} of {owner}"
        );
    }
    fill(&rt, rt.alloc(), &mut all, &long[1..])?;
    assert!(rt; is_full(&mut all, &long));
    Ok(())
}

// Whether there is a buffer of this name, with this text after so many edits.
pub(crate) fn has_text<T: Marked + Drop>(
    all: &Buffers<T>,
    name: &Name,
    text: &[char],
    edits: u64,
) -> Result<bool, Short> {
    if !all.has(name) {
        return Ok(false);
    }
    let len = all.text_len(name);
    let now = all.text(name).copy(0, len)?;
    let is_counted = all.serial(name) == edits && all.is_modified(name) == (edits > 0);
    Ok(is_counted && now.as_slice() == text)
}

// ann replaces what stands in a buffer from one place up to another.
pub(crate) fn change(
    rt: &impl Abort,
    all: &mut Buffers<PlainMarked>,
    directory: &Directory,
    name: &Name,
    from: usize,
    to: usize,
    put: &[char],
) -> Result<(), Short> {
    assert!(rt; all.has(name));
    let size = all.text_len(name);
    assert!(rt; from <= to && to <= size && size < 1000);
    assert!(rt; all.serial(name) < 1000 && put.len() < 1000);
    let (ann, mask) = (named(rt, "ann"), Mask::of(Right::WriteData));
    match all.edit_as(directory, &ann, name, mask, from, to, put) {
        Ok(()) => Ok(()),
        Err(EditFault::Short) => Err(Short),
        Err(EditFault::Denied(_)) => panic!(rt; "ann is denied"),
    }
}

fn edit_second(
    rt: &impl Abort,
    all: &mut Buffers<PlainMarked>,
    directory: &Directory,
) -> Result<(), Short> {
    let (first, second) = (named(rt, "first"), named(rt, "second"));
    assert!(rt; !all.has(&named(rt, "third")));
    assert!(rt; has_text(all, &second, &['c', 'd', 'e'], 0)?);
    change(rt, all, directory, &second, 1, 2, &['x', 'y'])?;
    assert!(rt; has_text(all, &second, &['c', 'x', 'y', 'e'], 1)?);
    assert!(rt; has_text(all, &first, &['a', 'b'], 0)?);
    Ok(())
}

#[test]
fn the_buffer_of_the_name_is_edited(rt: HostRuntime) -> Result<(), Short> {
    let mut all = two(rt.alloc(), &rt);
    edit_second(&rt, &mut all, &Directory::new(rt.alloc()))
}

fn mark_second(
    rt: &impl Abort,
    all: &mut Buffers<PlainMarked>,
    directory: &Directory,
) -> Result<(), Short> {
    let (second, ann) = (named(rt, "second"), named(rt, "ann"));
    assert!(rt; all.has(&second));
    assert!(rt; all.text_len(&second) == 3 && all.serial(&second) == 0);
    assert!(rt; placed(all, &second, 0, 3)? == 3);
    assert!(rt; all.has(&second));
    assert!(rt; all.text_len(&second) == 3 && all.serial(&second) == 0);
    assert!(rt; moved(all, directory, &ann, &second, 2, &['u', 'v'])? == Some(4));
    Ok(())
}

#[test]
fn marks_follow_edits(rt: HostRuntime) -> Result<(), Short> {
    let mut all = two(rt.alloc(), &rt);
    mark_second(&rt, &mut all, &Directory::new(rt.alloc()))
}

const NO_WRITING: Decision = Decision::NotGranted {
    bit: Right::WriteData,
};

// Who may do what with the two buffers.
fn decide(rt: &impl Abort, all: &Buffers<PlainMarked>, directory: &Directory) {
    let (ann, bob) = (named(rt, "ann"), named(rt, "bob"));
    let (first, second) = (named(rt, "first"), named(rt, "second"));
    assert!(rt; all.has(&first) && all.has(&second));
    assert!(rt; all.grants(directory, &first, &ann, Right::ReadData));
    assert!(rt; !all.grants(directory, &first, &bob, Right::ReadData));
    assert!(rt; all.grants(directory, &second, &bob, Right::WriteData));
    assert!(rt; all.decide(directory, &first, &ann, Right::WriteData) == NO_WRITING);
    assert!(rt; all.first_shown(directory, &ann) == Some(first));
    assert!(rt; all.first_shown(directory, &bob) == Some(second));
}

#[test]
fn lists_and_owners_decide(rt: HostRuntime) {
    let all = two(rt.alloc(), &rt);
    let directory = Directory::new(rt.alloc());
    decide(&rt, &all, &directory);
}

// ann and bob, of whom bob is the staff.
fn staffed(rt: &impl Abort, alloc: Global) -> Directory {
    let mut directory = Directory::new(alloc);
    assert!(rt; directory.add_user("ann") == Ok(()));
    assert!(rt; directory.add_user("bob") == Ok(()));
    assert!(rt; directory.add_group("staff", &["bob"]) == Ok(()));
    directory
}

// Whether bob may write a buffer.
fn bob_writes(rt: &impl Abort, all: &Buffers<PlainMarked>, directory: &Directory) -> bool {
    let (name, bob) = (named(rt, "shared"), named(rt, "bob"));
    all.has(&name) && all.grants(directory, &name, &bob, Right::WriteData)
}

// A buffer of ann, which its owning group may write, belongs to the staff, and by her to none, and to the staff again.
fn regroup(
    rt: &impl Abort,
    all: &mut Buffers<PlainMarked>,
    directory: &Directory,
) -> Result<(), Fail> {
    let (shared, staff, ann) = (named(rt, "shared"), named(rt, "staff"), named(rt, "ann"));
    assert!(rt; bob_writes(rt, all, directory));
    assert!(rt; all.has(&shared));
    assert!(rt; all.set_group_as(directory, &ann, &shared, None) == Ok(()));
    assert!(rt; !bob_writes(rt, all, directory));
    assert!(rt; all.has(&shared));
    assert!(rt; all.set_group_as(directory, &ann, &shared, Some(staff)) == Ok(()));
    assert!(rt; bob_writes(rt, all, directory));
    Ok(())
}

#[test]
fn the_owning_group_decides(rt: HostRuntime) -> Result<(), Fail> {
    let directory = staffed(&rt, rt.alloc());
    let mut all = Buffers::new(rt.alloc());
    let list = with_entry(&rt, list_of(&rt, "ALLOW GROUP@ w"), "ALLOW OWNER@ o");
    assert!(rt; all.add("shared", "ann", Some("staff"), list, &[], false) == Ok(()));
    regroup(&rt, &mut all, &directory)
}

fn lacks(bit: Right) -> Result<(), Decision> {
    Err(Decision::NotGranted { bit })
}

// Whether bob is denied what nobody grants him of the buffer that everyone may write, by the right that he lacks.
fn is_denied(
    rt: &impl Abort,
    all: &mut Buffers<PlainMarked>,
    directory: &Directory,
    name: &Name,
) -> bool {
    let bob = named(rt, "bob");
    assert!(rt; all.has(name));
    let is_listed = all.set_list_as(directory, &bob, name, List::new()) != lacks(Right::WriteAcl);
    assert!(rt; all.has(name));
    let is_owned = all.set_owner_as(directory, &bob, name, bob) != lacks(Right::WriteOwner);
    assert!(rt; all.has(name));
    let is_grouped = all.set_group_as(directory, &bob, name, None) != lacks(Right::WriteOwner);
    assert!(rt; all.has(name));
    let is_killed = all.kill_as(directory, &bob, name) != lacks(Right::Delete);
    !is_listed && !is_owned && !is_grouped && !is_killed && all.has(name)
}

// What bob is granted is done.
fn write_second(
    rt: &impl Abort,
    all: &mut Buffers<PlainMarked>,
    directory: &Directory,
) -> Result<(), Short> {
    let (second, bob) = (named(rt, "second"), named(rt, "bob"));
    let mask = Mask::of(Right::WriteData);
    assert!(rt; all.has(&second) && all.text_len(&second) == 3 && all.serial(&second) == 0);
    assert!(rt; all.edit_as(directory, &bob, &second, mask, 1, 2, &['x']) == Ok(()));
    assert!(rt; has_text(all, &second, &['c', 'x', 'e'], 1)?);
    assert!(rt; all.has(&second));
    assert!(rt; all.unmodify_as(directory, &bob, &second) == Ok(()));
    assert!(rt; all.has(&second) && !all.is_modified(&second));
    Ok(())
}

#[test]
fn changes_are_judged(rt: HostRuntime) -> Result<(), Short> {
    let mut all = two(rt.alloc(), &rt);
    let directory = Directory::new(rt.alloc());
    let second = named(&rt, "second");
    assert!(rt; is_denied(&rt, &mut all, &directory, &second));
    write_second(&rt, &mut all, &directory)
}
