// The names of buffers, completed.
use crate::people::{list_of, named};
use mgs_buffers::Buffers;
use mgs_marks::PlainMarked;
use mgs_model::{Name, Short};
use mgs_policy::Directory;
use std::alloc::Global;
use std::process::Abort;
use std::test::Fail;

// Of ann's buffers others may see the last two.
const BUFFERS: [(&str, &str); 3] = [
    ("notes.txt", "ALLOW OWNER@ rwt"),
    ("notebook", "ALLOW EVERYONE@ t"),
    ("nothing", "ALLOW EVERYONE@ rt"),
];

const COMPLETED: [(&str, &[char], Option<&[u8]>); 8] = [
    ("ann", &[], Some(b"not")),
    ("ann", &['n', 'o', 't', 'e'], Some(b"note")),
    ("ann", &['n', 'o', 't', 'e', 's'], Some(b"notes.txt")),
    ("ann", &['x'], None),
    ("ann", &['n', '\u{f6}'], None),
    ("bob", &[], Some(b"not")),
    ("bob", &['n', 'o', 't', 'e'], Some(b"notebook")),
    ("bob", &['n', 'o', 't', 'e', 's'], None),
];

fn buffers_of_ann(rt: &impl Abort, alloc: Global) -> Buffers<PlainMarked> {
    let mut all = Buffers::new(alloc);
    for &(name, entry) in &BUFFERS {
        assert!(rt; all.add(name, "ann", None, list_of(rt, entry), &[], false) == Ok(()));
    }
    all
}

// Whether what a user has typed is completed so.
fn is_completed(
    all: &Buffers<PlainMarked>,
    directory: &Directory,
    user: &Name,
    input: &[char],
    wanted: Option<&[u8]>,
) -> Result<bool, Short> {
    let mut judge = all.judge()?;
    Ok(all.completion(&mut judge, directory, user, input) == wanted)
}

fn are_completed(
    rt: &impl Abort,
    all: &Buffers<PlainMarked>,
    directory: &Directory,
) -> Result<(), Fail> {
    for &(user, input, wanted) in &COMPLETED {
        let name = named(rt, user);
        assert!(rt;
            is_completed(all, directory, &name, input, wanted)?,
            "{user} {input:?}"
        );
    }
    Ok(())
}

#[test]
fn names_that_a_user_may_see_are_completed(rt: HostRuntime) -> Result<(), Fail> {
    let all = buffers_of_ann(&rt, rt.alloc());
    let directory = Directory::new(rt.alloc());
    are_completed(&rt, &all, &directory)
}
