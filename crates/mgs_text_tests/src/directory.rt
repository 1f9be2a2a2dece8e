// Users and groups of a directory, up to 256 and 64.
use crate::people::named;
use mgs_policy::{Directory, DirectoryFault};
use std::alloc::{AllocError, Global};
use std::process::Abort;
use std::test::Fail;

type Answer = Result<(), DirectoryFault>;

// Whether this is the answer where a user is added.
fn adds_user(directory: &mut Directory, name: &str, answer: Answer) -> bool {
    directory.add_user(name) == answer
}

// Whether this is the answer where a group is added.
fn adds_group(directory: &mut Directory, name: &str, members: &[&str], answer: Answer) -> bool {
    directory.add_group(name, members) == answer
}

// Adds the first user, and tries names that are none and one that is taken.
fn add_first_user(rt: &impl Abort, directory: &mut Directory) {
    let ann = named(rt, "ann");
    assert!(rt; !directory.has_user(&ann));
    assert!(rt; adds_user(directory, "ann", Ok(())));
    assert!(rt; directory.has_user(&ann));
    assert!(rt; directory.user("ann") == Some(ann) && directory.user("bob") == None);
    assert!(rt; adds_user(directory, "Ann", Err(DirectoryFault::Name)));
    assert!(rt; adds_user(directory, "ann", Err(DirectoryFault::Twice)));
}

// A name of a letter and a number.
fn numbered(alloc: Global, letter: char, i: u16) -> Result<String, AllocError> {
    format!(in alloc; "{letter}{i}")
}

// Adds as many users as there may be beside the first, and tries one more.
fn add_other_users(
    rt: &impl Abort,
    alloc: Global,
    directory: &mut Directory,
) -> Result<(), AllocError> {
    for i in 1..256u16 {
        let name = numbered(alloc, 'u', i)?;
        assert!(rt; adds_user(directory, name.as_str(), Ok(())), "user {i}");
    }
    assert!(rt; adds_user(directory, "ann", Err(DirectoryFault::Twice)));
    assert!(rt; adds_user(directory, "bob", Err(DirectoryFault::Full)));
    Ok(())
}

#[test]
fn a_directory_takes_256_users(rt: HostRuntime) -> Result<(), Fail> {
    let mut directory = Directory::new(rt.alloc());
    add_first_user(&rt, &mut directory);
    add_other_users(&rt, rt.alloc(), &mut directory)?;
    Ok(())
}

// The faults are told in their order: a name, one that is taken, a member who is no user, and one group too many.
const FIRST: [(&str, &[&str], Result<(), DirectoryFault>); 7] = [
    ("Staff", &["eve"], Err(DirectoryFault::Name)),
    ("staff", &["ann", "eve"], Err(DirectoryFault::Unknown)),
    ("staff", &["ann", "Ann"], Err(DirectoryFault::Unknown)),
    ("staff", &["ann", "bob"], Ok(())),
    ("staff", &["eve"], Err(DirectoryFault::Twice)),
    ("twice", &["ann", "ann"], Ok(())),
    ("ann", &[], Ok(())),
];

const LAST: [(&str, &[&str], DirectoryFault); 4] = [
    ("Staff", &["ann"], DirectoryFault::Name),
    ("staff", &["ann"], DirectoryFault::Twice),
    ("guests", &["eve"], DirectoryFault::Unknown),
    ("guests", &["ann"], DirectoryFault::Full),
];

// Adds three users and the first groups. No user's name is a group's before.
fn add_first_groups(rt: &impl Abort, directory: &mut Directory) {
    for &name in &["ann", "bob", "cat"] {
        assert!(rt; adds_user(directory, name, Ok(())));
    }
    let (staff, ann) = (named(rt, "staff"), named(rt, "ann"));
    assert!(rt; !directory.has_group(&staff));
    for &(name, members, answer) in &FIRST {
        assert!(rt; !directory.has_group(&ann));
        assert!(rt; adds_group(directory, name, members, answer), "{name}");
    }
}

// Whether bob is among the staff, and cat is not.
fn has_staff(rt: &impl Abort, directory: &Directory) -> bool {
    let (staff, guests) = (named(rt, "staff"), named(rt, "guests"));
    let (bob, cat) = (named(rt, "bob"), named(rt, "cat"));
    directory.has_group(&staff)
        && directory.is_member(&staff, &bob)
        && !directory.is_member(&staff, &cat)
        && !directory.is_member(&guests, &bob)
}

// Adds as many groups as there may be beside the first, and tries one more.
fn add_other_groups(
    rt: &impl Abort,
    alloc: Global,
    directory: &mut Directory,
) -> Result<(), AllocError> {
    for i in 3..64u16 {
        let name = numbered(alloc, 'g', i)?;
        assert!(rt;
            adds_group(directory, name.as_str(), &["ann"], Ok(())),
            "group {i}"
        );
    }
    for &(name, members, fault) in &LAST {
        assert!(rt; adds_group(directory, name, members, Err(fault)), "{name}");
    }
    Ok(())
}

#[test]
fn a_directory_takes_64_groups(rt: HostRuntime) -> Result<(), Fail> {
    let mut directory = Directory::new(rt.alloc());
    add_first_groups(&rt, &mut directory);
    assert!(rt; has_staff(&rt, &directory));
    add_other_groups(&rt, rt.alloc(), &mut directory)?;
    Ok(())
}
