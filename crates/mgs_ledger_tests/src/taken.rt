// Which names users took.
use crate::calls::{add, forget, is_taken, remove, replace};
use crate::desk::{Dial, again, begin};
use mgs_journal::Journal;
use std::test::Fail;

// Whether it is taken, and no other is, and free once it is forgotten.
fn is_taken_until_forgotten<J: Journal>(desk: &mut J) -> Result<bool, Fail> {
    let is_taken_alone = is_taken(desk, "notes")? && !is_taken(desk, "plan")?;
    forget(desk, "notes")?;
    Ok(is_taken_alone && !is_taken(desk, "notes")?)
}

// Whether it is free. Then ann makes it, and whoever made the server kills it.
fn is_free_and_made<J: Journal>(desk: &mut J) -> Result<bool, Fail> {
    let is_free = !is_taken(desk, "notes")?;
    add(desk, "notes", "ann", "-", "ALLOW ann rw")?;
    remove(desk, "-")?;
    Ok(is_free)
}

// A name that a user took by making a buffer is taken for whoever goes on with the tables, until it is forgotten. One that whoever made the
// server killed is free.
#[test]
fn a_name_is_taken_until_it_is_forgotten(rt: HostRuntime) -> Result<(), Fail> {
    let dial = Dial::new();
    let mut desk = begin(rt.alloc(), &dial)?;
    add(&mut desk, "notes", "ann", "-", "ALLOW ann rw")?;
    let mut desk = again(rt.alloc(), &dial, desk)?;
    assert!(rt; is_taken_until_forgotten(&mut desk)?);
    let mut desk = again(rt.alloc(), &dial, desk)?;
    assert!(rt; is_free_and_made(&mut desk)?);
    let desk = again(rt.alloc(), &dial, desk)?;
    assert!(rt; !is_taken(&desk, "notes")?);
    Ok(())
}

// Ann makes it and kills it.
fn make_and_kill<J: Journal>(desk: &mut J) -> Result<(), Fail> {
    add(desk, "notes", "ann", "-", "ALLOW ann rw")?;
    remove(desk, "ann")
}

// So is one whose buffer a user killed, of which no rights are kept.
#[test]
fn a_killed_name_is_taken_until_it_is_forgotten(rt: HostRuntime) -> Result<(), Fail> {
    let dial = Dial::new();
    let mut desk = begin(rt.alloc(), &dial)?;
    make_and_kill(&mut desk)?;
    let mut desk = again(rt.alloc(), &dial, desk)?;
    assert!(rt; is_taken_until_forgotten(&mut desk)?);
    let desk = again(rt.alloc(), &dial, desk)?;
    assert!(rt; !is_taken(&desk, "notes")?);
    Ok(())
}

// Ann makes a buffer, and a user who is called `-` kills it and makes another one.
fn make_and_replace<J: Journal>(desk: &mut J) -> Result<(), Fail> {
    add(desk, "notes", "ann", "-", "ALLOW ann rw")?;
    remove(desk, "-")?;
    add(desk, "plan", "ann", "-", "ALLOW ann rw")?;
    replace(desk, "-", "notes", "-", "-")
}

// A user who is called `-` is a user: what that user made is taken.
#[test]
fn a_user_whose_name_is_a_dash_takes_a_name(rt: HostRuntime) -> Result<(), Fail> {
    let dial = Dial::new();
    let mut desk = begin(rt.alloc(), &dial)?;
    make_and_replace(&mut desk)?;
    let desk = again(rt.alloc(), &dial, desk)?;
    assert!(rt; is_taken(&desk, "notes")? && is_taken(&desk, "plan")?);
    Ok(())
}
