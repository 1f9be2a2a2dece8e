// Calls that say nothing, so that the proof of a test does not carry the state of each. They are made of any journal, since a call of the
// ledger itself is dear to prove.
use crate::desk::Dial;
use mgs_acl::{List, print_entry, read_entry};
use mgs_buffers::Rights;
use mgs_journal::{Change, Journal, Told};
use mgs_model::{Decision, Name, Owners, Right};
use std::alloc::{AllocError, Global};
use std::test::Fail;

/// The name that is written so.
pub(crate) fn name(text: &str) -> Result<Name, Fail> {
    Ok(Name::read(text).ok_or("no name")?)
}

// No name is written `-`.
fn name_if(text: &str) -> Result<Option<Name>, Fail> {
    if text == "-" {
        return Ok(None);
    }
    Ok(Some(name(text)?))
}

fn list(entries: &str) -> Result<List, Fail> {
    let mut list = List::new();
    if entries.is_empty() {
        return Ok(list);
    }
    for entry in entries.split(';') {
        let entry = read_entry(entry).ok().ok_or("no entry")?;
        list.insert(list.len(), entry).ok().ok_or("no room")?;
    }
    Ok(list)
}

fn owners(owner: &str, owning_group: &str) -> Result<Owners, Fail> {
    Ok(Owners {
        owner: name(owner)?,
        group: name_if(owning_group)?,
    })
}

/// Adds a buffer that ann made. `-` is no group, and a semicolon parts entries.
pub(crate) fn add<J: Journal>(
    desk: &mut J,
    buffer: &str,
    owner: &str,
    owning_group: &str,
    entries: &str,
) -> Result<(), Fail> {
    let buffer = name(buffer)?;
    let owners = owners(owner, owning_group)?;
    let list = list(entries)?;
    let rights = Rights {
        name: &buffer,
        owners: &owners,
        list: &list,
    };
    desk.change(Some(name("ann")?), &[Change::Add(rights, 1)])?;
    Ok(())
}

/// Has ann give the first buffer these rights, and says whether the ledger took that.
pub(crate) fn set<J: Journal>(
    desk: &mut J,
    buffer: &str,
    owner: &str,
    owning_group: &str,
    entries: &str,
) -> Result<bool, Fail> {
    if desk.rights(0).is_none() {
        return Err(Fail::new("no buffer"));
    }
    let buffer = name(buffer)?;
    let owners = owners(owner, owning_group)?;
    let list = list(entries)?;
    let rights = Rights {
        name: &buffer,
        owners: &owners,
        list: &list,
    };
    Ok(
        desk.change(Some(name("ann")?), &[Change::Set(0, rights)])
            .is_ok(),
    )
}

/// Has a user kill the first buffer, or for `-` nobody.
pub(crate) fn remove<J: Journal>(desk: &mut J, user: &str) -> Result<(), Fail> {
    if desk.rights(0).is_none() {
        return Err(Fail::new("no buffer"));
    }
    desk.change(name_if(user)?, &[Change::Remove(0)])?;
    Ok(())
}

/// Keeps a text of a buffer.
pub(crate) fn set_text<J: Journal>(
    desk: &mut J,
    alloc: Global,
    i: usize,
    body: &str,
    modified: bool,
    file: i64,
) -> Result<(), Fail> {
    if desk.rights(i).is_none() {
        return Err(Fail::new("no buffer"));
    }
    desk.set_text(i, String::from_str(alloc, body)?, modified, file)?;
    Ok(())
}

/// Keeps a text of the first buffer if one is due at that second of the clock, and says whether it was.
pub(crate) fn text_comes<J: Journal>(
    desk: &mut J,
    dial: &Dial,
    alloc: Global,
    second: u32,
) -> Result<bool, Fail> {
    dial.set(second);
    let due = desk.is_text_due(1);
    if due {
        set_text(desk, alloc, 0, "a", false, 0)?;
    }
    Ok(due)
}

/// What is kept of the text of a buffer: whether it was modified, the sum of its file's and the text, or `-`.
pub(crate) fn text<J: Journal>(alloc: Global, desk: &J, i: usize) -> Result<String, Fail> {
    match desk.text(i) {
        None => Ok(String::from_str(alloc, "-")?),
        Some(text) => Ok(format!(in alloc; "{} {} {}", text.modified, text.file, text.body)?),
    }
}

/// Tells that bob came, so many times.
pub(crate) fn come<J: Journal>(desk: &mut J, times: u32) -> Result<(), Fail> {
    for _ in 0..times {
        desk.tell(Told::Came(name("bob")?))?;
    }
    Ok(())
}

/// Tells that so many users came, each of them once, in so many rounds.
pub(crate) fn come_in_rounds<J: Journal>(
    desk: &mut J,
    alloc: Global,
    users: u32,
    rounds: u32,
) -> Result<(), Fail> {
    for _ in 0..rounds {
        for i in 0..users {
            let user = format!(in alloc; "u{i}")?;
            desk.tell(Told::Came(name(user.as_str())?))?;
        }
    }
    Ok(())
}

/// Tells that an entry of `notes` denied a user this right, so many times.
pub(crate) fn deny<J: Journal>(
    desk: &mut J,
    user: &str,
    entry: usize,
    bit: Right,
    times: u32,
) -> Result<(), Fail> {
    let decision = Decision::DeniedBy { entry, bit };
    for _ in 0..times {
        desk.tell(Told::Denied(name(user)?, name("notes")?, decision))?;
    }
    Ok(())
}

/// Tells this.
pub(crate) fn tell<J: Journal>(desk: &mut J, told: Told) -> Result<(), Fail> {
    desk.tell(told)?;
    Ok(())
}

/// What is gathered for so long that it is due is kept.
pub(crate) fn tick<J: Journal>(desk: &mut J) -> Result<(), Fail> {
    desk.tick()?;
    Ok(())
}

fn push_name(text: &mut String, name: &Name) -> Result<(), AllocError> {
    for byte in name.as_bytes() {
        text.push(char::from(*byte))?;
    }
    text.push(' ')
}

fn push_rights(text: &mut String, rights: &Rights<'_>) -> Result<(), AllocError> {
    push_name(text, rights.name)?;
    push_name(text, &rights.owners.owner)?;
    match &rights.owners.group {
        Some(group) => push_name(text, group)?,
        None => text.push_str("- ")?,
    }
    for entry in rights.list.as_slice() {
        text.push_str(print_entry(entry).as_str())?;
        text.push(';')?;
    }
    text.push('/')
}

/// The rights that are kept: of each buffer its name, its owner, its owning group and its entries, each with a semicolon, and then a slash.
pub(crate) fn kept<J: Journal>(alloc: Global, desk: &J) -> Result<String, Fail> {
    let mut text = String::new(alloc);
    for i in 0..256 {
        if let Some(rights) = desk.rights(i) {
            push_rights(&mut text, &rights)?;
        }
    }
    Ok(text)
}

/// Whether a user made or killed the last buffer of this name.
pub(crate) fn is_taken<J: Journal>(desk: &J, buffer: &str) -> Result<bool, Fail> {
    Ok(desk.is_taken(&name(buffer)?))
}

/// The name is free again.
pub(crate) fn forget<J: Journal>(desk: &mut J, buffer: &str) -> Result<(), Fail> {
    desk.forget(&name(buffer)?)?;
    Ok(())
}

// The changes that kill the first buffer, make one of these rights and give it other rights.
fn remake<'a>(first: Rights<'a>, second: Rights<'a>) -> [Change<'a>; 3] {
    [
        Change::Remove(0),
        Change::Add(first, 7),
        Change::Set(0, second),
    ]
}

/// Has this user, who is called `-` if it says so, kill the first buffer, make another one of this name and give it another owner and list,
/// all at once. The owner of the new one is this one, and it has this group.
pub(crate) fn replace<J: Journal>(
    desk: &mut J,
    user: &str,
    buffer: &str,
    owner: &str,
    group: &str,
) -> Result<(), Fail> {
    let buffer = name(buffer)?;
    let first = Owners {
        owner: name("ann")?,
        group: None,
    };
    let second = Owners {
        owner: name(owner)?,
        group: Some(name(group)?),
    };
    let wide = list("ALLOW EVERYONE@ rw")?;
    let narrow = list("ALLOW OWNER@ r")?;
    let made = Rights {
        name: &buffer,
        owners: &first,
        list: &wide,
    };
    let given = Rights {
        name: &buffer,
        owners: &second,
        list: &narrow,
    };
    let changes = remake(made, given);
    desk.change(Some(name(user)?), &changes)?;
    Ok(())
}

/// The birth number of the first buffer.
pub(crate) fn birth<J: Journal>(desk: &J) -> u64 {
    desk.birth(0)
}
