// Users at one text, and one who is not let in.
use crate::office::Office;
use crate::screens::{all_show, both_show, comes_to_show};
use crate::terminal::{Terminal, enter, is_closed, press};
use std::test::Fail;

const ANNS: &str = "|hi                  |\n\
    |                    |\n\
    |                    |\n\
    |                    |\n\
    |-**-notes-L1-C0-----!\n\
    |                    |\n\
    cursor 1 1\n";

const BOBS: &str = "|hi                  |\n\
    |                    |\n\
    |                    |\n\
    |                    |\n\
    |-**-notes-L1-C2-----!\n\
    |                    |\n\
    cursor 1 3\n";

// What both show when ann has typed in front of the text and bob behind it, one after the other.
const ANNS_THEN: &str = "|Ahi!                |\n\
    |                    |\n\
    |                    |\n\
    |                    |\n\
    |-**-notes-L1-C1-----!\n\
    |                    |\n\
    cursor 1 2\n";

const BOBS_THEN: &str = "|Ahi!                |\n\
    |                    |\n\
    |                    |\n\
    |                    |\n\
    |-**-notes-L1-C4-----!\n\
    |                    |\n\
    cursor 1 5\n";

// Whether one is told that the ticket is another's, and the connection is closed.
fn is_told(office: &mut Office<'_>, eve: &mut Terminal) -> Result<bool, Fail> {
    let is_ended = is_closed(office, eve)?;
    Ok(is_ended && eve.got.as_slice() == b"refused 3 Ticket\n".as_slice())
}

// Whether one with a ticket of another is refused so.
fn is_refused(rt: &HostRuntime, office: &mut Office<'_>) -> Result<bool, Fail> {
    let mut eve = enter(rt, office.port(), b"login ann t2 6 20\n")?;
    is_told(office, &mut eve)
}

// Whether both see what bob typed behind his login, and a third is not let in then.
fn both_share(
    rt: &HostRuntime,
    office: &mut Office<'_>,
    ann: &mut Terminal,
    bob: &mut Terminal,
) -> Result<bool, Fail> {
    let is_shared = both_show(rt.alloc(), office, ann, ANNS, bob, BOBS)?;
    let is_kept_out = is_refused(rt, office)?;
    Ok(is_shared && is_kept_out && !ann.is_ended && !bob.is_ended)
}

// Whether both see what they type then, ann first.
fn both_type(
    rt: &HostRuntime,
    office: &mut Office<'_>,
    ann: &mut Terminal,
    bob: &mut Terminal,
) -> Result<bool, Fail> {
    press(ann, b"A")?;
    press(bob, b"!")?;
    both_show(rt.alloc(), office, ann, ANNS_THEN, bob, BOBS_THEN)
}

/// Whether two share a text, and a third is not let in meanwhile.
pub(crate) fn only_users_share(rt: &HostRuntime, office: &mut Office<'_>) -> Result<bool, Fail> {
    let port = office.port();
    let mut ann = enter(rt, port, b"login ann t1 6 20\n")?;
    let mut bob = enter(rt, port, b"login bob t2 6 20\nhi")?;
    let is_shared = both_share(rt, office, &mut ann, &mut bob)?;
    let is_typed = both_type(rt, office, &mut ann, &mut bob)?;
    Ok(is_shared && is_typed)
}

const SHUT_OUT: &str = "|[no read: no entry] |\n\
    |                    |\n\
    |                    |\n\
    |                    |\n\
    |-??-?-(no read)-----!\n\
    |                    |\n\
    cursor 1 1\n";

// Ann takes the entry of bob away.
const SHUTS: &[u8] = b"\x152\x1bxacl-delete\r";

// So many sessions of bob are there beside the one that types, and with ann's they are as many as there may be.
const OTHERS: usize = 62;

// Bob once more, so many times.
fn enter_others(rt: &HostRuntime, port: u16) -> Result<Vec<Terminal>, Fail> {
    let mut others = Vec::new(rt.alloc());
    for _ in 0..OTHERS {
        let one = enter(rt, port, b"login bob t2 6 20\n")?;
        others.push(one)?;
    }
    Ok(others)
}

// Whether all of bob's terminals show that he is shut out, once ann has taken his entry away. He sends nothing.
fn are_shut_out(
    rt: &HostRuntime,
    office: &mut Office<'_>,
    ann: &mut Terminal,
    bob: &mut Terminal,
    others: &mut Vec<Terminal>,
) -> Result<bool, Fail> {
    let is_first_in = comes_to_show(rt.alloc(), office, bob, BOBS)?;
    let are_others_in = all_show(rt.alloc(), office, others, ANNS)?;
    press(ann, SHUTS)?;
    let is_first_out = comes_to_show(rt.alloc(), office, bob, SHUT_OUT)?;
    let are_others_out = all_show(rt.alloc(), office, others, SHUT_OUT)?;
    Ok(is_first_in && are_others_in && is_first_out && are_others_out)
}

/// Whether all who are shut out see that without a key of their own: 64 are there, and 63 of them are.
pub(crate) fn are_all_shut_out(rt: &HostRuntime, office: &mut Office<'_>) -> Result<bool, Fail> {
    let port = office.port();
    let mut ann = enter(rt, port, b"login ann t1 6 20\n")?;
    let mut bob = enter(rt, port, b"login bob t2 6 20\nhi")?;
    let mut others = enter_others(rt, port)?;
    are_shut_out(rt, office, &mut ann, &mut bob, &mut others)
}
