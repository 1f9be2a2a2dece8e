// Who is let in, for how long, and where.
use crate::office::{Dial, Office, open_office, turn, turn_at};
use crate::screens::comes_to_show;
use crate::slow::is_painted_at_once;
use crate::terminal::{Terminal, enter, is_closed, is_served, press, take};
use crate::together::{are_all_shut_out, only_users_share};
use std::net::{Ipv4Addr, SocketAddr, TcpStream};
use std::test::Fail;
use std::time::{Duration, Instant};

const LOGIN: &[u8] = b"login ann t1 6 20\n";

// The time in which a login line has to end, in milliseconds.
const LOGIN_MILLIS: u64 = 60_000;

// Turns without work: so many wait a second. They are surely over after the seconds, and not before the milliseconds.
const IDLE_TURNS: usize = 20;

const IDLE_MILLIS: u64 = 500;

const IDLE_SECS: u64 = 30;

// So many keys come beside new connections, and what is shown then.
const KEYS: usize = 10;

const TYPED: &str = "|xxxxxxxxxx          |\n\
    |                    |\n\
    |                    |\n\
    |                    |\n\
    |-**-notes-L1-C10----!\n\
    |                    |\n\
    cursor 1 11\n";

// So many connections that send nothing, before the server turns.
fn crowd(rt: &HostRuntime, office: &Office<'_>, count: usize) -> Result<Vec<Terminal>, Fail> {
    let mut all = Vec::new(rt.alloc());
    for _ in 0..count {
        let one = enter(rt, office.port(), b"")?;
        all.push(one)?;
    }
    Ok(all)
}

// Whether the last of these connections is told that there is no place, and closed.
fn is_last_turned_away(office: &mut Office<'_>, all: &mut Vec<Terminal>) -> Result<bool, Fail> {
    let mut last = all.pop().ok_or("no connection")?;
    is_full_told(office, &mut last)
}

// Whether a connection is told that there is no place, and closed.
fn is_full_told(office: &mut Office<'_>, one: &mut Terminal) -> Result<bool, Fail> {
    let is_ended = is_closed(office, one)?;
    Ok(is_ended && one.got.as_slice() == b"refused 5 Full\n".as_slice())
}

// Whether one more connection is turned away so.
fn is_turned_away(rt: &HostRuntime, office: &mut Office<'_>) -> Result<bool, Fail> {
    let mut one = enter(rt, office.port(), b"")?;
    is_full_told(office, &mut one)
}

// Whether ann is let in.
fn is_let_in(rt: &HostRuntime, office: &mut Office<'_>) -> Result<bool, Fail> {
    let mut ann = enter(rt, office.port(), LOGIN)?;
    is_served(office, &mut ann)
}

// Whether 64 silent connections keep all others out, one that waited with them and those behind, until the time for their logins is over.
fn are_kept_out_for_a_minute(rt: &HostRuntime, office: &mut Office<'_>) -> Result<bool, Fail> {
    let mut all = crowd(rt, office, 65)?;
    let is_first_away = is_last_turned_away(office, &mut all)?;
    turn_at(office, LOGIN_MILLIS - 1)?;
    let is_second_away = is_turned_away(rt, office)?;
    turn_at(office, LOGIN_MILLIS)?;
    let is_third_in = is_let_in(rt, office)?;
    Ok(all.len() == 64 && is_first_away && is_second_away && is_third_in)
}

// Whether a connection is closed by a turn at this time.
fn is_closed_at(
    office: &mut Office<'_>,
    terminal: &mut Terminal,
    millis: u64,
) -> Result<bool, Fail> {
    turn_at(office, millis)?;
    take(terminal)?;
    Ok(terminal.is_ended)
}

// Whether only the one of two connections is closed whose login line does not end.
fn is_late_one_closed(
    office: &mut Office<'_>,
    late: &mut Terminal,
    ann: &mut Terminal,
) -> Result<bool, Fail> {
    let is_served = is_served(office, ann)?;
    let is_early = is_closed_at(office, late, LOGIN_MILLIS - 1)?;
    let is_late = is_closed_at(office, late, LOGIN_MILLIS)?;
    let is_ann_closed = is_closed_at(office, ann, 2 * LOGIN_MILLIS)?;
    Ok(is_served && !is_early && is_late && late.got.is_empty() && !is_ann_closed)
}

// Whether a connection that has sent a part of its login line is closed when the time is over, and a session is not.
fn are_logins_timed(rt: &HostRuntime, office: &mut Office<'_>) -> Result<bool, Fail> {
    let mut late = enter(rt, office.port(), b"login ann t1")?;
    let mut ann = enter(rt, office.port(), LOGIN)?;
    is_late_one_closed(office, &mut late, &mut ann)
}

// Whether the one connection that there is is closed when the time is over, if it sends nothing.
fn is_lonely_one_timed(rt: &HostRuntime, office: &mut Office<'_>) -> Result<bool, Fail> {
    let mut late = enter(rt, office.port(), b"")?;
    turn_at(office, 0)?;
    turn_at(office, 1)?;
    let is_early = is_closed_at(office, &mut late, LOGIN_MILLIS - 1)?;
    turn_at(office, LOGIN_MILLIS + 1)?;
    let is_late = is_closed_at(office, &mut late, LOGIN_MILLIS + 1)?;
    Ok(!is_early && is_late && late.got.is_empty())
}

// Whether the connection of a session that its own key ends is closed.
fn is_closed_by_a_key(rt: &HostRuntime, office: &mut Office<'_>) -> Result<bool, Fail> {
    let mut ann = enter(rt, office.port(), LOGIN)?;
    let is_served = is_served(office, &mut ann)?;
    press(&mut ann, b"hi\x18\x03")?;
    let is_ended = is_closed(office, &mut ann)?;
    Ok(is_served && is_ended)
}

// Whether nobody listens at this port of another address of this machine.
fn is_silent_elsewhere(rt: &HostRuntime, port: u16) -> bool {
    let elsewhere = Ipv4Addr::new(127, 0, 0, 2);
    TcpStream::connect(rt, SocketAddr::from((elsewhere, port))).is_err()
}

// Whether turns without work come back, each after a wait and not at once.
fn are_turns_calm(rt: &HostRuntime, office: &mut Office<'_>) -> Result<bool, Fail> {
    let start = Instant::now(rt)?;
    for _ in 0..IDLE_TURNS {
        turn(office)?;
    }
    let spent = start.elapsed(rt)?;
    Ok(spent > Duration::from_millis(IDLE_MILLIS) && spent < Duration::from_secs(IDLE_SECS))
}

// Whether the keys of ann are all handled where each comes beside a new connection.
fn are_keys_heard(rt: &HostRuntime, office: &mut Office<'_>) -> Result<bool, Fail> {
    let mut ann = enter(rt, office.port(), LOGIN)?;
    if !is_served(office, &mut ann)? {
        return Ok(false);
    }
    for _ in 0..KEYS {
        let _new = enter(rt, office.port(), b"")?;
        press(&mut ann, b"x")?;
        turn(office)?;
    }
    comes_to_show(rt.alloc(), office, &mut ann, TYPED)
}

// Whether ann is let in at this port of the loopback address, and nobody listens at another address.
fn is_found_at(rt: &HostRuntime, office: &mut Office<'_>, port: u16) -> Result<bool, Fail> {
    let is_there = office.port() == port;
    let mut ann = enter(rt, port, LOGIN)?;
    let is_in = is_served(office, &mut ann)?;
    Ok(is_there && is_in && is_silent_elsewhere(rt, port))
}

/// What is tried in an office of its own.
#[derive(Clone, Copy)]
enum Case {
    /// One connection more than there may be, where the others are silent.
    Crowd,
    /// A login line that does not end.
    Login,
    /// A session that a key ends.
    Quit,
    /// The one connection, which sends nothing.
    Lonely,
    /// Turns without work.
    Idle,
    /// Keys beside new connections.
    Keys,
    /// As many as there may be, of whom all but one are shut out.
    Shut,
    /// One who reads nothing until much waits for him.
    Slow,
    /// Two who share a text, and a third who is not let in.
    Together,
    /// A port that was asked for.
    Port(u16),
}

fn is_so(rt: &HostRuntime, office: &mut Office<'_>, case: Case) -> Result<bool, Fail> {
    match case {
        Case::Crowd => are_kept_out_for_a_minute(rt, office),
        Case::Login => are_logins_timed(rt, office),
        Case::Quit => is_closed_by_a_key(rt, office),
        Case::Lonely => is_lonely_one_timed(rt, office),
        Case::Idle => are_turns_calm(rt, office),
        Case::Keys => are_keys_heard(rt, office),
        Case::Shut => are_all_shut_out(rt, office),
        Case::Slow => is_painted_at_once(rt, office),
        Case::Together => only_users_share(rt, office),
        Case::Port(port) => is_found_at(rt, office, port),
    }
}

// Whether a case is so in an office at this port; 0 is one that the system chooses. The office is dropped at one way out: a proof goes over
// all that is owned at each.
fn is_so_at(rt: &HostRuntime, port: u16, case: Case) -> Result<bool, Fail> {
    let dial = Dial::new();
    let mut office = open_office(rt, &dial, port)?;
    is_so(rt, &mut office, case)
}

// A port that was free just now.
fn free_port(rt: &HostRuntime) -> Result<u16, Fail> {
    let dial = Dial::new();
    let office = open_office(rt, &dial, 0)?;
    Ok(office.port())
}

const CASES: [(Case, &str); 9] = [
    (
        Case::Crowd,
        "the 65th connection is refused, and 64 silent ones are closed after a minute",
    ),
    (Case::Login, "a login has a minute"),
    (Case::Quit, "the connection of an ended session is closed"),
    (
        Case::Lonely,
        "one silent connection is closed after a minute",
    ),
    (Case::Idle, "a turn without work waits, and comes back"),
    (Case::Keys, "a key beside a new connection is handled"),
    (
        Case::Shut,
        "each of 63 who are shut out sees it without a key of his own",
    ),
    (
        Case::Slow,
        "10,000 bytes are written at once, whole and in order",
    ),
    (
        Case::Together,
        "users share a text, and others are not let in",
    ),
];

#[test]
fn a_server_serves_whom_it_is_to(rt: HostRuntime) -> Result<(), Fail> {
    for &(case, name) in &CASES {
        assert!(rt; is_so_at(&rt, 0, case)?, "{name}");
    }
    Ok(())
}

#[test]
fn a_server_listens_where_it_is_asked_to(rt: HostRuntime) -> Result<(), Fail> {
    let port = free_port(&rt)?;
    assert!(rt; is_so_at(&rt, port, Case::Port(port))?);
    Ok(())
}
