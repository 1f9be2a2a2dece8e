//! Calls each public part of the server in the way of a caller who knows its names and arguments alone, so that it compiles only
//! as long as these stand.
#![tactic(auto)]

mod buffers;
mod faults;
mod keys;
mod rights;
mod screens;
mod sockets;
mod texts;
mod world;

use crate::faults::use_faults;
use crate::keys::{byte_of, session_of, use_keys, use_prompt};
use crate::rights::use_list;
use crate::screens::use_screen;
use crate::texts::{use_record, use_texts};
use mgs_keys::Key;
use mgs_model::{ARGUMENT_LIMIT, Event, is_white, is_word};
use std::process::ExitCode;

fn main(rt: HostRuntime) -> ExitCode {
    let alloc = rt.alloc();
    let argument = use_keys(alloc, "C-u '7 C-f");
    let texts = use_texts(alloc);
    let serial = use_record(alloc);
    let cursor = use_screen(alloc);
    let closes = session_of(Event::Close { id: 1 }) == 1;
    let classes = is_word('a') && is_white(' ') && ARGUMENT_LIMIT == 9999;
    let keys = use_prompt() && byte_of(Key::Plain(b'a')).is_some();
    let printed = matches!(use_faults(alloc), Ok(true));
    let all = closes && classes && keys && printed && use_list("ALLOW ann r").is_some();
    let answers = match (argument, texts, serial, cursor) {
        (Ok(Some(7)), Ok(1), Ok(1), Ok((1, 1))) => all,
        _ => false,
    };
    if answers {
        ExitCode::SUCCESS
    } else {
        ExitCode::FAILURE
    }
}
