//! What goes wrong, through the engine: memory that is refused, keys of any bytes, sessions that end anywhere and stores that fail. And that
//! what one may not read has no effect on what one sees. Tests, and a program:
//!
//! It plays rows of keys at an engine, compares what the terminals then show with what they are to show, and prints how each row came out.
//! Where memory is refused to an act, the screen has to be the one that a refused act leaves, and the keys are typed again: so a run in
//! which one growth is refused prints the same as one in which none is. Each row is played over the texts of the programs, and then once for
//! each growth of its text and of that text's marks, which is refused. What is asked of the C library cannot be refused from within:
//! `bench/refused_growth.py` has each such block refused in turn.
#![tactic(auto)]

#[cfg(test)]
mod fixtures;
#[cfg(test)]
mod hidden;
#[cfg(test)]
mod hostile;
#[cfg(test)]
mod limits;
mod playing;
#[cfg(test)]
mod refused;
mod refusing;
mod rows;
#[cfg(test)]
mod saving;
mod screen;
mod stage;
mod store;

use playing::{Outcome, play, refuse_each};
use rows::ROWS;
use std::io;
use std::process::ExitCode;

// How a row came out, and with how many growths refused in turn.
fn tell_row(rt: HostRuntime, name: &str, lines: &str) -> io::Result<()> {
    let outcome = match play(rt.alloc(), lines) {
        Outcome::Met => "as it is to be",
        Outcome::Refused => "memory was refused more than once",
        Outcome::Wrong => "WRONG",
    };
    println!(rt; "{name}: {outcome}")?;
    match refuse_each(rt.alloc(), lines) {
        Ok(count) => println!(rt; "  and so with each of {count} growths refused"),
        Err(growth) => println!(rt; "  WRONG with growth {growth} refused"),
    }
}

fn main(rt: HostRuntime) -> ExitCode {
    for row in ROWS.split("== ").skip(1) {
        let (name, lines) = row.split_once('\n').unwrap_or((row, ""));
        if tell_row(rt, name, lines).is_err() {
            return ExitCode::FAILURE;
        }
    }
    ExitCode::SUCCESS
}
