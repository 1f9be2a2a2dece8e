// A script that is replayed.
ghost use Rattle.std.specs.Prelude.{◌≡◌};
ghost use Rattle.mgs_program.specs.Replays.{Replays, fault_text, status_after};

use mgs_command::{DONE, FAILED, NO_MEMORY, tell};
use mgs_replay::{ReplayFault, replay};
use std::io::{Read, Write};

// What is told of a fault, but for the number of its line.
fn words_of(fault: ReplayFault) -> &'static str
    ensures { result.now ≡ fault_text fault }
{
    match fault {
        ReplayFault::Line(_) => "refused",
        ReplayFault::Read => "read failed",
        ReplayFault::Write => "write failed",
        ReplayFault::Short => NO_MEMORY,
    }
}

// Tells why a replay ended.
fn tell_fault<R: Eprint>(rt: &R, fault: ReplayFault) {
    let words = words_of(fault);
    match fault {
        ReplayFault::Line(number) => tell(rt, format_args!("line {number}: {words}")),
        _ => tell(rt, words),
    }
}

// Ends a replay.
fn end_replay<R: Eprint>(rt: &R, outcome: Result<(), ReplayFault>) -> u8
    ensures { result ≡ status_after outcome }
{
    match outcome {
        Ok(()) => DONE,
        Err(fault) => {
            tell_fault(rt, fault);
            FAILED
        }
    }
}

/// Replays the script that a reader has, prints to a writer, and answers the program's status: `DONE` where the replay was done, and
/// `FAILED` where it ended by a fault, which is told on standard error.
///
/// What is written, and which fault ends it, is as `mgs_replay::replay` has it.
#[tactic(auto, using(crate::proofs::Replaying::replayed))]
pub fn replay_script<R: AllocGlobal + Eprint, I: Read, O: Write>(
    rt: &R,
    reader: &mut I,
    writer: &mut O,
) -> u8
    ensures { Replays (I.remaining reader.old) (I.remaining reader.new) (O.contents writer.old) (O.contents writer.new) result }
{
    let outcome = replay(rt.alloc(), reader, writer);
    end_replay(rt, outcome)
}
