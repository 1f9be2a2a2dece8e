// Reads a script, and replays it.
ghost use Rattle.std.specs.Prelude.{◌≡◌, ◌+◌, ◌≤◌, length, IfOk, IfSome};
ghost use Rattle.mgs_replay.specs.Faults.{IsCounted};
ghost use Rattle.mgs_replay.specs.Replayed.{WrittenOrUnread};
ghost use Rattle.mgs_replay.specs.Reads.{PieceRead, TakesAtMost, LeavesUnread, KeepsLimit};

use crate::lines::play;
use mgs_gap::GapText;
use mgs_marks::Marked;
use mgs_model::SCRIPT_LIMIT;
use std::alloc::Global;
use std::io::{ErrorKind, Read, Write};
use thiserror::Error;

/// Why a replay ended. Printed as what `replay` tells on standard error.
#[derive(Clone, Copy, Debug, PartialEq, Eq, Error)]
pub enum ReplayFault {
    /// This line, counted from 1, is refused.
    #[error("line {0}: refused")]
    Line(usize),
    /// Reading failed, or the script has more than 16,777,216 bytes.
    #[error("read failed")]
    Read,
    /// Writing failed.
    #[error("write failed")]
    Write,
    /// Out of memory.
    #[error("no memory")]
    Short,
}

/// Why a script was not read.
#[derive(Clone, Copy, PartialEq, Eq)]
enum ScriptFault {
    /// Reading failed, or the script is too long.
    Read,
    /// Out of memory.
    Short,
}

// One read, of no more than the limit and one byte in all. True: there may be more.
fn read_piece<R: Read>(reader: &mut R, bytes: &mut Vec<u8>) -> Result<bool, ScriptFault>
    requires { length bytes.old.items ≤ SCRIPT_LIMIT }
    ensures { PieceRead (R.remaining reader.old) (R.remaining reader.new) bytes.old.items bytes.new.items result }
{
    let mut buf = [0u8; 4096];
    let end = (SCRIPT_LIMIT + 1 - bytes.len()).min(4096);
    match reader.read(&mut buf[..end]) {
        Ok(0) => Ok(false),
        Ok(n) if n > SCRIPT_LIMIT - bytes.len() => Err(ScriptFault::Read),
        Ok(n) => match bytes.extend_from_slice(&buf[..n]) {
            Ok(()) => Ok(true),
            Err(_) => Err(ScriptFault::Short),
        },
        Err(e) if e.kind() == ErrorKind::Interrupted => Ok(true),
        Err(_) => Err(ScriptFault::Read),
    }
}

// All that there is to read, up to the limit.
fn read_script<R: Read>(alloc: Global, reader: &mut R) -> Result<Vec<u8>, ScriptFault>
    ensures whole { IfOk result (λ v. IfSome (R.remaining reader.old) (λ xs. v.items ≡ xs)) }
    ensures limit { IfOk result (λ v. length v.items ≤ SCRIPT_LIMIT) }
    ensures taken { TakesAtMost (R.remaining reader.old) (R.remaining reader.new) (SCRIPT_LIMIT + 1) }
{
    let mut bytes = Vec::new(alloc);
    for _ in 0..u64::MAX {
        match read_piece(reader, &mut bytes) {
            Ok(true) => {}
            Ok(false) => return Ok(bytes),
            Err(fault) => return Err(fault),
        }
    }
    Err(ScriptFault::Read)
}

/// Runs the lines of a script over a server that has nothing yet, and writes what they print.
///
/// `Line` is the first line that is refused; what the lines before it print is written. `Read`: reading fails, or there
/// are more than 16,777,216 bytes, of which one more is taken at most; nothing is written. `Write`: writing or flushing
/// fails. `Short`: memory is refused while the script is read, and nothing is written; or it is refused at a line that is
/// not refused itself, or at the line of a group or a text before the first `open`, and what the lines before it print is
/// written. A script of more bytes than that ends by `Read` or `Short`, and at both nothing of it is written.
pub fn replay<R: Read, W: Write>(
    alloc: Global,
    reader: &mut R,
    writer: &mut W,
) -> Result<(), ReplayFault>
    ensures written { IfSome (R.remaining reader.old) (λ script. WrittenOrUnread script (W.contents writer.old) (W.contents writer.new) result) }
    ensures line { IsCounted result }
    ensures unread { LeavesUnread result (W.contents writer.old) (W.contents writer.new) }
    ensures limit { KeepsLimit (R.remaining reader.old) result (W.contents writer.old) (W.contents writer.new) }
    ensures taken { TakesAtMost (R.remaining reader.old) (R.remaining reader.new) (SCRIPT_LIMIT + 1) }
{
    replay_over::<GapText, _, _>(alloc, reader, writer)
}

/// Runs a script as `replay` does, and ends by the same faults, over texts of any type: `replay` is this over `GapText`.
/// Tests play a script over that and over a plain type, and compare what is printed.
pub fn replay_over<T: Marked + Drop, R: Read, W: Write>(
    alloc: Global,
    reader: &mut R,
    writer: &mut W,
) -> Result<(), ReplayFault>
    ensures written { IfSome (R.remaining reader.old) (λ script. WrittenOrUnread script (W.contents writer.old) (W.contents writer.new) result) }
    ensures line { IsCounted result }
    ensures unread { LeavesUnread result (W.contents writer.old) (W.contents writer.new) }
    ensures limit { KeepsLimit (R.remaining reader.old) result (W.contents writer.old) (W.contents writer.new) }
    ensures taken { TakesAtMost (R.remaining reader.old) (R.remaining reader.new) (SCRIPT_LIMIT + 1) }
{
    let script = match read_script(alloc, reader) {
        Ok(script) => script,
        Err(ScriptFault::Read) => return Err(ReplayFault::Read),
        Err(ScriptFault::Short) => return Err(ReplayFault::Short),
    };
    let outcome = play::<T, _>(alloc, script.as_slice(), writer);
    if matches!(outcome, Ok(()) | Err(ReplayFault::Line(_))) && writer.flush().is_err() {
        return Err(ReplayFault::Write);
    }
    outcome
}
