// Calls of an engine, one after another.
ghost use Rattle.std.specs.Prelude.{◌≡◌, OnOk, OnErr};
ghost use Rattle.mgs_engine.specs.Driven.{AreTaped, IsRun, IsRunOfSome};
ghost use Rattle.mgs_engine.specs.Drives.{Makes, Runs, RunsSome, asked, all_asked, on_tape, taped};

use crate::engine::Engine;
use crate::tape::{Answer, Call, Piece, Tape, add_bytes};
use mgs_marks::Marked;
use mgs_model::Short;
use mgs_store::Store;
use std::alloc::Global;

// Makes one call, after the tape has grown. Where that is refused, it is not made.
fn make<T: Marked + Drop, S: Store + Drop>(
    alloc: Global,
    engine: &mut Engine<T, S>,
    call: &Call<'_>,
    answers: &mut Vec<Answer>,
    pieces: &mut Vec<Piece>,
) -> Result<(), Short>
    ensures ok { OnOk result (Makes (on_tape engine.old answers.old pieces.old) (asked call.now) (on_tape engine.new answers.new pieces.new)) }
    ensures err { OnErr result (on_tape engine.new answers.new pieces.new ≡ on_tape engine.old answers.old pieces.old) }
{
    if answers.reserve(1).is_err() {
        return Err(Short);
    }
    match *call {
        Call::Open(user, rows, cols) => {
            let answer = engine.open(user, rows, cols);
            answers.push_reserved(Answer::Open(answer));
            Ok(())
        }
        Call::Byte(id, byte) => {
            let answer = engine.byte(id, byte);
            answers.push_reserved(Answer::Byte(answer));
            Ok(())
        }
        Call::Close(id) => {
            engine.close(id);
            answers.push_reserved(Answer::Close);
            Ok(())
        }
        Call::Took(id, most) => {
            let pending = engine.pending(id);
            let n = most.min(pending.len());
            if add_bytes(alloc, pieces, id, &pending[..n]).is_err() {
                return Err(Short);
            }
            engine.took(id, n);
            answers.push_reserved(Answer::Took(n));
            Ok(())
        }
        Call::Ended => {
            let answer = engine.ended();
            answers.push_reserved(Answer::Ended(answer));
            Ok(())
        }
    }
}

// Makes calls in order, until the tape cannot grow.
fn make_each<T: Marked + Drop, S: Store + Drop>(
    alloc: Global,
    engine: &mut Engine<T, S>,
    calls: &[Call<'_>],
    answers: &mut Vec<Answer>,
    pieces: &mut Vec<Piece>,
) -> Result<(), Short>
    ensures ok { OnOk result (Runs (on_tape engine.old answers.old pieces.old) (all_asked calls.now) (on_tape engine.new answers.new pieces.new)) }
    ensures err { OnErr result (RunsSome (on_tape engine.old answers.old pieces.old) (all_asked calls.now) (on_tape engine.new answers.new pieces.new)) }
{
    for call in calls {
        match make(alloc, engine, call, answers, pieces) {
            Ok(()) => {}
            Err(Short) => return Err(Short),
        }
    }
    Ok(())
}

/// Makes calls in order, and puts on the tape what each answered and the bytes that were taken. A `Took` is cut to what is
/// pending. Each call is the engine's own, with its own answers.
///
/// The world after is the one before after the events of the calls. For each session that was not open before, and is after,
/// the bytes that were put on the tape of it and then those that wait for it turn any terminal of its size, whatever it
/// shows, into one that shows its screen.
///
/// `Short`: memory was refused to the tape, which grows before each call. The calls whose answers are on the tape were made,
/// and no others.
pub fn drive<T: Marked + Drop, S: Store + Drop>(
    engine: &mut Engine<T, S>,
    calls: &[Call<'_>],
    tape: &mut Tape,
) -> Result<(), Short>
    ensures ok { OnOk result (Runs (taped engine.old tape.old) (all_asked calls.now) (taped engine.new tape.new)) }
    ensures err { OnErr result (RunsSome (taped engine.old tape.old) (all_asked calls.now) (taped engine.new tape.new)) }
    ensures world { OnOk result (IsRun (taped engine.old tape.old) (all_asked calls.now) (taped engine.new tape.new)) }
    ensures part { OnErr result (IsRunOfSome (taped engine.old tape.old) (all_asked calls.now) (taped engine.new tape.new)) }
    ensures screens { AreTaped (taped engine.old tape.old) (taped engine.new tape.new) }
{
    make_each(
        tape.alloc,
        engine,
        calls,
        &mut tape.answers,
        &mut tape.pieces,
    )
}
