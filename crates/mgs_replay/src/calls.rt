// The calls of a player: each is made by `drive`, on a tape of its own.
ghost use Rattle.std.specs.Prelude.{◌≡◌, ◌∷◌, ℕ, [], Result, Option, IfOk, OnOk, drop, slice_get, is_some};
ghost use Rattle.mgs_model.specs.Events.{Close, step};
ghost use Rattle.mgs_model.specs.declared.errors.Keyed.{Keyed};
ghost use Rattle.mgs_model.specs.declared.errors.OpenFault.{OpenFault};
ghost use Rattle.mgs_wire.specs.Calls as wire;
ghost use Rattle.mgs_engine.specs.declared.session_end.Cause.{Cause};
ghost use Rattle.mgs_engine.specs.declared.tape.Answer.TheVariants as kinds;
ghost use Rattle.mgs_engine.specs.Does.{Does};
ghost use Rattle.mgs_engine.specs.Serving.{pending_of};
ghost use Rattle.mgs_engine.specs.Tapes.{bytes_on};
ghost use Rattle.mgs_replay.specs.Served.{SizeAdded, all_taken_by};

use mgs_engine::{Answer, Call, Engine, Tape, drive};
use mgs_marks::Marked;
use mgs_model::{Keyed, OpenFault, SessionId, Short};
use mgs_store::RefusingStore;
use std::alloc::Global;

/// An engine of texts that no store takes.
pub(crate) type Server<T> = Engine<T, RefusingStore>;

// What the only call on a tape answered, which was an open.
fn opened(answers: &[Answer]) -> Result<SessionId, OpenFault>
    ensures { (a : Result ℕ OpenFault) → answers.now ≡ kinds.Open a ∷ [] → result ≡ a }
{
    match answers {
        [Answer::Open(answer)] => *answer,
        _ => Err(OpenFault::Short),
    }
}

// The same of a byte.
fn typed(answers: &[Answer]) -> Keyed
    ensures { (a : Keyed) → answers.now ≡ kinds.Byte a ∷ [] → result ≡ a }
{
    match answers {
        [Answer::Byte(answer)] => *answer,
        _ => Keyed::Done,
    }
}

// Whether the only call on a tape told of a session that ended.
fn told(answers: &[Answer]) -> bool
    ensures { (a : Option (ℕ × Cause)) → answers.now ≡ kinds.Ended a ∷ [] → result ≡ is_some a }
{
    matches!(answers, [Answer::Ended(Some(_))])
}

/// Opens a session, as the engine does. `Short`: memory was refused to the tape.
pub(crate) fn open<T: Marked + Drop>(
    alloc: Global,
    server: &mut Server<T>,
    user: &str,
    rows: usize,
    cols: usize,
) -> Result<Result<SessionId, OpenFault>, Short>
    ensures does { IfOk result (λ a. Does server.old (wire.Open user.now rows cols a) server.new) }
    ensures sizes { IfOk result (λ a. SizeAdded rows cols a server.old.world server.new.world) }
{
    let mut tape = Tape::new(alloc);
    match drive(server, &[Call::Open(user, rows, cols)], &mut tape) {
        Ok(()) => Ok(opened(tape.answers())),
        Err(Short) => Err(Short),
    }
}

/// A byte of a session, as the engine takes it. `Short`: memory was refused to the tape.
pub(crate) fn byte<T: Marked + Drop>(
    alloc: Global,
    server: &mut Server<T>,
    id: SessionId,
    byte: u8,
) -> Result<Keyed, Short>
    ensures { IfOk result (λ a. Does server.old (wire.Byte id byte a) server.new) }
{
    let mut tape = Tape::new(alloc);
    match drive(server, &[Call::Byte(id, byte)], &mut tape) {
        Ok(()) => Ok(typed(tape.answers())),
        Err(Short) => Err(Short),
    }
}

/// Closes a session, as the engine does. `Short`: memory was refused to the tape.
pub(crate) fn close<T: Marked + Drop>(
    alloc: Global,
    server: &mut Server<T>,
    id: SessionId,
) -> Result<(), Short>
    ensures does { OnOk result (Does server.old (wire.Close id) server.new) }
    ensures world { OnOk result (server.new.world ≡ step server.old.world (Close id)) }
{
    let mut tape = Tape::new(alloc);
    drive(server, &[Call::Close(id)], &mut tape)
}

/// Takes all bytes that wait for a session: they are on the tape. `Short`: memory was refused to the tape.
pub(crate) fn take<T: Marked + Drop>(
    alloc: Global,
    server: &mut Server<T>,
    id: SessionId,
) -> Result<Tape, Short>
    ensures bytes { IfOk result (λ t. bytes_on id t ≡ pending_of id server.old) }
    ensures taken { IfOk result (λ t. server.new ≡ all_taken_by id server.old) }
{
    let mut tape = Tape::new(alloc);
    let count = server.pending(id).len();
    match drive(server, &[Call::Took(id, count)], &mut tape) {
        Ok(()) => Ok(tape),
        Err(Short) => Err(Short),
    }
}

// The session that ended first is told. False: each was told. `Short`: memory was refused to the tape.
fn tell_one<T: Marked + Drop>(alloc: Global, server: &mut Server<T>) -> Result<bool, Short>
    ensures told { IfOk result (λ more. more ≡ is_some (slice_get server.old.ended 0)) }
    ensures rest { OnOk result (server.new ≡ record server.old { ended = drop 1 server.old.ended }) }
{
    let mut tape = Tape::new(alloc);
    match drive(server, &[Call::Ended], &mut tape) {
        Ok(()) => Ok(told(tape.answers())),
        Err(Short) => Err(Short),
    }
}

/// Asks for sessions that ended until each was told. `Short`: memory was refused to the tape.
pub(crate) fn tell_all<T: Marked + Drop>(alloc: Global, server: &mut Server<T>) -> Result<(), Short>
    ensures { OnOk result (server.new ≡ record server.old { ended = [] }) }
{
    let mut more = true;
    while more {
        match tell_one(alloc, server) {
            Ok(told) => more = told,
            Err(Short) => return Err(Short),
        }
    }
    Ok(())
}
