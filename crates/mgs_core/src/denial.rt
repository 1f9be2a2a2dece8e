// What was denied to an act is recorded, with the buffer at which the right was asked.
ghost use Rattle.std.specs.Prelude.{◌≡◌};
ghost use Rattle.mgs_buffers.specs.MarkedBuffer.{has_buffer};
ghost use Rattle.mgs_session.specs.Sessions.{subject_of};
ghost use Rattle.mgs_births.specs.Denials.{asked_by_command, asked_by_name, denied_at, if_there, tape_denied};
ghost use Rattle.mgs_births.specs.Reports.{decision_said};
ghost use Rattle.mgs_core.specs.ByteActs.{CanDo, asked_of, is_asked};
ghost use Rattle.mgs_core.specs.Denials.{asked_at};

use crate::byte_acts::{ByteAct, ModeBefore, asked};
use mgs_births::Tape;
use mgs_buffers::Buffers;
use mgs_marks::Marked;
use mgs_model::{ByName, Command, Decision, Message, Name, Right};
use mgs_session::{Session, subject};

/// The buffer of the name that was typed, if it is there.
#[tactic(auto, using(crate::proofs::Denials::found_typed))]
fn typed_buffer<T: Marked + Drop>(buffers: &Buffers<T>, typed: &[char]) -> Option<Name>
    ensures { result ≡ if_there (has_buffer typed.now buffers.now) typed.now }
{
    buffers.name_typed(typed)
}

/// The buffer at which a command on a buffer of a typed name asks for a right.
fn asked_by_name<T: Marked + Drop>(
    buffers: &Buffers<T>,
    session: &Session,
    by_name: ByName,
    typed: &[char],
    right: Right,
) -> Option<Name>
    ensures { result ≡ asked_by_name (λ name. has_buffer name buffers.now) (subject_of session.now) by_name typed.now right }
{
    match by_name {
        ByName::SwitchToBuffer => typed_buffer(buffers, typed),
        ByName::KillBuffer => {
            if typed.is_empty() {
                subject(session)
            } else {
                typed_buffer(buffers, typed)
            }
        }
        ByName::InsertBuffer => match right {
            Right::ReadData => typed_buffer(buffers, typed),
            _ => subject(session),
        },
    }
}

/// The buffer at which a command asks for a right.
fn asked_by_command<T: Marked + Drop>(
    buffers: &Buffers<T>,
    session: &Session,
    command: Command,
    typed: &[char],
    right: Right,
) -> Option<Name>
    ensures { result ≡ asked_by_command (λ name. has_buffer name buffers.now) (subject_of session.now) command typed.now right }
{
    match command {
        Command::Named(by_name) => asked_by_name(buffers, session, by_name, typed, right),
        _ => subject(session),
    }
}

/// The buffer at which an act of a byte asks for a right.
fn asked_at<T: Marked + Drop>(
    buffers: &Buffers<T>,
    session: &Session,
    act: ByteAct,
    before: &ModeBefore,
    right: Right,
) -> Option<Name>
    requires { CanDo before.now act }
    ensures { result ≡ asked_at (λ name. has_buffer name buffers.now) (subject_of session.now) before.now act right }
{
    match act {
        ByteAct::Answer(_) => {
            let prompt = asked(before);
            let command = prompt.question().asking().command;
            asked_by_command(buffers, session, command, prompt.input(), right)
        }
        _ => subject(session),
    }
}

/// Records what was denied at a buffer, if it is one.
fn record_at(tape: &mut Tape, name: Option<Name>, decision: Decision)
    ensures { tape.new ≡ denied_at name decision tape.old }
{
    if let Some(name) = name {
        tape.record_denial(&name, decision);
    }
}

/// What the echo line of a session says was decided.
fn decision_said(session: &Session) -> Decision
    ensures { result ≡ decision_said session.now.state.echo }
{
    match session.state.echo {
        Message::Denied(decision) => decision,
        _ => Decision::Granted,
    }
}

/// Records what was denied to an act of a session, which is done, if something was.
pub fn record_denial<T: Marked + Drop>(
    buffers: &Buffers<T>,
    session: &Session,
    act: ByteAct,
    before: &ModeBefore,
    tape: &mut Tape,
)
    requires { CanDo before.now act }
    ensures { tape.new ≡ tape_denied (asked_at (λ name. has_buffer name buffers.now) (subject_of session.now) before.now act) (decision_said session.now.state.echo) tape.old }
{
    let decision = decision_said(session);
    match decision {
        Decision::Granted => {}
        Decision::DeniedBy { bit, .. } => {
            record_at(tape, asked_at(buffers, session, act, before, bit), decision);
        }
        Decision::NotGranted { bit } => {
            record_at(tape, asked_at(buffers, session, act, before, bit), decision);
        }
    }
}
