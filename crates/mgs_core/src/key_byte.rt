// A byte of a session that is at no prompt: a key, and what the command of a word of keys comes to.
ghost use Rattle.std.specs.Prelude.{◌≡◌, ◌≤◌, List, Option, None, length, true};
ghost use Rattle.mgs_model.specs.Access.{Directory};
ghost use Rattle.mgs_buffers.specs.MarkedBuffer.{MarkedBuffer};
ghost use Rattle.mgs_model.specs.Plans.{count_of};
ghost use Rattle.mgs_core.specs.KeyActs.{command_act, line_act, motion_act};
ghost use Rattle.mgs_core.specs.declared.byte_acts.ModeBefore.TheVariants.{Plain};
ghost use Rattle.mgs_core.specs.ByteSteps.{IsAlone, IsByteStep, IsCommandStep, call_fault, is_call, is_exit, is_keyed};

use crate::byte_acts::ByteAct;
use mgs_maps::Fed;
use mgs_model::{Command, Message, Motion, Notice, Question, REPETITION_LIMIT, Setting};
use mgs_plan::{KeyAct, counted};
use mgs_session::{Session, call_macro, fail, hold, rest};

/// What a byte comes to in its session.
#[derive(Clone, Copy)]
pub enum ByteStep {
    /// The session alone changed.
    Kept,
    /// An act that failed, which changed the session alone.
    Failed,
    /// The end of the session.
    Ends,
    /// This is to be done by the session.
    Acts(ByteAct),
}

/// Going to a line: one that no argument tells is asked for.
fn line_act(argument: Option<u32>) -> KeyAct
    ensures { result ≡ line_act argument }
{
    match argument {
        None => KeyAct::Run(Command::Ask(Question::GoToWhich), None),
        Some(line) => KeyAct::Run(Command::Move(Motion::GoToLine), Some(line)),
    }
}

/// What a motion comes to with an argument.
fn motion_act(motion: Motion, argument: Option<u32>) -> KeyAct
    ensures { result ≡ motion_act motion argument }
{
    match motion {
        Motion::GoToLine => line_act(argument),
        _ => KeyAct::Run(Command::Move(motion), argument),
    }
}

/// What a command comes to with an argument, by its keys or by its name.
fn command_act(command: Command, argument: Option<u32>) -> KeyAct
    ensures { result ≡ command_act command argument }
{
    match command {
        Command::Move(motion) => motion_act(motion, argument),
        _ => KeyAct::Run(command, argument),
    }
}

/// Whether a command ends its session.
fn is_exit(command: Command) -> bool
    ensures { result ≡ is_exit command }
{
    command == Command::Exit
}

/// Whether a command plays the session's macro.
fn is_call(command: Command) -> bool
    ensures { result ≡ is_call command }
{
    match command {
        Command::Set(setting) => setting == Setting::CallMacro,
        _ => false,
    }
}

/// How often something is done.
fn times(argument: Option<u32>) -> usize
    ensures { result ≡ count_of argument }
{
    match counted(argument) {
        None => 1,
        Some(count) => count,
    }
}

/// Why the session's macro, of at most 512 bytes, cannot be played so often: one is played or recorded, there is none, or it is more than 100
/// times.
fn call_fault(session: &Session, argument: Option<u32>) -> Option<Message>
    ensures value { result ≡ call_fault session.now.state argument }
    ensures within { length session.now.state.recorder.macro ≤ 512 }
{
    let bytes = session.state.recorder.as_slice();
    if session.state.recorder.is_recording() || session.state.player.is_playing() {
        return Some(Message::Says(Notice::InMacro));
    }
    if bytes.is_empty() {
        return Some(Message::Says(Notice::NoMacro));
    }
    if times(argument) > REPETITION_LIMIT {
        return Some(Message::Says(Notice::TooMany));
    }
    None
}

/// The session's macro is to be played, or it is told why not.
fn step_call(session: &mut Session, command: Command, argument: Option<u32>) -> ByteStep
    requires { is_call command ≡ true }
    ensures step { IsCommandStep session.old session.new command argument result }
    ensures keyed { is_keyed result ≡ true }
{
    if let Some(message) = call_fault(session, argument) {
        fail(session, message);
        return ByteStep::Failed;
    }
    call_macro(session, times(argument));
    ByteStep::Kept
}

/// What a command comes to in a session at rest. None ends its session while a macro plays.
pub fn step_command(session: &mut Session, command: Command, argument: Option<u32>) -> ByteStep
    ensures step { IsCommandStep session.old session.new command argument result }
    ensures keyed { is_keyed result ≡ true }
{
    if is_call(command) {
        return step_call(session, command, argument);
    }
    if !is_exit(command) {
        return ByteStep::Acts(ByteAct::Act(command_act(command, argument)));
    }
    if session.state.player.is_playing() {
        fail(session, Message::Says(Notice::InMacro));
        return ByteStep::Failed;
    }
    ByteStep::Ends
}

/// What a key comes to in a session that neither searches nor is at a prompt. It asks for no answer's act, and for none of a search.
pub fn step_key(session: &mut Session, byte: u8) -> ByteStep
    requires still { session.old.state.search ≡ None }
    requires plain { session.old.state.prompt ≡ None }
    requires alone { IsAlone session.old.state.player }
    ensures step { (directory : Directory) (ks : List MarkedBuffer) → IsByteStep directory ks session.old session.new byte Plain result }
    ensures keyed { is_keyed result ≡ true }
{
    let mut keyboard = session.state.keyboard;
    match keyboard.feed(byte) {
        Fed::Pending => {
            hold(session, keyboard);
            ByteStep::Kept
        }
        Fed::Unbound => {
            rest(session);
            ByteStep::Acts(ByteAct::Act(KeyAct::Unbound))
        }
        Fed::Run(command, argument) => {
            rest(session);
            step_command(session, command, argument)
        }
    }
}
