// Settings of a session.
ghost use Rattle.std.specs.Prelude.{◌≡◌};
ghost use Rattle.mgs_plan.specs.Setting.{column_set, recording_ended, recording_started, session_set};

use mgs_model::{Kind, Message, Notice, Setting};
use mgs_session::{Session, end_macro, fail, give_up_macro, set_fill, set_kind, start_macro};

/// The fill column is set.
fn set_column(session: &mut Session, argument: Option<usize>)
    ensures { session.new ≡ column_set argument session.old }
{
    match argument {
        None => fail(session, Message::Says(Notice::NoArgument)),
        Some(0) => fail(session, Message::Says(Notice::BadColumn)),
        Some(column) => {
            set_kind(session, Kind::Other);
            set_fill(session, column);
        }
    }
}

/// A macro is recorded from here on, where none is and none plays.
fn start_recording(session: &mut Session)
    ensures { session.new ≡ recording_started session.old }
{
    if session.state.recorder.is_recording() || session.state.player.is_playing() {
        fail(session, Message::Says(Notice::InMacro));
    } else {
        start_macro(session);
    }
}

/// The macro that is recorded is complete.
fn end_recording(session: &mut Session)
    ensures { session.new ≡ recording_ended session.old }
{
    if session.state.player.is_playing() {
        fail(session, Message::Says(Notice::InMacro));
    } else if session.state.recorder.is_recording() {
        end_macro(session);
    } else {
        fail(session, Message::Says(Notice::NotInMacro));
    }
}

/// A setting of a session that has nothing half read: its fill column, keyboard-quit, or a macro that begins or ends.
pub fn set(session: &mut Session, setting: Setting, argument: Option<usize>)
    ensures { session.new ≡ session_set setting argument session.old }
{
    match setting {
        Setting::SetFillColumn => set_column(session, argument),
        Setting::KeyboardQuit => {
            fail(session, Message::Says(Notice::Quitting));
            give_up_macro(session);
        }
        Setting::StartMacro => start_recording(session),
        Setting::EndMacro => end_recording(session),
        // A macro that is played is no act.
        Setting::CallMacro => {}
    }
}
