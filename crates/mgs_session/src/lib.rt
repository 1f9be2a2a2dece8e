//! One session: whose it is, its windows, what it has half read, what its echo line says, and what it has killed.
#![tactic(auto)]

mod kill_buffer;
mod player;
mod search;
mod search_string;

ghost use Rattle.std.specs.Prelude.{◌≡◌, ◌≤◌, ◌<◌, ◌+◌, ◌-◌, ◌^◌, [], vec_capacity};
ghost use Rattle.mgs_model.specs.Plans.{kind_failed};
ghost use Rattle.mgs_session.specs.Playing.{IsNext};
ghost use Rattle.mgs_session.specs.Seeking.{is_search_in, state_without_buffer, search_left, searching, session_edited, unsearched};
ghost use Rattle.mgs_session.specs.Sessions.{session_opened, acted, asking, begun, broken_off, failed, filling, holding, macro_called, macro_ended, macro_given_up, macro_started, playing_as, prompting, reading, resting, told, unbound, subject_in, subject_of, unprompted, window_marks_of};

pub use kill_buffer::KillBuffer;
use mgs_maps::Keyboard;
use mgs_mini::Prompt;
pub use mgs_mini::Recorder;
use mgs_model::{Kind, Message, Name, Notice, Question, SessionId};
use mgs_search::IncrementalSearch;
use mgs_windows::{RowPane, Window, WindowMarks, Windows};
pub use player::{Pending, Player};
pub use search::{Aim, Edited, Replacing, Search};
pub use search_string::SearchString;
use std::alloc::Global;

/// The fill column of a session that has set none.
pub const FILL_COLUMN: usize = 72;

/// What a session holds beside its windows and its kill buffer.
#[derive(Drop)]
pub struct State {
    /// The echo text.
    pub echo: Message,
    /// The keys and the argument that are half read. While there is a prompt, the argument of the command that the prompt is for, and
    /// no keys; while an incremental search goes on, the bytes of a character that is not complete, which are those of a key when the
    /// search's buffer is killed.
    pub keyboard: Keyboard,
    /// The kind of the last command.
    pub kind: Kind,
    /// The column up to which lines are filled, 1 to 9,999.
    pub fill: usize,
    /// The prompt that is answered.
    pub prompt: Option<Prompt>,
    /// What was searched for last.
    pub pattern: SearchString,
    /// The macro, and whether it is recorded.
    pub recorder: Recorder,
    /// What is still to be done in an event.
    pub player: Player,
    /// The search that goes on, which comes before a prompt.
    pub search: Option<Search>,
}

/// The state of a session. A position is a mark in the text of a buffer.
#[derive(Drop)]
pub struct Session {
    /// The number by which it is known.
    pub id: SessionId,
    /// Whose it is.
    pub user: Name,
    /// The columns of the screen; its rows are those of the windows.
    pub cols: usize,
    /// Its windows.
    pub windows: Windows,
    /// What it killed or copied.
    pub kill: KillBuffer,
    /// All else.
    pub state: State,
}

/// A session with one window. `places` is empty, and has room for one.
pub fn opened(
    alloc: Global,
    id: SessionId,
    user: Name,
    rows: usize,
    cols: usize,
    shows: Option<WindowMarks>,
    places: Vec<WindowMarks>,
) -> Session
    requires rows { 3 ≤ rows }
    requires none { places.items ≡ [] }
    requires room { 1 ≤ vec_capacity places }
    ensures { result ≡ session_opened id user rows cols shows (vec_capacity places) }
{
    Session {
        id,
        user,
        cols,
        windows: Windows::one(rows, shows, places),
        kill: KillBuffer::new(alloc),
        state: State {
            echo: Message::Says(Notice::Silent),
            keyboard: Keyboard::new(),
            kind: Kind::Other,
            fill: FILL_COLUMN,
            prompt: None,
            pattern: SearchString::new(),
            recorder: Recorder::new(),
            player: Player::new(),
            search: None,
        },
    }
}

/// Puts a text into the echo line.
pub fn set_echo(session: &mut Session, message: Message)
    ensures { session.new ≡ told message session.old }
{
    session.state.echo = message;
}

/// The kind that a failure leaves: that there is nothing more to undo breaks no run of undos, and any other failure
/// breaks every run.
fn kind_failed(message: &Message, kind: Kind) -> Kind
    ensures { result ≡ kind_failed message.now kind }
{
    match message {
        Message::Says(Notice::NoFurtherUndo) => match kind {
            Kind::Undo { .. } => kind,
            Kind::Other | Kind::Kill | Kind::Line { .. } => Kind::Other,
        },
        _ => Kind::Other,
    }
}

/// A command has failed, or was denied: this is told, nothing is half read, a prompt is given up, and nothing more of a macro is played.
pub fn fail(session: &mut Session, message: Message)
    ensures { session.new ≡ failed message session.old }
{
    let kind = kind_failed(&message, session.state.kind);
    rest(session);
    set_kind(session, kind);
    break_off(session, message);
}

/// What was to be done cannot be: this is told, and nothing more of a macro is played.
pub fn break_off(session: &mut Session, message: Message)
    ensures { session.new ≡ broken_off message session.old }
{
    set_echo(session, message);
    session.state.player.stop();
}

/// The bytes that were typed are no character and no key: this is told, it breaks a run of commands, and nothing more of a macro is
/// played. A prompt and a search go on.
pub fn tell_unbound(session: &mut Session)
    ensures { session.new ≡ unbound session.old }
{
    set_kind(session, Kind::Other);
    break_off(session, Message::Says(Notice::KeyNotBound));
}

/// A command of this kind was done.
pub fn set_kind(session: &mut Session, kind: Kind)
    ensures { session.new ≡ acted kind session.old }
{
    session.state.kind = kind;
}

/// The fill column is set.
pub fn set_fill(session: &mut Session, column: usize)
    ensures { session.new ≡ filling column session.old }
{
    session.state.fill = column;
}

/// A command of this kind was done, and tells this.
pub fn finish(session: &mut Session, kind: Kind, message: Message)
    ensures { session.new ≡ told message (acted kind session.old) }
{
    set_kind(session, kind);
    set_echo(session, message);
}

/// A byte comes: it is kept where a macro is recorded, and is to be handled. One that is one too many for the macro is not: the
/// recording has ended without a macro, which is told.
pub fn begin(session: &mut Session, byte: u8)
    ensures { session.new ≡ begun byte session.old }
{
    if session.state.recorder.keep(byte) {
        session.state.player.type_byte(byte);
        return;
    }
    set_kind(session, Kind::Other);
    break_off(session, Message::Says(Notice::MacroTooLong));
}

/// Takes what is to be done next, which is handled now.
pub fn next_task(session: &mut Session) -> Pending
    ensures next { IsNext result session.old.state.player session.new.state.player }
    ensures rest { session.new ≡ playing_as session.new.state.player session.old }
{
    session.state.player.next()
}

/// These bytes of a macro are to be played so many times.
pub fn call_macro(session: &mut Session, times: usize)
    ensures { session.new ≡ macro_called times session.old }
{
    session
        .state
        .player
        .call(session.state.recorder.as_slice(), times);
}

/// A macro is recorded from here on.
pub fn start_macro(session: &mut Session)
    ensures { session.new ≡ macro_started session.old }
{
    session.state.recorder.start();
    set_kind(session, Kind::Other);
}

/// The macro is complete, but for the two bytes that end it.
pub fn end_macro(session: &mut Session)
    ensures { session.new ≡ macro_ended session.old }
{
    session.state.recorder.end();
    set_kind(session, Kind::Other);
}

/// A macro that is recorded is lost.
pub fn give_up_macro(session: &mut Session)
    ensures { session.new ≡ macro_given_up session.old }
{
    session.state.recorder.give_up();
}

/// The kill buffer holds other characters.
pub fn set_kill(session: &mut Session, text: Vec<char>)
    ensures { session.new ≡ record session.old { kill = text.items } }
{
    session.kill.set(text);
}

/// A prompt is given up, where there is one: its place is large, and is written only then.
fn drop_prompt(session: &mut Session)
    ensures { session.new ≡ unprompted session.old }
{
    if session.state.prompt.is_some() {
        session.state.prompt = None;
    }
}

/// A search is given up, where one goes on: its place is large, and is written only then.
fn drop_search(session: &mut Session)
    ensures { session.new ≡ unsearched session.old }
{
    if session.state.search.is_some() {
        session.state.search = None;
    }
}

/// Holds what was read of a byte that is neither a prompt's nor a search's, and empties the echo line, as each byte does.
pub fn hold(session: &mut Session, keyboard: Keyboard)
    ensures { session.new ≡ holding keyboard session.old }
{
    session.state.echo = Message::Says(Notice::Silent);
    session.state.keyboard = keyboard;
    drop_prompt(session);
    drop_search(session);
}

/// Holds what was read of a byte of a search. The search and the echo line stay.
pub fn hold_keyboard(session: &mut Session, keyboard: Keyboard)
    ensures { session.new ≡ reading keyboard session.old }
{
    session.state.keyboard = keyboard;
}

/// Nothing is half read, a prompt or a search is over, and the echo line is empty: an act can begin.
pub fn rest(session: &mut Session)
    ensures { session.new ≡ resting session.old }
{
    hold(session, Keyboard::new());
}

/// Asks a question. The argument waits for the command that the answer is for.
pub fn ask(session: &mut Session, question: Question, argument: Option<u32>)
    ensures { session.new ≡ asking question argument session.old }
{
    session.state.keyboard = Keyboard::holding(argument);
    session.state.prompt = Some(Prompt::new(question));
    set_kind(session, Kind::Other);
}

/// The prompt, which is taken out. All else stays, and `hold_prompt` puts it back.
pub fn take_prompt(session: &mut Session) -> Option<Prompt>
    ensures prompt { result ≡ session.old.state.prompt }
    ensures rest { session.new ≡ unprompted session.old }
{
    session.state.prompt.take()
}

/// Holds what a prompt makes of a byte, and empties the echo line, as each byte does.
pub fn hold_prompt(session: &mut Session, prompt: Prompt)
    ensures { session.new ≡ prompting prompt session.old }
{
    session.state.prompt = Some(prompt);
    set_echo(session, Message::Says(Notice::Silent));
}

/// The search that goes on, which is taken out. All else stays, and `hold_search` puts it back.
pub fn take_search(session: &mut Session) -> Option<Search>
    ensures search { result ≡ session.old.state.search }
    ensures rest { session.new ≡ unsearched session.old }
{
    session.state.search.take()
}

/// Holds a search that goes on.
pub fn hold_search(session: &mut Session, search: Search)
    ensures { session.new ≡ searching search session.old }
{
    session.state.search = Some(search);
}

/// An incremental search that was taken out is over: what it looked for is the search string, unless it looked for nothing. No prompt is
/// behind it, and the echo line is empty.
pub fn leave_search(session: &mut Session, sought: &IncrementalSearch)
    ensures { session.new ≡ search_left sought.now.pattern session.old }
{
    let pattern = sought.pattern();
    if !pattern.is_empty() {
        session.state.pattern = SearchString::of(pattern);
    }
    session.state.prompt = None;
    session.state.search = None;
    set_echo(session, Message::Says(Notice::Silent));
}

/// The positions of a search that goes on go by an edit of the buffer of this name.
pub fn follow_edit(session: &mut Session, name: &Name, edit: &Edited)
    requires order { edit.now.from ≤ edit.now.to }
    requires fits { edit.now.size + edit.now.added < 2 ^ 64 }
    ensures { session.new ≡ session_edited name.now edit.now session.old }
{
    if let Some(search) = &mut session.state.search {
        search.follow(name, edit);
    }
}

/// The buffer of this name is killed: a search in it is over.
pub fn forget_search(session: &mut Session, name: &Name)
    ensures { session.new ≡ record session.old { state = state_without_buffer name.now session.old.state } }
{
    if searches_in(&session.state, name) {
        session.state.search = None;
        session.state.prompt = None;
    }
}

/// Whether a search goes on in the buffer of this name.
fn searches_in(state: &State, name: &Name) -> bool
    ensures { result ≡ is_search_in name.now state.now.search }
{
    match &state.search {
        Some(search) => *name == search.name,
        None => false,
    }
}

/// The buffer that the selected window shows.
pub fn selected_window_marks(session: &Session) -> Option<WindowMarks>
    ensures { result ≡ window_marks_of session.now }
{
    session.windows.selected_window().shows
}

/// The buffer whose text or access list a window shows.
fn subject_in(window: &Window) -> Option<Name>
    ensures { result ≡ subject_in window.now.shows window.now.rows }
{
    match window.shows {
        Some(window_marks) => Some(window_marks.name),
        None => match window.rows {
            RowPane::Entries { name, .. } => Some(name),
            RowPane::NoRows | RowPane::Buffers { .. } => None,
        },
    }
}

/// The buffer that the selected window shows, or whose access list it shows.
pub fn subject(session: &Session) -> Option<Name>
    ensures { result ≡ subject_of session.now }
{
    subject_in(&session.windows.selected_window())
}
