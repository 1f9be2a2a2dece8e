// Incremental searches: one begins, goes on, or is quit.
ghost use Rattle.std.specs.Prelude.{◌≡◌, ◌<◌, ◌≤◌, [], length, Option, Some, None, Ok};
ghost use Rattle.mgs_model.specs.Access.{Directory};
ghost use Rattle.mgs_model.specs.Outcome.{Run};
ghost use Rattle.mgs_model.specs.declared.session.Command.TheVariants.{LeaveSearch};
ghost use Rattle.mgs_buffers.specs.MarkedBuffer.{marked_at};
ghost use Rattle.mgs_edit.specs.Reading.{IsWithin, top_read};
ghost use Rattle.mgs_session.specs.Seeking.{unsearched};
ghost use Rattle.mgs_session.specs.Sessions.{window_marks_of};
ghost use Rattle.mgs_session.specs.declared.search.Aim.TheVariants.{Find};
ghost use Rattle.mgs_session.specs.declared.search.Search.{Search};
ghost use Rattle.mgs_windows.specs.declared.WindowMarks.{WindowMarks};
ghost use Rattle.mgs_plan.specs.Actions.{AreMarks};
ghost use Rattle.mgs_seek.specs.Seekers.{Begins, IsBegun, IsQuit, IsSoughtOn, gone_back, gone_back_in, point_sought, origin_plan, IsStep, StepDone, seek_in, seeker_of, session_sought, step_ends, step_search};
ghost use Rattle.mgs_seek.specs.Acting.{Does, as_is};
ghost use Rattle.mgs_world.specs.Only.{OnlyThis, nothing_held};
ghost use Rattle.mgs_world.specs.Sound.{IsSessionSound, IsSound};
ghost use Rattle.mgs_world.specs.Worlds.{idle, state_at, state_of};

use crate::target::{go_on, sought, target};
use mgs_buffers::Buffers;
use mgs_marks::Marked;
use mgs_model::{Direction, Message, Name, Notice, SearchPlaces, SearchStep};
use mgs_policy::Directory;
use mgs_search::IncrementalSearch;
use mgs_session::{Aim, Search, Session, fail, selected_window_marks, take_search};
use mgs_windows::WindowMarks;

/// An incremental search by itself.
#[derive(Drop)]
pub struct Seeker {
    pub name: Name,
    pub origin: usize,
    pub anchor: usize,
    pub sought: IncrementalSearch,
}

/// An incremental search of a session at rest begins where its user may read.
fn begin_in<T: Marked + Drop>(
    buffers: &Buffers<T>,
    directory: &Directory,
    session: &mut Session,
    direction: Direction,
)
    requires sound { IsSessionSound buffers.now session.old }
    requires fresh { state_of session.old.state ≡ idle (state_of session.old.state) }
    ensures only { OnlyThis nothing_held buffers.now buffers.now session.old session.new }
    ensures does { Begins directory.now buffers.now session.old session.new direction }
{
    match target(buffers, directory, session, false) {
        Err(message) => fail(session, message),
        Ok(window_marks) => {
            let name = &window_marks.name;
            let place = buffers.pos(name, window_marks.point);
            go_on(session, Search::new(*name, place, direction));
        }
    }
}

/// An incremental search begins in the text that the selected window of the session at `at` shows, from its point on. The session is
/// at rest, and the world that the act is decided in has its record with the mode that begins. It takes no memory, and touches no text
/// and no other session.
pub fn start_search<T: Marked + Drop>(
    buffers: &Buffers<T>,
    directory: &Directory,
    sessions: &mut [Session],
    at: usize,
    direction: Direction,
)
    requires sound { IsSound buffers.now sessions.old }
    requires within { at < length sessions.old }
    requires fresh { state_at at sessions.old ≡ idle (state_at at sessions.old) }
    ensures sound { IsSound buffers.now sessions.new }
    ensures world { IsBegun directory.now buffers.now sessions.old sessions.new at direction }
{
    begin_in(buffers, directory, &mut sessions[at], direction);
}

/// A search does a step in the text of its buffer, from the point of a window that shows it, and tells where the point goes.
fn step_in<T: Marked + Drop>(
    buffers: &mut Buffers<T>,
    window_marks: &WindowMarks,
    search: &mut Seeker,
    step: SearchStep,
) -> usize
    requires { AreMarks buffers.old window_marks.now }
    ensures buffers { buffers.new ≡ buffers.old }
    ensures search { search.new ≡ step_search buffers.old window_marks.now search.old step }
    ensures value { result ≡ (step_ends buffers.old window_marks.now search.old step).point }
    ensures plan { IsStep buffers.old window_marks.now search.old step }
    ensures point { result ≤ length (marked_at window_marks.now.name buffers.old).buffer.text }
    ensures anchor { search.new.anchor ≤ length (marked_at window_marks.now.name buffers.old).buffer.text }
{
    let name = &window_marks.name;
    let size = buffers.text_len(name);
    let places = SearchPlaces {
        origin: search.origin.min(size),
        anchor: search.anchor.min(size),
        point: buffers.pos(name, window_marks.point),
    };
    let after = buffers.look(name, &mut search.sought, step, places);
    search.anchor = after.anchor;
    after.point
}

/// The same, where the session goes on with it.
fn seek<T: Marked + Drop>(
    buffers: &mut Buffers<T>,
    session: &mut Session,
    window_marks: &WindowMarks,
    search: Seeker,
    step: SearchStep,
)
    requires { AreMarks buffers.old window_marks.now }
    ensures buffers { buffers.new ≡ point_sought window_marks.now search step buffers.old }
    ensures plan { IsStep buffers.old window_marks.now search step }
    ensures within { (step_ends buffers.old window_marks.now search step).anchor ≤ length (marked_at window_marks.now.name buffers.old).buffer.text }
    ensures session { session.new ≡ session_sought (step_search buffers.old window_marks.now search step) session.old }
{
    let mut search = search;
    let point = step_in(buffers, window_marks, &mut search, step);
    buffers.place(&window_marks.name, window_marks.point, point);
    let search = Search {
        name: search.name,
        origin: search.origin,
        anchor: search.anchor,
        aim: Aim::Find(search.sought),
    };
    go_on(session, search);
}

/// A search by itself, if it is an incremental one.
fn seek_in(search: Search) -> Option<Seeker>
    ensures { result ≡ seek_in search search.aim }
{
    let Search {
        name,
        origin,
        anchor,
        aim,
    } = search;
    match aim {
        Aim::Find(sought) => Some(Seeker {
            name,
            origin,
            anchor,
            sought,
        }),
        Aim::Replace(_) => None,
    }
}

/// The incremental search of a session, which is taken out.
fn take_seeker(session: &mut Session) -> Option<Seeker>
    ensures search { result ≡ seeker_of session.old.state.search }
    ensures rest { session.new ≡ unsearched session.old }
{
    match take_search(session) {
        Some(search) => seek_in(search),
        None => None,
    }
}

/// A step of the incremental search that a session holds, where its user may read.
fn step_on<T: Marked + Drop>(
    buffers: &mut Buffers<T>,
    directory: &Directory,
    session: &mut Session,
    step: SearchStep,
)
    requires { IsSessionSound buffers.old session.old }
    ensures only { OnlyThis nothing_held buffers.old buffers.new session.old session.new }
    ensures does { StepDone directory.now buffers.old buffers.new session.old session.new step }
{
    match sought(buffers, directory, session, false) {
        Err(message) => fail(session, message),
        Ok(window_marks) => match take_seeker(session) {
            Some(search) => seek(buffers, session, &window_marks, search, step),
            None => fail(session, Message::Says(Notice::NoBuffer)),
        },
    }
}

/// A step of the incremental search that the session at `at` holds, in the text that its selected window shows: the point goes to where
/// it ends. What it looks for was read before. A window that shows another buffer, or none, is a failure, and so is a denial. It takes
/// no memory, and touches no text and no other session.
pub fn search_on<T: Marked + Drop>(
    buffers: &mut Buffers<T>,
    directory: &Directory,
    sessions: &mut [Session],
    at: usize,
    step: SearchStep,
)
    requires sound { IsSound buffers.old sessions.old }
    requires within { at < length sessions.old }
    ensures sound { IsSound buffers.new sessions.new }
    ensures world { IsSoughtOn directory.now buffers.old buffers.new sessions.old sessions.new at step }
{
    step_on(buffers, directory, &mut sessions[at], step);
}

/// Where the origin of a session's search stands, where that is in the buffer of this name, whose text has `size` characters.
fn origin(session: &Session, name: &Name, size: usize) -> Option<usize>
    ensures value { top_read result ≡ origin_plan name.now size session.now.state.search }
    ensures within { IsWithin size result }
{
    match &session.state.search {
        Some(search) => {
            if search.name == *name {
                return Some(search.origin.min(size));
            }
            None
        }
        None => None,
    }
}

/// The window's point goes back to the origin of the session's search, where that is in the window's buffer.
fn go_back_in<T: Marked + Drop>(
    buffers: &mut Buffers<T>,
    session: &Session,
    window_marks: &WindowMarks,
)
    requires { AreMarks buffers.old window_marks.now }
    ensures { buffers.new ≡ gone_back_in window_marks.now session.now.state.search buffers.old }
{
    let name = &window_marks.name;
    match origin(session, name, buffers.text_len(name)) {
        None => {}
        Some(place) => buffers.place(name, window_marks.point, place),
    }
}

/// The same of the selected window.
fn go_back<T: Marked + Drop>(buffers: &mut Buffers<T>, session: &Session)
    requires { (x : WindowMarks) → window_marks_of session.now ≡ Some x → AreMarks buffers.old x }
    ensures { buffers.new ≡ gone_back (window_marks_of session.now) session.now.state.search buffers.old }
{
    match selected_window_marks(session) {
        None => {}
        Some(window_marks) => go_back_in(buffers, session, &window_marks),
    }
}

/// The search of a session is quit.
fn quit_in<T: Marked + Drop>(buffers: &mut Buffers<T>, session: &mut Session)
    requires { IsSessionSound buffers.old session.old }
    ensures only { OnlyThis nothing_held buffers.old buffers.new session.old session.new }
    ensures does { (directory : Directory) → Does directory buffers.old buffers.new session.old session.new as_is (Run LeaveSearch None []) }
{
    go_back(buffers, session);
    fail(session, Message::Says(Notice::Quitting));
}

/// The search of the session at `at` is quit: the point of the selected window goes back to its origin, where the window shows its buffer.
/// It takes no memory, and touches no text and no other session.
pub fn quit_search<T: Marked + Drop>(buffers: &mut Buffers<T>, sessions: &mut [Session], at: usize)
    requires sound { IsSound buffers.old sessions.old }
    requires within { at < length sessions.old }
    ensures sound { IsSound buffers.new sessions.new }
    ensures world { IsQuit buffers.old buffers.new sessions.old sessions.new at }
{
    quit_in(buffers, &mut sessions[at]);
}
