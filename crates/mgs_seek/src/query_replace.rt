// A query-replace: it begins, a match is skipped or replaced, and it is over where no match is left.
ghost use Rattle.std.specs.Prelude.{IfErr, Ok, ◌≡◌, ℕ, ◌+◌, ◌<◌, ◌≤◌, ◌^◌, List, length, Option, Some, None, IfOk, IfSome, OnOk, OnErr, true, false, slice_get};
ghost use Rattle.mgs_model.specs.declared.touched.Touched.TheVariants.{Nowhere};
ghost use Rattle.std.specs.List.{position_or_len};
ghost use Rattle.mgs_buffers.specs.MarkedBuffer.{HasBuffer, IsMark, marked_at, marked_named};
ghost use Rattle.mgs_session.specs.Seeking.{unsearched};
ghost use Rattle.mgs_session.specs.declared.Session.{Session};
ghost use Rattle.mgs_session.specs.declared.search.Aim.TheVariants.{Replace};
ghost use Rattle.mgs_session.specs.Replacing.{Replacing};
ghost use Rattle.mgs_session.specs.declared.search.Search.{Search};
ghost use Rattle.mgs_seek.specs.Beginning.{search_held};
ghost use Rattle.mgs_plan.specs.Following.{if_edit};
ghost use Rattle.mgs_seek.specs.Replacing.{buffers_met, if_replaces, replacing_of, search_counted, session_met, session_over};
ghost use Rattle.mgs_seek.specs.Planning.{CanPerform, FullAt, IsDoneAt, IsFurther, IsLeft, IsRefusable, IsReplaced, IsSkipped, IsStarted, IsToldBy, IsUnsought, NextFits, IsPlan, IsPlanned, PlannedAt, ReplacementFails, SkipDone, buffers_edited, counted_if, edit_planned, is_full_in, put_of, touched_edit};
ghost use Rattle.mgs_seek.specs.Acting.{DoesStart};
ghost use Rattle.mgs_world.specs.Acted.{IsSameWorld};
ghost use Rattle.mgs_world.specs.Only.{OnlyThis, nothing_held};
ghost use Rattle.mgs_world.specs.Sound.{IsSessionSound, IsSound};
ghost use Rattle.mgs_world.specs.Worlds.{aim_count, aim_input, aim_old, idle, state_at, state_of};

use crate::target::{go_on, mask, sought, target};
use mgs_buffers::{Buffers, Writer};
use mgs_marks::Marked;
use mgs_model::{Kind, Message, Name, Notice, Short, TEXT_LIMIT, Touched};
use mgs_plan::{follow, if_edit};
use mgs_policy::Directory;
use mgs_search::{MatchPlan, begin_replacing, replace_last, replace_match, skip_match};
use mgs_session::{
    Aim, Edited, Replacing, Search, SearchString, Session, fail, rest, set_echo, set_kind,
    take_search,
};
use mgs_text::Text;
use mgs_windows::WindowMarks;

/// What a search replaces; nothing where it replaces nothing.
fn replaced_text(search: &Search) -> &[char]
    ensures value { result.now ≡ aim_old search.now.aim }
    ensures few { length result.now ≤ 120 }
{
    match &search.aim {
        Aim::Find(_) => &[],
        Aim::Replace(replacing) => replacing.pattern(),
    }
}

/// What comes in its place; what is looked for where it replaces nothing.
fn put_text(search: &Search) -> &[char]
    ensures value { result.now ≡ aim_input search.now.aim }
    ensures few { length result.now ≤ 120 }
{
    match &search.aim {
        Aim::Find(sought) => sought.pattern(),
        Aim::Replace(replacing) => replacing.put(),
    }
}

/// How often it was replaced.
fn replaced_count(search: &Search) -> usize
    ensures value { result ≡ aim_count search.now.aim }
    ensures small { result < 2 ^ 64 }
{
    match &search.aim {
        Aim::Find(_) => 0,
        Aim::Replace(replacing) => replacing.count(),
    }
}

/// One more was replaced.
fn count_one(search: &mut Search)
    ensures { search.new ≡ search_counted search.old }
{
    match &mut search.aim {
        Aim::Find(_) => {}
        Aim::Replace(replacing) => replacing.count_one(),
    }
}

/// A search, if it is a query-replace.
fn if_replaces(search: Search) -> Option<Search>
    ensures { result ≡ if_replaces search search.aim }
{
    match &search.aim {
        Aim::Find(_) => None,
        Aim::Replace(_) => Some(search),
    }
}

/// The query-replace of a session, which is taken out.
fn take_replacing(session: &mut Session) -> Option<Search>
    ensures search { result ≡ replacing_of session.old.state.search }
    ensures rest { session.new ≡ unsearched session.old }
{
    match take_search(session) {
        Some(search) => if_replaces(search),
        None => None,
    }
}

/// A query-replace that was taken out of its session is over.
fn end(session: &mut Session, search: &Search)
    ensures { session.new ≡ session_over (aim_count search.now.aim) session.old }
{
    rest(session);
    set_kind(session, Kind::Other);
    set_echo(session, Message::Replaced(replaced_count(search)));
    session.state.player.end_replacing();
}

/// It is at its next match, or over where there is none.
fn go_to(session: &mut Session, search: Search, next: Option<usize>)
    ensures { session.new ≡ session_met next search session.old }
{
    match next {
        Some(found) => {
            let mut search = search;
            search.anchor = found;
            go_on(session, search);
        }
        None => end(session, &search),
    }
}

/// Where a query-replace goes: to its next match, if there is one, and without one the window's point to where it is left.
#[derive(Clone, Copy)]
struct Destination {
    next: Option<usize>,
    left: Option<usize>,
}

/// It is there, and the window's point is behind the match, or where it is left.
fn meet<T: Marked + Drop>(
    buffers: &mut Buffers<T>,
    session: &mut Session,
    window_marks: &WindowMarks,
    at: usize,
    search: Search,
    to: Destination,
)
    requires mark { IsMark window_marks.now.name window_marks.now.point buffers.old }
    requires place { at ≡ position_or_len (marked_named window_marks.now.name) buffers.old }
    requires left { IfSome to.left (λ p. p ≤ length (marked_at window_marks.now.name buffers.old).buffer.text) }
    requires next { IfSome to.next (λ m. m + length (aim_old search.aim) ≤ length (marked_at window_marks.now.name buffers.old).buffer.text) }
    ensures buffers { buffers.new ≡ buffers_met window_marks.now search to.next to.left buffers.old }
    ensures session { session.new ≡ session_met to.next search session.old }
{
    prove!(buffers.is_within_limit(&window_marks.name));
    let name = &window_marks.name;
    let size = replaced_text(&search).len();
    match to.next {
        Some(found) => buffers.place_at(name, at, window_marks.point, found + size),
        None => match to.left {
            Some(place) => buffers.place_at(name, at, window_marks.point, place),
            None => {}
        },
    }
    go_to(session, search, to.next);
}

/// A replacement as it is planned: the window in whose text it is, the place of that buffer among all, what is taken out and put in,
/// whether the match is still there, and where the next one is then.
#[derive(Clone, Copy)]
pub struct Planned {
    pub window_marks: WindowMarks,
    pub place: usize,
    pub edit: Edited,
    pub plan: MatchPlan,
}

/// Plans a replacement at an anchor; the last one looks for no next match.
fn plan<T: Text>(text: &T, anchor: usize, replacing: &Replacing, last: bool) -> MatchPlan
    requires anchor { anchor ≤ length (T.text text.now) }
    requires short { length (T.text text.now) < 2 ^ 32 }
    ensures { IsPlan (T.text text.now) anchor replacing.now last result }
{
    if last {
        replace_last(text, anchor, replacing.pattern())
    } else {
        replace_match(text, anchor, replacing.pattern(), replacing.put())
    }
}

/// What it takes out of a text of `size` characters, and how many it puts in.
fn edit_planned(size: usize, anchor: usize, replacing: &Replacing, replaces: bool) -> Edited
    requires { anchor < 2 ^ 32 }
    ensures value { result ≡ edit_planned size anchor replacing.now replaces }
    ensures order { result.from ≤ result.to }
    ensures few { result.added ≤ 120 }
{
    let (to, added) = if replaces {
        (anchor + replacing.pattern().len(), replacing.put().len())
    } else {
        (anchor, 0)
    };
    Edited {
        size,
        from: anchor,
        to,
        added,
    }
}

/// Whether a buffer has no room for an edit.
fn is_full<T: Marked + Drop>(buffers: &Buffers<T>, name: &Name, at: usize, edit: &Edited) -> bool
    requires kept { HasBuffer name.now buffers.now }
    requires place { at ≡ position_or_len (marked_named name.now) buffers.now }
    requires order { edit.now.from ≤ edit.now.to }
    requires within { edit.now.to ≤ length (marked_at name.now buffers.now).buffer.text }
    requires added { edit.now.added ≤ 120 }
    ensures { (put : List ℕ) → length put ≡ edit.now.added → result ≡ is_full_in buffers.now name.now edit.now.from edit.now.to put }
{
    let size = buffers.text_len_at(name, at);
    let serial = buffers.serial_at(name, at);
    (edit.from < edit.to || edit.added > 0)
        && (size - (edit.to - edit.from) + edit.added > TEXT_LIMIT || serial == u64::MAX)
}

/// Plans a replacement in the text of a window, unless the buffer is full.
fn plan_at<T: Marked + Drop>(
    buffers: &Buffers<T>,
    window_marks: &WindowMarks,
    anchor: usize,
    replacing: &Replacing,
    last: bool,
) -> Result<Planned, Message>
    requires kept { HasBuffer window_marks.now.name buffers.now }
    ensures window { IfOk result (λ p. p.window_marks ≡ window_marks.now) }
    ensures ok { IfOk result (PlannedAt buffers.now window_marks.now anchor replacing.now last) }
    ensures err { IfErr result (FullAt buffers.now window_marks.now anchor replacing.now last) }
{
    prove!(replacing.count() <= usize::MAX);
    let name = &window_marks.name;
    let place = buffers.place_of(name);
    let size = buffers.text_len_at(name, place);
    let anchor = anchor.min(size);
    let plan = plan(buffers.text_at(name, place), anchor, replacing, last);
    let edit = edit_planned(size, anchor, replacing, plan.replaces);
    if is_full(buffers, name, place, &edit) {
        return Err(Message::Says(Notice::BufferFull));
    }
    Ok(Planned {
        window_marks: *window_marks,
        place,
        edit,
        plan,
    })
}

/// The same of a session, where its user may read and write, and where it has a query-replace there.
fn plan_in<T: Marked + Drop>(
    buffers: &Buffers<T>,
    directory: &Directory,
    session: &Session,
    last: bool,
) -> Result<Planned, Message>
    requires { IsSessionSound buffers.now session.now }
    ensures ok { IfOk result (IsPlanned directory.now buffers.now session.now last) }
    ensures err { IfErr result (ReplacementFails directory.now buffers.now session.now last) }
{
    match sought(buffers, directory, session, true) {
        Err(message) => Err(message),
        Ok(window_marks) => match &session.state.search {
            None => Err(Message::Says(Notice::NoBuffer)),
            Some(search) => match &search.aim {
                Aim::Find(_) => Err(Message::Says(Notice::NoBuffer)),
                Aim::Replace(replacing) => {
                    plan_at(buffers, &window_marks, search.anchor, replacing, last)
                }
            },
        },
    }
}

/// What comes in: what the query-replace of a session puts, where there was a match.
fn put_of(session: &Session, replaces: bool) -> &[char]
    ensures { result.now ≡ put_of replaces session.now.state.search }
{
    match &session.state.search {
        Some(search) => { if replaces { put_text(search) } else { &[] } }
        None => &[],
    }
}

/// Does the edit that a session planned, if it is one. `Short`: memory was refused, and nothing was done.
fn edit<T: Marked + Drop>(
    buffers: &mut Buffers<T>,
    directory: &Directory,
    session: &Session,
    planned: &Planned,
) -> Result<(), Short>
    requires { CanPerform directory.now buffers.old session.now planned.now }
    ensures ok { OnOk result (buffers.new ≡ buffers_edited planned.now session.now.state.search buffers.old) }
    ensures err { OnErr result (buffers.new ≡ buffers.old) }
    ensures may { OnErr result (if_edit planned.now.edit ≡ Some planned.now.edit) }
{
    let Some(Edited { from, to, .. }) = if_edit(planned.edit) else {
        return Ok(());
    };
    let put = put_of(session, planned.plan.replaces);
    let writer = Writer {
        directory,
        user: &session.user,
        name: &planned.window_marks.name,
        at: planned.place,
    };
    buffers.edit_at(writer, mask(true), from, to, put)
}

/// One more was replaced, where there was a match.
fn count_if(search: Search, replaces: bool) -> Search
    ensures { result ≡ counted_if replaces search }
{
    let mut search = search;
    if replaces {
        count_one(&mut search);
    }
    search
}

/// What the replacement leaves in its session once the text is edited and all positions went by it: it counts, and the next match is met.
fn leave<T: Marked + Drop>(buffers: &mut Buffers<T>, session: &mut Session, planned: &Planned)
    requires mark { IsMark planned.now.window_marks.name planned.now.window_marks.point buffers.old }
    requires place { planned.now.place ≡ position_or_len (marked_named planned.now.window_marks.name) buffers.old }
    requires behind { planned.now.edit.from + planned.now.edit.added ≤ length (marked_at planned.now.window_marks.name buffers.old).buffer.text }
    requires next { NextFits buffers.old session.old.state.search planned.now }
    ensures { (s : Search) → session.old.state.search ≡ Some s → IsLeft planned.now s buffers.old buffers.new session.old session.new }
{
    prove!(buffers.is_within_limit(&planned.window_marks.name));
    match take_search(session) {
        None => {}
        Some(search) => {
            let behind = planned.edit.from + planned.edit.added;
            let replaces = planned.plan.replaces;
            let left = if replaces { Some(behind) } else { None };
            let search = count_if(search, replaces);
            let to = Destination {
                next: planned.plan.next,
                left,
            };
            meet(
                buffers,
                session,
                &planned.window_marks,
                planned.place,
                search,
                to,
            );
        }
    }
}

/// What an edit touches, if it is one.
fn touched(name: &Name, edit: &Option<Edited>) -> Touched
    ensures { result ≡ touched_edit name.now edit.now }
{
    match edit {
        Some(_) => Touched::In(*name),
        None => Touched::Nowhere,
    }
}

/// A replacement that the session at `at` planned is done. `Short`: memory was refused, and nothing was done.
fn perform<T: Marked + Drop>(
    buffers: &mut Buffers<T>,
    directory: &Directory,
    sessions: &mut [Session],
    at: usize,
    planned: &Planned,
) -> Result<Touched, Short>
    requires within { at < length sessions.old }
    requires can { (h : Session) → slice_get sessions.old at ≡ Some h → CanPerform directory.now buffers.old h planned.now }
    ensures done { IfOk result (IsDoneAt at planned.now buffers.old buffers.new sessions.old sessions.new) }
    ensures err { OnErr result ((buffers.new ≡ buffers.old) × (sessions.new ≡ sessions.old)) }
    ensures may { OnErr result (if_edit planned.now.edit ≡ Some planned.now.edit) }
{
    edit(buffers, directory, &sessions[at], planned)?;
    let edit = if_edit(planned.edit);
    let name = &planned.window_marks.name;
    follow(sessions, name, &edit);
    leave(buffers, &mut sessions[at], planned);
    Ok(touched(name, &edit))
}

/// A query-replace of a session at rest begins where its user may read.
fn start_in<T: Marked + Drop>(
    buffers: &mut Buffers<T>,
    directory: &Directory,
    session: &mut Session,
    pattern: SearchString,
    put: SearchString,
)
    requires sound { IsSessionSound buffers.old session.old }
    requires fresh { state_of session.old.state ≡ idle (state_of session.old.state) }
    ensures only { OnlyThis nothing_held buffers.old buffers.new session.old session.new }
    ensures does { DoesStart directory.now buffers.old buffers.new session.old session.new pattern put }
{
    match target(buffers, directory, session, false) {
        Err(message) => fail(session, message),
        Ok(window_marks) => {
            let name = &window_marks.name;
            let at = buffers.place_of(name);
            let place = buffers.pos(name, window_marks.point);
            match begin_replacing(buffers.text_at(name, at), place, pattern.as_slice()) {
                Err(message) => fail(session, message),
                Ok(next) => {
                    let search = Search::replacing(
                        *name,
                        place,
                        place,
                        Replacing::new(pattern, put),
                    );
                    let to = Destination { next, left: None };
                    meet(buffers, session, &window_marks, at, search, to);
                }
            }
        }
    }
}

/// A query-replace begins in the text that the selected window of the session at `at` shows: `pattern` is looked for from its point on,
/// and `put` comes in its place. Where no match is there, it is over at once. The session is at rest, and the world that the act is
/// decided in has its record with the mode that begins. It takes no memory, and touches no text and no other session.
pub fn start_replacing<T: Marked + Drop>(
    buffers: &mut Buffers<T>,
    directory: &Directory,
    sessions: &mut [Session],
    at: usize,
    pattern: SearchString,
    put: SearchString,
)
    requires sound { IsSound buffers.old sessions.old }
    requires within { at < length sessions.old }
    requires fresh { state_at at sessions.old ≡ idle (state_at at sessions.old) }
    ensures sound { IsSound buffers.new sessions.new }
    ensures world { IsStarted directory.now buffers.old buffers.new sessions.old sessions.new at pattern put }
{
    start_in(buffers, directory, &mut sessions[at], pattern, put);
}

/// The match at which the query-replace of a session stands stays as it is, where its user may read.
fn skip_in<T: Marked + Drop>(buffers: &mut Buffers<T>, directory: &Directory, session: &mut Session)
    requires { IsSessionSound buffers.old session.old }
    ensures only { OnlyThis nothing_held buffers.old buffers.new session.old session.new }
    ensures does { SkipDone directory.now buffers.old buffers.new session.old session.new }
{
    match sought(buffers, directory, session, false) {
        Err(message) => fail(session, message),
        Ok(window_marks) => match take_replacing(session) {
            Some(search) => {
                prove!(replaced_count(&search) <= usize::MAX);
                let name = &window_marks.name;
                let at = buffers.place_of(name);
                let anchor = search.anchor.min(buffers.text_len_at(name, at));
                let next = skip_match(buffers.text_at(name, at), anchor, replaced_text(&search));
                let to = Destination { next, left: None };
                meet(buffers, session, &window_marks, at, search, to);
            }
            None => fail(session, Message::Says(Notice::NoBuffer)),
        },
    }
}

/// The match at which the query-replace of the session at `at` stands stays as it is, and the next one is met. A window that shows
/// another buffer, or none, is a failure, and so is a denial. It takes no memory, and touches no text and no other session.
pub fn skip<T: Marked + Drop>(
    buffers: &mut Buffers<T>,
    directory: &Directory,
    sessions: &mut [Session],
    at: usize,
)
    requires sound { IsSound buffers.old sessions.old }
    requires within { at < length sessions.old }
    ensures sound { IsSound buffers.new sessions.new }
    ensures world { IsSkipped directory.now buffers.old buffers.new sessions.old sessions.new at }
{
    skip_in(buffers, directory, &mut sessions[at]);
}

/// The match at which the query-replace of the session at `at` stands is replaced, where it still stands there, and the next one is
/// met; where it is the last, it is over. A window that shows another buffer, or none, is a failure, and so are a denial and a full
/// buffer. It tells what it touched, and what it did not touch is as it was. `Short`: memory was refused, the world is as it was, and
/// the act is one that may be refused. Where all further matches are replaced, what is left of the text becomes less with each.
pub fn replace<T: Marked + Drop>(
    buffers: &mut Buffers<T>,
    directory: &Directory,
    sessions: &mut [Session],
    at: usize,
    last: bool,
) -> Result<Touched, Short>
    requires sound { IsSound buffers.old sessions.old }
    requires within { at < length sessions.old }
    ensures sound { IsSound buffers.new sessions.new }
    ensures ok { OnOk result (IsReplaced directory.now buffers.old buffers.new sessions.old sessions.new at last) }
    ensures none { OnOk result (IsUnsought directory.now buffers.old buffers.new sessions.old sessions.new at last) }
    ensures tells { IfOk result (IsToldBy directory.now buffers.old sessions.old at last) }
    ensures quiet { IfOk result (λ touched. search_held at sessions.old ≡ None → touched ≡ Nowhere) }
    ensures err { OnErr result (IsSameWorld directory.now buffers.old buffers.new sessions.old sessions.new) }
    ensures may { OnErr result (IsRefusable directory.now buffers.old sessions.old at last) }
    ensures held { OnErr result (search_held at sessions.old ≡ None → ⊥) }
    ensures further { OnOk result (IsFurther buffers.old buffers.new sessions.old sessions.new at) }
{
    match plan_in(buffers, directory, &sessions[at], last) {
        Ok(planned) => match perform(buffers, directory, sessions, at, &planned) {
            Ok(touched) => Ok(touched),
            Err(short) => Err(short),
        },
        Err(message) => {
            fail(&mut sessions[at], message);
            Ok(Touched::Nowhere)
        }
    }
}
