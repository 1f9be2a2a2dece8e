// What a byte asks for: the act of a key, or of the answer to a prompt.
ghost use Rattle.std.specs.Prelude.{◌≡◌, ◌<◌, None, IfOk, OnOk, OnErr, length, true};
ghost use Rattle.mgs_plan.specs.Actions.{act_of};
ghost use Rattle.mgs_seek.specs.Beginning.{search_held};
ghost use Rattle.mgs_world.specs.Acted.{IsRefusable, IsSameWorld};
ghost use Rattle.mgs_world.specs.Sound.{IsSound};
ghost use Rattle.mgs_world.specs.Worlds.{idle, state_at, world_of};
ghost use Rattle.mgs_births.specs.StoreBirths.{store_and_births};
ghost use Rattle.mgs_core.specs.AtPlace.{IsActDone, IsActRefusable, IsAsItWas, IsDoneIn, IsKeyActDone, LeavesFewer};
ghost use Rattle.mgs_core.specs.KeyActs.{is_acted, started_by, started_in};
ghost use Rattle.mgs_core.specs.ByteActs.{CanDo, IsReady, act_due, asked_of, is_asked, may_want_memory};

use crate::world::World;
use mgs_act::{Reply, act, answer};
use mgs_births::WithBirths;
use mgs_buffers::Buffers;
use mgs_marks::Marked;
use mgs_mini::Prompt;
use mgs_model::{Command, Direction, Kind, SearchStep, Seeking, Short, Touched};
use mgs_plan::{KeyAct, counted};
use mgs_policy::Directory;
use mgs_seek::{quit_search, replace, search_on, skip, start_replacing, start_search};
use mgs_session::{Search, SearchString, Session};
use mgs_store::Store;

/// The mode of a session before an act.
#[derive(Drop)]
pub enum ModeBefore {
    /// No mode.
    Plain,
    /// The prompt that was answered.
    Prompt(Prompt),
    /// The search that a byte ended, and what had been searched for last.
    Search(Search, SearchString),
    /// The search that the session still holds.
    Held,
}

/// What was there before a turn of a session. Where memory is refused to its act, it is there again.
#[derive(Drop)]
pub struct Before {
    /// Its mode, once the turn has an act; `Plain` until then.
    pub mode: ModeBefore,
    /// The last command's kind.
    pub kind: Kind,
    /// Whether a macro was played.
    pub is_playing: bool,
}

/// What is to be done for a byte by its session. What was there before is large, and stands elsewhere.
#[derive(Clone, Copy)]
pub enum ByteAct {
    /// The act of a key, or of a command that was named. The session is at rest.
    Act(KeyAct),
    /// What the question of the prompt is for that was there before, with this argument. Its input is the answer, and names no command. The
    /// session is at rest.
    Answer(Option<u32>),
    /// A step of the session's search, which has read the byte.
    Seek(SearchStep),
    /// The session's search is quit.
    QuitSearch,
    /// What the prompt that was there before has of the first question is to be replaced by its input. The session is at rest.
    StartReplacing,
    /// The match at which the session's query-replace stands is replaced. `true`: it is the last one.
    Replace(bool),
    /// That match stays as it is.
    Skip,
}

/// What is due for a byte, and where what was there before stands.
#[derive(Clone, Copy)]
pub struct Due<'a> {
    /// What is to be done.
    pub act: ByteAct,
    /// The mode of the session before.
    pub before: &'a ModeBefore,
}

/// The prompt that was answered.
pub fn asked(before: &ModeBefore) -> &Prompt
    requires { is_asked before.now ≡ true }
    ensures { result.now ≡ asked_of before.now }
{
    match before {
        ModeBefore::Prompt(prompt) => prompt,
        _ => unreachable!(),
    }
}

/// The direction of a search that a command of a search starts.
fn started_in(seeking: Seeking) -> Option<Direction>
    ensures { result ≡ started_in seeking }
{
    match seeking {
        Seeking::StartSearch(direction) => Some(direction),
        _ => None,
    }
}

/// The direction of a search that an act starts.
fn started_by(done: KeyAct) -> Option<Direction>
    ensures { result ≡ started_by done }
{
    match done {
        KeyAct::Run(command, _) => match command {
            Command::Seek(seeking) => started_in(seeking),
            _ => None,
        },
        KeyAct::Unbound => None,
    }
}

/// Does an act of the session at `at`: a search that starts takes no memory.
fn do_key_act<T: Marked + Drop, S: Store + Drop>(
    buffers: &mut Buffers<T>,
    directory: &Directory,
    sessions: &mut [Session],
    at: usize,
    store: &mut WithBirths<S>,
    done: KeyAct,
) -> Result<Touched, Short>
    requires sound { IsSound buffers.old sessions.old }
    requires within { at < length sessions.old }
    requires fresh { state_at at sessions.old ≡ idle (state_at at sessions.old) }
    requires here { is_acted done ≡ true }
    ensures sound { IsSound buffers.new sessions.new }
    ensures ok { IfOk result (IsKeyActDone (store_and_births S.failed S.accepted) at done sessions.old
        (world_of directory.now buffers.old sessions.old) store.old (world_of directory.now buffers.new sessions.new) store.new) }
    ensures wants { OnErr result (started_by done ≡ None) }
    ensures err { OnErr result (IsSameWorld directory.now buffers.old buffers.new sessions.old sessions.new) }
    ensures unasked { OnErr result (store.new ≡ store.old) }
    ensures may { OnErr result (IsRefusable directory.now at (act_of done) buffers.old sessions.old) }
{
    match started_by(done) {
        Some(direction) => {
            start_search(buffers, directory, sessions, at, direction);
            Ok(Touched::Nowhere)
        }
        None => act(buffers, directory, sessions, at, store, done),
    }
}

/// Does what is due, to the parts of the world.
fn do_in_parts<T: Marked + Drop, S: Store + Drop>(
    buffers: &mut Buffers<T>,
    directory: &Directory,
    sessions: &mut [Session],
    at: usize,
    store: &mut WithBirths<S>,
    due: Due<'_>,
) -> Result<Touched, Short>
    requires sound { IsSound buffers.old sessions.old }
    requires within { at < length sessions.old }
    requires ready { IsReady due.act (search_held at sessions.old) (state_at at sessions.old) }
    requires here { CanDo due.before.now due.act }
    ensures sound { IsSound buffers.new sessions.new }
    ensures ok { IsDoneIn (store_and_births S.failed S.accepted) at due.entry.act due.entry.before.now sessions.old
        (world_of directory.now buffers.old sessions.old) store.old (world_of directory.now buffers.new sessions.new) store.new result }
    ensures wants { OnErr result (may_want_memory due.entry.act ≡ true) }
    ensures err { OnErr result (IsSameWorld directory.now buffers.old buffers.new sessions.old sessions.new) }
    ensures unasked { OnErr result (store.new ≡ store.old) }
    ensures may { OnErr result (IsRefusable directory.now at (act_due (state_at at sessions.old) due.entry) buffers.old sessions.old) }
    ensures further { OnOk result (LeavesFewer due.entry.act at buffers.old buffers.new sessions.old sessions.new) }
{
    match due.act {
        ByteAct::Act(done) => do_key_act(buffers, directory, sessions, at, store, done),
        ByteAct::Answer(argument) => {
            let prompt = asked(due.before);
            let question = prompt.question();
            let input = prompt.input();
            let count = counted(argument);
            let given = Reply {
                question,
                argument: count,
                typed: input,
            };
            answer(buffers, directory, sessions, at, store, given)
        }
        ByteAct::Seek(step) => {
            search_on(buffers, directory, sessions, at, step);
            Ok(Touched::Nowhere)
        }
        ByteAct::QuitSearch => {
            quit_search(buffers, sessions, at);
            Ok(Touched::Nowhere)
        }
        ByteAct::StartReplacing => {
            let prompt = asked(due.before);
            let pattern = SearchString::of(prompt.first());
            let put = SearchString::of(prompt.input());
            start_replacing(buffers, directory, sessions, at, pattern, put);
            Ok(Touched::Nowhere)
        }
        ByteAct::Replace(last) => match replace(buffers, directory, sessions, at, last) {
            Ok(touched) => Ok(touched),
            Err(Short) => Err(Short),
        },
        ByteAct::Skip => {
            skip(buffers, directory, sessions, at);
            Ok(Touched::Nowhere)
        }
    }
}

/// Does what is due, by the session at `at`. The error: memory was refused, and nothing of it was done.
pub fn do_byte_act<T: Marked + Drop, S: Store + Drop>(
    world: &mut World<T>,
    at: usize,
    store: &mut WithBirths<S>,
    due: Due<'_>,
) -> Result<Touched, Short>
    requires sound { IsSound world.old.buffers world.old.sessions.items }
    requires within { at < length world.old.sessions.items }
    requires ready { IsReady due.act (search_held at world.old.sessions.items) (state_at at world.old.sessions.items) }
    requires here { CanDo due.before.now due.act }
    ensures directory { world.new.directory ≡ world.old.directory }
    ensures count { length world.new.sessions.items ≡ length world.old.sessions.items }
    ensures sound { IsSound world.new.buffers world.new.sessions.items }
    ensures ok { IsActDone (store_and_births S.failed S.accepted) at due.entry.act due.entry.before.now world.old store.old world.new store.new result }
    ensures wants { OnErr result (may_want_memory due.entry.act ≡ true) }
    ensures err { OnErr result (IsAsItWas world.old world.new) }
    ensures unasked { OnErr result (store.new ≡ store.old) }
    ensures may { OnErr result (IsActRefusable at due.entry.act due.entry.before.now world.old) }
    ensures further { OnOk result (LeavesFewer due.entry.act at world.old.buffers world.new.buffers world.old.sessions.items world.new.sessions.items) }
{
    do_in_parts(
        &mut world.buffers,
        &world.directory,
        &mut world.sessions,
        at,
        store,
        due,
    )
}
