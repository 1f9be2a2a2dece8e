// Of what a session has still to do in an event, one after another is done until nothing is left.
ghost use Rattle.std.specs.Prelude.{◌≡◌, ◌<◌, ◌≤◌, [], Some, IfOk, OnOk, OnErr, length, slice_get, slice_set, false, true};
ghost use Rattle.std.specs.List.{position_or_len};
ghost use Rattle.mgs_model.specs.World as model;
ghost use Rattle.mgs_laws.specs.Apart.{is_anywhere};
ghost use Rattle.mgs_model.specs.declared.errors.Keyed.TheVariants.{Done, Quit};
ghost use Rattle.mgs_buffers.specs.Judging.{AreJudged, rules_kept};
ghost use Rattle.mgs_session.specs.Playing.{are_played};
ghost use Rattle.mgs_births.specs.StoreBirths.{store_and_births};
ghost use Rattle.mgs_seek.specs.Beginning.{search_held};
ghost use Rattle.mgs_session.specs.Sessions.{begun};
ghost use Rattle.mgs_session.specs.declared.search.Search.{Search};
ghost use Rattle.mgs_world.specs.Sound.{IsSound};
ghost use Rattle.mgs_world.specs.Worlds.{IsUnique, state_at, state_of, session_id, sizes_in};
ghost use Rattle.mgs_core.specs.AtPlace.{AreApart, AreApartAt, IsActRefused, IsActReported, IsBare, IsEvent, IsPlace, IsSameBut, IsTurned, IsTyped, LeavesFewer, LeavesLess, StateAlone, SettlesApart, StaySettled, StaysStill};
ghost use Rattle.mgs_core.specs.declared.byte_acts.ModeBefore.TheVariants.{Plain};
ghost use Rattle.mgs_core.specs.Held.{AreSettled};
ghost use Rattle.mgs_core.specs.Judged.{judged_touched};
ghost use Rattle.mgs_core.specs.ByteActs.{CanDo, IsReady, refused, state_before};
ghost use Rattle.mgs_core.specs.ByteSteps.{IsFirstStep, IsTurnStep, keyed_without_act, touched_without_act};
ghost use Rattle.mgs_core.specs.Turns.{IsFit, goes_on, has_all, touched_both, weight};

use crate::byte_acts::{Before, ByteAct, Due, ModeBefore, do_byte_act};
use crate::denial::record_denial;
use crate::key_byte::ByteStep;
use crate::typed_byte::step_byte;
use crate::world::World;
use mgs_births::WithBirths;
use mgs_buffers::Buffers;
use mgs_cache::Judge;
use mgs_maps::Keyboard;
use mgs_marks::Marked;
use mgs_model::{Keyed, Kind, Message, Notice, SessionId, Short, Touched};
use mgs_policy::Directory;
use mgs_session::{Pending, Session, begin, break_off, next_task, rest, set_echo, set_kind};
use mgs_store::Store;
use mgs_world::settle_apart;
use std::mem;

/// What is touched by one turn and by the next.
fn touched_both(first: Touched, next: Touched) -> Touched
    ensures { result ≡ touched_both first next }
{
    match first {
        Touched::Nowhere => next,
        Touched::Anywhere => Touched::Anywhere,
        Touched::In(name) => match next {
            Touched::Nowhere => Touched::In(name),
            Touched::Anywhere => Touched::Anywhere,
            Touched::In(other) => {
                if name == other {
                    Touched::In(name)
                } else {
                    Touched::Anywhere
                }
            }
        },
    }
}

/// A byte of a macro of whose play nothing was done so far: it begins again where no act is asked for, and an act of it breaks a run of
/// commands.
fn step_first<T: Marked + Drop>(
    buffers: &Buffers<T>,
    judge: &mut Judge,
    directory: &Directory,
    session: &mut Session,
    byte: u8,
    before: &mut ModeBefore,
) -> ByteStep
    requires judged { AreJudged directory.now (rules_kept buffers.now) judge.old }
    requires plays { session.old.state.player.playing ≡ true }
    requires all { are_played session.old.state.player.todo ≡ true }
    requires plain { before.old ≡ Plain }
    ensures step { (state : model.State) → IsFirstStep directory.now buffers.now state session.old session.new byte before.new result }
    ensures judged { AreJudged directory.now (rules_kept buffers.now) judge.new }
{
    let step = step_byte(buffers, judge, directory, session, byte, before);
    match step {
        ByteStep::Kept => {
            session.state.player.begin_again();
            ByteStep::Kept
        }
        ByteStep::Acts(byte_act) => {
            set_kind(session, Kind::Other);
            ByteStep::Acts(byte_act)
        }
        _ => step,
    }
}

/// Takes what the session has to do next. Where that is an act, what was there before stands in its place then, where nothing was.
fn next_step<T: Marked + Drop>(
    buffers: &Buffers<T>,
    judge: &mut Judge,
    directory: &Directory,
    session: &mut Session,
    before: &mut ModeBefore,
) -> ByteStep
    requires judged { AreJudged directory.now (rules_kept buffers.now) judge.old }
    requires some { session.old.state.player.todo ≡ [] → ⊥ }
    requires fit { IsFit (state_of session.old.state) }
    requires plain { before.old ≡ Plain }
    ensures step { IsTurnStep directory.now buffers.now session.old session.new before.new result }
    ensures judged { AreJudged directory.now (rules_kept buffers.now) judge.new }
{
    match next_task(session) {
        Pending::Typed(byte) => step_byte(buffers, judge, directory, session, byte, before),
        Pending::Played(byte) => step_byte(buffers, judge, directory, session, byte, before),
        Pending::First(byte) => step_first(buffers, judge, directory, session, byte, before),
        Pending::End => {
            set_kind(session, Kind::Other);
            ByteStep::Kept
        }
        Pending::Replacement => {
            *before = ModeBefore::Held;
            ByteStep::Acts(ByteAct::Replace(false))
        }
        Pending::FirstReplacement => {
            set_kind(session, Kind::Other);
            *before = ModeBefore::Held;
            ByteStep::Acts(ByteAct::Replace(false))
        }
        Pending::Nothing => ByteStep::Kept,
    }
}

/// The mode that was there before an act is there again, with nothing half read.
fn return_to(session: &mut Session, before: ModeBefore)
    ensures { session.new ≡ record session.old { state = state_before before session.old.state } }
{
    match before {
        ModeBefore::Plain => rest(session),
        ModeBefore::Prompt(prompt) => {
            rest(session);
            session.state.prompt = Some(prompt);
        }
        ModeBefore::Search(search, last) => {
            rest(session);
            session.state.search = Some(search);
            session.state.pattern = last;
        }
        ModeBefore::Held => {
            set_echo(session, Message::Says(Notice::Silent));
            session.state.keyboard = Keyboard::new();
        }
    }
}

/// Memory was refused to an act: what was there before its turn is there again, and its session is told so, and has nothing more to do.
fn refuse(session: &mut Session, was: &mut Before)
    ensures { session.new ≡ refused was.old session.old }
{
    return_to(session, mem::replace(&mut was.mode, ModeBefore::Plain));
    set_kind(session, was.kind);
    session.state.player.set_playing(was.is_playing);
    break_off(session, Message::Says(Notice::NoMemory));
}

/// Forgets what was decided, where an act may have changed an owner, an owning group, an access list or which buffers there are.
fn forget_touched(judge: &mut Judge, touched: &Touched)
    ensures { judge.new ≡ judged_touched touched.now judge.old }
{
    match touched {
        Touched::Anywhere => judge.forget(),
        Touched::Nowhere | Touched::In(_) => {}
    }
}

/// Does what a turn asks for by the session at `at`, where this was there before, and records what is denied to it.
fn act_turn<T: Marked + Drop, S: Store + Drop>(
    world: &mut World<T>,
    judge: &mut Judge,
    at: usize,
    store: &mut WithBirths<S>,
    act: ByteAct,
    was: &mut Before,
) -> Result<Touched, Short>
    requires sound { IsSound world.old.buffers world.old.sessions.items }
    requires place { IsPlace at world.old.sessions.items }
    requires within { at < length world.old.sessions.items }
    requires ready { IsReady act (search_held at world.old.sessions.items) (state_at at world.old.sessions.items) }
    requires here { CanDo was.old.mode act }
    requires judged { AreJudged world.old.directory (rules_kept world.old.buffers) judge.old }
    ensures judged { AreJudged world.old.directory (rules_kept world.new.buffers) judge.new }
    ensures sound { IsSound world.new.buffers world.new.sessions.items }
    ensures directory { world.new.directory ≡ world.old.directory }
    ensures sizes { sizes_in world.new.sessions.items ≡ sizes_in world.old.sessions.items }
    ensures ok { IsActReported (store_and_births S.failed S.accepted) at act was.old.mode world.old store.old world.new store.new result }
    ensures err { OnErr result (IsActRefused at was.old act world.old world.new) }
    ensures unasked { OnErr result (store.new ≡ store.old) }
    ensures further { OnOk result (LeavesFewer act at world.old.buffers world.new.buffers world.old.sessions.items world.new.sessions.items) }
    ensures touched { IfOk result (λ touched. AreApartAt touched at world.old world.new) }
    ensures births { IfOk result (λ touched. is_anywhere touched ≡ false → store.new.births ≡ store.old.births) }
{
    // No buffer has an empty name.
    prove!(world.buffers.name_typed(&[]).is_none());
    let due = Due {
        act,
        before: &was.mode,
    };
    match do_byte_act(world, at, store, due) {
        Ok(touched) => {
            forget_touched(judge, &touched);
            let session = &world.sessions[at];
            record_denial(&world.buffers, session, act, &was.mode, &mut store.tape);
            Ok(touched)
        }
        Err(Short) => {
            refuse(&mut world.sessions[at], was);
            Err(Short)
        }
    }
}

/// What is answered of a step that asks for no act, and what it touched.
fn answer_without_act(step: ByteStep) -> (Keyed, Touched)
    ensures keyed { result.0 ≡ keyed_without_act step }
    ensures touched { result.1 ≡ touched_without_act step }
{
    match step {
        ByteStep::Ends => (Keyed::Quit, Touched::Anywhere),
        _ => (Keyed::Done, Touched::Nowhere),
    }
}

/// The next of what the session at `at` has still to do is done, or refused for want of memory, or ends its session, which is then to be
/// taken out. It tells what it touched, and whether it changed so little that each window stands where it stood. No window settles.
fn take_turn<T: Marked + Drop, S: Store + Drop>(
    world: &mut World<T>,
    judge: &mut Judge,
    at: usize,
    store: &mut WithBirths<S>,
) -> (Keyed, Touched, bool)
    requires sound { IsSound world.old.buffers world.old.sessions.items }
    requires place { IsPlace at world.old.sessions.items }
    requires within { at < length world.old.sessions.items }
    requires judged { AreJudged world.old.directory (rules_kept world.old.buffers) judge.old }
    requires some { (state_at at world.old.sessions.items).todo ≡ [] → ⊥ }
    requires fit { IsFit (state_at at world.old.sessions.items) }
    ensures judged { AreJudged world.old.directory (rules_kept world.new.buffers) judge.new }
    ensures sound { IsSound world.new.buffers world.new.sessions.items }
    ensures directory { world.new.directory ≡ world.old.directory }
    ensures sizes { sizes_in world.new.sessions.items ≡ sizes_in world.old.sessions.items }
    ensures less { result.0 ≡ Done → LeavesLess at world.old.buffers world.new.buffers world.old.sessions.items world.new.sessions.items }
    ensures fit { result.0 ≡ Done → IsFit (state_at at world.new.sessions.items) }
    ensures turned { IsTurned (store_and_births S.failed S.accepted) at world.old store.old world.new store.new result.0 }
    ensures stands { result.2 ≡ true → StaySettled world.old world.new }
    ensures alone { result.2 ≡ true → StateAlone at world.old.buffers world.new.buffers world.old.sessions.items world.new.sessions.items }
    ensures touched { AreApartAt result.1 at world.old world.new }
    ensures births { is_anywhere result.1 ≡ false → store.new.births ≡ store.old.births }
{
    // Each text is within the limit, before the act and after it.
    prove!(world.buffers.len() <= usize::MAX);
    let session = &world.sessions[at];
    let is_playing = session.state.player.is_playing();
    let mut was = Before {
        mode: ModeBefore::Plain,
        kind: session.state.kind,
        is_playing,
    };
    let step = next_step(
        &world.buffers,
        judge,
        &world.directory,
        &mut world.sessions[at],
        &mut was.mode,
    );
    match step {
        ByteStep::Acts(act) => {
            let done = act_turn(world, judge, at, store, act, &mut was);
            prove!(world.buffers.len() <= usize::MAX);
            match done {
                Ok(touched) => (Keyed::Done, touched, false),
                Err(Short) => (Keyed::Short, Touched::Nowhere, false),
            }
        }
        _ => {
            let (keyed, touched) = answer_without_act(step);
            (keyed, touched, true)
        }
    }
}

/// Whether more is to be done of an event.
fn goes_on(keyed: Keyed, sessions: &[Session], at: usize) -> bool
    requires { at < length sessions.now }
    ensures { result ≡ goes_on keyed (state_at at sessions.now).todo }
{
    match keyed {
        Keyed::Done => !sessions[at].state.player.is_done(),
        _ => false,
    }
}

/// Turn after turn is taken until nothing is left to do, or memory is refused, or the session is to be taken out. No window settles; it tells whether
/// each stands where it stood.
pub fn take_turns<T: Marked + Drop, S: Store + Drop>(
    world: &mut World<T>,
    judge: &mut Judge,
    at: usize,
    store: &mut WithBirths<S>,
) -> (Keyed, Touched, bool)
    requires sound { IsSound world.old.buffers world.old.sessions.items }
    requires place { IsPlace at world.old.sessions.items }
    requires within { at < length world.old.sessions.items }
    requires judged { AreJudged world.old.directory (rules_kept world.old.buffers) judge.old }
    requires weight { weight 0 (state_at at world.old.sessions.items).todo ≤ 53689341958 }
    requires none { has_all (state_at at world.old.sessions.items).todo ≡ false }
    ensures judged { AreJudged world.old.directory (rules_kept world.new.buffers) judge.new }
    ensures sound { IsSound world.new.buffers world.new.sessions.items }
    ensures directory { world.new.directory ≡ world.old.directory }
    ensures sizes { sizes_in world.new.sessions.items ≡ sizes_in world.old.sessions.items }
    ensures event { IsEvent (store_and_births S.failed S.accepted) at world.old store.old world.new store.new result.0 }
    ensures stands { result.2 ≡ true → StaySettled world.old world.new }
    ensures alone { result.2 ≡ true → StateAlone at world.old.buffers world.new.buffers world.old.sessions.items world.new.sessions.items }
    ensures touched { AreApartAt result.1 at world.old world.new }
    ensures births { is_anywhere result.1 ≡ false → store.new.births ≡ store.old.births }
{
    let mut keyed = Keyed::Done;
    let mut touched = Touched::Nowhere;
    let mut stands = true;
    while goes_on(keyed, &world.sessions, at) {
        let (next, more, still) = take_turn(world, judge, at, store);
        keyed = next;
        touched = touched_both(touched, more);
        stands = stands & still;
    }
    (keyed, touched, stands)
}

/// Settles the windows of the sessions that an event of the session `id` can have changed, where not each of all stands where it settles.
fn settle_unless<T: Marked + Drop>(
    stands: bool,
    buffers: &mut Buffers<T>,
    directory: &Directory,
    sessions: &[Session],
    id: SessionId,
    touched: &Touched,
)
    requires sound { IsSound buffers.old sessions.now }
    requires stands { stands ≡ true → AreSettled directory.now buffers.old sessions.now }
    ensures sound { IsSound buffers.new sessions.now }
    ensures world { SettlesApart touched.now id directory.now buffers.old buffers.new sessions.now }
    ensures still { stands ≡ true → buffers.new ≡ buffers.old }
{
    if stands {
        return;
    }
    settle_apart(buffers, directory, sessions, id, touched);
}

/// Whether a screen shows nothing of what its session holds: there is no prompt and no search, and the echo line is empty.
fn is_bare(session: &Session) -> bool
    ensures { result ≡ true → IsBare session.now.state }
{
    if session.state.search.is_some() || session.state.prompt.is_some() {
        return false;
    }
    match session.state.echo {
        Message::Says(Notice::Silent) => true,
        _ => false,
    }
}

/// A byte comes to the session at `at`, as `begin` says. All others stay as they are.
fn begin_at(sessions: &mut [Session], at: usize, byte: u8)
    requires within { at < length sessions.old }
    ensures { (x : Session) → slice_get sessions.old at ≡ Some x → sessions.new ≡ slice_set sessions.old at (begun byte x) }
{
    begin(&mut sessions[at], byte);
}

/// A byte of the session at `at`, as `Core::key` says, but that `Quit` changes what the session holds alone: it is to be taken out.
pub fn type_in<T: Marked + Drop, S: Store + Drop>(
    world: &mut World<T>,
    judge: &mut Judge,
    at: usize,
    store: &mut WithBirths<S>,
    id: SessionId,
    byte: u8,
) -> (Keyed, Touched, bool)
    requires sound { IsSound world.old.buffers world.old.sessions.items }
    requires settles { AreSettled world.old.directory world.old.buffers world.old.sessions.items }
    requires place { at ≡ position_or_len (session_id id) world.old.sessions.items }
    requires within { at < length world.old.sessions.items }
    requires unique { IsUnique (sizes_in world.old.sessions.items) }
    requires judged { AreJudged world.old.directory (rules_kept world.old.buffers) judge.old }
    ensures judged { AreJudged world.old.directory (rules_kept world.new.buffers) judge.new }
    ensures sound { IsSound world.new.buffers world.new.sessions.items }
    ensures directory { world.new.directory ≡ world.old.directory }
    ensures sizes { sizes_in world.new.sessions.items ≡ sizes_in world.old.sessions.items }
    ensures gone { result.0 ≡ Quit → IsSameBut id world.old world.new }
    ensures left { result.0 ≡ Quit → store_and_births S.failed S.accepted store.new ≡ store_and_births S.failed S.accepted store.old }
    ensures keyed { IsTyped (store_and_births S.failed S.accepted) id byte world.old store.old world.new store.new result.0 }
    ensures touched { AreApart result.1 id world.old world.new }
    ensures births { is_anywhere result.1 ≡ false → store.new.births ≡ store.old.births }
    ensures still { result.2 ≡ true → StaysStill id world.old world.new }
{
    let was = is_bare(&world.sessions[at]);
    begin_at(&mut world.sessions, at, byte);
    let (keyed, touched, stands) = take_turns(world, judge, at, store);
    match keyed {
        Keyed::Quit => (keyed, touched, false),
        _ => {
            settle_unless(
                stands,
                &mut world.buffers,
                &world.directory,
                &world.sessions,
                id,
                &touched,
            );
            let now = is_bare(&world.sessions[at]);
            (keyed, touched, stands & (was & now))
        }
    }
}
