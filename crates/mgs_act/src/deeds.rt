// What was decided is done: whole, or not at all.
ghost use Rattle.std.specs.Prelude.{◌≡◌, Some, IfOk, OnErr};
ghost use Rattle.mgs_model.specs.Apply.{change_first};
ghost use Rattle.mgs_buffers.specs.MarkedBuffer.{HasBuffer, marked_named, marked_owners_set};
ghost use Rattle.mgs_plan.specs.Deciding.{CanList, IsGranted};
ghost use Rattle.mgs_plan.specs.declared.outcome.Outcome.TheVariants.{Kills, SetsList, SetsOwners, Saves};
ghost use Rattle.mgs_plan.specs.Rows.{scrolled_to};
ghost use Rattle.mgs_births.specs.StoreBirths.{store_and_births};
ghost use Rattle.mgs_act.specs.Doing.{IsDone, IsListSet, IsListTaped, IsReady, TakesMemory};
ghost use Rattle.mgs_world.specs.Acted.{IsUnchanged};
ghost use Rattle.mgs_world.specs.Sound.{IsSound};

use crate::copy::{Copying, insert_copy};
use crate::creation::show_created;
use crate::session_settings::set;
use crate::text_action::{Spot, perform};
use mgs_arrange::{rearrange, show, show_entries};
use mgs_births::{Tape, WithBirths};
use mgs_buffers::{Buffers, SaveFault};
use mgs_marks::Marked;
use mgs_model::{Kind, Message, Name, NewOwner, Notice, Short, Touched};
use mgs_plan::{EntryPlan, Outcome, changed};
use mgs_policy::Directory;
use mgs_session::{Session, ask, fail, finish, set_kind};
use mgs_store::Store;
use mgs_windows::RowPane;
use mgs_world::kill_buffer;

/// The buffer of a name goes, by an act of the session at `at`.
fn kill<T: Marked + Drop, S: Store + Drop>(
    buffers: &mut Buffers<T>,
    directory: &Directory,
    sessions: &mut [Session],
    at: usize,
    name: &Name,
    store: &mut WithBirths<S>,
) -> Touched
    requires { IsReady directory.now at buffers.old sessions.old (Kills name.now) }
    ensures sound { IsSound buffers.new sessions.new }
    ensures done { IsDone directory.now at (Kills name.now) buffers.old sessions.old (store_and_births S.failed S.accepted store.old)
        buffers.new sessions.new (store_and_births S.failed S.accepted store.new) result }
{
    let user = sessions[at].user;
    set_kind(&mut sessions[at], Kind::Other);
    // It was granted when it was planned.
    let _done = kill_buffer(buffers, directory, &user, sessions, name);
    store.births.record_kill(name);
    store.tape.record_kill(name);
    Touched::Anywhere
}

/// The buffer of a name gets an owner, or an owning group, or none, by a user who may do that.
fn set_owner<T: Marked + Drop>(
    buffers: &mut Buffers<T>,
    directory: &Directory,
    user: &Name,
    name: &Name,
    new: NewOwner,
)
    requires kept { HasBuffer name.now buffers.old }
    requires granted { IsGranted directory.now buffers.old user.now name.now 524288 }
    ensures { buffers.new ≡ change_first (marked_named name.now) (marked_owners_set new) buffers.old }
{
    let _done = match new {
        NewOwner::ToUser(owner) => buffers.set_owner_as(directory, user, name, owner),
        NewOwner::ToGroup(group) => buffers.set_group_as(directory, user, name, group),
    };
}

/// The same, by an act of the session at `at`.
fn assign<T: Marked + Drop, S: Store + Drop>(
    buffers: &mut Buffers<T>,
    directory: &Directory,
    sessions: &mut [Session],
    at: usize,
    name: &Name,
    new: NewOwner,
    store: &mut WithBirths<S>,
) -> Touched
    requires { IsReady directory.now at buffers.old sessions.old (SetsOwners name.now new) }
    ensures sound { IsSound buffers.new sessions.new }
    ensures done { IsDone directory.now at (SetsOwners name.now new) buffers.old sessions.old (store_and_births S.failed S.accepted store.old)
        buffers.new sessions.new (store_and_births S.failed S.accepted store.new) result }
{
    set_owner(buffers, directory, &sessions[at].user, name, new);
    set_kind(&mut sessions[at], Kind::Other);
    store.tape.record_owners(name, &new);
    Touched::Anywhere
}

/// The access list of the buffer of a name changes as planned, by a user who may change it, and is recorded.
fn put_list<T: Marked + Drop>(
    buffers: &mut Buffers<T>,
    directory: &Directory,
    user: &Name,
    name: &Name,
    plan: &EntryPlan,
    tape: &mut Tape,
)
    requires { CanList directory.now buffers.old user.now name.now plan.now }
    ensures list { IsListSet name.now plan.now buffers.old buffers.new }
    ensures taped { IsListTaped name.now plan.now buffers.old tape.old tape.new }
{
    match changed(buffers.copy_list(name), plan) {
        Ok(list) => {
            tape.record_list(name, list.copy());
            let _done = buffers.set_list_as(directory, user, name, list);
        }
        // It was planned on the same list.
        Err(_) => {}
    }
}

/// The same, by an act of the session at `at`.
fn set_list<T: Marked + Drop, S: Store + Drop>(
    buffers: &mut Buffers<T>,
    directory: &Directory,
    sessions: &mut [Session],
    at: usize,
    name: &Name,
    plan: &EntryPlan,
    store: &mut WithBirths<S>,
) -> Touched
    requires { IsReady directory.now at buffers.old sessions.old (SetsList name.now plan.now) }
    ensures sound { IsSound buffers.new sessions.new }
    ensures done { IsDone directory.now at (SetsList name.now plan.now) buffers.old sessions.old (store_and_births S.failed S.accepted store.old)
        buffers.new sessions.new (store_and_births S.failed S.accepted store.new) result }
{
    put_list(
        buffers,
        directory,
        &sessions[at].user,
        name,
        plan,
        &mut store.tape,
    );
    set_kind(&mut sessions[at], Kind::Other);
    Touched::Anywhere
}

/// The selected window, which shows a list, comes to these rows.
fn scroll(session: &mut Session, rows: RowPane)
    ensures { session.new ≡ scrolled_to (Some rows) session.old }
{
    session.windows.set_rows(rows);
    set_kind(session, Kind::Other);
}

/// The text of the buffer of a name is handed to the store, by an act of the session at `at`, and what the store answers is told, and
/// what that touched. No memory is taken.
fn save<T: Marked + Drop, S: Store + Drop>(
    buffers: &mut Buffers<T>,
    directory: &Directory,
    sessions: &mut [Session],
    at: usize,
    name: &Name,
    store: &mut WithBirths<S>,
) -> Touched
    requires { IsReady directory.now at buffers.old sessions.old (Saves name.now) }
    ensures sound { IsSound buffers.new sessions.new }
    ensures done { IsDone directory.now at (Saves name.now) buffers.old sessions.old (store_and_births S.failed S.accepted store.old)
        buffers.new sessions.new (store_and_births S.failed S.accepted store.new) result }
{
    match buffers.save_as(directory, &sessions[at].user, name, &mut store.store) {
        Ok(()) => {
            store.tape.record_save(name);
            finish(&mut sessions[at], Kind::Other, Message::Wrote(*name));
            Touched::In(*name)
        }
        Err(fault) => match fault {
            SaveFault::Store => {
                fail(&mut sessions[at], Message::Says(Notice::SaveFailed));
                Touched::Nowhere
            }
            // The rights were granted when it was planned, and the file was there.
            SaveFault::Denied(_) => unreachable!(),
            SaveFault::NoFile => unreachable!(),
        },
    }
}

/// Does what was decided for the session at `at`, which is at rest, and tells what that touched. `Short`: memory was refused, the
/// world is as it was, the store was not asked, and it takes memory, as no save does.
pub fn do_decided<T: Marked + Drop, S: Store + Drop>(
    buffers: &mut Buffers<T>,
    directory: &Directory,
    sessions: &mut [Session],
    at: usize,
    store: &mut WithBirths<S>,
    outcome: &Outcome,
) -> Result<Touched, Short>
    requires { IsReady directory.now at buffers.old sessions.old outcome.now }
    ensures sound { IsSound buffers.new sessions.new }
    ensures done { IfOk result (IsDone directory.now at outcome.now buffers.old sessions.old (store_and_births S.failed S.accepted store.old)
        buffers.new sessions.new (store_and_births S.failed S.accepted store.new)) }
    ensures err { OnErr result (IsUnchanged buffers.old sessions.old buffers.new sessions.new) }
    ensures unasked { OnErr result (store.new ≡ store.old) }
    ensures may { OnErr result (TakesMemory at outcome.now buffers.old sessions.old) }
{
    match outcome {
        Outcome::Fails(message) => {
            fail(&mut sessions[at], *message);
            Ok(Touched::Nowhere)
        }
        Outcome::Acts(marks, place, action) => {
            let spot = Spot { marks, at: *place };
            perform(buffers, directory, sessions, at, spot, action)
        }
        Outcome::Kills(name) => Ok(kill(buffers, directory, sessions, at, name, store)),
        Outcome::SetsOwners(name, new) => {
            Ok(assign(buffers, directory, sessions, at, name, *new, store))
        }
        Outcome::SetsList(name, plan) => {
            Ok(set_list(buffers, directory, sessions, at, name, plan, store))
        }
        Outcome::Lists(name) => {
            show_entries(buffers, sessions, at, name);
            Ok(Touched::Nowhere)
        }
        Outcome::Shows(name) => {
            show(buffers, sessions, at, name)?;
            Ok(Touched::Nowhere)
        }
        Outcome::Creates(name) => show_created(buffers, directory, sessions, at, *name, store),
        Outcome::Copies(marks, source, place) => {
            let copying = Copying {
                marks,
                source,
                place: *place,
            };
            insert_copy(buffers, directory, sessions, at, copying)
        }
        Outcome::Saves(name) => Ok(save(buffers, directory, sessions, at, name, store)),
        Outcome::Scrolls(rows) => {
            scroll(&mut sessions[at], *rows);
            Ok(Touched::Nowhere)
        }
        Outcome::Sets(setting, argument) => {
            set(&mut sessions[at], *setting, *argument);
            Ok(Touched::Nowhere)
        }
        Outcome::Asks(question, argument) => {
            ask(&mut sessions[at], *question, *argument);
            Ok(Touched::Nowhere)
        }
        Outcome::Arranges(arrangement, argument) => {
            rearrange(buffers, sessions, at, *arrangement, *argument)?;
            Ok(Touched::Nowhere)
        }
    }
}
