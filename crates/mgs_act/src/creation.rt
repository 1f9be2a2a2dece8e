// A buffer is made and shown, whole or not at all.
ghost use Rattle.std.specs.Prelude.{◌≡◌, IfOk, OnErr};
ghost use Rattle.mgs_plan.specs.declared.outcome.Outcome.TheVariants.{Creates};
ghost use Rattle.mgs_act.specs.Doing.{IsDone, IsReady};
ghost use Rattle.mgs_births.specs.StoreBirths.{store_and_births};
ghost use Rattle.mgs_world.specs.Acted.{IsUnchanged};
ghost use Rattle.mgs_world.specs.Sound.{IsSound};

use mgs_arrange::show;
use mgs_births::WithBirths;
use mgs_buffers::Buffers;
use mgs_marks::Marked;
use mgs_model::{Name, Short, Touched};
use mgs_policy::Directory;
use mgs_session::Session;
use mgs_store::Store;

/// Makes a buffer for the user of the session at `at`, whose selected window comes to show it. `Short`: memory was refused, and
/// the world is as it was.
pub fn show_created<T: Marked + Drop, S: Store + Drop>(
    buffers: &mut Buffers<T>,
    directory: &Directory,
    sessions: &mut [Session],
    at: usize,
    name: Name,
    store: &mut WithBirths<S>,
) -> Result<Touched, Short>
    requires { IsReady directory.now at buffers.old sessions.old (Creates name) }
    ensures sound { IsSound buffers.new sessions.new }
    ensures done { IfOk result (IsDone directory.now at (Creates name) buffers.old sessions.old (store_and_births S.failed S.accepted store.old)
        buffers.new sessions.new (store_and_births S.failed S.accepted store.new)) }
    ensures err { OnErr result (IsUnchanged buffers.old sessions.old buffers.new sessions.new) }
    ensures untold { OnErr result (store.new ≡ store.old) }
{
    let owner = sessions[at].user;
    buffers.create(name, owner)?;
    let Err(short) = show(buffers, sessions, at, &name) else {
        store.births.record_creation(name);
        store.tape.record_creation(name, owner);
        return Ok(Touched::Anywhere);
    };
    // The buffer goes again, which its owner may do: nothing shows it.
    let _done = buffers.kill_as(directory, &owner, &name);
    Err(short)
}
