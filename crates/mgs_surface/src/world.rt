// The core over the buffers, and the engine over that.
ghost use Rattle.std.specs.Prelude.{◌≡◌, Some};
ghost use Rattle.mgs_buffers.specs.MarkedBuffer.{AreUnmarked};
ghost use Rattle.mgs_world.specs.Worlds.{find_size, sizes};

use mgs_buffers::{Buffers, Store};
use mgs_core::{Core, Keyed, OpenFault, SessionId, hidden_act, hidden_text, purged};
use mgs_engine::{Answer, Call, Cause, Engine, Tape, drive};
use mgs_grid::Grid;
use mgs_marks::Marked;
use mgs_model::Short;
use mgs_policy::Directory;
use std::alloc::Global;

// A session of a core, which is one event after another.
fn use_core<T: Marked + Drop, S: Store + Drop>(
    alloc: Global,
    directory: Directory,
    buffers: Buffers<T>,
    store: S,
) -> Result<Keyed, OpenFault>
    requires { AreUnmarked buffers }
{
    let made: Result<Core<T, S>, Short> = Core::new(alloc, directory, buffers, store);
    let Ok(mut core) = made else {
        return Err(OpenFault::Short);
    };
    let opened: Result<SessionId, OpenFault> = core.open("ann", 6, 20);
    let id = opened?;
    let keyed: Keyed = core.key(id, b'a');
    core.close(id);
    Ok(keyed)
}

// A screen of a core.
fn use_screen<T: Marked + Drop, S: Store + Drop>(
    core: &mut Core<T, S>,
    id: SessionId,
    grid: &mut Grid,
)
    requires { find_size id (sizes core.old.world) ≡ Some (record { id = id; rows = grid.old.rows; cols = grid.old.cols }) }
{
    core.draw(id, grid);
}

// The laws of what a reader may not see.
fn use_laws() {
    hidden_act();
    hidden_text();
    purged();
}

// A session of an engine, whose bytes are taken by hand.
fn use_engine<T: Marked + Drop, S: Store + Drop>(
    engine: &mut Engine<T, S>,
) -> Option<(SessionId, Cause)> {
    let opened: Result<SessionId, OpenFault> = engine.open("ann", 6, 20);
    let Ok(id) = opened else {
        return None;
    };
    let _keyed: Keyed = engine.byte(id, b'a');
    let _open: bool = engine.is_open(id);
    let waiting: usize = engine.pending(id).len();
    engine.took(id, waiting);
    engine.close(id);
    engine.ended()
}

// The same by a list of calls and a tape.
fn use_tape<T: Marked + Drop, S: Store + Drop>(
    alloc: Global,
    engine: &mut Engine<T, S>,
) -> Result<usize, Short> {
    let mut tape = Tape::new(alloc);
    let calls = [
        Call::Open("ann", 6, 20),
        Call::Byte(1, b'a'),
        Call::Took(1, 4096),
        Call::Close(1),
        Call::Ended,
    ];
    drive(engine, &calls, &mut tape)?;
    let answers: &[Answer] = tape.answers();
    let bytes: &[u8] = tape.bytes(1);
    match answers.first() {
        Some(Answer::Open(Ok(_))) => Ok(bytes.len()),
        _ => Ok(0),
    }
}
