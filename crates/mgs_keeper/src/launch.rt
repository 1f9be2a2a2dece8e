// What is served at a start.
ghost use Rattle.std.specs.Prelude.{◌≡◌, IfOk};
ghost use Rattle.mgs_buffers.specs.MarkedBuffer.{AreUnmarked};
ghost use Rattle.mgs_births.specs.Telling.{first_told};
ghost use Rattle.mgs_server.specs.Listening.{at_first, first_world};
ghost use Rattle.mgs_keeper.specs.Start.{Starts};

use mgs_buffers::Buffers;
use mgs_core::Core;
use mgs_engine::Engine;
use mgs_journal::{Journal, JournalFault};
use mgs_keep::Kept;
use mgs_marks::Marked;
use mgs_model::Short;
use mgs_policy::Directory;
use mgs_resume::{ResumeFault, join};
use mgs_store::Store;
use std::alloc::Global;
use thiserror::Error;

/// Why nothing is served at a start.
#[derive(Clone, Copy, Debug, Error)]
pub enum StartFault {
    /// The buffers of the journal and those of the configuration do not go together, or memory was refused to them.
    #[error("{0}")]
    Resume(ResumeFault),
    /// The journal did not take by what access the buffers are decided.
    #[error("{0}")]
    Journal(JournalFault),
    /// Memory was refused.
    #[error("no memory")]
    Short,
}

// An engine of these buffers, before any session.
fn open_engine<T: Marked + Drop, S: Store + Drop>(
    alloc: Global,
    directory: Directory,
    buffers: Buffers<T>,
    store: S,
) -> Result<Engine<T, S>, Short>
    requires { AreUnmarked buffers }
    ensures { IfOk result (λ e. e ≡ at_first (first_world directory buffers) (first_told S.failed S.accepted store)) }
{
    let core = Core::new(alloc, directory, buffers, store)?;
    Engine::new(alloc, core)
}

/// What is served with a journal, before anybody logs in: the buffers that the journal keeps, decided by what it keeps, and those of the
/// configuration that it does not have (`mgs_resume::join`), saved in a store. From then on the journal keeps by what access each is
/// decided.
///
/// # Errors
///
/// `Resume`: the buffers of both do not go together. `Journal`: the journal failed. `Short`: memory was refused. All that was handed in is
/// dropped then, but the configuration's buffers.
#[tactic(auto, using(crate::proofs::Starting::starts))]
pub fn start<T: Marked + Drop, S: Store + Drop, J: Journal + Drop>(
    alloc: Global,
    directory: Directory,
    configured: &Buffers<T>,
    store: S,
    journal: J,
) -> Result<Kept<T, S, J>, StartFault>
    ensures { IfOk result (λ k. Starts J.rows J.does J.texts J.taken S.failed S.accepted directory configured.now store journal k) }
{
    let buffers = match join(alloc, &directory, configured, &journal) {
        Ok(buffers) => buffers,
        Err(fault) => return Err(StartFault::Resume(fault)),
    };
    let Ok(engine) = open_engine(alloc, directory, buffers, store) else {
        return Err(StartFault::Short);
    };
    match Kept::new(alloc, engine, journal) {
        Ok(kept) => Ok(kept),
        Err(fault) => Err(StartFault::Journal(fault)),
    }
}
