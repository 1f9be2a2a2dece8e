// What errors print.
use mgs_buffers::SaveFault;
use mgs_policy::Decision;
use mgs_replay::ReplayFault;
use mgs_script::LineFault;
use mgs_wire::Refusal;
use std::alloc::{AllocError, Global};
use std::fmt::Display;

const SAVES: [(SaveFault, &str); 3] = [
    (SaveFault::Denied(Decision::Granted), "denied"),
    (SaveFault::NoFile, "No file"),
    (SaveFault::Store, "Save failed"),
];

const LINES: [(LineFault, &str); 2] = [
    (LineFault::Bad, "refused"),
    (LineFault::Short, "no memory"),
];

const REPLAYS: [(ReplayFault, &str); 4] = [
    (ReplayFault::Line(7), "line 7: refused"),
    (ReplayFault::Read, "read failed"),
    (ReplayFault::Write, "write failed"),
    (ReplayFault::Short, "no memory"),
];

const REFUSALS: [(Refusal, &str); 6] = [
    (Refusal::Line, "refused 1 Line"),
    (Refusal::NoUser, "refused 2 NoUser"),
    (Refusal::Ticket, "refused 3 Ticket"),
    (Refusal::Size, "refused 4 Size"),
    (Refusal::Full, "refused 5 Full"),
    (Refusal::Short, "refused 6 Short"),
];

// Whether each error is printed so.
fn are_printed<E: Display>(alloc: Global, errors: &[(E, &str)]) -> Result<bool, AllocError> {
    for (error, text) in errors {
        if format!(in alloc; "{error}")?.as_str() != *text {
            return Ok(false);
        }
    }
    Ok(true)
}

// Why a save was refused, a script or a line of it, and a login.
pub(crate) fn use_faults(alloc: Global) -> Result<bool, AllocError> {
    let saves = are_printed(alloc, &SAVES)?;
    let lines = are_printed(alloc, &LINES)?;
    let replays = are_printed(alloc, &REPLAYS)?;
    let refusals = are_printed(alloc, &REFUSALS)?;
    Ok(saves && lines && replays && refusals)
}
