// A start that is tried over a copy of the journal before its files are opened.
ghost use Rattle.std.specs.Prelude.{◌≡◌, ◌≢◌, IfErr, OnOk};
ghost use Rattle.mgs_journal.specs.Rows.{rules_in_rows};
ghost use Rattle.mgs_resume.specs.Refusing.{AreUsers};
ghost use Rattle.mgs_keeper.specs.Trial.{IsTried};

use crate::keep_arguments::Mendings;
use crate::repair::{first_status, mend_all};
use crate::status::FAILED;
use mgs_buffers::Buffers;
use mgs_command::{NO_MEMORY, tell};
use mgs_journal::Journal;
use mgs_marks::Marked;
use mgs_policy::Directory;
use mgs_resume::{join, start_faults};

/// That a start over a copy of the journal has no fault, and nothing else refused it. Only a trial makes one, and the files of a journal are
/// opened by one alone.
#[derive(Drop)]
pub(crate) struct Tried {
    // The status of what was told.
    told: u8,
}

// Tells each fault for which a configuration and a journal do not go together: the program's status if there is one, or else 0.
fn tell_faults<R: Eprint + AllocGlobal, T: Marked + Drop, J: Journal>(
    rt: &R,
    directory: &Directory,
    config: &Buffers<T>,
    journal: &J,
) -> u8 {
    let Ok(faults) = start_faults(rt.alloc(), directory, config, journal) else {
        tell(rt, NO_MEMORY);
        return FAILED;
    };
    for fault in faults.as_slice() {
        tell(rt, *fault);
    }
    if faults.is_empty() { 0 } else { FAILED }
}

// Joins the buffers of a configuration and of a journal: the program's status where that fails, which is told, or else 0.
fn try_join<R: Eprint + AllocGlobal, T: Marked + Drop, J: Journal>(
    rt: &R,
    directory: &Directory,
    config: &Buffers<T>,
    journal: &J,
) -> u8
    ensures { result ≡ 0 → AreUsers directory.now (rules_in_rows (J.rows journal.now)) }
{
    let Err(fault) = join(rt.alloc(), directory, config, journal) else {
        return 0;
    };
    tell(rt, fault);
    FAILED
}

// Does over a copy of the journal what a start does, and tells each of its faults: the program's status if there is one, or else 0.
fn try_copy<R: Eprint + AllocGlobal, T: Marked + Drop, J: Journal>(
    rt: &R,
    directory: &Directory,
    config: &Buffers<T>,
    mendings: &Mendings,
    journal: &mut J,
) -> u8
    ensures { result ≡ 0 → IsTried J.rows J.texts J.taken directory.now config.now mendings.now journal.old }
{
    let mended = mend_all(rt, journal, config, mendings);
    let told = first_status(mended, tell_faults(rt, directory, config, journal));
    if told != 0 {
        return told;
    }
    try_join(rt, directory, config, journal)
}

/// Does over a copy of the journal what a start does, and tells each of its faults. `refusal` is the status of what was told already, or 0.
///
/// # Errors
///
/// The program's status, if the start has a fault or was refused already.
pub(crate) fn try_start<R: Eprint + AllocGlobal, T: Marked + Drop, J: Journal + Drop>(
    rt: &R,
    directory: &Directory,
    config: &Buffers<T>,
    mendings: &Mendings,
    mut copy: J,
    refusal: u8,
) -> Result<Tried, u8>
    ensures free { OnOk result (refusal ≡ 0) }
    ensures tried { OnOk result (IsTried J.rows J.texts J.taken directory.now config.now mendings.now copy) }
    ensures failed { IfErr result (λ status. status ≢ 0) }
{
    let refused = first_status(
        refusal,
        try_copy(rt, directory, config, mendings, &mut copy),
    );
    if refused != 0 {
        return Err(refused);
    }
    Ok(Tried { told: refused })
}
