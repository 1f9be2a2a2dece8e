// All faults of a start.
ghost use Rattle.std.specs.Prelude.{◌≡◌, ◌+◌, ◌++◌, ◌∷◌, ℕ, List, [], IfOk, OnOk, drop, length};
ghost use Rattle.mgs_buffers.specs.Judging.{rules_kept};
ghost use Rattle.mgs_laws.specs.Apart.{Rules};
ghost use Rattle.mgs_journal.specs.Rows.{rules_in_rows};
ghost use Rattle.mgs_resume.specs.Refusing.{faults_at_start, owner_faults, room_faults};

use crate::start::ResumeFault;
use mgs_buffers::{Buffers, Rights};
use mgs_journal::Journal;
use mgs_marks::Marked;
use mgs_model::{BUFFER_LIMIT, Short};
use mgs_policy::Directory;
use std::alloc::{AllocError, Global};

// Adds the fault of a buffer that is kept, if its owner is no user.
fn push_owner_fault(
    faults: &mut Vec<ResumeFault>,
    directory: &Directory,
    rights: &Rights<'_>,
) -> Result<(), AllocError>
    ensures { OnOk result ((rest : List Rules)
        → faults.new.items ++ owner_faults directory.now rest ≡ faults.old.items ++ owner_faults directory.now (rights.now ∷ rest)) }
{
    if directory.has_user(&rights.owners.owner) {
        return Ok(());
    }
    faults.push(ResumeFault::Owner(*rights.name, rights.owners.owner))?;
    Ok(())
}

// Adds the fault of each buffer that is kept whose owner is no user, and answers how many are kept.
fn push_owner_faults<J: Journal>(
    faults: &mut Vec<ResumeFault>,
    directory: &Directory,
    journal: &J,
) -> Result<usize, AllocError>
    ensures faults { OnOk result (faults.new.items ≡ faults.old.items ++ owner_faults directory.now (rules_in_rows (J.rows journal.now))) }
    ensures count { IfOk result (λ n. n ≡ length (rules_in_rows (J.rows journal.now))) }
{
    let mut i: usize = 0;
    while let Some(rights) = journal.rights(i) {
        push_owner_fault(faults, directory, &rights)?;
        let Some(next) = i.checked_add(1) else {
            return Err(AllocError);
        };
        i = next;
    }
    Ok(i)
}

// Adds the fault of a buffer of the configuration if it comes behind those that are kept, and there is no room. Answers the room that is left.
fn push_room_fault<J: Journal>(
    faults: &mut Vec<ResumeFault>,
    journal: &J,
    rights: &Rights<'_>,
    room: usize,
) -> Result<usize, AllocError>
    ensures { IfOk result (λ left. (rest : List Rules)
        → faults.new.items ++ room_faults (J.taken journal.now) (rules_in_rows (J.rows journal.now)) left rest
        ≡ faults.old.items ++ room_faults (J.taken journal.now) (rules_in_rows (J.rows journal.now)) room (rights.now ∷ rest)) }
{
    if journal.is_taken(rights.name) || journal.place(rights.name).is_some() {
        return Ok(room);
    }
    if room > 0 {
        return Ok(room - 1);
    }
    faults.push(ResumeFault::Full(*rights.name))?;
    Ok(0)
}

// Adds the fault of the `i`-th buffer of the configuration, as above.
fn push_ith_fault<T: Marked + Drop, J: Journal>(
    faults: &mut Vec<ResumeFault>,
    config: &Buffers<T>,
    journal: &J,
    i: usize,
    room: usize,
) -> Result<usize, AllocError>
    ensures { IfOk result (λ left. faults.new.items ++ room_faults (J.taken journal.now) (rules_in_rows (J.rows journal.now)) left (drop (i + 1) (rules_kept config.now))
        ≡ faults.old.items ++ room_faults (J.taken journal.now) (rules_in_rows (J.rows journal.now)) room (drop i (rules_kept config.now))) }
{
    let Some(rights) = config.rights(i) else {
        return Ok(room);
    };
    let left = push_room_fault(faults, journal, &rights, room)?;
    Ok(left)
}

// Adds the fault of each buffer of the configuration for which there is no room behind those that are kept.
fn push_room_faults<T: Marked + Drop, J: Journal>(
    faults: &mut Vec<ResumeFault>,
    config: &Buffers<T>,
    journal: &J,
    mut room: usize,
) -> Result<(), AllocError>
    ensures { OnOk result (faults.new.items
        ≡ faults.old.items ++ room_faults (J.taken journal.now) (rules_in_rows (J.rows journal.now)) room (rules_kept config.now)) }
{
    for i in 0..config.len() {
        room = push_ith_fault(faults, config, journal, i, room)?;
    }
    Ok(())
}

/// All faults of a start for which a configuration and a journal do not go together: `Owner` for each buffer that is kept whose owner is no
/// user, and `Full` for each buffer of the configuration for which there is no room behind those that are kept.
///
/// `Short`: memory was refused.
pub fn start_faults<T: Marked + Drop, J: Journal>(
    alloc: Global,
    directory: &Directory,
    config: &Buffers<T>,
    journal: &J,
) -> Result<Vec<ResumeFault>, Short>
    ensures { IfOk result (λ faults. faults.items
        ≡ faults_at_start directory.now (J.taken journal.now) (rules_in_rows (J.rows journal.now)) (rules_kept config.now)) }
{
    let mut faults = Vec::new(alloc);
    let Ok(kept) = push_owner_faults(&mut faults, directory, journal) else {
        return Err(Short);
    };
    let room = BUFFER_LIMIT.saturating_sub(kept);
    match push_room_faults(&mut faults, config, journal, room) {
        Ok(()) => Ok(faults),
        Err(AllocError) => Err(Short),
    }
}
