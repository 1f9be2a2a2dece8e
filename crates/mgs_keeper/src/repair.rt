// What a start mends first of what the journal keeps.
ghost use Rattle.std.specs.Prelude.{◌≡◌, ◌≢◌, ◌<◌, ◌≤◌, ◌&&◌, ◌∷◌, ℕ, List, IfErr, IfSome, IsNone, OnOk, false, length, map, not, slice_get, true};
ghost use Rattle.mgs_model.specs.declared.limits.TheConstants.{ENTRY_LIMIT};
ghost use Rattle.mgs_model.specs.Spelling.{entry_in};
ghost use Rattle.mgs_model.specs.Names.{IsName, same_name};
ghost use Rattle.mgs_keeper.specs.MendFaults.{IsForgetFault, IsListFault};
ghost use Rattle.mgs_journal.specs.Kept.{place_of, without};
ghost use Rattle.mgs_journal.specs.Rows.{rules_in_rows};
ghost use Rattle.mgs_keeper.specs.Mending.{AreMended, IsMended, begun_by, given, given_at, given_from, given_named, listed, listed_named, loses_text, text_named};

use crate::keep_arguments::{Mending, Mendings};
use crate::status::{FAILED, JOURNAL_FAILED};
use mgs_acl::{Entry, List as AccessList, read_entry};
use mgs_buffers::{Buffers, Rights};
use mgs_command::tell;
use mgs_journal::{Change, Journal, JournalFault};
use mgs_marks::Marked;
use mgs_model::{Name, Owners};

// Why what the journal keeps is not mended.
#[derive(Drop)]
enum MendFault<'a> {
    // It keeps no buffer of that name.
    NoBuffer(&'a str),
    // It is no name.
    NoName(&'a str),
    // The text of the buffer of this name would be lost.
    Unsaved(&'a str),
    // It is no entry of a list.
    NoEntry(&'a str),
    // The list of the buffer of this name has no room for one more.
    FullList(&'a str),
    // It did not take the change.
    Journal,
}

// Whether the journal took a change.
fn mend_answer<'a>(answer: Result<(), JournalFault>) -> Result<(), MendFault<'a>>
    ensures taken { OnOk result (answer ≡ Ok tt) }
    ensures failed { IfErr result (λ fault. fault ≡ MendFault.Journal) }
{
    match answer {
        Ok(()) => Ok(()),
        Err(JournalFault) => Err(MendFault::Journal),
    }
}

// Gives the buffer at a place another owner.
fn give<J: Journal>(journal: &mut J, i: usize, owner: Name) -> Result<(), JournalFault>
    requires { i < length (J.rows journal.old) }
    ensures rows { OnOk result (J.rows journal.new ≡ given owner i (J.rows journal.old)) }
    ensures texts { OnOk result (J.texts journal.new ≡ J.texts journal.old) }
    ensures taken { OnOk result ((name : List ℕ) → J.taken journal.new name ≡ J.taken journal.old name) }
{
    let Some(rights) = journal.rights(i) else {
        return Ok(());
    };
    let name = *rights.name;
    let owners = Owners {
        owner,
        group: rights.owners.group,
    };
    let list = rights.list.copy();
    let given = Rights {
        name: &name,
        owners: &owners,
        list: &list,
    };
    journal.change(None, &[Change::Set(i, given)])
}

// The owner of a buffer is this user from now on.
fn mend_owner<'a, J: Journal>(
    journal: &mut J,
    buffer: &'a str,
    owner: &'a str,
) -> Result<(), MendFault<'a>>
    ensures rows { OnOk result (J.rows journal.new ≡ given_named buffer.now owner.now (J.rows journal.old)) }
    ensures texts { OnOk result (J.texts journal.new ≡ J.texts journal.old) }
    ensures taken { OnOk result ((name : List ℕ) → J.taken journal.new name ≡ J.taken journal.old name) }
{
    let Some(name) = Name::read(buffer) else {
        return Err(MendFault::NoBuffer(buffer));
    };
    let Some(i) = journal.place(&name) else {
        return Err(MendFault::NoBuffer(buffer));
    };
    match Name::read(owner) {
        Some(name) if name.is_user_name() => mend_answer(give(journal, i, name)),
        _ => Err(MendFault::NoName(owner)),
    }
}

// Whether there is a buffer at a place.
#[tactic(auto, using(crate::proofs::Rows::is_row, crate::proofs::Rows::is_no_row))]
fn has_row<J: Journal>(journal: &J, i: usize) -> bool
    ensures there { result ≡ true → i < length (J.rows journal.now) }
    ensures none { result ≡ false → length (J.rows journal.now) ≤ i }
{
    match journal.rights(i) {
        Some(_) => true,
        None => false,
    }
}

// Whether a user owns the buffer at a place.
fn is_owned<J: Journal>(journal: &J, i: usize, owner: &Name) -> bool
    ensures { IfSome (slice_get (rules_in_rows (J.rows journal.now)) i) (λ r. result ≡ same_name r.owners.owner owner.now) }
{
    match journal.rights(i) {
        Some(rights) => rights.owners.owner == *owner,
        None => false,
    }
}

// Gives the buffer at a place to another, if this user owns it.
fn give_from<J: Journal>(
    journal: &mut J,
    i: usize,
    old: &Name,
    new: Name,
) -> Result<(), JournalFault>
    requires { i < length (J.rows journal.old) }
    ensures rows { OnOk result (J.rows journal.new ≡ given_at old.now new i (J.rows journal.old)) }
    ensures texts { OnOk result (J.texts journal.new ≡ J.texts journal.old) }
    ensures taken { OnOk result ((name : List ℕ) → J.taken journal.new name ≡ J.taken journal.old name) }
{
    if is_owned(journal, i, old) {
        return give(journal, i, new);
    }
    Ok(())
}

// Gives each buffer of a user to another, one after another.
fn give_all<J: Journal>(journal: &mut J, old: &Name, new: Name) -> Result<(), JournalFault>
    ensures rows { OnOk result (J.rows journal.new ≡ map (given_from old.now new) (J.rows journal.old)) }
    ensures texts { OnOk result (J.texts journal.new ≡ J.texts journal.old) }
    ensures taken { OnOk result ((name : List ℕ) → J.taken journal.new name ≡ J.taken journal.old name) }
{
    let mut i: usize = 0;
    while has_row(journal, i) {
        give_from(journal, i, old, new)?;
        let Some(next) = i.checked_add(1) else {
            return Err(JournalFault);
        };
        i = next;
    }
    Ok(())
}

// The owner of each buffer of a user is another from now on.
fn mend_owners<'a, J: Journal>(
    journal: &mut J,
    old: &'a str,
    new: &'a str,
) -> Result<(), MendFault<'a>>
    ensures rows { OnOk result (J.rows journal.new ≡ map (given_from old.now new.now) (J.rows journal.old)) }
    ensures texts { OnOk result (J.texts journal.new ≡ J.texts journal.old) }
    ensures taken { OnOk result ((name : List ℕ) → J.taken journal.new name ≡ J.taken journal.old name) }
{
    let Some(old_name) = Name::read(old) else {
        return Err(MendFault::NoName(old));
    };
    match Name::read(new) {
        Some(name) if name.is_user_name() => mend_answer(give_all(journal, &old_name, name)),
        _ => Err(MendFault::NoName(new)),
    }
}

// A list with an entry before its others. `None`: there is no room.
fn with_first(list: &AccessList, entry: Entry) -> Option<AccessList>
    ensures some { IfSome result (λ longer. longer ≡ entry ∷ list.now) }
    ensures none { IsNone result → ENTRY_LIMIT ≤ length list.now }
{
    let mut longer = list.copy();
    match longer.insert(0, entry) {
        Ok(()) => Some(longer),
        Err(_) => None,
    }
}

// Gives the buffer at a place a list that begins with this entry. False: its list has no room.
fn insert_first<J: Journal>(journal: &mut J, i: usize, entry: Entry) -> Result<bool, JournalFault>
    requires { i < length (J.rows journal.old) }
    ensures rows { result ≡ Ok true → J.rows journal.new ≡ listed entry i (J.rows journal.old) }
    ensures texts { result ≡ Ok true → J.texts journal.new ≡ J.texts journal.old }
    ensures full { result ≡ Ok false → IfSome (slice_get (rules_in_rows (J.rows journal.old)) i) (λ r. ENTRY_LIMIT ≤ length r.entries) }
    ensures taken { result ≡ Ok true → (name : List ℕ) → J.taken journal.new name ≡ J.taken journal.old name }
{
    let Some(rights) = journal.rights(i) else {
        return Ok(true);
    };
    let name = *rights.name;
    let owners = *rights.owners;
    let Some(list) = with_first(rights.list, entry) else {
        return Ok(false);
    };
    let given = Rights {
        name: &name,
        owners: &owners,
        list: &list,
    };
    journal.change(None, &[Change::Set(i, given)])?;
    Ok(true)
}

// The list of a buffer begins with this entry from now on.
fn mend_list<'a, J: Journal>(
    journal: &mut J,
    buffer: &'a str,
    entry: &'a str,
) -> Result<(), MendFault<'a>>
    ensures rows { OnOk result (J.rows journal.new ≡ listed_named buffer.now (entry_in entry.now) (J.rows journal.old)) }
    ensures texts { OnOk result (J.texts journal.new ≡ J.texts journal.old) }
    ensures taken { OnOk result ((name : List ℕ) → J.taken journal.new name ≡ J.taken journal.old name) }
    ensures fault { IfErr result (λ fault. IsName buffer.now → IsListFault (J.rows journal.old) buffer.now entry.now fault) }
{
    let Some(name) = Name::read(buffer) else {
        return Err(MendFault::NoBuffer(buffer));
    };
    let Some(i) = journal.place(&name) else {
        return Err(MendFault::NoBuffer(buffer));
    };
    let Ok(read) = read_entry(entry) else {
        return Err(MendFault::NoEntry(entry));
    };
    match insert_first(journal, i, read) {
        Ok(true) => Ok(()),
        Ok(false) => Err(MendFault::FullList(buffer)),
        Err(JournalFault) => Err(MendFault::Journal),
    }
}

// Whether a text would be lost with what is kept of a buffer: it was not saved, or the configuration does not have it.
fn loses_text<T: Marked + Drop, J: Journal>(journal: &J, config: &Buffers<T>, name: &Name) -> bool
    ensures { result ≡ loses_text (J.taken journal.now) config.now name.now (text_named name.now (J.rows journal.now) (J.texts journal.now)) }
{
    let Some(i) = journal.place(name) else {
        return false;
    };
    let Some(kept) = journal.text(i) else {
        return false;
    };
    if journal.is_taken(name) || !config.has(name) {
        return kept.modified || !kept.body.is_empty();
    }
    kept.modified
}

// What is kept of a buffer goes, and its name is free for the configuration.
fn forget<'a, T: Marked + Drop, J: Journal>(
    journal: &mut J,
    config: &Buffers<T>,
    buffer: &'a str,
    may_discard: bool,
) -> Result<(), MendFault<'a>>
    ensures rows { OnOk result (J.rows journal.new ≡ without (place_of buffer.now (rules_in_rows (J.rows journal.old))) (J.rows journal.old)) }
    ensures texts { OnOk result (J.texts journal.new ≡ without (place_of buffer.now (rules_in_rows (J.rows journal.old))) (J.texts journal.old)) }
    ensures taken { OnOk result ((other : List ℕ)
        → J.taken journal.new other ≡ (J.taken journal.old other && not (same_name buffer.now other))) }
    ensures unsaved { may_discard ≡ false
        → OnOk result (loses_text (J.taken journal.old) config.now buffer.now (text_named buffer.now (J.rows journal.old) (J.texts journal.old)) ≡ false) }
    ensures fault { IfErr result (λ fault. IsName buffer.now → IsForgetFault (J.rows journal.old) (J.texts journal.old) (J.taken journal.old) config.now may_discard buffer.now fault) }
{
    let Some(name) = Name::read(buffer) else {
        return Err(MendFault::NoBuffer(buffer));
    };
    if !journal.is_taken(&name) && journal.place(&name).is_none() {
        return Err(MendFault::NoBuffer(buffer));
    }
    if !may_discard && loses_text(journal, config, &name) {
        return Err(MendFault::Unsaved(buffer));
    }
    mend_answer(journal.forget(&name))
}

// Mends what the journal keeps of one buffer, or of the buffers of one user.
fn mend<'a, T: Marked + Drop, J: Journal>(
    journal: &mut J,
    config: &Buffers<T>,
    mending: &'a Mending,
    may_discard: bool,
) -> Result<(), MendFault<'a>>
    ensures { OnOk result (IsMended J.rows J.texts J.taken config.now may_discard mending.now journal.old journal.new) }
{
    match mending {
        Mending::Forget(buffer) => forget(journal, config, buffer.as_str(), may_discard),
        Mending::Owner(buffer, owner) => mend_owner(journal, buffer.as_str(), owner.as_str()),
        Mending::OwnerOf(old, new) => mend_owners(journal, old.as_str(), new.as_str()),
        Mending::List(buffer, entry) => mend_list(journal, buffer.as_str(), entry.as_str()),
    }
}

// The program's status where what is kept was not mended, which is told.
fn end_mending<R: Eprint>(rt: &R, fault: MendFault<'_>) -> u8
    ensures { result ≢ 0 }
{
    match fault {
        MendFault::NoBuffer(name) => {
            let _ = eprintln!(rt; "buffer {name}: the journal does not have it");
            FAILED
        }
        MendFault::NoName(name) => {
            let _ = eprintln!(rt; "{name}: no name of a user");
            FAILED
        }
        MendFault::Unsaved(name) => {
            let _ = eprintln!(rt; "buffer {name}: its text was not saved; --discard drops it");
            FAILED
        }
        MendFault::NoEntry(entry) => {
            let _ = eprintln!(rt; "{entry}: no entry of a list");
            FAILED
        }
        MendFault::FullList(name) => {
            let _ = eprintln!(rt; "buffer {name}: its list is full");
            FAILED
        }
        MendFault::Journal => {
            tell(rt, JournalFault);
            JOURNAL_FAILED
        }
    }
}

// Mends what the journal keeps once: the program's status where that fails, which is told, or else 0.
fn mend_one<R: Eprint, T: Marked + Drop, J: Journal>(
    rt: &R,
    journal: &mut J,
    config: &Buffers<T>,
    mending: &Mending,
    may_discard: bool,
) -> u8
    ensures { result ≡ 0 → IsMended J.rows J.texts J.taken config.now may_discard mending.now journal.old journal.new }
{
    match mend(journal, config, mending, may_discard) {
        Ok(()) => 0,
        Err(fault) => end_mending(rt, fault),
    }
}

/// The first status of two that is not 0.
pub(crate) fn first_status(one: u8, other: u8) -> u8
    ensures { result ≡ 0 → (one ≡ 0) × (other ≡ 0) }
{
    if one == 0 {
        return other;
    }
    one
}

/// Mends what the journal keeps, one after another. Each mending that does not fit is told, and the others are done: the program's status if
/// there is one, or else 0.
pub(crate) fn mend_all<R: Eprint, T: Marked + Drop, J: Journal>(
    rt: &R,
    journal: &mut J,
    config: &Buffers<T>,
    mendings: &Mendings,
) -> u8
    ensures mended { result ≡ 0 → AreMended J.rows J.texts J.taken config.now mendings.now.may_discard mendings.now.all.items journal.old journal.new }
{
    let mut status = 0;
    for mending in &mendings.all {
        let one = mend_one(rt, journal, config, mending, mendings.may_discard);
        status = first_status(status, one);
    }
    status
}
