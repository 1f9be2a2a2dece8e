// The buffers of a start.
ghost use Rattle.std.specs.Prelude.{◌≡◌, ◌∷◌, ◌++◌, [], IfErr, IfOk, None, OnOk, get_or, length};
ghost use Rattle.std.specs.Str.{chars};
ghost use Rattle.mgs_buffers.specs.Adding.{kept_buffer};
ghost use Rattle.mgs_buffers.specs.Judging.{rules_kept};
ghost use Rattle.mgs_buffers.specs.MarkedBuffer.{AreUnmarked, HasBuffer, marked_at};
ghost use Rattle.mgs_journal.specs.Rows.{rules_in_rows};
ghost use Rattle.mgs_resume.specs.Contents.{AddsConfigured, StartsWith, buffer_configured, buffer_kept, buffer_with, buffers_kept, contents_kept, contents_resumed};
ghost use Rattle.mgs_resume.specs.Joined.{AddsOther, with_others};
ghost use Rattle.mgs_resume.specs.Refusing.{AreUsers, IsCause, NamesNoOwner};

use mgs_buffers::{AddFault, Buffers, Rights};
use mgs_journal::{Journal, Snapshot};
use mgs_marks::Marked;
use mgs_model::{Name, Short};
use mgs_policy::Directory;
use mgs_text::Text;
use std::alloc::{AllocError, Global};
use std::fmt;

/// Why a server does not start with what a journal keeps.
#[derive(Clone, Copy, Debug)]
pub enum ResumeFault {
    /// The owner of a buffer is no user of the configuration: the buffer's name, and his.
    Owner(Name, Name),
    /// There are more than 256 buffers, those of the journal and of the configuration together: this is one too many.
    Full(Name),
    /// The text that is kept of the buffer has more than 1,048,576 characters.
    Long(Name),
    /// Memory was refused.
    Short,
}

fn put_name<W: fmt::Write>(name: &Name, f: &mut fmt::Formatter<W>) -> fmt::Result {
    match str::from_utf8(name.as_bytes()) {
        Ok(text) => f.write_str(text),
        Err(_) => Ok(()),
    }
}

impl fmt::Display for ResumeFault {
    fn fmt<W: fmt::Write>(&self, f: &mut fmt::Formatter<W>) -> fmt::Result {
        match self {
            ResumeFault::Owner(buffer, owner) => {
                f.write_str("buffer ")?;
                put_name(buffer, f)?;
                f.write_str(": owner ")?;
                put_name(owner, f)?;
                f.write_str(" is no user")
            }
            ResumeFault::Full(buffer) => {
                f.write_str("buffer ")?;
                put_name(buffer, f)?;
                f.write_str(": there are too many buffers")
            }
            ResumeFault::Long(buffer) => {
                f.write_str("buffer ")?;
                put_name(buffer, f)?;
                f.write_str(": its text is too long")
            }
            ResumeFault::Short => f.write_str("no memory"),
        }
    }
}

impl std::error::Error for ResumeFault {}

fn fault_at(name: &Name, fault: AddFault) -> ResumeFault
    ensures { NamesNoOwner result }
{
    match fault {
        AddFault::Full => ResumeFault::Full(*name),
        AddFault::Long => ResumeFault::Long(*name),
        AddFault::Name | AddFault::Twice | AddFault::Short => ResumeFault::Short,
    }
}

// The characters of a text.
#[tactic(auto, using(std::proofs::lemmas::Str::chars_from_encodes))]
fn chars_of(alloc: Global, text: &str) -> Result<Vec<char>, AllocError>
    ensures { IfOk result (λ cs. cs.items ≡ chars text.now) }
{
    text.chars().collect(alloc)
}

// Adds a buffer with this text.
fn add<T: Marked + Drop>(
    joined: &mut Buffers<T>,
    rights: &Rights<'_>,
    text: &[char],
    has_file: bool,
    modified: bool,
) -> Result<(), ResumeFault>
    ensures ok { OnOk result (joined.new ≡ joined.old ++ kept_buffer rights.now text.now has_file modified ∷ []) }
    ensures unmarked { AreUnmarked joined.old → AreUnmarked joined.new }
    ensures fault { IfErr result NamesNoOwner }
{
    match joined.restore(rights, text, has_file, modified) {
        Ok(()) => Ok(()),
        Err(fault) => Err(fault_at(rights.name, fault)),
    }
}

// Adds a buffer with a text that is kept.
fn add_body<T: Marked + Drop>(
    joined: &mut Buffers<T>,
    rights: &Rights<'_>,
    body: &str,
    has_file: bool,
    modified: bool,
) -> Result<(), ResumeFault>
    ensures ok { OnOk result (joined.new ≡ joined.old ++ kept_buffer rights.now (chars body.now) has_file modified ∷ []) }
    ensures unmarked { AreUnmarked joined.old → AreUnmarked joined.new }
    ensures fault { IfErr result NamesNoOwner }
{
    let text = match chars_of(joined.alloc(), body) {
        Ok(text) => text,
        Err(_) => return Err(ResumeFault::Short),
    };
    add(joined, rights, &text, has_file, modified)
}

// Adds a buffer that no file is read for: with the text that is kept of it, or empty.
fn add_own<T: Marked + Drop>(
    joined: &mut Buffers<T>,
    rights: &Rights<'_>,
    kept: &Option<Snapshot<'_>>,
) -> Result<(), ResumeFault>
    ensures ok { OnOk result (joined.new ≡ joined.old ++ buffer_with rights.now (contents_kept kept.now) ∷ []) }
    ensures unmarked { AreUnmarked joined.old → AreUnmarked joined.new }
    ensures fault { IfErr result NamesNoOwner }
{
    match kept {
        Some(text) => add_body(joined, rights, text.body, false, text.modified),
        None => add(joined, rights, &[], false, false),
    }
}

// Adds a buffer as the configuration has it.
fn add_configured<T: Marked + Drop>(
    joined: &mut Buffers<T>,
    config: &Buffers<T>,
    rights: &Rights<'_>,
) -> Result<(), ResumeFault>
    requires { HasBuffer rights.now.name config.now }
    ensures ok { OnOk result (joined.new ≡ joined.old ++ buffer_configured config.now rights.now ∷ []) }
    ensures unmarked { AreUnmarked joined.old → AreUnmarked joined.new }
    ensures fault { IfErr result NamesNoOwner }
{
    let buffer = config.find(rights.name);
    let text = match buffer.text().copy(0, buffer.text_len()) {
        Ok(text) => text,
        Err(Short) => return Err(ResumeFault::Short),
    };
    add(joined, rights, &text, buffer.has_file(), false)
}

// Adds a buffer that the configuration has: with the text that is kept of it where that was modified, or else as the configuration has it.
fn add_resumed<T: Marked + Drop>(
    joined: &mut Buffers<T>,
    config: &Buffers<T>,
    rights: &Rights<'_>,
    kept: &Option<Snapshot<'_>>,
) -> Result<(), ResumeFault>
    requires { HasBuffer rights.now.name config.now }
    ensures ok { OnOk result (joined.new ≡ joined.old ++ buffer_with rights.now (contents_resumed (marked_at rights.now.name config.now) kept.now) ∷ []) }
    ensures unmarked { AreUnmarked joined.old → AreUnmarked joined.new }
    ensures fault { IfErr result NamesNoOwner }
{
    match kept {
        Some(text) => {
            if text.modified {
                let has_file = config.has_file(rights.name);
                add_body(joined, rights, text.body, has_file, true)
            } else {
                add_configured(joined, config, rights)
            }
        }
        None => add_configured(joined, config, rights),
    }
}

// Adds the next of those that are kept.
fn add_next<T: Marked + Drop, J: Journal>(
    joined: &mut Buffers<T>,
    config: &Buffers<T>,
    journal: &J,
    rights: &Rights<'_>,
) -> Result<(), ResumeFault>
    ensures ok { OnOk result (joined.new
        ≡ joined.old ++ buffer_kept (J.taken journal.now) config.now rights.now (get_or (J.texts journal.now) (length joined.old) None) ∷ []) }
    ensures unmarked { AreUnmarked joined.old → AreUnmarked joined.new }
    ensures fault { IfErr result NamesNoOwner }
{
    let kept = journal.text(joined.len());
    if journal.is_taken(rights.name) || !config.has(rights.name) {
        return add_own(joined, rights, &kept);
    }
    add_resumed(joined, config, rights, &kept)
}

// Adds those that are kept, in their order.
fn add_kept<T: Marked + Drop, J: Journal>(
    joined: &mut Buffers<T>,
    directory: &Directory,
    config: &Buffers<T>,
    journal: &J,
) -> Result<(), ResumeFault>
    requires { joined.old ≡ [] }
    ensures ok { OnOk result (rules_kept joined.new ≡ rules_in_rows (J.rows journal.now)) }
    ensures texts { OnOk result (joined.new ≡ buffers_kept (J.taken journal.now) config.now (rules_in_rows (J.rows journal.now)) (J.texts journal.now)) }
    ensures owners { OnOk result (AreUsers directory.now (rules_in_rows (J.rows journal.now))) }
    ensures fault { IfErr result (IsCause directory.now (rules_in_rows (J.rows journal.now))) }
    ensures unmarked { AreUnmarked joined.old → AreUnmarked joined.new }
{
    while let Some(rights) = journal.rights(joined.len()) {
        if !directory.has_user(&rights.owners.owner) {
            return Err(ResumeFault::Owner(*rights.name, rights.owners.owner));
        }
        add_next(joined, config, journal, &rights)?;
    }
    Ok(())
}

// Adds the `i`-th of the configuration, where none has its name yet and no user took that.
#[tactic(auto, using(crate::proofs::Contents::adds_none, crate::proofs::Contents::adds_one))]
fn add_other<T: Marked + Drop, J: Journal>(
    joined: &mut Buffers<T>,
    config: &Buffers<T>,
    journal: &J,
    i: usize,
) -> Result<(), ResumeFault>
    ensures ok { OnOk result (AddsOther (J.taken journal.now) i (rules_kept config.now) (rules_kept joined.old) (rules_kept joined.new)) }
    ensures texts { OnOk result (AddsConfigured config.now joined.old joined.new) }
    ensures unmarked { AreUnmarked joined.old → AreUnmarked joined.new }
    ensures fault { IfErr result NamesNoOwner }
{
    let Some(rights) = config.rights(i) else {
        return Ok(());
    };
    if journal.is_taken(rights.name) {
        return Ok(());
    }
    if joined.has(rights.name) {
        return Ok(());
    }
    add_configured(joined, config, &rights)?;
    Ok(())
}

// Adds those of the configuration whose name none has yet and no user took, in their order.
#[tactic(auto, using(crate::proofs::Contents::adds_none))]
fn add_others<T: Marked + Drop, J: Journal>(
    joined: &mut Buffers<T>,
    config: &Buffers<T>,
    journal: &J,
) -> Result<(), ResumeFault>
    ensures ok { OnOk result (rules_kept joined.new ≡ with_others (J.taken journal.now) (rules_kept joined.old) (rules_kept config.now)) }
    ensures texts { OnOk result (AddsConfigured config.now joined.old joined.new) }
    ensures unmarked { AreUnmarked joined.old → AreUnmarked joined.new }
    ensures fault { IfErr result NamesNoOwner }
{
    for i in 0..config.len() {
        add_other(joined, config, journal, i)?;
    }
    Ok(())
}

/// The buffers that a server starts with: first those that the journal keeps, in their order and decided by what it keeps; then the other
/// buffers of the configuration, as it has them.
///
/// A buffer that is kept, and that the configuration has, has the text that the journal keeps where that was modified since it was written
/// to its file, and is modified again; else it has its text of the configuration, and so its file's. One that the configuration does not
/// have has the text that the journal keeps, if it keeps one, and no file.
///
/// Under a name whose last buffer a user made or killed, the configuration has another buffer than was there: it is not taken, and a
/// buffer of that name that is kept has its own text and no file. So nobody reads a text of the configuration by a buffer that he made
/// under its name, and what was killed with its access list does not come back without it.
///
/// # Errors
///
/// `Owner` where the owner of a buffer that is kept is no user of the directory, `Full` where there are more than 256 together, `Long`
/// where a text that is kept is longer than a buffer's may be, `Short` where memory was refused.
#[tactic(auto, using(crate::proofs::Contents::starts_with))]
pub fn join<T: Marked + Drop, J: Journal>(
    alloc: Global,
    directory: &Directory,
    config: &Buffers<T>,
    journal: &J,
) -> Result<Buffers<T>, ResumeFault>
    ensures rules { IfOk result (λ buffers. rules_kept buffers ≡ with_others (J.taken journal.now) (rules_in_rows (J.rows journal.now)) (rules_kept config.now)) }
    ensures texts { IfOk result (StartsWith (J.taken journal.now) config.now (rules_in_rows (J.rows journal.now)) (J.texts journal.now)) }
    ensures owners { OnOk result (AreUsers directory.now (rules_in_rows (J.rows journal.now))) }
    ensures fault { IfErr result (IsCause directory.now (rules_in_rows (J.rows journal.now))) }
    ensures unmarked { IfOk result AreUnmarked }
{
    let mut joined = Buffers::new(alloc);
    add_kept(&mut joined, directory, config, journal)?;
    add_others(&mut joined, config, journal)?;
    Ok(joined)
}
