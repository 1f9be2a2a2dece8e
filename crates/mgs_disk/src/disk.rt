// The files that a configuration names.
ghost use Rattle.std.specs.Prelude.{◌≡◌, ◌≢◌, ◌<◌, ◌≤◌, ◌+◌, ◌*◌, length, false, IsSome, IfSome, IfOk, IsErrOf};
ghost use Rattle.std.specs.IoError.{error_kind};
ghost use Rattle.std.specs.Str.{chars, IsUtf8};
ghost use Rattle.std.specs.declared.io.ErrorKind.TheVariants.{OutOfMemory};
ghost use Rattle.mgs_config.specs.declared.named_files.FilesFault.TheVariants.{Short, Unreadable};
ghost use Rattle.mgs_disk.specs.Reading.{GivesText, IsTextIn};

use mgs_config::{Files, FilesFault};
use mgs_model::TEXT_LIMIT;
use mgs_written::{Opens, read_start_at};
use std::alloc::Global;
use std::io::{self, ErrorKind};
use std::str;

// How much of a file is read: more than four bytes, the most that a character takes, for each character of the longest text. Where the
// last one is cut, more than a text may have stand before it.
const READ_LIMIT: usize = 4 * TEXT_LIMIT + 4;

// Bytes that are UTF-8, or whose first part is, where the last character may be cut.
fn utf8_of(bytes: &[u8], may_be_cut: bool) -> Option<&str>
    ensures whole { may_be_cut ≡ false → IfSome result (λ text. text.now ≡ bytes.now) }
    ensures cut { IfSome result (λ text. length bytes.now < length text.now + 4) }
    ensures due { IsUtf8 bytes.now → IsSome result }
{
    match str::from_utf8(bytes) {
        Ok(text) => Some(text),
        Err(error) if may_be_cut && error.error_len().is_none() => {
            str::from_utf8(&bytes[..error.valid_up_to()]).ok()
        }
        Err(_) => None,
    }
}

#[tactic(auto, using(std::proofs::lemmas::Str::chars_from_encodes, crate::proofs::Lengths::chars_of_bytes))]
fn chars_of(alloc: Global, text: &str) -> Result<Vec<char>, FilesFault>
    ensures ok { IfOk result (λ cs. cs.items ≡ chars text.now) }
    ensures len { IfOk result (λ cs. length text.now ≤ 4 * length cs.items) }
    ensures err { IsErrOf result Unreadable → ⊥ }
{
    match text.chars().collect(alloc) {
        Ok(text) => Ok(text),
        Err(_) => Err(FilesFault::Short),
    }
}

// The characters of what was read of a file: all of them, or more than a text may have.
fn text_of(alloc: Global, bytes: &[u8]) -> Result<Vec<char>, FilesFault>
    ensures whole { length bytes.now < READ_LIMIT → IfOk result (λ cs. cs.items ≡ chars bytes.now) }
    ensures long { READ_LIMIT ≤ length bytes.now → IfOk result (λ cs. TEXT_LIMIT < length cs.items) }
    ensures err { IsErrOf result Unreadable → ¬ (IsUtf8 bytes.now) }
{
    match utf8_of(bytes, bytes.len() >= READ_LIMIT) {
        Some(text) => chars_of(alloc, text),
        None => Err(FilesFault::Unreadable),
    }
}

// Why nothing was read.
pub(crate) fn cause_of(error: io::Error) -> FilesFault
    ensures short { error_kind error ≡ OutOfMemory → result ≡ Short }
    ensures other { error_kind error ≢ OutOfMemory → result ≡ Unreadable }
{
    match error.kind() {
        ErrorKind::OutOfMemory => FilesFault::Short,
        _ => FilesFault::Unreadable,
    }
}

// The characters of the file at a path: all of them, or more than a text may have.
fn read_text<O: Opens>(opens: &O, alloc: Global, path: &str) -> Result<Vec<char>, FilesFault>
    ensures { IfOk result (λ text. GivesText (O.holds opens.now) path.now text.items) }
{
    match read_start_at(opens, alloc, path, READ_LIMIT as u64) {
        Ok(bytes) => text_of(alloc, &bytes),
        Err(error) => Err(cause_of(error)),
    }
}

/// The files of a configuration, each read up to what shows that it is too long for a text.
#[derive(Drop)]
pub struct Disk<'a, O> {
    opens: &'a O,
    alloc: Global,
    faults: u64,
}

impl<'a, O: Opens> Disk<'a, O> {
    /// These files, without a fault so far.
    pub fn new(alloc: Global, opens: &'a O) -> Disk<'a, O>
        ensures count { ⟦<Disk<'a, O> as Files>⟧.count result ≡ 0 }
        ensures over { result.opens.now ≡ opens.now }
    {
        Disk {
            opens,
            alloc,
            faults: 0,
        }
    }
}

impl<'a, O: Opens> Files for Disk<'a, O> {
    ghost use Rattle.std.specs.Prelude.{None};
    ghost use Rattle.mgs_disk.specs.Reading.{GivesText};

    ghost tells = { λ disk path. None };

    ghost gives = { λ disk. GivesText (O.holds disk.opens.now) };

    ghost count = { λ disk. disk.faults };

    fn read(&mut self, path: &str) -> Result<Vec<char>, FilesFault> {
        match read_text(self.opens, self.alloc, path) {
            Ok(text) => Ok(text),
            Err(FilesFault::Unreadable) => {
                self.faults = self.faults.saturating_add(1);
                Err(FilesFault::Unreadable)
            }
            Err(FilesFault::Short) => Err(FilesFault::Short),
        }
    }

    fn faults(&self) -> u64 {
        self.faults
    }
}
