// The files that a configuration names.
ghost use Rattle.std.specs.Prelude.{◌≡◌, ◌≤◌, ℕ, List, Option, None, Some, IfOk, IsErrOf, OnOk};
ghost use Rattle.mgs_config.specs.Files.{IsTold, HasRisen, GivesNoMore};
ghost use Rattle.mgs_config.specs.declared.named_files.FilesFault.TheVariants.{Unreadable};

use thiserror::Error;

/// Why a file was not read.
#[derive(Clone, Copy, Debug, Error)]
pub enum FilesFault {
    /// It cannot be read, or it is no UTF-8.
    #[error("the file cannot be read")]
    Unreadable,
    /// Memory was refused.
    #[error("no memory")]
    Short,
}

/// Where the files of a configuration are read.
pub trait Files {
    /// What is known of the file at a path: nothing (`None`), that it cannot be read (`Some None`), or its text. Of files outside the
    /// program nothing is known.
    ghost tells: { Self → List ℕ → Option (Option (List ℕ)) };

    /// What the file at a path may give as its text, if it can be read. By default anything.
    ghost gives: { Self → List ℕ → List ℕ → Type 0 } = { λ files path text. Unit {0} };

    /// The count of faults.
    ghost count: { Self → ℕ };

    /// The characters of the file at a path. The count of faults stays as it was.
    ///
    /// The faults are `Unreadable`, at which the count of faults rises, or stood at the last u64, and `Short` for out of memory. A
    /// file whose text is known is never `Unreadable`, and one of which is known that it cannot be read is never read.
    fn read(&mut self, path: &str) -> Result<Vec<char>, FilesFault>
        ensures text { IfOk result (λ text. IsTold (tells self.old path.now) (Some text.items)) }
        ensures given { IfOk result (λ text. gives self.old path.now text.items) }
        ensures unreadable { IsErrOf result Unreadable → IsTold (tells self.old path.now) None }
        ensures same { tells self.new ≡ tells self.old }
        ensures kept { GivesNoMore (gives self.new) (gives self.old) }
        ensures ok { OnOk result (count self.new ≡ count self.old) }
        ensures count { count self.old ≤ count self.new }
        ensures fault { IsErrOf result Unreadable → HasRisen (count self.old) (count self.new) };

    /// How many files could not be read. It stays at the last u64.
    fn faults(&self) -> u64
        ensures { result ≡ count self.now };
}
