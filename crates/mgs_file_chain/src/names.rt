// The steps by which one file follows another.
ghost use Rattle.std.specs.Prelude.{◌≡◌, OnOk};
ghost use Rattle.std.specs.Option.{option_map};
ghost use Rattle.mgs_file_chain.specs.Names.{Follows, settled};

use std::io;

/// The names of the files of one journal. A step that fails changes no name.
pub trait FileNames {
    ghost use Rattle.std.specs.Prelude.{◌≡◌, OnOk, OnErr, Option, Some, is_some};
    ghost use Rattle.std.specs.Option.{option_map};
    ghost use Rattle.mgs_file_chain.specs.Names.{Names, file_kept, file_placed, log_dropped, log_placed};

    // Which file has each name, if that is known.
    ghost names: { Self → Option Names };

    /// Whether there is a file in use.
    fn has_file(&self) -> bool
        ensures { (s : Names) → names self.now ≡ Some s → result ≡ is_some s.file };

    /// Removes the log of the file in use, which has nothing that the file does not have. The disk has the change.
    fn drop_log(&mut self) -> io::Result<()>
        ensures ok { OnOk result (names self.new ≡ option_map log_dropped (names self.old)) }
        ensures err { OnErr result (names self.new ≡ names self.old) };

    /// Gives the file in use a number in place of its name. The disk has the change.
    fn keep_file(&mut self, number: u64) -> io::Result<()>
        ensures ok { OnOk result (names self.new ≡ option_map (file_kept number) (names self.old)) }
        ensures err { OnErr result (names self.new ≡ names self.old) };

    /// Gives the log of the next file, if it has one, the name of the log of the file in use. The disk has the change.
    fn place_log(&mut self) -> io::Result<()>
        ensures ok { OnOk result (names self.new ≡ option_map log_placed (names self.old)) }
        ensures err { OnErr result (names self.new ≡ names self.old) };

    /// Gives the next file, if there is one, the name of the file in use. The disk has the change.
    fn place_file(&mut self) -> io::Result<()>
        ensures ok { OnOk result (names self.new ≡ option_map file_placed (names self.old)) }
        ensures err { OnErr result (names self.new ≡ names self.old) };
}

/// Puts the next file in the place of the file in use, whose log has nothing that it does not have, and which gets this number.
///
/// # Errors
///
/// That of the step that failed: those before it are done.
#[tactic(auto, using(crate::proofs::Crash::follows_none, crate::proofs::Crash::follows_one, crate::proofs::Crash::follows_two, crate::proofs::Crash::follows_all))]
pub fn follow<D: FileNames>(names: &mut D, number: u64) -> io::Result<()>
    ensures { Follows result number (D.names names.old) (D.names names.new) }
{
    names.drop_log()?;
    names.keep_file(number)?;
    names.place_log()?;
    names.place_file()
}

/// Does what a crash left of `follow`, if it left something: the next file gets its names.
///
/// # Errors
///
/// That of the step that failed.
#[tactic(auto, using(crate::proofs::Crash::settled_there, crate::proofs::Crash::settled_missing))]
pub fn settle<D: FileNames>(names: &mut D) -> io::Result<()>
    ensures { OnOk result (D.names names.new ≡ option_map settled (D.names names.old)) }
{
    if names.has_file() {
        return Ok(());
    }
    names.place_log()?;
    names.place_file()
}
