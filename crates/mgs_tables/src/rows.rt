//! What a row of the tables holds, and why a change of them is refused.

use sqlite::Error;

/// The rights of a buffer, each as a text.
#[derive(Clone, Copy, Debug)]
pub struct RightsRow<'a> {
    /// The buffer's name, which no other row has.
    pub name: &'a str,
    /// The owner's name.
    pub owner: &'a str,
    /// The owning group's name, or nothing where there is none.
    pub owning_group: &'a str,
    /// The entries of the list, in one text.
    pub entries: &'a str,
}

/// A change of one row of the table of buffers.
#[derive(Clone, Copy, Debug)]
pub enum RowChange<'a> {
    /// Adds a buffer.
    Add(RightsRow<'a>),
    /// Gives the buffer of the name another owner, owning group and list.
    Set(RightsRow<'a>),
    /// Removes the buffer of this name, with its text.
    Drop(&'a str),
}

/// What happened, each part as a text.
#[derive(Clone, Copy, Debug)]
pub struct EventRow<'a> {
    /// The time, in seconds since 1970.
    pub at: i64,
    /// The name of the user who did it. It is empty if nobody did.
    pub user: &'a str,
    /// What was done, in a word.
    pub what: &'a str,
    /// The buffer's name, or nothing where it was about none.
    pub buffer: &'a str,
    /// What else there is to tell.
    pub detail: &'a str,
}

/// The text of a buffer, as it was at one moment.
#[derive(Clone, Copy, Debug)]
pub struct TextRow<'a> {
    /// The buffer's name.
    pub name: &'a str,
    /// 1 where the buffer was modified then, and 0 where it was not.
    pub modified: i64,
    /// A sum of the text that the buffer's file had when it was last loaded or saved.
    pub file: i64,
    /// The text, whole.
    pub body: &'a str,
}

/// Why a change of the tables is refused.
#[derive(Clone, Copy, Debug, PartialEq, Eq, thiserror::Error)]
pub enum Fault {
    /// No buffer has the name.
    #[error("no buffer has the name")]
    NoBuffer,
    /// SQLite refuses or fails.
    #[error("{0}")]
    Sqlite(Error),
}

impl From<Error> for Fault {
    ghost use Rattle.std.specs.Prelude.{◌≡◌};
    ghost use Rattle.mgs_tables.specs.declared.rows.Fault.TheVariants.{Sqlite};

    ghost from_gives = { λ error fault. fault ≡ Sqlite error };

    fn from(error: Error) -> Fault {
        Fault::Sqlite(error)
    }
}

/// The rights of a buffer, as they were read.
#[derive(Debug, Drop)]
pub struct Rights {
    /// The buffer's name.
    pub name: String,
    /// The owner's name.
    pub owner: String,
    /// The owning group's name, or nothing where there is none.
    pub owning_group: String,
    /// The entries of the list, in one text.
    pub entries: String,
}

/// An event, as it was read.
#[derive(Debug, Drop)]
pub struct Event {
    /// Its number, which is greater than that of each earlier one.
    pub number: i64,
    /// The time, in seconds since 1970.
    pub at: i64,
    /// The name of the user who did it. It is empty if nobody did.
    pub user: String,
    /// What was done, in a word.
    pub what: String,
    /// The buffer's name, or nothing where it was about none.
    pub buffer: String,
    /// What else there is to tell.
    pub detail: String,
}

/// The text of a buffer, as it was read.
#[derive(Debug, Drop)]
pub struct Text {
    /// 1 where the buffer was modified then, and 0 where it was not.
    pub modified: i64,
    /// A sum of the text that the buffer's file had when it was last loaded or saved.
    pub file: i64,
    /// The text, whole.
    pub body: String,
}
