// Why a configuration was refused.
use thiserror::Error;

/// Which tables of a configuration a fault names. Printed in lower case.
#[derive(Clone, Copy, Debug, Error)]
pub enum ConfigTable {
    /// The document as a whole.
    #[error("top")]
    Top,
    /// `[[user]]`.
    #[error("user")]
    User,
    /// `[[group]]`.
    #[error("group")]
    Group,
    /// `[[buffer]]`.
    #[error("buffer")]
    Buffer,
}

/// Why a table was refused, in the order in which the faults are checked. Printed by their names.
#[derive(Clone, Copy, Debug, Error)]
pub enum TableFault {
    /// The text is no TOML document.
    #[error("Toml")]
    Toml,
    /// A key is unknown or missing, or its value is of a wrong kind, or a buffer has both a text and a file.
    #[error("Key")]
    Key,
    /// A name is none of a user, a group or a buffer, or a ticket is none.
    #[error("Name")]
    Name,
    /// An earlier table of the kind has the name.
    #[error("Twice")]
    Twice,
    /// A member or an owner is no user, or an owning group no group.
    #[error("Unknown")]
    Unknown,
    /// A string of an access list is no entry.
    #[error("Entry")]
    Entry,
    /// There are more users, groups, buffers, entries or characters than a server keeps.
    #[error("Long")]
    Long,
    /// A file cannot be read.
    #[error("File")]
    File,
    /// Memory was refused.
    #[error("Short")]
    Short,
}

/// Why a configuration was refused: the table at fault, and its fault. Printed as `TABLE INDEX: FAULT`, such as `user 2: Twice`.
#[derive(Clone, Copy, Debug, Error)]
#[error("{table} {index}: {fault}")]
pub struct ConfigFault {
    /// Which tables.
    pub table: ConfigTable,
    /// Which of them, counted from 1; 0 for `Top`.
    pub index: usize,
    /// Its fault.
    pub fault: TableFault,
}
