// The statuses of the program.

/// The program's status where an audit was printed.
pub const PRINTED: u8 = 0;

/// The program's status where the configuration, the folder or the journal is refused.
pub const FAILED: u8 = 1;

/// The program's status where its arguments are wrong.
pub const WRONG_ARGUMENTS: u8 = 2;

/// The program's status where it cannot listen, or not learn who is ready.
pub const NO_SOCKETS: u8 = 3;

/// The program's status where the journal failed while it served.
pub const JOURNAL_FAILED: u8 = 4;

/// The program's status where another process has the journal open.
pub const IN_USE: u8 = 5;
