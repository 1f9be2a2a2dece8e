// Why the ledger does not go on.
use mgs_tables::Fault;
use sqlite::Error as SqliteError;
use std::alloc::{AllocError, AllocFailed};
use thiserror::Error;

/// Why the ledger does not go on.
#[derive(Debug, Drop, Error)]
pub enum LedgerFault {
    /// What is kept of the buffer of this name is no rights: its name, its owner, its owning group or an entry of its list does not read.
    #[error("buffer {0}: not as it was kept")]
    Row(String),
    /// The event of this number does not follow from those before it: its number is not the next, or what it says was there was not.
    #[error("event {0}: does not follow from those before it")]
    Event(i64),
    /// The rights of the buffer of this name are not those that its events tell.
    #[error("buffer {0}: not as its events say")]
    Differs(String),
    /// What is kept of a text is none: whether it is modified is not told by 0 or 1, or there are more or fewer than buffers.
    #[error("a text: not as it was kept")]
    Text,
    /// The tables refuse it or fail.
    #[error("{0}")]
    Tables(Fault),
    /// There are as many buffers as there is room for.
    #[error("too many buffers")]
    Full,
    /// The rights are of another buffer than the one at the place, or a text is of none.
    #[error("another buffer")]
    Other,
    /// The clock does not tell the time.
    #[error("no time")]
    Clock,
    /// Memory was refused.
    #[error("no memory")]
    Short,
}

impl From<AllocError> for LedgerFault {
    ghost use Rattle.std.specs.Prelude.{◌≡◌};
    ghost use Rattle.mgs_ledger.specs.declared.ledger_fault.LedgerFault.TheVariants.{Short};

    ghost from_gives = { λ error fault. fault ≡ Short };

    fn from(_error: AllocError) -> LedgerFault {
        LedgerFault::Short
    }
}

impl<T: Drop> From<AllocFailed<T>> for LedgerFault {
    fn from(_error: AllocFailed<T>) -> LedgerFault {
        LedgerFault::Short
    }
}

impl From<Fault> for LedgerFault {
    fn from(fault: Fault) -> LedgerFault {
        LedgerFault::Tables(fault)
    }
}

impl From<SqliteError> for LedgerFault {
    fn from(error: SqliteError) -> LedgerFault {
        LedgerFault::Tables(Fault::Sqlite(error))
    }
}
