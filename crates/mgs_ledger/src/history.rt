// The events of the tables, read from the first to the last.
ghost use Rattle.std.specs.Prelude.{◌≡◌, true, [], IfOk};
ghost use Rattle.mgs_ledger.specs.Taken.{last_number};
ghost use Rattle.mgs_ledger.specs.Reading.{AreAllRead};

use crate::ledger_fault::LedgerFault;
use crate::taken::note_page;
use mgs_model::Name;
use mgs_rewind::Account;
use mgs_tables::{Event, read_events};
use sqlite::{Alter, Connection};
use std::alloc::Global;

// How many events are read at once.
const PAGE: u32 = 256;

/// What the events of the tables say.
#[derive(Drop)]
pub(crate) struct History {
    /// The names whose last buffer a user made or killed.
    pub(crate) taken: Vec<Name>,
    /// The rights of each buffer.
    pub(crate) account: Account,
}

// The number of the last event of a page, or this one if the page is empty.
fn last_of(events: &[Event], mut last: i64) -> i64
    ensures { result ≡ last_number last events.now }
{
    for event in events {
        last = event.number;
    }
    last
}

// Whether a page has no event.
fn is_end(events: &[Event]) -> bool
    ensures { result ≡ true → events.now ≡ [] }
{
    events.is_empty()
}

/// Reads all events.
///
/// # Errors
///
/// `Tables` if the tables fail, and `Short` for want of memory.
pub(crate) fn read_history<S: Alter>(
    conn: &mut Connection<S>,
    alloc: Global,
) -> Result<History, LedgerFault>
    ensures { IfOk result (λ history. AreAllRead S.Store conn.old conn.new history.taken.items history.account) }
{
    let mut taken = Vec::new(alloc);
    let mut account = Account::new(alloc);
    let mut last = 0;
    for _ in 0..u64::MAX {
        let events = read_events(conn, alloc, last, PAGE)?;
        let page = events.as_slice();
        if is_end(page) {
            return Ok(History { taken, account });
        }
        note_page(&mut taken, page)?;
        account.note_page(page)?;
        last = last_of(page, last);
    }
    Err(LedgerFault::Full)
}
