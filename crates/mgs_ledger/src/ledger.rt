// The ledger.
ghost use Rattle.std.specs.Prelude.{◌≡◌, ◌<◌, [], Ok, Some, is_err, true, IfOk, IfSome, OnErr, OnOk};
ghost use Rattle.mgs_ledger.specs.Refused.{KeepsTables};
ghost use Rattle.std.specs.Prelude.{length, position, slice_set};
ghost use Rattle.sqlite.specs.State.{HasCleanDisk};
ghost use Rattle.sqlite.specs.Held.{state};
ghost use Rattle.mgs_journal.specs.Kept.{place_of, without};
ghost use Rattle.mgs_journal.specs.Rows.{rules_in_rows};
ghost use Rattle.mgs_ledger.specs.Counting.{gathering, no_rows};
ghost use Rattle.mgs_ledger.specs.Keeping.{is_row_of};
ghost use Rattle.mgs_ledger.specs.Agreement.{AreResumed};
ghost use Rattle.mgs_ledger.specs.NewFile.{IsRenewed};
ghost use Rattle.mgs_ledger.specs.Telling.{AreCommitted, IsForgotten, IsPutAt};

use crate::agreement::test_account;
use crate::history::{History, read_history};
use crate::ledger_fault::LedgerFault;
use crate::log::Log;
use crate::snapshot::{SnapshotValue, snapshot_at, snapshot_in};
use crate::stored_rights::read_values;
use crate::stored_texts::read_snapshots;
use crate::taken::{free, has_name};
use crate::value::{RightsValue, birth_at, lent_at};
use mgs_buffers::Rights;
use mgs_journal::{Change, Journal, JournalFault, Snapshot, Told};
use mgs_model::Name;
use sqlite::{Alter, Connection};
use std::alloc::Global;
use std::io::Write;
use std::time::Clock;

/// A journal over the tables of a SQLite connection, with a clock that dates what happened, and a writer.
///
/// Each event that is committed is a line on the writer. Where the writer fails nothing is lost and no call fails: the tables hold, and
/// `audit` prints the same lines.
#[derive(Drop)]
pub struct Ledger<S: Alter + Drop, C: Clock + Drop, W: Write + Drop> {
    log: Log<S, C, W>,
    // The rights in the tables, in the order of creation.
    rows: Vec<RightsValue>,
    // What is kept of each buffer's text, as UTF-8, in the same order.
    texts: Vec<Option<SnapshotValue>>,
    // The names whose last buffer a user made or killed before the ledger went on.
    taken: Vec<Name>,
}

impl<S: Alter + Drop, C: Clock + Drop, W: Write + Drop> Ledger<S, C, W> {
    /// A ledger that goes on with the tables of a connection.
    ///
    /// # Errors
    ///
    /// `Row` if what is kept of a buffer does not read, `Text` if what is kept of a text does not, `Event` if an event does not follow from
    /// those before it, `Differs` if the rights of a buffer are not those that its events tell, `Tables` if the tables fail, and `Short` for
    /// want of memory. Nothing is changed then.
    pub fn resume(
        mut conn: Connection<S>,
        alloc: Global,
        clock: C,
        out: W,
    ) -> Result<Ledger<S, C, W>, LedgerFault>
        ensures resumed { IfOk result (λ l. AreResumed S.Store conn l.log.conn l.rows.items l.texts.items l.taken.items) }
        ensures begins { IfOk result (λ l. gathering l.log.gathered.items l.log.tally ≡ gathering [] no_rows) }
    {
        let rows = read_values(&mut conn, alloc)?;
        let texts = read_snapshots(&mut conn, alloc, rows.len())?;
        let history = read_history(&mut conn, alloc)?;
        test_account(alloc, &history.account, rows.as_slice())?;
        let History { taken, account: _ } = history;
        let log = Log::new(conn, alloc, clock, out)?;
        Ok(Ledger {
            log,
            rows,
            texts,
            taken,
        })
    }

    /// Commits what is gathered, fills the fresh tables of another connection with the rights and texts that it keeps, and with these names as
    /// those that users took, as the file of this number (from 1), and goes on with that connection. Returns the one before. `None` if the
    /// fresh tables could not be filled: the ledger goes on with the connection that it has, and the other is dropped.
    ///
    /// The names have to be those of all events so far, also of those since the ledger went on, which `is_taken` does not know: a name that is
    /// left out is free at the next start.
    ///
    /// # Errors
    ///
    /// `Tables` if the tables that it has fail, `Clock` if the clock does not tell the time, and `Short` for want of memory.
    pub fn renew(
        &mut self,
        conn: Connection<S>,
        file: u64,
        taken: &[Name],
    ) -> Result<Option<Connection<S>>, LedgerFault>
        ensures rows { self.new.rows.items ≡ self.old.rows.items }
        ensures texts { self.new.texts.items ≡ self.old.texts.items }
        ensures taken { self.new.taken.items ≡ self.old.taken.items }
        ensures gathered { OnOk result (self.new.log.gathered.items ≡ []) }
        ensures renewed { IfOk result (λ before. IsRenewed S.Store file self.old.rows.items self.old.texts.items taken.now self.old.log.gathered.items self.old.log.conn conn before self.new.log.conn) }
    {
        self.log.renew(
            conn,
            file,
            self.rows.as_slice(),
            self.texts.as_slice(),
            taken,
        )
    }

    /// Commits what is gathered, and gives the connection back.
    ///
    /// # Errors
    ///
    /// `Tables` where the tables fail, and `Short` for want of memory.
    pub fn close(self) -> Result<Connection<S>, LedgerFault>
        ensures { IfOk result (λ conn. HasCleanDisk (state S.Store conn) → AreCommitted S.Store self.log.gathered.items self.log.conn conn) }
    {
        let Ledger {
            log,
            rows: _,
            texts: _,
            taken: _,
        } = self;
        log.close()
    }
}

// Has the log keep the text of the buffer at a place.
fn set_text_at<S: Alter + Drop, C: Clock + Drop, W: Write + Drop>(
    log: &mut Log<S, C, W>,
    rows: &[RightsValue],
    texts: &mut Vec<Option<SnapshotValue>>,
    i: usize,
    value: SnapshotValue,
) -> Result<(), LedgerFault>
    requires { i < length rows.now }
    ensures texts { OnOk result (texts.new.items ≡ slice_set texts.old.items i (Some value)) }
    ensures stays { OnErr result (texts.new.items ≡ texts.old.items) }
    ensures gathered { OnOk result (log.new.gathered.items ≡ []) }
    ensures tally { OnOk result (log.new.tally ≡ log.old.tally) }
    ensures failed { OnErr result (KeepsTables S.Store log.old.conn log.new.conn) }
    ensures committed { HasCleanDisk (state S.Store log.new.conn)
        → OnOk result (IsPutAt S.Store i value rows.now log.old.gathered.items log.old.conn log.new.conn) }
{
    if i >= texts.len() {
        return Err(LedgerFault::Other);
    }
    let row = &rows[i];
    log.keep_text(&row.name, &snapshot_in(&value))?;
    texts[i] = Some(value);
    Ok(())
}

// The place of the first row of this name.
fn row_place(rows: &[RightsValue], name: &Name) -> Option<usize>
    ensures value { result ≡ position (is_row_of name.now) rows.now }
    ensures within { IfSome result (λ i. i < length rows.now) }
{
    rows.iter().position(|row| *name == row.name)
}

// The place of the first of this name.
fn first_of(rows: &[RightsValue], name: &Name) -> Option<usize>
    ensures value { result ≡ place_of name.now (rules_in_rows rows.now) }
    ensures within { IfSome result (λ i. i < length rows.now) }
{
    row_place(rows, name)
}

// Has the log take out what is kept under a name, if anything is, with an event that nobody killed it.
fn forget_row<S: Alter + Drop, C: Clock + Drop, W: Write + Drop>(
    log: &mut Log<S, C, W>,
    rows: &mut Vec<RightsValue>,
    texts: &mut Vec<Option<SnapshotValue>>,
    name: &Name,
) -> Result<(), LedgerFault>
    ensures rows { OnOk result (rows.new.items ≡ without (place_of name.now (rules_in_rows rows.old.items)) rows.old.items) }
    ensures texts { OnOk result (texts.new.items ≡ without (place_of name.now (rules_in_rows rows.old.items)) texts.old.items) }
    ensures gathered { OnOk result (log.new.gathered.items ≡ []) }
    ensures tally { OnOk result (log.new.tally ≡ log.old.tally) }
    ensures failed { OnErr result (KeepsTables S.Store log.old.conn log.new.conn) }
    ensures committed { HasCleanDisk (state S.Store log.new.conn)
        → OnOk result (IsForgotten S.Store name.now rows.old.items log.old.gathered.items log.old.conn log.new.conn) }
{
    match first_of(rows.as_slice(), name) {
        Some(i) => log.change(&None, rows, texts, &[Change::Remove(i)]),
        None => log.forget(name),
    }
}

// What the gate is told of a fault.
fn journal_answer(answer: Result<(), LedgerFault>) -> Result<(), JournalFault>
    ensures ok { OnOk result (answer ≡ Ok tt) }
    ensures err { OnErr result (is_err answer ≡ true) }
{
    match answer {
        Ok(()) => Ok(()),
        Err(_) => Err(JournalFault),
    }
}

impl<S: Alter + Drop, C: Clock + Drop, W: Write + Drop> Journal for Ledger<S, C, W> {
    ghost use Rattle.mgs_model.specs.Access.{is_among};
    ghost use Rattle.mgs_ledger.specs.Counting.{gathering};
    ghost use Rattle.mgs_ledger.specs.Telling.{IsDone, IsNotTaken};

    ghost rows = { λ l. l.rows.items };

    ghost texts = { λ l. l.texts.items };

    ghost taken = { λ l name. is_among name l.taken.items };

    ghost does = { λ old act new.
        IsDone S.Store act old.rows.items (gathering old.log.gathered.items old.log.tally) (gathering new.log.gathered.items new.log.tally) old.log.conn new.log.conn };

    ghost fails = { λ old new. IsNotTaken S.Store old.log.gathered.items old.log.conn new.log.conn };

    fn is_taken(&self, name: &Name) -> bool {
        has_name(self.taken.as_slice(), name)
    }

    fn rights(&self, i: usize) -> Option<Rights<'_>> {
        lent_at(self.rows.as_slice(), i)
    }

    fn birth(&self, i: usize) -> u64 {
        birth_at(self.rows.as_slice(), i)
    }

    fn place(&self, name: &Name) -> Option<usize> {
        first_of(self.rows.as_slice(), name)
    }

    // The tables have the changes, with an event of each and what was gathered, once the call returns.
    fn change(&mut self, user: Option<Name>, changes: &[Change<'_>]) -> Result<(), JournalFault> {
        journal_answer(
            self.log
                .change(&user, &mut self.rows, &mut self.texts, changes),
        )
    }

    // The tables have nothing of the buffer any more, but the event that nobody killed it, once the call returns.
    fn forget(&mut self, name: &Name) -> Result<(), JournalFault> {
        journal_answer(forget_row(&mut self.log, &mut self.rows, &mut self.texts, name))?;
        free(&mut self.taken, name);
        Ok(())
    }

    fn text(&self, i: usize) -> Option<Snapshot<'_>> {
        snapshot_at(self.texts.as_slice(), i)
    }

    fn is_text_due(&self, interval: u64) -> bool {
        self.log.is_text_due(interval)
    }

    // The tables have the text, and with it what was gathered, once the call returns.
    fn set_text(
        &mut self,
        i: usize,
        body: String,
        modified: bool,
        file: i64,
    ) -> Result<(), JournalFault> {
        let value = SnapshotValue {
            body,
            modified,
            file,
        };
        journal_answer(set_text_at(
            &mut self.log,
            self.rows.as_slice(),
            &mut self.texts,
            i,
            value,
        ))
    }

    fn tell(&mut self, told: Told) -> Result<(), JournalFault> {
        journal_answer(self.log.gather(told))
    }

    fn tick(&mut self) -> Result<(), JournalFault> {
        journal_answer(self.log.commit_due())
    }
}
