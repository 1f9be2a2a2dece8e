// What happened, as it is told, gathered and committed.
ghost use Rattle.std.specs.Prelude.{◌≡◌, ℤ, [], None, OnOk, OnErr, IfOk, map, length, nat_lt};
ghost use Rattle.sqlite.specs.State.{HasCleanDisk};
ghost use Rattle.sqlite.specs.Held.{state};
ghost use Rattle.mgs_journal.specs.Changes.{rows_changed, texts_changed};
ghost use Rattle.mgs_tables.specs.Changes.{RanChanges};
ghost use Rattle.mgs_ledger.specs.Counting.{gathering, no_rows};
ghost use Rattle.mgs_ledger.specs.Keeping.{kill_events, planned_statement, word_values};
ghost use Rattle.mgs_ledger.specs.NewFile.{IsRenewed, IsSettled};
ghost use Rattle.mgs_ledger.specs.Reading.{HasNewest};
ghost use Rattle.mgs_ledger.specs.Snapshots.{IsTextPut};
ghost use Rattle.mgs_ledger.specs.Telling.{made_room, AreCommitted, IsAltered, IsCommitted, IsGathered, IsNotTaken, IsTicked, MakesRoom};
ghost use Rattle.mgs_ledger.specs.Refused.{KeepsTables};

use crate::batch::{Gathered, Words, all_words, put_all};
use crate::event_line::print_line;
use crate::gathering::gather;
use crate::ledger_fault::LedgerFault;
use crate::new_file::{FirstWords, filled_tables};
use crate::planned::{PlannedRow, plan_all, push_kill};
use crate::snapshot::SnapshotValue;
use crate::stored_texts::keep_text;
use crate::tally::Tally;
use crate::value::RightsValue;
use mgs_journal::{Change, Room, Snapshot, Told};
use mgs_model::Name;
use mgs_tables::{EventRow, newest};
use sqlite::{Alter, Connection};
use std::alloc::Global;
use std::io::Write;
use std::mem;
use std::time::Clock;

/// How many events are gathered at most before they are committed.
pub const GATHER_LIMIT: usize = 256;

// The memory that is set aside for a commit, in bytes: a text has 4 MB at most, of which SQLite makes a copy and a row, beside its pages.
const ROOM: usize = 16_777_216;

/// What happened: the tables and the writer of lines that are told of it, and what is gathered for them.
#[derive(Drop)]
pub(crate) struct Log<S: Alter + Drop, C: Clock + Drop, W: Write + Drop> {
    conn: Connection<S>,
    alloc: Global,
    clock: C,
    out: W,
    // The number of the newest event in the tables.
    number: i64,
    // The second in which a text was kept last.
    text_second: i64,
    // What is not committed yet, `GATHER_LIMIT` at most. The room for that is there from the start.
    gathered: Vec<Gathered>,
    // How many rows each user had in the second of the last event.
    tally: Tally,
    // The memory that a commit may need.
    room: Room,
}

/// The time, in seconds since 1970.
fn seconds<C: Clock>(clock: &C) -> Result<i64, LedgerFault> {
    let Ok(now) = clock.since_1970() else {
        return Err(LedgerFault::Clock);
    };
    match i64::try_from(now.as_secs()) {
        Ok(seconds) => Ok(seconds),
        Err(_) => Err(LedgerFault::Clock),
    }
}

// Writes the line of an event that is committed, and says its number.
fn print_one<W: Write>(out: &mut W, alloc: Global, newest: i64, event: &EventRow<'_>) -> i64 {
    let number = newest.saturating_add(1);
    print_line(out, alloc, number, event);
    number
}

// Writes the lines of events that are committed, and says the number of the last.
fn print_all<W: Write>(out: &mut W, alloc: Global, mut number: i64, all: &[Words]) -> i64 {
    for words in all {
        number = print_one(out, alloc, number, &words.row());
    }
    number
}

impl<S: Alter + Drop, C: Clock + Drop, W: Write + Drop> Log<S, C, W> {
    /// A log over tables. It fails where they fail, and for want of memory.
    pub(crate) fn new(
        mut conn: Connection<S>,
        alloc: Global,
        clock: C,
        out: W,
    ) -> Result<Log<S, C, W>, LedgerFault>
        ensures newest { IfOk result (λ log. HasNewest S.Store conn log.conn) }
        ensures begins { IfOk result (λ log. gathering log.gathered.items log.tally ≡ gathering [] no_rows) }
    {
        let number = newest(&mut conn)?;
        let gathered = Vec::with_capacity(alloc, GATHER_LIMIT)?;
        let tally = Tally::new(alloc)?;
        let room = Room::new(alloc, ROOM)?;
        Ok(Log {
            conn,
            alloc,
            clock,
            out,
            number,
            text_second: 0,
            gathered,
            tally,
            room,
        })
    }

    // Makes these changes of rows and adds these events, all of that or nothing. What was gathered is among the events.
    fn put(&mut self, planned: &[PlannedRow], events: &[Words]) -> Result<(), LedgerFault>
        ensures gathered { OnOk result (self.new.gathered.items ≡ []) }
        ensures tally { OnOk result (self.new.tally ≡ self.old.tally) }
        ensures committed { HasCleanDisk (state S.Store self.new.conn)
            → OnOk result (RanChanges S.Store (map planned_statement planned.now) (map word_values events.now) self.old.conn (state S.Store self.new.conn).committed) }
        ensures failed { OnErr result (KeepsTables S.Store self.old.conn self.new.conn) }
    {
        self.room.lend();
        put_all(&mut self.conn, self.alloc, planned, events)?;
        self.room.take_back();
        self.gathered.clear();
        self.number = print_all(&mut self.out, self.alloc, self.number, events);
        Ok(())
    }

    /// Commits all that is gathered.
    pub(crate) fn commit(&mut self) -> Result<(), LedgerFault>
        ensures gathered { OnOk result (self.new.gathered.items ≡ []) }
        ensures tally { OnOk result (self.new.tally ≡ self.old.tally) }
        ensures committed { HasCleanDisk (state S.Store self.new.conn)
            → OnOk result (AreCommitted S.Store self.old.gathered.items self.old.conn self.new.conn) }
        ensures failed { OnErr result (KeepsTables S.Store self.old.conn self.new.conn) }
    {
        let events = all_words(self.alloc, self.gathered.as_slice())?;
        self.put(&[], events.as_slice())
    }

    /// Commits all that is gathered, and gives the connection back.
    pub(crate) fn close(mut self) -> Result<Connection<S>, LedgerFault>
        ensures { IfOk result (λ conn. HasCleanDisk (state S.Store conn) → AreCommitted S.Store self.gathered.items self.conn conn) }
    {
        self.commit()?;
        let Log {
            conn,
            alloc: _,
            clock: _,
            out: _,
            number: _,
            text_second: _,
            gathered: _,
            tally: _,
            room: _,
        } = self;
        Ok(conn)
    }

    // Commits all that is gathered, if there is no room for one more.
    fn make_room(&mut self) -> Result<(), LedgerFault>
        ensures gathered { OnOk result (self.new.gathered.items ≡ made_room self.old.gathered.items) }
        ensures tally { OnOk result (self.new.tally ≡ self.old.tally) }
        ensures committed { OnOk result (MakesRoom S.Store (nat_lt (length self.old.gathered.items) 256) self.old.gathered.items self.old.conn self.new.conn) }
        ensures failed { OnErr result (KeepsTables S.Store self.old.conn self.new.conn) }
    {
        if self.gathered.len() < GATHER_LIMIT {
            return Ok(());
        }
        self.commit()
    }

    /// Gathers what is told.
    pub(crate) fn gather(&mut self, told: Told) -> Result<(), LedgerFault>
        ensures gathered { OnOk result (IsGathered told (gathering (made_room self.old.gathered.items) self.old.tally) (gathering self.new.gathered.items self.new.tally)) }
        ensures committed { OnOk result (MakesRoom S.Store (nat_lt (length self.old.gathered.items) 256) self.old.gathered.items self.old.conn self.new.conn) }
        ensures failed { OnErr result (IsNotTaken S.Store self.old.gathered.items self.old.conn self.new.conn) }
    {
        self.make_room()?;
        let at = seconds(&self.clock)?;
        gather(&mut self.gathered, &mut self.tally, at, &told)
    }

    /// Commits all that is gathered, if the second is over in which the first of it was told.
    pub(crate) fn commit_due(&mut self) -> Result<(), LedgerFault>
        ensures done { OnOk result (IsTicked S.Store (gathering self.old.gathered.items self.old.tally) (gathering self.new.gathered.items self.new.tally) self.old.conn self.new.conn) }
        ensures failed { OnErr result (KeepsTables S.Store self.old.conn self.new.conn) }
    {
        if self.gathered.is_empty() {
            return Ok(());
        }
        let oldest = self.gathered[0].at;
        if seconds(&self.clock)? == oldest {
            return Ok(());
        }
        self.commit()
    }

    /// Makes changes of the rows and texts, and commits them with the events that tell of them, after what was gathered, in one transaction.
    pub(crate) fn change(
        &mut self,
        user: &Option<Name>,
        rows: &mut Vec<RightsValue>,
        texts: &mut Vec<Option<SnapshotValue>>,
        changes: &[Change<'_>],
    ) -> Result<(), LedgerFault>
        ensures rows { OnOk result (rows.new.items ≡ rows_changed changes.now rows.old.items) }
        ensures texts { OnOk result (texts.new.items ≡ texts_changed changes.now texts.old.items) }
        ensures gathered { OnOk result (self.new.gathered.items ≡ []) }
        ensures tally { OnOk result (self.new.tally ≡ self.old.tally) }
        ensures committed { HasCleanDisk (state S.Store self.new.conn)
            → OnOk result (IsAltered S.Store user.now changes.now rows.old.items self.old.gathered.items self.old.conn self.new.conn) }
        ensures failed { OnErr result (KeepsTables S.Store self.old.conn self.new.conn) }
    {
        let at = seconds(&self.clock)?;
        let mut events = all_words(self.alloc, self.gathered.as_slice())?;
        let mut planned = Vec::new(self.alloc);
        plan_all(
            self.alloc,
            &mut planned,
            &mut events,
            at,
            user,
            rows,
            texts,
            changes,
        )?;
        self.put(planned.as_slice(), events.as_slice())
    }

    /// A name is free again, of which there is no row: commits an event that nobody killed it, after what was gathered.
    pub(crate) fn forget(&mut self, name: &Name) -> Result<(), LedgerFault>
        ensures gathered { OnOk result (self.new.gathered.items ≡ []) }
        ensures tally { OnOk result (self.new.tally ≡ self.old.tally) }
        ensures committed { HasCleanDisk (state S.Store self.new.conn)
            → OnOk result ((at : ℤ) × IsCommitted S.Store [] self.old.gathered.items (kill_events at None name.now) self.old.conn self.new.conn) }
        ensures failed { OnErr result (KeepsTables S.Store self.old.conn self.new.conn) }
    {
        let at = seconds(&self.clock)?;
        let mut events = all_words(self.alloc, self.gathered.as_slice())?;
        push_kill(self.alloc, &mut events, at, &None, name)?;
        self.put(&[], events.as_slice())
    }

    // Commits all that is gathered. Returns the number of the newest event.
    fn settle(&mut self) -> Result<i64, LedgerFault>
        ensures gathered { OnOk result (self.new.gathered.items ≡ []) }
        ensures settled { IfOk result (λ last. IsSettled S.Store self.old.gathered.items self.old.conn self.new.conn last) }
    {
        self.commit()?;
        let last = newest(&mut self.conn)?;
        Ok(last)
    }

    // Goes on with tables that were filled, and writes the lines of their events. Returns the connection before.
    fn go_on(&mut self, conn: Connection<S>, last: i64, words: &FirstWords) -> Connection<S>
        ensures gathered { self.new.gathered.items ≡ self.old.gathered.items }
        ensures before { result ≡ self.old.conn }
        ensures conn { self.new.conn ≡ conn }
    {
        let before = mem::replace(&mut self.conn, conn);
        let number = print_one(&mut self.out, self.alloc, last, &words.first.row());
        self.number = print_all(&mut self.out, self.alloc, number, words.others.as_slice());
        before
    }

    /// Commits all that is gathered, fills the fresh tables of another connection with all that is kept, as the file of this number, and goes
    /// on with that connection. Returns the one before. `None` if the fresh tables could not be filled: it goes on with the connection that
    /// it has.
    pub(crate) fn renew(
        &mut self,
        conn: Connection<S>,
        file: u64,
        rows: &[RightsValue],
        texts: &[Option<SnapshotValue>],
        taken: &[Name],
    ) -> Result<Option<Connection<S>>, LedgerFault>
        ensures gathered { OnOk result (self.new.gathered.items ≡ []) }
        ensures renewed { IfOk result (λ before. IsRenewed S.Store file rows.now texts.now taken.now self.old.gathered.items self.old.conn conn before self.new.conn) }
    {
        let last = self.settle()?;
        let at = seconds(&self.clock)?;
        self.room.lend();
        let filled = filled_tables(conn, self.alloc, at, last, file, rows, texts, taken);
        self.room.take_back();
        match filled {
            Ok((conn, words)) => Ok(Some(self.go_on(conn, last, &words))),
            Err(_) => Ok(None),
        }
    }

    /// Whether `interval` seconds are over since a text was kept last, or the clock was set back by so many. If it cannot be read, they are.
    pub(crate) fn is_text_due(&self, interval: u64) -> bool {
        match seconds(&self.clock) {
            Ok(now) => now.abs_diff(self.text_second) >= interval,
            Err(_) => true,
        }
    }

    /// A buffer has this text: commits that with all that is gathered, in one transaction.
    pub(crate) fn keep_text(&mut self, name: &Name, text: &Snapshot<'_>) -> Result<(), LedgerFault>
        ensures gathered { OnOk result (self.new.gathered.items ≡ []) }
        ensures tally { OnOk result (self.new.tally ≡ self.old.tally) }
        ensures committed { HasCleanDisk (state S.Store self.new.conn)
            → OnOk result (IsTextPut S.Store name.now text.now self.old.gathered.items self.old.conn self.new.conn) }
        ensures failed { OnErr result (KeepsTables S.Store self.old.conn self.new.conn) }
    {
        let all = all_words(self.alloc, self.gathered.as_slice())?;
        self.text_second = seconds(&self.clock)?;
        self.room.lend();
        keep_text(&mut self.conn, self.alloc, name, text, all.as_slice())?;
        self.room.take_back();
        self.gathered.clear();
        self.number = print_all(&mut self.out, self.alloc, self.number, all.as_slice());
        Ok(())
    }
}
