// What the events, one after another, tell of the rights of all buffers.
ghost use Rattle.std.specs.Prelude.{◌≡◌, ◌&&◌, OnOk};
ghost use Rattle.mgs_rewind.specs.Account.{account_after, accounted, begins_file, first_account, is_next, wrong_after};

use crate::row_changes::note_event;
use crate::told_rights::ToldRights;
use mgs_tables::Event;
use std::alloc::{AllocError, Global};
use std::marker::Model;

/// What the events that were noted tell of the rights of all buffers.
#[derive(Drop)]
pub struct Account {
    alloc: Global,
    rows: Vec<ToldRights>,
    last: i64,
    wrong: Option<i64>,
}

impl Model for Account {
    ghost use Rattle.mgs_rewind.specs.Account.{Account as Told};

    ghost Value = { Told };

    ghost view = { λ a. record { rows = a.rows.items; last = a.last; wrong = a.wrong } };
}

// Whether an event is the first of a file that follows another.
fn begins_file(last: i64, what: &str) -> bool
    ensures { result ≡ begins_file last what.now }
{
    last == 0 && what == "file"
}

// Whether an event has the number after that of the last event, or begins a file that follows another.
fn is_next(last: i64, what: &str, number: i64) -> bool
    ensures { result ≡ is_next last what.now number }
{
    if begins_file(last, what) {
        return true;
    }
    match last.checked_add(1) {
        Some(next) => number == next,
        None => false,
    }
}

// The number of the first wrong event, after one that follows or does not.
fn wrong_after(wrong: Option<i64>, follows: bool, number: i64) -> Option<i64>
    ensures { result ≡ wrong_after wrong follows number }
{
    match wrong {
        Some(first) => Some(first),
        None => { if follows { None } else { Some(number) } }
    }
}

impl Account {
    /// The account before the first event.
    pub fn new(alloc: Global) -> Account
        ensures { result ≡ first_account }
    {
        Account {
            alloc,
            rows: Vec::new(alloc),
            last: 0,
            wrong: None,
        }
    }

    // Notes one event.
    fn note(&mut self, event: &Event) -> Result<(), AllocError>
        ensures { OnOk result (self.new ≡ account_after self.old event.now) }
    {
        let follows = note_event(
            self.alloc,
            &mut self.rows,
            event.what.as_str(),
            event.buffer.as_bytes(),
            event.detail.as_bytes(),
        )?;
        let is_next = is_next(self.last, event.what.as_str(), event.number);
        self.wrong = wrong_after(self.wrong, is_next && follows, event.number);
        self.last = event.number;
        Ok(())
    }

    /// Notes events, in their order, which come after those that were noted.
    pub fn note_page(&mut self, events: &[Event]) -> Result<(), AllocError>
        ensures { OnOk result (self.new ≡ accounted self.old events.now) }
    {
        for event in events {
            self.note(event)?;
        }
        Ok(())
    }

    /// The rights of each buffer after the last event, in the order of creation.
    pub fn rows(&self) -> &[ToldRights]
        ensures { result.now ≡ self.now.rows }
    {
        self.rows.as_slice()
    }

    /// The number of the first event that does not follow from those before it. `None` if there is none.
    pub fn wrong(&self) -> Option<i64>
        ensures { result ≡ self.now.wrong }
    {
        self.wrong
    }
}
