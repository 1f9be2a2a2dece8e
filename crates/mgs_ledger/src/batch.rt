// What is gathered before it is committed.
ghost use Rattle.std.specs.Prelude.{◌≡◌, map, string_bytes, IfOk, OnErr, OnOk};
ghost use Rattle.sqlite.specs.State.{HasCleanDisk};
ghost use Rattle.sqlite.specs.Held.{state};
ghost use Rattle.mgs_ledger.specs.Refused.{KeepsTables};
ghost use Rattle.mgs_tables.specs.Changes.{RanChanges};
ghost use Rattle.mgs_tables.specs.Rows.{event_values};
ghost use Rattle.mgs_ledger.specs.Gathering.{decision_detail, kind_buffer, kind_detail, kind_user, kind_what, refusal_word, told_buffer, told_detail, told_row, told_user, told_what};
ghost use Rattle.mgs_ledger.specs.Keeping.{planned_statement, word_values};
ghost use Rattle.mgs_ledger.specs.declared.batch.EventKind.TheVariants.{One};

use crate::ledger_fault::LedgerFault;
use crate::planned::{PlannedRow, lent_rows};
use crate::rights_spelling::text_or_empty;
use mgs_journal::Told;
use mgs_model::{Decision, Name};
use mgs_tables::{EventRow, put_changes};
use mgs_wire::Refusal;
use sqlite::{Alter, Connection};
use std::alloc::{AllocError, Global};

/// What an event that is gathered tells.
#[derive(Clone, Copy)]
pub(crate) enum EventKind {
    /// What was told.
    One(Told),
    /// What was told of this user, or of nobody, past the limit of rows a second.
    More(Option<Name>),
}

/// An event that is gathered. It is a row of its own once it is committed.
#[derive(Clone, Copy)]
pub(crate) struct Gathered {
    /// The time, in seconds since 1970.
    pub(crate) at: i64,
    pub(crate) kind: EventKind,
    /// How many times it was told in this second: 1 and up.
    pub(crate) count: u64,
}

/// What the row of an event is made of.
#[derive(Drop)]
pub(crate) struct Words {
    pub(crate) at: i64,
    pub(crate) user: Option<Name>,
    pub(crate) what: &'static str,
    pub(crate) buffer: Option<Name>,
    pub(crate) detail: String,
}

impl Words {
    /// The row, lent.
    pub(crate) fn row(&self) -> EventRow<'_>
        ensures { event_values result ≡ word_values self.now }
    {
        EventRow {
            at: self.at,
            user: text_or_empty(&self.user),
            what: self.what,
            buffer: text_or_empty(&self.buffer),
            detail: self.detail.as_str(),
        }
    }
}

fn decision_detail(alloc: Global, decision: Decision) -> Result<String, AllocError>
    ensures { IfOk result (λ text. string_bytes text ≡ decision_detail decision) }
{
    match decision {
        Decision::Granted => Ok(String::new(alloc)),
        Decision::DeniedBy { entry, bit } => {
            let right = bit.name();
            format!(in alloc; "{right} entry {entry}")
        }
        Decision::NotGranted { bit } => {
            let right = bit.name();
            format!(in alloc; "{right} no entry")
        }
    }
}

fn refusal_word(cause: Refusal) -> &'static str
    ensures { result.now ≡ refusal_word cause }
{
    match cause {
        Refusal::Line => "no login line",
        Refusal::NoUser => "no user",
        Refusal::Ticket => "ticket",
        Refusal::Size => "size",
        Refusal::Full => "full",
        Refusal::Short => "no memory",
    }
}

fn told_detail(alloc: Global, told: Told) -> Result<String, AllocError>
    ensures { IfOk result (λ text. string_bytes text ≡ told_detail told) }
{
    match told {
        Told::Came(_) | Told::Saved(_, _) => Ok(String::new(alloc)),
        Told::Refused(_, cause) | Told::RefusedUnnamed(cause) => String::from_str(
            alloc,
            refusal_word(cause),
        ),
        Told::Quit(_) => String::from_str(alloc, "quit"),
        Told::Closed(_) => String::from_str(alloc, "closed"),
        Told::FellBehind(_) => String::from_str(alloc, "slow"),
        Told::Denied(_, _, decision) => decision_detail(alloc, decision),
        Told::Crowded(_) => String::from_str(alloc, "over 256 acts of one key"),
    }
}

fn told_what(told: Told) -> &'static str
    ensures { result.now ≡ told_what told }
{
    match told {
        Told::Came(_) => "login",
        Told::Refused(_, _) | Told::RefusedUnnamed(_) => "refused",
        Told::Quit(_) | Told::Closed(_) | Told::FellBehind(_) => "end",
        Told::Denied(_, _, _) => "denied",
        Told::Saved(_, _) => "save",
        Told::Crowded(_) => "more",
    }
}

/// The user of whom it is told, if there is one.
pub(crate) fn told_user(told: Told) -> Option<Name>
    ensures { result ≡ told_user told }
{
    match told {
        Told::Came(user) => Some(user),
        Told::Refused(user, _) => Some(user),
        Told::RefusedUnnamed(_) => None,
        Told::Quit(user) => Some(user),
        Told::Closed(user) => Some(user),
        Told::FellBehind(user) => Some(user),
        Told::Denied(user, _, _) => Some(user),
        Told::Saved(user, _) => Some(user),
        Told::Crowded(user) => Some(user),
    }
}

fn told_buffer(told: Told) -> Option<Name>
    ensures { result ≡ told_buffer told }
{
    match told {
        Told::Denied(_, buffer, _) => Some(buffer),
        Told::Saved(_, buffer) => Some(buffer),
        _ => None,
    }
}

// The detail of what was told so many times.
fn counted_detail(alloc: Global, told: Told, count: u64) -> Result<String, AllocError>
    ensures { IfOk result (λ text. string_bytes text ≡ kind_detail (One told) count) }
{
    let mut detail = told_detail(alloc, told)?;
    if count > 1 {
        write!(detail, " x {count}")?;
    }
    Ok(detail)
}

fn kind_detail(alloc: Global, kind: EventKind, count: u64) -> Result<String, AllocError>
    ensures { IfOk result (λ text. string_bytes text ≡ kind_detail kind count) }
{
    match kind {
        EventKind::One(told) => counted_detail(alloc, told, count),
        EventKind::More(_) => format!(in alloc; "{count} events"),
    }
}

fn kind_what(kind: EventKind) -> &'static str
    ensures { result.now ≡ kind_what kind }
{
    match kind {
        EventKind::One(told) => told_what(told),
        EventKind::More(_) => "more",
    }
}

fn kind_user(kind: EventKind) -> Option<Name>
    ensures { result ≡ kind_user kind }
{
    match kind {
        EventKind::One(told) => told_user(told),
        EventKind::More(user) => user,
    }
}

fn kind_buffer(kind: EventKind) -> Option<Name>
    ensures { result ≡ kind_buffer kind }
{
    match kind {
        EventKind::One(told) => told_buffer(told),
        EventKind::More(_) => None,
    }
}

fn words_of(alloc: Global, gathered: &Gathered) -> Result<Words, AllocError>
    ensures { IfOk result (λ words. word_values words ≡ told_row gathered.now) }
{
    Ok(Words {
        at: gathered.at,
        user: kind_user(gathered.kind),
        what: kind_what(gathered.kind),
        buffer: kind_buffer(gathered.kind),
        detail: kind_detail(alloc, gathered.kind, gathered.count)?,
    })
}

/// What the rows of the events are made of.
pub(crate) fn all_words(alloc: Global, gathered: &[Gathered]) -> Result<Vec<Words>, LedgerFault>
    ensures { IfOk result (λ all. map word_values all.items ≡ map told_row gathered.now) }
{
    let mut all = Vec::with_capacity(alloc, gathered.len())?;
    for event in gathered {
        all.push(words_of(alloc, event)?)?;
    }
    Ok(all)
}

/// The rows of the events, lent.
pub(crate) fn rows_of(alloc: Global, all: &[Words]) -> Result<Vec<EventRow<'_>>, LedgerFault>
    ensures { IfOk result (λ rows. map event_values rows.items ≡ map word_values all.now) }
{
    let mut rows = Vec::with_capacity(alloc, all.len())?;
    for words in all {
        rows.push(words.row())?;
    }
    Ok(rows)
}

/// Makes the changes of rows and adds the events, all of that or nothing.
pub(crate) fn put_all<S: Alter>(
    conn: &mut Connection<S>,
    alloc: Global,
    planned: &[PlannedRow],
    all: &[Words],
) -> Result<(), LedgerFault>
    ensures done { HasCleanDisk (state S.Store conn.new)
        → OnOk result (RanChanges S.Store (map planned_statement planned.now) (map word_values all.now) conn.old (state S.Store conn.new).committed) }
    ensures failed { OnErr result (KeepsTables S.Store conn.old conn.new) }
{
    let changes = lent_rows(alloc, planned)?;
    let rows = rows_of(alloc, all)?;
    put_changes(conn, changes.as_slice(), rows.as_slice())?;
    Ok(())
}
