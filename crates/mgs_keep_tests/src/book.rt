// A journal of tests: what it is told is written down in words, and after so many calls it fails.
ghost use Rattle.std.specs.Prelude.{◌≡◌, ◌<◌, ◌∷◌, ◌++◌, [], IfSome, None, OnOk, length, position, remove};
ghost use Rattle.mgs_journal.specs.Changes.{row_changed, rows_changed, text_changed, texts_changed};
ghost use Rattle.mgs_journal.specs.Kept.{place_of};
ghost use Rattle.mgs_journal.specs.Rows.{rules_in_rows};
ghost use Rattle.mgs_ledger.specs.Keeping.{is_row_of};

use mgs_acl::List;
use mgs_buffers::Rights;
use mgs_journal::{Change, Journal, JournalFault, Snapshot, Told};
use mgs_model::{Decision, Name, Owners};
use mgs_wire::Refusal;
use std::alloc::Global;
use std::marker::Model;
use std::test::Fail;

/// What is kept of one buffer.
#[derive(Drop)]
pub(crate) struct Row {
    name: Name,
    owners: Owners,
    list: List,
    birth: u64,
}

impl Model for Row {
    ghost use Rattle.mgs_journal.specs.Rows.{KeptRights};

    ghost Value = { KeptRights };

    ghost view = { λ r. record { rules = record { name = r.name; owners = r.owners; entries = r.list }; birth = r.birth } };
}

fn row_of(rights: &Rights<'_>, birth: u64) -> Row
    ensures { result ≡ record { rules = rights.now; birth = birth } }
{
    Row {
        name: *rights.name,
        owners: *rights.owners,
        list: rights.list.copy(),
        birth,
    }
}

fn lent(row: &Row) -> Rights<'_>
    ensures { result ≡ row.now.rules }
{
    Rights {
        name: &row.name,
        owners: &row.owners,
        list: &row.list,
    }
}

// What is kept of a text.
#[derive(Drop)]
struct Page {
    body: String,
    modified: bool,
    file: i64,
}

impl Model for Page {
    ghost use Rattle.std.specs.Prelude.{string_bytes};
    ghost use Rattle.mgs_journal.specs.Texts.{KeptText};

    ghost Value = { KeptText };

    ghost view = { λ p. record { body = string_bytes p.body; modified = p.modified; file = p.file } };
}

/// The journal.
#[derive(Drop)]
pub(crate) struct Book {
    alloc: Global,
    rows: Vec<Row>,
    texts: Vec<Option<Page>>,
    words: String,
    left: usize,
    is_due: bool,
}

impl Book {
    /// One that keeps nothing yet, and fails once it took so many calls.
    pub(crate) fn new(alloc: Global, left: usize) -> Book {
        Book {
            alloc,
            rows: Vec::new(alloc),
            texts: Vec::new(alloc),
            words: String::new(alloc),
            left,
            is_due: true,
        }
    }

    /// One for which no text is ever due.
    pub(crate) fn without_texts(alloc: Global) -> Book {
        Book {
            is_due: false,
            ..Book::new(alloc, 100)
        }
    }

    /// It keeps one buffer more, and this of its text, which was not saved.
    pub(crate) fn keep(&mut self, rights: &Rights<'_>, text: Option<&str>) -> Result<(), Fail> {
        self.texts.push(match text {
            Some(text) => Some(Page {
                body: String::from_str(self.alloc, text)?,
                modified: true,
                file: 0,
            }),
            None => None,
        })?;
        self.rows.push(row_of(rights, 0))?;
        Ok(())
    }

    /// What it was told, a line each.
    pub(crate) fn words(&self) -> &str {
        self.words.as_str()
    }
}

fn word_of(name: Option<&Name>) -> &str {
    match name {
        Some(name) => str::from_utf8(name.as_bytes()).unwrap_or("?"),
        None => "-",
    }
}

// Takes one call more, if it does not fail, and writes these words down.
fn write(words: &mut String, left: &mut usize, line: &[&str]) -> Result<(), JournalFault> {
    if *left == 0 {
        return Err(JournalFault);
    }
    *left -= 1;
    for word in line {
        if words.push_str(word).is_err() {
            return Err(JournalFault);
        }
    }
    Ok(())
}

// Takes one call more, if it does not fail, and writes it down.
fn note(
    words: &mut String,
    left: &mut usize,
    user: Option<&Name>,
    what: &str,
    detail: &str,
) -> Result<(), JournalFault> {
    write(words, left, &[word_of(user), " ", what, " ", detail, "\n"])
}

// The same of a denial, with its buffer.
fn note_denial(
    words: &mut String,
    left: &mut usize,
    user: &Name,
    buffer: &Name,
    decision: &Decision,
) -> Result<(), JournalFault> {
    let user = word_of(Some(user));
    let buffer = word_of(Some(buffer));
    write(
        words,
        left,
        &[user, " is denied ", buffer, " ", right_of(decision), "\n"],
    )
}

fn right_of(decision: &Decision) -> &str {
    match decision {
        Decision::Granted => "granted",
        Decision::DeniedBy { bit, .. } => bit.name(),
        Decision::NotGranted { bit } => bit.name(),
    }
}

fn cause_of(cause: Refusal) -> &'static str {
    match cause {
        Refusal::Line => "line",
        Refusal::NoUser => "no user",
        Refusal::Ticket => "ticket",
        Refusal::Size => "size",
        Refusal::Full => "full",
        Refusal::Short => "short",
    }
}

// The place of the first row of this name.
fn row_place(rows: &[Row], name: &Name) -> Option<usize>
    ensures value { result ≡ position (is_row_of name.now) rows.now }
    ensures within { IfSome result (λ i. i < length rows.now) }
{
    rows.iter().position(|row| *name == row.name)
}

// The place of the first of this name.
fn first_of(rows: &[Row], name: &Name) -> Option<usize>
    ensures value { result ≡ place_of name.now (rules_in_rows rows.now) }
    ensures within { IfSome result (λ i. i < length rows.now) }
{
    row_place(rows, name)
}

// The page of a text, lent.
fn snapshot_of(page: &Page) -> Snapshot<'_>
    ensures { result ≡ page.now }
{
    Snapshot {
        body: page.body.as_str(),
        modified: page.modified,
        file: page.file,
    }
}

// Adds a buffer as the last.
fn add(
    rows: &mut Vec<Row>,
    texts: &mut Vec<Option<Page>>,
    words: &mut String,
    left: &mut usize,
    user: Option<&Name>,
    row: Row,
) -> Result<(), JournalFault>
    ensures rows { OnOk result (rows.new.items ≡ rows.old.items ++ row ∷ []) }
    ensures texts { OnOk result (texts.new.items ≡ texts.old.items ++ None ∷ []) }
{
    note(words, left, user, "makes", word_of(Some(&row.name)))?;
    if texts.push(None).is_err() || rows.push(row).is_err() {
        return Err(JournalFault);
    }
    Ok(())
}

// Takes out the buffer at an index, and its text.
fn kill(
    rows: &mut Vec<Row>,
    texts: &mut Vec<Option<Page>>,
    words: &mut String,
    left: &mut usize,
    user: Option<&Name>,
    i: usize,
) -> Result<(), JournalFault>
    ensures rows { OnOk result (rows.new.items ≡ remove rows.old.items i) }
    ensures texts { OnOk result (texts.new.items ≡ remove texts.old.items i) }
{
    if i >= texts.len() || i >= rows.len() {
        return Err(JournalFault);
    }
    let _ = texts.remove(i);
    let gone = rows.remove(i);
    note(words, left, user, "kills", word_of(Some(&gone.name)))
}

// Makes one change.
fn make(
    rows: &mut Vec<Row>,
    texts: &mut Vec<Option<Page>>,
    words: &mut String,
    left: &mut usize,
    user: Option<&Name>,
    change: &Change<'_>,
) -> Result<(), JournalFault>
    ensures rows { OnOk result (rows.new.items ≡ row_changed change.now rows.old.items) }
    ensures texts { OnOk result (texts.new.items ≡ text_changed change.now texts.old.items) }
{
    match change {
        Change::Add(rights, birth) => add(rows, texts, words, left, user, row_of(rights, *birth)),
        Change::Set(i, rights) => {
            if *i >= rows.len() {
                return Err(JournalFault);
            }
            note(words, left, user, "changes", word_of(Some(rights.name)))?;
            rows[*i] = row_of(rights, rows[*i].birth);
            Ok(())
        }
        Change::Remove(i) => kill(rows, texts, words, left, user, *i),
    }
}

// Makes these changes, one after another.
fn make_all(
    rows: &mut Vec<Row>,
    texts: &mut Vec<Option<Page>>,
    words: &mut String,
    left: &mut usize,
    user: Option<&Name>,
    changes: &[Change<'_>],
) -> Result<(), JournalFault>
    ensures rows { OnOk result (rows.new.items ≡ rows_changed changes.now rows.old.items) }
    ensures texts { OnOk result (texts.new.items ≡ texts_changed changes.now texts.old.items) }
{
    for change in changes {
        make(rows, texts, words, left, user, change)?;
    }
    Ok(())
}

impl Journal for Book {
    ghost rows = { λ b. b.rows.items };

    ghost texts = { λ b. b.texts.items };

    ghost taken = { λ b name. false };

    ghost does = { λ old act new. Unit {0} };

    ghost fails = { λ old new. Unit {0} };

    ghost use Rattle.std.specs.Prelude.{false};

    fn rights(&self, i: usize) -> Option<Rights<'_>> {
        if i < self.rows.len() {
            Some(lent(&self.rows[i]))
        } else {
            None
        }
    }

    fn birth(&self, i: usize) -> u64 {
        if i < self.rows.len() {
            self.rows[i].birth
        } else {
            0
        }
    }

    fn place(&self, name: &Name) -> Option<usize> {
        first_of(self.rows.as_slice(), name)
    }

    fn text(&self, i: usize) -> Option<Snapshot<'_>> {
        if i >= self.texts.len() {
            return None;
        }
        match &self.texts[i] {
            Some(page) => Some(snapshot_of(page)),
            None => None,
        }
    }

    fn is_text_due(&self, _interval: u64) -> bool {
        self.is_due
    }

    fn is_taken(&self, _name: &Name) -> bool {
        false
    }

    fn change(&mut self, user: Option<Name>, changes: &[Change<'_>]) -> Result<(), JournalFault> {
        make_all(
            &mut self.rows,
            &mut self.texts,
            &mut self.words,
            &mut self.left,
            user.as_ref(),
            changes,
        )
    }

    fn forget(&mut self, name: &Name) -> Result<(), JournalFault> {
        match first_of(self.rows.as_slice(), name) {
            Some(i) => kill(
                &mut self.rows,
                &mut self.texts,
                &mut self.words,
                &mut self.left,
                None,
                i,
            ),
            None => note(
                &mut self.words,
                &mut self.left,
                None,
                "forgets",
                word_of(Some(name)),
            ),
        }
    }

    fn set_text(
        &mut self,
        i: usize,
        body: String,
        modified: bool,
        file: i64,
    ) -> Result<(), JournalFault> {
        if i >= self.texts.len() {
            return Err(JournalFault);
        }
        note(
            &mut self.words,
            &mut self.left,
            Some(&self.rows[i].name),
            if modified {
                "is edited"
            } else {
                "is as its file"
            },
            body.as_str(),
        )?;
        self.texts[i] = Some(Page {
            body,
            modified,
            file,
        });
        Ok(())
    }

    fn tell(&mut self, told: Told) -> Result<(), JournalFault> {
        let words = &mut self.words;
        let left = &mut self.left;
        match told {
            Told::Came(user) => note(words, left, Some(&user), "comes", ""),
            Told::Refused(user, cause) => {
                note(words, left, Some(&user), "is refused", cause_of(cause))
            }
            Told::RefusedUnnamed(cause) => note(words, left, None, "is refused", cause_of(cause)),
            Told::Quit(user) => note(words, left, Some(&user), "quits", ""),
            Told::Closed(user) => note(words, left, Some(&user), "is closed", ""),
            Told::FellBehind(user) => note(words, left, Some(&user), "falls behind", ""),
            Told::Denied(user, buffer, decision) => {
                note_denial(words, left, &user, &buffer, &decision)
            }
            Told::Saved(user, buffer) => {
                note(words, left, Some(&user), "saves", word_of(Some(&buffer)))
            }
            Told::Crowded(user) => note(words, left, Some(&user), "does more", ""),
        }
    }

    fn tick(&mut self) -> Result<(), JournalFault> {
        Ok(())
    }
}
