// What a session looks for: an incremental search, or a query-replace.
ghost use Rattle.std.specs.Prelude.{◌≡◌, ◌+◌, ◌<◌, ◌≤◌, ◌^◌, length};
ghost use Rattle.mgs_model.specs.Acts.{counted};
ghost use Rattle.mgs_session.specs.Seeking.{moved, replacing_begun, search_begun, search_edited};

use crate::search_string::SearchString;
use mgs_model::{Direction, Name};
use mgs_search::IncrementalSearch;
use std::marker::Model;

/// An edit of a text of `size` characters: `added` characters come in the place of those from `from` up to `to`.
#[derive(Clone, Copy)]
pub struct Edited {
    /// How many characters the text had.
    pub size: usize,
    /// Where what was taken out begins.
    pub from: usize,
    /// Where it ends.
    pub to: usize,
    /// How many characters came in.
    pub added: usize,
}

/// A query-replace: the text that is replaced, at least one character of it, the text that comes in its place, and how often it did.
/// The largest count stands for all that are larger.
#[derive(Drop)]
pub struct Replacing {
    pattern: SearchString,
    put: SearchString,
    count: usize,
}

impl Model for Replacing {
    ghost use Rattle.std.specs.Prelude.{◌<◌, length};
    ghost use Rattle.mgs_session.specs.Replacing.{Replacing};

    ghost Value = { Replacing };

    ghost view = { λ r. record { pattern = r.pattern; put = r.put; count = r.count } };

    ghost invariant = { λ r. 0 < length r.pattern };
}

impl Replacing {
    /// One in which nothing was replaced yet.
    pub fn new(pattern: SearchString, put: SearchString) -> Replacing
        requires { 0 < length pattern }
        ensures { result ≡ record { pattern = pattern; put = put; count = 0 } }
    {
        Replacing {
            pattern,
            put,
            count: 0,
        }
    }

    /// What is replaced: 1 to 120 characters.
    pub fn pattern(&self) -> &[char]
        ensures value { result.now ≡ self.now.pattern }
        ensures within { length result.now ≤ 120 }
        ensures some { 0 < length self.now.pattern }
    {
        self.pattern.as_slice()
    }

    /// What comes in its place, at most 120 characters.
    pub fn put(&self) -> &[char]
        ensures value { result.now ≡ self.now.put }
        ensures within { length result.now ≤ 120 }
    {
        self.put.as_slice()
    }

    /// How often it was replaced.
    pub fn count(&self) -> usize
        ensures value { result ≡ self.now.count }
        ensures small { result < 2 ^ 64 }
    {
        self.count
    }

    /// One more was replaced.
    pub fn count_one(&mut self)
        ensures { self.new ≡ record self.old { count = counted self.old.count 1 } }
    {
        self.count = self.count.saturating_add(1);
    }
}

/// What a search is for.
#[derive(Drop)]
pub enum Aim {
    /// What is typed is found while it is typed.
    Find(IncrementalSearch),
    /// Matches are replaced, one by one or all.
    Replace(Replacing),
}

/// A search that goes on. A position past the text's end stands for the end.
#[derive(Drop)]
pub struct Search {
    /// The buffer that it is in.
    pub name: Name,
    /// Where it began.
    pub origin: usize,
    /// Where it looks from: where the last match begins, and at first the origin.
    pub anchor: usize,
    /// What it is for.
    pub aim: Aim,
}

impl Search {
    /// An incremental search for nothing yet.
    pub fn new(name: Name, place: usize, direction: Direction) -> Search
        ensures { result ≡ search_begun name place direction }
    {
        Search {
            name,
            origin: place,
            anchor: place,
            aim: Aim::Find(IncrementalSearch::new(direction)),
        }
    }

    /// A query-replace that begins at a place, with the first match at `anchor`.
    pub fn replacing(name: Name, place: usize, anchor: usize, replacing: Replacing) -> Search
        ensures { result ≡ replacing_begun name place anchor replacing }
    {
        Search {
            name,
            origin: place,
            anchor,
            aim: Aim::Replace(replacing),
        }
    }

    /// Its positions go by an edit of the buffer of this name.
    pub fn follow(&mut self, name: &Name, edit: &Edited)
        requires order { edit.now.from ≤ edit.now.to }
        requires fits { edit.now.size + edit.now.added < 2 ^ 64 }
        ensures { self.new ≡ search_edited name.now edit.now self.old }
    {
        if *name == self.name {
            self.origin = shifted(self.origin, edit);
            self.anchor = shifted(self.anchor, edit);
        }
    }
}

// Where a position goes.
fn shifted(position: usize, edit: &Edited) -> usize
    requires order { edit.now.from ≤ edit.now.to }
    requires fits { edit.now.size + edit.now.added < 2 ^ 64 }
    ensures { result ≡ moved edit.now position }
{
    let position = position.min(edit.size);
    if position <= edit.from {
        position
    } else if position < edit.to {
        edit.from
    } else {
        position - (edit.to - edit.from) + edit.added
    }
}
