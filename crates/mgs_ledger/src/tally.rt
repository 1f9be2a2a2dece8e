// How many rows each user had in a second.
ghost use Rattle.std.specs.Prelude.{◌≡◌, ◌<◌, ◌++◌, ◌∷◌, [], Some, length, position, slice_get, slice_set, vec_len, IfOk, IfSome, OnOk};
ghost use Rattle.mgs_ledger.specs.Counting.{are_of, has_all_rows, is_full, is_full_at, no_rows, one_row_more, tallied, tallied_at, user_place, users_at};

use crate::repeat::is_same_user;
use mgs_model::Name;
use std::alloc::{AllocError, Global};
use std::marker::Model;

/// How many rows one user, or nobody, has at most in a second, beside one that counts the rest.
const ROW_LIMIT: u64 = 20;

/// The rows of so many users are tallied in a second. Whoever comes after them has the row alone that counts the rest.
const TALLY_LIMIT: usize = 256;

/// The rows of a user, or of nobody, in a second.
#[derive(Clone, Copy)]
pub(crate) struct UserRows {
    user: Option<Name>,
    count: u64,
}

/// How many rows each user had in a second, committed or not. The room for that is there from the start.
#[derive(Drop)]
pub(crate) struct Tally {
    // The second, in seconds since 1970.
    at: i64,
    users: Vec<UserRows>,
}

impl Model for Tally {
    ghost use Rattle.mgs_ledger.specs.Counting.{Rows};

    ghost Value = { Rows };

    ghost view = { λ t. record { at = t.at; users = t.users.items } };
}

// The index of the rows of a user.
fn user_place(users: &[UserRows], user: &Option<Name>) -> Option<usize>
    ensures value { result ≡ user_place user.now users.now }
    ensures within { IfSome result (λ i. i < length users.now) }
{
    users.iter().position(|rows| is_same_user(user, &rows.user))
}

fn is_full_at(users: &[UserRows], place: Option<usize>) -> bool
    ensures { result ≡ is_full_at place users.now }
{
    match place {
        Some(i) => match users.get(i) {
            Some(rows) => rows.count >= ROW_LIMIT,
            None => false,
        },
        None => users.len() >= TALLY_LIMIT,
    }
}

// Adds one row to those at an index.
fn count_row(users: &mut Vec<UserRows>, i: usize)
    requires { i < vec_len users.old }
    ensures { (rows : _) → slice_get users.old.items i ≡ Some rows → users.new.items ≡ slice_set users.old.items i (one_row_more rows) }
{
    users[i].count = users[i].count.saturating_add(1);
}

// Adds the first row of a user.
fn push_user(users: &mut Vec<UserRows>, user: &Option<Name>) -> Result<(), AllocError>
    ensures { OnOk result (users.new.items ≡ users.old.items ++ record { user = user.now; count = 1 } ∷ []) }
{
    users.push(UserRows {
        user: *user,
        count: 1,
    })?;
    Ok(())
}

// Adds one row of a user.
fn add_row(users: &mut Vec<UserRows>, user: &Option<Name>) -> Result<(), AllocError>
    ensures { OnOk result (users.new.items ≡ tallied user.now users.old.items) }
{
    match user_place(users.as_slice(), user) {
        Some(i) => {
            count_row(users, i);
            Ok(())
        }
        None => push_user(users, user),
    }
}

impl Tally {
    /// The tally before the first row.
    pub(crate) fn new(alloc: Global) -> Result<Tally, AllocError>
        ensures { IfOk result (λ t. t ≡ no_rows) }
    {
        Ok(Tally {
            at: 0,
            users: Vec::with_capacity(alloc, TALLY_LIMIT)?,
        })
    }

    // The rows of users in this second: none if the tally is of another one.
    fn users_at(&self, at: i64) -> &[UserRows]
        ensures { result.now ≡ users_at at self.now }
    {
        if self.at == at {
            self.users.as_slice()
        } else {
            &[]
        }
    }

    /// Whether a user had all rows that there are for one in this second.
    pub(crate) fn has_all_rows(&self, at: i64, user: &Option<Name>) -> bool
        ensures { result ≡ has_all_rows user.now (users_at at self.now) }
    {
        let users = self.users_at(at);
        is_full_at(users, user_place(users, user))
    }

    // Begins this second, unless the tally is of it.
    fn begin(&mut self, at: i64)
        ensures { self.new ≡ record { at = at; users = users_at at self.old } }
    {
        if self.at != at {
            self.at = at;
            self.users.clear();
        }
    }

    /// Adds one row of a user in this second.
    pub(crate) fn add(&mut self, at: i64, user: &Option<Name>) -> Result<(), AllocError>
        ensures { OnOk result (self.new ≡ record { at = at; users = tallied user.now (users_at at self.old) }) }
    {
        self.begin(at);
        add_row(&mut self.users, user)
    }
}
