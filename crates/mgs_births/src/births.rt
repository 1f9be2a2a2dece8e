// The register of the buffers that were made since the server began.
ghost use Rattle.std.specs.Prelude.{◌≡◌, ◌<◌, find, length, vec_capacity, IfSome};
ghost use Rattle.std.specs.List.{position};
ghost use Rattle.std.specs.Option.{option_map};
ghost use Rattle.mgs_births.specs.Births.{is_birth_of, without_birth};

use crate::birth::Birth;
use mgs_model::{BUFFER_LIMIT, Name};
use std::alloc::{AllocError, Global};
use std::marker::Model;

/// The buffers that were made since the server began and still exist, each with its number, in the order of creation.
///
/// Its room is made at the start: recording takes no memory.
#[derive(Drop)]
pub struct Births {
    births: Vec<Birth>,
    next: u64,
}

impl Model for Births {
    ghost use Rattle.std.specs.Prelude.{◌≡◌, vec_capacity};
    ghost use Rattle.mgs_model.specs.declared.limits.TheConstants.{BUFFER_LIMIT};
    ghost use Rattle.mgs_births.specs.Births as register;

    ghost Value = { register.Births };

    ghost view = { λ b. record { all = b.births.items; next = b.next } };

    ghost invariant = { λ b. vec_capacity b.births ≡ BUFFER_LIMIT };
}

// The birth of the buffer of a name, if it was recorded.
fn find_birth<'a>(births: &'a [Birth], name: &Name) -> Option<&'a Birth>
    ensures { option_map (λ b. b.now) result ≡ find (is_birth_of name.now) births.now }
{
    births.iter().find(|birth| *name == birth.name)
}

// The index of the birth of the buffer of a name, if it was recorded.
fn index_of(births: &[Birth], name: &Name) -> Option<usize>
    ensures value { result ≡ position (is_birth_of name.now) births.now }
    ensures within { IfSome result (λ at. at < length births.now) }
{
    births.iter().position(|birth| *name == birth.name)
}

// Removes the birth of the buffer of a name, if it was recorded.
#[tactic(auto, using(crate::proofs::Removal::removed_at, crate::proofs::Removal::removed_none))]
fn remove_birth(births: &mut Vec<Birth>, name: &Name)
    ensures items { births.new.items ≡ without_birth name.now births.old.items }
    ensures capacity { vec_capacity births.new ≡ vec_capacity births.old }
{
    if let Some(at) = index_of(births, name) {
        let _removed = births.remove(at);
    }
}

impl Births {
    ghost use Rattle.std.specs.Prelude.{ℕ, List, IfOk};
    ghost use Rattle.mgs_model.specs.Outcome.{Create, Kill};
    ghost use Rattle.mgs_births.specs.Births.{birth_after, no_births, number_of};

    /// The register when a server begins.
    pub fn new(alloc: Global) -> Result<Births, AllocError>
        ensures { IfOk result (λ b. b ≡ no_births) }
    {
        let births = Vec::with_capacity(alloc, BUFFER_LIMIT)?;
        Ok(Births { births, next: 1 })
    }

    /// Records that a buffer of a name was made.
    pub fn record_creation(&mut self, name: Name)
        ensures { (owner : List ℕ) → self.new ≡ birth_after (Create name owner) self.old }
    {
        if self.births.len() < BUFFER_LIMIT {
            self.births.push_reserved(Birth {
                name,
                number: self.next,
            });
        }
        self.next = self.next.saturating_add(1);
    }

    /// Records that the buffer of a name was killed.
    pub fn record_kill(&mut self, name: &Name)
        ensures { self.new ≡ birth_after (Kill name.now) self.old }
    {
        remove_birth(&mut self.births, name);
    }

    /// The number of the buffer of a name, or 0 if none of that name was made since the server began.
    pub fn number(&self, name: &Name) -> u64
        ensures { result ≡ number_of name.now self.now }
    {
        match find_birth(&self.births, name) {
            Some(birth) => birth.number,
            None => 0,
        }
    }
}
