// A tape of deeds.
use crate::deed::Deed;
use mgs_acl::List;
use mgs_model::{Decision, Name, NewOwner};
use std::alloc::{AllocError, Global};
use std::marker::Model;

/// How many deeds a tape has room for.
pub const DEED_LIMIT: usize = 256;

/// The deeds of acts, in their order. A tape that was given more than it has room for is lost until it is cleared.
///
/// Its room is made at the start: recording takes no memory.
#[derive(Drop)]
pub struct Tape {
    deeds: Vec<Deed>,
    room: usize,
    is_lost: bool,
}

impl Model for Tape {
    ghost use Rattle.std.specs.Prelude.{◌≡◌, Some, None, vec_capacity, if◌then◌else◌};
    ghost use Rattle.mgs_births.specs.Tapes as tapes;

    ghost Value = { tapes.Tape };

    ghost view = { λ t. record { room = t.room; deeds = if t.is_lost then None else Some t.deeds.items } };

    ghost invariant = { λ t. vec_capacity t.deeds ≡ t.room };
}

impl Tape {
    ghost use Rattle.std.specs.Prelude.{ℕ, ◌≡◌, List as Items, IfOk};
    ghost use Rattle.std.specs.Option.{option_map};
    ghost use Rattle.mgs_model.specs.Outcome.{Create, Kill, Save, SetList, SetOwners};
    ghost use Rattle.mgs_births.specs.Reports.{Refused};
    ghost use Rattle.mgs_births.specs.Tapes.{blank_tape, tape_told, tape_done, tape_with};

    /// A tape with room for no deed.
    pub fn without_room(alloc: Global) -> Tape
        ensures { result ≡ blank_tape 0 }
    {
        Tape {
            deeds: Vec::new(alloc),
            room: 0,
            is_lost: false,
        }
    }

    /// A tape with room for so many deeds.
    pub fn with_room(alloc: Global, room: usize) -> Result<Tape, AllocError>
        ensures { IfOk result (λ t. t ≡ blank_tape room) }
    {
        let deeds = Vec::with_capacity(alloc, room)?;
        Ok(Tape {
            deeds,
            room,
            is_lost: false,
        })
    }

    /// Removes all deeds.
    pub fn clear(&mut self)
        ensures { self.new ≡ blank_tape self.old.room }
    {
        self.deeds.clear();
        self.is_lost = false;
    }

    /// The deeds since it was cleared. `None`: there were more than it has room for.
    pub fn deeds(&self) -> Option<&[Deed]>
        ensures { option_map (λ ds. ds.now) result ≡ self.now.deeds }
    {
        if self.is_lost {
            None
        } else {
            Some(&self.deeds)
        }
    }

    // Records one deed.
    fn record(&mut self, deed: Deed)
        ensures { self.new ≡ tape_with deed self.old }
    {
        if self.is_lost {
            return;
        }
        if self.deeds.len() < self.room {
            self.deeds.push_reserved(deed);
        } else {
            self.is_lost = true;
        }
    }

    /// Records that the buffer of a name got this access list.
    pub fn record_list(&mut self, name: &Name, list: List)
        ensures { self.new ≡ tape_done (SetList name.now list) self.old }
    {
        self.record(Deed::ListSet(*name, list));
    }

    /// Records that the buffer of a name got this owner, or this owning group, or none.
    pub fn record_owners(&mut self, name: &Name, new: &NewOwner)
        ensures { self.new ≡ tape_done (SetOwners name.now new.now) self.old }
    {
        self.record(Deed::OwnersSet(*name, *new));
    }

    /// Records that a buffer of a name was made for an owner.
    pub fn record_creation(&mut self, name: Name, owner: Name)
        ensures { self.new ≡ tape_done (Create name owner) self.old }
    {
        self.record(Deed::Created(name, owner));
    }

    /// Records that the buffer of a name was killed.
    pub fn record_kill(&mut self, name: &Name)
        ensures { self.new ≡ tape_done (Kill name.now) self.old }
    {
        self.record(Deed::Killed(*name));
    }

    /// Records that the text of the buffer of a name was saved.
    pub fn record_save(&mut self, name: &Name)
        ensures { (text : Items ℕ) → self.new ≡ tape_done (Save name.now text) self.old }
    {
        self.record(Deed::Saved(*name));
    }

    /// Records what was denied at the buffer of a name.
    pub fn record_denial(&mut self, name: &Name, decision: Decision)
        ensures { self.new ≡ tape_told (Refused name.now decision) self.old }
    {
        self.record(Deed::Denied(*name, decision));
    }
}
