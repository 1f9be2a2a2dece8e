// The labels of a script, and their clients.
ghost use Rattle.std.specs.Prelude.{◌≡◌, ◌++◌, ◌∷◌, [], OnOk, OnErr, map, find};
ghost use Rattle.std.specs.Option.{option_map};
ghost use Rattle.mgs_replay.specs.Clients.{client_of, ended_by, is_labelled};
ghost use Rattle.mgs_replay.specs.Served.{AllTake, Takes};

use crate::calls::{Server, take};
use crate::client::{Cause, Client, Labelled};
use mgs_marks::Marked;
use mgs_model::{Name, Short};
use std::alloc::Global;
use std::marker::Model;

/// The labels so far, in the order in which they were used.
#[derive(Drop)]
pub(crate) struct Clients {
    all: Vec<Labelled>,
}

impl Model for Clients {
    ghost use Rattle.std.specs.Prelude.{List};
    ghost use Rattle.mgs_replay.specs.declared.client.Labelled.{Labelled};

    ghost Value = { List Labelled };

    ghost view = { λ s. s.all.items };
}

// The first with that label.
fn found<'a>(all: &'a [Labelled], label: &Name) -> Option<&'a Labelled>
    ensures { option_map (λ x. x.now) result ≡ find (is_labelled label.now) all.now }
{
    all.iter().find(|labelled| *label == labelled.label)
}

// The terminal of an open label takes all that waits for its session.
fn take_labelled<T: Marked + Drop>(
    alloc: Global,
    server: &mut Server<T>,
    labelled: &mut Labelled,
) -> Result<(), Short>
    ensures { OnOk result (Takes server.old labelled.old server.new labelled.new) }
{
    match &mut labelled.client {
        Client::Open { id, term } => match take(alloc, server, *id) {
            Ok(tape) => {
                let _ = term.feed_all(tape.bytes(*id));
                Ok(())
            }
            Err(Short) => Err(Short),
        },
        Client::Never | Client::Ended(_) => Ok(()),
    }
}

fn end_labelled(labelled: &mut Labelled, label: &Name, cause: Cause)
    ensures { labelled.new ≡ ended_by label.now cause labelled.old }
{
    if *label == labelled.label {
        labelled.client = Client::Ended(cause);
    }
}

impl Clients {
    /// No label.
    pub(crate) fn new(alloc: Global) -> Self
        ensures { result ≡ [] }
    {
        Clients {
            all: Vec::new(alloc),
        }
    }

    /// The client of a label, if it was used.
    pub(crate) fn client(&self, label: &Name) -> Option<&Client>
        ensures { option_map (λ x. x.now) result ≡ client_of label.now self.now }
    {
        found(&self.all, label).map(|labelled| &labelled.client)
    }

    /// Adds a label and its client. `Short`: memory was refused, and all is as it was.
    pub(crate) fn add(&mut self, label: Name, client: Client) -> Result<(), Short>
        ensures ok { OnOk result (self.new ≡ self.old ++ record { label = label; client = client } ∷ []) }
        ensures err { OnErr result (self.new ≡ self.old) }
    {
        match self.all.push(Labelled { label, client }) {
            Ok(()) => Ok(()),
            Err(_) => Err(Short),
        }
    }

    /// The session of a label has ended.
    pub(crate) fn end(&mut self, label: &Name, cause: Cause)
        ensures { self.new ≡ map (ended_by label.now cause) self.old }
    {
        for labelled in self.all.iter_mut() {
            end_labelled(labelled, label, cause);
        }
    }

    /// Each terminal takes all that waits for it. `Short`: memory was refused to a tape.
    pub(crate) fn take_all<T: Marked + Drop>(
        &mut self,
        alloc: Global,
        server: &mut Server<T>,
    ) -> Result<(), Short>
        ensures { OnOk result (AllTake server.old self.old server.new self.new) }
    {
        for labelled in self.all.iter_mut() {
            match take_labelled(alloc, server, labelled) {
                Ok(()) => {}
                Err(Short) => return Err(Short),
            }
        }
        Ok(())
    }
}
