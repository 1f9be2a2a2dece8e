// The ticket of each user.
ghost use Rattle.std.specs.Prelude.{◌≡◌, [], ◌<◌, OnOk, OnErr, find};
ghost use Rattle.std.specs.List.{list_all};
ghost use Rattle.std.specs.Option.{option_map};
ghost use Rattle.mgs_model.specs.Names.{is_visible};
ghost use Rattle.mgs_model.specs.Tickets.{is_ticket, user_name_in, is_ticket_of, has_ticket, ticket_of};

use crate::limits::USER_LIMIT;
use crate::name::Name;
use std::alloc::Global;
use std::marker::Model;
use thiserror::Error;

/// The most characters of a ticket.
pub const TICKET_LIMIT: usize = 64;

/// Why a ticket was not added, in the order in which the faults are checked.
#[derive(Clone, Copy, Debug, PartialEq, Eq, Error)]
pub enum TicketFault {
    /// The name is no user's (1 to 32 lower-case letters, digits, `-` and `_`), or the ticket is none (1 to 64 characters of
    /// 0x21 to 0x7E).
    #[error("the name is no user's, or the ticket is none")]
    Name,
    /// The user has a ticket.
    #[error("the user has a ticket")]
    Twice,
    /// 256 users have tickets.
    #[error("there are too many tickets")]
    Full,
    /// Memory was refused.
    #[error("no memory")]
    Short,
}

/// A user and his ticket.
#[derive(Drop)]
struct Ticket {
    user: Name,
    text: Vec<u8>,
}

impl Model for Ticket {
    ghost use Rattle.std.specs.Prelude.{ℕ, List};

    ghost Value = { List ℕ × List ℕ };

    ghost view = { λ t. (t.user, t.text.items) };
}

impl Ticket {
    // Whether it is the ticket of the user who is called so.
    fn is_of(&self, name: &[u8]) -> bool
        ensures { result ≡ is_ticket_of name.now self.now }
    {
        name == self.user.as_bytes()
    }

    fn text(&self) -> &[u8]
        ensures { result.now ≡ self.now.1 }
    {
        self.text.as_slice()
    }
}

fn are_visible(text: &[u8]) -> bool
    ensures { result ≡ list_all is_visible text.now }
{
    text.iter().all(|b| 33 <= *b && *b <= 126)
}

// Whether a ticket may be written so.
fn is_ticket(text: &[u8]) -> bool
    ensures { result ≡ is_ticket text.now }
{
    1 <= text.len() && text.len() <= TICKET_LIMIT && are_visible(text)
}

// The user's name that is written so, if it is one.
#[tactic(auto, using(crate::proofs::TicketLemmas::no_user_name))]
fn user_name(text: &str) -> Option<Name>
    ensures { result ≡ user_name_in text.now }
{
    match Name::read(text) {
        Some(name) if name.is_user_name() => Some(name),
        _ => None,
    }
}

fn find_ticket<'a>(tickets: &'a [Ticket], name: &[u8]) -> Option<&'a Ticket>
    ensures { option_map (λ t. t.now) result ≡ find (is_ticket_of name.now) tickets.now }
{
    tickets.iter().find(|ticket| ticket.is_of(name))
}

/// The tickets of the users of a server, in the order in which they were added.
#[derive(Drop)]
pub struct Tickets {
    all: Vec<Ticket>,
    alloc: Global,
}

impl Model for Tickets {
    ghost use Rattle.std.specs.Prelude.{ℕ, List};

    ghost Value = { List (List ℕ × List ℕ) };

    ghost view = { λ t. t.all.items };
}

impl Tickets {
    ghost use Rattle.mgs_model.specs.Tickets.{ticket_fault, with_ticket, Answers};

    /// No ticket. It takes no memory; what is added later takes it from `alloc`.
    pub fn new(alloc: Global) -> Tickets
        ensures { result ≡ [] }
    {
        Tickets {
            all: Vec::new(alloc),
            alloc,
        }
    }

    /// The ticket of the user who is called so, if he has one.
    pub fn ticket(&self, name: &[u8]) -> Option<&[u8]>
        ensures { option_map (λ t. t.now) result ≡ ticket_of name.now self.now }
    {
        match find_ticket(self.all.as_slice(), name) {
            Some(ticket) => Some(ticket.text()),
            None => None,
        }
    }

    /// Whether the user who is called so has a ticket.
    pub fn has(&self, name: &[u8]) -> bool
        ensures { result ≡ has_ticket name.now self.now }
    {
        find_ticket(self.all.as_slice(), name).is_some()
    }

    /// Gives a user a ticket, which is then the last.
    ///
    /// The faults, checked in this order: `Name` where `name` is no user's name or `ticket` no ticket, `Twice` where the user has
    /// one, `Full` where there are 256, `Short` where memory was refused. They change nothing.
    pub fn add(&mut self, name: &str, ticket: &str) -> Result<(), TicketFault>
        ensures answer { Answers result (ticket_fault self.old name.now ticket.now) }
        ensures ok { OnOk result (self.new ≡ with_ticket self.old name.now ticket.now) }
        ensures err { OnErr result (self.new ≡ self.old) }
    {
        let Some(user) = user_name(name) else {
            return Err(TicketFault::Name);
        };
        if !is_ticket(ticket.as_bytes()) {
            return Err(TicketFault::Name);
        }
        if self.has(user.as_bytes()) {
            return Err(TicketFault::Twice);
        }
        if self.all.len() >= USER_LIMIT {
            return Err(TicketFault::Full);
        }
        let mut text = Vec::new(self.alloc);
        let Ok(()) = text.extend_from_slice(ticket.as_bytes()) else {
            return Err(TicketFault::Short);
        };
        match self.all.push(Ticket { user, text }) {
            Ok(()) => Ok(()),
            Err(_) => Err(TicketFault::Short),
        }
    }
}
