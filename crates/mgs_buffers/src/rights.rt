// By what access to a buffer is decided, lent by the buffers.
use mgs_acl::List;
use mgs_model::{Name, Owners};
use std::marker::Model;

/// By what access to a buffer is decided: whose it is, and its access list.
#[derive(Drop)]
pub struct Rights<'a> {
    /// The buffer's name, which no other has.
    pub name: &'a Name,
    /// Who owns it.
    pub owners: &'a Owners,
    /// Who has which right on it.
    pub list: &'a List,
}

impl<'a> Model for Rights<'a> {
    ghost use Rattle.mgs_laws.specs.Apart.{Rules};

    ghost Value = { Rules };

    ghost view = { λ r. record { name = r.name.now; owners = r.owners.now; entries = r.list.now } };
}
