// Decisions of access lists, and what is kept of them.
ghost use Rattle.std.specs.Prelude.{◌≡◌, ◌≤◌, ◌∷◌, [], length, Contains, IfOk, IfSome};
ghost use Rattle.std.specs.Option.{option_copied};
ghost use Rattle.mgs_model.specs.Access.{decision, owners_of};
ghost use Rattle.mgs_cache.specs.Kept.{AreAmong, AreRight, kept};

use crate::request::Request;
use lru::LruCache;
use mgs_acl::List;
use mgs_model::{Decision, Mask, Name, Short};
use mgs_policy::{Directory, decide};
use std::alloc::Global;
use std::marker::Model;
use std::num::NonZeroUsize;

/// The most decisions that are kept.
pub const KEPT_LIMIT: usize = 256;

/// Decides what access lists grant, and keeps what was decided: `KEPT_LIMIT` decisions at most (256), those that were asked for last.
///
/// A decision is kept for the place of a buffer, a user and a mask. It holds as long as the list, the owner and the owning group of
/// that buffer and the directory stay as they are: whoever changes one of them calls `forget`.
#[derive(Drop)]
pub struct Judge {
    decisions: LruCache<Request, Decision>,
}

impl Model for Judge {
    ghost use Rattle.std.specs.Prelude.{◌≡◌, List};
    ghost use Rattle.mgs_cache.specs.Kept.{Kept};
    ghost use Rattle.mgs_cache.specs.declared.judge.TheConstants.{KEPT_LIMIT};

    ghost Value = { List Kept };

    ghost use Rattle.mgs_cache.specs.Requests.{kept_all};

    ghost view = { λ j. kept_all j.decisions.entries };

    ghost invariant = { λ j. j.decisions.cap ≡ KEPT_LIMIT };
}

impl Judge {
    /// A judge that keeps nothing. `Short`: memory was refused.
    pub fn new(alloc: Global) -> Result<Judge, Short>
        ensures { IfOk result (λ judge. judge ≡ []) }
    {
        let Some(limit) = NonZeroUsize::new(KEPT_LIMIT) else {
            unreachable!()
        };
        match LruCache::new(alloc, limit) {
            Ok(decisions) => Ok(Judge { decisions }),
            Err(_) => Err(Short),
        }
    }

    /// How many decisions are kept.
    pub fn kept(&self) -> usize
        ensures value { result ≡ length self.now }
        ensures limit { result ≤ KEPT_LIMIT }
    {
        self.decisions.len()
    }

    /// Forgets all that was decided.
    pub fn forget(&mut self)
        ensures { self.new ≡ [] }
    {
        self.decisions.clear();
    }

    /// What is kept for a request. It is then the last to go.
    fn recall(&mut self, buffer: usize, user: &Name, mask: Mask) -> Option<Decision>
        ensures value { IfSome result (λ d. Contains self.old (kept buffer user.now mask d)) }
        ensures stays { AreAmong self.new self.old }
    {
        let request = Request::new(buffer, user, mask);
        let decision = self.decisions.peek(&request).copied();
        self.decisions.promote(&request);
        decision
    }

    /// Keeps a decision. Where all room is taken, the one that was asked for longest ago goes. Where memory is refused, it is not kept.
    fn keep(&mut self, buffer: usize, user: &Name, mask: Mask, decision: Decision)
        ensures { AreAmong self.new (kept buffer user.now mask decision ∷ self.old) }
    {
        let _ = self
            .decisions
            .put(Request::new(buffer, user, mask), decision);
    }

    /// What a list decides on all rights of a mask, as `mgs_policy::decide` answers it, from what is kept or by deciding and keeping.
    /// The list, the owner and the owning group are those of the buffer at that place. Where memory is refused, the decision is not kept.
    #[tactic(auto, using(crate::proofs::Rightness::deciding))]
    pub fn decide(
        &mut self,
        buffer: usize,
        list: &List,
        owner: &Name,
        group: Option<&Name>,
        user: &Name,
        directory: &Directory,
        mask: Mask,
    ) -> Decision
        requires { AreRight buffer directory.now (owners_of owner.now (option_copied group)) list.now self.old }
        ensures value { result ≡ decision directory.now (owners_of owner.now (option_copied group.entry)) user.now list.now mask }
        ensures kept { AreAmong self.new (kept buffer user.now mask result ∷ self.old) }
    {
        if let Some(decision) = self.recall(buffer, user, mask) {
            return decision;
        }
        let decision = decide(list, owner, group, user, directory, mask);
        self.keep(buffer, user, mask, decision);
        decision
    }
}
