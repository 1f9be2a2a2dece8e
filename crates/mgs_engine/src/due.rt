// Sessions whose connections are to be written to, or closed.
ghost use Rattle.std.specs.Prelude.{◌≡◌, ◌≢◌, ◌<◌, ℕ, false, find, IfSome};
ghost use Rattle.std.specs.Option.{option_map};
ghost use Rattle.mgs_wire.specs.Calls.{IsBefore};
ghost use Rattle.mgs_engine.specs.Due.{is_due};
ghost use Rattle.mgs_engine.specs.Serving.{has_ended};

use crate::session_end::Cause;
use crate::session_screen::Screen;
use mgs_model::SessionId;

/// The first session above an id for whose terminal bytes wait.
pub(crate) fn next_waiting(screens: &[Screen], after: SessionId) -> Option<SessionId>
    ensures first { result ≡ option_map (λ x. x.id) (find (is_due after) screens.now) }
    ensures above { IfSome result (λ id. after < id) }
{
    for screen in screens {
        if after < screen.id && !screen.queue.is_empty() {
            return Some(screen.id);
        }
    }
    None
}

// The lesser of an id and of another one, where that is above this one.
fn lesser(least: Option<SessionId>, after: SessionId, id: SessionId) -> Option<SessionId>
    ensures above { IfSome least (λ x. after < x) → IfSome result (λ x. after < x) }
    ensures before { (x : ℕ) → IsBefore x result → IsBefore x least }
    ensures id { (x : ℕ) → after < x → IsBefore x result → id ≢ x }
{
    if id <= after {
        return least;
    }
    match least {
        Some(other) if other <= id => least,
        _ => Some(id),
    }
}

/// The least of an id and of the sessions above this one that ended and are to be told.
pub(crate) fn with_ended(
    least: Option<SessionId>,
    ended: &[(SessionId, Cause)],
    after: SessionId,
) -> Option<SessionId>
    ensures above { IfSome least (λ x. after < x) → IfSome result (λ x. after < x) }
    ensures before { (x : ℕ) → IsBefore x result → IsBefore x least }
    ensures ended { (x : ℕ) → after < x → IsBefore x result → has_ended x ended.now ≡ false }
{
    let mut least = least;
    for (id, _) in ended {
        least = lesser(least, after, *id);
    }
    least
}
