// The screen of an id among all screens.
ghost use Rattle.std.specs.Prelude.{◌≡◌, ◌≤◌, length, map};
ghost use Rattle.std.specs.List.{position_or_len};
ghost use Rattle.mgs_world.specs.Worlds.{IsUnique};
ghost use Rattle.mgs_engine.specs.Screens.{screen_id, shown_size};

use crate::session_screen::Screen;
use mgs_model::SessionId;

/// The place of the first screen of an id, or how many there are where none has it.
pub(crate) fn place_of(screens: &[Screen], id: SessionId) -> usize
    ensures value { result ≡ position_or_len (screen_id id) screens.now }
    ensures within { result ≤ length screens.now }
{
    let mut at = 0;
    for screen in screens {
        if screen.id == id {
            return at;
        }
        at += 1;
    }
    at
}

// Where the screen of an id stands if each id from the first screen's on is open.
fn place_in_full(screens: &[Screen], id: SessionId) -> usize {
    match screens.first() {
        Some(first) => id.saturating_sub(first.id) as usize,
        None => 0,
    }
}

// Where it stands if ids ascend, as they do where sessions get ever greater ones.
fn place_in_order(screens: &[Screen], id: SessionId) -> usize {
    screens.partition_point(|screen| screen.id < id)
}

/// The same where no id stands twice. It looks where the screen is likely to stand, and not at each that stands before.
#[tactic(auto, using(crate::proofs::Places::only_place))]
pub(crate) fn find_place(screens: &[Screen], id: SessionId) -> usize
    requires { IsUnique (map shown_size screens.now) }
    ensures value { result ≡ position_or_len (screen_id id) screens.now }
    ensures within { result ≤ length screens.now }
{
    let at = place_in_full(screens, id);
    if at < screens.len() && screens[at].id == id {
        return at;
    }
    let at = place_in_order(screens, id);
    if at < screens.len() && screens[at].id == id {
        return at;
    }
    place_of(screens, id)
}
