// Bytes leave the queues.
ghost use Rattle.std.specs.Prelude.{◌≡◌, ◌≤◌, map, All, length, vec_capacity};
ghost use Rattle.mgs_model.specs.Apply.{change_first};
ghost use Rattle.mgs_world.specs.Worlds.{IsUnique};
ghost use Rattle.mgs_engine.specs.Queues.{after_taking, waiting_in, find_queue, is_queue_of};
ghost use Rattle.mgs_engine.specs.Screens.{IsSessionScreen, drawn_of, queue_of, queues_of, shown_size};

use crate::place::find_place;
use crate::session_screen::Screen;
use mgs_model::SessionId;

// Takes bytes from the front of a screen's queue.
fn take_front(screen: &mut Screen, n: usize)
    requires screen { IsSessionScreen screen.old }
    requires within { n ≤ length screen.old.queue }
    ensures screen { IsSessionScreen screen.new }
    ensures drawn { drawn_of screen.new ≡ drawn_of screen.old }
    ensures queue { queue_of screen.new ≡ after_taking n (queue_of screen.old) }
{
    screen.queue.take(n);
}

/// Takes `n` bytes from the front of the queue of the screen of an id, of the bytes that wait there; no id stands twice. Where none
/// has the id, nothing waits and nothing is taken. What terminals show stays, and the list does not grow.
pub(crate) fn take_from(screens: &mut Vec<Screen>, id: SessionId, n: usize)
    requires each { All IsSessionScreen screens.old.items }
    requires unique { IsUnique (map shown_size screens.old.items) }
    requires within { n ≤ length (waiting_in (find_queue id (queues_of screens.old.items))) }
    ensures each { All IsSessionScreen screens.new.items }
    ensures capacity { vec_capacity screens.new ≡ vec_capacity screens.old }
    ensures drawn { map drawn_of screens.new.items ≡ map drawn_of screens.old.items }
    ensures queues { queues_of screens.new.items ≡ change_first (is_queue_of id) (after_taking n) (queues_of screens.old.items) }
{
    let at = find_place(screens, id);
    if at < screens.len() {
        take_front(&mut screens[at], n);
    }
}
