// Where a session was in the buffers that its windows left: the marks of the last window that left each.
ghost use Rattle.std.specs.Prelude.{◌≡◌, ◌<◌, ◌≤◌, ◌+◌, length, find, vec_capacity, Option, Some, None};
ghost use Rattle.std.specs.List.{position_or_len};
ghost use Rattle.mgs_windows.specs.Panes.{is_place_in, with_place};

use crate::WindowMarks;
use mgs_model::Name;

// The index of the place in a buffer, or how many there are where there is none.
fn index_of(places: &[WindowMarks], name: &Name) -> usize
    ensures value { result ≡ position_or_len (is_place_in name.now) places.now }
    ensures within { result ≤ length places.now }
{
    let mut index = 0;
    for place in places {
        if *name == place.name {
            return index;
        }
        index += 1;
    }
    index
}

/// Puts a place in the place of the one in the same buffer, or last, and gives back the one before.
pub fn put_place(places: &mut Vec<WindowMarks>, place: WindowMarks) -> Option<WindowMarks>
    requires { length places.old.items < vec_capacity places.old }
    ensures places { places.new.items ≡ with_place place places.old.items }
    ensures before { result ≡ find (is_place_in place.name) places.old.items }
    ensures capacity { vec_capacity places.new ≡ vec_capacity places.old }
{
    let index = index_of(places, &place.name);
    if index == places.len() {
        places.push_reserved(place);
        return None;
    }
    let before = places[index];
    places[index] = place;
    Some(before)
}
