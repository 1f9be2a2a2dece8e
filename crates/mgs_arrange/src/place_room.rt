// Room for the places that windows leave. It is taken where the buffers take theirs, since windows take none.
ghost use Rattle.std.specs.Prelude.{◌≡◌, ◌+◌, ◌≤◌, length, OnOk};
ghost use Rattle.mgs_windows.specs.Panes.{shown_in};

use mgs_model::Short;
use mgs_windows::Windows;
use std::alloc::Global;

/// Makes room for the place of one more window. `Short`: memory was refused, and all is as it was.
pub(crate) fn reserve(alloc: Global, windows: &mut Windows) -> Result<(), Short>
    ensures same { windows.new ≡ record windows.old { capacity = windows.new.capacity } }
    ensures room { OnOk result (length windows.old.places + shown_in windows.old.windows + 1 ≤ windows.new.capacity) }
{
    let wanted = windows.places_wanted();
    if wanted <= windows.capacity() {
        return Ok(());
    }
    match Vec::with_capacity(alloc, wanted) {
        Ok(room) => {
            windows.take_room(room);
            Ok(())
        }
        Err(_) => Err(Short),
    }
}
