// A window comes to show rows: the list of all buffers, or the access list of one.
ghost use Rattle.std.specs.Prelude.{◌≡◌, ◌<◌, ℕ, Option, IfSome, length, slice_get};
ghost use Rattle.mgs_model.specs.World.{List_of};
ghost use Rattle.mgs_model.specs.declared.session.Arrangement.TheVariants.{ListBuffers};
ghost use Rattle.mgs_world.specs.Acted.{IsLeftAt};
ghost use Rattle.mgs_world.specs.Sound.{IsSessionSound, IsSound};
ghost use Rattle.mgs_world.specs.Worlds.{rows_shown, session_of};
ghost use Rattle.mgs_arrange.specs.Arranged.{run_ended, window_lists};
ghost use Rattle.mgs_arrange.specs.Arranging.{IsArranged, Rearranged};
ghost use Rattle.mgs_arrange.specs.Listing.{IsFromStart, listed_in};

use mgs_buffers::Buffers;
use mgs_marks::Marked;
use mgs_model::{Kind, Name};
use mgs_session::{Session, set_kind};
use mgs_windows::RowPane;
use mgs_world::drop_window_marks;

// The selected window of a session comes to show these rows, and leaves its place in what it showed.
fn come_to_rows<T: Marked + Drop>(buffers: &mut Buffers<T>, session: &mut Session, rows: RowPane)
    requires sound { IsSessionSound buffers.old session.old }
    requires start { IsFromStart rows }
    ensures selected { session.old.windows.selected < length session.old.windows.windows }
    ensures rearranged { Rearranged buffers.old buffers.new session.old session.new }
    ensures seen { session_of buffers.new session.new ≡ window_lists (rows_shown rows) (session_of buffers.old session.old) }
{
    prove!(session.windows.selected() < session.windows.as_slice().len());
    let before = session.windows.show_rows(rows);
    drop_window_marks(buffers, before);
}

/// The selected window comes to show the list of all buffers.
pub fn list_buffers<T: Marked + Drop>(buffers: &mut Buffers<T>, session: &mut Session)
    requires { IsSessionSound buffers.old session.old }
    ensures rearranged { Rearranged buffers.old buffers.new session.old session.new }
    ensures arranged { (n : Option ℕ) → IsArranged ListBuffers n buffers.old buffers.new session.old session.new }
{
    come_to_rows(buffers, session, RowPane::Buffers { row: 0 });
}

// The selected window of a session comes to show an access list, as `show_entries` says.
fn show_entries_in_session<T: Marked + Drop>(
    buffers: &mut Buffers<T>,
    session: &mut Session,
    name: &Name,
)
    requires { IsSessionSound buffers.old session.old }
    ensures selected { session.old.windows.selected < length session.old.windows.windows }
    ensures rearranged { Rearranged buffers.old buffers.new session.old session.new }
    ensures seen { session_of buffers.new session.new ≡ run_ended (window_lists (List_of name.now) (session_of buffers.old session.old)) }
{
    let rows = RowPane::Entries {
        name: *name,
        row: 0,
    };
    come_to_rows(buffers, session, rows);
    set_kind(session, Kind::Other);
}

/// The selected window of the session at `at` comes to show the access list of the buffer of this name, from its first
/// entry on. What the window showed gets its place. It takes no memory.
pub fn show_entries<T: Marked + Drop>(
    buffers: &mut Buffers<T>,
    sessions: &mut [Session],
    at: usize,
    name: &Name,
)
    requires sound { IsSound buffers.old sessions.old }
    requires within { at < length sessions.old }
    ensures selected { IfSome (slice_get sessions.old at) (λ x. x.windows.selected < length x.windows.windows) }
    ensures sound { IsSound buffers.new sessions.new }
    ensures world { IsLeftAt at (λ id. listed_in id (List_of name.now)) buffers.old sessions.old buffers.new sessions.new }
{
    show_entries_in_session(buffers, &mut sessions[at], name);
}
