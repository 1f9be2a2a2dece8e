// Windows go, and leave their places.
ghost use Rattle.std.specs.Prelude.{◌≡◌, ◌≢◌, ◌<◌, ◌-◌, ℕ, Option, length, ◌==◌};
ghost use Rattle.mgs_model.specs.Plans.{heir};
ghost use Rattle.mgs_model.specs.declared.session.Arrangement.TheVariants.{DeleteWindow, DeleteOtherWindows};
ghost use Rattle.mgs_windows.specs.Panes.{window_removed};
ghost use Rattle.mgs_world.specs.Sound.{IsSessionSound};
ghost use Rattle.mgs_world.specs.Worlds.{session_of};
ghost use Rattle.mgs_arrange.specs.Arranged.{others_gone, window_gone};
ghost use Rattle.mgs_arrange.specs.Arranging.{IsArranged, Rearranged};

use mgs_buffers::Buffers;
use mgs_marks::Marked;
use mgs_model::{Message, Notice};
use mgs_session::{Session, break_off};
use mgs_world::drop_window_marks;

// The window at an index goes: its rows go to the heir, and its marks are the session's place in its buffer.
#[tactic(auto, using(crate::proofs::WindowsGone::left_sound, crate::proofs::WindowsGone::gone_uses, crate::proofs::WindowsGone::rest_gone))]
fn leave<T: Marked + Drop>(
    buffers: &mut Buffers<T>,
    session: &mut Session,
    index: usize,
    heir: usize,
)
    requires sound { IsSessionSound buffers.old session.old }
    requires within { index < length session.old.windows.windows }
    requires heir { heir < length session.old.windows.windows }
    requires apart { heir ≢ index }
    ensures windows { session.new ≡ record session.old { windows = window_removed index heir session.old.windows } }
    ensures rearranged { Rearranged buffers.old buffers.new session.old session.new }
    ensures sound { IsSessionSound buffers.new session.new }
    ensures gone { session_of buffers.new session.new ≡ window_gone index heir (session_of buffers.old session.old) }
{
    let before = session.windows.remove(index, heir);
    drop_window_marks(buffers, before);
}

// The window that gets the rows of the one at an index: the one above, or below for the first.
fn heir(index: usize) -> usize
    ensures { result ≡ heir index }
{
    if index == 0 { 1 } else { index - 1 }
}

/// The selected window goes.
pub fn delete<T: Marked + Drop>(buffers: &mut Buffers<T>, session: &mut Session)
    requires { IsSessionSound buffers.old session.old }
    ensures rearranged { Rearranged buffers.old buffers.new session.old session.new }
    ensures arranged { (n : Option ℕ) → IsArranged DeleteWindow n buffers.old buffers.new session.old session.new }
{
    if session.windows.as_slice().len() < 2 {
        break_off(session, Message::Says(Notice::OnlyOneWindow));
        return;
    }
    let selected = session.windows.selected();
    leave(buffers, session, selected, heir(selected));
}

// The windows above the selected one go.
fn delete_above<T: Marked + Drop>(buffers: &mut Buffers<T>, session: &mut Session)
    requires { IsSessionSound buffers.old session.old }
    ensures sound { IsSessionSound buffers.new session.new }
    ensures rearranged { Rearranged buffers.old buffers.new session.old session.new }
    ensures same { others_gone (session_of buffers.new session.new) ≡ others_gone (session_of buffers.old session.old) }
    ensures first { session.new.windows.selected ≡ 0 }
{
    while session.windows.selected() > 0 {
        let selected = session.windows.selected();
        leave(buffers, session, 0, selected);
    }
}

// The windows below the selected one go, which is the first.
fn delete_below<T: Marked + Drop>(buffers: &mut Buffers<T>, session: &mut Session)
    requires sound { IsSessionSound buffers.old session.old }
    requires first { session.old.windows.selected ≡ 0 }
    ensures rearranged { Rearranged buffers.old buffers.new session.old session.new }
    ensures same { others_gone (session_of buffers.new session.new) ≡ others_gone (session_of buffers.old session.old) }
    ensures one { length session.new.windows.windows ≡ 1 }
    ensures first { session.new.windows.selected ≡ 0 }
{
    while session.windows.as_slice().len() > 1 {
        leave(buffers, session, 1, 0);
    }
}

/// All windows but the selected one go.
pub fn delete_others<T: Marked + Drop>(buffers: &mut Buffers<T>, session: &mut Session)
    requires { IsSessionSound buffers.old session.old }
    ensures rearranged { Rearranged buffers.old buffers.new session.old session.new }
    ensures arranged { (n : Option ℕ) → IsArranged DeleteOtherWindows n buffers.old buffers.new session.old session.new }
{
    delete_above(buffers, session);
    delete_below(buffers, session);
}
