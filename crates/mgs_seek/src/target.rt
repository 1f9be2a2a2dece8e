// Where an act of a search takes place: in the text that the selected window shows, and where the search of its session is.
ghost use Rattle.std.specs.Prelude.{◌≡◌, IfErr, IfOk};
ghost use Rattle.mgs_model.specs.declared.session.Kind.TheVariants.{Other};
ghost use Rattle.mgs_session.specs.Seeking.{is_search_in, searching};
ghost use Rattle.mgs_session.specs.Sessions.{acted, resting};
ghost use Rattle.mgs_seek.specs.Acting.{Fails, IsSought, IsTarget, SearchFails, text_mask};
ghost use Rattle.mgs_world.specs.Sound.{IsSessionSound};

use mgs_buffers::Buffers;
use mgs_marks::Marked;
use mgs_model::{Kind, Mask, Message, Name, Notice, Right};
use mgs_plan::denial;
use mgs_policy::Directory;
use mgs_session::{Search, Session, hold_search, rest, selected_window_marks, set_kind};
use mgs_windows::WindowMarks;

/// The rights that are wanted: to read the text, or to write it too.
pub(crate) fn mask(writes: bool) -> Mask
    ensures { result ≡ text_mask writes }
{
    if writes {
        Mask::from_bits(Right::ReadData.bit() + Right::WriteData.bit())
    } else {
        Mask::of(Right::ReadData)
    }
}

/// The window whose text a session acts in, or why it may not.
pub(crate) fn target<T: Marked + Drop>(
    buffers: &Buffers<T>,
    directory: &Directory,
    session: &Session,
    writes: bool,
) -> Result<WindowMarks, Message>
    requires { IsSessionSound buffers.now session.now }
    ensures ok { IfOk result (IsTarget directory.now buffers.now session.now writes) }
    ensures err { IfErr result (Fails directory.now buffers.now session.now writes) }
{
    let Some(window_marks) = selected_window_marks(session) else {
        return Err(Message::Says(Notice::NoBuffer));
    };
    let name = &window_marks.name;
    match denial(buffers.decide_all(directory, name, &session.user, mask(writes))) {
        Some(message) => Err(message),
        None => Ok(window_marks),
    }
}

/// Whether the search of a session is in the buffer of this name.
fn is_sought(session: &Session, name: &Name) -> bool
    ensures { result ≡ is_search_in name.now session.now.state.search }
{
    match &session.state.search {
        Some(search) => *name == search.name,
        None => false,
    }
}

/// The same window, where the session's search is in its buffer.
pub(crate) fn sought<T: Marked + Drop>(
    buffers: &Buffers<T>,
    directory: &Directory,
    session: &Session,
    writes: bool,
) -> Result<WindowMarks, Message>
    requires { IsSessionSound buffers.now session.now }
    ensures ok { IfOk result (IsSought directory.now buffers.now session.now writes) }
    ensures err { IfErr result (SearchFails directory.now buffers.now session.now writes) }
{
    match target(buffers, directory, session, writes) {
        Err(message) => Err(message),
        Ok(window_marks) => {
            if is_sought(session, &window_marks.name) {
                Ok(window_marks)
            } else {
                Err(Message::Says(Notice::NoBuffer))
            }
        }
    }
}

/// A session goes on with a search, and has nothing half read.
pub(crate) fn go_on(session: &mut Session, search: Search)
    ensures { session.new ≡ acted Other (searching search (resting session.old)) }
{
    rest(session);
    hold_search(session, search);
    set_kind(session, Kind::Other);
}
