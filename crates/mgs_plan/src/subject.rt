// The buffer that a command on access lists or owners is about.
ghost use Rattle.std.specs.Prelude.{◌≡◌, IfSome};
ghost use Rattle.mgs_buffers.specs.MarkedBuffer.{HasBuffer};
ghost use Rattle.mgs_session.specs.Sessions.{subject_of};
ghost use Rattle.mgs_plan.specs.Subjects.{subject_kept};

use mgs_buffers::Buffers;
use mgs_marks::Marked;
use mgs_model::Name;
use mgs_session::{Session, subject};

/// The buffer whose text or access list the selected window of a session shows, where it is there.
pub(crate) fn subject_in<T: Marked + Drop>(buffers: &Buffers<T>, session: &Session) -> Option<Name>
    ensures value { result ≡ subject_kept buffers.now (subject_of session.now) }
    ensures kept { IfSome result (λ name. HasBuffer name buffers.now) }
{
    match subject(session) {
        Some(name) if buffers.has(&name) => Some(name),
        _ => None,
    }
}
