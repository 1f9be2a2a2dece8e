// What it comes to that an access list is to be shown: that of the buffer whose text or access list the selected window shows.
ghost use Rattle.std.specs.Prelude.{ℕ, [], Option};
ghost use Rattle.mgs_model.specs.Outcome.{Run};
ghost use Rattle.mgs_model.specs.declared.session.Command.TheVariants.{ListEntries};
ghost use Rattle.mgs_plan.specs.Deciding.{CanPerform, IsPlanned};

use crate::judgement::judged;
use crate::outcome::Outcome;
use crate::subject::subject_in;
use mgs_buffers::Buffers;
use mgs_marks::Marked;
use mgs_model::{Message, Notice, Right};
use mgs_policy::Directory;
use mgs_session::Session;

/// What it comes to for a session: its selected window comes to the list from its first entry on.
pub(crate) fn plan_list<T: Marked + Drop>(
    buffers: &Buffers<T>,
    directory: &Directory,
    session: &Session,
) -> Outcome
    ensures value { (n : Option ℕ) → IsPlanned directory.now buffers.now session.now (Run ListEntries n []) result }
    ensures can { CanPerform directory.now buffers.now session.now result }
{
    prove!(buffers.name_typed(&[]).is_none());
    let Some(name) = subject_in(buffers, session) else {
        return Outcome::Fails(Message::Says(Notice::NoBuffer));
    };
    let lists = Outcome::Lists(name);
    judged(buffers, directory, session, &name, Right::ReadAcl, lists)
}
