// Sessions end: their screens go, and they are to be told.
ghost use Rattle.std.specs.Prelude.{◌≡◌, ◌++◌, ◌∷◌, [], Some, map, find, is_some, cond, vec_capacity};
ghost use Rattle.std.specs.Option.{option_map};
ghost use Rattle.mgs_model.specs.Apply.{remove_first};
ghost use Rattle.mgs_model.specs.Events.{Close, run, step};
ghost use Rattle.mgs_engine.specs.declared.session_end.Cause.TheVariants.{Slow};
ghost use Rattle.mgs_engine.specs.Screens.{AreAmong, is_late, late_ids, screen_id};
ghost use Rattle.mgs_engine.specs.Served.{HasSlots, IsServed, IsServedInTime, late_ended, serving_of};
ghost use Rattle.mgs_engine.specs.Serving.{ended_by};

use crate::place::place_of;
use crate::session_end::Cause;
use crate::session_screen::Screen;
use mgs_core::Core;
use mgs_marks::Marked;
use mgs_model::SessionId;
use mgs_store::Store;

/// Takes away the first screen of an id, and the bytes that wait with it: its session is to be told with its cause. Where
/// none has the id, all stay.
#[tactic(auto, using(crate::proofs::Screens::removed_at, crate::proofs::Screens::removed_none, crate::proofs::Quits::told_none))]
pub(crate) fn end_screen(
    screens: &mut Vec<Screen>,
    ended: &mut Vec<(SessionId, Cause)>,
    id: SessionId,
    cause: Cause,
)
    requires { HasSlots screens.old.items ended.old.items (vec_capacity screens.old) (vec_capacity ended.old) }
    ensures screens { screens.new.items ≡ remove_first (screen_id id) screens.old.items }
    ensures ended { ended.new.items ≡ ended.old.items ++ cond (is_some (find (screen_id id) screens.old.items)) ((id, cause) ∷ []) [] }
    ensures slots { HasSlots screens.new.items ended.new.items (vec_capacity screens.new) (vec_capacity ended.new) }
{
    let at = place_of(screens, id);
    if at < screens.len() {
        let _ended = screens.remove(at);
        ended.push_reserved((id, cause));
    }
}

// The session of the first late screen, if there is one.
fn first_late(screens: &[Screen]) -> Option<SessionId>
    ensures { result ≡ option_map (λ x. x.id) (find is_late screens.now) }
{
    for screen in screens {
        if screen.late {
            return Some(screen.id);
        }
    }
    None
}

// Ends the session of an open screen that is late.
fn end_slow<T: Marked + Drop, S: Store + Drop>(
    core: &mut Core<T, S>,
    screens: &mut Vec<Screen>,
    ended: &mut Vec<(SessionId, Cause)>,
    id: SessionId,
)
    requires served { IsServedInTime core.old.world screens.old.items }
    requires slots { HasSlots screens.old.items ended.old.items (vec_capacity screens.old) (vec_capacity ended.old) }
    requires late { option_map (λ x. x.id) (find is_late screens.old.items) ≡ Some id }
    ensures served { IsServedInTime core.new.world screens.new.items }
    ensures slots { HasSlots screens.new.items ended.new.items (vec_capacity screens.new) (vec_capacity ended.new) }
    ensures ended { serving_of core.new screens.new.items ended.new.items ≡ ended_by Slow id (serving_of core.old screens.old.items ended.old.items) }
    ensures closes { core.new.world ≡ step core.old.world (Close id) }
    ensures late { late_ids screens.old.items ≡ id ∷ late_ids screens.new.items }
    ensures kept { AreAmong screens.new.items screens.old.items }
{
    core.close(id);
    end_screen(screens, ended, id, Cause::Slow);
}

/// Ends the sessions whose screens are late, in the order in which they opened.
pub(crate) fn end_late<T: Marked + Drop, S: Store + Drop>(
    core: &mut Core<T, S>,
    screens: &mut Vec<Screen>,
    ended: &mut Vec<(SessionId, Cause)>,
)
    requires served { IsServedInTime core.old.world screens.old.items }
    requires slots { HasSlots screens.old.items ended.old.items (vec_capacity screens.old) (vec_capacity ended.old) }
    ensures served { IsServed core.new.world screens.new.items }
    ensures slots { HasSlots screens.new.items ended.new.items (vec_capacity screens.new) (vec_capacity ended.new) }
    ensures ended { serving_of core.new screens.new.items ended.new.items ≡ late_ended core.old screens.old.items ended.old.items }
    ensures closes { core.new.world ≡ run core.old.world (map (λ i. Close i) (late_ids screens.old.items)) }
    ensures kept { AreAmong screens.new.items screens.old.items }
{
    while let Some(id) = first_late(screens) {
        end_slow(core, screens, ended, id);
    }
}
