// The law of replays. It is about the definitions that `replay` meets, so this call takes nothing and does nothing.
ghost use Rattle.mgs_replay.specs.Replayed.{IsDetermined};

/// A script's output is a function of what its lines, opens and bytes are granted. `replay` gives what the function gives
/// for some choices; and where memory is refused to none, and a store accepts every save, that is one fixed output.
pub fn output_is_determined()
    ensures { IsDetermined }
{}
