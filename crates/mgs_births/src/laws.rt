// What the numbers of buffers are good for, what is on a tape, and that reports have the effects of events.
ghost use Rattle.mgs_births.specs.Deeds.{DeedsAreKept, DeedsAreLost};
ghost use Rattle.mgs_births.specs.Numbers.{NumbersDiffer, NumbersEnd};
ghost use Rattle.mgs_births.specs.Reporting.{EffectsAreReported, RunsAreReported};

/// Two buffers that were made since the server began have two numbers, while fewer than 2^64 - 2 were made.
#[tactic(auto, using(crate::proofs::Numbers::numbers_differ))]
pub fn numbers_differ()
    ensures { NumbersDiffer }
{}

/// The number of a buffer that was killed is never used again, while fewer than 2^64 - 2 were made.
#[tactic(auto, using(crate::proofs::Numbers::numbers_end))]
pub fn numbers_end()
    ensures { NumbersEnd }
{}

/// The effects of an event are those that its reports have.
#[tactic(auto, using(crate::proofs::Reported::effects_are_reported))]
pub fn effects_are_reported()
    ensures { EffectsAreReported }
{}

/// The effects of a run are those that its reports have.
#[tactic(auto, using(crate::proofs::Reported::runs_are_reported))]
pub fn runs_are_reported()
    ensures { RunsAreReported }
{}

/// A tape that was blank has the deeds of all reports in their order, if there are no more than it has room for.
#[tactic(auto, using(crate::proofs::Kept::deeds_are_kept))]
pub fn deeds_are_kept()
    ensures { DeedsAreKept }
{}

/// A tape is lost if there are more deeds than it has room for.
#[tactic(auto, using(crate::proofs::Kept::deeds_are_lost))]
pub fn deeds_are_lost()
    ensures { DeedsAreLost }
{}
