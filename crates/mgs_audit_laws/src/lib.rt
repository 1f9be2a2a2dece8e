//! What an auditor is told of a run of the world: who came and left, who was denied what by which entry, and who changed whose rights.
//! `specs/` says which lines an event has. The laws below say what lines are good for: the rights of all buffers after any run are those that
//! its lines tell. There is no other code.
#![tactic(auto)]

ghost use Rattle.mgs_audit_laws.specs.Effects.{AreOfEffects};
ghost use Rattle.mgs_audit_laws.specs.Lines.{AreAsTold, TellsOn};

/// Buffers need no sessions: after any run they are what its effects, one after another, make of those before it.
#[tactic(auto, using(crate::proofs::Effects::are_of_effects))]
pub fn buffers_are_of_effects()
    ensures { AreOfEffects }
{}

/// Nothing that changes who may do what is left out, and nothing is told that was not done: name, owner, owning group and entries of each
/// buffer after any run are what the run's lines, one after another, make of those before it.
#[tactic(auto, using(crate::proofs::Told::are_as_told))]
pub fn rights_are_as_told()
    ensures { AreAsTold }
{}

/// The lines of a run that goes on are those of its first part and then those of the rest: what was told is never told otherwise later.
#[tactic(auto, using(crate::proofs::Told::tells_on))]
pub fn audits_go_on()
    ensures { TellsOn }
{}
