//! What holds of the definitions of `mgs_model` whatever a program does. `specs/` states the laws, `proofs/` proves them, with the lemmas
//! that they share and worked runs. There is no code: the calls whose contracts state the laws are those of `mgs_core`.
#![tactic(auto)]
