// What a start finds after a crash.
ghost use Rattle.mgs_file_chain.specs.Names.{FindsOne, KeepsOld, SettlesFound};

/// After any of the steps of `follow` a start finds one file: the file that was in use, or the next file with its own log.
#[tactic(auto, using(crate::proofs::Crash::finds_one))]
pub fn crash_finds_one()
    ensures { FindsOne }
{}

/// After any of the steps of `follow` the file that was in use has its name, or its number.
#[tactic(auto, using(crate::proofs::Crash::keeps_old))]
pub fn crash_keeps()
    ensures { KeepsOld }
{}

/// `settle` changes nothing of what a start finds.
#[tactic(auto, using(crate::proofs::Crash::settles_found))]
pub fn settling_finds_the_same()
    ensures { SettlesFound }
{}
