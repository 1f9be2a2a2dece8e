// The lines of a script.
ghost use Rattle.std.specs.Prelude.{◌≡◌, ◌<◌, ◌∷◌, length, IfSome};
ghost use Rattle.std.specs.Option.{option_map};
ghost use Rattle.mgs_script.specs.Scripts.{lines_of, line_in, after_line, lines_after};

use mgs_keys::cut_at;

/// The first line of a script without its line feed, and what stands after that, if there is one.
#[tactic(auto, using(mgs_keys::proofs::Cuts::parts_cut))]
pub fn cut_line(script: &[u8]) -> (&[u8], Option<&[u8]>)
    ensures line { result.0.now ≡ line_in script.now }
    ensures rest { option_map (λ x. x.now) result.1 ≡ after_line script.now }
    ensures shorter { IfSome result.1 (λ x. length x.now < length script.now) }
    ensures lines { lines_of script.now ≡ result.0.now ∷ lines_after (option_map (λ x. x.now) result.1) }
{
    cut_at(script, b'\n')
}
