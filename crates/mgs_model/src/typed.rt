// What was typed, beside the bytes of a name.
ghost use Rattle.std.specs.Prelude.{◌≡◌, ◌≤◌, ◌==◌, length};
ghost use Rattle.std.specs.List.{common_prefix_len};
ghost use Rattle.mgs_model.specs.Keys.{begins_with};
ghost use Rattle.mgs_model.specs.Names.{same_name};

// How many characters of what was typed a name begins with.
fn common_len(typed: &[char], name: &[u8]) -> usize
    ensures value { result ≡ common_prefix_len (λ x y. x == y) typed.now name.now }
    ensures within { result ≤ length typed.now }
{
    let len = typed.len().min(name.len());
    for i in 0..len {
        if typed[i] != char::from(name[i]) {
            return i;
        }
    }
    len
}

/// Whether a name begins with what was typed.
#[tactic(auto, using(crate::proofs::TypedNames::begins_so))]
pub fn begins_typed(name: &[u8], typed: &[char]) -> bool
    ensures { result ≡ begins_with name.now typed.now }
{
    common_len(typed, name) == typed.len()
}

/// Whether what was typed is a name.
#[tactic(auto, using(crate::proofs::TypedNames::longer, crate::proofs::TypedNames::is_so))]
pub fn is_typed(typed: &[char], name: &[u8]) -> bool
    ensures { result ≡ same_name typed.now name.now }
{
    if name.len() > typed.len() {
        return false;
    }
    common_len(typed, name) == typed.len()
}
