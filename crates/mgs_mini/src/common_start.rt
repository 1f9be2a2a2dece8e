// What the names that begin with what was typed have in common.
ghost use Rattle.std.specs.Prelude.{◌≡◌, ◌≤◌, ◌==◌, length, map, IfSome};
ghost use Rattle.std.specs.List.{common_prefix_len};
ghost use Rattle.std.specs.Option.{option_map};
ghost use Rattle.mgs_model.specs.Completion.{common, completion, candidates};
ghost use Rattle.mgs_mini.specs.Narrowing.{narrowed, IsCompletion};

use mgs_model::begins_typed;

// How many characters two texts have in common from the front on.
fn common_len(a: &[u8], b: &[u8]) -> usize
    ensures value { result ≡ common_prefix_len (λ x y. x == y) a.now b.now }
    ensures within { result ≤ length a.now }
{
    let len = a.len().min(b.len());
    for i in 0..len {
        if a[i] != b[i] {
            return i;
        }
    }
    len
}

fn common<'a>(a: &'a [u8], b: &[u8]) -> &'a [u8]
    ensures { result.now ≡ common a.now b.now }
{
    &a[..common_len(a, b)]
}

/// What the names so far have in common, where they begin with what was typed, and one name more. `None`: no name begins
/// with it so far.
pub fn narrowed<'a>(input: &[char], found: Option<&'a [u8]>, name: &'a [u8]) -> Option<&'a [u8]>
    ensures { option_map (λ t. t.now) result ≡ narrowed input.now (option_map (λ t. t.now) found.entry) name.now }
{
    if !begins_typed(name, input) {
        return found;
    }
    match found {
        None => Some(name),
        Some(text) => Some(common(text, name)),
    }
}

#[tactic(auto, using(crate::proofs::Names::by_names))]
fn narrowed_by_all<'a>(input: &[char], names: &[&'a [u8]]) -> Option<&'a [u8]>
    ensures { option_map (λ t. t.now) result ≡ completion (map (λ name. name.now) names.now) input.now }
{
    let mut found = None;
    for name in names {
        found = narrowed(input, found, name);
    }
    found
}

/// What is typed is completed to: the longest text with which all names begin that begin with `input`. `None`: no name does.
#[tactic(auto, using(crate::proofs::Names::is_completion))]
pub fn completion<'a>(input: &[char], names: &[&'a [u8]]) -> Option<&'a [u8]>
    ensures value { option_map (λ t. t.now) result ≡ completion (map (λ name. name.now) names.now) input.now }
    ensures law { IfSome (option_map (λ t. t.now) result) (IsCompletion (candidates (map (λ name. name.now) names.now) input.now) input.now) }
{
    narrowed_by_all(input, names)
}
