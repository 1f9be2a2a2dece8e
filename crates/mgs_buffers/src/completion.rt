// What is typed as the name of a buffer, completed.
ghost use Rattle.std.specs.Prelude.{◌≡◌};
ghost use Rattle.std.specs.Option.{option_copied};
ghost use Rattle.mgs_model.specs.Completion.{completion};
ghost use Rattle.mgs_buffers.specs.Completed.{IsFoundNext, IsFoundWith, IsWithinName, found_with_name, names_shown};
ghost use Rattle.mgs_buffers.specs.Contents.{marked_of, marked_all};
ghost use Rattle.mgs_buffers.specs.Judging.{AreJudged, StaysRight, rules_kept};
ghost use Rattle.mgs_cache.specs.Kept.{AreRight};

use crate::buffer::Buffer;
use indexmap::IndexMap;
use mgs_cache::Judge;
use mgs_marks::Marked;
use mgs_mini::narrowed;
use mgs_model::{Name, Right};
use mgs_policy::Directory;

// Who typed the name of a buffer, and what.
#[derive(Clone, Copy)]
struct Typed<'a> {
    directory: &'a Directory,
    user: &'a Name,
    input: &'a [char],
}

// What the names so far have in common, and one name more where it counts.
fn with_name<'a>(
    found: Option<&'a [u8]>,
    input: &[char],
    name: &'a [u8],
    counts: bool,
) -> Option<&'a [u8]>
    ensures { option_copied result ≡ found_with_name counts input.now (option_copied found.entry) name.now }
{
    if counts {
        narrowed(input, found, name)
    } else {
        found
    }
}

// One buffer more, at its place: its name counts where a judge grants READ_ATTRIBUTES to the user.
fn with_buffer<'a, T: Marked + Drop>(
    found: Option<&'a [u8]>,
    judge: &mut Judge,
    place: usize,
    typed: Typed<'_>,
    name: &'a Name,
    buffer: &Buffer<T>,
) -> Option<&'a [u8]>
    requires { AreRight place typed.directory.now buffer.now.owners buffer.now.list judge.old }
    ensures within { IsWithinName (option_copied found.entry) → IsWithinName (option_copied result) }
    ensures value { IsFoundWith typed.entry.directory.now typed.entry.user.now typed.entry.input.now (marked_of T.text T.marks name.now buffer.now).buffer found.entry result }
    ensures stays { StaysRight place typed.entry.directory.now buffer.now.owners buffer.now.list judge.old judge.new }
{
    let right = Right::ReadAttributes;
    let counts = buffer.grants_by(judge, place, typed.directory, typed.user, right);
    with_name(found, typed.input, name.as_bytes(), counts)
}

// The buffer at a place more, where one stands there.
fn with_place<'a, T: Marked + Drop>(
    found: Option<&'a [u8]>,
    all: &'a IndexMap<Name, Buffer<T>>,
    judge: &mut Judge,
    place: usize,
    typed: Typed<'_>,
) -> Option<&'a [u8]>
    requires { AreJudged typed.directory.now (rules_kept (marked_all T.text T.marks all.now.entries)) judge.old }
    ensures within { IsWithinName (option_copied found.entry) → IsWithinName (option_copied result) }
    ensures same { IsFoundNext typed.entry.directory.now typed.entry.user.now typed.entry.input.now (marked_all T.text T.marks all.now.entries) place found.entry result }
    ensures judged { AreJudged typed.entry.directory.now (rules_kept (marked_all T.text T.marks all.now.entries)) judge.new }
{
    match all.get_index(place) {
        Some((name, buffer)) => with_buffer(found, judge, place, typed, name, buffer),
        None => found,
    }
}

#[tactic(auto, using(crate::proofs::Completed::by_names))]
pub(crate) fn completion<'a, T: Marked + Drop>(
    all: &'a IndexMap<Name, Buffer<T>>,
    judge: &mut Judge,
    directory: &Directory,
    user: &Name,
    input: &[char],
) -> Option<&'a [u8]>
    requires { AreJudged directory.now (rules_kept (marked_all T.text T.marks all.now.entries)) judge.old }
    ensures within { IsWithinName (option_copied result) }
    ensures value { option_copied result ≡ completion (names_shown directory.now user.now (marked_all T.text T.marks all.now.entries)) input.now }
    ensures judged { AreJudged directory.now (rules_kept (marked_all T.text T.marks all.now.entries)) judge.new }
{
    let typed = Typed {
        directory,
        user,
        input,
    };
    let mut found = None;
    for place in 0..all.len() {
        found = with_place(found, all, judge, place, typed);
    }
    found
}
