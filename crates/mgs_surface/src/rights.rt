// Access lists, what they decide, and what is kept of that.
ghost use Rattle.std.specs.Prelude.{◌≡◌, []};

use arrayvec::ArrayString;
use mgs_acl::{Entry, List, ListFault, Who, print_entry, read_entry};
use mgs_cache::Judge;
use mgs_model::{EntryFault, Mask, Name, Short};
use mgs_policy::{Decision, Directory, decide};
use std::alloc::Global;

// An entry that is read, printed, put in, put in another's place, and taken out.
pub(crate) fn use_list(text: &str) -> Option<ArrayString<64>> {
    let read: Result<Entry, EntryFault> = read_entry(text);
    let entry = read.ok()?;
    let mut list = List::new();
    let inserted: Result<(), ListFault> = list.insert(0, entry);
    let replaced: Result<(), ListFault> = list.replace(0, entry);
    let deleted: Result<(), ListFault> = list.delete(0);
    let printed: ArrayString<64> = print_entry(&entry);
    let _who: Who = entry.who;
    match (inserted, replaced, deleted) {
        (Ok(()), Ok(()), Ok(())) => Some(printed),
        _ => None,
    }
}

// What a list decides, twice: the second time from what is kept.
pub(crate) fn use_judge(alloc: Global, list: &List, owner: &Name) -> Result<usize, Short> {
    let directory = Directory::new(alloc);
    let mask = Mask::from_bits(0x3);
    let decided: Decision = decide(list, owner, None, owner, &directory, mask);
    let made: Result<Judge, Short> = Judge::new(alloc);
    let mut judge = made?;
    let kept: Decision = judge.decide(0, list, owner, None, owner, &directory, mask);
    let count: usize = judge.kept();
    judge.forget();
    match (decided, kept) {
        (Decision::Granted, Decision::Granted) => Ok(count),
        (Decision::DeniedBy { entry, bit: _ }, _) => Ok(entry),
        (Decision::NotGranted { bit: _ }, _) | (Decision::Granted, _) => Ok(judge.kept()),
    }
}
