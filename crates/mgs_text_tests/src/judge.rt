// Decisions that are kept.
ghost use Rattle.std.specs.Prelude.{◌≡◌, []};
ghost use Rattle.mgs_cache.specs.Kept.{AreRight};
ghost use Rattle.mgs_text_tests.specs.Judged.{StayRight};

use crate::people::{list_of, named, owned, staff};
use mgs_acl::List;
use mgs_cache::Judge;
use mgs_model::{Decision, Mask, Name, Owners, Right};
use mgs_policy::Directory;
use std::process::Abort;
use std::test::Fail;

const NO_READING: Decision = Decision::NotGranted {
    bit: Right::ReadData,
};

const DENIED_BY_2: Decision = Decision::DeniedBy {
    entry: 2,
    bit: Right::WriteData,
};

fn denied_by_1(bit: Right) -> Decision {
    Decision::DeniedBy { entry: 1, bit }
}

// Asks a judge for these rights, and sees that each answer is the one that is wanted.
fn ask(
    rt: &impl Abort,
    judge: &mut Judge,
    directory: &Directory,
    place: usize,
    list: &List,
    owners: &Owners,
    requests: &[(Name, u32, Decision)],
)
    requires { AreRight place directory.now owners.now list.now judge.old }
    ensures right { AreRight place directory.now owners.now list.now judge.new }
    ensures others { StayRight place judge.old judge.new }
{
    for (user, bits, wanted) in requests {
        let (mask, group) = (Mask::from_bits(*bits), owners.group.as_ref());
        let answer = judge.decide(place, list, &owners.owner, group, user, directory, mask);
        assert!(rt; answer == *wanted);
    }
}

// Asks a judge that keeps nothing for eight decisions on four buffers, each with its list, and then for all of them once more.
// What is asked a second time is told from what is kept: nothing more is kept then.
fn ask_twice(
    rt: &impl Abort,
    judge: &mut Judge,
    directory: &Directory,
    first: &List,
    shared: &List,
    apart: &List,
    together: &List,
)
    requires { judge.old ≡ [] }
{
    let (ann, bob, cat) = (named(rt, "ann"), named(rt, "bob"), named(rt, "cat"));
    let (of_ann, of_cat) = (owned(ann, None), owned(cat, None));
    let of_first = [
        (ann, 0x3, DENIED_BY_2),
        (ann, 0x1, Decision::Granted),
        (bob, 0x3, NO_READING),
    ];
    let of_shared = [
        (ann, 0x7, Decision::Granted),
        (bob, 0x2, DENIED_BY_2),
        (bob, 0x1, NO_READING),
    ];
    let of_apart = [(ann, 0x3, denied_by_1(Right::WriteData))];
    let of_together = [(ann, 0x3, denied_by_1(Right::ReadData))];
    ask(rt, judge, directory, 0, first, &of_cat, &of_first);
    ask(rt, judge, directory, 1, shared, &of_ann, &of_shared);
    ask(rt, judge, directory, 2, apart, &of_cat, &of_apart);
    ask(rt, judge, directory, 3, together, &of_cat, &of_together);
    assert!(rt; judge.kept() == 8);
    ask(rt, judge, directory, 0, first, &of_cat, &of_first);
    ask(rt, judge, directory, 1, shared, &of_ann, &of_shared);
    ask(rt, judge, directory, 2, apart, &of_cat, &of_apart);
    ask(rt, judge, directory, 3, together, &of_cat, &of_together);
    assert!(rt; judge.kept() == 8);
}

#[test]
fn a_judge_answers_the_same_twice(rt: HostRuntime) -> Result<(), Fail> {
    let mut judge = Judge::new(rt.alloc())?;
    let directory = staff(&rt, rt.alloc());
    let first = list_of(&rt, "ALLOW ann r\nDENY ann rw\nALLOW EVERYONE@ w");
    let shared = list_of(&rt, "ALLOW OWNER@ rwa\nDENY group:staff w");
    let apart = list_of(&rt, "DENY ann w\nDENY ann r");
    let together = list_of(&rt, "DENY ann wr");
    ask_twice(
        &rt, &mut judge, &directory, &first, &shared, &apart, &together,
    );
    judge.forget();
    assert!(rt; judge.kept() == 0);
    Ok(())
}

// Asks for one right by the owning group, and once more when it is not the owning group any more.
fn ask_members(
    rt: &impl Abort,
    judge: &mut Judge,
    directory: &Directory,
    list: &List,
    cat: Name,
    staff: Name,
)
    requires { judge.old ≡ [] }
{
    let bob = named(rt, "bob");
    let denied = Decision::DeniedBy {
        entry: 2,
        bit: Right::ReadData,
    };
    let of_staff = owned(cat, Some(staff));
    ask(
        rt,
        judge,
        directory,
        0,
        list,
        &of_staff,
        &[(bob, 0x1, Decision::Granted)],
    );
    assert!(rt; judge.kept() == 1);
    judge.forget();
    ask(
        rt,
        judge,
        directory,
        0,
        list,
        &owned(cat, None),
        &[(bob, 0x1, denied)],
    );
}

#[test]
fn a_judge_decides_by_the_owning_group(rt: HostRuntime) -> Result<(), Fail> {
    let mut judge = Judge::new(rt.alloc())?;
    let directory = staff(&rt, rt.alloc());
    let list = list_of(
        &rt,
        "ALLOW GROUP@ rt\nDENY EVERYONE@ r\nALLOW OWNER@ rwatdcCo",
    );
    let (cat, group) = (named(&rt, "cat"), named(&rt, "staff"));
    ask_members(&rt, &mut judge, &directory, &list, cat, group);
    Ok(())
}
