// Decisions on all rights of a mask, and on one right.
use crate::people::{list_of, named, owned, staff};
use mgs_acl::List;
use mgs_model::{Decision, Mask, Name, Owners, Right};
use mgs_policy::{Directory, decide, decide_right, is_granted};
use std::process::Abort;

const NO_READING: Decision = Decision::NotGranted {
    bit: Right::ReadData,
};

const NO_WRITING: Decision = Decision::NotGranted {
    bit: Right::WriteData,
};

const DENIED_BY_2: Decision = Decision::DeniedBy {
    entry: 2,
    bit: Right::WriteData,
};

// A user, the bits that are asked for, and what is decided: 1 is to read, 2 to write, 4 to append (RFC 8881, section 6.2.1.3.1).
type Asked = (Name, u32, Decision);

// Whether a list decides so on all that is asked for.
fn decides(list: &List, owners: &Owners, directory: &Directory, asked: &[Asked]) -> bool {
    for (user, bits, decision) in asked {
        let mask = Mask::from_bits(*bits);
        let group = owners.group.as_ref();
        if decide(list, &owners.owner, group, user, directory, mask) != *decision {
            return false;
        }
    }
    true
}

#[test]
fn lists_decide(rt: HostRuntime) {
    let (ann, bob, cat) = (named(&rt, "ann"), named(&rt, "bob"), named(&rt, "cat"));
    let (of_ann, of_cat) = (owned(ann, None), owned(cat, None));
    let nobody = Directory::new(rt.alloc());
    let list = list_of(&rt, "ALLOW ann r\nDENY ann rw\nALLOW EVERYONE@ w");
    let asked = [
        (ann, 0x3, DENIED_BY_2),
        (bob, 0x3, NO_READING),
        (ann, 0x1, Decision::Granted),
        (bob, 0x1, NO_READING),
        (ann, 0x2, DENIED_BY_2),
        (bob, 0x2, Decision::Granted),
        (bob, 0x0, Decision::Granted),
    ];
    assert!(rt; decides(&list, &of_cat, &nobody, &asked));
    for &(entries, bit) in &[
        ("DENY ann w\nDENY ann r", Right::WriteData),
        ("DENY ann wr", Right::ReadData),
    ] {
        let asked = [(ann, 0x3, Decision::DeniedBy { entry: 1, bit })];
        assert!(rt; decides(&list_of(&rt, entries), &of_cat, &nobody, &asked));
    }
    let list = list_of(&rt, "ALLOW OWNER@ rwa\nDENY group:staff w");
    let asked = [
        (ann, 0x7, Decision::Granted),
        (bob, 0x2, DENIED_BY_2),
        (bob, 0x1, NO_READING),
        (cat, 0x2, NO_WRITING),
    ];
    assert!(rt; decides(&list, &of_ann, &staff(&rt, rt.alloc()), &asked));
}

// An entry for the owning group matches its members, of whom the owner need not be one; without a group it matches nobody.
#[test]
fn lists_decide_by_the_owning_group(rt: HostRuntime) {
    let (ann, bob, cat) = (named(&rt, "ann"), named(&rt, "bob"), named(&rt, "cat"));
    let directory = staff(&rt, rt.alloc());
    let of_staff = owned(cat, Some(named(&rt, "staff")));
    let list = list_of(
        &rt,
        "ALLOW GROUP@ rt\nDENY EVERYONE@ r\nALLOW OWNER@ rwatdcCo",
    );
    let denied = Decision::DeniedBy {
        entry: 2,
        bit: Right::ReadData,
    };
    let asked = [
        (ann, 0x1, Decision::Granted),
        (bob, 0x1, Decision::Granted),
        (bob, 0x81, Decision::Granted),
        (bob, 0x3, NO_WRITING),
        (cat, 0x1, denied),
        (cat, 0x8_0000, Decision::Granted),
    ];
    assert!(rt; decides(&list, &of_staff, &directory, &asked));
    let asked = [(ann, 0x1, denied), (bob, 0x1, denied), (cat, 0x1, denied)];
    for &group in &[None, Some(named(&rt, "crew")), Some(named(&rt, "cat"))] {
        assert!(rt; decides(&list, &owned(cat, group), &directory, &asked));
    }
    let list = list_of(&rt, "ALLOW group:staff w\nDENY GROUP@ r\nALLOW EVERYONE@ r");
    let asked = [
        (bob, 0x1, denied),
        (bob, 0x2, Decision::Granted),
        (cat, 0x1, Decision::Granted),
    ];
    assert!(rt; decides(&list, &of_staff, &directory, &asked));
}

#[test]
fn lists_decide_on_one_right(rt: HostRuntime) {
    let (ann, bob, cat) = (named(&rt, "ann"), named(&rt, "bob"), named(&rt, "cat"));
    let (of_ann, of_cat) = (owned(ann, None), owned(cat, None));
    let nobody = Directory::new(rt.alloc());
    let list = list_of(&rt, "ALLOW ann r\nDENY ann rw\nALLOW EVERYONE@ w");
    assert!(rt; is_granted(&list, &of_cat, &bob, &nobody, Right::WriteData));
    assert!(rt; !is_granted(&list, &of_cat, &bob, &nobody, Right::ReadData));
    let denied = Decision::DeniedBy {
        entry: 1,
        bit: Right::WriteData,
    };
    let list = list_of(&rt, "DENY ann w\nDENY ann r");
    assert!(rt; decide_right(&list, &of_cat, &ann, &nobody, Right::WriteData) == denied);
    let list = list_of(&rt, "ALLOW OWNER@ r");
    for &(user, decision) in &[(ann, Decision::Granted), (bob, NO_READING)] {
        assert!(rt; decide_right(&list, &of_ann, &user, &nobody, Right::ReadData) == decision);
    }
}
