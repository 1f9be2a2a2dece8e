// Entries of access lists, as they are read and printed.
use crate::people::{entry_of, named};
use mgs_acl::{EntryFault, group_named, print_entry, read_entry, user_named};
use mgs_model::{Entry, EntryType, Mask, Who};
use std::process::Abort;

// The bits of a mask are those of RFC 8881, section 6.2.1.3.1.
const READ: [(&str, &str, u32); 8] = [
    ("ALLOW OWNER@ rwatdcCo", "ALLOW OWNER@ rwatdcCo", 0xf_0087),
    ("ALLOW OWNER@ oCcdtawr", "ALLOW OWNER@ rwatdcCo", 0xf_0087),
    (" DENY  group:staff  awr ", "DENY group:staff rwa", 0x7),
    (" DENY  ann  awr ", "DENY ann rwa", 0x7),
    ("ALLOW EVERYONE@ trt", "ALLOW EVERYONE@ rt", 0x81),
    ("ALLOW GROUP@ r", "ALLOW GROUP@ r", 0x1),
    ("DENY ann C", "DENY ann C", 0x4_0000),
    (
        "ALLOW group:abcdefghijklmnopqrstuvwxyz-_0123 rwatdcCo",
        "ALLOW group:abcdefghijklmnopqrstuvwxyz-_0123 rwatdcCo",
        0xf_0087,
    ),
];

const FAULTS: [(&str, EntryFault); 12] = [
    ("deny ann r", EntryFault::Kind),
    ("", EntryFault::Kind),
    ("ALLOW Ann r", EntryFault::Who),
    ("DENY group: r", EntryFault::Who),
    ("DENY group:Staff r", EntryFault::Who),
    ("DENY groups:staff r", EntryFault::Who),
    ("ALLOW GROUP r", EntryFault::Who),
    ("ALLOW group@ r", EntryFault::Who),
    ("ALLOW group:GROUP@ r", EntryFault::Who),
    ("ALLOW ann", EntryFault::Letters),
    ("ALLOW ann x", EntryFault::Letters),
    ("ALLOW ann r w", EntryFault::Trailing),
];

// Whether an entry is printed so, and has these bits.
fn is_printed(entry: &Entry, printed: &str, bits: u32) -> bool {
    print_entry(entry).as_str() == printed && entry.mask.bits() == bits
}

#[test]
fn entries_are_read_and_printed(rt: HostRuntime) {
    for &(text, printed, bits) in &READ {
        let entry = entry_of(&rt, text);
        assert!(rt; is_printed(&entry, printed, bits), "{text}");
    }
    for &(text, fault) in &FAULTS {
        assert!(rt; read_entry(text) == Err(fault), "{text}");
    }
}

#[test]
fn entries_are_what_they_spell(rt: HostRuntime) {
    let (ann, staff) = (named(&rt, "ann"), named(&rt, "staff"));
    for &(text, entry_type, who, bits) in &[
        (
            "ALLOW OWNER@ rwatdcCo",
            EntryType::Allow,
            Who::Owner,
            0xf_0087,
        ),
        (
            " DENY  group:staff  awr ",
            EntryType::Deny,
            Who::Group(staff),
            0x7,
        ),
        (" DENY  ann  awr ", EntryType::Deny, Who::User(ann), 0x7),
        ("DENY GROUP@ rr", EntryType::Deny, Who::OwningGroup, 0x1),
        ("ALLOW EVERYONE@ rrr", EntryType::Allow, Who::Everyone, 0x1),
    ] {
        let entry = Entry {
            entry_type,
            who,
            mask: Mask::from_bits(bits),
        };
        assert!(rt; read_entry(text) == Ok(entry));
    }
    assert!(rt; user_named("ann") == Some(ann));
    assert!(rt; user_named("Ann") == None);
    assert!(rt; group_named(Some("staff")) == Some(Some(staff)));
    assert!(rt; group_named(Some("Staff")) == None);
    assert!(rt; group_named(None) == Some(None));
}
