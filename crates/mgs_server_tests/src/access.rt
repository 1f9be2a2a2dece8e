// Access lists and owners are changed while others look, each step with what the terminal then shows.
use super::steps::{scripts_show, text_of};
use std::alloc::{AllocError, Global};
use std::test::Fail;

const BOTH: &str = "user ann\n\
    user bob\n\
    user cat\n\
    buffer notes ann\n\
    entry notes ALLOW OWNER@ rwatdcCo\n\
    entry notes ALLOW bob rwat\n\
    text notes 'one SPC 'two\n\
    buffer secret cat\n\
    entry secret ALLOW OWNER@ rwatdcCo\n\
    open a ann 6 60\n\
    open b bob 6 60\n";

#[test]
fn rights_are_taken_and_given(rt: HostRuntime) -> Result<(), Fail> {
    let shared = "
        == rights are revoked under another
        # What is revoked is gone from another's screen in that event, and a kill that was made stays its holder's.
        b M-d                          |  two                | **L1-C0          | 1 1
        b M-x 'acl-delete RET          |  two                | **L1-C0          | 1 1 | Denied: no entry grants WRITE_ACL
        a C-u '2 M-x 'acl-delete RET   |  two                | **L1-C0          | 1 1
        b                              | [no read: no entry] | :-??-?-(no read) | 1 1 | Denied: no entry grants WRITE_ACL
        b 'x                           | [no read: no entry] | :-??-?-(no read) | 1 1 | Denied: no entry grants APPEND_DATA
        a                              |  two                | **L1-C0          | 1 1
        b C-x 'b 'mine RET C-y         | one                 | :-**-mine-L1-C3  | 1 4
        a M-x 'acl-insert RET 'ALLOW SPC 'bob SPC 'rt RET |  two | **L1-C0        | 1 1
        b C-x 'b 'notes RET            |  two                | **L1-C0          | 1 1
        == a buffer gets another owner
        # A buffer that is given away is its new owner's in that event.
        a M-x 'set-owner RET           | one two | --L1-C0 | 6 8 | Owner:
        a 'eve TAB                     | one two | --L1-C0 | 1 1 | No match
        a RET                          | one two | --L1-C0 | 1 1 | No such user
        b M-x 'set-owner RET 'eve RET  | one two | --L1-C0 | 1 1 | Denied: no entry grants WRITE_OWNER
        a M-x 'set-owner RET 'ann RET  | one two | --L1-C0 | 1 1
        a M-x 'set-owner RET 'cat RET  | [no read: no entry] | :-??-?-(no read) | 1 1
        open c cat 6 60
        c C-e 'x                       | one twox | **L1-C8 | 1 9
        b                              | one twox | **L1-C0 | 1 1 | Denied: no entry grants WRITE_OWNER
        c C-x C-b                      | *       8 notes cat/        0 secret cat | :-Buffers | 1 1
        a C-x C-b                      |         | :-Buffers | 1 1
        == access lists are shown
        # The list of a buffer is changed from where it is shown, and follows what others do.
        a M-x 'acl-list RET            | 1 ALLOW OWNER@ rwatdcCo/2 ALLOW bob rwat | :-Acl-notes | 1 1
        b M-x 'acl-list RET            | one two | --L1-C0 | 1 1 | Denied: no entry grants READ_ACL
        a 'x                           | 1 ALLOW OWNER@ rwatdcCo/2 ALLOW bob rwat | :-Acl-notes | 1 1 | No buffer
        a C-u '2 M-x 'acl-insert RET   | 1 ALLOW OWNER@ rwatdcCo/2 ALLOW bob rwat | :-Acl-notes | 6 8 | Entry:
        a SPC 'ALLOW SPC SPC 'bob SPC 'cr RET | 1 ALLOW OWNER@ rwatdcCo/2 ALLOW bob rc/3 ALLOW bob rwat | :-Acl-notes | 1 1
        b M-x 'acl-list RET            | 1 ALLOW OWNER@ rwatdcCo/2 ALLOW bob rc/3 ALLOW bob rwat | :-Acl-notes | 1 1
        a C-v                          |         | :-Acl-notes | 1 1
        a M-v                          | 1 ALLOW OWNER@ rwatdcCo/2 ALLOW bob rc/3 ALLOW bob rwat | :-Acl-notes | 1 1
        a C-u '2 M-x 'acl-replace RET 'DENY SPC 'bob SPC 'c RET | 1 ALLOW OWNER@ rwatdcCo/2 DENY bob c/3 ALLOW bob rwat | :-Acl-notes | 1 1
        b                              | [no acl: entry 2] | :-Acl-notes | 1 1
        b C-v                          |         | :-Acl-notes | 1 1
        b M-v                          | [no acl: entry 2] | :-Acl-notes | 1 1
        a C-u '3 M-x 'acl-delete RET   | 1 ALLOW OWNER@ rwatdcCo/2 DENY bob c | :-Acl-notes | 1 1
        b                              | [no acl: entry 2] | :-Acl-? | 1 1
        a C-u '2 M-x 'acl-delete RET   | 1 ALLOW OWNER@ rwatdcCo | :-Acl-notes | 1 1
        b                              | [no acl: no entry] | :-Acl-? | 1 1
        a M-x 'set-owner RET 'cat RET  | [no acl: no entry] | :-Acl-? | 1 1
        a C-x 'k RET                   | [no acl: no entry] | :-Acl-? | 1 1 | Denied: no entry grants DELETE
        open c cat 6 60
        c M-x 'acl-list RET C-x 'k RET |         | :-None | 1 1
        b                              |         | :-None | 1 1
        a                              |         | :-None | 1 1 | Denied: no entry grants DELETE
        a M-x 'acl-list RET            |         | :-None | 1 1 | No buffer
        a M-x 'acl-delete RET          |         | :-None | 1 1 | No buffer
    ";
    scripts_show(&rt, rt.alloc(), BOTH, shared)?;
    let others = "
        == a list is emptied
        # Who shuts himself out sees it at once.
        user ann
        buffer notes ann
        entry notes ALLOW OWNER@ rwatdcCo
        open a ann 6 60
        a M-x 'acl-delete RET     | [no read: no entry] | :-??-?-(no read) | 1 1
        a C-f                     | [no read: no entry] | :-??-?-(no read) | 1 1 | Denied: no entry grants READ_DATA
        a 'x                      | [no read: no entry] | :-??-?-(no read) | 1 1 | Denied: no entry grants APPEND_DATA
        a C-x 'b 'notes RET       | [no read: no entry] | :-??-?-(no read) | 1 1 | Denied: no entry grants READ_ATTRIBUTES
        a M-x 'acl-list RET       | [no read: no entry] | :-??-?-(no read) | 1 1 | Denied: no entry grants READ_ACL
        a M-x 'set-owner RET RET  | [no read: no entry] | :-??-?-(no read) | 1 1 | Denied: no entry grants WRITE_OWNER
        == a new owner sees the buffer and the old one does not
        user ann
        user bob
        buffer notes ann
        entry notes ALLOW OWNER@ rwatdcCo
        buffer other ann
        entry other ALLOW OWNER@ rwatdcCo
        text notes 'ab
        text other 'x
        open a ann 6 60
        open b bob 6 60
        b C-x C-b                     |                     | :-Buffers        | 1 1
        a M-x 'set-owner RET 'bob RET | [no read: no entry] | :-??-?-(no read) | 1 1
        b                             |         2 notes bob | :-Buffers        | 1 1
        b C-x 'b 'notes RET           | ab                  | --L1-C0          | 1 1
        == another group owns a buffer
        # What the members of the owning group may do goes with it in that event, and comes back with it.
        user ann
        user bob
        user cat
        group staff ann bob
        buffer notes cat
        entry notes ALLOW GROUP@ rt
        entry notes DENY EVERYONE@ r
        entry notes ALLOW OWNER@ rwatdcCo
        text notes 'ab
        owngroup notes staff
        open b bob 6 60
        open c cat 6 60
        b                             | ab                  | --L1-C0             | 1 1
        c                             | [no read: entry 2]  | :----notes-(no read) | 1 1
        c C-x C-b                     |         2 notes cat:staff | :-Buffers     | 1 1
        c C-x 'b 'notes RET           | [no read: entry 2]  | :----notes-(no read) | 1 1
        c M-x 'set-group RET          | [no read: entry 2]  | :----notes-(no read) | 6 8 | Group:
        c 'sta TAB                    | [no read: entry 2]  | :----notes-(no read) | 1 1 | No match
        c 'x RET                      | [no read: entry 2]  | :----notes-(no read) | 1 1 | No such group
        c M-x 'set-group RET 'zzz RET | [no read: entry 2]  | :----notes-(no read) | 1 1 | No such group
        c M-x 'set-group RET 'cat RET | [no read: entry 2]  | :----notes-(no read) | 1 1 | No such group
        b                             | ab                  | --L1-C0             | 1 1
        b M-x 'set-group RET 'zzz RET | ab                  | --L1-C0             | 1 1 | Denied: no entry grants WRITE_OWNER
        c M-x 'set-group RET RET      | [no read: entry 2]  | :----notes-(no read) | 1 1
        b                             | [no read: entry 2]  | :-??-?-(no read)    | 1 1 | Denied: no entry grants WRITE_OWNER
        b M-x 'set-group RET RET      | [no read: entry 2]  | :-??-?-(no read)    | 1 1 | Denied: no entry grants WRITE_OWNER
        b C-f                         | [no read: entry 2]  | :-??-?-(no read)    | 1 1 | Denied: entry 2 denies READ_DATA
        c C-x C-b                     |         2 notes cat | :-Buffers           | 1 1
        c C-x 'b 'notes RET           | [no read: entry 2]  | :----notes-(no read) | 1 1
        c M-x 'set-group RET 'staff RET | [no read: entry 2] | :----notes-(no read) | 1 1
        b                             | ab                  | --L1-C0             | 1 1 | Denied: entry 2 denies READ_DATA
        c M-x 'acl-list RET           | 1 ALLOW GROUP@ rt/2 DENY EVERYONE@ r/3 ALLOW OWNER@ rwatdcCo | :-Acl-notes | 1 1
        c M-x 'set-group RET RET      | 1 ALLOW GROUP@ rt/2 DENY EVERYONE@ r/3 ALLOW OWNER@ rwatdcCo | :-Acl-notes | 1 1
        b                             | [no read: entry 2]  | :-??-?-(no read)    | 1 1 | Denied: entry 2 denies READ_DATA
        c M-x 'acl-replace RET 'ALLOW SPC 'GROUP SPC 'r RET | 1 ALLOW GROUP@ rt/2 DENY EVERYONE@ r/3 ALLOW OWNER@ rwatdcCo | :-Acl-notes | 1 1 | Bad entry: Who
        c M-x 'acl-replace RET 'DENY SPC 'GROUP@ SPC 'r RET | 1 DENY GROUP@ r/2 DENY EVERYONE@ r/3 ALLOW OWNER@ rwatdcCo | :-Acl-notes | 1 1
        == a place is decided by the list of who stands there
        user ann
        user bob
        buffer notes ann
        entry notes ALLOW EVERYONE@ rt
        entry notes ALLOW OWNER@ d
        buffer other ann
        entry other ALLOW EVERYONE@ t
        text notes 'ab
        text other 'x
        open a ann 6 60
        open b bob 6 60
        b                   | ab                  | --L1-C0              | 1 1
        keys a C-x 'k RET
        b                   |                     | :-None               | 1 1
        b C-x 'b 'other RET | [no read: no entry] | :----other-(no read) | 1 1
        == a buffer is killed under three sessions
        # Three sessions show the buffer that is killed, one of them twice.
        user ann
        user bob
        user cat
        buffer notes ann
        entry notes ALLOW OWNER@ rwatdcCo
        entry notes ALLOW EVERYONE@ rtc
        text notes 'abc
        open a ann 6 20
        open b bob 6 20
        open c cat 6 20
        keys b C-x '2 C-x 'o M-x 'acl-list RET
        show b
        screen b
        |abc                 |
        |                    |
        !----notes-L1-C0-----!
        |1 ALLOW OWNER@ rwat$|
        !-Acl-notes----------!
        |                    |
        cursor 4 1
        keys a C-x 'k 'notes RET
        show a
        screen a
        |                    |
        |                    |
        |                    |
        |                    |
        !-None---------------!
        |                    |
        cursor 1 1
        show b
        screen b
        |                    |
        |                    |
        !-None---------------!
        |                    |
        !-None---------------!
        |                    |
        cursor 4 1
        show c
        screen c
        |                    |
        |                    |
        |                    |
        |                    |
        !-None---------------!
        |                    |
        cursor 1 1
    ";
    scripts_show(&rt, rt.alloc(), "", others)
}

// A list of 64 entries.
const FULL_LIST: [(&str, usize); 3] = [
    (
        "user ann\nuser bob\nbuffer notes ann\nentry notes ALLOW OWNER@ rwatdcCo\n",
        1,
    ),
    ("entry notes ALLOW bob rt\n", 63),
    ("open a ann 6 60\nopen b bob 6 60\n", 1),
];

// A refused change tells why: the right comes first, then the text, then the number, then the room.
#[test]
fn entries_are_refused(rt: HostRuntime) -> Result<(), Fail> {
    let setting = text_of(rt.alloc(), &FULL_LIST)?;
    let steps = "
        == entries are refused
        a C-u '65 M-x 'acl-insert RET 'ALLOW SPC 'ann SPC 'r RET  |  | --L1-C0 | 1 1 | List full
        a M-x 'acl-insert RET 'ALLOW SPC 'ann SPC 'r RET          |  | --L1-C0 | 1 1 | List full
        a C-u '66 M-x 'acl-insert RET 'ALLOW SPC 'ann SPC 'r RET  |  | --L1-C0 | 1 1 | No such entry
        a C-u '0 M-x 'acl-insert RET 'ALLOW SPC 'ann SPC 'r RET   |  | --L1-C0 | 1 1 | No such entry
        a C-u '66 M-x 'acl-insert RET 'ALLOW SPC 'ann SPC 'x RET  |  | --L1-C0 | 1 1 | Bad entry: Letters
        a C-u '66 M-x 'acl-replace RET 'allow SPC 'ann SPC 'r RET |  | --L1-C0 | 1 1 | Bad entry: Kind
        a C-u '65 M-x 'acl-replace RET 'ALLOW SPC 'ann SPC 'r RET |  | --L1-C0 | 1 1 | No such entry
        a C-u '65 M-x 'acl-delete RET                             |  | --L1-C0 | 1 1 | No such entry
        b C-u '65 M-x 'acl-insert RET 'ALLOW SPC 'ann SPC 'x RET  |  | --L1-C0 | 1 1 | Denied: no entry grants WRITE_ACL
        b C-u '65 M-x 'acl-replace RET RET                        |  | --L1-C0 | 1 1 | Denied: no entry grants WRITE_ACL
        b C-u '65 M-x 'acl-delete RET                             |  | --L1-C0 | 1 1 | Denied: no entry grants WRITE_ACL
        a C-u '64 M-x 'acl-delete RET                             |  | --L1-C0 | 1 1
        a C-u '64 M-x 'acl-insert RET 'DENY SPC 'bob SPC 'w RET   |  | --L1-C0 | 1 1
        b 'x                                                      |  | --L1-C0 | 1 1 | Denied: no entry grants APPEND_DATA
        a M-x 'acl-insert RET 'DENY SPC 'bob SPC 'w RET           |  | --L1-C0 | 1 1 | List full
    ";
    scripts_show(&rt, rt.alloc(), setting.as_str(), steps)
}

fn push_buffers(setting: &mut String) -> Result<(), AllocError> {
    setting.push_str("user ann\n")?;
    for i in 0..255usize {
        writeln!(setting, "buffer b{i} ann")?;
    }
    setting.push_str("open a ann 6 60\n")
}

// As many buffers as there may be: the last is made in the run.
fn all_buffers_but_one(alloc: Global) -> Result<String, AllocError> {
    let mut setting = String::new(alloc);
    push_buffers(&mut setting)?;
    Ok(setting)
}

#[test]
fn there_are_256_buffers(rt: HostRuntime) -> Result<(), Fail> {
    let setting = all_buffers_but_one(rt.alloc())?;
    let steps = "
        == there are 256 buffers
        a C-f                     |             | :-None         | 1 1 | No buffer
        a C-x C-f 'new RET        |             | :----new-L1-C0 | 1 1
        a C-x C-f 'newer RET      |             | :----new-L1-C0 | 1 1 | Too many buffers
        a C-x 'b 'a SPC 'b RET    |             | :----new-L1-C0 | 1 1 | Bad name
        a C-x 'b 'b7 RET          |             | :----new-L1-C0 | 1 1 | Denied: no entry grants READ_ATTRIBUTES
        a M-x 'acl-list RET       | 1 ALLOW OWNER@ rwatdcCo | :-Acl-new | 1 1
        a C-x C-b                 |         0 new ann | :-Buffers | 1 1
    ";
    scripts_show(&rt, rt.alloc(), setting.as_str(), steps)
}
