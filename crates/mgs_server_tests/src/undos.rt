// Edits that are taken back, by whom it may be, each with what the terminal then shows.
use super::steps::{scripts_show, text_of};
use std::test::Fail;

const THREE: &str = "user ann\n\
    user bob\n\
    user cat\n\
    buffer notes ann\n\
    entry notes ALLOW ann rwat\n\
    entry notes ALLOW bob rwat\n\
    entry notes ALLOW cat rt\n\
    text notes 'abc\n\
    open a ann 6 60\n\
    open b bob 6 60\n\
    open c cat 6 60\n";

#[test]
fn edits_are_taken_back(rt: HostRuntime) -> Result<(), Fail> {
    let shared = "
        == edits are taken back in a run
        # A motion ends a run: the undo itself is then taken back.
        a C-_     | abc  | --L1-C0 | 1 1 | No further undo information
        a 'x      | xabc | **L1-C1 | 1 2
        a C-x 'u  | abc  | **L1-C0 | 1 1
        a C-_     | abc  | **L1-C0 | 1 1 | No further undo information
        a C-_     | abc  | **L1-C0 | 1 1 | No further undo information
        a C-f C-_ | xabc | **L1-C1 | 1 2
        a C-a C-k |      | **L1-C0 | 1 1
        a C-_     | xabc | **L1-C4 | 1 5
        a C-_     | abc  | **L1-C0 | 1 1
        a C-_     | xabc | **L1-C1 | 1 2
        a C-_     | abc  | **L1-C0 | 1 1
        a C-_     | abc  | **L1-C0 | 1 1 | No further undo information
        == who may edit takes back what another did
        a 'x 'y | xyabc | **L1-C2 | 1 3
        c C-_   | xyabc | **L1-C0 | 1 1 | Denied: no entry grants WRITE_DATA
        b C-_   | xabc  | **L1-C1 | 1 2
        a C-_   | xyabc | **L1-C2 | 1 3
        b C-_   | xabc  | **L1-C1 | 1 2
        == another edit ends a run
        a 'x 'y C-_ | xabc  | **L1-C1 | 1 2
        b M-> 'z    | xabcz | **L1-C5 | 1 6
        a C-_       | xabc  | **L1-C4 | 1 5
        a C-_       | xyabc | **L1-C2 | 1 3
        a C-_       | xabc  | **L1-C1 | 1 2
        a C-_       | abc   | **L1-C0 | 1 1
        a C-_       | abc   | **L1-C0 | 1 1 | No further undo information
    ";
    scripts_show(&rt, rt.alloc(), THREE, shared)?;
    let others = "
        == two people undo in turn
        user ann
        user bob
        buffer notes ann
        entry notes ALLOW EVERYONE@ rwat
        open a ann 6 60
        open b bob 6 60
        a 'ab     | ab | **L1-C2 | 1 3
        b C-_     | a  | **L1-C1 | 1 2
        a C-_     | ab | **L1-C2 | 1 3
        a C-_     | a  | **L1-C1 | 1 2
        a C-_     |    | **L1-C0 | 1 1
        a C-a C-_ | a  | **L1-C1 | 1 2
        == an undo needs reading
        # Who may not read a text may not take back what he put into it himself.
        user ann
        user bob
        buffer notes ann
        entry notes ALLOW ann rwat
        entry notes ALLOW bob at
        open a ann 6 60
        open b bob 6 60
        b 'x  | [no read: no entry] | **(no read) | 1 1
        b C-_ | [no read: no entry] | **(no read) | 1 1 | Denied: no entry grants READ_DATA
        a     | x                   | **L1-C0     | 1 1
    ";
    scripts_show(&rt, rt.alloc(), "", others)
}

// A hundred characters, and a hundred undos.
const TYPED: &str =
    "keys a 'xxxxxxxxxxxxxxxxxxxxxxxxxxxxxxxxxxxxxxxxxxxxxxxxxxxxxxxxxxxxxxxxxxxxxxxxxxxxxxxxxxxxxxxxxxxxxxxxxxxx\n";

const UNDONE: &str =
    "keys a C-_ C-_ C-_ C-_ C-_ C-_ C-_ C-_ C-_ C-_ C-_ C-_ C-_ C-_ C-_ C-_ C-_ C-_ C-_ C-_ C-_ C-_ C-_ C-_ C-_ C-_ C-_ C-_ C-_ C-_ C-_ C-_ C-_ C-_ C-_ C-_ C-_ C-_ C-_ C-_ C-_ C-_ C-_ C-_ C-_ C-_ C-_ C-_ C-_ C-_ C-_ C-_ C-_ C-_ C-_ C-_ C-_ C-_ C-_ C-_ C-_ C-_ C-_ C-_ C-_ C-_ C-_ C-_ C-_ C-_ C-_ C-_ C-_ C-_ C-_ C-_ C-_ C-_ C-_ C-_ C-_ C-_ C-_ C-_ C-_ C-_ C-_ C-_ C-_ C-_ C-_ C-_ C-_ C-_ C-_ C-_ C-_ C-_ C-_ C-_\n";

const SETTING: &str = "user ann\n\
    buffer notes ann\n\
    entry notes ALLOW ann rwat\n\
    open a ann 6 60\n";

// 1,001 characters are typed. Of these edits and those that undo them the record keeps the last 1,000: after 500 undos in a row
// the next one to take back is gone.
#[test]
fn a_thousand_edits_are_kept(rt: HostRuntime) -> Result<(), Fail> {
    let pieces = [(SETTING, 1), (TYPED, 10), ("keys a 'x\n", 1), (UNDONE, 5)];
    let setting = text_of(rt.alloc(), &pieces)?;
    let steps = "
        == a thousand edits are kept
        a     | $xxxxxxxxxxxxxxxxxxxxxxxxxxxxxxxxxxxx | **L1-C501 | 1 38
        a C-_ | $xxxxxxxxxxxxxxxxxxxxxxxxxxxxxxxxxxxx | **L1-C501 | 1 38 | No further undo information
        a C-_ | $xxxxxxxxxxxxxxxxxxxxxxxxxxxxxxxxxxxx | **L1-C501 | 1 38 | No further undo information
    ";
    scripts_show(&rt, rt.alloc(), setting.as_str(), steps)
}
