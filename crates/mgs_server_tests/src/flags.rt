// Whether a buffer was edited since it was made or saved, as its mode line tells, and who may take that back or save.
use super::steps::scripts_show;
use std::test::Fail;

#[test]
fn the_flag_tells_of_edits(rt: HostRuntime) -> Result<(), Fail> {
    let scripts = "
        == who may edit takes the flag back
        user ann
        user bob
        user cat
        buffer notes ann
        entry notes ALLOW ann rwat
        entry notes ALLOW bob rt
        entry notes ALLOW cat at
        text notes 'abc
        open a ann 6 60
        open b bob 6 60
        open c cat 6 60
        a M-~     | abc                 | --L1-C0     | 1 1
        a 'x      | xabc                | **L1-C1     | 1 2
        b M-~     | xabc                | **L1-C0     | 1 1 | Denied: no entry grants WRITE_DATA
        c M-~     | [no read: no entry] | **(no read) | 1 1 | Denied: no entry grants READ_DATA
        a M-~     | xabc                | --L1-C1     | 1 2
        b         | xabc                | --L1-C0     | 1 1 | Denied: no entry grants WRITE_DATA
        a C-b C-d | abc                 | **L1-C0     | 1 1
        a M-~     | abc                 | --L1-C0     | 1 1
        == a text without a file is not saved
        # A script's buffers have no files. Rights come first.
        user ann
        user bob
        user cat
        buffer notes ann
        entry notes ALLOW ann rwat
        entry notes ALLOW bob rt
        entry notes ALLOW cat at
        text notes 'abc
        open a ann 6 60
        open b bob 6 60
        open c cat 6 60
        a C-x C-s    | abc                 | --L1-C0     | 1 1 | No file
        a 'x C-x C-s | xabc                | **L1-C1     | 1 2 | No file
        b C-x C-s    | xabc                | **L1-C0     | 1 1 | Denied: no entry grants WRITE_DATA
        c C-x C-s    | [no read: no entry] | **(no read) | 1 1 | Denied: no entry grants READ_DATA
    ";
    scripts_show(&rt, rt.alloc(), "", scripts)
}
