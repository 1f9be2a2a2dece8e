// The case of letters, white space and blank lines, each with what the terminal then shows.
use super::replay::NOTES;
use super::steps::scripts_show;
use std::test::Fail;

#[test]
fn case_and_white_are_changed(rt: HostRuntime) -> Result<(), Fail> {
    let shared = "
        == words and regions change their case
        text notes 'one SPC 'tWO SPC '3dEf
        open a ann 6 60
        a M-u                   | ONE tWO 3dEf | **L1-C3  | 1 4
        a M-c                   | ONE Two 3dEf | **L1-C7  | 1 8
        a M-c                   | ONE Two 3Def | **L1-C12 | 1 13
        a M-c                   | ONE Two 3Def | **L1-C12 | 1 13 | End of buffer
        a C-a C-u '3 M-l        | one two 3def | **L1-C12 | 1 13
        a C-x C-u               | one two 3def | **L1-C12 | 1 13 | No mark
        a M-< C-SPC M-f C-x C-u | ONE two 3def | **L1-C3  | 1 4
        a C-x C-x C-x C-l       | one two 3def | **L1-C0  | 1 1
        a C-_                   | ONE two 3def | **L1-C3  | 1 4
        == white and blank lines go
        text notes 'a SPC SPC TAB 'b RET RET RET 'c RET SPC 'd
        open a ann 6 60
        a C-f M-SPC                   | a b///c | **L1-C2 | 1 3
        a M-\\                        | ab///c  | **L1-C1 | 1 2
        a C-x C-o                     | ab/c/ d | **L1-C1 | 1 2
        a C-n C-n M-^                 | ab/c d  | **L2-C1 | 2 2
        a M-< M-^                     | ab/c d  | **L1-C0 | 1 1 | Beginning of buffer
        a C-e RET RET RET C-p C-x C-o | ab//c d | **L2-C0 | 2 1
    ";
    scripts_show(&rt, rt.alloc(), NOTES, shared)?;
    let others = "
        == case and white need reading and writing
        user ann
        user bob
        user cat
        buffer notes ann
        entry notes ALLOW bob rt
        entry notes ALLOW cat wat
        text notes 'ab SPC SPC 'cd
        open b bob 6 60
        open c cat 6 60
        b M-u     | ab  cd              | --L1-C0     | 1 1 | Denied: no entry grants WRITE_DATA
        b M-SPC   | ab  cd              | --L1-C0     | 1 1 | Denied: no entry grants WRITE_DATA
        c C-x C-l | [no read: no entry] | --(no read) | 1 1 | Denied: no entry grants READ_DATA
        c M-^     | [no read: no entry] | --(no read) | 1 1 | Denied: no entry grants READ_DATA
    ";
    scripts_show(&rt, rt.alloc(), "", others)
}
