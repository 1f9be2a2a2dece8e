// Lines by their numbers (C-x g), each step with what the terminal then shows.
use super::steps::scripts_show;
use std::test::Fail;

const LINES: &str = "user ann\n\
    user bob\n\
    user cat\n\
    buffer notes ann\n\
    entry notes ALLOW OWNER@ rwatdcCo\n\
    entry notes ALLOW bob at\n\
    text notes 'ab RET 'cd RET 'ef\n\
    open a ann 6 60\n";

#[test]
fn lines_are_gone_to(rt: HostRuntime) -> Result<(), Fail> {
    let scripts = "
        == a line is asked for
        a M-> C-x 'g             | ab/cd/ef | --L3-C2 | 6 12 | Goto line:
        a 'x RET                 | ab/cd/ef | --L3-C2 | 3 3  | Not a number
        a C-x 'g '0 RET          | ab/cd/ef | --L1-C0 | 1 1
        a C-x 'g '0000002 RET    | ab/cd/ef | --L2-C0 | 2 1
        a C-x 'g '00000001 RET   | ab/cd/ef | --L2-C0 | 2 1  | Not a number
        a C-x 'g RET             | ab/cd/ef | --L2-C0 | 2 1  | Not a number
        a C-x 'g '9999999 RET    | ab/cd/ef | --L3-C0 | 3 1
        == a line is told by the argument
        # With an argument nothing is asked. M-x hands its own on.
        a C-u '3 C-x 'g             | ab/cd/ef | --L3-C0 | 3 1
        a M-0 C-x 'g                | ab/cd/ef | --L1-C0 | 1 1
        a C-u '2 M-x 'goto-line RET | ab/cd/ef | --L2-C0 | 2 1
        a M-x 'goto-line RET        | ab/cd/ef | --L2-C0 | 6 12 | Goto line:
        a '3 RET                    | ab/cd/ef | --L3-C0 | 3 1
        open b bob 6 60
        b C-x 'g                    | [no read: no entry] | :----notes-(no read) | 6 12 | Goto line:
        b '1 RET                    | [no read: no entry] | :----notes-(no read) | 1 1 | Denied: no entry grants READ_DATA
        b C-u '2 C-x 'g             | [no read: no entry] | :----notes-(no read) | 1 1 | Denied: no entry grants READ_DATA
        open c cat 6 60
        c C-x 'g '1 RET             |  | :-None | 1 1 | No buffer
    ";
    scripts_show(&rt, rt.alloc(), LINES, scripts)
}
