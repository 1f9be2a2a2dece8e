// Searches for what was typed (M-s, M-r), each step with what the terminal then shows.
use super::steps::scripts_show;
use std::test::Fail;

const TEXT: &str = "user ann\n\
    user bob\n\
    user cat\n\
    buffer notes ann\n\
    entry notes ALLOW OWNER@ rwatdcCo\n\
    entry notes ALLOW bob at\n\
    text notes 'ab RET 'cAb RET 'xab\n\
    open a ann 6 60\n";

#[test]
fn texts_are_searched(rt: HostRuntime) -> Result<(), Fail> {
    let scripts = "
        == a text is searched
        # Forward the place of action counts, and backward it does not. The case of letters is ignored.
        a M-s             | ab/cAb/xab | --L1-C0 | 6 9 | Search:
        a 'ab RET         | ab/cAb/xab | --L1-C2 | 1 3
        a M-s 'aB RET     | ab/cAb/xab | --L2-C3 | 2 4
        a M-s 'Ab RET     | ab/cAb/xab | --L3-C3 | 3 4
        a M-s 'ab RET     | ab/cAb/xab | --L3-C3 | 3 4 | Not found
        a M-r             | ab/cAb/xab | --L3-C3 | 6 9 | Search:
        a 'AB RET         | ab/cAb/xab | --L3-C1 | 3 2
        a M-r 'ab RET     | ab/cAb/xab | --L2-C1 | 2 2
        a M-r 'ab RET     | ab/cAb/xab | --L1-C0 | 1 1
        a M-r 'ab RET     | ab/cAb/xab | --L1-C0 | 1 1 | Not found
        == a search wants something to look for
        # Nothing was searched for before, so an empty answer looks for nothing. The argument means nothing.
        a C-f M-s RET                   | ab/cAb/xab | --L1-C1 | 1 2 | No pattern
        a M-r RET                       | ab/cAb/xab | --L1-C1 | 1 2 | No pattern
        a M-s 'x C-g                    | ab/cAb/xab | --L1-C1 | 1 2 | Quit
        a C-u '3 M-s 'x RET             | ab/cAb/xab | --L3-C1 | 3 2
        a M-x 'search-backward RET 'c RET | ab/cAb/xab | --L2-C0 | 2 1
        a M-x 'search-f TAB RET 'cabx RET | ab/cAb/xab | --L2-C0 | 2 1 | Not found
        == a search needs reading
        open b bob 6 60
        b M-s 'ab RET     | [no read: no entry] | :----notes-(no read) | 1 1 | Denied: no entry grants READ_DATA
        b M-r RET         | [no read: no entry] | :----notes-(no read) | 1 1 | Denied: no entry grants READ_DATA
        open c cat 6 60
        c M-s 'ab RET     |  | :-None | 1 1 | No buffer
    ";
    scripts_show(&rt, rt.alloc(), TEXT, scripts)
}
