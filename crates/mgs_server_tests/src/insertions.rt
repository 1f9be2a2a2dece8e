// The text of a buffer that comes into another (M-x insert-buffer), each step with what the terminal then shows.
use super::steps::scripts_show;
use std::test::Fail;

const THREE: &str = "user ann\n\
    user bob\n\
    user cat\n\
    user dan\n\
    buffer notes ann\n\
    entry notes ALLOW OWNER@ rwatdcCo\n\
    entry notes ALLOW bob rt\n\
    entry notes ALLOW cat at\n\
    buffer names ann\n\
    entry names ALLOW OWNER@ rwatdcCo\n\
    entry names ALLOW bob r\n\
    buffer blank ann\n\
    entry blank ALLOW OWNER@ rwatdcCo\n\
    buffer secret cat\n\
    entry secret ALLOW OWNER@ rwatdcCo\n\
    text notes 'ab RET 'cd\n\
    text names 'xy RET 'z\n\
    text secret 'shh\n\
    open a ann 6 60\n";

#[test]
fn texts_come_into_others(rt: HostRuntime) -> Result<(), Fail> {
    let scripts = "
        == a text comes into another
        # The mark is set before what comes in, and the point goes behind it. The argument is no number of times.
        a C-f M-x 'ins TAB RET                    | ab/cd       | --L1-C1 | 6 16 | Insert buffer:
        a 'na TAB                                 | ab/cd       | --L1-C1 | 6 21 | Insert buffer: names
        a RET                                     | axy/zb/cd   | **L2-C1 | 2 2
        a C-x C-x                                 | axy/zb/cd   | **L1-C1 | 1 2
        a C-_                                     | ab/cd       | **L1-C1 | 1 2
        a C-u '3 M-x 'insert-buffer RET 'notes RET | aab/cdb/cd | **L2-C2 | 2 3
        a C-x C-x                                 | aab/cdb/cd  | **L1-C1 | 1 2
        a M-x 'insert-buffer RET 's TAB           | aab/cdb/cd  | **L1-C1 | 1 2 | No match
        a C-g                                     | aab/cdb/cd  | **L1-C1 | 1 2 | Quit
        == an empty text is no edit
        # What takes out nothing and puts in nothing is no edit, but the mark is set.
        a C-f M-x 'insert-buffer RET 'blank RET | ab/cd | --L1-C1 | 1 2
        a C-f C-x C-x                           | ab/cd | --L1-C1 | 1 2
        a C-_                                   | ab/cd | --L1-C1 | 1 2 | No further undo information
        a M-x 'insert-buffer RET 'secret RET    | ab/cd | --L1-C1 | 1 2 | Denied: no entry grants READ_DATA
        a M-x 'insert-buffer RET 'none RET      | ab/cd | --L1-C1 | 1 2 | No such buffer
        a M-x 'insert-buffer RET RET            | ab/cd | --L1-C1 | 1 2 | No such buffer
        == rights on both are judged
        # A source that is not there is told first, then the right on it, and then the one on the buffer that is shown.
        open b bob 6 60
        b M-x 'insert-buffer RET 'none RET     | ab/cd | --L1-C0 | 1 1 | No such buffer
        b M-x 'insert-buffer RET 'secret RET   | ab/cd | --L1-C0 | 1 1 | Denied: no entry grants READ_DATA
        b M-x 'insert-buffer RET 'names RET    | ab/cd | --L1-C0 | 1 1 | Denied: no entry grants WRITE_DATA
        b M-> M-x 'insert-buffer RET 'names RET | ab/cd | --L2-C2 | 2 3 | Denied: no entry grants APPEND_DATA
        open c cat 6 60
        c M-x 'insert-buffer RET 'secret RET   | [no read: no entry] | :-**-notes-(no read) | 1 1
        b C-b                                  | ab/cdshh | **L2-C1 | 2 2
        open d dan 6 60
        d M-x 'insert-buffer RET 'none RET     |       | :-None  | 1 1 | No buffer
    ";
    scripts_show(&rt, rt.alloc(), THREE, scripts)
}
