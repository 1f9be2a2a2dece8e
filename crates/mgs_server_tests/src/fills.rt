// Paragraphs that are filled, each with what the terminal then shows.
use super::replay::NOTES;
use super::steps::scripts_show;
use std::test::Fail;

#[test]
fn paragraphs_are_filled(rt: HostRuntime) -> Result<(), Fail> {
    let shared = "
        == words are filled up to the column
        text notes 'aa SPC 'bb SPC 'cc SPC 'dd SPC 'ee
        open a ann 6 60
        a C-x 'f             | aa bb cc dd ee   | --L1-C0  | 1 1  | No argument
        a C-u '0 C-x 'f      | aa bb cc dd ee   | --L1-C0  | 1 1  | Bad column
        a C-u '10 C-x 'f     | aa bb cc dd ee   | --L1-C0  | 1 1
        a M-q                | aa bb cc/dd ee   | **L2-C5  | 2 6
        a C-_                | aa bb cc dd ee   | **L1-C14 | 1 15
        a C-u '5 C-x 'f M-q  | aa bb/cc dd/ee   | **L3-C2  | 3 3
        a C-u '4 C-x 'f      | aa bb/cc dd/ee   | **L3-C2  | 3 3
        a 'eee C-u '8 C-x 'f | aa bb/cc dd/eeeee | **L3-C5 | 3 6
        a M-q                | aa bb cc/dd eeeee | **L2-C8 | 2 9
        == paragraphs stay apart
        # The paragraph around the point alone is filled. A word that passes the column stands alone.
        text notes RET 'a TAB 'b RET 'c SPC SPC 'd
        open a ann 6 60
        a M-q                    | /a       b/c  d | --L1-C0 | 1 1
        a C-n M-q                | /a b c d        | **L2-C7 | 2 8
        a C-m 'long C-u '3 C-x 'f | /a b c d/long  | **L3-C4 | 3 5
        a M-q                    | /a b/c d/long   | **L4-C4 | 4 5
        a M-< M-q                | /a b/c d/long   | **L1-C0 | 1 1
        == each session has its column
        text notes 'aa SPC SPC 'bb
        open a ann 6 60
        open b ann 6 60
        a C-u '3 C-x 'f | aa  bb | --L1-C0 | 1 1
        b M-q           | aa bb  | **L1-C5 | 1 6
        a M-q           | aa/bb  | **L2-C2 | 2 3
    ";
    scripts_show(&rt, rt.alloc(), NOTES, shared)?;
    let others = "
        == filling needs reading and writing
        user ann
        user bob
        user cat
        buffer notes ann
        entry notes ALLOW bob rt
        entry notes ALLOW cat wat
        text notes 'ab SPC SPC 'cd
        open b bob 6 60
        open c cat 6 60
        b M-q    | ab  cd              | --L1-C0     | 1 1 | Denied: no entry grants WRITE_DATA
        c M-q    | [no read: no entry] | --(no read) | 1 1 | Denied: no entry grants READ_DATA
        c C-x 'f | [no read: no entry] | --(no read) | 1 1 | No argument
    ";
    scripts_show(&rt, rt.alloc(), "", others)
}
