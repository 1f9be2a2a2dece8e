// Motions, deletions and kills, each with what the terminal then shows: at both ends of a text, with arguments of 0 and of more
// than there is, on an empty text, and with TABs.
use super::replay::NOTES;
use super::steps::scripts_show;
use std::test::Fail;

#[test]
fn points_move(rt: HostRuntime) -> Result<(), Fail> {
    let scripts = "
        == motions stop at both ends
        text notes 'hi RET TAB 'x SPC 'yz RET RET 'end
        open a ann 6 60
        a C-x '=          | hi/        x yz//end | --L1-C0  | 1 1  | char 104 point 0 of 13 line 1 column 0
        a C-b             | hi/        x yz//end | --L1-C0  | 1 1  | Beginning of buffer
        a C-p             | hi/        x yz//end | --L1-C0  | 1 1  | Beginning of buffer
        a M-b             | hi/        x yz//end | --L1-C0  | 1 1  | Beginning of buffer
        a M-{             | hi/        x yz//end | --L1-C0  | 1 1  | Beginning of buffer
        a C-a C-u '0 C-b  | hi/        x yz//end | --L1-C0  | 1 1
        a C-e             | hi/        x yz//end | --L1-C2  | 1 3
        a C-x '=          | hi/        x yz//end | --L1-C2  | 1 3  | char 10 point 2 of 13 line 1 column 2
        a C-f C-x '=      | hi/        x yz//end | --L2-C0  | 2 1  | char 9 point 3 of 13 line 2 column 0
        a C-f C-x '=      | hi/        x yz//end | --L2-C8  | 2 9  | char 120 point 4 of 13 line 2 column 8
        a C-e C-n         | hi/        x yz//end | --L3-C0  | 3 1
        a C-n             | hi/        x yz//end | --L4-C3  | 4 4
        a C-n             | hi/        x yz//end | --L4-C3  | 4 4  | End of buffer
        a C-f C-p C-p C-p | hi/        x yz//end | --L1-C2  | 1 3
        a M-> C-x '=      | hi/        x yz//end | --L4-C3  | 4 4  | end point 13 of 13 line 4 column 3
        a C-f             | hi/        x yz//end | --L4-C3  | 4 4  | End of buffer
        a C-n             | hi/        x yz//end | --L4-C3  | 4 4  | End of buffer
        a M-f             | hi/        x yz//end | --L4-C3  | 4 4  | End of buffer
        a M-}             | hi/        x yz//end | --L4-C3  | 4 4  | End of buffer
        a C-v             | hi/        x yz//end | --L4-C3  | 4 4  | End of buffer
        a C-u '0 C-f      | hi/        x yz//end | --L4-C3  | 4 4
        a C-u '9999 C-b   | hi/        x yz//end | --L1-C0  | 1 1
        a M-2 C-f         | hi/        x yz//end | --L1-C2  | 1 3
        a C-u '9999 C-f   | hi/        x yz//end | --L4-C3  | 4 4
        a M-2 C-b         | hi/        x yz//end | --L4-C1  | 4 2
        a M-<             | hi/        x yz//end | --L1-C0  | 1 1
        a M-f             | hi/        x yz//end | --L1-C2  | 1 3
        a M-2 M-f         | hi/        x yz//end | --L2-C12 | 2 13
        a M-9 M-f         | hi/        x yz//end | --L4-C3  | 4 4
        a M-b             | hi/        x yz//end | --L4-C0  | 4 1
        a M-9 M-b         | hi/        x yz//end | --L1-C0  | 1 1
        a M-}             | hi/        x yz//end | --L3-C0  | 3 1
        a M-}             | hi/        x yz//end | --L4-C3  | 4 4
        a M-{             | hi/        x yz//end | --L4-C0  | 4 1
        a M-{             | hi/        x yz//end | --L1-C0  | 1 1
        a C-u C-n         | hi/        x yz//end | --L4-C0  | 4 1
        a C-u '9 C-p      | hi/        x yz//end | --L1-C0  | 1 1
        == goals are kept over lines
        text notes 'abcdefghij RET 'ab RET TAB 'x RET 'abcdefghijkl RET RET 'q
        open a ann 6 60
        a C-e C-n            | abcdefghij/ab/        x/abcdefghijkl | --L2-C2  | 2 3
        a C-n                | abcdefghij/ab/        x/abcdefghijkl | --L3-C9  | 3 10
        a C-n                | abcdefghij/ab/        x/abcdefghijkl | --L4-C10 | 4 11
        a C-p C-p C-p        | abcdefghij/ab/        x/abcdefghijkl | --L1-C10 | 1 11
        a C-n C-f C-n C-n    |         x/abcdefghijkl//q            | --L5-C0  | 3 1
        a C-n                |         x/abcdefghijkl//q            | --L6-C0  | 4 1
        a C-n                |         x/abcdefghijkl//q            | --L6-C0  | 4 1  | End of buffer
        a C-n                |         x/abcdefghijkl//q            | --L6-C0  | 4 1  | End of buffer
        a C-p C-p            |         x/abcdefghijkl//q            | --L4-C0  | 2 1
        a C-l                | ab/        x/abcdefghijkl            | --L4-C0  | 3 1
        a M-<                | abcdefghij/ab/        x/abcdefghijkl | --L1-C0  | 1 1
        a C-v                | abcdefghij/ab/        x/abcdefghijkl | --L3-C0  | 3 1
        a C-v                |         x/abcdefghijkl//q            | --L5-C0  | 3 1
        a C-v                |         x/abcdefghijkl//q            | --L6-C0  | 4 1
        a C-v                |         x/abcdefghijkl//q            | --L6-C0  | 4 1  | End of buffer
        a M-v                |         x/abcdefghijkl//q            | --L4-C0  | 2 1
        a C-u '3 M-v         | abcdefghij/ab/        x/abcdefghijkl | --L1-C0  | 1 1
        a M-v                | abcdefghij/ab/        x/abcdefghijkl | --L1-C0  | 1 1  | Beginning of buffer
        a C-u '0 C-v         | abcdefghij/ab/        x/abcdefghijkl | --L1-C0  | 1 1
        a M-> C-u '2 M-v C-l | ab/        x/abcdefghijkl            | --L4-C0  | 3 1
        a C-u '0 C-n         | ab/        x/abcdefghijkl            | --L4-C0  | 3 1
        == an empty text has no way
        open a ann 6 60
        a C-x '=              |              | --L1-C0 | 1 1 | end point 0 of 0 line 1 column 0
        a C-f                 |              | --L1-C0 | 1 1 | End of buffer
        a C-b                 |              | --L1-C0 | 1 1 | Beginning of buffer
        a C-n                 |              | --L1-C0 | 1 1 | End of buffer
        a C-p                 |              | --L1-C0 | 1 1 | Beginning of buffer
        a C-v                 |              | --L1-C0 | 1 1 | End of buffer
        a M-v                 |              | --L1-C0 | 1 1 | Beginning of buffer
        a M-f                 |              | --L1-C0 | 1 1 | End of buffer
        a M-b                 |              | --L1-C0 | 1 1 | Beginning of buffer
        a M-}                 |              | --L1-C0 | 1 1 | End of buffer
        a M-{                 |              | --L1-C0 | 1 1 | Beginning of buffer
        a C-a C-e M-< M-> C-l |              | --L1-C0 | 1 1
        a C-d                 |              | --L1-C0 | 1 1 | End of buffer
        a DEL                 |              | --L1-C0 | 1 1 | Beginning of buffer
        a C-k                 |              | --L1-C0 | 1 1 | End of buffer
        a C-u '0 C-k          |              | --L1-C0 | 1 1
        a C-u '0 C-d          |              | --L1-C0 | 1 1
        a C-u '0 C-v          |              | --L1-C0 | 1 1
        a M-d                 |              | --L1-C0 | 1 1 | End of buffer
        a M-DEL               |              | --L1-C0 | 1 1 | Beginning of buffer
        a C-t                 |              | --L1-C0 | 1 1 | Beginning of buffer
        a C-w                 |              | --L1-C0 | 1 1 | No mark
        a M-w                 |              | --L1-C0 | 1 1 | No mark
        a C-u '0 'x           |              | --L1-C0 | 1 1
        a C-o                 |              | **L1-C0 | 1 1
        a C-j C-b             |              | **L1-C0 | 1 1
        a C-d                 |              | **L1-C0 | 1 1
        a SPC TAB 'a C-j      |         a/   | **L2-C8 | 2 9
        a C-a C-u '2 C-j      |         a/// | **L4-C0 | 4 1
        a M-< C-u '2 C-o      | //        a  | **L1-C0 | 1 1
        == a terminals arrows are motions
        text notes 'ab RET 'cd
        open a ann 6 60
        a C-e ESC '[D | ab/cd  | --L1-C1 | 1 2
        a ESC '[z     | ab/cd  | --L1-C1 | 1 2 | Key not bound
        a ESC '[B     | ab/cd  | --L2-C1 | 2 2
        a ESC '[C     | ab/cd  | --L2-C2 | 2 3
        a ESC '[C     | ab/cd  | --L2-C2 | 2 3 | End of buffer
        a ESC '[A     | ab/cd  | --L1-C2 | 1 3
        a M-2 ESC '[D | ab/cd  | --L1-C0 | 1 1
        a ESC '[ C-g  | ab/cd  | --L1-C0 | 1 1 | Quit
        a 'A          | Aab/cd | **L1-C1 | 1 2
    ";
    scripts_show(&rt, rt.alloc(), NOTES, scripts)
}

#[test]
fn texts_are_edited_at_the_point(rt: HostRuntime) -> Result<(), Fail> {
    let shared = "
        == characters go and change places
        text notes 'abcdef RET 'g
        open a ann 6 60
        a DEL             | abcdef/g | --L1-C0 | 1 1 | Beginning of buffer
        a C-t             | abcdef/g | --L1-C0 | 1 1 | Beginning of buffer
        a C-d             | bcdef/g  | **L1-C0 | 1 1
        a C-u '0 C-d      | bcdef/g  | **L1-C0 | 1 1
        a C-u '2 C-d      | def/g    | **L1-C0 | 1 1
        a C-e C-t         | dfe/g    | **L1-C3 | 1 4
        a C-b C-t         | def/g    | **L1-C3 | 1 4
        a C-f             | def/g    | **L2-C0 | 2 1
        a C-t             | defg     | **L2-C0 | 2 1
        a C-d             | defg     | **L2-C0 | 2 1 | End of buffer
        a C-t             | def/g    | **L2-C1 | 2 2
        a DEL             | def      | **L2-C0 | 2 1
        a C-u '99 DEL     |          | **L1-C0 | 1 1
        a M-< C-u '99 C-d |          | **L1-C0 | 1 1 | End of buffer
        a 'a C-t          | a        | **L1-C1 | 1 2 | Beginning of buffer
        a 'bc C-b C-t     | acb      | **L1-C3 | 1 4
        == stretches are killed
        text notes 'one SPC 'two RET RET TAB '3,4 RET 'end
        open a ann 6 60
        a M-DEL                       | one two//        3,4/end | --L1-C0 | 1 1 | Beginning of buffer
        a M-d                         |  two//        3,4/end    | **L1-C0 | 1 1
        a M-d                         | //        3,4/end        | **L1-C0 | 1 1
        a M-d                         | ,4/end                   | **L1-C0 | 1 1
        a M-DEL                       | ,4/end                   | **L1-C0 | 1 1 | Beginning of buffer
        a C-k                         | /end                     | **L1-C0 | 1 1
        a C-k                         | end                      | **L1-C0 | 1 1
        a C-f C-k                     | e                        | **L1-C1 | 1 2
        a C-p C-e C-u '0 C-k          |                          | **L1-C0 | 1 1
        a C-u '2 C-k                  |                          | **L1-C0 | 1 1 | End of buffer
        a C-k                         |                          | **L1-C0 | 1 1 | End of buffer
        a C-w                         |                          | **L1-C0 | 1 1 | No mark
        a M-w                         |                          | **L1-C0 | 1 1 | No mark
        a 'ab RET 'cd M-< C-k C-k C-k |                          | **L1-C0 | 1 1
        a C-k                         |                          | **L1-C0 | 1 1 | End of buffer
        a 'abc SPC 'de                | abc de                   | **L1-C6 | 1 7
        a M-9 M-DEL                   |                          | **L1-C0 | 1 1
        a M-DEL                       |                          | **L1-C0 | 1 1 | Beginning of buffer
        a 'x,y M-< M-9 M-d            |                          | **L1-C0 | 1 1
        == c q puts the next byte in
        text notes 'ab
        open a ann 6 60
        a C-q C-a                | ^Aab        | **L1-C2 | 1 3
        a C-q                    | ^Aab        | **L1-C2 | 1 3
        a ESC                    | ^A^[ab      | **L1-C4 | 1 5
        a C-q C-q C-q C-g C-q '5 | ^A^[^Q^G5ab | **L1-C9 | 1 10
        a C-u '0 C-q C-x C-g     | ^A^[^Q^G5ab | **L1-C9 | 1 10 | Quit
    ";
    scripts_show(&rt, rt.alloc(), NOTES, shared)?;
    let others = "
        == others follow and rights come first
        user ann
        user bob
        user cat
        user dan
        buffer notes ann
        entry notes ALLOW ann rwat
        entry notes ALLOW bob rwt
        entry notes ALLOW cat at
        entry notes DENY dan w
        entry notes ALLOW dan rwat
        text notes 'abcdef
        open a ann 6 60
        open b bob 6 60
        open c cat 6 60
        open d dan 6 60
        b C-u '4 C-f            | abcdef              | --L1-C4     | 1 5
        d C-e                   | abcdef              | --L1-C6     | 1 7
        a C-u '2 C-f C-u '3 C-d | abf                 | **L1-C2     | 1 3
        b                       | abf                 | **L1-C2     | 1 3
        d                       | abf                 | **L1-C3     | 1 4
        d C-k                   | abf                 | **L1-C3     | 1 4 | Denied: entry 4 denies WRITE_DATA
        d C-a C-k               | abf                 | **L1-C0     | 1 1 | Denied: entry 4 denies WRITE_DATA
        d C-d                   | abf                 | **L1-C0     | 1 1 | Denied: entry 4 denies WRITE_DATA
        d DEL                   | abf                 | **L1-C0     | 1 1 | Denied: entry 4 denies WRITE_DATA
        d M-d                   | abf                 | **L1-C0     | 1 1 | Denied: entry 4 denies WRITE_DATA
        d C-t                   | abf                 | **L1-C0     | 1 1 | Denied: entry 4 denies WRITE_DATA
        d C-w                   | abf                 | **L1-C0     | 1 1 | Denied: entry 4 denies WRITE_DATA
        d M-w                   | abf                 | **L1-C0     | 1 1 | No mark
        d C-o                   | abf                 | **L1-C0     | 1 1 | Denied: entry 4 denies WRITE_DATA
        d C-j                   | abf                 | **L1-C0     | 1 1 | Denied: entry 4 denies WRITE_DATA
        d C-e C-j               | abf                 | **L2-C0     | 2 1
        c C-o                   | [no read: no entry] | **(no read) | 1 1
        c C-k                   | [no read: no entry] | **(no read) | 1 1 | Denied: no entry grants READ_DATA
        c C-j                   | [no read: no entry] | **(no read) | 1 1 | Denied: no entry grants READ_DATA
        c C-x '=                | [no read: no entry] | **(no read) | 1 1 | Denied: no entry grants READ_DATA
        c M-w                   | [no read: no entry] | **(no read) | 1 1 | Denied: no entry grants READ_DATA
        c 'x                    | [no read: no entry] | **(no read) | 1 1
        a M->                   | abf//x              | **L3-C1     | 3 2
        b M-> 'x                | abf//x              | **L3-C1     | 3 2 | Denied: no entry grants APPEND_DATA
        b C-o                   | abf//x              | **L3-C1     | 3 2 | Denied: no entry grants APPEND_DATA
        b C-a DEL               | abf/x               | **L2-C0     | 2 1
        b C-k                   | abf                 | **L2-C0     | 2 1
        a                       | abf                 | **L2-C0     | 2 1
        d                       | abf                 | **L2-C0     | 2 1
    ";
    scripts_show(&rt, rt.alloc(), "", others)
}
