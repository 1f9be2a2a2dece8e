// The mark, and what was killed or copied put back, each with what the terminal then shows.
use super::replay::NOTES;
use super::steps::scripts_show;
use std::test::Fail;

#[test]
fn kills_are_put_back(rt: HostRuntime) -> Result<(), Fail> {
    let shared = "
        == what was killed is yanked
        text notes 'one SPC 'two RET 'ab RET 'cd
        open a ann 6 60
        a C-y                 | one two/ab/cd | --L1-C0 | 1 1 | Nothing to yank
        a C-u '0 C-y          | one two/ab/cd | --L1-C0 | 1 1 | Nothing to yank
        a M-d M-d             | /ab/cd        | **L1-C0 | 1 1
        a C-y C-x '=          | one two/ab/cd | **L1-C7 | 1 8 | char 10 point 7 of 13 line 1 column 7
        a C-x C-x             | one two/ab/cd | **L1-C0 | 1 1
        a C-x C-x             | one two/ab/cd | **L1-C7 | 1 8
        a C-n C-a C-k C-k C-k | one two/      | **L2-C0 | 2 1
        a C-y                 | one two/ab/cd | **L3-C2 | 3 3
        a C-u '0 C-y          | one two/ab/cd | **L3-C2 | 3 3
        a C-x C-x             | one two/ab/cd | **L3-C2 | 3 3
        == the mark bounds what is killed
        text notes 'abc
        open a ann 6 60
        a C-x C-x         | abc        | --L1-C0  | 1 1  | No mark
        a C-w             | abc        | --L1-C0  | 1 1  | No mark
        a C-SPC           | abc        | --L1-C0  | 1 1  | Mark set
        a C-f C-f M-w C-y | ababc      | **L1-C4  | 1 5
        a C-x C-x         | ababc      | **L1-C2  | 1 3
        a M-2 C-y         | ababababc  | **L1-C6  | 1 7
        a C-w             | ababc      | **L1-C2  | 1 3
        a C-x 'h          | ababc      | **L1-C0  | 1 1
        a C-w             |            | **L1-C0  | 1 1
        a C-y C-y         | ababcababc | **L1-C10 | 1 11
    ";
    scripts_show(&rt, rt.alloc(), NOTES, shared)?;
    let others = "
        == a mark moves with the text and a kill is its holders
        user ann
        user bob
        user cat
        buffer notes ann
        entry notes ALLOW ann rwat
        entry notes ALLOW bob rt
        entry notes ALLOW cat at
        text notes 'abc
        open a ann 6 60
        open b bob 6 60
        open c cat 6 60
        b C-f C-SPC   | abc                 | --L1-C1     | 1 2 | Mark set
        a 'x          | xabc                | **L1-C1     | 1 2
        b C-e C-x C-x | xabc                | **L1-C2     | 1 3
        b M-w C-x C-x | xabc                | **L1-C4     | 1 5
        b C-y         | xabc                | **L1-C4     | 1 5 | Denied: no entry grants APPEND_DATA
        a C-y         | xabc                | **L1-C1     | 1 2 | Nothing to yank
        c C-SPC       | [no read: no entry] | **(no read) | 1 1 | Denied: no entry grants READ_DATA
        c C-y         | [no read: no entry] | **(no read) | 1 1 | Nothing to yank
        a C-k         | x                   | **L1-C1     | 1 2
        b             | x                   | **L1-C1     | 1 2 | Denied: no entry grants APPEND_DATA
        a C-y C-y     | xabcabc             | **L1-C7     | 1 8
        c C-x 'b 'own RET 'de C-a C-k C-y | de                  | :-**-own-L1-C2 | 1 3
        c C-x 'b 'notes RET C-y           | [no read: no entry] | **(no read)    | 1 1
        b                                 | xabcabcde           | **L1-C1        | 1 2 | Denied: no entry grants APPEND_DATA
    ";
    scripts_show(&rt, rt.alloc(), "", others)
}
