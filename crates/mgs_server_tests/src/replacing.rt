// Query-replace (M-%), each step with what the terminal then shows.
use super::steps::scripts_show;
use std::test::Fail;

const NOTES: &str = "user ann\n\
    user bob\n\
    buffer notes ann\n\
    entry notes ALLOW OWNER@ rwatdcCo\n\
    entry notes ALLOW bob rwat\n\
    text notes 'abab-abab\n\
    open a ann 6 60\n";

#[test]
fn matches_are_replaced(rt: HostRuntime) -> Result<(), Fail> {
    let shared = "
        == two questions are asked
        # Two questions, and then a line that is no prompt: the cursor is at the point, behind the first match.
        a M-%          | abab-abab | --L1-C0 | 6 16 | Query replace:
        a 'ba          | abab-abab | --L1-C0 | 6 18 | Query replace: ba
        a RET          | abab-abab | --L1-C0 | 6 7  | With:
        a 'xyz         | abab-abab | --L1-C0 | 6 10 | With: xyz
        a RET          | abab-abab | --L1-C3 | 1 4  | Replace?
        a 'z C-f ESC   | abab-abab | --L1-C3 | 1 4  | Replace?
        a C-g          | abab-abab | --L1-C3 | 1 4  | Quit
        a M-% 'a C-g   | abab-abab | --L1-C3 | 1 4  | Quit
        a M-% 'a RET C-g | abab-abab | --L1-C3 | 1 4  | Quit
        a M-x 'query-r TAB RET | abab-abab | --L1-C3 | 6 16 | Query replace:
        a C-g C-f      | abab-abab | --L1-C4 | 1 5
        == nothing cannot be replaced
        # What is typed as the answer to the second question is not looked for where nothing is to be replaced.
        a M-% RET      | abab-abab | --L1-C0 | 6 7  | With:
        a 'x RET       | abab-abab | --L1-C0 | 1 1  | No pattern
        a M-% 'q RET 'x RET | abab-abab | --L1-C0 | 1 1  | Replaced 0
        a C-f          | abab-abab | --L1-C1 | 1 2
        a M-s RET      | abab-abab | --L1-C1 | 1 2  | No pattern
        == each match is asked for
        # y and a space replace, n and DEL do not, and `.` replaces and ends.
        a M-% 'ab RET 'x RET | abab-abab | --L1-C2 | 1 3 | Replace?
        a 'y           | xab-abab  | **L1-C3 | 1 4 | Replace?
        a 'n           | xab-abab  | **L1-C6 | 1 7 | Replace?
        a SPC          | xab-xab   | **L1-C7 | 1 8 | Replace?
        a '.           | xab-xx    | **L1-C6 | 1 7 | Replaced 3
        a 'y           | xab-xxy   | **L1-C7 | 1 8
        a M-< M-% 'AB RET 'z RET DEL | xab-xxy | **L1-C3 | 1 4 | Replaced 0
        == q and return end it
        a M-% 'b RET 'c RET 'y | acab-abab | **L1-C4 | 1 5 | Replace?
        a 'q                   | acab-abab | **L1-C4 | 1 5 | Replaced 1
        a M-< M-% 'b RET 'c RET RET | acab-abab | **L1-C4 | 1 5 | Replaced 0
        a RET                  | acab/-abab | **L2-C0 | 2 1
    ";
    scripts_show(&rt, rt.alloc(), NOTES, shared)?;
    let others = "
        == all are replaced
        # Case is ignored, and what comes in is as it was typed. It is not searched again.
        user ann
        buffer notes ann
        entry notes ALLOW OWNER@ rwatdcCo
        text notes 'aXa
        open a ann 6 60
        a M-% 'A RET RET      | aXa    | --L1-C1 | 1 2 | Replace?
        a '!                  | X      | **L1-C1 | 1 2 | Replaced 2
        a M-< M-% 'x RET 'aXA RET '! | aXA | **L1-C3 | 1 4 | Replaced 1
        a M-< M-% 'a RET 'aA RET 'n '! | aXaA | **L1-C4 | 1 5 | Replaced 1
    ";
    scripts_show(&rt, rt.alloc(), "", others)
}

#[test]
fn replacing_heeds_rights_edits_and_macros(rt: HostRuntime) -> Result<(), Fail> {
    let scripts = "
        == rights are judged at each replacement
        # The right to write is judged at each replacement, and a denial ends it.
        user ann
        user bob
        buffer notes bob
        entry notes ALLOW ann rt
        entry notes ALLOW ann w
        entry notes ALLOW bob C
        entry notes ALLOW bob t
        text notes 'a SPC 'a SPC 'a
        open a ann 6 60
        open b bob 6 60
        a M-% 'a RET 'b RET | a a a | --L1-C1 | 1 2 | Replace?
        keys b C-u '2 M-x 'acl-delete RET
        a '!                | a a a | --L1-C1 | 1 2 | Denied: no entry grants WRITE_DATA
        a C-f               | a a a | --L1-C2 | 1 3
        == a match that is gone is not replaced
        # Where the text at the anchor no longer matches, nothing is replaced, and the next match is looked for from there on.
        # The anchor moves with the edits of others.
        user ann
        user bob
        buffer notes ann
        entry notes ALLOW OWNER@ rwatdcCo
        entry notes ALLOW bob rwat
        text notes 'ababab
        open a ann 6 60
        open b bob 6 60
        a M-% 'ab RET 'x RET | ababab  | --L1-C2 | 1 3 | Replace?
        b C-f 'z             | azbabab | **L1-C2 | 1 3
        a 'y                 | azbabab | **L1-C5 | 1 6 | Replace?
        b M-< 'q             | qazbabab | **L1-C1 | 1 2
        a 'y                 | qazbxab | **L1-C7 | 1 8 | Replace?
        b M-> C-b 'z         | qazbxazb | **L1-C7 | 1 8
        a 'n                 | qazbxazb | **L1-C8 | 1 9 | Replaced 1
        == a macro replaces all
        # Of a macro the rest is played when no match is left, and its bytes stand behind all further replacements.
        user ann
        buffer notes ann
        entry notes ALLOW OWNER@ rwatdcCo
        text notes 'aba
        open a ann 6 60
        a C-x '( M-% 'a RET 'cd RET '! '. C-x ') | cdbcd. | **L1-C6 | 1 7
        a M-< 'xay M-< C-x 'e  | xcd.ycdbcd. | **L1-C4 | 1 5
        a M-< C-x 'e           | !.xcd.ycdbcd. | **L1-C2 | 1 3
        == a denial ends the macro
        # A denial inside ends all further replacements and the macro.
        user ann
        user bob
        buffer notes bob
        entry notes ALLOW ann r
        entry notes ALLOW ann w
        entry notes ALLOW ann at
        entry notes ALLOW bob Ct
        text notes 'aba
        open a ann 6 60
        open b bob 6 60
        a C-x '( M-% 'a RET 'c RET '! 'z C-x ') | cbcz | **L1-C4 | 1 5
        a 'aa M-<              | cbczaa | **L1-C0 | 1 1
        keys b C-u '2 M-x 'acl-delete RET
        a C-x 'e               | cbczaa | **L1-C5 | 1 6 | Denied: no entry grants WRITE_DATA
    ";
    scripts_show(&rt, rt.alloc(), "", scripts)
}
