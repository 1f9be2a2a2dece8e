// The screens of docs/TUTORIAL.md, played as a script.
use super::steps::scripts_show;
use std::test::Fail;

const LIST: &str = "user ann\n\
    user bob\n\
    buffer list ann\n\
    entry list ALLOW OWNER@ rwatcCo\n\
    text list 'Shopping SPC 'list RET\n\
    open ann ann 6 60\n\
    open bob bob 6 60\n";

#[test]
fn the_tutorial_is_played(rt: HostRuntime) -> Result<(), Fail> {
    let steps = "
        == the tutorial
        ann | Shopping list | :----list-L1-C0 | 1 1
        bob |  | :-None | 1 1
        ann M-> 'bread, RET 'milkk C-_ | Shopping list/bread,/milk | :-**-list-L3-C4 | 3 5
        ann C-x C-s | Shopping list/bread,/milk | :-**-list-L3-C4 | 3 5 | No file
        ann C-u '1 M-x 'acl-insert RET 'ALLOW SPC 'bob SPC 'rwat RET | Shopping list/bread,/milk | :-**-list-L3-C4 | 3 5
        bob C-x 'b 'list RET M-> ', SPC 'tea | Shopping list/bread,/milk, tea | :-**-list-L3-C9 | 3 10
        ann | Shopping list/bread,/milk, tea | :-**-list-L3-C4 | 3 5
        ann M-x 'acl-list RET | 1 ALLOW bob rwat/2 ALLOW OWNER@ rwatcCo | :-Acl-list | 1 1
        ann C-x 'b 'list RET | Shopping list/bread,/milk, tea | :-**-list-L3-C4 | 3 5
        bob C-x 'h M-w | Shopping list/bread,/milk, tea | :-**-list-L1-C0 | 1 1
        ann C-u '1 M-x 'acl-delete RET | Shopping list/bread,/milk, tea | :-**-list-L3-C4 | 3 5
        bob | [no read: no entry] | :-??-?-(no read) | 1 1
        bob 'x | [no read: no entry] | :-??-?-(no read) | 1 1 | Denied: no entry grants APPEND_DATA
        bob C-x 'b 'mine RET C-y | Shopping list/bread,/milk, tea | :-**-mine-L3-C9 | 3 10
        ann C-x 'b 'spare RET 'lost M-x 'acl-delete RET | [no read: no entry] | :-??-?-(no read) | 1 1
        ann C-u '1 M-x 'acl-insert RET 'ALLOW SPC 'ann SPC 'rwatcCo RET | [no read: no entry] | :-??-?-(no read) | 1 1 | Denied: no entry grants WRITE_ACL
    ";
    scripts_show(&rt, rt.alloc(), LIST, steps)
}
