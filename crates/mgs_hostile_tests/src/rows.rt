// The rows that are played, all in one text.

/// Rows, each with its name behind two `=`. First come its buffer and the users that sit down, each with the next number from 1:
///     NAME OWNER | ENTRY; ENTRY; .. | TEXT
///     sit USER
/// Then its steps: the keys of a session, and what its terminal of 6 rows and 40 columns then shows. A session without keys is looked at.
///     SESSION KEYS | ROW/ROW/.. | MODE LINE | ECHO LINE | REFUSED
/// Where memory is refused to the last of the keys, the rows stay as they were and the keys are typed again. Where several acts may be done
/// before the refused one, or the refused byte stays in a macro, `REFUSED` tells what the first row may be, and the row ends there.
///
/// Each text begins with `##`, in whose place the number of the growth may stand that is refused (`refusing`).
pub(crate) const ROWS: &str = "
== who may not read adds at the end
notes cat | ALLOW ann rwat; ALLOW bob at | ##abc
sit ann
sit bob
1 C-x '2 | ##abc//----notes-L1-C0/##abc | ----notes-L1-C0 |
1 C-e | ##abc//----notes-L1-C5/##abc | ----notes-L1-C0 |
1 C-x 'o C-f | ##abc//----notes-L1-C5/##abc | ----notes-L1-C1 |
2 'x | [no read: no entry] | -**-notes-(no read) |
1 | ##abcx//-**-notes-L1-C5/##abcx | -**-notes-L1-C1 |
2 C-f | [no read: no entry] | -**-notes-(no read) | Denied: no entry grants READ_DATA
== a search under a revocation
notes ann | ALLOW OWNER@ rwatdcCo; ALLOW bob rt | ##banana
sit ann
sit bob
2 C-s 'a | ##banana | ----notes-L1-C4 | I-search: a
1 C-u '2 M-x 'acl-delete RET | ##banana | ----notes-L1-C0 |
2 | [no read: no entry] | -??-?-(no read) | I-search: a
2 C-s | [no read: no entry] | -??-?-(no read) | Denied: no entry grants READ_DATA
== a macro that takes rights away
notes cat | ALLOW bob r; ALLOW bob r; ALLOW ann a; ALLOW ann rwtcC | ##
sit ann
1 C-e | ## | ----notes-L1-C2 |
1 C-x '( 'z | ##z | -**-notes-L1-C3 | | ##
1 M-x 'acl-delete RET C-x ') | ##z | -**-notes-L1-C3 |
1 C-u '5 C-x 'e | ##zzz | -**-notes-L1-C5 | Denied: no entry grants APPEND_DATA | ##z; ##zz
1 M-x 'acl-list RET | 1 ALLOW ann rwtcC | -Acl-notes |
== a kill stays its holder's
notes ann | ALLOW OWNER@ rwatdcCo; ALLOW bob rwat | ##one two
sit ann
sit bob
2 M-d |  two | -**-notes-L1-C0 |
1 C-u '2 M-x 'acl-delete RET |  two | -**-notes-L1-C0 |
2 C-x 'b 'mine | [no read: no entry] | -??-?-(no read) | Switch to buffer: mine
2 RET | | ----mine-L1-C0 |
2 C-y | ##one | -**-mine-L1-C5 |
== undos of two users
notes cat | ALLOW ann rwat; ALLOW bob rwat | ##
sit ann
sit bob
1 'a | a## | -**-notes-L1-C1 |
1 'b | ab## | -**-notes-L1-C2 |
2 C-_ | a## | -**-notes-L1-C1 |
1 C-_ | ab## | -**-notes-L1-C2 |
1 C-_ | a## | -**-notes-L1-C1 |
1 C-_ | ## | -**-notes-L1-C0 |
1 C-a | ## | -**-notes-L1-C0 |
1 C-_ | a## | -**-notes-L1-C1 |
== a paragraph is filled
notes ann | ALLOW OWNER@ rwatdcCo | ## bb cc dd ee
sit ann
1 C-u '10 C-x 'f | ## bb cc dd ee | ----notes-L1-C0 |
1 M-q | ## bb cc/dd ee | -**-notes-L2-C5 |
== what matches is taken out
notes ann | ALLOW OWNER@ rwatdcCo | ##aXa
sit ann
1 M-% 'A RET RET | ##aXa | ----notes-L1-C3 | Replace?
1 '! | ##X | -**-notes-L1-C3 | Replaced 2 | ##aXa; ##Xa
== a buffer is made and shown beside another
notes ann | ALLOW OWNER@ rwatdcCo | ##one
sit ann
1 C-SPC | ##one | ----notes-L1-C0 | Mark set
1 C-e | ##one | ----notes-L1-C5 |
1 M-w | ##one | ----notes-L1-C5 |
1 C-x '2 | ##one//----notes-L1-C5/##one | ----notes-L1-C5 |
1 C-x C-f 'new | ##one//----notes-L1-C5/##one | ----notes-L1-C5 | Find file: new
1 RET | //----new-L1-C0/##one | ----notes-L1-C5 |
1 C-u '2 C-y | ##one##one//-**-new-L1-C10/##one | ----notes-L1-C5 |
1 C-a | ##one##one//-**-new-L1-C0/##one | ----notes-L1-C5 |
1 C-k | //-**-new-L1-C0/##one | ----notes-L1-C5 |
1 M-x 'insert-buffer RET 'notes | //-**-new-L1-C0/##one | ----notes-L1-C5 | Insert buffer: notes
1 RET | ##one//-**-new-L1-C5/##one | ----notes-L1-C5 |
";
