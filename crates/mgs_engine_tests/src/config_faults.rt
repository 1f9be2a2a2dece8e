// Configurations that are refused: each fault of each table, and which of several is told.
use super::config::{Folder, read};
use std::alloc::{AllocError, Global};
use std::process::Abort;
use std::test::Fail;

// What a document says: its printed fault, or `read`.
fn told(alloc: Global, text: &str) -> Result<String, AllocError> {
    match read(text, &mut Folder::new(alloc)) {
        Ok(_) => String::from_str(alloc, "read"),
        Err(fault) => format!(in alloc; "{fault}"),
    }
}

// A piece so many times, each with its number in place of a `#`.
fn push_pieces(text: &mut String, count: usize, piece: &str) -> Result<(), AllocError> {
    for number in 0..count {
        match piece.split_once('#') {
            Some((before, behind)) => write!(text, "{before}{number}{behind}")?,
            None => text.push_str(piece)?,
        }
    }
    Ok(())
}

// A line of a document, in which `<COUNT PIECE>` stands for so many pieces.
fn push_line(text: &mut String, line: &str) -> Result<(), AllocError> {
    let (head, rest) = line.split_once('<').unwrap_or((line, ""));
    let (pieces, end) = rest.split_once('>').unwrap_or(("", rest));
    let (count, piece) = pieces.split_once(' ').unwrap_or(("", ""));
    text.push_str(head)?;
    push_pieces(text, count.parse::<usize>().unwrap_or(0), piece)?;
    text.push_str(end)?;
    text.push('\n')
}

// The document of a row between a head and an end: a `/` parts its lines.
fn document(alloc: Global, head: &str, row: &str, end: &str) -> Result<String, AllocError> {
    let mut text = String::from_str(alloc, head)?;
    for line in row.split('/') {
        push_line(&mut text, line)?;
    }
    text.push_str(end)?;
    Ok(text)
}

// Each row of a table: what a document says, and what stands in it between this head and this end.
fn rows_say(alloc: Global, head: &str, rows: &str, end: &str, rt: &impl Abort) -> Result<(), Fail> {
    for line in rows.lines() {
        let (wanted, row) = line.split_once('|').unwrap_or(("read", line));
        let text = document(alloc, head, row.trim(), end)?;
        let said = told(alloc, text.as_str())?;
        assert!(rt; said.as_str() == wanted.trim(), "{said}: {line}");
    }
    Ok(())
}

// All of a document. The first one is empty.
const DOCUMENTS: &str = "
    read        | user = []
    top 0: Toml | = 1
    top 0: Toml | user = [{name = 'ann', name = 'bob', ticket = 't1'}]
    top 0: Toml | user = []/[[user]]/name = 'ann'/ticket = 't1'
    top 0: Toml | color = 1/= 1
    top 0: Key  | color = 1
    top 0: Key  | color = 1/[[user]]/name = 'ann'/ticket = 't1'
    top 0: Key  | users = []
    top 0: Key  | user = 'ann'
    top 0: Key  | group = [1]
    top 0: Key  | buffer = [[]]
    top 0: Key  | [user]/name = 'ann'/ticket = 't1'
    top 0: Key  | user = [{name = 'Bob'}]/color = 1
    user 1: Key  | buffer = [{}]/group = [{}]/user = [{}]
    group 1: Key | buffer = [{}]/group = [{}]
    user 1: Key  | [[user]]/name = 'ann'/ticket = 't1'/color = 1
    user 2: Twice | [[user]]/name = 'ann'/ticket = 't1'/[[user]]/name = 'ann'/ticket = 't2'
    read              | user = [<256 {name = 'u#', ticket = 't'},>]
    user 257: Long    | user = [<257 {name = 'u#', ticket = 't'},>]
    user 257: Twice   | user = [<256 {name = 'u#', ticket = 't'},>{name = 'u0', ticket = 't'}]
    user 257: Long    | user = [<257 {name = 'u#', ticket = 't'},>{name = 'u0', ticket = 't'}]
    read              | group = [<64 {name = 'g#', members = []},>]
    group 65: Long    | group = [<65 {name = 'g#', members = []},>]
    group 65: Unknown | group = [<64 {name = 'g#', members = []},>{name = 'h', members = ['bob']}]
    group 65: Long    | group = [<65 {name = 'g#', members = []},>{name = 'h', members = ['bob']}]";

const ANN: &str = "user = [{name = 'ann', ticket = 't1'}";

// Behind ann's table.
const USERS: &str = "
    read          | , {name = 'b-_0', ticket = '!~'}
    user 2: Key   | , {ticket = 't2'}
    user 2: Key   | , {name = 'bob'}
    user 2: Key   | , {name = 1, ticket = 't2'}
    user 2: Key   | , {name = 'bob', ticket = ['t2']}
    user 2: Key   | , {name = 'bob', ticket = 't2', color = 1}
    user 2: Name  | , {name = 'Bob', ticket = 't2'}
    user 2: Name  | , {name = '', ticket = 't2'}
    user 2: Name  | , {name = 'é', ticket = 't2'}
    read          | , {name = 'abcdefghijklmnopqrstuvwxyz012345', ticket = 't2'}
    user 2: Name  | , {name = 'abcdefghijklmnopqrstuvwxyz0123456', ticket = 't2'}
    user 2: Name  | , {name = 'bob', ticket = ''}
    user 2: Name  | , {name = 'bob', ticket = 't 2'}
    user 2: Name  | , {name = 'bob', ticket = 'é'}
    read          | , {name = 'bob', ticket = '<64 t>'}
    user 2: Name  | , {name = 'bob', ticket = '<65 t>'}
    user 2: Twice | , {name = 'ann', ticket = 't2'}
    user 2: Key   | , {name = 'Bob'}
    user 2: Name  | , {name = 'ann', ticket = ''}
    user 2: Twice | , {name = 'ann', ticket = 't2'}, {}";

const TEAM: &str =
    "user = [{name = 'ann', ticket = 't1'}]\ngroup = [{name = 'team', members = ['ann']}";

// Behind the group `team` of ann.
const GROUPS: &str = "
    read             | , {name = 'ann', members = []}
    read             | , {name = 'crew', members = ['ann', 'ann']}
    group 2: Key     | , {members = []}
    group 2: Key     | , {name = 'crew'}
    group 2: Key     | , {name = 'crew', members = 'ann'}
    group 2: Key     | , {name = 'crew', members = ['ann', 1]}
    group 2: Key     | , {name = 'crew', members = [], color = 1}
    group 2: Name    | , {name = 'Crew', members = ['bob']}
    group 2: Twice   | , {name = 'team', members = ['bob']}
    group 2: Unknown | , {name = 'crew', members = ['ann', 'bob']}
    group 2: Unknown | , {name = 'crew', members = ['Ann']}
    group 2: Unknown | , {name = 'crew', members = ['team']}
    group 2: Unknown | , {name = 'crew', members = ['bob']}, {}
    group 2: Key     | , {}, {name = 'crew', members = ['bob']}";

const NOTES: &str =
    "user = [{name = 'ann', ticket = 't1'}]\ngroup = [{name = 'team', members = ['ann']}]\nbuffer = [{name = 'notes', owner = 'ann', list = []}";

// Behind the buffer `notes` of ann.
const BUFFERS: &str = "
    read              | , {name = '!aA~', owner = 'ann', list = ['ALLOW eve r'], text = ''}
    read              | , {name = 'a', owner = 'ann', list = [], file = 'f'}
    buffer 2: Key     | , {owner = 'ann', list = []}
    buffer 2: Key     | , {name = 'a', list = []}
    buffer 2: Key     | , {name = 'a', owner = 'ann'}
    buffer 2: Key     | , {name = 1, owner = 'ann', list = []}
    buffer 2: Key     | , {name = 'a', owner = 1, list = []}
    read              | , {name = 'a', owner = 'ann', group = 'team', list = []}
    buffer 2: Key     | , {name = 'a', owner = 'ann', group = 1, list = []}
    buffer 2: Key     | , {name = 'a', owner = 'ann', group = ['team'], list = []}
    buffer 2: Key     | , {name = 'a', group = 'team', list = []}
    buffer 2: Name    | , {name = 'a', owner = 'ann', group = '', list = []}
    buffer 2: Name    | , {name = 'a', owner = 'ann', group = 'Team', list = []}
    buffer 2: Unknown | , {name = 'a', owner = 'ann', group = 'crew', list = []}
    buffer 2: Unknown | , {name = 'a', owner = 'ann', group = 'ann', list = []}
    buffer 2: Key     | , {name = 'a', owner = 'ann', list = 'ALLOW ann r'}
    buffer 2: Key     | , {name = 'a', owner = 'ann', list = ['ALLOW ann r', 1]}
    buffer 2: Key     | , {name = 'a', owner = 'ann', list = [], text = 1}
    buffer 2: Key     | , {name = 'a', owner = 'ann', list = [], file = 1}
    buffer 2: Key     | , {name = 'a', owner = 'ann', list = [], text = '', file = 'f'}
    buffer 2: Key     | , {name = 'a', owner = 'ann', list = [], color = 1}
    buffer 2: Name    | , {name = '', owner = 'ann', list = []}
    buffer 2: Name    | , {name = 'a b', owner = 'ann', list = []}
    buffer 2: Name    | , {name = 'é', owner = 'ann', list = []}
    buffer 2: Name    | , {name = 'abcdefghijklmnopqrstuvwxyz0123456', owner = 'ann', list = []}
    buffer 2: Name    | , {name = 'a', owner = '', list = []}
    buffer 2: Name    | , {name = 'a', owner = 'Bob', list = []}
    buffer 2: Twice   | , {name = 'notes', owner = 'ann', list = []}
    buffer 2: Unknown | , {name = 'a', owner = 'bob', list = []}
    buffer 2: Unknown | , {name = 'a', owner = 'team', list = []}
    buffer 2: Entry   | , {name = 'a', owner = 'ann', list = ['ALLOW ann x']}
    buffer 2: Entry   | , {name = 'a', owner = 'ann', list = ['ALLOW ann r', '']}
    read              | , {name = 'a', owner = 'ann', list = [], file = 'most'}
    buffer 2: Long    | , {name = 'a', owner = 'ann', list = [], file = 'long'}
    buffer 2: File    | , {name = 'a', owner = 'ann', list = [], file = 'gone'}
    top 0: Short      | , {name = 'a', owner = 'ann', list = [], file = 'full'}";

// Behind the same, of several faults the one that is told: the least of a table, and that of the first table. Then one more than each
// limit: a fault of a lower number goes before it, and one of a higher number behind.
const SEVERAL: &str = "
    buffer 2: Key     | , {name = '', owner = 'ann', list = 1}
    buffer 2: Name    | , {name = 'notes', owner = 'Bob', list = []}
    buffer 2: Twice   | , {name = 'notes', owner = 'bob', list = []}
    buffer 2: Unknown | , {name = 'a', owner = 'bob', list = ['x']}
    buffer 2: Name    | , {name = 'notes', owner = 'bob', group = 'Team', list = []}
    buffer 2: Twice   | , {name = 'notes', owner = 'ann', group = 'crew', list = []}
    buffer 2: Unknown | , {name = 'a', owner = 'ann', group = 'crew', list = ['x']}
    buffer 2: Entry   | , {name = 'a', owner = 'ann', list = ['x'], file = 'long'}
    buffer 2: Entry   | , {name = 'a', owner = 'ann', list = ['x'], file = 'gone'}
    buffer 2: Long    | , {name = 'a', owner = 'ann', list = [], file = 'long'}, {}
    buffer 2: File    | , {name = 'a', owner = 'ann', list = [], file = 'gone'}, {}
    buffer 2: File    | , {name = 'a', owner = 'ann', list = [], file = 'gone'}, {name = 'b', owner = 'ann', list = [], file = 'long'}
    buffer 2: Long    | , {name = 'a', owner = 'ann', list = [], file = 'long'}, {name = 'b', owner = 'ann', list = [], file = 'gone'}
    buffer 2: File    | , {name = 'a', owner = 'ann', list = [], file = 'gone'}, {name = 'b', owner = 'ann', list = [], file = 'gone'}
    buffer 2: Key     | , {}, {name = 'a', owner = 'ann', list = [], file = 'gone'}
    buffer 3: Twice   | , {name = 'a', owner = 'ann', list = [], file = 'f'}, {name = 'a', owner = 'ann', list = [], file = 'gone'}
    read              | <255 , {name = 'b#', owner = 'ann', list = []}>
    buffer 257: Long  | <256 , {name = 'b#', owner = 'ann', list = []}>
    buffer 257: Entry | <255 , {name = 'b#', owner = 'ann', list = []}>, {name = 'c', owner = 'ann', list = ['x']}
    buffer 257: Long  | <256 , {name = 'b#', owner = 'ann', list = []}>, {name = 'c', owner = 'ann', list = ['x']}
    buffer 256: File  | <254 , {name = 'b#', owner = 'ann', list = []}>, {name = 'c', owner = 'ann', list = [], file = 'gone'}
    buffer 257: Long  | <255 , {name = 'b#', owner = 'ann', list = []}>, {name = 'c', owner = 'ann', list = [], file = 'gone'}
    read              | , {name = 'a', owner = 'ann', list = [<64 'ALLOW u# r',>]}
    buffer 2: Long    | , {name = 'a', owner = 'ann', list = [<65 'ALLOW u# r',>]}
    buffer 2: Entry   | , {name = 'a', owner = 'ann', list = [<65 'ALLOW u# r',>'x']}
    buffer 2: File    | , {name = 'a', owner = 'ann', list = [<64 'ALLOW u# r',>], file = 'gone'}
    buffer 2: Long    | , {name = 'a', owner = 'ann', list = [<65 'ALLOW u# r',>], file = 'gone'}
    buffer 3: Key     | , {name = 'a', owner = 'ann', list = [<64 'ALLOW u# r',>]}, {}
    buffer 2: Long    | , {name = 'a', owner = 'ann', list = [<65 'ALLOW u# r',>]}, {}
    read              | , {name = 'a', owner = 'ann', list = [], text = '<32768 abcdefghijklmnopqrstuvwxyz012345>'}
    buffer 2: Long    | , {name = 'a', owner = 'ann', list = [], text = '<32768 abcdefghijklmnopqrstuvwxyz012345>a'}";

#[test]
fn the_first_fault_is_named_by_its_table(rt: HostRuntime) -> Result<(), Fail> {
    let alloc = rt.alloc();
    rows_say(alloc, "", DOCUMENTS, "", &rt)?;
    rows_say(alloc, ANN, USERS, "]", &rt)?;
    rows_say(alloc, TEAM, GROUPS, "]", &rt)
}

#[test]
fn the_first_fault_of_buffers_is_named(rt: HostRuntime) -> Result<(), Fail> {
    let alloc = rt.alloc();
    rows_say(alloc, NOTES, BUFFERS, "]", &rt)?;
    rows_say(alloc, NOTES, SEVERAL, "]", &rt)
}
