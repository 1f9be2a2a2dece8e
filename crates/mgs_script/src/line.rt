// A script's line as a value.
use mgs_model::Name;
use thiserror::Error;

/// What a script's line says. The texts are the script's own.
#[derive(PartialEq, Eq, Drop)]
pub enum Line<'a> {
    /// An empty line, or one that begins with `#`.
    Nothing,
    /// `user NAME`: a user. The form of the name is not checked here.
    User {
        name: &'a str,
    },
    /// `group NAME MEMBER ..`: a group of users. Neither the form of the names nor whether the members are users is checked here.
    Group {
        name: &'a str,
        members: Vec<&'a str>,
    },
    /// `buffer NAME OWNER`: a buffer. Neither name is checked here.
    Buffer {
        name: &'a str,
        owner: &'a str,
    },
    /// `owngroup BUFFER GROUP`: the owning group of a buffer. The group's name is not checked here.
    OwnGroup {
        buffer: Name,
        group: &'a str,
    },
    /// `entry BUFFER ENTRY`: an entry, as it is written, that is put last in a buffer's list.
    Entry {
        buffer: Name,
        entry: &'a str,
    },
    /// `text BUFFER TOKEN ..`: characters that are put after a buffer's text.
    Text {
        buffer: Name,
        text: Vec<char>,
    },
    /// `open LABEL USER ROWS COLS`: a session is opened. Neither the user nor the size is checked here.
    Open {
        label: Name,
        user: &'a str,
        rows: usize,
        cols: usize,
    },
    /// `keys LABEL TOKEN ..`: bytes for a session, one event each.
    Keys {
        label: Name,
        keys: Vec<u8>,
    },
    /// `show LABEL`: a session's screen is printed.
    Show {
        label: Name,
    },
    /// `close LABEL`: a session is closed.
    Close {
        label: Name,
    },
}

/// Why a line was not read.
#[derive(Clone, Copy, Debug, PartialEq, Eq, Error)]
pub enum LineFault {
    /// The line is refused.
    #[error("refused")]
    Bad,
    /// Out of memory.
    #[error("no memory")]
    Short,
}
