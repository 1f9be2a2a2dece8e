// The kinds of a script's lines.
ghost use Rattle.std.specs.Prelude.{◌≡◌};
ghost use Rattle.mgs_script.specs.Lines.{kind_named};

/// The first word of a script's line.
#[derive(Clone, Copy)]
pub(crate) enum LineKind {
    /// `user`: a user of the directory.
    User,
    /// `group`: a group of the directory, and its members.
    Group,
    /// `buffer`: a buffer, and its owner.
    Buffer,
    /// `owngroup`: the owning group of a buffer.
    OwnGroup,
    /// `entry`: one more entry of a buffer's access list.
    Entry,
    /// `text`: what a buffer begins with.
    Text,
    /// `open`: a session opens.
    Open,
    /// `keys`: what a session types.
    Keys,
    /// `show`: the screen of a session is printed.
    Show,
    /// `close`: a session closes.
    Close,
}

// The kind of line that a word begins.
pub(crate) fn kind_of(word: &str) -> Option<LineKind>
    ensures { result ≡ kind_named word.now }
{
    if word == "user" {
        Some(LineKind::User)
    } else if word == "group" {
        Some(LineKind::Group)
    } else if word == "buffer" {
        Some(LineKind::Buffer)
    } else if word == "owngroup" {
        Some(LineKind::OwnGroup)
    } else if word == "entry" {
        Some(LineKind::Entry)
    } else if word == "text" {
        Some(LineKind::Text)
    } else if word == "open" {
        Some(LineKind::Open)
    } else if word == "keys" {
        Some(LineKind::Keys)
    } else if word == "show" {
        Some(LineKind::Show)
    } else if word == "close" {
        Some(LineKind::Close)
    } else {
        None
    }
}
