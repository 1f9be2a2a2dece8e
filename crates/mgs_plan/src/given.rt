// What a command is given beside its buffer.
use mgs_model::Kind;

/// What a command on a text is given beside its buffer and the kill buffer.
#[derive(Clone, Copy)]
pub struct Given {
    /// The argument, where one was typed.
    pub argument: Option<usize>,
    /// The kind of the session's last command.
    pub kind: Kind,
    /// How many rows the selected window has above its mode line.
    pub height: usize,
    /// The session's fill column.
    pub fill: usize,
}
