// Why a login is refused.
ghost use Rattle.std.specs.Prelude.{◌≡◌, ◌≤◌, length};
ghost use Rattle.mgs_wire.specs.Login.{refusal_line, refusal_of};

use mgs_model::OpenFault;
use thiserror::Error;

/// Why a login is refused, in the order in which the causes are checked. Printed as its line, without the line feed.
#[derive(Clone, Copy, Debug, PartialEq, Eq, Error)]
pub enum Refusal {
    /// The line is no login line, it has more than 128 bytes, or the input ended before its line feed.
    #[error("refused 1 Line")]
    Line,
    /// No ticket has that name, or the server has no such user.
    #[error("refused 2 NoUser")]
    NoUser,
    /// The ticket is not that user's.
    #[error("refused 3 Ticket")]
    Ticket,
    /// The rows are not 6 to 64, or the columns not 20 to 160.
    #[error("refused 4 Size")]
    Size,
    /// All sessions are taken.
    #[error("refused 5 Full")]
    Full,
    /// Memory was refused.
    #[error("refused 6 Short")]
    Short,
}

impl Refusal {
    /// The line that tells of the refusal, with its line feed: `refused`, its number from 1 to 6, and its name.
    pub fn line(self) -> &'static [u8]
        ensures text { result.now ≡ refusal_line self }
        ensures short { length result.now ≤ 17 }
    {
        match self {
            Refusal::Line => b"refused 1 Line\n",
            Refusal::NoUser => b"refused 2 NoUser\n",
            Refusal::Ticket => b"refused 3 Ticket\n",
            Refusal::Size => b"refused 4 Size\n",
            Refusal::Full => b"refused 5 Full\n",
            Refusal::Short => b"refused 6 Short\n",
        }
    }

    /// Why a login is refused whose session was not opened.
    pub fn of(fault: OpenFault) -> Refusal
        ensures { result ≡ refusal_of fault }
    {
        match fault {
            OpenFault::NoUser => Refusal::NoUser,
            OpenFault::Size => Refusal::Size,
            OpenFault::Full => Refusal::Full,
            OpenFault::Short => Refusal::Short,
        }
    }
}
