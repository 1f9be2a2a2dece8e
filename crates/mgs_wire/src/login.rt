// Login lines.
ghost use Rattle.std.specs.Prelude.{◌≡◌};
ghost use Rattle.std.specs.Option.{option_map};
ghost use Rattle.mgs_keys.specs.Words.{words_of};
ghost use Rattle.mgs_keys.specs.Numbers.{number_of};
ghost use Rattle.mgs_wire.specs.Login.{without_return, login_by, login_of, login_in, name_in, admission};
ghost use Rattle.mgs_wire.specs.Parsed.{login_view, Admits};

use crate::refusal::Refusal;
use mgs_keys::{cut_word, read_number, utf8};
use mgs_model::Tickets;

/// The most bytes of a login line before its line feed; a carriage return there is one of them.
pub const LOGIN_LIMIT: usize = 128;

// What a login line says. The texts are the line's own.
#[derive(Clone, Copy)]
struct Login<'a> {
    name: &'a [u8],
    ticket: &'a [u8],
    rows: usize,
    cols: usize,
}

/// The session that a login opens.
#[derive(Clone, Copy)]
pub(crate) struct Opening<'a> {
    /// The name of its user.
    pub(crate) user: &'a str,
    /// The rows of its screen, as the line says them.
    pub(crate) rows: usize,
    /// The columns of its screen, as the line says them.
    pub(crate) cols: usize,
}

fn without_return(line: &[u8]) -> &[u8]
    ensures { result.now ≡ without_return line.now }
{
    if !line.is_empty() && line[line.len() - 1] == b'\r' {
        &line[..line.len() - 1]
    } else {
        line
    }
}

// A login of these words.
#[tactic(auto, unfolding(crate::specs::Login::login_by))]
fn login_by<'a>(
    word: &[u8],
    name: &'a [u8],
    ticket: &'a [u8],
    rows: &[u8],
    cols: &[u8],
) -> Option<Login<'a>>
    ensures { option_map login_view result ≡ login_by word.now name.now ticket.now (number_of rows.now) (number_of cols.now) }
{
    if word != b"login".as_slice() || name.is_empty() || ticket.is_empty() {
        return None;
    }
    let rows = read_number(rows)?;
    let cols = read_number(cols)?;
    Some(Login {
        name,
        ticket,
        rows,
        cols,
    })
}

// What a login line says by its words.
#[tactic(auto, using(crate::proofs::Words::six_words))]
fn login_of_words(line: &[u8]) -> Option<Login<'_>>
    ensures { option_map login_view result ≡ login_of (words_of line.now) }
{
    let (word, Some(rest)) = cut_word(line) else {
        return None;
    };
    let (name, Some(rest)) = cut_word(rest) else {
        return None;
    };
    let (ticket, Some(rest)) = cut_word(rest) else {
        return None;
    };
    let (rows, Some(rest)) = cut_word(rest) else {
        return None;
    };
    match cut_word(rest) {
        (cols, None) => login_by(word, name, ticket, rows, cols),
        (_, Some(_)) => None,
    }
}

// What a line says, without its line feed.
fn read_login(line: &[u8]) -> Option<Login<'_>>
    ensures { option_map login_view result ≡ login_in line.now }
{
    login_of_words(without_return(line))
}

/// The name that a line says; it is empty where that is no login line.
pub(crate) fn name_in(line: &[u8]) -> &[u8]
    ensures { result.now ≡ name_in line.now }
{
    match read_login(line) {
        Some(login) => login.name,
        None => &[],
    }
}

/// The session that a line opens. A line without its line feed is refused where it is no login line (`Line`), where no ticket
/// has its name (`NoUser`), and where the ticket is another (`Ticket`).
pub(crate) fn admission<'a>(tickets: &Tickets, line: &'a [u8]) -> Result<Opening<'a>, Refusal>
    ensures { Admits result (admission tickets.now line.now) }
{
    let Some(login) = read_login(line) else {
        return Err(Refusal::Line);
    };
    let Some(user) = utf8(login.name) else {
        return Err(Refusal::NoUser);
    };
    let Some(ticket) = tickets.ticket(login.name) else {
        return Err(Refusal::NoUser);
    };
    if ticket != login.ticket {
        return Err(Refusal::Ticket);
    }
    Ok(Opening {
        user,
        rows: login.rows,
        cols: login.cols,
    })
}
