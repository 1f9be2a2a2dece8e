// Lines of bytes with fixed room.
ghost use Rattle.std.specs.Prelude.{◌≡◌, ◌++◌, ◌+◌, ◌≤◌, drop, length, vec_capacity};
ghost use Rattle.std.specs.Option.{option_map};
ghost use Rattle.mgs_wire.specs.Login.{line_in, after_line};
ghost use Rattle.mgs_wire.specs.LinesRead.{IsLoginLine, GivesLine};

use crate::login::LOGIN_LIMIT;
use mgs_keys::cut_at;

// Puts bytes after those of a line that has the room for them.
pub(crate) fn append(line: &mut Vec<u8>, bytes: &[u8])
    requires { length line.old.items + length bytes.now ≤ vec_capacity line.old }
    ensures items { line.new.items ≡ line.old.items ++ bytes.now }
    ensures room { vec_capacity line.old ≤ vec_capacity line.new }
{
    let _ = line.extend_from_slice(bytes);
}

// Takes bytes from the front of a line.
pub(crate) fn drop_front(line: &mut Vec<u8>, n: usize)
    requires { n ≤ length line.old.items }
    ensures items { line.new.items ≡ drop n line.old.items }
    ensures room { vec_capacity line.new ≡ vec_capacity line.old }
{
    let rest = line.len() - n;
    line.rotate_left(n);
    line.truncate(rest);
}

/// What a login line came to.
#[derive(Clone, Copy)]
pub(crate) enum LineRead<'a> {
    /// It goes on.
    Part,
    /// It is whole, and these bytes stand after its line feed.
    Whole(&'a [u8]),
    /// It is too long.
    TooLong,
}

// The bytes before the first line feed, and those after it, if there is one.
#[tactic(auto, unfolding(crate::specs::Login::line_in, crate::specs::Login::after_line))]
fn cut_line(bytes: &[u8]) -> (&[u8], Option<&[u8]>)
    ensures line { result.0.now ≡ line_in bytes.now }
    ensures rest { option_map (λ x. x.now) result.1 ≡ after_line bytes.now }
{
    cut_at(bytes, b'\n')
}

// Puts more bytes after those of a login line, up to its line feed.
#[tactic(auto, using(crate::proofs::Feeds::line_parts))]
pub(crate) fn read_line<'a>(line: &mut Vec<u8>, bytes: &'a [u8]) -> LineRead<'a>
    requires line { IsLoginLine line.old.items }
    requires room { LOGIN_LIMIT ≤ vec_capacity line.old }
    ensures line { GivesLine result (line.old.items ++ bytes.now) line.new.items }
    ensures room { LOGIN_LIMIT ≤ vec_capacity line.new }
{
    let (head, rest) = cut_line(bytes);
    if head.len() > LOGIN_LIMIT - line.len() {
        return LineRead::TooLong;
    }
    append(line, head);
    match rest {
        None => LineRead::Part,
        Some(rest) => LineRead::Whole(rest),
    }
}
