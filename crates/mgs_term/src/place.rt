ghost use Rattle.std.specs.Prelude.{◌≡◌, ℕ, ◌+◌, ◌-◌, ◌*◌, ◌^◌, ◌<◌, ◌≤◌, false, [], ◌∷◌, ◌++◌};
ghost use Rattle.mgs_model.specs.Picture.{IsSize};
ghost use Rattle.mgs_term.specs.Automaton.{span, lead, least, is_of_size, some_shown, reached, first_read, bytes_read, next_step, begun_at, IsPlace, IsNext, IsSpelled};
ghost use Rattle.mgs_term.specs.declared.place.Place.{Place};
ghost use Rattle.mgs_term.specs.declared.place.Place.TheVariants.{Ground, Bracket, Number, Row, Column, Inside};

use crate::operation::Operation;
use mgs_model::own_columns;

/// Where in a sequence a terminal is. Numbers are those read so far, rows and columns counted from 1.
#[derive(Clone, Copy)]
pub(crate) enum Place {
    /// Between two sequences.
    Ground,
    /// After `ESC`.
    Escape,
    /// After `ESC [`.
    Bracket,
    /// In the first number.
    Number(usize),
    /// After the row's number and its `;`.
    Row(usize),
    /// In the column's number, after the row's.
    Column(usize, usize),
    /// After `ESC [ ?`.
    Question,
    /// After `ESC [ ? 7`.
    Seven,
    /// In the bytes of a character past ASCII: how many they are, how many were read, and the value of the bits in those.
    Inside(usize, usize, u32),
    /// After a byte that was refused.
    Refused,
}

/// The effect of the next byte.
#[derive(Clone, Copy)]
pub(crate) enum Next {
    /// No accepted sequence has it.
    Stuck,
    /// The sequence goes on.
    Wait(Place),
    /// The sequence is whole.
    Perform(Operation),
}

const ESCAPE: u8 = 0x1b;

fn digit_of(byte: u8) -> usize
    requires { 48 ≤ byte }
    ensures { result ≡ byte - 48 }
{
    usize::from(byte - b'0')
}

/// The effect of a byte at a place, on a terminal of a size and with its wrap flag.
pub(crate) fn next_of(rows: usize, cols: usize, wrapping: bool, place: Place, byte: u8) -> Next
    requires size { IsSize rows cols }
    requires place { IsPlace rows cols wrapping place }
    ensures next { result ≡ next_step rows cols wrapping place byte }
    ensures fits { IsNext rows cols wrapping result }
    ensures spelled { IsSpelled place byte result }
{
    match place {
        Place::Ground => next_ground(rows, cols, wrapping, byte),
        Place::Inside(size, read, value) => next_inside(
            rows, cols, wrapping, size, read, value, byte,
        ),
        Place::Escape => {
            if byte == b'[' {
                Next::Wait(Place::Bracket)
            } else {
                Next::Stuck
            }
        }
        Place::Bracket => next_bracket(rows, cols, wrapping, byte),
        Place::Number(number) => next_number(rows, cols, wrapping, number, byte),
        Place::Row(row) => next_row(rows, cols, wrapping, row, byte),
        Place::Column(row, column) => next_column(rows, cols, wrapping, row, column, byte),
        Place::Question => {
            if byte == b'7' {
                Next::Wait(Place::Seven)
            } else {
                Next::Stuck
            }
        }
        Place::Seven => {
            if byte == b'l' {
                Next::Perform(Operation::Unwrap)
            } else {
                Next::Stuck
            }
        }
        Place::Refused => Next::Stuck,
    }
}

/// How many characters have the same first bytes, where so many are left.
fn span(left: usize) -> u32
    ensures value { result ≡ span left }
    ensures few { result ≤ 262144 }
{
    match left {
        0 => 1,
        1 => 64,
        2 => 4096,
        _ => 262_144,
    }
}

/// Whether the code is that of a character that is shown as itself, and has so many bytes in UTF-8.
#[tactic(auto, using(crate::proofs::Wide::no_scalar))]
fn is_of_size(size: usize, code: u32) -> bool
    ensures { result ≡ is_of_size size code }
{
    match char::from_u32(code) {
        Some(c) => c.len_utf8() == size && own_columns(c) > 0,
        None => false,
    }
}

/// The first character of so many bytes.
fn least(size: usize) -> u32
    ensures { result ≡ least size }
{
    match size {
        2 => 0x80,
        3 => 0x800,
        _ => 0x1_0000,
    }
}

/// Whether some of so many characters is one, from a character on.
fn some_found(size: usize, from: u32, count: u32) -> bool
    requires { from + count < 2 ^ 32 }
    ensures { result ≡ some_shown size from count }
{
    for code in from..from + count {
        if is_of_size(size, code) {
            return true;
        }
    }
    false
}

/// The same, without a look at those that have fewer bytes.
fn some_shown(size: usize, from: u32, count: u32) -> bool
    requires few { size ≤ 4 }
    requires some { 2 ≤ size }
    requires fits { from + count < 2 ^ 32 }
    ensures { result ≡ some_shown size from count }
{
    let end = from + count;
    let start = from.max(least(size)).min(end);
    some_found(size, start, end - start)
}

/// So many of the bytes are read, and this is the value of the bits in them.
fn reached(size: usize, read: usize, value: u32) -> Next
    requires some { 1 ≤ read }
    requires order { read ≤ size }
    requires few { size ≤ 4 }
    requires small { (value + 1) * span (size - read) ≤ 2097152 }
    ensures next { result ≡ reached size read value }
    ensures fits { (rows cols : ℕ) → IsNext rows cols false result }
    ensures spelled { (place : Place) (byte : ℕ) → bytes_read (lead size) read value ≡ begun_at place ++ byte ∷ [] → IsSpelled place byte result }
{
    if size == read {
        return if is_of_size(size, value) {
            match char::from_u32(value) {
                Some(c) => Next::Perform(Operation::Print(c)),
                None => Next::Stuck,
            }
        } else {
            Next::Stuck
        };
    }
    let count = span(size - read);
    if some_shown(size, value * count, count) {
        Next::Wait(Place::Inside(size, read, value))
    } else {
        Next::Stuck
    }
}

/// The first byte of a character past ASCII.
fn first_read(byte: u8) -> Next
    ensures next { result ≡ first_read byte }
    ensures fits { (rows cols : ℕ) → IsNext rows cols false result }
    ensures spelled { IsSpelled Ground byte result }
{
    if byte < 0xc0 {
        Next::Stuck
    } else if byte < 0xe0 {
        reached(2, 1, u32::from(byte - 0xc0))
    } else if byte < 0xf0 {
        reached(3, 1, u32::from(byte - 0xe0))
    } else if byte < 0xf8 {
        reached(4, 1, u32::from(byte - 0xf0))
    } else {
        Next::Stuck
    }
}

/// The first byte of a sequence.
fn next_ground(rows: usize, cols: usize, wrapping: bool, byte: u8) -> Next
    ensures next { result ≡ next_step rows cols wrapping Ground byte }
    ensures fits { IsNext rows cols wrapping result }
    ensures spelled { IsSpelled Ground byte result }
{
    if byte == ESCAPE {
        Next::Wait(Place::Escape)
    } else if wrapping {
        Next::Stuck
    } else if (b' '..=b'~').contains(&byte) {
        Next::Perform(Operation::Print(byte as char))
    } else {
        first_read(byte)
    }
}

/// A further byte of a character past ASCII.
fn next_inside(
    rows: usize,
    cols: usize,
    wrapping: bool,
    size: usize,
    read: usize,
    value: u32,
    byte: u8,
) -> Next
    requires place { IsPlace rows cols wrapping (Inside size read value) }
    ensures next { result ≡ next_step rows cols wrapping (Inside size read value) byte }
    ensures fits { IsNext rows cols wrapping result }
    ensures spelled { IsSpelled (Inside size read value) byte result }
{
    if (0x80..0xc0).contains(&byte) {
        reached(size, read + 1, value * 64 + u32::from(byte - 0x80))
    } else {
        Next::Stuck
    }
}

fn next_bracket(rows: usize, cols: usize, wrapping: bool, byte: u8) -> Next
    requires size { IsSize rows cols }
    ensures next { result ≡ next_step rows cols wrapping Bracket byte }
    ensures fits { IsNext rows cols wrapping result }
    ensures spelled { IsSpelled Bracket byte result }
{
    if byte == b'K' {
        Next::Perform(Operation::Erase)
    } else if byte == b'm' {
        Next::Perform(Operation::Plain)
    } else if byte == b'?' {
        Next::Wait(Place::Question)
    } else if (b'1'..=b'9').contains(&byte) && (digit_of(byte) <= rows || byte == b'7') {
        Next::Wait(Place::Number(digit_of(byte)))
    } else {
        Next::Stuck
    }
}

fn next_number(rows: usize, cols: usize, wrapping: bool, number: usize, byte: u8) -> Next
    requires size { IsSize rows cols }
    requires number { IsPlace rows cols wrapping (Number number) }
    ensures next { result ≡ next_step rows cols wrapping (Number number) byte }
    ensures fits { IsNext rows cols wrapping result }
    ensures spelled { IsSpelled (Number number) byte result }
{
    if byte == b'J' && number == 2 {
        Next::Perform(Operation::Clear)
    } else if byte == b'm' && number == 7 {
        Next::Perform(Operation::Reverse)
    } else if byte == b';' && number <= rows {
        Next::Wait(Place::Row(number))
    } else if byte.is_ascii_digit() && number * 10 + digit_of(byte) <= rows {
        Next::Wait(Place::Number(number * 10 + digit_of(byte)))
    } else {
        Next::Stuck
    }
}

fn next_row(rows: usize, cols: usize, wrapping: bool, row: usize, byte: u8) -> Next
    requires size { IsSize rows cols }
    requires row { IsPlace rows cols wrapping (Row row) }
    ensures next { result ≡ next_step rows cols wrapping (Row row) byte }
    ensures fits { IsNext rows cols wrapping result }
    ensures spelled { IsSpelled (Row row) byte result }
{
    if (b'1'..=b'9').contains(&byte) && digit_of(byte) <= cols {
        Next::Wait(Place::Column(row, digit_of(byte)))
    } else {
        Next::Stuck
    }
}

fn next_column(
    rows: usize,
    cols: usize,
    wrapping: bool,
    row: usize,
    column: usize,
    byte: u8,
) -> Next
    requires size { IsSize rows cols }
    requires place { IsPlace rows cols wrapping (Column row column) }
    ensures next { result ≡ next_step rows cols wrapping (Column row column) byte }
    ensures fits { IsNext rows cols wrapping result }
    ensures spelled { IsSpelled (Column row column) byte result }
{
    if byte == b'H' {
        Next::Perform(Operation::Goto(row - 1, column - 1))
    } else if byte.is_ascii_digit() && column * 10 + digit_of(byte) <= cols {
        Next::Wait(Place::Column(row, column * 10 + digit_of(byte)))
    } else {
        Next::Stuck
    }
}
