// How a text is written: as UTF-8, in pieces.
ghost use Rattle.std.specs.Prelude.{◌≡◌, ◌≤◌, ◌+◌, ◌++◌, [], length, OnOk, string_bytes, string_len, string_capacity};
ghost use Rattle.std.specs.Char.{encode_utf8};
ghost use Rattle.std.specs.Str.{encode_utf8_all};
ghost use Rattle.std.specs.Io.KnownBytes.{Appends, append_known};

use std::io::{self, Write};

// The most bytes that a character takes.
const MOST: usize = 4;

// Writes out what was gathered, if another character may find no room.
fn make_room<W: Write>(writer: &mut W, room: &mut String) -> io::Result<()>
    requires { MOST ≤ string_capacity room.old }
    ensures held { OnOk result (Appends (append_known (W.contents writer.old) (string_bytes room.old)) (append_known (W.contents writer.new) (string_bytes room.new)) []) }
    ensures room { OnOk result (string_len room.new + MOST ≤ string_capacity room.new) }
    ensures capacity { string_capacity room.new ≡ string_capacity room.old }
{
    if room.capacity() - room.len() < MOST {
        writer.write_all(room.as_bytes())?;
        room.clear();
    }
    Ok(())
}

// Gathers the UTF-8 of a character, for which there is room.
fn put(room: &mut String, c: char)
    requires { string_len room.old + MOST ≤ string_capacity room.old }
    ensures bytes { string_bytes room.new ≡ string_bytes room.old ++ encode_utf8 c }
    ensures room { string_capacity room.old ≤ string_capacity room.new }
{
    match room.push(c) {
        Ok(()) => {}
        Err(_) => unreachable!(),
    }
}

/// How many bytes a text has as UTF-8.
#[tactic(auto, using(crate::proofs::Lengths::counted, crate::proofs::Lengths::encodes_len))]
pub fn encoded_len(text: &[char]) -> usize
    ensures { result ≡ length (encode_utf8_all text.now) }
{
    let mut len = 0;
    for i in 0..text.len() {
        len += text[i].len_utf8();
    }
    len
}

/// Writes a text as UTF-8, gathered in the room that is lent, which takes at least one character. No memory is taken. At `Ok` the
/// writer took exactly these bytes, in their order; what it took before an error is not told.
#[tactic(auto, using(crate::proofs::Appending::ahead_first, crate::proofs::Appending::ahead_more, crate::proofs::Appending::ahead_written))]
pub fn write_text<W: Write>(writer: &mut W, room: &mut String, text: &[char]) -> io::Result<()>
    requires { MOST ≤ string_capacity room.old }
    ensures written { OnOk result (Appends (W.contents writer.old) (W.contents writer.new) (encode_utf8_all text.now)) }
    ensures room { string_capacity room.old ≤ string_capacity room.new }
{
    room.clear();
    for i in 0..text.len() {
        make_room(writer, room)?;
        put(room, text[i]);
    }
    let bytes = room.as_bytes();
    writer.write_all(bytes)
}
