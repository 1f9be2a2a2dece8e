// Keys written as tokens.
ghost use Rattle.std.specs.Prelude.{◌≡◌};
ghost use Rattle.mgs_keys.specs.Tokens.{named_byte_of, control_byte_of, meta_byte_of, token_bytes, keys_of, GivesKeys};

use crate::KeysFault;
use crate::token_texts::{ESCAPE, Spelling, Tokens, quoted, read_tokens};
use std::alloc::Global;

const DELETE: u8 = 0x7F;

// The byte of a key that has a name of its own.
fn named_byte(token: &[u8]) -> Option<u8>
    ensures { result ≡ named_byte_of token.now }
{
    if token == b"RET".as_slice() {
        Some(b'\r')
    } else if token == b"TAB".as_slice() {
        Some(b'\t')
    } else if token == b"SPC".as_slice() {
        Some(b' ')
    } else if token == b"ESC".as_slice() {
        Some(ESCAPE)
    } else if token == b"DEL".as_slice() {
        Some(DELETE)
    } else if token == b"C-SPC".as_slice() {
        Some(0x00)
    } else if token == b"C-_".as_slice() {
        Some(0x1F)
    } else {
        None
    }
}

// The byte of a letter with Control.
fn control_byte(token: &[u8]) -> Option<u8>
    ensures { result ≡ control_byte_of token.now }
{
    match token {
        [b'C', b'-', letter] if b'a' <= *letter && *letter <= b'z' => Some(*letter & 0x1F),
        _ => None,
    }
}

// The byte that ESC stands before.
fn meta_byte(token: &[u8]) -> Option<u8>
    ensures { result ≡ meta_byte_of token.now }
{
    if token == b"M-SPC".as_slice() {
        return Some(b' ');
    }
    if token == b"M-DEL".as_slice() {
        return Some(DELETE);
    }
    match token {
        [b'M', b'-', character] if b'!' <= *character && *character <= b'~' => Some(*character),
        _ => None,
    }
}

// The tokens of keys.
struct KeyTokens;

impl Tokens for KeyTokens {
    ghost use Rattle.mgs_keys.specs.Tokens.{token_bytes};

    ghost bytes_of = { token_bytes };

    #[tactic(auto, unfolding(crate::specs::Tokens::token_bytes))]
    fn spelling(token: &[u8]) -> Option<Spelling<'_>> {
        if let Some(byte) = named_byte(token) {
            return Some(Spelling::One(byte));
        }
        if let Some(byte) = control_byte(token) {
            return Some(Spelling::One(byte));
        }
        if let Some(byte) = meta_byte(token) {
            return Some(Spelling::Escaped(byte));
        }
        quoted(token).map(Spelling::Each)
    }
}

/// The bytes that a terminal sends for keys that are written as tokens, parted by single spaces.
///
/// A token is `C-a` to `C-z` (the letter AND 0x1F), `C-SPC` (0x00), `C-_` (0x1F), `RET` (0x0D), `TAB` (0x09), `SPC` (0x20),
/// `ESC` (0x1B), `DEL` (0x7F), `'chars` (one or more characters 0x21 to 0x7E, each its byte), or `M-` before one
/// character 0x21 to 0x7E or before `SPC` or `DEL` (0x1B and that byte).
///
/// `BadToken` is answered where some word is no token; an empty text and a space that no word stands beside have an
/// empty word. `Short` is out of memory, which comes only where each word is a token.
pub fn read_keys(alloc: Global, tokens: &str) -> Result<Vec<u8>, KeysFault>
    ensures { GivesKeys result (keys_of tokens.now) }
{
    read_tokens::<KeyTokens>(alloc, tokens)
}
