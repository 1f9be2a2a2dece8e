// Parts of a text between bytes of one value, and bytes that are a text.
ghost use Rattle.std.specs.Prelude.{◌≡◌, ◌==◌, ◌<◌, length, position, IfSome};
ghost use Rattle.std.specs.Option.{option_map};
ghost use Rattle.std.specs.List.{before_first, list_all};
ghost use Rattle.mgs_keys.specs.Words.{is_quotable, is_quoted, rest_after, utf8_of};

use std::str;

// The place of the first byte of that value.
fn place_of(text: &[u8], separator: u8) -> Option<usize>
    ensures at { result ≡ position (λ b. b == separator) text.now }
    ensures within { IfSome result (λ i. i < length text.now) }
{
    text.iter().position(|b| *b == separator)
}

/// The part of a text before the first byte of that value, and what stands after that byte, if there is one.
pub fn cut_at(text: &[u8], separator: u8) -> (&[u8], Option<&[u8]>)
    ensures first { result.0.now ≡ before_first (λ b. b == separator) text.now }
    ensures rest { option_map (λ x. x.now) result.1 ≡ rest_after (λ b. b == separator) text.now }
    ensures shorter { IfSome result.1 (λ x. length x.now < length text.now) }
{
    match place_of(text, separator) {
        None => (text, None),
        Some(at) => (&text[..at], Some(&text[at + 1..])),
    }
}

fn all_quoted(bytes: &[u8]) -> bool
    ensures { result ≡ list_all is_quoted bytes.now }
{
    bytes.iter().all(|b| b' ' < *b && *b != 0x7f)
}

// Whether there are bytes, each of a character above the space but DEL.
pub(crate) fn is_quotable(bytes: &[u8]) -> bool
    ensures { result ≡ is_quotable bytes.now }
{
    !bytes.is_empty() && all_quoted(bytes)
}

/// The bytes as a text. None where they are not UTF-8.
pub fn utf8(bytes: &[u8]) -> Option<&str>
    ensures { option_map (λ x. x.now) result ≡ utf8_of bytes.now }
{
    match str::from_utf8(bytes) {
        Ok(text) => Some(text),
        Err(_) => None,
    }
}
