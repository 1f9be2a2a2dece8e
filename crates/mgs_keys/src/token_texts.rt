// Texts written as tokens.
ghost use Rattle.std.specs.Prelude.{◌≡◌, ◌<◌, ◌++◌, ◌∷◌, length, IfSome, OnOk, is_some};
ghost use Rattle.std.specs.Option.{option_map};
ghost use Rattle.mgs_model.specs.Names.{is_space};
ghost use Rattle.mgs_keys.specs.Words.{words_of, parts_after};
ghost use Rattle.mgs_keys.specs.Tokens.{quoted_of, spelled_by, bytes_in, GivesKeys};

use crate::KeysFault;
use crate::words::{cut_at, is_quotable};
use std::alloc::{AllocError, Global};

// The byte that a terminal sends before that of a key with Meta.
pub(crate) const ESCAPE: u8 = 0x1B;

/// The bytes that a token spells.
#[derive(Clone, Copy)]
pub enum Spelling<'a> {
    /// This byte.
    One(u8),
    /// ESC (0x1B) and this byte.
    Escaped(u8),
    /// These bytes.
    Each(&'a [u8]),
}

/// A set of tokens.
pub trait Tokens {
    ghost use Rattle.std.specs.Prelude.{ℕ, List, Option};

    // The bytes that a token spells.
    ghost bytes_of: { List ℕ → Option (List ℕ) };

    /// What a token spells. None where the word is no token of the set.
    fn spelling(token: &[u8]) -> Option<Spelling<'_>>
        ensures { option_map bytes_in result ≡ bytes_of token.now };
}

/// What a token `'chars` quotes: one or more characters 0x21 to 0x7E. None where the token is no such one.
pub fn quoted(token: &[u8]) -> Option<&[u8]>
    ensures { option_map (λ x. x.now) result ≡ quoted_of token.now }
{
    match token {
        [b'\'', characters @ ..] if is_quotable(characters) => Some(characters),
        _ => None,
    }
}

/// The first word of a text, and what stands after the space after it, if there is one: all of the words, parted by single
/// spaces.
#[tactic(auto, using(crate::proofs::Cuts::parts_cut))]
pub fn cut_word(text: &[u8]) -> (&[u8], Option<&[u8]>)
    ensures words { words_of text.now ≡ result.0.now ∷ parts_after is_space (option_map (λ x. x.now) result.1) }
    ensures shorter { IfSome result.1 (λ x. length x.now < length text.now) }
{
    cut_at(text, b' ')
}

// Whether each word of a text is a token.
fn are_tokens<T: Tokens>(text: &[u8]) -> bool
    ensures { result ≡ is_some (spelled_by T.bytes_of (words_of text.now)) }
{
    let mut left = Some(text);
    while let Some(words) = left {
        let (token, rest) = cut_word(words);
        if T::spelling(token).is_none() {
            return false;
        }
        left = rest;
    }
    true
}

fn push_spelling(bytes: &mut Vec<u8>, spelling: Spelling) -> Result<(), AllocError>
    ensures { OnOk result (bytes.new.items ≡ bytes.old.items ++ bytes_in spelling.entry) }
{
    match spelling {
        Spelling::One(byte) => bytes.push(byte)?,
        Spelling::Escaped(byte) => bytes.extend_from_slice(&[ESCAPE, byte])?,
        Spelling::Each(each) => bytes.extend_from_slice(each)?,
    }
    Ok(())
}

/// The bytes that a text spells whose words, parted by single spaces, are tokens of a set.
///
/// `BadToken` is answered where some word is no token; an empty text and a space that no word stands beside have an
/// empty word. `Short` is out of memory, which comes only where each word is a token.
pub fn read_tokens<T: Tokens>(alloc: Global, tokens: &str) -> Result<Vec<u8>, KeysFault>
    ensures { GivesKeys result (spelled_by T.bytes_of (words_of tokens.now)) }
{
    let text = tokens.as_bytes();
    if !are_tokens::<T>(text) {
        return Err(KeysFault::BadToken);
    }
    let mut bytes = Vec::new(alloc);
    let mut left = Some(text);
    while let Some(words) = left {
        let (token, rest) = cut_word(words);
        let Some(spelling) = T::spelling(token) else {
            return Err(KeysFault::BadToken);
        };
        if push_spelling(&mut bytes, spelling).is_err() {
            return Err(KeysFault::Short);
        }
        left = rest;
    }
    Ok(bytes)
}
