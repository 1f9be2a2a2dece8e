// Texts written as tokens.
ghost use Rattle.std.specs.Prelude.{◌≡◌, IfOk, Some};
ghost use Rattle.std.specs.Str.{IsUtf8, chars};
ghost use Rattle.mgs_keys.specs.Tokens.{GivesKeys};
ghost use Rattle.mgs_script.specs.Words.{token_characters, text_of};

use mgs_keys::{KeysFault, Spelling, Tokens, quoted, read_tokens};
use std::alloc::{AllocError, Global};
use std::str;

// The tokens of texts.
struct TextTokens;

impl Tokens for TextTokens {
    ghost use Rattle.mgs_script.specs.Words.{token_characters};

    ghost bytes_of = { token_characters };

    #[tactic(auto, unfolding(crate::specs::Words::token_characters))]
    fn spelling(token: &[u8]) -> Option<Spelling<'_>> {
        if token == b"RET".as_slice() {
            return Some(Spelling::One(b'\n'));
        }
        if token == b"TAB".as_slice() {
            return Some(Spelling::One(b'\t'));
        }
        if token == b"SPC".as_slice() {
            return Some(Spelling::One(b' '));
        }
        quoted(token).map(Spelling::Each)
    }
}

#[tactic(auto, using(std::proofs::lemmas::Str::chars_from_encodes))]
fn collected(alloc: Global, text: &str) -> Result<Vec<char>, AllocError>
    ensures { IfOk result (λ cs. cs.items ≡ chars text.now) }
{
    text.chars().collect(alloc)
}

// The characters of bytes that are UTF-8.
fn characters_of(alloc: Global, bytes: &[u8]) -> Result<Vec<char>, KeysFault>
    requires { IsUtf8 bytes.now }
    ensures { GivesKeys result (Some (chars bytes.now)) }
{
    match str::from_utf8(bytes) {
        Ok(text) => match collected(alloc, text) {
            Ok(characters) => Ok(characters),
            Err(_) => Err(KeysFault::Short),
        },
        Err(_) => unreachable!(),
    }
}

// The characters of a text that is written as tokens, parted by single spaces: `RET` (a line feed), `TAB`, `SPC` (a space) and
// `'chars` (one or more characters above the space but DEL).
//
// `BadToken` is answered where some word is no token. `Short` is out of memory, which comes only where each word is a
// token.
pub(crate) fn read_text(alloc: Global, tokens: &str) -> Result<Vec<char>, KeysFault>
    ensures { GivesKeys result (text_of tokens.now) }
{
    let bytes = read_tokens::<TextTokens>(alloc, tokens)?;
    characters_of(alloc, &bytes)
}
