// The words of a script's line.
ghost use Rattle.std.specs.Prelude.{◌≡◌, ◌==◌, ◌<◌, ◌∷◌, not, length, map, IfOk, IfSome};
ghost use Rattle.std.specs.Option.{option_map};
ghost use Rattle.std.specs.List.{list_all};
ghost use Rattle.mgs_model.specs.Names.{is_space};
ghost use Rattle.mgs_keys.specs.Words.{word_of, words_after, words_of, parts_after};
ghost use Rattle.mgs_script.specs.Words.{name_of, any_word_of, size_said};

use mgs_keys::read_number;
use mgs_model::{Name, Short};
use std::alloc::Global;

// The first word of a text, and what stands after the space after it, if there is one.
pub(crate) fn cut_text(text: &str) -> (&str, Option<&str>)
    ensures word { result.0.now ≡ word_of text.now }
    ensures rest { option_map (λ x. x.now) result.1 ≡ words_after text.now }
    ensures shorter { IfSome result.1 (λ x. length x.now < length text.now) }
{
    match text.split_once(' ') {
        None => (text, None),
        Some((word, rest)) => (word, Some(rest)),
    }
}

// The same, of all words of a text.
#[tactic(auto, using(mgs_keys::proofs::Cuts::parts_cut))]
fn cut_word(text: &str) -> (&str, Option<&str>)
    ensures words { words_of text.now ≡ result.0.now ∷ parts_after is_space (option_map (λ x. x.now) result.1) }
    ensures shorter { IfSome result.1 (λ x. length x.now < length text.now) }
{
    cut_text(text)
}

// The words of a text, parted by single spaces.
pub(crate) fn words(alloc: Global, text: &str) -> Result<Vec<&str>, Short>
    ensures { IfOk result (λ words. map (λ word. word.now) words.items ≡ words_of text.now) }
{
    let mut words = Vec::new(alloc);
    let mut left = Some(text);
    while let Some(text) = left {
        let (word, rest) = cut_word(text);
        match words.push(word) {
            Ok(()) => left = rest,
            Err(_) => return Err(Short),
        }
    }
    Ok(words)
}

// The label or buffer's name that is written so, if it is one.
pub(crate) fn name_in(word: &str) -> Option<Name>
    ensures { result ≡ name_of word.now }
{
    Name::read(word)
}

fn has_no_return(bytes: &[u8]) -> bool
    ensures { result ≡ list_all (λ b. not (b == 13)) bytes.now }
{
    bytes.iter().all(|b| *b != b'\r')
}

// The word, if it is one: it has a byte, and no carriage return.
pub(crate) fn any_word(word: &str) -> Option<&str>
    ensures { option_map (λ x. x.now) result ≡ any_word_of word.now }
{
    if !word.is_empty() && has_no_return(word.as_bytes()) {
        Some(word)
    } else {
        None
    }
}

// The rows and columns that are written so.
pub(crate) fn size(text: &str) -> Option<(usize, usize)>
    ensures { result ≡ size_said text.now }
{
    let (rows, rest) = cut_text(text);
    let rows = read_number(rows.as_bytes())?;
    let cols = read_number(rest?.as_bytes())?;
    Some((rows, cols))
}
