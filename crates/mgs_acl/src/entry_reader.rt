// How a written entry is read.
ghost use Rattle.std.specs.Prelude.{◌≡◌, ◌<◌, ◌↔◌, length, map, position, is_some, IfSome, IsSome};
ghost use Rattle.std.specs.Option.{option_map};
ghost use Rattle.std.specs.List.{before_first, after_first};
ghost use Rattle.mgs_model.specs.Names.{IsName, is_group_or_none, is_space};
ghost use Rattle.mgs_model.specs.Rights.{letter_of};
ghost use Rattle.mgs_model.specs.Spelling.{words, type_named, user_named, after_group, named_who, who_named, right_lettered, mask_lettered, entry_in};
ghost use Rattle.mgs_acl.specs.Spelling.{words_cut};

use crate::characters::Character;
use arrayvec::ArrayString;
use mgs_model::{Entry, EntryFault, EntryType, Mask, NAME_LIMIT, Name, Right, Who};

/// The place of the first space.
fn space_in<C: Character>(text: &[C]) -> Option<usize>
    ensures at { result ≡ position (λ c. is_space (C.number c)) text.now }
    ensures within { IfSome result (λ i. i < length text.now) }
{
    text.iter().position(|character| character.as_char() == ' ')
}

/// The text up to its first space, and the text after it.
fn cut<C: Character>(text: &[C]) -> (&[C], &[C])
    ensures piece { result.0.now ≡ before_first (λ c. is_space (C.number c)) text.now }
    ensures rest { result.1.now ≡ after_first (λ c. is_space (C.number c)) text.now }
{
    match space_in(text) {
        None => (text, &[]),
        Some(at) => (&text[..at], &text[at + 1..]),
    }
}

/// The first word, and the text after the space that ends it.
#[tactic(auto, using(crate::proofs::WordLemmas::words_filled, crate::proofs::WordLemmas::words_empty))]
fn next_word<C: Character>(mut text: &[C]) -> Option<(&[C], &[C])>
    ensures { words_cut (option_map (λ p. (map C.number p.0.now, map C.number p.1.now)) result) ≡ words (map C.number text.entry.now) }
{
    while !text.is_empty() {
        let (piece, rest) = cut(text);
        if !piece.is_empty() {
            return Some((piece, rest));
        }
        text = rest;
    }
    None
}

fn type_named<C: Character>(word: &[C]) -> Option<EntryType>
    ensures { result ≡ type_named (map C.number word.now) }
{
    if C::is_word(word, b"ALLOW") {
        Some(EntryType::Allow)
    } else if C::is_word(word, b"DENY") {
        Some(EntryType::Deny)
    } else {
        None
    }
}

/// The word as a name, if it is one. No name has a character past ASCII.
#[tactic(auto, using(crate::proofs::NameLemmas::no_name_past_ascii))]
fn name_spelled<C: Character>(word: &[C]) -> Option<Name>
    ensures form { IsSome result ↔ IsName (map C.number word.now) }
    ensures value { IfSome result (λ n. n ≡ map C.number word.now) }
{
    if word.len() > NAME_LIMIT {
        return None;
    }
    let mut text = ArrayString::<NAME_LIMIT>::new();
    for character in word {
        let character = character.as_char();
        if !character.is_ascii() {
            return None;
        }
        text.push(character);
    }
    Name::read(text.as_str())
}

#[tactic(auto, using(crate::proofs::NameLemmas::user_named_no_name))]
fn user_spelled<C: Character>(word: &[C]) -> Option<Name>
    ensures { result ≡ user_named (map C.number word.now) }
{
    match name_spelled(word) {
        Some(name) if name.is_user_name() => Some(name),
        _ => None,
    }
}

/// The text as the name of a user or a group, if it is one: 1 to `NAME_LIMIT` (32) lower-case letters, digits, `-` and `_`.
pub fn user_named(word: &str) -> Option<Name>
    ensures { result ≡ user_named word.now }
{
    user_spelled(word.as_bytes())
}

/// The text as the name of a group, where there is one, and none where there is none. `None`: it is no group's name.
pub fn group_named(group: Option<&str>) -> Option<Option<Name>>
    ensures form { is_some result ≡ is_group_or_none (option_map (λ g. g.now) group.entry) }
    ensures value { IfSome result (λ g. g ≡ option_map (λ g. g.now) group.entry) }
{
    match group {
        None => Some(None),
        Some(group) => match user_named(group) {
            Some(group) => Some(Some(group)),
            None => None,
        },
    }
}

/// The rest of a word that begins with `group:`.
fn after_group<C: Character>(word: &[C]) -> Option<&[C]>
    ensures { option_map (λ name. map C.number name.now) result ≡ after_group (map C.number word.now) }
{
    let (front, name) = word.split_at(word.len().min(6));
    if C::is_word(front, b"group:") {
        Some(name)
    } else {
        None
    }
}

fn named_who<C: Character>(word: &[C]) -> Option<Who>
    ensures { result ≡ named_who (map C.number word.now) (after_group (map C.number word.now)) }
{
    match after_group(word) {
        Some(name) => match user_spelled(name) {
            Some(name) => Some(Who::Group(name)),
            None => None,
        },
        None => match user_spelled(word) {
            Some(name) => Some(Who::User(name)),
            None => None,
        },
    }
}

fn who_named<C: Character>(word: &[C]) -> Option<Who>
    ensures { result ≡ who_named (map C.number word.now) }
{
    if C::is_word(word, b"OWNER@") {
        Some(Who::Owner)
    } else if C::is_word(word, b"GROUP@") {
        Some(Who::OwningGroup)
    } else if C::is_word(word, b"EVERYONE@") {
        Some(Who::Everyone)
    } else {
        named_who(word)
    }
}

/// The letter that a right is written as. It is ASCII, so below 128.
pub(crate) fn letter_of(right: Right) -> char
    ensures value { result ≡ letter_of right }
    ensures ascii { result < 128 }
{
    match right {
        Right::ReadData => 'r',
        Right::WriteData => 'w',
        Right::AppendData => 'a',
        Right::ReadAttributes => 't',
        Right::Delete => 'd',
        Right::ReadAcl => 'c',
        Right::WriteAcl => 'C',
        Right::WriteOwner => 'o',
    }
}

fn right_lettered(letter: char) -> Option<Right>
    ensures { result ≡ right_lettered letter }
{
    Right::ALL
        .iter()
        .copied()
        .find(|right| letter_of(*right) == letter)
}

fn mask_lettered<C: Character>(word: &[C]) -> Option<Mask>
    ensures { result ≡ mask_lettered (map C.number word.now) }
{
    if word.is_empty() {
        return None;
    }
    let mut mask = Mask::none();
    for letter in word {
        mask = mask.union(Mask::of(right_lettered(letter.as_char())?));
    }
    Some(mask)
}

/// Reads an entry: `TYPE WHO LETTERS`, the words separated by one or more spaces, with any number of spaces before and after them.
/// TYPE is `ALLOW` or `DENY`. WHO is `OWNER@`, `GROUP@`, `EVERYONE@`, a user's name, or `group:` and a group's name. LETTERS are one or more of
/// r (READ_DATA), w (WRITE_DATA), a (APPEND_DATA), t (READ_ATTRIBUTES), d (DELETE), c (READ_ACL), C (WRITE_ACL) and o (WRITE_OWNER),
/// in any order, also more than once.
///
/// The words are checked from left to right. `Kind`, `Who` or `Letters`: the first, second or third word is missing or is none of these.
/// `Trailing`: there is a fourth word.
pub fn read_entry(text: &str) -> Result<Entry, EntryFault>
    ensures { result ≡ entry_in text.now }
{
    entry_of(text.as_bytes())
}

/// Reads an entry that is typed, as `read_entry` does. A character past ASCII is in no entry.
pub fn entry_typed(typed: &[char]) -> Result<Entry, EntryFault>
    ensures { result ≡ entry_in typed.now }
{
    entry_of(typed)
}

fn entry_of<C: Character>(text: &[C]) -> Result<Entry, EntryFault>
    ensures { result ≡ entry_in (map C.number text.now) }
{
    let Some((word, rest)) = next_word(text) else {
        return Err(EntryFault::Kind);
    };
    let Some(entry_type) = type_named(word) else {
        return Err(EntryFault::Kind);
    };
    let Some((word, rest)) = next_word(rest) else {
        return Err(EntryFault::Who);
    };
    let Some(who) = who_named(word) else {
        return Err(EntryFault::Who);
    };
    let Some((word, rest)) = next_word(rest) else {
        return Err(EntryFault::Letters);
    };
    let Some(mask) = mask_lettered(word) else {
        return Err(EntryFault::Letters);
    };
    match next_word(rest) {
        None => Ok(Entry {
            entry_type,
            who,
            mask,
        }),
        Some(_) => Err(EntryFault::Trailing),
    }
}
