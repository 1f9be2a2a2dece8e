// Bytes of a terminal as keys.
ghost use Rattle.std.specs.Prelude.{◌≡◌};
ghost use Rattle.mgs_keys.specs.Decoded.{decoded, held_after, begun_key, held_begun, key_within, held_within, is_in_character, is_nothing};
ghost use Rattle.mgs_keys.specs.declared.decoder.Held.TheVariants.{Nothing};

use crate::token_texts::ESCAPE;
use mgs_model::{Sequence, read_sequence};
use std::marker::Model;

/// A key of a terminal: its byte, and whether it was typed with Meta, or a character past ASCII.
#[derive(Clone, Copy, PartialEq, Eq)]
pub enum Key {
    /// A byte. One past ASCII stands for bytes that are no character.
    Plain(u8),
    /// A terminal sends ESC (0x1B) before its byte.
    Meta(u8),
    /// A terminal sends the character in UTF-8.
    Wide(char),
}

/// The bytes that came of a key that is not complete.
#[derive(Clone, Copy, PartialEq, Eq)]
pub enum Held {
    /// None: the next byte begins a key.
    Nothing,
    /// ESC, which waits for the byte of a key with Meta.
    Escape,
    /// The first byte of a character past ASCII.
    One(u8),
    /// The first two bytes of a character of three or four.
    Two(u8, u8),
    /// The first three bytes of a character of four.
    Three(u8, u8, u8),
}

const QUIT: u8 = 0x07;

/// Makes keys of the bytes that a terminal sends. It holds the bytes of a key that is not complete: ESC (0x1B), or those of a
/// character past ASCII.
#[derive(Clone, Copy)]
pub struct Decoder {
    held: Held,
}

impl Model for Decoder {
    ghost use Rattle.mgs_keys.specs.declared.decoder.Held.{Held};

    ghost Value = { Held };

    ghost view = { λ d. d.held };

    ghost inverse = { λ held. record { held = held } };
}

// The key that bytes give, of which this is the first.
fn begun_key(first: u8, sequence: Sequence) -> Option<Key>
    ensures { result ≡ begun_key first sequence }
{
    match sequence {
        Sequence::Whole(c) => Some(Key::Wide(c)),
        Sequence::Begun => None,
        Sequence::Broken => Some(Key::Plain(first)),
    }
}

fn held_begun(sequence: Sequence, held: Held) -> Held
    ensures { result ≡ held_begun sequence held }
{
    match sequence {
        Sequence::Begun => held,
        Sequence::Whole(_) => Held::Nothing,
        Sequence::Broken => Held::Nothing,
    }
}

// A byte that goes on with a character, or does not.
fn within(first: u8, byte: u8, bytes: &[u8], held: Held) -> (Option<Key>, Held)
    ensures key { result.0 ≡ key_within first byte bytes.now }
    ensures held { result.1 ≡ held_within byte bytes.now held }
{
    if byte == QUIT {
        return (Some(Key::Plain(byte)), Held::Nothing);
    }
    let sequence = read_sequence(bytes);
    (begun_key(first, sequence), held_begun(sequence, held))
}

fn first_of(byte: u8) -> (Option<Key>, Held)
    ensures key { result.0 ≡ decoded Nothing byte }
    ensures held { result.1 ≡ held_after Nothing byte }
{
    if byte == ESCAPE {
        (None, Held::Escape)
    } else if byte < 0x80 {
        (Some(Key::Plain(byte)), Held::Nothing)
    } else {
        let sequence = read_sequence(&[byte]);
        (
            begun_key(byte, sequence),
            held_begun(sequence, Held::One(byte)),
        )
    }
}

fn step(held: Held, byte: u8) -> (Option<Key>, Held)
    ensures key { result.0 ≡ decoded held byte }
    ensures held { result.1 ≡ held_after held byte }
{
    match held {
        Held::Nothing => first_of(byte),
        Held::Escape => (Some(Key::Meta(byte)), Held::Nothing),
        Held::One(a) => within(a, byte, &[a, byte], Held::Two(a, byte)),
        Held::Two(a, b) => within(a, byte, &[a, b, byte], Held::Three(a, b, byte)),
        Held::Three(a, b, c) => within(a, byte, &[a, b, c, byte], Held::Nothing),
    }
}

impl Decoder {
    /// Waits for a first byte.
    pub fn new() -> Decoder
        ensures { result ≡ Nothing }
    {
        Decoder {
            held: Held::Nothing,
        }
    }

    /// Whether it waits for a first byte.
    pub fn is_idle(&self) -> bool
        ensures { result ≡ is_nothing self.now }
    {
        matches!(self.held, Held::Nothing)
    }

    /// Whether it waits for a byte that goes on with a character.
    pub fn is_in_character(&self) -> bool
        ensures { result ≡ is_in_character self.now }
    {
        matches!(
            self.held,
            Held::One(_) | Held::Two(_, _) | Held::Three(_, _, _)
        )
    }

    /// The key that is complete with this byte. None after an ESC that begins a key, and within a character; the byte after
    /// an ESC, also a second one, is that of a key with Meta. Bytes that are no character give the first of them; C-g within
    /// a character gives itself.
    pub fn feed(&mut self, byte: u8) -> Option<Key>
        ensures key { result ≡ decoded self.old byte }
        ensures waits { self.new ≡ held_after self.old byte }
    {
        let (key, held) = step(self.held, byte);
        self.held = held;
        key
    }
}
