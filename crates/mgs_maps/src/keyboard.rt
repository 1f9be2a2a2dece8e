// What bytes come to.
ghost use Rattle.std.specs.Prelude.{◌≡◌, true};
ghost use Rattle.mgs_model.specs.Keys.{character_read, in_sequence, is_character_byte, key_read, value_of};
ghost use Rattle.mgs_maps.specs.Held.{FedBy, IsBoundRun, argument_held, character_fed, character_of, held_character, nothing_held};

use crate::maps::{Fed, Maps};
use mgs_keys::{Decoder, Key};
use mgs_model::{Command, Insertion, Sequence};
use std::marker::Model;

const QUIT: u8 = 0x07;

/// Makes commands of the bytes that a terminal sends. It holds what a session has half read: an argument, and the word
/// of keys that goes on.
#[derive(Clone, Copy)]
pub struct Keyboard {
    decoder: Decoder,
    maps: Maps,
}

impl Model for Keyboard {
    ghost use Rattle.mgs_maps.specs.Held.{Held, Fits, held_at};
    ghost use Rattle.mgs_maps.specs.Back.{decoder_back, prefix_back, decoder_told, prefix_told};

    ghost Value = { Held };

    ghost view = { λ k. held_at k.decoder k.maps };

    ghost invariant = { λ k. Fits k.maps.prefix k.decoder };

    ghost inverse = { λ h. record { decoder = decoder_back h.keys; maps = record { argument = h.argument; prefix = prefix_back h.keys } } };

    ghost inverse_ok = { λ k h i. record { decoder = decoder_told k.decoder k.maps.prefix h i; maps = record { argument = k.maps.argument; prefix = prefix_told k.decoder k.maps.prefix h i } } };
}

// The character that a command inserts.
fn character_of(command: Command) -> Sequence
    ensures { result ≡ character_of command }
{
    match command {
        Command::Insert(Insertion::SelfInsert(c)) => Sequence::Whole(c),
        _ => Sequence::Broken,
    }
}

// What a byte of a character past ASCII has come to.
fn character_fed(fed: Fed) -> Sequence
    ensures { result ≡ character_fed fed }
{
    match fed {
        Fed::Pending => Sequence::Begun,
        Fed::Run(command, _) => character_of(command),
        Fed::Unbound => Sequence::Broken,
    }
}

impl Keyboard {
    /// Holds nothing.
    pub fn new() -> Keyboard
        ensures { result ≡ nothing_held }
    {
        Keyboard {
            decoder: Decoder::new(),
            maps: Maps::new(),
        }
    }

    /// Holds an argument alone, which no digit goes on with: the argument of the command that a prompt is for.
    pub fn holding(argument: Option<u32>) -> Keyboard
        ensures { result ≡ argument_held argument }
    {
        Keyboard {
            decoder: Decoder::new(),
            maps: Maps::holding(argument),
        }
    }

    /// The argument that is held.
    pub fn argument(&self) -> Option<u32>
        ensures { result ≡ value_of self.now.argument }
    {
        self.maps.argument()
    }

    fn is_in_character(&self) -> bool
        ensures { result ≡ in_sequence self.now.keys }
    {
        self.decoder.is_in_character()
    }

    /// What a byte comes to, after what is held: a word of keys that goes on, a command and its argument, or a word that
    /// runs no command. A command is one of the table, or inserts the character that was typed.
    ///
    /// The bytes of a character past ASCII are its UTF-8. A byte that cannot go on with them runs no command, and is used up
    /// with them; C-g there is keyboard-quit. After C-q a byte from 0x00 to 0x7F inserts itself, and such a character
    /// too; after ESC, C-x and M-[ a byte from 0x80 on runs no command.
    #[tactic(auto, using(crate::proofs::Sequenced::raw_is_fed, crate::proofs::Sequenced::key_is_fed, crate::proofs::Sequenced::key_fits, crate::proofs::Sequenced::rest_is_read, crate::proofs::Sequenced::rest_fits))]
    pub fn feed(&mut self, byte: u8) -> Fed
        ensures read { FedBy result (key_read self.old.argument self.old.keys byte) self.new }
        ensures bound { IsBoundRun result }
    {
        if self.decoder.is_idle() && self.maps.takes(byte) {
            return self.maps.feed(Key::Plain(byte));
        }
        match self.decoder.feed(byte) {
            None => Fed::Pending,
            Some(key) => self.maps.feed_decoded(key),
        }
    }

    /// Whether a byte that is typed belongs to a character past ASCII, or begins one, rather than being a key of ASCII: what a
    /// prompt or a search asks of each byte.
    pub fn is_character_byte(&self, byte: u8) -> bool
        ensures { result ≡ is_character_byte self.now.keys byte }
    {
        (byte >= 0x80 || self.is_in_character()) && byte != QUIT
    }

    /// A byte of a character past ASCII, behind what is held: `Whole` with its last byte, `Begun` while bytes are to come, which
    /// are held, and `Broken` where it cannot go on with what is held, or begins none. After `Whole` and `Broken` nothing is held.
    #[tactic(auto, using(crate::proofs::Characters::is_character, crate::proofs::Characters::is_held))]
    pub fn feed_character(&mut self, byte: u8) -> Sequence
        requires { is_character_byte self.old.keys byte ≡ true }
        ensures read { result ≡ character_read self.old.keys byte }
        ensures held { self.new ≡ held_character self.old byte result }
    {
        let fed = self.feed(byte);
        character_fed(fed)
    }
}
