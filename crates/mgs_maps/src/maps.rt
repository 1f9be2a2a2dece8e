// What keys come to.
ghost use Rattle.std.specs.Prelude.{◌≡◌};
ghost use Rattle.mgs_model.specs.Keys.{Half, Bound, quoted_read, value_of};
ghost use Rattle.mgs_maps.specs.Held.{FedBy, IsBoundRun, argument_held, held_by, key_reads, nothing_held, prefix_bytes};
ghost use Rattle.mgs_maps.specs.Words.{prefix_after, inserted as inserts, is_empty as begins, is_quote as quotes, is_raw as tells_raw, unquoted, word_reads, plain_reads, meta_reads, wide_reads};

use crate::argument::{digit_added, four_times, is_digit};
use crate::table::{BRACKET, CONTROL_X, QUOTE, find_command};
use mgs_keys::Key;
use mgs_model::{Argument, Command, Insertion, Setting};

const KEYBOARD_QUIT: u8 = 0x07;

const UNIVERSAL_ARGUMENT: u8 = 0x15;

const ASCII_LIMIT: u8 = 0x7F;

/// What a key, or a byte, comes to.
#[derive(Clone, Copy, PartialEq, Eq)]
pub enum Fed {
    /// A word of keys or an argument goes on.
    Pending,
    /// A word of keys is complete: its command, and the argument that was typed before it, 9,999 at most.
    Run(Command, Option<u32>),
    /// A word of keys runs no command.
    Unbound,
}

// The keys that were typed of a word.
#[derive(Clone, Copy, PartialEq, Eq)]
pub(crate) enum Prefix {
    Empty,
    ControlX,
    MetaBracket,
    Quote,
}

// A key that is one byte, with Meta or without.
#[derive(Clone, Copy, PartialEq, Eq)]
pub(crate) enum Stroke {
    Plain(u8),
    Meta(u8),
}

/// Makes commands of keys. It holds the argument that was typed, and the word that goes on.
#[derive(Clone, Copy)]
pub struct Maps {
    argument: Option<Argument>,
    prefix: Prefix,
}

fn is_empty(prefix: Prefix) -> bool
    ensures { result ≡ begins prefix }
{
    matches!(prefix, Prefix::Empty)
}

fn is_quote(prefix: Prefix) -> bool
    ensures { result ≡ quotes prefix }
{
    matches!(prefix, Prefix::Quote)
}

// Whether a byte is a key by itself: no ESC and no C-g behind C-q, and no character behind C-x and M-[.
fn is_raw(prefix: Prefix, byte: u8) -> bool
    ensures { result ≡ tells_raw prefix byte }
{
    match prefix {
        Prefix::Empty => false,
        Prefix::Quote => byte <= ASCII_LIMIT,
        Prefix::ControlX => byte > ASCII_LIMIT,
        Prefix::MetaBracket => byte > ASCII_LIMIT,
    }
}

// The prefix without C-q.
fn without_quote(prefix: Prefix) -> Prefix
    ensures { result ≡ unquoted prefix }
{
    match prefix {
        Prefix::Quote => Prefix::Empty,
        Prefix::Empty => Prefix::Empty,
        Prefix::ControlX => Prefix::ControlX,
        Prefix::MetaBracket => Prefix::MetaBracket,
    }
}

// The prefix that a key makes of another.
fn prefix_with(prefix: Prefix, stroke: Stroke) -> Option<Prefix>
    ensures { result ≡ prefix_after prefix stroke }
{
    match (prefix, stroke) {
        (Prefix::Empty, Stroke::Plain(byte)) if byte == CONTROL_X => Some(Prefix::ControlX),
        (Prefix::Empty, Stroke::Meta(byte)) if byte == BRACKET => Some(Prefix::MetaBracket),
        _ => None,
    }
}

// The character that a word of one key inserts.
fn inserted(prefix: Prefix, stroke: Stroke) -> Option<char>
    ensures { result ≡ inserts prefix stroke }
{
    match (prefix, stroke) {
        (Prefix::Empty, Stroke::Plain(byte)) if (b' ' <= byte && byte <= b'~') || byte == b'\t' => {
            Some(char::from(byte))
        }
        _ => None,
    }
}

impl Maps {
    /// Holds nothing.
    pub fn new() -> Maps
        ensures { held_by result ≡ nothing_held }
    {
        Maps {
            argument: None,
            prefix: Prefix::Empty,
        }
    }

    // Holds an argument alone, which no digit goes on with.
    pub(crate) fn holding(argument: Option<u32>) -> Maps
        ensures { held_by result ≡ argument_held argument }
    {
        let argument = match argument {
            None => None,
            Some(value) => Some(Argument {
                value,
                extends: false,
            }),
        };
        Maps {
            argument,
            prefix: Prefix::Empty,
        }
    }

    // The argument that is held.
    pub(crate) fn argument(&self) -> Option<u32>
        ensures { result ≡ value_of self.now.argument }
    {
        match self.argument {
            None => None,
            Some(typed) => Some(typed.value),
        }
    }

    // Whether the next byte is a key by itself, which the decoder must not see.
    pub(crate) fn takes(&self, byte: u8) -> bool
        ensures { result ≡ tells_raw self.now.prefix byte }
    {
        is_raw(self.prefix, byte)
    }

    // The word goes on.
    fn wait(argument: Option<Argument>, prefix: Prefix) -> (Fed, Maps)
        ensures { FedBy result.0 (Half argument (prefix_bytes prefix)) (held_by result.1) }
    {
        (Fed::Pending, Maps { argument, prefix })
    }

    // The word is used up.
    fn run(command: Command, argument: Option<Argument>) -> (Fed, Maps)
        ensures { FedBy result.0 (Bound command (value_of argument)) (held_by result.1) }
    {
        (
            Fed::Run(command, argument.map(|typed| typed.value)),
            Maps::new(),
        )
    }

    // All of ASCII inserts itself after C-q.
    fn quoted(self, byte: u8) -> (Fed, Maps)
        ensures { FedBy result.0 (quoted_read self.argument byte) (held_by result.1) }
    {
        if byte <= ASCII_LIMIT {
            return Maps::run(
                Command::Insert(Insertion::SelfInsert(char::from(byte))),
                self.argument,
            );
        }
        (Fed::Unbound, Maps::new())
    }

    // What a word is that is no part of an argument. A character that inserts itself and a prefix are no rows of the table, so they are
    // taken before the rows are gone through.
    #[tactic(auto, using(crate::proofs::Inserting::inserts_first, crate::proofs::Inserting::prefix_first))]
    fn look_up(self, stroke: Stroke) -> (Fed, Maps)
        ensures { FedBy result.0 (word_reads self.argument self.prefix stroke) (held_by result.1) }
    {
        if let Some(character) = inserted(self.prefix, stroke) {
            return Maps::run(
                Command::Insert(Insertion::SelfInsert(character)),
                self.argument,
            );
        }
        if let Some(prefix) = prefix_with(self.prefix, stroke) {
            return Maps::wait(self.argument, prefix);
        }
        if let Some(command) = find_command(self.prefix, stroke) {
            return Maps::run(command, self.argument);
        }
        (Fed::Unbound, Maps::new())
    }

    // A key without Meta: a digit goes on with an argument.
    fn feed_plain(self, byte: u8) -> (Fed, Maps)
        ensures { FedBy result.0 (plain_reads self.argument self.prefix byte) (held_by result.1) }
    {
        if is_quote(self.prefix) {
            return self.quoted(byte);
        }
        let begins = is_empty(self.prefix);
        if byte == KEYBOARD_QUIT {
            return Maps::run(Command::Set(Setting::KeyboardQuit), self.argument);
        }
        if begins && byte == UNIVERSAL_ARGUMENT {
            return Maps::wait(Some(four_times(self.argument)), Prefix::Empty);
        }
        if is_digit(byte) && (begins && self.argument.is_some()) {
            return Maps::wait(Some(digit_added(byte - b'0', self.argument)), Prefix::Empty);
        }
        if begins && byte == QUOTE {
            return Maps::wait(self.argument, Prefix::Quote);
        }
        self.look_up(Stroke::Plain(byte))
    }

    // A key with Meta: a digit begins an argument, or goes on with one.
    fn feed_meta(self, byte: u8) -> (Fed, Maps)
        ensures { FedBy result.0 (meta_reads self.argument self.prefix byte) (held_by result.1) }
    {
        if is_quote(self.prefix) {
            return self.quoted(byte);
        }
        if byte == KEYBOARD_QUIT {
            return Maps::run(Command::Set(Setting::KeyboardQuit), self.argument);
        }
        if is_digit(byte) && is_empty(self.prefix) {
            return Maps::wait(Some(digit_added(byte - b'0', self.argument)), Prefix::Empty);
        }
        self.look_up(Stroke::Meta(byte))
    }

    // A character past ASCII inserts itself where a word begins, and behind C-q.
    fn feed_wide(self, c: char) -> (Fed, Maps)
        ensures { FedBy result.0 (wide_reads self.argument self.prefix c) (held_by result.1) }
    {
        if is_empty(self.prefix) || is_quote(self.prefix) {
            return Maps::run(Command::Insert(Insertion::SelfInsert(c)), self.argument);
        }
        (Fed::Unbound, Maps::new())
    }

    // What a key comes to, and what is held after it.
    #[tactic(auto, using(crate::proofs::KeyRules::plain_is_read, crate::proofs::KeyRules::meta_is_read, crate::proofs::KeyRules::wide_is_read))]
    fn read_key(self, key: Key) -> (Fed, Maps)
        ensures { FedBy result.0 (key_reads self.argument (prefix_bytes self.prefix) key) (held_by result.1) }
    {
        match key {
            Key::Plain(byte) => self.feed_plain(byte),
            Key::Meta(byte) => self.feed_meta(byte),
            Key::Wide(c) => self.feed_wide(c),
        }
    }

    // A key that the decoder gave. Behind C-q that is one of a sequence, which C-q does not change.
    #[tactic(auto, using(crate::proofs::KeyRules::fed_is_bound))]
    pub(crate) fn feed_decoded(&mut self, key: Key) -> Fed
        ensures read { FedBy result (key_reads self.old.argument (prefix_bytes (unquoted self.old.prefix)) key) (held_by self.new) }
        ensures bound { IsBoundRun result }
    {
        let before = Maps {
            argument: self.argument,
            prefix: without_quote(self.prefix),
        };
        let (fed, held) = before.read_key(key);
        *self = held;
        fed
    }

    /// What a key comes to, after what is held. C-u and digits make an argument, C-g ends every word, and all else goes
    /// by the table. A plain ESC is no key and is unbound, as is a plain byte from 0x80 on. A command is one of the table, or
    /// inserts a character; one past ASCII inserts itself where a word begins, and is unbound after any key but C-q.
    ///
    /// After C-q a key inserts its byte, also C-g and ESC, or its character; a byte from 0x80 on is unbound.
    #[tactic(auto, using(crate::proofs::KeyRules::fed_is_bound))]
    pub fn feed(&mut self, key: Key) -> Fed
        ensures read { FedBy result (key_reads (held_by self.old).argument (held_by self.old).keys key) (held_by self.new) }
        ensures bound { IsBoundRun result }
    {
        let (fed, held) = self.read_key(key);
        *self = held;
        fed
    }
}
