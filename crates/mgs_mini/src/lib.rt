//! What is typed to be used later: the input of a prompt, byte by byte, and the bytes of a macro. Both have fixed room and take no memory.
#![tactic(auto)]

ghost use Rattle.std.specs.Prelude.{◌≡◌, ◌≤◌, ℕ, List, [], length, IfSome, false};
ghost use Rattle.std.specs.Option.{option_map};
ghost use Rattle.mgs_model.specs.Keys.{is_graphic};
ghost use Rattle.mgs_model.specs.Commands.{names_buffers, names_commands};
ghost use Rattle.mgs_model.specs.Searching.{lengthened};
ghost use Rattle.mgs_model.specs.Sequences.{sequence_read};
ghost use Rattle.mgs_model.specs.declared.session.Question.{Question};
ghost use Rattle.mgs_model.specs.Turns.{prompt_turn, prompt_keys, prompt_key};
ghost use Rattle.mgs_model.specs.declared.session.Question.TheVariants.{ReplaceWith};
ghost use Rattle.mgs_mini.specs.Typing.{IsCompletion, IsFirst, IsPromptTurn, IsTurn, IsWaiting, is_within, keys_of, typed_state, typed_turn, last_dropped};
ghost use Rattle.mgs_mini.specs.declared.Waiting.TheVariants.{NoKey};
ghost use Rattle.mgs_mini.specs.declared.Step.TheVariants.{Answered, Unbound};

mod common_start;
mod macro_bytes;

use arrayvec::ArrayVec;
pub use common_start::{completion, narrowed};
pub use macro_bytes::Recorder;
use mgs_model::{Question, Sequence, TYPED_LIMIT, Wanted, read_sequence};
use std::marker::Model;

const ESCAPE: u8 = 0x1B;

const QUIT: u8 = 0x07;

const DELETE: u8 = 0x7F;

/// The keys that are half read in a prompt.
#[derive(Clone, Copy, PartialEq, Eq)]
pub enum Waiting {
    /// Nothing: the next byte begins a key.
    NoKey,
    /// ESC (0x1B) came.
    Escape,
    /// M-[ came.
    Arrow,
    /// M-[ and ESC (0x1B) came.
    ArrowEscape,
    /// The first byte of a character past ASCII came.
    One(u8),
    /// Its first two bytes came.
    Two(u8, u8),
    /// Its first three bytes came.
    Three(u8, u8, u8),
}

/// What a byte comes to in a prompt.
#[derive(Clone, Copy, PartialEq, Eq)]
pub enum Step {
    /// More is typed.
    GoesOn,
    /// The input is the answer.
    Answered,
    /// The prompt is given up.
    Quit,
    /// The input is to be completed.
    Completes,
    /// The bytes are no character and no key.
    Unbound,
}

/// A question and what was typed as its answer so far, at most `TYPED_LIMIT` characters (120). The second of two questions has
/// the answer to the first one beside it.
#[derive(Drop)]
pub struct Prompt {
    question: Question,
    first: ArrayVec<char, TYPED_LIMIT>,
    input: ArrayVec<char, TYPED_LIMIT>,
    waiting: Waiting,
}

impl Model for Prompt {
    ghost use Rattle.mgs_mini.specs.Typing.{PromptInput};

    ghost Value = { PromptInput };

    ghost view = { λ p. record { question = p.question; first = p.first.items; input = p.input.items; waiting = p.waiting } };

    ghost use Rattle.mgs_mini.specs.Typing.{IsFirst, IsWaiting};

    ghost invariant = { λ p. IsFirst p.question p.first.items × IsWaiting p.waiting };
}

// What waits after a byte of ASCII that is typed behind keys.
fn waiting_after(waiting: Waiting, byte: u8) -> Waiting
    requires { is_within waiting ≡ false }
    ensures keys { keys_of result ≡ prompt_keys (keys_of waiting) byte }
    ensures waits { IsWaiting result }
{
    match waiting {
        Waiting::NoKey if byte == ESCAPE => Waiting::Escape,
        Waiting::NoKey => Waiting::NoKey,
        Waiting::Escape if byte == b'[' => Waiting::Arrow,
        Waiting::Escape => Waiting::NoKey,
        Waiting::Arrow if byte == ESCAPE => Waiting::ArrowEscape,
        Waiting::Arrow => Waiting::NoKey,
        Waiting::ArrowEscape => Waiting::NoKey,
        Waiting::One(_) | Waiting::Two(_, _) | Waiting::Three(_, _, _) => Waiting::NoKey,
    }
}

fn is_graphic(byte: u8) -> bool
    ensures { result ≡ is_graphic byte }
{
    32 <= byte && byte <= 126
}

fn drop_last(input: &mut ArrayVec<char, TYPED_LIMIT>)
    ensures { input.new.items ≡ last_dropped input.old.items }
{
    let _last = input.pop();
}

// A character behind the input, which has at most `TYPED_LIMIT`.
fn lengthen(input: &mut ArrayVec<char, TYPED_LIMIT>, c: char)
    ensures { input.new.items ≡ lengthened input.old.items c }
{
    if input.len() < TYPED_LIMIT {
        input.push(c);
    }
}

fn put_input(input: &mut ArrayVec<char, TYPED_LIMIT>, text: &[char])
    requires { length text.now ≤ TYPED_LIMIT }
    ensures { input.new.items ≡ text.now }
{
    input.clear();
    let _extended = input.try_extend_from_slice(text);
}

// Each byte of a name is a character.
fn put_name(input: &mut ArrayVec<char, TYPED_LIMIT>, name: &[u8])
    requires { length name.now ≤ TYPED_LIMIT }
    ensures { input.new.items ≡ name.now }
{
    input.clear();
    for byte in name {
        input.push(char::from(*byte));
    }
}

// A key by itself.
fn feed_key(input: &mut ArrayVec<char, TYPED_LIMIT>, byte: u8) -> (Step, Waiting)
    ensures answered { result.0 ≡ Answered → (input.new.items ≡ input.old.items) × (result.1 ≡ NoKey) }
    ensures unbound { result.0 ≡ Unbound → result.1 ≡ NoKey }
    ensures waits { IsWaiting result.1 }
    ensures turn { IsTurn (λ v c state. prompt_key v c (typed_state state input.old.items NoKey) byte) input.new.items result.0 result.1 }
{
    if byte == b'\r' {
        (Step::Answered, Waiting::NoKey)
    } else if byte == DELETE {
        drop_last(input);
        (Step::GoesOn, Waiting::NoKey)
    } else if byte == b'\t' {
        (Step::Completes, Waiting::NoKey)
    } else if is_graphic(byte) && input.len() < TYPED_LIMIT {
        input.push(char::from(byte));
        (Step::GoesOn, Waiting::NoKey)
    } else {
        (Step::GoesOn, waiting_after(Waiting::NoKey, byte))
    }
}

// The bytes of a character so far, which wait so where more of them are to come.
fn feed_character(
    input: &mut ArrayVec<char, TYPED_LIMIT>,
    bytes: &[u8],
    waiting: Waiting,
) -> (Step, Waiting)
    requires { IsWaiting waiting }
    ensures answered { result.0 ≡ Answered → ⊥ }
    ensures unbound { result.0 ≡ Unbound → result.1 ≡ NoKey }
    ensures waits { IsWaiting result.1 }
    ensures turn { IsTurn (λ v c state. typed_turn state input.old.items waiting (sequence_read bytes.now)) input.new.items result.0 result.1 }
{
    match read_sequence(bytes) {
        Sequence::Whole(c) => {
            lengthen(input, c);
            (Step::GoesOn, Waiting::NoKey)
        }
        Sequence::Begun => (Step::GoesOn, waiting),
        Sequence::Broken => (Step::Unbound, Waiting::NoKey),
    }
}

// A byte behind ESC or M-[, where no character begins.
fn feed_word(waiting: Waiting, byte: u8) -> (Step, Waiting)
    requires within { is_within waiting ≡ false }
    requires some { length (keys_of waiting) ≡ 0 → ⊥ }
    requires other { byte ≡ 7 → ⊥ }
    ensures answered { result.0 ≡ Answered → ⊥ }
    ensures unbound { result.0 ≡ Unbound → result.1 ≡ NoKey }
    ensures waits { IsWaiting result.1 }
    ensures turn { (input : List ℕ) → IsTurn (λ v c state. prompt_turn v c (typed_state state input waiting) byte) input result.0 result.1 }
{
    if byte < 0x80 {
        (Step::GoesOn, waiting_after(waiting, byte))
    } else {
        (Step::Unbound, Waiting::NoKey)
    }
}

// A byte by itself.
fn feed_first(input: &mut ArrayVec<char, TYPED_LIMIT>, byte: u8) -> (Step, Waiting)
    requires { byte ≡ 7 → ⊥ }
    ensures answered { result.0 ≡ Answered → (input.new.items ≡ input.old.items) × (result.1 ≡ NoKey) }
    ensures unbound { result.0 ≡ Unbound → result.1 ≡ NoKey }
    ensures waits { IsWaiting result.1 }
    ensures turn { IsTurn (λ v c state. prompt_turn v c (typed_state state input.old.items NoKey) byte) input.new.items result.0 result.1 }
{
    if byte < 0x80 {
        feed_key(input, byte)
    } else {
        feed_character(input, &[byte], Waiting::One(byte))
    }
}

// A byte behind keys that may be half read.
fn feed_byte(input: &mut ArrayVec<char, TYPED_LIMIT>, waiting: Waiting, byte: u8) -> (Step, Waiting)
    requires { IsWaiting waiting }
    ensures answered { result.0 ≡ Answered → (input.new.items ≡ input.old.items) × (result.1 ≡ waiting) × (waiting ≡ NoKey) }
    ensures unbound { result.0 ≡ Unbound → result.1 ≡ NoKey }
    ensures waits { IsWaiting result.1 }
    ensures turn { IsTurn (λ v c state. prompt_turn v c (typed_state state input.old.items waiting) byte) input.new.items result.0 result.1 }
{
    if byte == QUIT {
        return (Step::Quit, Waiting::NoKey);
    }
    match waiting {
        Waiting::NoKey => feed_first(input, byte),
        Waiting::Escape => feed_word(Waiting::Escape, byte),
        Waiting::Arrow => feed_word(Waiting::Arrow, byte),
        Waiting::ArrowEscape => feed_word(Waiting::ArrowEscape, byte),
        Waiting::One(a) => feed_character(input, &[a, byte], Waiting::Two(a, byte)),
        Waiting::Two(a, b) => feed_character(input, &[a, b, byte], Waiting::Three(a, b, byte)),
        Waiting::Three(a, b, c) => feed_character(input, &[a, b, c, byte], Waiting::NoKey),
    }
}

impl Prompt {
    /// A question with nothing typed.
    #[tactic(auto, using(crate::proofs::Questions::none_first))]
    pub fn new(question: Question) -> Prompt
        ensures { result ≡ record { question = question; first = []; input = []; waiting = NoKey } }
    {
        Prompt {
            question,
            first: ArrayVec::new(),
            input: ArrayVec::new(),
            waiting: Waiting::NoKey,
        }
    }

    /// With what to replace, where it was answered so what is replaced: nothing is typed.
    pub fn second(first: &[char]) -> Prompt
        requires { length first.now ≤ 120 }
        ensures { result ≡ record { question = ReplaceWith; first = first.now; input = []; waiting = NoKey } }
    {
        let mut prompt = Prompt::new(Question::ReplaceWith);
        put_input(&mut prompt.first, first);
        prompt
    }

    /// The question.
    pub fn question(&self) -> Question
        ensures { result ≡ self.now.question }
    {
        self.question
    }

    /// Whether the answer names a buffer: a TAB then completes it.
    pub fn names_buffer(&self) -> bool
        ensures { result ≡ names_buffers self.now.question }
    {
        self.question.asking().wanted == Wanted::BufferName
    }

    /// Whether the answer names a command: a TAB then completes it.
    pub fn names_command(&self) -> bool
        ensures { result ≡ names_commands self.now.question }
    {
        self.question.asking().wanted == Wanted::CommandName
    }

    /// What a byte comes to. The input and the keys that are half read are then as the byte left them; an answer, a prompt
    /// that is given up, an input to complete and bytes that are no character leave the input as it was. Bytes from 0x80 on are
    /// the UTF-8 of a character, which is put behind the input at its last byte.
    pub fn feed(&mut self, byte: u8) -> Step
        ensures question { self.new.question ≡ self.old.question }
        ensures first { self.new.first ≡ self.old.first }
        ensures answered { result ≡ Answered → (self.new ≡ self.old) × (self.old.waiting ≡ NoKey) }
        ensures unbound { result ≡ Unbound → self.new.waiting ≡ NoKey }
        ensures turn { IsPromptTurn self.old byte self.new result }
    {
        let (step, waiting) = feed_byte(&mut self.input, self.waiting, byte);
        self.waiting = waiting;
        step
    }

    /// What was typed becomes what it is completed to, at most `TYPED_LIMIT` characters (120). Where that is `None`, it stays as
    /// it was, and the answer is false: no name begins with it.
    pub fn complete(&mut self, completion: Option<&[u8]>) -> bool
        requires { IfSome completion (λ text. length text.now ≤ 120) }
        ensures question { self.new.question ≡ self.old.question }
        ensures first { self.new.first ≡ self.old.first }
        ensures input { IsCompletion self.old (option_map (λ text. text.now) completion.entry) self.new result }
    {
        let Some(text) = completion else {
            return false;
        };
        put_name(&mut self.input, text);
        true
    }

    /// The answer to the first of two questions, at most `TYPED_LIMIT` characters (120). Beside any other question it is
    /// empty.
    pub fn first(&self) -> &[char]
        ensures value { result.now ≡ self.now.first }
        ensures within { length result.now ≤ 120 }
        ensures second { IsFirst self.now.question self.now.first }
    {
        self.first.as_slice()
    }

    /// What was typed, at most `TYPED_LIMIT` characters (120).
    pub fn input(&self) -> &[char]
        ensures value { result.now ≡ self.now.input }
        ensures within { length result.now ≤ 120 }
    {
        self.input.as_slice()
    }
}
