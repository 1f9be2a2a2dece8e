//! Keys, as a terminal sends them and as they are written as text, and numbers that are written beside them.
#![tactic(auto)]

mod decoder;
mod numbers;
mod token_texts;
mod tokens;
mod words;

pub use decoder::{Decoder, Key};
pub use numbers::read_number;
use thiserror::Error;
pub use token_texts::{Spelling, Tokens, cut_word, quoted, read_tokens};
pub use tokens::read_keys;
pub use words::{cut_at, utf8};

/// Why a text spells nothing.
#[derive(Clone, Copy, Debug, PartialEq, Eq, Error)]
pub enum KeysFault {
    /// Some word of it is no token.
    #[error("not a key")]
    BadToken,
    /// Out of memory.
    #[error("no memory")]
    Short,
}
