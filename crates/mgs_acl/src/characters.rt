// What the text of an entry is made of.
ghost use Rattle.std.specs.Prelude.{◌≡◌, map};
ghost use Rattle.std.specs.Str.{bytes_eq};

use mgs_model::is_typed;

/// What the text of an entry is made of: the bytes of a `str`, or characters that were typed. An entry has neither past ASCII, so both are
/// read alike.
pub(crate) trait Character: Copy {
    ghost use Rattle.std.specs.Prelude.{ℕ};

    // Its number.
    ghost number: { Self → ℕ };

    /// The character of that number. A byte past ASCII is then some character past ASCII.
    fn as_char(self) -> char
        ensures { result ≡ number self };

    /// Whether a word is this one.
    fn is_word(word: &[Self], name: &[u8]) -> bool
        ensures { result ≡ bytes_eq (map number word.now) name.now };
}

impl Character for u8 {
    ghost number = { λ c. c };

    fn as_char(self) -> char {
        char::from(self)
    }

    fn is_word(word: &[u8], name: &[u8]) -> bool {
        word == name
    }
}

impl Character for char {
    ghost number = { λ c. c };

    fn as_char(self) -> char {
        self
    }

    fn is_word(word: &[char], name: &[u8]) -> bool {
        is_typed(word, name)
    }
}
