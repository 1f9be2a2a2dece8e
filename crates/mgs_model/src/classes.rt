// Classes of characters.
ghost use Rattle.std.specs.Prelude.{◌≡◌};
ghost use Rattle.mgs_model.specs.Walks.{is_white, is_word};

/// Whether a character belongs to a word: an ASCII letter or digit.
pub fn is_word(c: char) -> bool
    ensures { result ≡ is_word c }
{
    c.is_ascii_alphanumeric()
}

/// Whether a character is white: a space or a TAB.
pub fn is_white(c: char) -> bool
    ensures { result ≡ is_white c }
{
    c == ' ' || c == '\t'
}
