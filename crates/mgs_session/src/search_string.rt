// What a session searches for where nothing is typed.
ghost use Rattle.std.specs.Prelude.{◌≡◌, ◌≤◌, [], length};

use arrayvec::ArrayVec;
use std::marker::Model;

/// What a session searched for last: at most 120 characters, in fixed room. It takes no memory.
#[derive(Drop)]
pub struct SearchString {
    chars: ArrayVec<char, 120>,
}

impl Model for SearchString {
    ghost use Rattle.std.specs.Prelude.{ℕ, List};

    ghost Value = { List ℕ };

    ghost view = { λ s. s.chars.items };
}

impl SearchString {
    /// Nothing.
    pub fn new() -> SearchString
        ensures { result ≡ [] }
    {
        SearchString {
            chars: ArrayVec::new(),
        }
    }

    /// These characters.
    pub fn of(pattern: &[char]) -> SearchString
        requires { length pattern.now ≤ 120 }
        ensures { result ≡ pattern.now }
    {
        let mut chars = ArrayVec::new();
        let _fits = chars.try_extend_from_slice(pattern);
        SearchString { chars }
    }

    /// The characters.
    pub fn as_slice(&self) -> &[char]
        ensures value { result.now ≡ self.now }
        ensures within { length result.now ≤ 120 }
    {
        self.chars.as_slice()
    }
}
