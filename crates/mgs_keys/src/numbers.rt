// Numbers written in digits.
ghost use Rattle.std.specs.Prelude.{◌≡◌, ◌-◌, ◌≤◌, IsTrue};
ghost use Rattle.std.specs.Char.{is_ascii_digit};
ghost use Rattle.mgs_keys.specs.Numbers.{is_first_digit, number_of};

fn is_first_digit(byte: u8) -> bool
    ensures { result ≡ is_first_digit byte }
{
    b'1' <= byte && byte <= b'9'
}

fn value_of(digit: u8) -> usize
    requires { IsTrue (is_ascii_digit digit) }
    ensures value { result ≡ digit - 48 }
    ensures limit { result ≤ 9 }
{
    usize::from(digit - b'0')
}

/// The number that a word of 1 to 3 decimal digits says, 0 to 999. None where the word is no such digits, or has a zero
/// before others.
#[tactic(auto, unfolding(crate::specs::Numbers::number_of))]
pub fn read_number(word: &[u8]) -> Option<usize>
    ensures { result ≡ number_of word.now }
{
    match word {
        [only] if only.is_ascii_digit() => Some(value_of(*only)),
        [first, last] if is_first_digit(*first) && last.is_ascii_digit() => {
            Some(value_of(*first) * 10 + value_of(*last))
        }
        [first, second, last]
            if is_first_digit(*first) && second.is_ascii_digit() && last.is_ascii_digit() => {
            Some(value_of(*first) * 100 + value_of(*second) * 10 + value_of(*last))
        }
        _ => None,
    }
}
