// The number of a line, as it is typed.
ghost use Rattle.std.specs.Prelude.{◌≡◌, ◌≤◌, ◌*◌, ◌+◌, ◌-◌, length, true, IsTrue};
ghost use Rattle.std.specs.Char.{is_ascii_digit};
ghost use Rattle.std.specs.List.{list_all};
ghost use Rattle.mgs_model.specs.Plans.{is_number, line_wanted, number_typed};

/// The most digits that are read as a number.
const DIGIT_LIMIT: usize = 7;

/// A number with one digit more.
fn with_digit(number: usize, digit: char) -> usize
    requires digit { IsTrue (is_ascii_digit digit) }
    requires small { number * 10 + (digit - 48) ≤ 9999999 }
    ensures { result ≡ number * 10 + (digit - 48) }
{
    number * 10 + (digit as usize - '0' as usize)
}

fn are_digits(typed: &[char]) -> bool
    ensures { result ≡ list_all is_ascii_digit typed.now }
{
    typed.iter().all(|digit| digit.is_ascii_digit())
}

/// Whether a text is a number: 1 to 7 ASCII digits.
fn is_number(typed: &[char]) -> bool
    ensures { result ≡ is_number typed.now }
{
    !typed.is_empty() && typed.len() <= DIGIT_LIMIT && are_digits(typed)
}

/// The number that digits say.
fn number_of(digits: &[char]) -> usize
    requires few { length digits.now ≤ 7 }
    requires digits { list_all is_ascii_digit digits.now ≡ true }
    ensures { result ≡ number_typed digits.now }
{
    let mut number = 0;
    for i in 0..digits.len() {
        number = with_digit(number, digits[i]);
    }
    number
}

/// The number of a line: the argument, or what was typed, where that is 1 to 7 ASCII digits.
pub fn line_wanted(argument: Option<usize>, typed: &[char]) -> Option<usize>
    ensures { result ≡ line_wanted argument typed.now }
{
    match argument {
        Some(line) => Some(line),
        None => {
            if is_number(typed) {
                Some(number_of(typed))
            } else {
                None
            }
        }
    }
}
