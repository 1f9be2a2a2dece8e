// The argument that is typed before a command.
ghost use Rattle.std.specs.Prelude.{◌≡◌};
ghost use Rattle.mgs_model.specs.Keys.{digit_added as extended, four_times as multiplied, is_digit as tells_digit};

use mgs_model::{ARGUMENT_LIMIT, Argument};

/// A digit goes on with a number, or is the first of one.
pub(crate) fn digit_added(digit: u8, argument: Option<Argument>) -> Argument
    ensures { result ≡ extended digit argument }
{
    let before = match argument {
        Some(typed) if typed.extends => typed.value,
        _ => 0,
    };
    let value = before
        .saturating_mul(10)
        .saturating_add(u32::from(digit))
        .min(ARGUMENT_LIMIT);
    Argument {
        value,
        extends: true,
    }
}

/// C-u once more: four times as many, or 4 where there was no argument.
pub(crate) fn four_times(argument: Option<Argument>) -> Argument
    ensures { result ≡ multiplied argument }
{
    let value = match argument {
        None => 4,
        Some(argument) => argument.value.saturating_mul(4).min(ARGUMENT_LIMIT),
    };
    Argument {
        value,
        extends: false,
    }
}

/// Whether a byte is a digit.
pub(crate) fn is_digit(byte: u8) -> bool
    ensures { result ≡ tells_digit byte }
{
    b'0' <= byte && byte <= b'9'
}
