// The name of a new buffer, as it is typed.
ghost use Rattle.std.specs.Prelude.{◌≡◌, ◌≤◌, None, IfSome, is_some, false, length, take};
ghost use Rattle.std.specs.List.{list_all};
ghost use Rattle.mgs_model.specs.Names.{is_name, is_visible};

use mgs_model::{NAME_LIMIT, Name};

/// The bytes of what was typed, and zeros behind them. `None`: a character is not of those that names have.
fn spelled(typed: &[char]) -> Option<[u8; NAME_LIMIT]>
    requires { length typed.now ≤ 32 }
    ensures value { IfSome result (λ bytes. take (length typed.now) bytes ≡ typed.now) }
    ensures none { result ≡ None → list_all is_visible typed.now ≡ false }
{
    let mut bytes = [0; NAME_LIMIT];
    for at in 0..typed.len() {
        if !typed[at].is_ascii_graphic() {
            return None;
        }
        bytes[at] = typed[at] as u8;
    }
    Some(bytes)
}

/// The name that has these bytes, if it is one.
fn name_of(bytes: &[u8]) -> Option<Name>
    ensures form { is_some result ≡ is_name bytes.now }
    ensures value { IfSome result (λ n. n ≡ bytes.now) }
{
    match str::from_utf8(bytes) {
        Ok(text) => Name::read(text),
        // Names are ASCII.
        Err(_) => None,
    }
}

/// The name that is typed so, if it is one.
pub(crate) fn name_typed(typed: &[char]) -> Option<Name>
    ensures form { is_some result ≡ is_name typed.now }
    ensures value { IfSome result (λ n. n ≡ typed.now) }
{
    if typed.len() > NAME_LIMIT {
        return None;
    }
    let bytes = spelled(typed)?;
    name_of(&bytes[..typed.len()])
}
