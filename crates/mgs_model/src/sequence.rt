ghost use Rattle.std.specs.Prelude.{◌≡◌, None};
ghost use Rattle.mgs_model.specs.Sequences.{begun_of, sequence_read};

/// What bytes are that were typed one after another, of which the first is past ASCII.
#[derive(Clone, Copy, PartialEq, Eq)]
pub enum Sequence {
    /// The UTF-8 of a character.
    Whole(char),
    /// Some first bytes of one.
    Begun,
    /// No character begins with them.
    Broken,
}

// So many bytes that end within a character. It has at most four.
fn begun(len: usize) -> Sequence
    ensures { result ≡ begun_of len None }
{
    if len < 4 {
        Sequence::Begun
    } else {
        Sequence::Broken
    }
}

/// What typed bytes are.
pub fn read_sequence(bytes: &[u8]) -> Sequence
    ensures { result ≡ sequence_read bytes.now }
{
    match str::from_utf8(bytes) {
        Ok(text) => match text.chars().next() {
            Some(c) => Sequence::Whole(c),
            None => Sequence::Broken,
        },
        Err(fault) => match fault.error_len() {
            Some(_) => Sequence::Broken,
            None => begun(bytes.len()),
        },
    }
}
