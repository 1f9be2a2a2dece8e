// A buffer's name, from what was typed.
ghost use Rattle.std.specs.Prelude.{◌≡◌, IfSome, is_some};
ghost use Rattle.mgs_model.specs.Names.{IsName, same_name};
ghost use Rattle.mgs_buffers.specs.Contents.{marked_all};
ghost use Rattle.mgs_buffers.specs.MarkedBuffer.{has_buffer};

use crate::buffer::Buffer;
use indexmap::IndexMap;
use mgs_marks::Marked;
use mgs_model::{Name, is_typed};

fn is_named(name: &Name, typed: &[char]) -> bool
    ensures value { result ≡ same_name typed.now name.now }
    ensures form { IsName name.now }
{
    is_typed(typed, name.as_bytes())
}

// The name that was typed, where a buffer has it. What is no name is the name of none.
pub(crate) fn name_typed<T: Marked + Drop>(
    all: &IndexMap<Name, Buffer<T>>,
    typed: &[char],
) -> Option<Name>
    ensures value { IfSome result (λ n. n ≡ typed.now) }
    ensures form { IfSome result (λ n. IsName n) }
    ensures there { is_some result ≡ has_buffer typed.now (marked_all T.text T.marks all.now.entries) }
{
    for (name, _) in all.iter() {
        if is_named(name, typed) {
            return Some(*name);
        }
    }
    None
}
