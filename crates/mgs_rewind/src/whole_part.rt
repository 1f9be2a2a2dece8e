// The detail `OLD -> NEW` of a part that is told whole.
ghost use Rattle.std.specs.Prelude.{◌≡◌, option_copied, option_map, IfOk};
ghost use Rattle.mgs_rewind.specs.Details.{new_text, stripped};

use std::alloc::{AllocError, Global};

/// The text after a prefix that it must begin with.
pub(crate) fn strip<'a>(prefix: &[u8], text: &'a [u8]) -> Option<&'a [u8]>
    ensures { option_copied result ≡ stripped prefix.now text.now }
{
    text.strip_prefix(prefix)
}

// NEW of the detail `OLD -> NEW`, if OLD is this text.
fn new_text<'a>(old: &[u8], detail: &'a [u8]) -> Option<&'a [u8]>
    ensures { option_copied result ≡ new_text old.now detail.now }
{
    match strip(old, detail) {
        Some(rest) => strip(b" -> ", rest),
        None => None,
    }
}

/// NEW of the detail `OLD -> NEW`, if OLD is this text.
pub(crate) fn whole_part(
    alloc: Global,
    old: &[u8],
    detail: &[u8],
) -> Result<Option<Vec<u8>>, AllocError>
    ensures { IfOk result (λ new. option_map (λ v. v.items) new ≡ new_text old.now detail.now) }
{
    match new_text(old, detail) {
        Some(text) => Ok(Some(Vec::from_slice(alloc, text)?)),
        None => Ok(None),
    }
}
