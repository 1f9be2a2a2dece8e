// How an entry is printed.
ghost use Rattle.std.specs.Prelude.{◌≡◌, ℕ, ◌+◌, ◌<◌, ◌≤◌, List, [], ◌∷◌, ◌++◌, map, Ok, All};
ghost use Rattle.arrayvec.specs.ArrayString.{array_string_len};
ghost use Rattle.mgs_model.specs.Names.{IsName};
ghost use Rattle.mgs_model.specs.Picture.{IsPrintable};
ghost use Rattle.mgs_model.specs.Rights.{letter_of, rights_in};
ghost use Rattle.mgs_model.specs.Draw.{type_text, who_text, entry_text};
ghost use Rattle.mgs_acl.specs.Spelling.{entry_in};
ghost use Rattle.mgs_acl.specs.Written.{IsWritable, HasName};

use crate::entry_reader::letter_of;
use arrayvec::ArrayString;
use mgs_model::{Entry, EntryType, Mask, Name, Right, Who};

fn type_text(entry_type: EntryType) -> &'static str
    ensures { result.now ≡ type_text entry_type }
{
    match entry_type {
        EntryType::Allow => "ALLOW",
        EntryType::Deny => "DENY",
    }
}

fn push_name(text: &mut ArrayString<64>, name: &Name)
    requires { array_string_len text.old ≤ 32 }
    ensures value { text.new.bytes ≡ text.old.bytes ++ name.now }
    ensures form { IsName name.now }
    ensures room { array_string_len text.new ≤ array_string_len text.old + 32 }
{
    for byte in name.as_bytes() {
        text.push(*byte as char);
    }
}

fn push_who(text: &mut ArrayString<64>, who: &Who)
    requires { array_string_len text.old ≤ 6 }
    ensures value { text.new.bytes ≡ text.old.bytes ++ who_text who.now }
    ensures form { HasName who.now }
    ensures room { array_string_len text.new ≤ array_string_len text.old + 38 }
{
    match who {
        Who::Owner => text.push_str("OWNER@"),
        Who::OwningGroup => text.push_str("GROUP@"),
        Who::Everyone => text.push_str("EVERYONE@"),
        Who::User(name) => push_name(text, name),
        Who::Group(name) => {
            text.push_str("group:");
            push_name(text, name);
        }
    }
}

fn push_letter(text: &mut ArrayString<64>, right: Right)
    requires { array_string_len text.old < 64 }
    ensures value { text.new.bytes ≡ text.old.bytes ++ letter_of right ∷ [] }
    ensures room { array_string_len text.new ≡ array_string_len text.old + 1 }
{
    text.push(letter_of(right));
}

fn push_letters(text: &mut ArrayString<64>, mask: Mask)
    requires { array_string_len text.old ≤ 56 }
    ensures { text.new.bytes ≡ text.old.bytes ++ map letter_of (rights_in mask) }
{
    for right in Right::ALL {
        if mask.has(right) {
            push_letter(text, right);
        }
    }
}

fn printed(entry: &Entry) -> ArrayString<64>
    ensures text { result.bytes ≡ entry_text entry.now }
    ensures form { HasName entry.now.who }
{
    let mut text = ArrayString::new();
    text.push_str(type_text(entry.entry_type));
    text.push(' ');
    push_who(&mut text, &entry.who);
    text.push(' ');
    push_letters(&mut text, entry.mask);
    text
}

/// The printed form of an entry: `TYPE WHO LETTERS` with single spaces, each letter once and in the order of the rights. It takes no memory.
///
/// `read_entry` reads an entry that can be written back from it, and so what it made of any text.
pub fn print_entry(entry: &Entry) -> ArrayString<64>
    ensures text { result.bytes ≡ entry_text entry.now }
    ensures printable { All IsPrintable result.bytes }
    ensures read_back { IsWritable entry.now → entry_in result.bytes ≡ Ok entry.now }
    ensures canonical { (text : List ℕ) → entry_in text ≡ Ok entry.now → entry_in result.bytes ≡ Ok entry.now }
{
    printed(entry)
}
