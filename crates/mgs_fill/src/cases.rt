// Letters in another case.
ghost use Rattle.std.specs.Prelude.{◌≡◌, ◌≤◌, ◌&&◌, length, nat_le, nat_lt, IfOk};
ghost use Rattle.mgs_model.specs.Cases.{begins_word, capitalized, lowercased, uppercased};
ghost use Rattle.mgs_model.specs.Plans.{cases_region, cases_words, count_of};
ghost use Rattle.mgs_fill.specs.Rewriting.{cased, IsWithin, IsRewrite, RewriteWithin};

use crate::rewrite::{Case, Given, Point, Rewrite, Written};
use mgs_lines::forward_word;
use mgs_model::{Message, Notice};
use mgs_text::Text;

/// How often a command acts: its argument, or once.
fn times(argument: Option<usize>) -> usize
    ensures { result ≡ count_of argument }
{
    match argument {
        Some(times) => times,
        None => 1,
    }
}

/// Whether a command that is to go on stands at the end of a text of `size` characters.
fn is_at_end(given: &Given, size: usize) -> bool
    ensures { result ≡ (nat_le size given.now.place && nat_lt 0 (count_of given.now.argument)) }
{
    given.place >= size && times(given.argument) > 0
}

/// The characters from the place on, over as many words as the argument says or one, come in another case, and the point goes behind
/// them. `EndOfBuffer`: there are none.
pub fn case_words<T: Text>(text: &T, given: &Given, case: Case) -> Result<Rewrite, Message>
    requires { given.now.place ≤ length (T.text text.now) }
    ensures plan { IsRewrite (cases_words (cased case)) given.now (T.text text.now) result }
    ensures within { IfOk result (RewriteWithin (T.text text.now)) }
{
    if is_at_end(given, text.len()) {
        return Err(Message::Says(Notice::EndOfBuffer));
    }
    let from = given.place;
    let to = forward_word(text, from, times(given.argument));
    Ok(Rewrite {
        from,
        to,
        written: Written::Cased(case),
        point: Point::Behind,
    })
}

/// The characters between the place and the mark come in another case, and the point is at the place. `NoMark`: there is none.
pub fn case_region<T: Text>(text: &T, given: &Given, case: Case) -> Result<Rewrite, Message>
    requires place { given.now.place ≤ length (T.text text.now) }
    requires mark { IsWithin (length (T.text text.now)) given.now.mark }
    ensures plan { IsRewrite (cases_region (cased case)) given.now (T.text text.now) result }
    ensures within { IfOk result (RewriteWithin (T.text text.now)) }
{
    match given.mark {
        None => Err(Message::Says(Notice::NoMark)),
        Some(mark) => {
            let from = mark.min(given.place);
            let to = mark.max(given.place);
            Ok(Rewrite {
                from,
                to,
                written: Written::Cased(case),
                point: Point::To(given.place),
            })
        }
    }
}

fn uppercase(chars: &mut [char])
    ensures { chars.new ≡ uppercased chars.old }
{
    for c in chars.iter_mut() {
        *c = c.to_ascii_uppercase();
    }
}

fn lowercase(chars: &mut [char])
    ensures { chars.new ≡ lowercased chars.old }
{
    for c in chars.iter_mut() {
        *c = c.to_ascii_lowercase();
    }
}

/// Whether the next letter is the first of its word, behind a character for which it would have been so or not.
fn begins_word(begins: bool, c: char) -> bool
    ensures { result ≡ begins_word begins c }
{
    !c.is_ascii_alphabetic() && (begins || !c.is_ascii_alphanumeric())
}

fn capitalize(chars: &mut [char])
    ensures { chars.new ≡ capitalized chars.old }
{
    let mut begins = true;
    for c in chars.iter_mut() {
        let cased = if begins {
            c.to_ascii_uppercase()
        } else {
            c.to_ascii_lowercase()
        };
        begins = begins_word(begins, *c);
        *c = cased;
    }
}

/// Writes characters over in a case. Only ASCII letters have one; a stretch that begins inside a word begins one there.
pub fn change_case(chars: &mut [char], case: Case)
    ensures { chars.new ≡ cased case chars.old }
{
    match case {
        Case::Upper => uppercase(chars),
        Case::Lower => lowercase(chars),
        Case::Capitalized => capitalize(chars),
    }
}
