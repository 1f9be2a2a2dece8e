// A text as a vector of its characters.
ghost use Rattle.std.specs.Prelude.{◌≡◌, ℕ, ◌≤◌, ⊤, [], length, IfOk, OnOk, OnErr};
ghost use Rattle.mgs_model.specs.Text.{edited};

use crate::Text;
use mgs_model::Short;
use std::alloc::Global;
use std::marker::Model;

/// A text as a vector of its characters. An edit moves those that stand after it, and no others.
#[derive(Drop)]
pub struct PlainText {
    chars: Vec<char>,
    alloc: Global,
}

impl Model for PlainText {
    ghost use Rattle.std.specs.Prelude.{ℕ, List};

    ghost Value = { List ℕ };

    ghost view = { λ t. t.chars.items };
}

fn copied(alloc: Global, chars: &[char]) -> Result<Vec<char>, Short>
    ensures { IfOk result (λ v. v.items ≡ chars.now) }
{
    Vec::from_slice(alloc, chars).map_err(|_| Short)
}

// Puts characters in place of those from `a` up to `b`.
fn splice(chars: &mut Vec<char>, a: usize, b: usize, put: &[char]) -> Result<(), Short>
    requires order { a ≤ b }
    requires within { b ≤ length chars.old.items }
    ensures ok { OnOk result (chars.new.items ≡ edited a b put.now chars.old.items) }
    ensures err { OnErr result (chars.new.items ≡ chars.old.items) }
{
    match chars.splice(a..b, put.iter().copied()) {
        Ok(_) => Ok(()),
        Err(_) => Err(Short),
    }
}

impl Text for PlainText {
    ghost text = { λ t. t };

    ghost marks = { λ _. [] };

    ghost together = { λ _. ⊤ };

    fn of(alloc: Global, chars: &[char]) -> Result<Self, Short> {
        let chars = copied(alloc, chars)?;
        Ok(PlainText { chars, alloc })
    }

    fn len(&self) -> usize {
        self.chars.as_slice().len()
    }

    fn at(&self, i: usize) -> char {
        self.chars[i]
    }

    #[tactic(auto, using(crate::proofs::Pieces::all_behind))]
    fn piece(&self, at: usize) -> &[char] {
        &self.chars[at..]
    }

    fn gather(&mut self) {}

    fn whole(&self) -> &[char] {
        &self.chars
    }

    fn copy(&self, a: usize, b: usize) -> Result<Vec<char>, Short> {
        copied(self.alloc, &self.chars[a..b])
    }

    fn replace(&mut self, a: usize, b: usize, put: &[char]) -> Result<(), Short> {
        splice(&mut self.chars, a, b, put)
    }
}
