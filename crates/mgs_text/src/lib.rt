//! Texts: lists of characters, of which a part is put in another's place.
#![tactic(auto)]

ghost use Rattle.std.specs.Prelude.{◌≡◌, ℕ, ◌+◌, ◌<◌, ◌≤◌, ◌^◌, ◌++◌, [], List, Option, length, drop, slice_index, slice_range, OnOk, OnErr, IfOk};
ghost use Rattle.mgs_model.specs.Text.{edited, shift_all};
ghost use Rattle.mgs_model.specs.Lines.{line_of, start_of};

mod plain;

use mgs_model::Short;
pub use plain::PlainText;
use std::alloc::Global;

/// A list of characters. A position is the number of characters before it.
pub trait Text {
    ghost text: { Self → List ℕ };

    // slot number to position; a text without marks has none
    ghost marks: { Self → List (Option ℕ) };

    // whether all its characters lie together
    ghost together: { Self → Type 0 };

    /// A text of these characters, without marks, that takes its memory from `alloc`. `Short`: it was refused.
    fn of(alloc: Global, chars: &[char]) -> Result<Self, Short>
        ensures text { IfOk result (λ t. text t ≡ chars.now) }
        ensures marks { IfOk result (λ t. marks t ≡ []) };

    /// The number of characters.
    fn len(&self) -> usize
        ensures value { result ≡ length (text self.now) }
        ensures fits { result < 2 ^ 61 };

    /// The character after a position.
    fn at(&self, i: usize) -> char
        requires { i < length (text self.now) }
        ensures { result ≡ slice_index (text self.now) i };

    /// The characters from a position on that lie together, as far as they do: some at least, where any follow it. A walk
    /// that takes them piece by piece asks the text once for many.
    fn piece(&self, at: usize) -> &[char]
        requires { at ≤ length (text self.now) }
        ensures piece { drop at (text self.now) ≡ result.now ++ drop (at + length result.now) (text self.now) }
        ensures within { at + length result.now ≤ length (text self.now) }
        ensures some { at < length (text self.now) → 0 < length result.now };

    /// Brings all characters together, until the next edit. It takes no memory.
    fn gather(&mut self)
        ensures together { together self.new }
        ensures text { text self.new ≡ text self.old }
        ensures marks { marks self.new ≡ marks self.old };

    /// All characters of a text in which they lie together.
    fn whole(&self) -> &[char]
        requires { together self.now }
        ensures { result.now ≡ text self.now };

    /// The characters from `a` up to `b`. `Short`: memory was refused.
    fn copy(&self, a: usize, b: usize) -> Result<Vec<char>, Short>
        requires order { a ≤ b }
        requires within { b ≤ length (text self.now) }
        ensures { IfOk result (λ v. v.items ≡ slice_range (text self.now) a b) };

    /// Puts characters in place of those from `a` up to `b`, and moves each mark with the text around it.
    /// `Short`: memory was refused, and all is as it was.
    fn replace(&mut self, a: usize, b: usize, put: &[char]) -> Result<(), Short>
        requires order { a ≤ b }
        requires within { b ≤ length (text self.old) }
        ensures text { OnOk result (text self.new ≡ edited a b put.now (text self.old)) }
        ensures marks { OnOk result (marks self.new ≡ shift_all a b (length put.now) (marks self.old)) }
        ensures err_text { OnErr result (text self.new ≡ text self.old) }
        ensures err_marks { OnErr result (marks self.new ≡ marks self.old) };

    /// The number of the line of a position, from 0. This body walks up to there; a text that knows its line feeds has
    /// a faster one.
    fn line_of(&self, p: usize) -> usize
        requires { p ≤ length (text self.now) }
        ensures { result ≡ line_of (text self.now) p }
    {
        let mut line = 0;
        for i in 0..p {
            if self.at(i) == '\n' {
                line += 1;
            }
        }
        line
    }

    /// Where the line of a number starts: the text's end where there is none. This body walks up to there.
    fn start_of(&self, line: usize) -> usize
        ensures value { result ≡ start_of line (text self.now) }
        ensures within { result ≤ length (text self.now) }
    {
        let mut left = line;
        for i in 0..self.len() {
            if left == 0 {
                return i;
            }
            if self.at(i) == '\n' {
                left -= 1;
            }
        }
        self.len()
    }
}
