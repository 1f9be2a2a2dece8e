//! Texts with marks: positions that every edit moves with the text around them.
#![tactic(auto)]

ghost use Rattle.std.specs.Prelude.{◌≡◌, ◌≢◌, ℕ, ◌≤◌, Some, None, length, count_by, is_some, slice_set, IsSome, OnErr, IfOk};
ghost use Rattle.mgs_marks.specs.Marks.{mark_in};

mod plain;

use mgs_model::{MarkId, Short};
use mgs_text::Text;
pub use plain::PlainMarked;

/// A text that keeps marks. A mark that is in use stands within the text. `replace` leaves a mark at or before the
/// start of the edit where it is, takes one that stood among the characters that go to that start, and moves one
/// after them with the text.
pub trait Marked: Text {
    /// A new mark at a position. `Short`: memory was refused, and all is as it was.
    fn add_mark(&mut self, p: usize) -> Result<MarkId, Short>
        requires { p ≤ length (Self.text self.old) }
        ensures text { Self.text self.new ≡ Self.text self.old }
        ensures free { IfOk result (λ id. mark_in (Self.marks self.old) id ≡ None) }
        ensures added { IfOk result (λ id. mark_in (Self.marks self.new) id ≡ Some p) }
        ensures others { IfOk result (λ id. (k : ℕ) → k ≢ id →
            mark_in (Self.marks self.new) k ≡ mark_in (Self.marks self.old) k) }
        ensures err { OnErr result (Self.marks self.new ≡ Self.marks self.old) };

    /// Where a mark stands.
    fn pos(&self, id: MarkId) -> usize
        requires { IsSome (mark_in (Self.marks self.now) id) }
        ensures value { mark_in (Self.marks self.now) id ≡ Some result }
        ensures within { result ≤ length (Self.text self.now) };

    /// Puts a mark at a position.
    fn place(&mut self, id: MarkId, p: usize)
        requires used { IsSome (mark_in (Self.marks self.old) id) }
        requires within { p ≤ length (Self.text self.old) }
        ensures text { Self.text self.new ≡ Self.text self.old }
        ensures marks { Self.marks self.new ≡ slice_set (Self.marks self.old) id (Some p) };

    /// Gives a mark up: its slot is free again.
    fn drop_mark(&mut self, id: MarkId)
        requires { IsSome (mark_in (Self.marks self.old) id) }
        ensures text { Self.text self.new ≡ Self.text self.old }
        ensures gone { mark_in (Self.marks self.new) id ≡ None }
        ensures others { (k : ℕ) → k ≢ id →
            mark_in (Self.marks self.new) k ≡ mark_in (Self.marks self.old) k };

    /// How many marks are in use.
    fn mark_count(&self) -> usize
        ensures { result ≡ count_by is_some (Self.marks self.now) };
}
