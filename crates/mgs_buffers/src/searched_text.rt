// A text with marks, and the search in it that failed last: what is known to fail is not walked again.
ghost use Rattle.std.specs.Prelude.{◌≡◌, ◌≢◌, ℕ, ◌≤◌, [], List, Some, None, length, slice_set, true};
ghost use Rattle.std.specs.Prelude.{IsSome, IfOk, IfSome, OnOk, OnErr};
ghost use Rattle.mgs_model.specs.Searching.{is_looking, places_after, sought_after};
ghost use Rattle.mgs_model.specs.Text.{edited, shift_all};
ghost use Rattle.mgs_model.specs.declared.search.Direction.{Direction};
ghost use Rattle.mgs_marks.specs.Marks.{mark_in};
ghost use Rattle.mgs_buffers.specs.Searched.{Fails, HasFailed, IsPast, IsStepPlanned, LooksFrom, places_failed};

use arrayvec::ArrayVec;
use mgs_marks::Marked;
use mgs_model::{Direction, MarkId, SearchPlaces, SearchStep, Short};
use mgs_search::IncrementalSearch;
use mgs_text::Text;
use std::alloc::Global;
use std::marker::Model;

/// A search that failed: in its direction the pattern stands nowhere from a place on, which counts.
#[derive(Drop)]
pub(crate) struct FailedSearch {
    direction: Direction,
    pattern: ArrayVec<char, 120>,
    from: usize,
}

fn failed_search(direction: Direction, pattern: &[char], from: usize) -> FailedSearch
    requires { length pattern.now ≤ 120 }
    ensures direction { result.direction ≡ direction }
    ensures pattern { result.pattern.items ≡ pattern.now }
    ensures from { result.from ≡ from }
{
    let mut kept = ArrayVec::new();
    let _fits = kept.try_extend_from_slice(pattern);
    FailedSearch {
        direction,
        pattern: kept,
        from,
    }
}

// Whether what was looked for in vain is what a pattern begins with.
#[tactic(auto, using(crate::proofs::Failures::prefix_fails))]
fn is_begun(pattern: &[char], known: &[char]) -> bool
    ensures { (d : Direction) (text : List ℕ) (p : ℕ) → result ≡ true → Fails d known.now text p → Fails d pattern.now text p }
{
    pattern.starts_with(known)
}

// Whether a search goes the way of one that failed, and begins at none of the places before it.
#[tactic(auto, using(mgs_search::proofs::Failures::fails_ahead, mgs_search::proofs::Failures::fails_behind))]
fn is_farther(direction: Direction, from: usize, known: Direction, known_from: usize) -> bool
    ensures { (chars text : List ℕ) → result ≡ true → Fails known chars text known_from → Fails direction chars text from }
{
    match (known, direction) {
        (Direction::Forward, Direction::Forward) if known_from <= from => true,
        (Direction::Backward, Direction::Backward) if from <= known_from => true,
        _ => false,
    }
}

// Whether it is known that a search fails.
fn is_known(
    failed: &Option<FailedSearch>,
    direction: Direction,
    pattern: &[char],
    from: usize,
) -> bool
    ensures { (text : List ℕ) → result ≡ true → HasFailed text failed.now → Fails direction pattern.now text from }
{
    match failed {
        None => false,
        Some(failed) => {
            if !is_begun(pattern, failed.pattern.as_slice()) {
                return false;
            }
            is_farther(direction, from, failed.direction, failed.from)
        }
    }
}

// The place that counts first where a place does not count. `None`: nothing stands past it.
fn next_place(direction: Direction, p: usize, size: usize) -> Option<usize>
    ensures { IfSome result (IsPast direction p size) }
{
    match direction {
        Direction::Forward if p < size => Some(p + 1),
        Direction::Backward if p > 0 => Some(p - 1),
        _ => None,
    }
}

// Where a step of a search begins to look. `None`: it looks nowhere.
fn first_place(
    step: SearchStep,
    search: &IncrementalSearch,
    places: SearchPlaces,
    size: usize,
) -> Option<usize>
    ensures value { IfSome result (λ from. (text : List ℕ) → size ≡ length text → LooksFrom step search.now text places from) }
    ensures looks { IfSome result (λ from. is_looking step ≡ true) }
{
    match step {
        SearchStep::FromAnchor => Some(places.anchor),
        SearchStep::PastAnchor => next_place(search.direction(), places.anchor, size),
        SearchStep::FromOrigin => Some(places.origin),
        SearchStep::ToOrigin => None,
        SearchStep::Stays => None,
        SearchStep::Ends => None,
        SearchStep::Quits => None,
        SearchStep::Leaves => None,
    }
}

// The search is failing. Past the edge of its text it finds nothing at once, whatever it looks for.
#[tactic(auto, using(mgs_search::proofs::Failures::fails_at_end))]
fn fail<T: Text>(text: &T, search: &mut IncrementalSearch)
    ensures { search.new ≡ record search.old { failing = true } }
{
    let edge = match search.direction() {
        Direction::Forward => text.len(),
        Direction::Backward => 0,
    };
    let places = SearchPlaces {
        origin: 0,
        anchor: edge,
        point: 0,
    };
    let _places = search.look(text, SearchStep::PastAnchor, places);
}

// The places after a step that found nothing.
fn places_failed(step: SearchStep, places: SearchPlaces) -> SearchPlaces
    ensures { result ≡ places_failed step places }
{
    match step {
        SearchStep::FromOrigin => SearchPlaces {
            origin: places.origin,
            anchor: places.origin,
            point: places.point,
        },
        _ => places,
    }
}

// A step that looks from a place on, where it is not known that it fails; that it failed is remembered then.
fn look_from<T: Text>(
    text: &T,
    failed: &mut Option<FailedSearch>,
    search: &mut IncrementalSearch,
    step: SearchStep,
    places: SearchPlaces,
    from: usize,
) -> SearchPlaces
    requires known { HasFailed (T.text text.now) failed.old }
    requires looks { is_looking step ≡ true }
    requires from { LooksFrom step search.old (T.text text.now) places from }
    requires origin { places.origin ≤ length (T.text text.now) }
    requires anchor { places.anchor ≤ length (T.text text.now) }
    ensures known { HasFailed (T.text text.now) failed.new }
    ensures sought { search.new ≡ sought_after step search.old (T.text text.now) places }
    ensures places { result ≡ places_after step search.old (T.text text.now) places }
    ensures anchor { result.anchor ≤ length (T.text text.now) }
    ensures point { places.point ≤ length (T.text text.now) → result.point ≤ length (T.text text.now) }
{
    if is_known(failed, search.direction(), search.pattern(), from) {
        fail(text, search);
        return places_failed(step, places);
    }
    let after = search.look(text, step, places);
    if search.is_failing() {
        *failed = Some(failed_search(search.direction(), search.pattern(), from));
    }
    after
}

/// A text with marks, and what is known not to stand in it: the search that failed last, until an edit.
#[derive(Drop)]
pub(crate) struct SearchedText<T: Marked + Drop> {
    text: T,
    failed: Option<FailedSearch>,
}

impl<T: Marked + Drop> Model for SearchedText<T> {
    ghost use Rattle.mgs_buffers.specs.Searched.{HasFailed};

    ghost Value = { T };

    ghost coded = { T.code };

    ghost view = { λ s. s.text };

    ghost invariant = { λ s. HasFailed (T.text s.text) s.failed };
}

impl<T: Marked + Drop> SearchedText<T> {
    /// A text of these characters, without marks, in which nothing was looked for.
    pub(crate) fn of(alloc: Global, chars: &[char]) -> Result<SearchedText<T>, Short>
        ensures text { IfOk result (λ t. T.text t ≡ chars.now) }
        ensures marks { IfOk result (λ t. T.marks t ≡ []) }
    {
        let text = T::of(alloc, chars)?;
        Ok(SearchedText { text, failed: None })
    }

    /// The text.
    pub(crate) fn text(&self) -> &T
        ensures { result.now ≡ self.now }
    {
        &self.text
    }

    /// Brings all characters together.
    #[tactic(auto, using(crate::proofs::Failures::still_failed))]
    pub(crate) fn gather(&mut self)
        ensures together { T.together self.new }
        ensures text { T.text self.new ≡ T.text self.old }
        ensures marks { T.marks self.new ≡ T.marks self.old }
    {
        self.text.gather();
    }

    /// Puts a mark at a position.
    #[tactic(auto, using(crate::proofs::Failures::still_failed))]
    pub(crate) fn place(&mut self, id: MarkId, p: usize)
        requires used { IsSome (mark_in (T.marks self.old) id) }
        requires within { p ≤ length (T.text self.old) }
        ensures text { T.text self.new ≡ T.text self.old }
        ensures marks { T.marks self.new ≡ slice_set (T.marks self.old) id (Some p) }
    {
        self.text.place(id, p);
    }

    /// A new mark at a position. `Short`: memory was refused, and all is as it was.
    #[tactic(auto, using(crate::proofs::Failures::still_failed))]
    pub(crate) fn add_mark(&mut self, p: usize) -> Result<MarkId, Short>
        requires { p ≤ length (T.text self.old) }
        ensures text { T.text self.new ≡ T.text self.old }
        ensures free { IfOk result (λ id. mark_in (T.marks self.old) id ≡ None) }
        ensures added { IfOk result (λ id. mark_in (T.marks self.new) id ≡ Some p) }
        ensures others { IfOk result (λ id. (k : ℕ) → k ≢ id → mark_in (T.marks self.new) k ≡ mark_in (T.marks self.old) k) }
        ensures err { OnErr result (T.marks self.new ≡ T.marks self.old) }
    {
        self.text.add_mark(p)
    }

    /// Gives a mark up.
    #[tactic(auto, using(crate::proofs::Failures::still_failed))]
    pub(crate) fn drop_mark(&mut self, id: MarkId)
        requires { IsSome (mark_in (T.marks self.old) id) }
        ensures text { T.text self.new ≡ T.text self.old }
        ensures gone { mark_in (T.marks self.new) id ≡ None }
        ensures others { (k : ℕ) → k ≢ id → mark_in (T.marks self.new) k ≡ mark_in (T.marks self.old) k }
    {
        self.text.drop_mark(id);
    }

    /// Puts characters in place of those from `a` up to `b`, and moves the marks. What was known to fail is given up. `Short`: memory
    /// was refused, and text and marks are as they were.
    pub(crate) fn replace(&mut self, a: usize, b: usize, put: &[char]) -> Result<(), Short>
        requires order { a ≤ b }
        requires within { b ≤ length (T.text self.old) }
        ensures text { OnOk result (T.text self.new ≡ edited a b put.now (T.text self.old)) }
        ensures marks { OnOk result (T.marks self.new ≡ shift_all a b (length put.now) (T.marks self.old)) }
        ensures err_text { OnErr result (T.text self.new ≡ T.text self.old) }
        ensures err_marks { OnErr result (T.marks self.new ≡ T.marks self.old) }
    {
        self.failed = None;
        self.text.replace(a, b, put)
    }

    /// Does a step of an incremental search, as `IncrementalSearch::look`. A search that failed is remembered until the next edit: where
    /// one of the same way, of a pattern that begins with its own, looks at no other places, the text is not walked.
    #[tactic(auto, using(mgs_search::proofs::Failures::step_is_planned))]
    pub(crate) fn look(
        &mut self,
        search: &mut IncrementalSearch,
        step: SearchStep,
        places: SearchPlaces,
    ) -> SearchPlaces
        requires origin { places.origin ≤ length (T.text self.old) }
        requires anchor { places.anchor ≤ length (T.text self.old) }
        ensures same { self.new ≡ self.old }
        ensures plan { IsStepPlanned step search.old search.new (T.text self.old) places result }
        ensures sought { search.new ≡ sought_after step search.old (T.text self.old) places }
        ensures places { result ≡ places_after step search.old (T.text self.old) places }
        ensures anchor { result.anchor ≤ length (T.text self.old) }
        ensures point { places.point ≤ length (T.text self.old) → result.point ≤ length (T.text self.old) }
    {
        match first_place(step, search, places, self.text.len()) {
            None => search.look(&self.text, step, places),
            Some(from) => look_from(&self.text, &mut self.failed, search, step, places, from),
        }
    }
}
