// An incremental search, typed byte by byte.
ghost use Rattle.std.specs.Prelude.{◌≡◌, ◌+◌, ◌<◌, ◌≤◌, ◌^◌, [], length, false, is_none, IfSome};
ghost use Rattle.mgs_model.specs.Keys.{is_graphic};
ghost use Rattle.mgs_model.specs.Searching.{lengthened, shortened, dropped, read_byte, match_point, found_places, places_after, sought_after};
ghost use Rattle.mgs_model.specs.declared.search.SearchStep.TheVariants.{FromAnchor};
ghost use Rattle.mgs_search.specs.Planned.{IsDirected, IsStepPlan};

use crate::{find_from, find_past};
use arrayvec::ArrayVec;
use mgs_model::{Direction, SearchPlaces, SearchStep};
use mgs_text::Text;
use std::marker::Model;

const QUIT: u8 = 0x07;

const BACKWARD: u8 = 0x12;

const FORWARD: u8 = 0x13;

const DELETE: u8 = 0x7F;

/// An incremental search: its direction, what it looks for, at most 120 characters, and whether it found nothing when it
/// looked last.
#[derive(Drop)]
pub struct IncrementalSearch {
    direction: Direction,
    pattern: ArrayVec<char, 120>,
    failing: bool,
}

impl Model for IncrementalSearch {
    ghost use Rattle.mgs_model.specs.Searching.{Sought};

    ghost Value = { Sought };

    ghost view = { λ s. record { direction = s.direction; pattern = s.pattern.items; failing = s.failing } };
}

fn is_graphic(byte: u8) -> bool
    ensures { result ≡ is_graphic byte }
{
    32 <= byte && byte <= 126
}

fn lengthen(pattern: &mut ArrayVec<char, 120>, c: char)
    ensures { pattern.new.items ≡ lengthened pattern.old.items c }
{
    if pattern.len() < 120 {
        pattern.push(c);
    }
}

fn shorten(pattern: &mut ArrayVec<char, 120>)
    ensures { pattern.new.items ≡ shortened pattern.old.items }
{
    let _last = pattern.pop();
}

// C-s or C-r.
fn direct(pattern: &mut ArrayVec<char, 120>, last: &[char]) -> SearchStep
    requires { length last.now ≤ 120 }
    ensures { IsDirected last.now pattern.old.items pattern.new.items result }
{
    if !pattern.is_empty() {
        return SearchStep::PastAnchor;
    }
    if last.is_empty() {
        return SearchStep::Stays;
    }
    let _fits = pattern.try_extend_from_slice(last);
    SearchStep::FromAnchor
}

fn back_at_origin(places: SearchPlaces) -> SearchPlaces
    ensures { result ≡ record places { anchor = places.origin } }
{
    SearchPlaces {
        origin: places.origin,
        anchor: places.origin,
        point: places.point,
    }
}

// The point at a match.
pub(crate) fn match_point(direction: Direction, p: usize, pattern: &[char]) -> usize
    requires { p + length pattern.now < 2 ^ 64 }
    ensures value { result ≡ match_point direction pattern.now p }
    ensures within { result ≤ p + length pattern.now }
{
    match direction {
        Direction::Forward => p + pattern.len(),
        Direction::Backward => p,
    }
}

impl IncrementalSearch {
    /// A search for nothing yet.
    pub fn new(direction: Direction) -> IncrementalSearch
        ensures { result ≡ record { direction = direction; pattern = []; failing = false } }
    {
        IncrementalSearch {
            direction,
            pattern: ArrayVec::new(),
            failing: false,
        }
    }

    /// Which way it goes.
    pub fn direction(&self) -> Direction
        ensures { result ≡ self.now.direction }
    {
        self.direction
    }

    /// What it looks for, at most 120 characters.
    pub fn pattern(&self) -> &[char]
        ensures value { result.now ≡ self.now.pattern }
        ensures within { length result.now ≤ 120 }
    {
        self.pattern.as_slice()
    }

    /// Whether it found nothing when it looked last.
    pub fn is_failing(&self) -> bool
        ensures { result ≡ self.now.failing }
    {
        self.failing
    }

    /// Reads a byte of ASCII, and tells what is to be done: `look` does it. `last` is what a search looked for last: an empty
    /// pattern becomes it at C-s (0x13) and C-r (0x12).
    pub fn feed(&mut self, last: &[char], byte: u8) -> SearchStep
        requires { length last.now ≤ 120 }
        ensures { read_byte last.now self.old byte ≡ (self.new, result) }
    {
        if is_graphic(byte) {
            lengthen(&mut self.pattern, char::from(byte));
            return SearchStep::FromAnchor;
        }
        if byte == FORWARD {
            self.direction = Direction::Forward;
            return direct(&mut self.pattern, last);
        }
        if byte == BACKWARD {
            self.direction = Direction::Backward;
            return direct(&mut self.pattern, last);
        }
        if byte == DELETE {
            return self.drop_last();
        }
        if byte == b'\r' {
            return SearchStep::Ends;
        }
        if byte == QUIT {
            return SearchStep::Quits;
        }
        SearchStep::Leaves
    }

    /// Puts a character past ASCII behind what it looks for, unless that has 120 characters, and tells what is to be done, as for
    /// a byte that is put behind.
    pub fn put(&mut self, c: char) -> SearchStep
        ensures step { result ≡ FromAnchor }
        ensures sought { self.new ≡ record self.old { pattern = lengthened self.old.pattern c } }
    {
        lengthen(&mut self.pattern, c);
        SearchStep::FromAnchor
    }

    // DEL.
    fn drop_last(&mut self) -> SearchStep
        ensures { dropped self.old ≡ (self.new, result) }
    {
        if self.pattern.len() > 1 {
            shorten(&mut self.pattern);
            return SearchStep::FromOrigin;
        }
        self.pattern.clear();
        self.failing = false;
        SearchStep::ToOrigin
    }

    // What it looked for, where it was found.
    fn arrive<T: Text>(
        &mut self,
        text: &T,
        found: Option<usize>,
        places: SearchPlaces,
    ) -> SearchPlaces
        requires within { IfSome found (λ m. m + length self.old.pattern ≤ length (T.text text.now)) }
        requires fits { IfSome found (λ m. m + length self.old.pattern < 2 ^ 64) }
        ensures sought { self.new ≡ record self.old { failing = is_none found } }
        ensures places { result ≡ found_places found self.old places }
        ensures origin { result.origin ≡ places.origin }
        ensures anchor { places.anchor ≤ length (T.text text.now) → result.anchor ≤ length (T.text text.now) }
        ensures point { places.point ≤ length (T.text text.now) → result.point ≤ length (T.text text.now) }
    {
        match found {
            None => {
                self.failing = true;
                places
            }
            Some(p) => {
                self.failing = false;
                SearchPlaces {
                    origin: places.origin,
                    anchor: p,
                    point: match_point(self.direction, p, self.pattern.as_slice()),
                }
            }
        }
    }

    /// Does a step in a text, and tells the positions afterwards. Where it looks for the pattern and finds nothing, the point
    /// stays, and so does the anchor, but for `FromOrigin`. This is the plan of the step: what the command that it is leaves.
    #[tactic(auto, using(crate::proofs::Edited::step_planned))]
    pub fn look<T: Text>(
        &mut self,
        text: &T,
        step: SearchStep,
        places: SearchPlaces,
    ) -> SearchPlaces
        requires origin { places.origin ≤ length (T.text text.now) }
        requires anchor { places.anchor ≤ length (T.text text.now) }
        ensures plan { IsStepPlan step self.old.direction self.old.pattern (T.text text.now) places result self.new.failing }
        ensures sought { self.new ≡ sought_after step self.old (T.text text.now) places }
        ensures places { result ≡ places_after step self.old (T.text text.now) places }
        ensures origin { result.origin ≡ places.origin }
        ensures anchor { result.anchor ≤ length (T.text text.now) }
        ensures point { places.point ≤ length (T.text text.now) → result.point ≤ length (T.text text.now) }
    {
        self.take_step(text, step, places)
    }

    // A step in a text.
    fn take_step<T: Text>(
        &mut self,
        text: &T,
        step: SearchStep,
        places: SearchPlaces,
    ) -> SearchPlaces
        requires origin { places.origin ≤ length (T.text text.now) }
        requires anchor { places.anchor ≤ length (T.text text.now) }
        ensures sought { self.new ≡ sought_after step self.old (T.text text.now) places }
        ensures places { result ≡ places_after step self.old (T.text text.now) places }
        ensures origin { result.origin ≡ places.origin }
        ensures anchor { result.anchor ≤ length (T.text text.now) }
        ensures point { places.point ≤ length (T.text text.now) → result.point ≤ length (T.text text.now) }
    {
        match step {
            SearchStep::FromAnchor => {
                let found = find_from(text, self.direction, places.anchor, self.pattern.as_slice());
                self.arrive(text, found, places)
            }
            SearchStep::PastAnchor => {
                let found = find_past(text, self.direction, places.anchor, self.pattern.as_slice());
                self.arrive(text, found, places)
            }
            SearchStep::FromOrigin => {
                let found = find_from(text, self.direction, places.origin, self.pattern.as_slice());
                self.arrive(text, found, back_at_origin(places))
            }
            SearchStep::ToOrigin => SearchPlaces {
                origin: places.origin,
                anchor: places.origin,
                point: places.origin,
            },
            SearchStep::Quits => SearchPlaces {
                origin: places.origin,
                anchor: places.anchor,
                point: places.origin,
            },
            SearchStep::Stays => places,
            SearchStep::Ends => places,
            SearchStep::Leaves => places,
        }
    }
}
