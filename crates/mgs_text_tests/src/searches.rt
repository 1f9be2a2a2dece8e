// Matches in a text, and incremental search byte by byte.
ghost use Rattle.std.specs.Prelude.{◌≤◌, length};

use mgs_gap::GapText;
use mgs_model::{Direction, Message, Notice, SearchPlaces, SearchStep, Short};
use mgs_search::{
    IncrementalSearch, MatchPlan, begin_replacing, find_backward, find_forward, find_past,
    matches_at, replace_last, replace_match, search_for, skip_match,
};
use mgs_text::{PlainText, Text};
use std::alloc::Global;
use std::process::Abort;
use std::test::Fail;

// `ab` stands at 0, 3 and 6.
const THRICE: [char; 8] = ['a', 'b', ' ', 'a', 'B', ' ', 'A', 'b'];

// At a place: whether a match stands there, the first from there on, and the last up to there.
const MATCHES: [(usize, bool, Option<usize>, Option<usize>); 6] = [
    (0, true, Some(0), Some(0)),
    (1, false, Some(3), Some(0)),
    (3, true, Some(3), Some(3)),
    (6, true, Some(6), Some(6)),
    (7, false, None, Some(6)),
    (8, false, None, Some(6)),
];

// From a place: the next match behind it and before it, and where a search on and one back take the point.
type Found = (
    usize,
    Option<usize>,
    Option<usize>,
    Option<usize>,
    Option<usize>,
);

const FOUND: [Found; 4] = [
    (0, Some(3), None, Some(2), None),
    (1, Some(3), Some(0), Some(5), Some(0)),
    (6, None, Some(3), Some(8), Some(3)),
    (8, None, Some(6), None, Some(6)),
];

// At an anchor, where `ab` is replaced by three characters: whether it stands there, and the next match after a replacement and
// after none.
const REPLACED: [(usize, bool, Option<usize>, Option<usize>); 5] = [
    (0, true, Some(4), Some(3)),
    (1, false, Some(3), Some(3)),
    (3, true, Some(7), Some(6)),
    (6, true, None, None),
    (7, false, None, None),
];

// Whether a match stands at a place, the first from there on is this one, and the last up to there that one.
fn finds(
    text: &impl Text,
    p: usize,
    here: bool,
    first: Option<usize>,
    last: Option<usize>,
) -> bool {
    let ab = ['A', 'B'];
    text.len() == 8
        && p <= 8
        && matches_at(text, p, &ab) == here
        && find_forward(text, p, &ab) == first
        && find_backward(text, p, &ab) == last
}

#[test]
fn finds_matches(rt: HostRuntime) -> Result<(), Fail> {
    let text = PlainText::of(rt.alloc(), &THRICE)?;
    for &(p, here, first, last) in &MATCHES {
        assert!(rt; finds(&text, p, here, first, last), "at {p}");
    }
    Ok(())
}

const TEXTS: [&[char]; 10] = [
    &[],
    &['a'],
    &['B', 'a'],
    &['a', 'A', 'a', 'b'],
    &['a', 'b', 'A', 'B', 'a', 'B'],
    &['b', 'b', 'a', 'a', 'b', 'a', 'a', 'b', 'A'],
    &['[', '{', '@', '`', 'a', '['],
    &['\u{e9}', 'a', '\u{c9}', 'a', '\u{e9}', 'A'],
    &['a', 'b', 'a', 'b', 'a', 'b', 'a', 'c'],
    &['c', 'a', 'b', 'a', 'b', 'a', 'b', 'a'],
];

const PATTERNS: [&[char]; 11] = [
    &[],
    &['a'],
    &['B'],
    &['a', 'b'],
    &['A', 'A', 'b'],
    &['b', 'a', 'a', 'b'],
    &['{'],
    &['`', 'A'],
    &['\u{e9}', 'a'],
    &['a', 'b', 'a', 'b', 'a', 'c'],
    &['c', 'a', 'b', 'a', 'b', 'a'],
];

// The first place from one on where a pattern stands: each is tried in full.
fn first_tried<T: Text>(text: &T, from: usize, pattern: &[char]) -> Option<usize>
    requires { from ≤ length (T.text text.now) }
{
    for p in from..text.len() + 1 {
        if matches_at(text, p, pattern) {
            return Some(p);
        }
    }
    None
}

// The last place up to one where a pattern stands: each is tried in full.
fn last_tried<T: Text>(text: &T, from: usize, pattern: &[char]) -> Option<usize> {
    let mut last = None;
    for p in 0..text.len() + 1 {
        if p <= from && matches_at(text, p, pattern) {
            last = Some(p);
        }
    }
    last
}

// Whether both searches find, from each place of a text, what is found where each place is tried in full.
fn finds_as_tried(text: &impl Text, pattern: &[char]) -> bool {
    for from in 0..text.len() + 1 {
        if find_forward(text, from, pattern) != first_tried(text, from, pattern)
            || find_backward(text, from, pattern) != last_tried(text, from, pattern)
        {
            return false;
        }
    }
    true
}

#[test]
fn searches_pass_over_no_match(rt: HostRuntime) -> Result<(), Fail> {
    for chars in &TEXTS {
        let plain = PlainText::of(rt.alloc(), chars)?;
        let gap = GapText::of(rt.alloc(), chars)?;
        for pattern in &PATTERNS {
            assert!(rt; finds_as_tried(&plain, pattern), "{pattern:?} in {chars:?}");
            assert!(rt; finds_as_tried(&gap, pattern), "{pattern:?} in {chars:?}");
        }
    }
    Ok(())
}

// So many `a` and this character.
fn behind_letters(alloc: Global, count: usize, last: char) -> Result<Vec<char>, Short> {
    let mut chars = Vec::new(alloc);
    for _ in 0..count {
        chars.push('a').map_err(|_| Short)?;
    }
    chars.push(last).map_err(|_| Short)?;
    Ok(chars)
}

// Of a pattern of more than 120 characters the first 120 stand at 0 and 1 as well.
#[test]
fn long_patterns_are_found_behind_a_mismatch(rt: HostRuntime) -> Result<(), Fail> {
    let chars = behind_letters(rt.alloc(), 122, 'b')?;
    let pattern = behind_letters(rt.alloc(), 120, 'b')?;
    let text = PlainText::of(rt.alloc(), &chars)?;
    let one_on = find_forward(&text, 1.min(text.len()), &pattern);
    assert!(rt; find_forward(&text, 0, &pattern) == Some(2));
    assert!(rt; one_on == Some(2));
    assert!(rt; find_backward(&text, text.len(), &pattern) == Some(2));
    Ok(())
}

/// A text whose gap lies at a place, or at its end.
pub(crate) fn cut_at(alloc: Global, chars: &[char], place: usize) -> Result<GapText, Short> {
    let mut text = GapText::of(alloc, chars)?;
    let cut = place.min(text.len());
    text.replace(cut, cut, &[])?;
    Ok(text)
}

// A match is found in front of a gap, behind it and across it.
#[test]
fn searches_go_on_behind_a_gap(rt: HostRuntime) -> Result<(), Fail> {
    for chars in &TEXTS {
        for place in 0..chars.len() {
            let text = cut_at(rt.alloc(), chars, place)?;
            for pattern in &PATTERNS {
                assert!(rt;
                    finds_as_tried(&text, pattern),
                    "{pattern:?} in {chars:?}, cut at {place}"
                );
            }
        }
    }
    Ok(())
}

// Whether the next match from a place is this one, and a search takes the point there.
fn finds_past(
    text: &impl Text,
    p: usize,
    way: Direction,
    next: Option<usize>,
    point: Option<usize>,
) -> bool {
    let ab = ['a', 'b'];
    text.len() == 8
        && p <= 8
        && find_past(text, way, p, &ab) == next
        && search_for(text, p, way, &ab).ok() == point
}

// Whether a search finds nothing at the end, and one for nothing is refused.
fn is_refused(text: &impl Text) -> bool {
    text.len() == 8
        && search_for(text, 8, F, &['a', 'b']) == Err(Message::Says(Notice::NotFound))
        && search_for(text, 0, B, &[]) == Err(Message::Says(Notice::NoPattern))
}

#[test]
fn searches_past_a_match(rt: HostRuntime) -> Result<(), Fail> {
    let text = PlainText::of(rt.alloc(), &THRICE)?;
    for &(p, behind, before, on, back) in &FOUND {
        assert!(rt; finds_past(&text, p, F, behind, on), "on from {p}");
        assert!(rt; finds_past(&text, p, B, before, back), "back from {p}");
    }
    assert!(rt; is_refused(&text));
    Ok(())
}

// Whether a query-replace begins at the first match from a place on, and one of nothing is refused.
fn begins(text: &impl Text) -> bool {
    let ab = ['A', 'B'];
    text.len() == 8
        && begin_replacing(text, 1, &ab) == Ok(Some(3))
        && begin_replacing(text, 7, &ab) == Ok(None)
        && begin_replacing(text, 1, &[]) == Err(Message::Says(Notice::NoPattern))
}

// Whether a match at an anchor is replaced or not, and passed over.
fn replaces(text: &impl Text, anchor: usize, plan: MatchPlan, skipped: Option<usize>) -> bool {
    let ab = ['A', 'B'];
    text.len() == 8
        && anchor <= 8
        && replace_match(text, anchor, &ab, &['x', 'y', 'z']) == plan
        && replace_last(text, anchor, &ab).replaces == plan.replaces
        && skip_match(text, anchor, &ab) == skipped
}

#[test]
fn replaces_matches(rt: HostRuntime) -> Result<(), Fail> {
    let text = PlainText::of(rt.alloc(), &THRICE)?;
    assert!(rt; begins(&text));
    for &(anchor, here, next, skipped) in &REPLACED {
        let plan = MatchPlan {
            replaces: here,
            next,
        };
        assert!(rt; replaces(&text, anchor, plan, skipped), "at {anchor}");
    }
    Ok(())
}

// `[` and `{` lie as far apart as `A` and `a`.
const CASES: [(char, char, bool); 6] = [
    ('z', 'Z', true),
    ('Z', 'z', true),
    ('[', '{', false),
    ('@', '`', false),
    ('\u{e9}', '\u{c9}', false),
    ('1', '1', true),
];

// Whether a character is found in a text of another one.
fn is_found_in(alloc: Global, c: char, sought: char) -> Result<bool, Short> {
    let text = PlainText::of(alloc, &[c])?;
    Ok(matches_at(&text, 0, &[sought]))
}

#[test]
fn the_case_of_ascii_letters_alone_is_ignored(rt: HostRuntime) -> Result<(), Fail> {
    for &(c, sought, found) in &CASES {
        assert!(rt;
            is_found_in(rt.alloc(), c, sought)? == found,
            "{sought} at {c}"
        );
    }
    Ok(())
}

// What bytes make of a search from `start` on: what the last one comes to, how many characters the pattern has, and
// whether the search is failing, its anchor and the point.
fn comes_to<T: Text>(
    text: &T,
    way: Direction,
    start: usize,
    last: &[char],
    bytes: &[u8],
) -> (SearchStep, usize, bool, usize, usize)
    requires start { start ≤ length (T.text text.now) }
    requires last { length last.now ≤ 120 }
{
    let mut search = IncrementalSearch::new(way);
    let mut places = SearchPlaces {
        origin: start,
        anchor: start,
        point: start,
    };
    let mut step = SearchStep::Stays;
    for byte in bytes {
        step = search.feed(last, *byte);
        places = search.look(text, step, places);
    }
    (
        step,
        search.pattern().len(),
        search.is_failing(),
        places.anchor,
        places.point,
    )
}

// A search for characters that are typed, from a start: where there are any, `last` are those of the search before.
type Typed = (
    Direction,
    usize,
    &'static [char],
    &'static [u8],
    (SearchStep, usize, bool, usize, usize),
);

const SEARCHES: [Typed; 21] = [
    (F, 1, &[], b"aB", (SearchStep::FromAnchor, 2, false, 3, 5)),
    (F, 1, &[], b"abx", (SearchStep::FromAnchor, 3, true, 3, 5)),
    (
        F,
        0,
        &[],
        b"ab\x13\x13",
        (SearchStep::PastAnchor, 2, false, 6, 8),
    ),
    (
        F,
        3,
        &[],
        b"ab\x13\x13",
        (SearchStep::PastAnchor, 2, true, 6, 8),
    ),
    (
        F,
        1,
        &[],
        b"ab\x12",
        (SearchStep::PastAnchor, 2, false, 0, 0),
    ),
    (F, 3, &[], b"\x13", (SearchStep::Stays, 0, false, 3, 3)),
    (
        F,
        1,
        &[],
        b"ab\x13\x7F",
        (SearchStep::FromOrigin, 1, false, 3, 4),
    ),
    (
        F,
        4,
        &[],
        b"abxyz\x7F",
        (SearchStep::FromOrigin, 4, true, 4, 8),
    ),
    (F, 1, &[], b"a\x7F", (SearchStep::ToOrigin, 0, false, 1, 1)),
    (B, 8, &[], b"ab", (SearchStep::FromAnchor, 2, false, 6, 6)),
    (
        B,
        8,
        &[],
        b"ab\x12",
        (SearchStep::PastAnchor, 2, false, 3, 3),
    ),
    (
        B,
        8,
        &[],
        b"ab\x12\x12\x12",
        (SearchStep::PastAnchor, 2, true, 0, 0),
    ),
    (B, 8, &[], b"ab\r", (SearchStep::Ends, 2, false, 6, 6)),
    (B, 8, &[], b"ab\x07", (SearchStep::Quits, 2, false, 6, 8)),
    (B, 8, &[], b"ab\x06", (SearchStep::Leaves, 2, false, 6, 6)),
    (B, 8, &[], b"ab\x1B", (SearchStep::Leaves, 2, false, 6, 6)),
    (B, 8, &[], b"ab\x80", (SearchStep::Leaves, 2, false, 6, 6)),
    (
        F,
        3,
        &['A', 'B'],
        b"\x13",
        (SearchStep::FromAnchor, 2, false, 3, 5),
    ),
    (
        F,
        3,
        &['A', 'B'],
        b"\x12",
        (SearchStep::FromAnchor, 2, false, 3, 3),
    ),
    (
        F,
        3,
        &['A', 'B'],
        b"\x13\x13",
        (SearchStep::PastAnchor, 2, false, 6, 8),
    ),
    (
        F,
        3,
        &['A', 'B'],
        b"b\x13",
        (SearchStep::PastAnchor, 1, false, 7, 8),
    ),
];

const F: Direction = Direction::Forward;

const B: Direction = Direction::Backward;

// Whether characters that are typed come to what a row says.
fn comes_out(text: &impl Text, typed: &Typed) -> bool {
    let &(way, start, last, bytes, end) = typed;
    text.len() == 8
        && start <= 8
        && last.len() <= 120
        && comes_to(text, way, start, last, bytes) == end
}

#[test]
fn searches_by_bytes(rt: HostRuntime) -> Result<(), Fail> {
    let text = PlainText::of(rt.alloc(), &THRICE)?;
    for typed in &SEARCHES {
        let (start, bytes) = (typed.1, typed.3);
        assert!(rt; comes_out(&text, typed), "{bytes:?} from {start}");
    }
    let text = PlainText::of(rt.alloc(), &['a'; 120])?;
    let end = (SearchStep::FromAnchor, 120, false, 0, 120);
    assert!(rt;
        comes_to(&text, F, 0, &[], &[b'a'; 121]) == end,
        "the pattern ends at 120"
    );
    Ok(())
}

// Whether a character past ASCII that is put behind an empty pattern is looked for from 0 on, and found from `anchor` to `point`.
fn is_found(text: &impl Text, c: char, anchor: usize, point: usize) -> bool {
    let mut search = IncrementalSearch::new(F);
    let step = search.put(c);
    let start = SearchPlaces {
        origin: 0,
        anchor: 0,
        point: 0,
    };
    let places = search.look(text, step, start);
    step == SearchStep::FromAnchor
        && search.pattern() == [c].as_slice()
        && (places.anchor, places.point) == (anchor, point)
}

// How many characters a pattern has into which so many are put.
fn put(count: usize) -> usize {
    let mut search = IncrementalSearch::new(F);
    for _ in 0..count {
        let _step = search.put('\u{6F22}');
    }
    search.pattern().len()
}

#[test]
fn characters_past_ascii_are_found(rt: HostRuntime) -> Result<(), Fail> {
    let text = PlainText::of(rt.alloc(), &['a', '\u{E9}', 'b', '\u{6F22}'])?;
    assert!(rt; is_found(&text, '\u{E9}', 1, 2));
    assert!(rt; is_found(&text, '\u{6F22}', 3, 4));
    assert!(rt; is_found(&text, '\u{C9}', 0, 0));
    assert!(rt; put(119) == 119);
    assert!(rt; put(121) == 120);
    Ok(())
}
