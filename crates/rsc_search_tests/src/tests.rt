//! Values of each call, and shown texts.
mod cost;
mod forms;
mod memory;
mod requests;
mod shown;

ghost use Rattle.std.specs.Prelude.{◌≡◌};

use rsc_primitives::PatternID;
use rsc_search::laws::are_equal_pattern_sets;
use rsc_search::{
    Anchored, HalfMatch, Input, Match, MatchError, MatchErrorKind, MatchKind, PatternSet, Span,
};
use std::alloc::{AllocError, Global};
use std::fmt;
use std::ops::{Bound, Range};
use std::test::Fail;

// Whether a text was made, and is this one.
fn is_text(made: Result<String, AllocError>, want: &str) -> bool {
    match made {
        Ok(text) => text.as_str() == want,
        Err(_) => false,
    }
}

// Whether a value is shown by this text.
fn is_debug<T: fmt::Debug>(alloc: Global, value: &T, want: &str) -> bool {
    is_text(format!(in alloc; "{value:?}"), want)
}

fn span(start: usize, end: usize) -> Span
    ensures { result ≡ record { start = start; end = end } }
{
    Span { start, end }
}

// Which of the offsets 1 to 5 a span contains.
fn contained(span: Span) -> [bool; 5] {
    [
        span.contains(1),
        span.contains(2),
        span.contains(3),
        span.contains(4),
        span.contains(5),
    ]
}

#[test]
fn spans_contain_their_end(rt: HostRuntime) {
    let ordered = span(2, 4);
    assert!(rt; contained(ordered) == [false, true, true, true, false]);
    assert!(rt; ordered.len() == 2 && ordered.offset(3) == span(5, 7));
    let reversed = span(4, 2);
    assert!(rt; !span(2, 2).contains(2) && !reversed.contains(3));
    assert!(rt; reversed.len() == 0 && reversed.is_empty());
    assert!(rt; is_debug(rt.alloc(), &ordered, "2..4"));
}

#[test]
fn spans_and_ranges(rt: HostRuntime) {
    let two_to_four = span(2, 4);
    let range: Range<usize> = two_to_four.into();
    assert!(rt; range.start == 2 && range.end == 4);
    assert!(rt; Span::from(two_to_four.range()) == two_to_four);
    assert!(rt; two_to_four != span(2, 5) && two_to_four != span(1, 4));
}

// The parts of a text at some spans: within it, at its start, empty, and past its end.
fn parts_of(text: &str) -> [Option<&str>; 6] {
    [
        span(1, 3).get_str(text),
        span(0, 2).get_str(text),
        span(0, 1).get_str(text),
        span(2, 2).get_str(text),
        span(1, 1).get_str(text),
        span(0, 3).get_str(text),
    ]
}

// Whether a span that is reversed or goes past the end has no part that can be changed, and another has its part.
fn is_changed_within(bytes: &mut [u8; 4]) -> bool {
    if let Some(part) = span(1, 3).get_mut(bytes) {
        part.fill(9);
    }
    let is_reversed = span(3, 2).get_mut(bytes).is_none();
    let is_past = span(2, 5).get_mut(bytes).is_none();
    is_reversed && is_past && *bytes == [1, 9, 9, 4]
}

#[test]
fn cuts_text_between_characters_alone(rt: HostRuntime) {
    assert!(rt; parts_of("é") == [None, Some("é"), None, Some(""), None, None]);
    let haystack: &[u8] = b"abc";
    let is_empty = span(3, 3).get(haystack) == Some(b"".as_slice());
    let is_none = span(3, 2).get(haystack) == None && span(1, 4).get(haystack) == None;
    assert!(rt; is_empty && is_none);
    assert!(rt; is_changed_within(&mut [1, 2, 3, 4]));
}

// The slice lives as long as the haystack, and so beyond the input that it came from.
fn slice_after_its_input(haystack: &[u8]) -> &[u8] {
    let kept;
    {
        let input = Input::new(haystack);
        kept = input.haystack();
    }
    kept
}

// Whether an input has the range that it is given, and is done where the range is reversed.
fn is_set_by_range() -> bool {
    let mut input = Input::new(b"abc");
    input.set_range(Bound::Excluded(0), Bound::Included(1));
    let is_set = input.get_span() == span(1, 2) && input.get_range().end == 2;
    let was_done = input.is_done();
    input.set_span(span(3, 2));
    is_set && !was_done && input.is_done()
}

#[test]
fn inputs_by_setters(rt: HostRuntime) {
    let abc: &[u8] = b"abc";
    assert!(rt; slice_after_its_input(abc) == abc);
    assert!(rt; is_set_by_range());
    let mut input = Input::new(abc);
    input.set_end(1);
    input.set_start(2);
    assert!(rt; input.start() == 2 && input.end() == 1 && input.is_done());
}

#[test]
fn inputs_by_builders(rt: HostRuntime) -> Result<(), Fail> {
    let abc: &[u8] = b"abc";
    let input = Input::new(abc)
        .range(Bound::Unbounded, Bound::Excluded(2))
        .anchored(Anchored::Yes)
        .earliest(true);
    let is_anchored = input.get_anchored() == Anchored::Yes && input.get_earliest();
    assert!(rt; input.get_span() == span(0, 2) && is_anchored);
    let mut again = input.clone()?.span(span(1, 1));
    again.set_anchored(Anchored::No);
    again.set_earliest(false);
    assert!(rt; again.haystack() == abc && !again.is_done() && !again.get_earliest());
    Ok(())
}

#[test]
fn inputs_shown(rt: HostRuntime) {
    let want = "Input { haystack: \"abc\", span: 0..3, anchored: No, earliest: false }";
    assert!(rt; is_debug(rt.alloc(), &Input::new(b"abc"), want));
}

#[test]
fn character_boundaries(rt: HostRuntime) {
    let input = Input::new("𝛃".as_bytes());
    let are_char_boundaries = [
        input.is_char_boundary(0),
        input.is_char_boundary(1),
        input.is_char_boundary(4),
        input.is_char_boundary(5),
    ];
    assert!(rt; are_char_boundaries == [true, false, true, false]);
}

#[test]
fn matches_tell_their_pattern_and_span(rt: HostRuntime) {
    let half = HalfMatch::must(3, 7);
    let is_made = half == HalfMatch::new(PatternID::must(3), 7);
    assert!(rt; is_made && half.pattern() == PatternID::must(3) && half.offset() == 7);
    let (one, two_to_five) = (PatternID::must(1), span(2, 5));
    let found = Match::must(1, two_to_five);
    let is_made = found == Match::new(one, two_to_five);
    let is_another = found != Match::must(1, span(2, 4));
    assert!(rt; is_made && is_another);
    assert!(rt; found.pattern() == one && found.span() == two_to_five);
    let bounds = (found.start(), found.end(), found.len());
    let (is_empty, range) = (found.is_empty(), found.range());
    assert!(rt; bounds == (2, 5, 3) && !is_empty && range.start == 2);
}

#[test]
fn modes_tell_whether_they_anchor(rt: HostRuntime) {
    let four = PatternID::must(4);
    let (no, yes, pattern) = (Anchored::No, Anchored::Yes, Anchored::Pattern(four));
    let are_anchored = [no.is_anchored(), yes.is_anchored(), pattern.is_anchored()];
    assert!(rt; are_anchored == [false, true, true]);
    let patterns = [no.pattern(), yes.pattern(), pattern.pattern()];
    assert!(rt; patterns == [None, None, Some(four)]);
    let is_all = MatchKind::All.continue_past_first_match();
    let is_default = MatchKind::default().continue_past_first_match();
    assert!(rt; is_all && !is_default);
}

// Whether an error is displayed by this text.
fn is_displayed(alloc: Global, error: MatchError, want: &str) -> bool {
    is_text(format!(in alloc; "{error}"), want)
}

// Whether the errors that tell an offset or a length are displayed by their texts.
fn are_offsets_displayed(alloc: Global) -> bool {
    let want = "quit search after observing byte \\xFF at offset 3";
    let is_byte = is_displayed(alloc, MatchError::quit(0xFF, 3), want);
    let want = "quit search after observing byte ' ' at offset 0";
    let is_space = is_displayed(alloc, MatchError::quit(0x20, 0), want);
    let want = "gave up searching at offset 7";
    let is_gave_up = is_displayed(alloc, MatchError::gave_up(7), want);
    let want = "haystack of length 9 is too long";
    let is_too_long = is_displayed(alloc, MatchError::haystack_too_long(9), want);
    is_byte && is_space && is_gave_up && is_too_long
}

// Whether the errors of unsupported modes are displayed by their texts.
fn are_modes_displayed(alloc: Global) -> bool {
    let want = "anchored searches are not supported or enabled";
    let is_yes = is_displayed(alloc, MatchError::unsupported_anchored(Anchored::Yes), want);
    let kind = MatchErrorKind::UnsupportedAnchored { mode: Anchored::No };
    let want = "unanchored searches are not supported or enabled";
    let is_no = is_displayed(alloc, MatchError::new(kind), want);
    let four = Anchored::Pattern(PatternID::must(4));
    let want = "anchored searches for a specific pattern (4) are not supported or enabled";
    let is_pattern = is_displayed(alloc, MatchError::unsupported_anchored(four), want);
    is_yes && is_no && is_pattern
}

#[test]
fn errors_tell_byte_and_offset(rt: HostRuntime) -> Result<(), Fail> {
    let quit = MatchError::quit(0xFF, 3);
    let kind = MatchErrorKind::Quit {
        byte: 0xFF,
        offset: 3,
    };
    assert!(rt; *quit.kind() == kind && quit.clone()? == quit);
    assert!(rt; are_offsets_displayed(rt.alloc()) && are_modes_displayed(rt.alloc()));
    Ok(())
}

// Whether a set of the patterns 0 and 2 is walked from both ends, and a clone of the iterator on its own.
fn is_walked_from_both_ends(set: &PatternSet) -> Result<bool, Fail> {
    let (zero, two) = (PatternID::must(0), PatternID::must(2));
    let mut members = set.iter();
    let counts = (members.size_hint(), members.len());
    let last = members.next_back();
    let mut rest = members.clone()?;
    let walked = [last, members.next(), members.next(), members.next_back()];
    let of_the_clone = (rest.next_back(), rest.len());
    Ok(
        counts == ((2, Some(2)), 2)
            && walked == [Some(two), Some(zero), None, None]
            && of_the_clone == (Some(zero), 0),
    )
}

#[test]
fn iterates_from_both_ends(rt: HostRuntime) -> Result<(), Fail> {
    let (zero, two) = (PatternID::must(0), PatternID::must(2));
    let mut set = PatternSet::new(rt.alloc(), 3)?;
    let are_new = [set.insert(two), set.insert(zero), set.insert(zero)];
    assert!(rt; are_new == [true, true, false]);
    assert!(rt; is_walked_from_both_ends(&set)?);
    Ok(())
}

#[test]
fn iterates_over_blocks_from_both_ends(rt: HostRuntime) -> Result<(), Fail> {
    let (zero, last, first) = (PatternID::must(0), PatternID::must(63), PatternID::must(64));
    let mut set = PatternSet::new(rt.alloc(), 65)?;
    let are_new = [set.insert(first), set.insert(zero), set.insert(last)];
    let mut members = set.iter();
    let is_counted = members.size_hint() == (3, Some(3));
    let walked = [members.next(), members.next_back(), members.next_back()];
    let ends = [members.next(), members.next_back()];
    assert!(rt; are_new == [true; 3] && is_counted && ends == [None, None]);
    assert!(rt; walked == [Some(zero), Some(first), Some(last)]);
    Ok(())
}

// Whether a set of a whole block takes its patterns and no other.
fn is_filled_to_a_block(alloc: Global) -> Result<bool, Fail> {
    let mut whole = PatternSet::new(alloc, 64)?;
    let mut are_new = true;
    for p in 0..64usize {
        let is_new = whole.try_insert(PatternID::must(p)).is_ok_and(|new| new);
        are_new = are_new && is_new;
    }
    let past = PatternID::must(64);
    let is_past = whole.contains(past) || whole.try_insert(past).is_ok();
    let last = whole.iter().next_back();
    Ok(are_new && whole.is_full() && last == Some(PatternID::must(63)) && !is_past)
}

// Whether a set of more than two blocks takes its last pattern.
fn has_its_last(alloc: Global) -> Result<bool, Fail> {
    let last = PatternID::must(129);
    let mut third = PatternSet::new(alloc, 130)?;
    let is_new = third.insert(last);
    let mut members = third.iter();
    let walked = [members.next(), members.next_back()];
    Ok(is_new && third.contains(last) && !third.is_full() && walked == [Some(last), None])
}

#[test]
fn blocks_at_the_capacity(rt: HostRuntime) -> Result<(), Fail> {
    assert!(rt; is_filled_to_a_block(rt.alloc())? && has_its_last(rt.alloc())?);
    let none = PatternSet::new(rt.alloc(), 0)?;
    assert!(rt; none.iter().next() == None && none.iter().next_back() == None);
    Ok(())
}

// Whether a set of the patterns 0 and 2, of capacity 3, refuses one by an error of this text, and stays as it is.
fn is_refused(alloc: Global, attempted: PatternID, want: &str) -> Result<bool, Fail> {
    let (zero, two) = (PatternID::must(0), PatternID::must(2));
    let mut set = PatternSet::new(alloc, 3)?;
    let are_new = [set.insert(zero), set.insert(two)];
    let is_there = set.contains(attempted);
    let Err(refused) = set.try_insert(attempted) else {
        return Ok(false);
    };
    let is_told = refused.attempted() == attempted && refused.capacity() == 3;
    let is_shown = is_text(format!(in alloc; "{refused}"), want);
    Ok(are_new == [true; 2] && !is_there && is_told && is_shown && has_these(&set, zero, two))
}

// Whether a set has capacity 3, and these two members alone.
fn has_these(set: &PatternSet, one: PatternID, other: PatternID) -> bool {
    let mut members = set.iter();
    let found = [members.next(), members.next(), members.next()];
    found == [Some(one), Some(other), None] && set.capacity() == 3
}

#[test]
fn refused_insertions(rt: HostRuntime) -> Result<(), Fail> {
    let want = "failed to insert pattern ID 3 into pattern set with insufficient capacity of 3";
    assert!(rt; is_refused(rt.alloc(), PatternID::must(3), want)?);
    let want =
        "failed to insert pattern ID 2147483646 into pattern set with insufficient capacity of 3";
    assert!(rt; is_refused(rt.alloc(), PatternID::MAX, want)?);
    Ok(())
}

#[test]
fn clones_are_sets_of_their_own(rt: HostRuntime) -> Result<(), Fail> {
    let mut set = PatternSet::new(rt.alloc(), 2)?;
    let is_new = set.insert(PatternID::must(0));
    let copy = set.clone()?;
    assert!(rt; is_new && are_equal_pattern_sets(&copy, &set));
    let is_new = set.try_insert(PatternID::must(1)).is_ok_and(|new| new);
    let was_full = set.is_full();
    assert!(rt; is_new && was_full && copy != set && copy.len() == 1);
    set.clear();
    assert!(rt; set.is_empty() && set.capacity() == 2 && set.iter().next() == None);
    Ok(())
}

#[test]
fn pattern_sets_by_capacity(rt: HostRuntime) -> Result<(), Fail> {
    let (zero, first) = (PatternID::must(0), PatternID::must(1));
    let mut none = PatternSet::new(rt.alloc(), 0)?;
    let is_refused = none.try_insert(zero).is_err();
    assert!(rt; none.is_empty() && none.is_full() && is_refused);
    let mut one = PatternSet::new(rt.alloc(), 1)?;
    let mut two = PatternSet::new(rt.alloc(), 2)?;
    let are_new = [one.insert(zero), two.insert(zero)];
    let are_other = one != two;
    let is_new = [two.insert(first), two.insert(first)];
    assert!(rt; are_new == [true; 2] && are_other && is_new == [true, false]);
    Ok(())
}
