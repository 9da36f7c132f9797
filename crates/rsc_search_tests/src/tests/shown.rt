//! Shown texts, by values that use each field and each variant, and the traits of each type.
use super::{is_debug, is_text};
use rsc_primitives::PatternID;
use rsc_search::{
    Anchored, HalfMatch, Input, Match, MatchError, MatchErrorKind, MatchKind, PatternSet,
    PatternSetInsertError, PatternSetIter, Span,
};
use std::alloc::Global;
use std::error::Error;
use std::fmt;
use std::fmt::Write;
use std::hash::Hash;
use std::ops::Range;
use std::test::Fail;

/// Counts the bytes that are written.
#[derive(Drop)]
pub(super) struct Counter {
    pub(super) count: u64,
}

impl Counter {
    pub(super) fn new() -> Counter {
        Counter { count: 0 }
    }
}

impl fmt::Write for Counter {
    fn write_str(&mut self, text: &str) -> fmt::Result {
        self.count = self.count.saturating_add(text.len() as u64);
        Ok(())
    }
}

// Whether a value is shown by this text in lines.
fn is_shown_in_lines<T: fmt::Debug>(alloc: Global, value: &T, want: &str) -> bool {
    is_text(format!(in alloc; "{value:#?}"), want)
}

#[test]
fn spans_and_matches_are_shown(rt: HostRuntime) {
    let alloc = rt.alloc();
    let span = Span { start: 7, end: 12 };
    assert!(rt; is_debug(alloc, &span, "7..12") && is_shown_in_lines(alloc, &span, "7..12"));
    let want = "HalfMatch { pattern: PatternID(3), offset: 5 }";
    assert!(rt; is_debug(alloc, &HalfMatch::must(3, 5), want));
    let want = "Match { pattern: PatternID(2), span: 7..12 }";
    assert!(rt; is_debug(alloc, &Match::must(2, span), want));
}

#[test]
fn modes_and_kinds_are_shown(rt: HostRuntime) {
    let alloc = rt.alloc();
    let is_no = is_debug(alloc, &Anchored::No, "No");
    let is_yes = is_debug(alloc, &Anchored::Yes, "Yes");
    let four = Anchored::Pattern(PatternID::must(4));
    let is_pattern = is_debug(alloc, &four, "Pattern(PatternID(4))");
    assert!(rt; is_no && is_yes && is_pattern);
    let is_all = is_debug(alloc, &MatchKind::All, "All");
    let is_first = is_debug(alloc, &MatchKind::LeftmostFirst, "LeftmostFirst");
    assert!(rt; is_all && is_first);
}

#[test]
fn inputs_are_shown(rt: HostRuntime) {
    let alloc = rt.alloc();
    let input = Input::new(b"a\xFF\"").earliest(true);
    let want = "Input { haystack: \"a\\xff\\\"\", span: 0..3, anchored: No, earliest: true }";
    assert!(rt; is_debug(alloc, &input, want));
    let span = Span { start: 1, end: 3 };
    let input = Input::new(b"abc").span(span).anchored(Anchored::Yes);
    let want = "Input { haystack: \"abc\", span: 1..3, anchored: Yes, earliest: false }";
    assert!(rt; is_debug(alloc, &input, want));
    let input = Input::new(b"").anchored(Anchored::Pattern(PatternID::must(9)));
    let want =
        "Input { haystack: \"\", span: 0..0, anchored: Pattern(PatternID(9)), earliest: false }";
    assert!(rt; is_debug(alloc, &input, want));
}

#[test]
fn inputs_are_shown_in_lines(rt: HostRuntime) {
    let input = Input::new(b"abc").anchored(Anchored::Yes);
    let want =
        "Input {\n    haystack: \"abc\",\n    span: 0..3,\n    anchored: Yes,\n    earliest: false,\n}";
    assert!(rt; is_shown_in_lines(rt.alloc(), &input, want));
}

#[test]
fn matches_are_shown_at_the_greatest_numbers(rt: HostRuntime) {
    let half = HalfMatch::new(PatternID::MAX, usize::MAX);
    let want = "HalfMatch { pattern: PatternID(2147483646), offset: 18446744073709551615 }";
    assert!(rt; is_debug(rt.alloc(), &half, want));
    let span = Span {
        start: 0,
        end: usize::MAX,
    };
    let found = Match::new(PatternID::MAX, span);
    let want = "Match { pattern: PatternID(2147483646), span: 0..18446744073709551615 }";
    assert!(rt; is_debug(rt.alloc(), &found, want));
}

// Whether a value is displayed by this text in whatever width, and where lines are asked for.
fn is_displayed<T: fmt::Display>(alloc: Global, value: &T, want: &str) -> bool {
    is_text(format!(in alloc; "{value:>8}"), want)
        && is_text(format!(in alloc; "{value:>40}"), want)
        && is_text(format!(in alloc; "{value:#}"), want)
}

// The error of a set of three patterns that is asked to insert pattern 5.
fn refusal(alloc: Global) -> Result<PatternSetInsertError, Fail> {
    let mut set = PatternSet::new(alloc, 3)?;
    Ok(set.try_insert(PatternID::must(5)).err().ok_or("accepted")?)
}

// Whether the error is shown by its fields, and displayed by its sentence.
fn is_refusal_shown(alloc: Global, refused: &PatternSetInsertError) -> bool {
    let fields = "PatternSetInsertError { attempted: PatternID(5), capacity: 3 }";
    let sentence = "failed to insert pattern ID 5 into pattern set with insufficient capacity of 3";
    is_debug(alloc, refused, fields) && is_displayed(alloc, refused, sentence)
}

#[test]
fn errors_are_shown(rt: HostRuntime) -> Result<(), Fail> {
    let alloc = rt.alloc();
    let want = "MatchError { kind: Quit { byte: 255, offset: 3 } }";
    let is_quit = is_debug(alloc, &MatchError::quit(0xFF, 3), want);
    let error = MatchError::gave_up(4);
    let is_gave_up = is_debug(alloc, &error, "MatchError { kind: GaveUp { offset: 4 } }");
    let want = "MatchError { kind: HaystackTooLong { len: 5 } }";
    let is_too_long = is_debug(alloc, &MatchError::haystack_too_long(5), want);
    let want = "MatchError { kind: UnsupportedAnchored { mode: No } }";
    let is_mode = is_debug(alloc, &MatchError::unsupported_anchored(Anchored::No), want);
    assert!(rt; is_quit && is_gave_up && is_too_long && is_mode);
    assert!(rt; is_refusal_shown(alloc, &refusal(alloc)?));
    assert!(rt; is_displayed(alloc, &error, "gave up searching at offset 4"));
    Ok(())
}

// As the derived texts of the original are: each field in a line of its own.
#[test]
fn matches_and_errors_are_shown_in_lines(rt: HostRuntime) -> Result<(), Fail> {
    let alloc = rt.alloc();
    let found = Match::must(2, Span { start: 7, end: 12 });
    let want = "Match {\n    pattern: PatternID(\n        2,\n    ),\n    span: 7..12,\n}";
    let is_match = is_shown_in_lines(alloc, &found, want);
    let want = "HalfMatch {\n    pattern: PatternID(\n        3,\n    ),\n    offset: 5,\n}";
    let is_half = is_shown_in_lines(alloc, &HalfMatch::must(3, 5), want);
    let want = "MatchError {\n    kind: GaveUp {\n        offset: 4,\n    },\n}";
    let is_error = is_shown_in_lines(alloc, &MatchError::gave_up(4), want);
    assert!(rt; is_match && is_half && is_error);
    let want =
        "PatternSetInsertError {\n    attempted: PatternID(\n        5,\n    ),\n    capacity: 3,\n}";
    assert!(rt; is_shown_in_lines(alloc, &refusal(alloc)?, want));
    Ok(())
}

// How many bytes an error displays, and whether it was displayed.
fn displayed(error: &MatchError) -> (u64, bool) {
    let mut counter = Counter::new();
    let is_ok = write!(counter, "{error}").is_ok();
    (counter.count, is_ok)
}

#[test]
fn display_is_answered_at_the_greatest_numbers(rt: HostRuntime) {
    let greatest = Anchored::Pattern(PatternID::MAX);
    for (error, want) in [
        (MatchError::quit(0, 0), 49),
        (MatchError::quit(255, usize::MAX), 68),
        (MatchError::gave_up(0), 29),
        (MatchError::gave_up(usize::MAX), 48),
        (MatchError::haystack_too_long(usize::MAX), 51),
        (MatchError::unsupported_anchored(greatest), 82),
    ] {
        assert_eq!(rt; displayed(&error), (want, true), "{error:?}");
    }
}

fn is_copied<T: Clone + Copy + Eq + fmt::Debug>() {}

fn is_hashed<T: Clone + Copy + Eq + Hash + fmt::Debug>() {}

fn is_compared<T: Eq + fmt::Debug>() {}

fn is_error<T: Error + fmt::Display + fmt::Debug>() {}

fn is_cloned<T: Clone + fmt::Debug>() {}

fn is_walked<T: Clone + fmt::Debug + DoubleEndedIterator>() {}

fn is_converted<T: From<U>, U>() {}

fn has_default<T: Default>() {}

#[test]
fn traits_of_each_type(_rt: HostRuntime) {
    is_hashed::<Span>();
    is_converted::<Span, Range<usize>>();
    is_converted::<Range<usize>, Span>();
    is_hashed::<HalfMatch>();
    is_hashed::<Match>();
    is_cloned::<Input<'_>>();
    is_copied::<Anchored>();
    is_copied::<MatchKind>();
    has_default::<MatchKind>();
    is_compared::<MatchErrorKind>();
    is_cloned::<MatchErrorKind>();
    is_compared::<MatchError>();
    is_cloned::<MatchError>();
    is_error::<MatchError>();
    is_compared::<PatternSet>();
    is_walked::<PatternSetIter<'_>>();
    is_cloned::<PatternSetInsertError>();
    is_error::<PatternSetInsertError>();
}

#[test]
fn inputs_from_haystacks(rt: HostRuntime) {
    let haystack: &[u8] = b"abc";
    let input = Input::from(haystack);
    let is_whole = input.haystack() == haystack && input.get_span() == Span { start: 0, end: 3 };
    let is_plain = input.get_anchored() == Anchored::No && !input.get_earliest();
    assert!(rt; is_whole && is_plain);
}
