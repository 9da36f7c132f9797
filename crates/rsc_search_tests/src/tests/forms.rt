//! Texts in each form that a caller may ask for, as the original gives them; clones of errors.
use rsc_primitives::PatternID;
use rsc_primitives::escape::DebugByte;
use rsc_primitives_tests::forms::{is_error, is_shown};
use rsc_search::{Anchored, MatchError, PatternSet, Span};
use std::alloc::Global;

// Whether a search that gave up at that offset is displayed in each form.
fn is_gave_up_displayed(alloc: Global, offset: usize) -> bool {
    let want = format!(in alloc; "gave up searching at offset {offset}");
    is_error(alloc, &MatchError::gave_up(offset), want)
}

// Whether a haystack that is too long by its length is displayed in each form.
fn is_too_long_displayed(alloc: Global, len: usize) -> bool {
    let want = format!(in alloc; "haystack of length {len} is too long");
    is_error(alloc, &MatchError::haystack_too_long(len), want)
}

// Whether a search that quit at that offset is displayed in each form.
fn is_quit_displayed(alloc: Global, offset: usize) -> bool {
    let want = format!(in alloc; "quit search after observing byte \\xFF at offset {offset}");
    is_error(alloc, &MatchError::quit(255, offset), want)
}

#[test]
fn errors_are_displayed_in_each_form(rt: HostRuntime) {
    let alloc = rt.alloc();
    let mut number: usize = 1;
    for _ in 0..65 {
        let is_gave_up = is_gave_up_displayed(alloc, number);
        let is_too_long = is_too_long_displayed(alloc, number);
        let is_quit = is_quit_displayed(alloc, number);
        assert!(rt; is_gave_up && is_too_long && is_quit, "{number}");
        number = number.saturating_mul(2);
    }
    assert_eq!(rt; number, usize::MAX);
    let want = String::from_str(alloc, "quit search after observing byte ' ' at offset 0");
    let is_quit = is_error(alloc, &MatchError::quit(b' ', 0), want);
    assert!(rt; is_gave_up_displayed(alloc, 0) && is_too_long_displayed(alloc, 0) && is_quit);
}

// Whether the refusal of a mode is displayed by this text in each form.
fn is_mode_displayed(alloc: Global, mode: Anchored, text: &str) -> bool {
    let want = String::from_str(alloc, text);
    is_error(alloc, &MatchError::unsupported_anchored(mode), want)
}

#[test]
fn unsupported_modes_are_displayed_in_each_form(rt: HostRuntime) {
    for (mode, text) in [
        (
            Anchored::No,
            "unanchored searches are not supported or enabled",
        ),
        (
            Anchored::Yes,
            "anchored searches are not supported or enabled",
        ),
        (
            Anchored::Pattern(PatternID::ZERO),
            "anchored searches for a specific pattern (0) are not supported or enabled",
        ),
        (
            Anchored::Pattern(PatternID::must(1_001)),
            "anchored searches for a specific pattern (1001) are not supported or enabled",
        ),
        (
            Anchored::Pattern(PatternID::MAX),
            "anchored searches for a specific pattern (2147483646) are not supported or enabled",
        ),
    ] {
        assert!(rt; is_mode_displayed(rt.alloc(), mode, text), "{text}");
    }
}

// Whether a search that quit at that byte and offset is displayed in each form.
fn is_byte_displayed(alloc: Global, byte: u8, offset: usize) -> bool {
    let shown = DebugByte(byte);
    let want = format!(in alloc; "quit search after observing byte {shown:?} at offset {offset}");
    is_error(alloc, &MatchError::quit(byte, offset), want)
}

#[test]
fn a_quit_at_each_byte_is_displayed_in_each_form(rt: HostRuntime) {
    for byte in 0..=255u8 {
        let is_first = is_byte_displayed(rt.alloc(), byte, 0);
        assert!(rt;
            is_first && is_byte_displayed(rt.alloc(), byte, 1_001),
            "{byte}"
        );
    }
}

// Whether the refusal of a search for that pattern is displayed in each form.
fn is_pattern_displayed(alloc: Global, pattern: PatternID) -> bool {
    let p = pattern.as_usize();
    let want = format!(in alloc;
        "anchored searches for a specific pattern ({p}) are not supported or enabled"
    );
    let error = MatchError::unsupported_anchored(Anchored::Pattern(pattern));
    is_error(alloc, &error, want)
}

#[test]
fn an_unsupported_pattern_of_any_length_is_displayed_in_each_form(rt: HostRuntime) {
    let mut number: usize = 1;
    for _ in 0..31 {
        let pattern = PatternID::must(number.min(2147483646));
        assert!(rt; is_pattern_displayed(rt.alloc(), pattern), "{number}");
        number = number.saturating_mul(2);
    }
}

// Whether a clone of an error is its source, and its kind can be cloned.
fn is_kept(error: &MatchError) -> bool {
    error.clone().is_ok_and(|copy| copy == *error) && error.kind().clone().is_ok()
}

#[test]
fn clones_of_errors_are_their_sources(rt: HostRuntime) {
    for number in [0, 1_001, usize::MAX] {
        let is_gave_up = is_kept(&MatchError::gave_up(number));
        let is_quit = is_kept(&MatchError::quit(255, number));
        let is_too_long = is_kept(&MatchError::haystack_too_long(number));
        assert!(rt; is_gave_up && is_quit && is_too_long);
    }
    let (yes, pattern) = (Anchored::Yes, Anchored::Pattern(PatternID::MAX));
    let is_no = is_kept(&MatchError::unsupported_anchored(Anchored::No));
    let is_yes = is_kept(&MatchError::unsupported_anchored(yes));
    let is_pattern = is_kept(&MatchError::unsupported_anchored(pattern));
    assert!(rt; is_no && is_yes && is_pattern);
}

// Whether a set of that capacity refuses a pattern by an error that is displayed in each form.
fn is_refused(alloc: Global, capacity: usize, pattern: PatternID) -> bool {
    if capacity > 100_000_000 {
        return false;
    }
    let Ok(mut set) = PatternSet::new(alloc, capacity) else {
        return false;
    };
    let number = pattern.as_usize();
    let want = format!(in alloc;
        "failed to insert pattern ID {number} into pattern set with insufficient capacity of {capacity}"
    );
    match set.try_insert(pattern) {
        Err(error) => is_error(alloc, &error, want),
        Ok(_) => false,
    }
}

#[test]
fn refused_insertions_are_displayed_in_each_form(rt: HostRuntime) {
    for capacity in [
        0,
        1,
        64,
        65,
        999,
        1_000,
        1_001,
        4_096,
        65_537,
        1_000_001,
        100_000_000,
    ] {
        let first = PatternID::new(capacity).unwrap_or(PatternID::ZERO);
        let is_first = is_refused(rt.alloc(), capacity, first);
        let is_greatest = is_refused(rt.alloc(), capacity, PatternID::MAX);
        assert!(rt; is_first && is_greatest, "{capacity}");
    }
}

#[test]
fn spans_are_shown_in_each_form(rt: HostRuntime) {
    for (start, end, want) in [
        (0, 0, "0..0"),
        (7, 12, "7..12"),
        (1_001, 3, "1001..3"),
        (0, usize::MAX, "0..18446744073709551615"),
    ] {
        assert!(rt; is_shown(rt.alloc(), &Span { start, end }, want), "{want}");
    }
}
