//! Where assertions hold: line terminators, bytes that are no characters, each call beside `matches`.
use super::carried::tells;
use rsc_alphabet::Unit;
use rsc_look::{AsciiWord, Look, LookMatcher, LookSet, UnicodeWord, UnicodeWordBoundaryError};
use std::test::Fail;

#[test]
fn lines_that_end_in_two_bytes(rt: HostRuntime) {
    let matcher = LookMatcher::new(AsciiWord);
    tells(
        &rt,
        &matcher,
        Look::StartCRLF,
        &["\r\n", "\r\na"],
        "x-x .-x.",
    );
    tells(
        &rt,
        &matcher,
        Look::EndCRLF,
        &["\r\n", "a\r\n", "a\n\r"],
        "x-x .x-. ..x.",
    );
}

#[test]
fn line_terminators(rt: HostRuntime) {
    let mut matcher = LookMatcher::new(AsciiWord);
    let is_newline = matcher.get_line_terminator() == b'\n';
    let is_start = matcher.matches(Look::StartLF, b"\na", 1);
    assert!(rt; is_newline && is_start);
    let is_zero = matcher.set_line_terminator(0).get_line_terminator() == 0;
    let are_starts = [
        matcher.matches(Look::StartLF, b"\na", 1),
        matcher.matches(Look::StartLF, b"\0a", 1),
        matcher.matches(Look::StartCRLF, b"\na", 1),
    ];
    let is_end = matcher.matches(Look::EndLF, b"\0a", 0);
    assert!(rt; is_zero && are_starts == [false, true, true] && is_end);
}

#[test]
fn clones_of_matchers(rt: HostRuntime) -> Result<(), Fail> {
    let mut matcher = LookMatcher::new(AsciiWord);
    matcher.set_line_terminator(0);
    assert_eq!(rt; matcher.clone()?.get_line_terminator(), 0);
    Ok(())
}

// Which of the six Unicode assertions hold at a position.
fn unicode_at(matcher: &LookMatcher<UnicodeWord>, haystack: &[u8], at: usize) -> Option<[bool; 6]> {
    if at > haystack.len() {
        return None;
    }
    Some([
        matcher.matches(Look::WordUnicode, haystack, at),
        matcher.matches(Look::WordUnicodeNegate, haystack, at),
        matcher.matches(Look::WordStartUnicode, haystack, at),
        matcher.matches(Look::WordEndUnicode, haystack, at),
        matcher.matches(Look::WordStartHalfUnicode, haystack, at),
        matcher.matches(Look::WordEndHalfUnicode, haystack, at),
    ])
}

#[test]
fn bytes_that_are_no_characters(rt: HostRuntime) {
    let matcher = LookMatcher::default();
    let rows: [(&[u8], usize, [bool; 6]); 10] = [
        (b"a\x80b", 1, [true, false, false, true, false, false]),
        (b"a\x80b", 2, [true, false, true, false, false, false]),
        (b"a\x80b", 3, [true, false, false, true, false, true]),
        (b" \x80", 1, [false, false, false, false, true, false]),
        (b" \x80", 2, [false, false, false, false, false, true]),
        (
            b"\xF0\x9D\x9B\x83\x80",
            2,
            [false, false, false, false, false, false],
        ),
        (
            b"\xF0\x9D\x9B\x83\x80",
            4,
            [true, false, false, true, false, false],
        ),
        (
            b"\xF0\x9D\x9B\x83\x80",
            5,
            [false, false, false, false, false, true],
        ),
        (b"a\x80", 1, [true, false, false, true, false, false]),
        (b"a\x80", 2, [false, false, false, false, false, true]),
    ];
    for (haystack, at, wants) in rows {
        assert!(rt;
            unicode_at(&matcher, haystack, at) == Some(wants),
            "{haystack:?} at {at}"
        );
    }
    let haystack = b"\xFFabc\xFF";
    let hold = [
        matcher.matches(Look::WordUnicode, haystack, 1),
        matcher.matches(Look::WordUnicode, haystack, 4),
        matcher.matches(Look::WordUnicodeNegate, haystack, 0),
        matcher.matches(Look::WordStartHalfUnicode, haystack, 1),
    ];
    assert!(rt; hold == [true, true, false, false]);
}

// Whether the calls of the anchors answer as `matches` does.
fn anchors_agree(matcher: &LookMatcher<UnicodeWord>, haystack: &[u8], at: usize) -> bool {
    if at > haystack.len() {
        return false;
    }
    let by_call = [
        matcher.is_start(haystack, at),
        matcher.is_end(haystack, at),
        matcher.is_start_lf(haystack, at),
        matcher.is_end_lf(haystack, at),
        matcher.is_start_crlf(haystack, at),
        matcher.is_end_crlf(haystack, at),
    ];
    let by_look = [
        matcher.matches(Look::Start, haystack, at),
        matcher.matches(Look::End, haystack, at),
        matcher.matches(Look::StartLF, haystack, at),
        matcher.matches(Look::EndLF, haystack, at),
        matcher.matches(Look::StartCRLF, haystack, at),
        matcher.matches(Look::EndCRLF, haystack, at),
    ];
    by_call == by_look
}

// Whether the calls of the ASCII word assertions answer as `matches` does.
fn ascii_words_agree(matcher: &LookMatcher<UnicodeWord>, haystack: &[u8], at: usize) -> bool {
    if at > haystack.len() {
        return false;
    }
    let by_call = [
        matcher.is_word_ascii(haystack, at),
        matcher.is_word_ascii_negate(haystack, at),
        matcher.is_word_start_ascii(haystack, at),
        matcher.is_word_end_ascii(haystack, at),
        matcher.is_word_start_half_ascii(haystack, at),
        matcher.is_word_end_half_ascii(haystack, at),
    ];
    let by_look = [
        matcher.matches(Look::WordAscii, haystack, at),
        matcher.matches(Look::WordAsciiNegate, haystack, at),
        matcher.matches(Look::WordStartAscii, haystack, at),
        matcher.matches(Look::WordEndAscii, haystack, at),
        matcher.matches(Look::WordStartHalfAscii, haystack, at),
        matcher.matches(Look::WordEndHalfAscii, haystack, at),
    ];
    by_call == by_look
}

// Whether the calls of the Unicode word assertions answer as `matches` does.
fn unicode_words_agree(
    matcher: &LookMatcher<UnicodeWord>,
    haystack: &[u8],
    at: usize,
) -> Result<bool, UnicodeWordBoundaryError> {
    if at > haystack.len() {
        return Ok(false);
    }
    let by_call = [
        matcher.is_word_unicode(haystack, at)?,
        matcher.is_word_unicode_negate(haystack, at)?,
        matcher.is_word_start_unicode(haystack, at)?,
        matcher.is_word_end_unicode(haystack, at)?,
        matcher.is_word_start_half_unicode(haystack, at)?,
        matcher.is_word_end_half_unicode(haystack, at)?,
    ];
    Ok(unicode_at(matcher, haystack, at) == Some(by_call))
}

#[test]
fn calls_by_assertion(rt: HostRuntime) -> Result<(), Fail> {
    let matcher = LookMatcher::default();
    let haystack = b"\r\na 1";
    for at in 0..=haystack.len() {
        let anchors = anchors_agree(&matcher, haystack, at);
        let ascii_words = ascii_words_agree(&matcher, haystack, at);
        let unicode_words = unicode_words_agree(&matcher, haystack, at)?;
        assert!(rt; anchors && ascii_words && unicode_words, "at {at}");
    }
    Ok(())
}

#[test]
fn every_member_has_to_hold(rt: HostRuntime) {
    let matcher = LookMatcher::default();
    let ends = LookSet::singleton(Look::Start).insert(Look::End);
    let hold = [
        matcher.matches_set(LookSet::empty(), b"a", 1),
        matcher.matches_set(ends, b"", 0),
        matcher.matches_set(ends, b"a", 0),
        matcher.matches_set(ends, b"a", 1),
    ];
    assert!(rt; hold == [true, true, false, false]);
}

#[test]
fn no_line_starts_or_ends_within_a_crlf_pair(rt: HostRuntime) {
    let matcher = LookMatcher::default();
    let hold = [
        matcher.matches(Look::StartCRLF, b"\r\na", 1),
        matcher.matches(Look::EndCRLF, b"a\r\n", 2),
        matcher.matches(Look::EndCRLF, b"a\n\r", 2),
    ];
    assert!(rt; hold == [false, false, true]);
}

// Whether the assertions that hold at a position are the ones for which `matches` says so.
fn holding_agrees(matcher: &LookMatcher<UnicodeWord>, haystack: &[u8], at: usize) -> bool {
    if at > haystack.len() {
        return false;
    }
    let holding = matcher.holding(haystack, at);
    for look in LookSet::full().iter() {
        if holding.contains(look) != matcher.matches(look, haystack, at) {
            return false;
        }
    }
    true
}

#[test]
fn holding_is_what_each_call_says(rt: HostRuntime) {
    let matcher = LookMatcher::default();
    let haystacks: [&[u8]; 6] = [
        b"",
        b"a",
        b"\r\n",
        "aδ-\n".as_bytes(),
        b"a\x80b",
        b"\xE2\x82",
    ];
    for haystack in haystacks {
        for at in 0..haystack.len() + 1 {
            assert!(rt;
                holding_agrees(&matcher, haystack, at),
                "{haystack:?} at {at}"
            );
        }
    }
}

#[test]
fn holding_between_a_byte_and_a_unit(rt: HostRuntime) {
    let mut matcher = LookMatcher::new(AsciiWord);
    let between = matcher.holding_between(Some(b'\r'), Unit::u8(b'\n'));
    let lines = [
        between.contains(Look::EndLF),
        between.contains(Look::StartCRLF),
    ];
    assert!(rt; lines == [true, false]);
    matcher.set_line_terminator(0);
    let between = matcher.holding_between(None, Unit::eoi(9));
    let anchors = [between.contains(Look::Start), between.contains(Look::EndLF)];
    let word_assertions = [
        between.contains(Look::WordStartHalfAscii),
        between.contains(Look::WordAscii),
        between.contains(Look::WordStartHalfUnicode),
    ];
    assert!(rt; anchors == [true, true] && word_assertions == [true, false, false]);
}

// Whether an assertion quits at all bytes past ASCII or at none, and at none within it.
fn quits_past_ascii(matcher: &LookMatcher<UnicodeWord>, look: Look) -> bool {
    let bytes = matcher.quit_bytes(&[Look::StartLF, look]);
    let is_unicode = LookSet::singleton(look).contains_word_unicode();
    let quits = [
        bytes.contains(0xFF),
        bytes.contains(0x80),
        bytes.contains(0x7F),
    ];
    let has_other = look.ascii_counterpart() != look;
    quits == [is_unicode, is_unicode, false] && is_unicode == has_other
}

#[test]
fn quits_at_bytes_of_characters(rt: HostRuntime) {
    let matcher = LookMatcher::default();
    for look in LookSet::full().iter() {
        assert!(rt; quits_past_ascii(&matcher, look), "{look:?}");
    }
}
