//! The six Unicode assertions against the slow reader, at every position of bytes of every kind.
use rsc_look::{Look, LookMatcher, UnicodeWord, WordClass};
use rsc_primitives_tests::slow_reader::{BROKEN_LISTS, first_character, last_character};

/// What is on one side of a position.
#[derive(Clone, Copy, PartialEq, Eq)]
enum Side {
    /// No byte.
    Absent,
    /// Bytes that no character ends, or begins, at the position.
    Bad,
    /// A word character.
    WordCharacter,
    /// Another character.
    Other,
}

// The side that the slow reader's answer makes.
fn side_of(character: Option<Result<char, u8>>) -> Side {
    match character {
        None => Side::Absent,
        Some(Err(_)) => Side::Bad,
        Some(Ok(c)) => {
            if UnicodeWord.is_word(c) {
                Side::WordCharacter
            } else {
                Side::Other
            }
        }
    }
}

// Whether the matcher answers as the sides of the position say, for each of the six.
fn agrees_at(matcher: &LookMatcher<UnicodeWord>, haystack: &[u8], at: usize) -> bool {
    if at > haystack.len() {
        return false;
    }
    let before = side_of(last_character(&haystack[..at]));
    let after = side_of(first_character(&haystack[at..]));
    let is_word_character = (before == Side::WordCharacter, after == Side::WordCharacter);
    let is_bad = before == Side::Bad || after == Side::Bad;
    matcher.matches(Look::WordUnicode, haystack, at) == (is_word_character.0 != is_word_character.1)
        && matcher.matches(Look::WordUnicodeNegate, haystack, at)
            == (!is_bad && is_word_character.0 == is_word_character.1)
        && matcher.matches(Look::WordStartUnicode, haystack, at)
            == (!is_word_character.0 && is_word_character.1)
        && matcher.matches(Look::WordEndUnicode, haystack, at)
            == (is_word_character.0 && !is_word_character.1)
        && matcher.matches(Look::WordStartHalfUnicode, haystack, at)
            == matches!(before, Side::Absent | Side::Other)
        && matcher.matches(Look::WordEndHalfUnicode, haystack, at)
            == matches!(after, Side::Absent | Side::Other)
}

// The same at every position.
fn agrees(matcher: &LookMatcher<UnicodeWord>, haystack: &[u8]) -> bool {
    for at in 0..=haystack.len() {
        if !agrees_at(matcher, haystack, at) {
            return false;
        }
    }
    true
}

#[test]
fn every_list_of_at_most_two_bytes(rt: HostRuntime) {
    let matcher = LookMatcher::default();
    assert!(rt; agrees(&matcher, b""));
    for a in 0..=255u8 {
        assert!(rt; agrees(&matcher, &[a]));
        for b in 0..=255u8 {
            assert!(rt; agrees(&matcher, &[a, b]));
        }
    }
}

#[test]
fn lists_that_break_off_or_run_on(rt: HostRuntime) {
    let matcher = LookMatcher::default();
    for bytes in BROKEN_LISTS {
        assert!(rt; agrees(&matcher, bytes));
    }
}

// Each of the bytes that stand for the rows of the encoding's table (RFC 3629, section 4), and for what no row has.
const AT_LIMITS: [u8; 25] = [
    0x20, 0x61, 0x7F, 0x80, 0x8F, 0x90, 0x9F, 0xA0, 0xBF, 0xC0, 0xC1, 0xC2, 0xDF, 0xE0, 0xE1, 0xEC,
    0xED, 0xEE, 0xEF, 0xF0, 0xF1, 0xF3, 0xF4, 0xF5, 0xFF,
];

#[test]
fn every_list_of_three_bytes_at_the_limits(rt: HostRuntime) {
    let matcher = LookMatcher::default();
    for a in AT_LIMITS {
        for b in AT_LIMITS {
            for c in AT_LIMITS {
                assert!(rt; agrees(&matcher, &[a, b, c]));
            }
        }
    }
}
