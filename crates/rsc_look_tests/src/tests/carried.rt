//! Where each assertion holds: every value of the original's own tests, as sixteen tests over tables of marks.
use rsc_look::{AsciiWord, Look, LookMatcher, WordClass};
use std::process::Abort;

// The texts of the tests of lines.
const LINE_TEXTS: [&str; 5] = ["", "\n", "a", "\na", "a\na"];

// The texts of the tests of words.
const WORD_TEXTS: [&str; 11] = [
    "", "a", "ab", "a ", " a ", "𝛃", "𝛃 ", " 𝛃 ", "𝛃𐆀", "𝛃b", "b𝛃",
];

// Whether an assertion holds in a text exactly where its group of marks says.
fn holds_as_marked<W: WordClass>(
    matcher: &LookMatcher<W>,
    look: Look,
    text: &str,
    group: &str,
) -> bool {
    let haystack = text.as_bytes();
    for (at, mark) in group.bytes().enumerate() {
        if mark != b'.' {
            if at > haystack.len() || matcher.matches(look, haystack, at) != (mark == b'x') {
                return false;
            }
        }
    }
    true
}

/// Asserts that an assertion holds exactly where the marks say: a group of marks for each text, and a mark for each position, `x` where it
/// holds, `-` where it doesn't, and a dot where the test doesn't ask.
pub(super) fn tells<W: WordClass>(
    rt: &impl Abort,
    matcher: &LookMatcher<W>,
    look: Look,
    texts: &[&str],
    marks: &str,
) {
    for (text, group) in texts.iter().zip(marks.split(' ')) {
        assert!(rt;
            holds_as_marked(matcher, look, text, group),
            "{look:?} of {text:?} at {group}"
        );
    }
}

// Asserts the same of a matcher with the word characters of Unicode, and of one with those of ASCII.
fn both_tell(rt: &impl Abort, look: Look, texts: &[&str], marks: &str) {
    tells(rt, &LookMatcher::default(), look, texts, marks);
    tells(rt, &LookMatcher::new(AsciiWord), look, texts, marks);
}

#[test]
fn look_matches_start_text(rt: HostRuntime) {
    let marks = "x x- x- x-- x---";
    both_tell(&rt, Look::Start, &LINE_TEXTS, marks);
}

#[test]
fn look_matches_end_text(rt: HostRuntime) {
    let marks = "x -x -x --x ---x";
    both_tell(&rt, Look::End, &LINE_TEXTS, marks);
}

#[test]
fn look_matches_start_line(rt: HostRuntime) {
    let marks = "x xx x- xx- x-x-";
    both_tell(&rt, Look::StartLF, &LINE_TEXTS, marks);
}

#[test]
fn look_matches_end_line(rt: HostRuntime) {
    let marks = "x xx -x x-x -x-x";
    both_tell(&rt, Look::EndLF, &LINE_TEXTS, marks);
}

#[test]
fn look_matches_word_ascii(rt: HostRuntime) {
    let marks = "- xx .-. .x- -xx- ----- ....-- --...-- --------- ....x. .x....";
    both_tell(&rt, Look::WordAscii, &WORD_TEXTS, marks);
}

#[test]
fn look_matches_word_ascii_negate(rt: HostRuntime) {
    let marks = "x -- .x. .-x x--x xxxxx ....xx xx...xx xxxxxxxxx ....-. .-....";
    both_tell(&rt, Look::WordAsciiNegate, &WORD_TEXTS, marks);
}

#[test]
fn look_matches_word_unicode(rt: HostRuntime) {
    let marks = "- xx .-. .x- -xx- x---x ....x- -x...x- x---x---- ....-. .-....";
    tells(
        &rt,
        &LookMatcher::default(),
        Look::WordUnicode,
        &WORD_TEXTS,
        marks,
    );
}

#[test]
fn look_matches_word_unicode_negate(rt: HostRuntime) {
    let marks = "x -- .x. .-x x--x ----- ....-x x-...-x --------x ....x. .x....";
    tells(
        &rt,
        &LookMatcher::default(),
        Look::WordUnicodeNegate,
        &WORD_TEXTS,
        marks,
    );
}

#[test]
fn look_matches_word_start_ascii(rt: HostRuntime) {
    let marks = "- x- .-. .-- -x-- ----- ....-- --...-- --------- ....x. .-....";
    both_tell(&rt, Look::WordStartAscii, &WORD_TEXTS, marks);
}

#[test]
fn look_matches_word_end_ascii(rt: HostRuntime) {
    let marks = "- -x .-. .x- --x- ----- ....-- --...-- --------- ....-. .x....";
    both_tell(&rt, Look::WordEndAscii, &WORD_TEXTS, marks);
}

#[test]
fn look_matches_word_start_unicode(rt: HostRuntime) {
    let marks = "- x- .-. .-- -x-- x---- ....-- -x...-- x-------- ....-. .-....";
    tells(
        &rt,
        &LookMatcher::default(),
        Look::WordStartUnicode,
        &WORD_TEXTS,
        marks,
    );
}

#[test]
fn look_matches_word_end_unicode(rt: HostRuntime) {
    let marks = "- -x .-. .x- --x- ----x ....x- --...x- ----x---- ....-. .-....";
    tells(
        &rt,
        &LookMatcher::default(),
        Look::WordEndUnicode,
        &WORD_TEXTS,
        marks,
    );
}

#[test]
fn look_matches_word_start_half_ascii(rt: HostRuntime) {
    let marks = "x x- .-. .-x xx-x xxxxx ....xx xx...xx xxxxxxxxx ....x. .-....";
    both_tell(&rt, Look::WordStartHalfAscii, &WORD_TEXTS, marks);
}

#[test]
fn look_matches_word_end_half_ascii(rt: HostRuntime) {
    let marks = "x -x .-. .xx x-xx xxxxx ....xx xx...xx xxxxxxxxx ....-. .x....";
    both_tell(&rt, Look::WordEndHalfAscii, &WORD_TEXTS, marks);
}

#[test]
fn look_matches_word_start_half_unicode(rt: HostRuntime) {
    let marks = "x x- .-. .-x xx-x x---- ....-x xx...-x x-------x ....-. .-....";
    tells(
        &rt,
        &LookMatcher::default(),
        Look::WordStartHalfUnicode,
        &WORD_TEXTS,
        marks,
    );
}

#[test]
fn look_matches_word_end_half_unicode(rt: HostRuntime) {
    let marks = "x -x .-. .xx x-xx ----x ....xx x-...xx ----x---x ....-. .-....";
    tells(
        &rt,
        &LookMatcher::default(),
        Look::WordEndHalfUnicode,
        &WORD_TEXTS,
        marks,
    );
}
