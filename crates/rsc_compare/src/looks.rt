//! The commands of assertions and the matcher.
ghost use Rattle.std.specs.Prelude.{◌≡◌, ◌≤◌, length};
ghost use Rattle.rsc_compare.specs.CharRanges.{is_in_ranges};

use crate::answer::Answer;
use crate::line::Line;
use crate::look_sets::{look_set, push_availability};
use crate::{commands, list, tokens};
use rsc_look::{
    AsciiWord, Look, LookMatcher, LookSet, UnicodeWord, UnicodeWordBoundaryError, WordClass,
};

pub(crate) fn answer(name: &[u8], line: &mut Line<'_>, answer: &mut Answer) -> bool {
    commands! { name;
        b"look" => describe(line, answer),
        b"unicode_check" => push_availability(answer, UnicodeWordBoundaryError::check().is_ok()),
        b"matcher" => terminators(line, answer),
        b"matches" => matches(line, answer),
        b"is" => is(line, answer),
        b"matches_set" => matches_set(line, answer),
        b"looks" => { let matcher = matcher(line); push_masks(line, answer, &matcher, false) },
        b"is_all" => { let matcher = matcher(line); push_masks(line, answer, &matcher, true) },
        b"sets" => sets(line, answer),
        b"looks_with" => with_word_class(line, answer),
    }
}

/// Reads the number of an assertion after a mark.
pub fn look(line: &mut Line<'_>, mark: u8) -> Look {
    let look = Look::from_repr(line.number_u32(mark));
    line.found(look, Look::Start)
}

/// Reads the numbers of assertions with `,` between; `.` for none.
pub fn looks(line: &mut Line<'_>) -> Vec<Look> {
    list!(line, b',', b'.', mark => look(line, mark))
}

/// Reads a line terminator; returns the matcher with it.
pub fn matcher(line: &mut Line<'_>) -> LookMatcher<UnicodeWord> {
    matcher_of(line.byte(b' '), UnicodeWord)
}

fn matcher_of<W: WordClass>(terminator: u8, word_class: W) -> LookMatcher<W> {
    let mut matcher = LookMatcher::new(word_class);
    let _ = matcher.set_line_terminator(terminator);
    matcher
}

fn describe(line: &mut Line<'_>, answer: &mut Answer) {
    match Look::from_repr(line.number_u32(b' ')) {
        None => answer.token("_"),
        Some(look) =>
            tokens! { answer; shown(look.as_repr()), shown(look.reversed().as_repr()), shown(look.as_char() as u32) },
    }
}

fn terminators(line: &mut Line<'_>, answer: &mut Answer) {
    answer.byte(LookMatcher::new(UnicodeWord).get_line_terminator());
    let matcher = matcher(line);
    answer.byte(matcher.get_line_terminator());
    if let Some(copy) = line.kept(matcher.clone()) {
        answer.byte(copy.get_line_terminator());
    }
    answer.byte(LookMatcher::default().get_line_terminator());
}

fn matches(line: &mut Line<'_>, answer: &mut Answer) {
    let (matcher, look, haystack) = (matcher(line), look(line, b' '), line.bytes(b' '));
    let at = line.up_to(b' ', haystack.len());
    answer.truth(matcher.matches(look, haystack.as_slice(), at));
}

fn is(line: &mut Line<'_>, answer: &mut Answer) {
    let (matcher, look, haystack) = (matcher(line), look(line, b' '), line.bytes(b' '));
    let at = line.up_to(b' ', haystack.len());
    answer.truth(own_call(&matcher, look, haystack.as_slice(), at));
}

fn matches_set(line: &mut Line<'_>, answer: &mut Answer) {
    let (matcher, set, haystack) = (matcher(line), look_set(line), line.bytes(b' '));
    let at = line.up_to(b' ', haystack.len());
    answer.truth(matcher.matches_set(set, haystack.as_slice(), at));
}

fn sets(line: &mut Line<'_>, answer: &mut Answer) {
    let (matcher, set, haystack) = (matcher(line), look_set(line), line.bytes(b' '));
    let outer = answer.open("");
    for at in 0..=haystack.len() {
        answer.truth(matcher.matches_set(set, haystack.as_slice(), at));
    }
    answer.close(outer);
}

fn with_word_class(line: &mut Line<'_>, answer: &mut Answer) {
    let terminator = line.byte(b' ');
    if line.eat(b" ascii") {
        push_masks(line, answer, &matcher_of(terminator, AsciiWord), false);
    } else if line.eat(b" unicode") {
        push_masks(line, answer, &matcher_of(terminator, UnicodeWord), false);
    } else {
        let word_class = range_word(line);
        push_masks(line, answer, &matcher_of(terminator, word_class), false);
    }
}

// The assertions that hold at each position, as the sums of their numbers: by `matches`, or by the call of each assertion.
fn push_masks<W: WordClass>(
    line: &mut Line<'_>,
    answer: &mut Answer,
    matcher: &LookMatcher<W>,
    by_calls: bool,
) {
    let haystack = line.bytes(b' ');
    for at in 0..=haystack.len() {
        answer.shown(mask(matcher, haystack.as_slice(), at, by_calls));
    }
}

fn mask<W: WordClass>(matcher: &LookMatcher<W>, haystack: &[u8], at: usize, by_calls: bool) -> u32
    requires { at ≤ length haystack.now }
{
    let mut mask = 0;
    for look in LookSet::full().iter() {
        let holds = if by_calls {
            own_call(matcher, look, haystack, at)
        } else {
            matcher.matches(look, haystack, at)
        };
        if holds {
            mask |= look.as_repr();
        }
    }
    mask
}

fn own_call<W: WordClass>(matcher: &LookMatcher<W>, look: Look, haystack: &[u8], at: usize) -> bool
    requires { at ≤ length haystack.now }
{
    match look {
        Look::Start => matcher.is_start(haystack, at),
        Look::End => matcher.is_end(haystack, at),
        Look::StartLF => matcher.is_start_lf(haystack, at),
        Look::EndLF => matcher.is_end_lf(haystack, at),
        Look::StartCRLF => matcher.is_start_crlf(haystack, at),
        Look::EndCRLF => matcher.is_end_crlf(haystack, at),
        Look::WordAscii => matcher.is_word_ascii(haystack, at),
        Look::WordAsciiNegate => matcher.is_word_ascii_negate(haystack, at),
        Look::WordStartAscii => matcher.is_word_start_ascii(haystack, at),
        Look::WordEndAscii => matcher.is_word_end_ascii(haystack, at),
        Look::WordStartHalfAscii => matcher.is_word_start_half_ascii(haystack, at),
        Look::WordEndHalfAscii => matcher.is_word_end_half_ascii(haystack, at),
        _ => own_unicode_call(matcher, look, haystack, at).unwrap_or(false),
    }
}

fn own_unicode_call<W: WordClass>(
    matcher: &LookMatcher<W>,
    look: Look,
    haystack: &[u8],
    at: usize,
) -> Result<bool, UnicodeWordBoundaryError>
    requires { at ≤ length haystack.now }
{
    match look {
        Look::WordUnicode => matcher.is_word_unicode(haystack, at),
        Look::WordUnicodeNegate => matcher.is_word_unicode_negate(haystack, at),
        Look::WordStartUnicode => matcher.is_word_start_unicode(haystack, at),
        Look::WordEndUnicode => matcher.is_word_end_unicode(haystack, at),
        Look::WordStartHalfUnicode => matcher.is_word_start_half_unicode(haystack, at),
        Look::WordEndHalfUnicode => matcher.is_word_end_half_unicode(haystack, at),
        _ => Ok(false),
    }
}

#[derive(Drop)]
struct RangeWord {
    ranges: Vec<(u32, u32)>,
}

fn range_word(line: &mut Line<'_>) -> RangeWord {
    RangeWord {
        ranges: list!(line, b',', b'.', mark => (line.number_u32(mark), line.number_u32(b'-'))),
    }
}

impl WordClass for RangeWord {
    ghost use Rattle.rsc_compare.specs.CharRanges.{is_in_ranges};

    ghost word_chars = { λ word_class c. is_in_ranges c word_class.ranges.items };

    fn is_word(&self, c: char) -> bool {
        is_in_ranges(self.ranges.as_slice(), c as u32)
    }
}

fn is_in_ranges(ranges: &[(u32, u32)], number: u32) -> bool
    ensures { result ≡ is_in_ranges number ranges.now }
{
    ranges
        .iter()
        .any(|range| range.0 <= number && number <= range.1)
}
