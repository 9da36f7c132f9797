//! The commands of spans, matches, modes and search errors.
ghost use Rattle.std.specs.Prelude.{◌≤◌};

use crate::answer::Answer;
use crate::line::Line;
use crate::{commands, tokens};
use rsc_search::{Anchored, HalfMatch, Match, MatchError, MatchErrorKind, MatchKind, Span};
use std::ops::Range;

pub(crate) fn answer(name: &[u8], line: &mut Line<'_>, answer: &mut Answer) -> bool {
    answer_spans(name, line, answer) || answer_matches(name, line, answer)
}

fn answer_spans(name: &[u8], line: &mut Line<'_>, answer: &mut Answer) -> bool {
    commands! { name;
        b"span" => describe_span(answer, span(line)),
        b"span_contains" => answer.truth(span(line).contains(line.number(b' '))),
        b"span_offset" => offset(line, answer),
        b"span_eq" => answer.truth(span(line) == span(line)),
        b"span_get" => get(line, answer),
        b"span_str" => get_str(line, answer),
        b"span_mut" => get_mut(line, answer),
    }
}

fn answer_matches(name: &[u8], line: &mut Line<'_>, answer: &mut Answer) -> bool {
    commands! { name;
        b"half" => describe_half(line, answer),
        b"half_eq" => answer.truth(half(line) == half(line)),
        b"match" => describe_match(line, answer),
        b"match_eq" => answer.truth(found(line) == found(line)),
        b"anchored" => describe_mode(answer, mode(line, b' ')),
        b"anchored_eq" => answer.truth(mode(line, b' ') == mode(line, b' ')),
        b"match_kind" => describe_kind(line, answer),
        b"match_err" => describe_error(line, answer),
    }
}

fn span(line: &mut Line<'_>) -> Span {
    Span {
        start: line.number(b' '),
        end: line.number(b' '),
    }
}

fn describe_span(answer: &mut Answer, span: Span) {
    let range: Range<usize> = Range::from(span);
    let back = Span::from(range);
    tokens! { answer; truth(span.is_empty()), shown(span.len()), shown(span.range().start), shown(span.range().end), debug(&back) }
}

fn offset(line: &mut Line<'_>, answer: &mut Answer) {
    let span = span(line);
    let moved = span.offset(line.up_to(b' ', usize::MAX - span.start.max(span.end)));
    tokens! { answer; shown(moved.start), shown(moved.end) }
}

fn get(line: &mut Line<'_>, answer: &mut Answer) {
    let (span, haystack) = (span(line), line.bytes(b' '));
    push_cut(answer, span.get(haystack.as_slice()));
}

fn get_str(line: &mut Line<'_>, answer: &mut Answer) {
    let (span, haystack) = (span(line), line.text(b' '));
    push_cut(
        answer,
        span.get_str(haystack.as_str()).map(|cut| cut.as_bytes()),
    );
}

// A haystack after the bytes that a span names are filled with a byte.
fn get_mut(line: &mut Line<'_>, answer: &mut Answer) {
    let (span, mut haystack) = (span(line), line.bytes(b' '));
    let is_within = fill(span, haystack.as_mut_slice(), line.byte(b' '));
    push_cut(answer, is_within.then_some(haystack.as_slice()));
}

fn push_cut(answer: &mut Answer, cut: Option<&[u8]>) {
    match cut {
        Some(bytes) => answer.bytes(bytes),
        None => answer.token("_"),
    }
}

// Fills the bytes that a span names, if it names some.
fn fill(span: Span, haystack: &mut [u8], filler: u8) -> bool {
    match span.get_mut(haystack) {
        Some(lent) => {
            lent.fill(filler);
            true
        }
        None => false,
    }
}

fn half(line: &mut Line<'_>) -> HalfMatch {
    HalfMatch::new(line.pattern(b' '), line.number(b' '))
}

fn describe_half(line: &mut Line<'_>, answer: &mut Answer) {
    let half = half(line);
    if half != HalfMatch::must(half.pattern().as_usize(), half.offset()) {
        line.refuse();
    }
    tokens! { answer; shown(half.pattern().as_usize()), shown(half.offset()) }
}

// Reads a span whose start is at most its end.
fn forward_span(line: &mut Line<'_>) -> Span
    ensures { result.start ≤ result.end }
{
    let span = span(line);
    if span.start <= span.end {
        span
    } else {
        line.refuse();
        Span { start: 0, end: 0 }
    }
}

// Reads a pattern and a span whose start is at most its end.
fn found(line: &mut Line<'_>) -> Match {
    Match::new(line.pattern(b' '), forward_span(line))
}

fn describe_match(line: &mut Line<'_>, answer: &mut Answer) {
    let found = found(line);
    if found != Match::must(found.pattern().as_usize(), found.span()) {
        line.refuse();
    }
    tokens! { answer; shown(found.pattern().as_usize()), shown(found.start()), shown(found.end()) }
    tokens! { answer; shown(found.range().start), shown(found.range().end), shown(found.span().start), shown(found.span().end) }
    tokens! { answer; truth(found.is_empty()), shown(found.len()) }
}

/// Reads `no`, `yes`, or `p` and the number of a pattern, after a mark.
pub fn mode(line: &mut Line<'_>, mark: u8) -> Anchored {
    line.mark(mark);
    if line.eat(b"no") {
        Anchored::No
    } else if line.eat(b"yes") {
        Anchored::Yes
    } else {
        Anchored::Pattern(line.pattern(b'p'))
    }
}

/// Adds a mode as it is read.
pub fn push_mode(answer: &mut Answer, mode: Anchored) {
    match mode {
        Anchored::No => answer.token("no"),
        Anchored::Yes => answer.token("yes"),
        Anchored::Pattern(pattern) => tokens! { answer, ""; token("p"), shown(pattern.as_usize()) },
    }
}

fn describe_mode(answer: &mut Answer, mode: Anchored) {
    tokens! { answer; truth(mode.is_anchored()), optional(mode.pattern().map(|pid| pid.as_usize())) }
}

fn describe_kind(line: &mut Line<'_>, answer: &mut Answer) {
    let kind = if line.eat(b" all") {
        MatchKind::All
    } else if line.eat(b" leftmost") {
        MatchKind::LeftmostFirst
    } else {
        line.expect(b" default");
        MatchKind::default()
    };
    answer.truth(kind.continue_past_first_match());
    answer.token(match kind {
        MatchKind::All => "all",
        MatchKind::LeftmostFirst => "leftmost",
    });
}

fn describe_error(line: &mut Line<'_>, answer: &mut Answer) {
    if line.eat(b" quit") {
        let (byte, offset) = (line.byte(b' '), line.number(b' '));
        let kind = MatchErrorKind::Quit { byte, offset };
        push_error(answer, MatchError::quit(byte, offset), kind);
    } else if line.eat(b" gaveup") {
        let offset = line.number(b' ');
        let kind = MatchErrorKind::GaveUp { offset };
        push_error(answer, MatchError::gave_up(offset), kind);
    } else if line.eat(b" toolong") {
        let len = line.number(b' ');
        let kind = MatchErrorKind::HaystackTooLong { len };
        push_error(answer, MatchError::haystack_too_long(len), kind);
    } else {
        line.expect(b" anchored");
        // Read twice: the checker doesn't cover a mode that goes into two values.
        let (kind, mode) = (unsupported(&mut line.again()), mode(line, b' '));
        push_error(answer, MatchError::unsupported_anchored(mode), kind);
    }
}

fn unsupported(line: &mut Line<'_>) -> MatchErrorKind {
    MatchErrorKind::UnsupportedAnchored {
        mode: mode(line, b' '),
    }
}

fn push_error(answer: &mut Answer, made: MatchError, kind: MatchErrorKind) {
    tokens! { answer; truth(*made.kind() == kind && made == MatchError::new(kind)), shown(made) }
}
