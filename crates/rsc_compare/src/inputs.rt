//! The commands of inputs.
ghost use Rattle.std.specs.Prelude.{length};
ghost use Rattle.rsc_search.specs.Inputs.{IsSpanWithin, span_between};

use crate::answer::Answer;
use crate::line::{Line, NONE};
use crate::spans::{mode, push_mode};
use crate::{commands, tokens};
use rsc_search::{Input, Span};
use std::ops::Bound;

pub(crate) fn answer(name: &[u8], line: &mut Line<'_>, answer: &mut Answer) -> bool {
    commands! { name;
        b"input" => states(line, answer),
        b"input_debug" => debug_text(line, answer),
        b"input_char_boundary" => { let text = line.bytes(b' '); answer.truth(Input::new(text.as_slice()).is_char_boundary(line.number(b' '))) },
    }
}

// The input over a haystack after changes; its state at first and after each change is added.
fn script<'h>(line: &mut Line<'_>, answer: &mut Answer, haystack: &'h [u8]) -> Input<'h> {
    let mut input = Input::new(haystack);
    push_state(answer, &input);
    for _ in 0..line.tokens() {
        line.expect(b" ");
        input = changed(line, input);
        push_state(answer, &input);
    }
    input
}

fn states(line: &mut Line<'_>, answer: &mut Answer) {
    let haystack = line.bytes(b' ');
    let input = script(line, answer, haystack.as_slice());
    answer.bytes(input.haystack());
}

fn debug_text(line: &mut Line<'_>, answer: &mut Answer) {
    let haystack = line.bytes(b' ');
    let mut left_out = Answer::new(line.alloc());
    answer.debug(&script(line, &mut left_out, haystack.as_slice()));
}

fn push_state(answer: &mut Answer, input: &Input<'_>) {
    let outer = answer.open(",");
    tokens! { answer; shown(input.start()), shown(input.end()), shown(input.get_span().start), shown(input.get_span().end),
        shown(input.get_range().start), shown(input.get_range().end) }
    push_mode(answer, input.get_anchored());
    tokens! { answer; truth(input.get_earliest()), truth(input.is_done()) }
    answer.close(outer);
}

// An input after a change; capitals are the builders.
fn changed<'h>(line: &mut Line<'_>, mut input: Input<'h>) -> Input<'h> {
    match line.peek() {
        b'm' => input.set_anchored(mode(line, b'm')),
        b'M' => return input.anchored(mode(line, b'M')),
        b'e' => input.set_earliest(line.truth(b'e')),
        b'E' => return input.earliest(line.truth(b'E')),
        b'a' => set_start(line, &mut input),
        b'z' => set_end(line, &mut input),
        _ => return with_span(line, input),
    }
    input
}

fn with_span<'h>(line: &mut Line<'_>, mut input: Input<'h>) -> Input<'h> {
    let haystack = input.haystack();
    match line.letter() {
        b's' => input.set_span(span_within(line, haystack)),
        b'S' => return input.span(span_within(line, haystack)),
        b'r' => {
            let (start, end) = range_within(line, haystack);
            input.set_range(start, end);
        }
        b'R' => {
            let (start, end) = range_within(line, haystack);
            return input.range(start, end);
        }
        _ => line.refuse(),
    }
    input
}

fn set_start(line: &mut Line<'_>, input: &mut Input<'_>) {
    let start = line.number(b'a');
    if start > input.end() && start - 1 > input.end() {
        line.refuse();
    } else {
        input.set_start(start);
    }
}

fn set_end(line: &mut Line<'_>, input: &mut Input<'_>) {
    let end = line.up_to(b'z', input.haystack().len());
    if input.start() > end + 1 {
        line.refuse();
    } else {
        input.set_end(end);
    }
}

// Reads a span that an input over this haystack may have.
fn span_within(line: &mut Line<'_>, haystack: &[u8]) -> Span
    ensures { IsSpanWithin haystack.now result }
{
    let start = line.number(NONE);
    let end = line.up_to(b':', haystack.len());
    if start <= end + 1 {
        Span { start, end }
    } else {
        line.refuse();
        Span { start: 0, end }
    }
}

// Reads the bounds of a span that an input over this haystack may have.
fn range_within(line: &mut Line<'_>, haystack: &[u8]) -> (Bound<usize>, Bound<usize>)
    ensures { IsSpanWithin haystack.now (span_between result.0 result.1 (length haystack.now)) }
{
    let start = bound(line);
    line.expect(b":");
    let end = bound(line);
    let first = match start {
        Bound::Included(at) => Some(at),
        Bound::Excluded(before) => before.checked_add(1),
        Bound::Unbounded => Some(0),
    };
    let after = match end {
        Bound::Included(last) => last.checked_add(1),
        Bound::Excluded(at) => Some(at),
        Bound::Unbounded => Some(haystack.len()),
    };
    match (first, after) {
        (Some(first), Some(after)) if after <= haystack.len() && first <= after + 1 => (start, end),
        _ => {
            line.refuse();
            (Bound::Unbounded, Bound::Unbounded)
        }
    }
}

fn bound(line: &mut Line<'_>) -> Bound<usize> {
    if line.eat(b"u") {
        Bound::Unbounded
    } else if line.eat(b"i") {
        Bound::Included(line.number(NONE))
    } else {
        Bound::Excluded(line.number(b'x'))
    }
}
