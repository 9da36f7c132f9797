//! The commands of captures.

use crate::answer::Answer;
use crate::groups::{GREATEST_LIMIT, group_info, note_refusal};
use crate::line::{Line, NONE};
use crate::{commands, hints, items, tokens};
use rsc_captures::Captures;
use rsc_primitives::NonMaxUsize;
use rsc_search::Span;

pub(crate) fn answer(name: &[u8], line: &mut Line<'_>, answer: &mut Answer) -> bool {
    commands! { name;
        b"caps" => { script(line, answer); },
        b"caps_debug" => debug_text(line, answer),
    }
}

// Reads how captures are made and group lists.
fn new_captures(line: &mut Line<'_>) -> Option<Captures> {
    line.expect(b" ");
    let kind = line.token();
    let info = match group_info(line, GREATEST_LIMIT) {
        Ok(info) => info,
        Err(refusal) => {
            note_refusal(line, &refusal);
            line.refuse();
            return None;
        }
    };
    match kind {
        b"all" => line.kept(Captures::all(line.alloc(), info)),
        b"matches" => line.kept(Captures::matches(line.alloc(), info)),
        b"empty" => line.kept(Captures::empty(line.alloc(), info)),
        _ => {
            line.refuse();
            None
        }
    }
}

// The captures after operations, whose answers are added.
fn script(line: &mut Line<'_>, answer: &mut Answer) -> Option<Captures> {
    let mut captures = new_captures(line)?;
    for _ in 0..line.tokens() {
        operate(line, answer, &mut captures);
    }
    Some(captures)
}

fn operate(line: &mut Line<'_>, answer: &mut Answer, captures: &mut Captures) {
    line.expect(b" ");
    match line.letter() {
        b'c' => captures.clear(),
        b'=' if line.eat(b"_") => captures.set_pattern(None),
        b'=' => captures.set_pattern(Some(line.pattern(NONE))),
        b'w' => write_slot(line, captures),
        b'k' => line.replace(captures.clone(), captures),
        letter => ask(line, answer, captures, letter),
    }
}

fn debug_text(line: &mut Line<'_>, answer: &mut Answer) {
    let mut left_out = Answer::new(line.alloc());
    if let Some(captures) = script(line, &mut left_out) {
        answer.debug(&captures);
    }
}

fn write_slot(line: &mut Line<'_>, captures: &mut Captures) {
    let (slot, value) = (line.number(NONE), offset(line));
    match captures.slots_mut().get_mut(slot) {
        Some(lent) => *lent = value,
        None => line.refuse(),
    }
}

fn offset(line: &mut Line<'_>) -> Option<NonMaxUsize> {
    if line.eat(b":_") {
        None
    } else {
        NonMaxUsize::new(line.up_to(b':', usize::MAX - 1))
    }
}

fn ask(line: &mut Line<'_>, answer: &mut Answer, captures: &Captures, letter: u8) {
    match letter {
        b's' => push_slots(answer, captures),
        b'i' => push_spans(answer, captures),
        b'M' => push_match(line, answer, captures),
        b'g' => push_ends(answer, captures.get_group(line.number(NONE))),
        b'n' => push_ends(answer, captures.get_group_by_name(line.text(NONE).as_str())),
        b'x' => extract_text(line, answer, captures),
        b'y' => extract_bytes(line, answer, captures),
        b'm' => answer.truth(captures.is_match()),
        b'p' => answer.optional(captures.pattern().map(|pid| pid.as_usize())),
        b'G' => answer.shown(captures.group_info().pattern_len()),
        b'l' => answer.shown(captures.group_len()),
        _ => line.refuse(),
    }
}

fn push_slots(answer: &mut Answer, captures: &Captures) {
    let outer = answer.open(",");
    for slot in captures.slots() {
        answer.optional(slot.map(|offset| offset.get()));
    }
    answer.close(outer);
}

fn push_spans(answer: &mut Answer, captures: &Captures) {
    let outer = answer.open("/");
    items!(answer, ",", captures.iter(), span => push_ends(answer, span));
    hints!(answer, captures.iter());
    answer.close(outer);
}

// The pattern that matched with the span of the whole match, whose start has to be at most its end.
fn push_match(line: &mut Line<'_>, answer: &mut Answer, captures: &Captures) {
    let whole = captures.get_group(0);
    if whole.is_some_and(|span| span.start > span.end) {
        return line.refuse();
    }
    match captures.get_match() {
        Some(found) => {
            let outer = answer.open(":");
            answer.shown(found.pattern().as_usize());
            push_ends(answer, Some(found.span()));
            answer.close(outer);
        }
        None => answer.token("_"),
    }
}

fn push_ends(answer: &mut Answer, span: Option<Span>) {
    match span {
        Some(span) => tokens! { answer, ".."; shown(span.start), shown(span.end) },
        None => answer.token("_"),
    }
}

// The extraction of a number of groups that is one of the literals, by the call at that constant.
macro_rules! extract {
    ($line:expr, $answer:expr, $captures:expr, $haystack:expr, $count:expr, $kind:ty, $push:ident, $($number:literal)*) => {
        match $count {
            $($number => {
                let found: Option<($kind, [$kind; $number])> = $captures.extract_from($haystack);
                match &found {
                    Some(parts) => $push($answer, parts.0, parts.1.as_slice()),
                    None => $answer.token("_"),
                }
            })*
            _ => $line.refuse(),
        }
    };
}

fn extract_text(line: &mut Line<'_>, answer: &mut Answer, captures: &Captures) {
    let (count, text) = (line.number(NONE), line.text(b':'));
    extract!(line, answer, captures, text.as_str(), count, &str, push_texts, 0 1 2 3 4 5 6 7 8)
}

fn extract_bytes(line: &mut Line<'_>, answer: &mut Answer, captures: &Captures) {
    let (count, bytes) = (line.number(NONE), line.bytes(b':'));
    extract!(line, answer, captures, bytes.as_slice(), count, &[u8], push_bytes, 0 1 2 3 4 5 6 7 8)
}

fn push_texts(answer: &mut Answer, whole: &str, groups: &[&str]) {
    let outer = answer.open("/");
    answer.bytes(whole.as_bytes());
    for group in groups {
        answer.bytes(group.as_bytes());
    }
    answer.close(outer);
}

fn push_bytes(answer: &mut Answer, whole: &[u8], groups: &[&[u8]]) {
    let outer = answer.open("/");
    answer.bytes(whole);
    for group in groups {
        answer.bytes(group);
    }
    answer.close(outer);
}
