//! The DFA beside a walk that tries each way, for 22 programs over all texts of up to three of six bytes.
use super::programs::program_of;
use super::slow::{first_end, first_match};
use crate::made::captures_of;
use rsc_captures::Captures;
use rsc_engine::{Builder, Dfa, Error, Program};
use rsc_look::{AsciiWord, Look, UnicodeWord, WordClass};
use rsc_primitives::PatternID;
use rsc_search::{Anchored, Input, Span};
use std::alloc::Global;
use std::test::Fail;

// Texts of up to three bytes.
pub(super) const TEXTS: usize = 1 + 6 + 36 + 216;

const BYTES: [u8; 6] = [b'a', b'b', b'\n', b' ', 0xC3, 0xA9];

// The bytes of a text, and how many of them it has.
pub(super) fn text_of(number: usize) -> ([u8; 4], usize) {
    let (first, len) = match number {
        0 => (0, 0),
        1..=6 => (1, 1),
        7..=42 => (7, 2),
        43..=258 => (43, 3),
        _ => (259, 4),
    };
    let mut rest = number - first;
    let mut bytes = [0; 4];
    for byte in &mut bytes {
        *byte = BYTES[rest % 6];
        rest /= 6;
    }
    (bytes, len)
}

// Whether all that the DFA answers is what a look at all places finds.
fn same(
    alloc: Global,
    dfa: &mut Dfa<'_, UnicodeWord>,
    program: &Program<UnicodeWord>,
    input: &Input<'_>,
    captures: &mut Captures,
) -> Result<bool, Error> {
    let earliest = first_end(alloc, program, input, captures)?;
    let found = first_match(alloc, program, input, captures)?;
    Ok(
        dfa.earliest_end(input)? == earliest
            && dfa.is_match(input)? == found.is_some()
            && dfa.find(input, captures)? == found
            && dfa.leftmost_end(input)? == found.map(|m| m.end()),
    )
}

// The first text on which the DFA of a program and the walk differ; with at most that many rows.
fn differing_text(alloc: Global, number: usize, rows: usize) -> Result<Option<usize>, Fail> {
    let program = program_of(alloc, number)?;
    let mut captures = captures_of(alloc, &program)?;
    let mut dfa = Dfa::new(alloc, &program, rows);
    for text in 0..TEXTS {
        let (bytes, len) = text_of(text);
        let input = Input::new(&bytes[..len.min(4)]);
        if !same(alloc, &mut dfa, &program, &input, &mut captures)? {
            return Ok(Some(text));
        }
    }
    Ok(None)
}

// The first program, from one number up to another, and its first text on which the DFA and the walk differ.
fn difference(
    alloc: Global,
    first: usize,
    last: usize,
    rows: usize,
) -> Result<Option<(usize, usize)>, Fail> {
    for number in first..last {
        if let Some(text) = differing_text(alloc, number, rows)? {
            return Ok(Some((number, text)));
        }
    }
    Ok(None)
}

#[test]
fn agrees_on_starts_and_ends(rt: HostRuntime) -> Result<(), Fail> {
    assert_eq!(rt; difference(rt.alloc(), 0, 6, 1000)?, None);
    Ok(())
}

#[test]
fn agrees_on_words(rt: HostRuntime) -> Result<(), Fail> {
    assert_eq!(rt; difference(rt.alloc(), 6, 12, 1000)?, None);
    Ok(())
}

#[test]
fn agrees_on_words_and_halves(rt: HostRuntime) -> Result<(), Fail> {
    assert_eq!(rt; difference(rt.alloc(), 12, 18, 1000)?, None);
    Ok(())
}

#[test]
fn agrees_on_lines(rt: HostRuntime) -> Result<(), Fail> {
    assert_eq!(rt; difference(rt.alloc(), 18, 22, 1000)?, None);
    Ok(())
}

#[test]
fn goes_on_with_one_row(rt: HostRuntime) -> Result<(), Fail> {
    let line_start = difference(rt.alloc(), 2, 3, 1)?;
    let word_boundary = difference(rt.alloc(), 8, 9, 1)?;
    let letters = difference(rt.alloc(), 20, 21, 0)?;
    assert_eq!(rt; [line_start, word_boundary, letters], [None; 3]);
    Ok(())
}

// `a\b` and `b+`
fn two(alloc: Global) -> Result<Program<AsciiWord>, Error> {
    let mut builder = Builder::new(alloc);
    let letter = builder.literal(b"a")?;
    let end = builder.assertion(Look::WordEndAscii);
    let one = builder.then(letter, end)?;
    builder.add_pattern(one)?;
    let other = builder.literal(b"b")?;
    let other = builder.plus(other)?;
    builder.build(AsciiWord, true, other)
}

// The first span of `ab ab` in which the DFA and the walk differ.
fn differing_span(
    alloc: Global,
    dfa: &mut Dfa<'_, AsciiWord>,
    program: &Program<AsciiWord>,
    mode: Anchored,
    captures: &mut Captures,
) -> Result<Option<Span>, Error> {
    for start in 0..6 {
        for end in 0..6 {
            if start <= end + 1 {
                let mut input = Input::new(b"ab ab").anchored(mode);
                input.set_span(Span { start, end });
                if dfa.earliest_end(&input)? != first_end(alloc, program, &input, captures)? {
                    return Ok(Some(Span { start, end }));
                }
            }
        }
    }
    Ok(None)
}

#[test]
fn agrees_in_each_span_and_mode(rt: HostRuntime) -> Result<(), Fail> {
    let program = two(rt.alloc())?;
    let mut captures = captures_of(rt.alloc(), &program)?;
    let mut dfa = Dfa::new(rt.alloc(), &program, 1000);
    for mode in [
        Anchored::No,
        Anchored::Yes,
        Anchored::Pattern(PatternID::must(0)),
        Anchored::Pattern(PatternID::must(1)),
    ] {
        let span = differing_span(rt.alloc(), &mut dfa, &program, mode, &mut captures)?;
        assert!(rt; span == None, "{mode:?} {span:?}");
    }
    Ok(())
}

// The answers of one DFA: where `a` is followed by `b` after the span, where by `-`, and where by `b` within it.
fn answers_for_letter(dfa: &mut Dfa<'_, AsciiWord>) -> Result<[Option<usize>; 3], Error> {
    let input = Input::new(b"-ab").span(Span { start: 0, end: 2 });
    let before = dfa.earliest_end(&input)?;
    let alone = dfa.earliest_end(&Input::new(b"-a-"))?;
    let within = dfa.earliest_end(&Input::new(b"-ab"))?;
    Ok([before, alone, within])
}

#[test]
fn sees_the_byte_after_the_span(rt: HostRuntime) -> Result<(), Fail> {
    let program = two(rt.alloc())?;
    let answers = answers_for_letter(&mut Dfa::new(rt.alloc(), &program, 1000))?;
    assert!(rt; answers == [None, Some(2), Some(3)]);
    Ok(())
}

// The first span in which the answer of `\bé\b` isn't as wanted.
fn differing_answer(dfa: &mut Dfa<'_, UnicodeWord>) -> Result<Option<Span>, Error> {
    for (start, end, want) in [
        (0, 8, Some(6)),
        (0, 5, None),
        (4, 6, Some(6)),
        (3, 8, Some(6)),
        (5, 8, None),
        (8, 8, None),
    ] {
        let mut input = Input::new("aé é a".as_bytes());
        if start <= end && end <= input.haystack().len() {
            input.set_span(Span { start, end });
            if dfa.earliest_end(&input)? != want {
                return Ok(Some(Span { start, end }));
            }
        }
    }
    Ok(None)
}

// Beside a byte above 7F an assertion looks at characters, also at those before the span and after it.
#[test]
fn goes_past_bytes_that_are_not_ascii(rt: HostRuntime) -> Result<(), Fail> {
    let program = program_of(rt.alloc(), 19)?;
    let mut dfa = Dfa::new(rt.alloc(), &program, 1000);
    assert_eq!(rt; differing_answer(&mut dfa)?, None);
    Ok(())
}

// `[a-z]+[0-9]`
fn letters_and_digit(alloc: Global) -> Result<Program<AsciiWord>, Error> {
    let builder = Builder::new(alloc);
    let letters = builder.plus(builder.range(b'a', b'z'))?;
    let whole = builder.then(letters, builder.range(b'0', b'9'))?;
    builder.build(AsciiWord, true, whole)
}

// That many blanks.
fn blanks(alloc: Global, count: usize) -> Result<Vec<u8>, Error> {
    Ok(vec![in alloc; b' '; count]?)
}

// The answers for 5,000 bytes, all of them blanks but for a letter and a digit at a position after it, and for the span from the digit on.
fn answers_for_pair(
    alloc: Global,
    dfa: &mut Dfa<'_, AsciiWord>,
    at: usize,
) -> Result<Option<[Option<usize>; 2]>, Error> {
    let mut text = blanks(alloc, 5000)?;
    let end = text.len();
    if at == 0 || at >= end {
        return Ok(None);
    }
    text[at - 1] = b'x';
    text[at] = b'7';
    let mut input = Input::new(&text);
    let whole = dfa.earliest_end(&input)?;
    input.set_span(Span { start: at, end });
    Ok(Some([whole, dfa.earliest_end(&input)?]))
}

// The position of a pair that isn't found.
fn missed_pair(alloc: Global, dfa: &mut Dfa<'_, AsciiWord>) -> Result<Option<usize>, Error> {
    for at in [1usize, 2, 63, 64, 65, 66, 128, 129, 4095, 4096, 4999] {
        let answers = answers_for_pair(alloc, dfa, at)?;
        if answers != Some([Some(at + 1), None]) {
            return Ok(Some(at));
        }
    }
    Ok(None)
}

fn finds_nothing_in_letters(alloc: Global, dfa: &mut Dfa<'_, AsciiWord>) -> Result<bool, Error> {
    let letters: Vec<u8> = vec![in alloc; b'x'; 5000]?;
    Ok(dfa.earliest_end(&Input::new(&letters))? == None)
}

// A long text is first looked through for a letter and a digit after it.
#[test]
fn finds_a_pair_of_bytes_in_a_long_text(rt: HostRuntime) -> Result<(), Fail> {
    let program = letters_and_digit(rt.alloc())?;
    let mut dfa = Dfa::new(rt.alloc(), &program, 1000);
    assert_eq!(rt; missed_pair(rt.alloc(), &mut dfa)?, None);
    assert!(rt; finds_nothing_in_letters(rt.alloc(), &mut dfa)?);
    Ok(())
}

// The first position of a fortieth of a text from which an anchored search finds something.
fn found_from(dfa: &mut Dfa<'_, AsciiWord>, text: &[u8]) -> Result<Option<usize>, Error> {
    let end = text.len();
    let mut input = Input::new(text);
    input.set_anchored(Anchored::Yes);
    for start in 0..end / 40 {
        if start <= end && end <= input.haystack().len() {
            input.set_span(Span { start, end });
            if dfa.earliest_end(&input)? != None {
                return Ok(Some(start));
            }
        }
    }
    Ok(None)
}

// Anchored searches from many positions of blanks on. Each ends at once, since no state is left: one that read on to the end would take minutes.
#[test]
fn ends_where_no_state_is_left(rt: HostRuntime) -> Result<(), Fail> {
    let program = letters_and_digit(rt.alloc())?;
    let mut dfa = Dfa::new(rt.alloc(), &program, 1000);
    let text = blanks(rt.alloc(), 4_000_000)?;
    assert_eq!(rt; found_from(&mut dfa, &text)?, None);
    Ok(())
}
