//! A DFA's matches beside those of a walk that tries each way, where a match begins before its end says so: in each span and mode, with any number of rows.
use super::slow::first_match;
use crate::made::{captures_of, captures_of_ends};
use rsc_engine::{Builder, Dfa, Error, Part, Program};
use rsc_look::{Look, UnicodeWord};
use rsc_primitives::PatternID;
use rsc_search::{Anchored, Input, Span};
use std::alloc::Global;
use std::test::Fail;

// `(?:a|b*)*c`, `(?:ab??)+?` and `a.*?b`, by their numbers; then the patterns `a+b` and `\ba+\b` together.
fn program_of(alloc: Global, number: usize) -> Result<Program<UnicodeWord>, Error> {
    let mut builder = Builder::new(alloc);
    let whole = match number {
        0 => letters_and_last(&builder)?,
        1 => lazy_letters(&builder)?,
        2 => up_to_a_letter(&builder)?,
        _ => {
            let letters = builder.plus(builder.range(b'a', b'a'))?;
            let last = builder.then(letters, builder.range(b'b', b'b'))?;
            builder.add_pattern(last)?;
            word(&builder)?
        }
    };
    builder.build(UnicodeWord, false, whole)
}

fn letters_and_last(builder: &Builder<'static>) -> Result<Part<'static>, Error> {
    let letters = builder.star(builder.range(b'b', b'b'))?;
    let either = builder.either(builder.range(b'a', b'a'), letters)?;
    let letters = builder.star(either)?;
    builder.then(letters, builder.range(b'c', b'c'))
}

fn lazy_letters(builder: &Builder<'static>) -> Result<Part<'static>, Error> {
    let other = builder.optional_lazy(builder.range(b'b', b'b'))?;
    let both = builder.then(builder.range(b'a', b'a'), other)?;
    let both = builder.group(None, both)?;
    builder.plus_lazy(both)
}

fn up_to_a_letter(builder: &Builder<'static>) -> Result<Part<'static>, Error> {
    let any = builder.star_lazy(builder.range(0, 0xFF))?;
    let any = builder.group(None, any)?;
    let rest = builder.then(any, builder.range(b'b', b'b'))?;
    builder.then(builder.range(b'a', b'a'), rest)
}

fn word(builder: &Builder<'static>) -> Result<Part<'static>, Error> {
    let letters = builder.plus(builder.range(b'a', b'a'))?;
    let begun = builder.then(builder.assertion(Look::WordUnicode), letters)?;
    builder.then(begun, builder.assertion(Look::WordUnicode))
}

// Whether the DFA finds what the walk does, with its groups, and in captures of matches alone with its ends.
fn same(
    alloc: Global,
    dfa: &mut Dfa<'_, UnicodeWord>,
    program: &Program<UnicodeWord>,
    input: &Input<'_>,
) -> Result<bool, Fail> {
    let mut wanted = captures_of(alloc, program)?;
    let mut captures = captures_of(alloc, program)?;
    let first = first_match(alloc, program, input, &mut wanted)?;
    let mut ends = captures_of_ends(alloc, program)?;
    let found = dfa.find(input, &mut captures)?;
    let found_ends = dfa.find(input, &mut ends)?;
    let same = found == first && captures.slots() == wanted.slots();
    Ok(same && found_ends == first && wanted.slots().starts_with(ends.slots()))
}

// The first span of a text in which they differ.
fn differing_span(
    alloc: Global,
    dfa: &mut Dfa<'_, UnicodeWord>,
    program: &Program<UnicodeWord>,
    text: &[u8],
    mode: &Anchored,
) -> Result<Option<Span>, Fail> {
    for start in 0..text.len() + 1 {
        for end in start..text.len() + 1 {
            let mut input = Input::new(text).anchored(*mode);
            input.set_span(Span { start, end });
            if !same(alloc, dfa, program, &input)? {
                return Ok(Some(Span { start, end }));
            }
        }
    }
    Ok(None)
}

const TEXTS: [&str; 9] = [
    "abbac", "bbabab", "aab aa", "é aab", "aéb", "cabcab", "🙂a", "", "bbb",
];

// The first text, and the span of it, in which they differ with that many rows.
fn difference(
    alloc: Global,
    number: usize,
    rows: usize,
    mode: &Anchored,
) -> Result<Option<(usize, Span)>, Fail> {
    let program = program_of(alloc, number)?;
    let mut dfa = Dfa::new(alloc, &program, rows);
    for index in 0..TEXTS.len() {
        let text = TEXTS[index].as_bytes();
        if let Some(span) = differing_span(alloc, &mut dfa, &program, text, mode)? {
            return Ok(Some((index, span)));
        }
    }
    Ok(None)
}

#[test]
fn begins_where_the_walk_does(rt: HostRuntime) -> Result<(), Fail> {
    for number in 0..4 {
        for rows in [1, 2, 1000] {
            let found = difference(rt.alloc(), number, rows, &Anchored::No)?;
            assert!(rt; found.is_none(), "{number} {rows}");
        }
    }
    Ok(())
}

#[test]
fn begins_where_an_anchor_says(rt: HostRuntime) -> Result<(), Fail> {
    for mode in [
        Anchored::Yes,
        Anchored::Pattern(PatternID::must(0)),
        Anchored::Pattern(PatternID::must(1)),
    ] {
        assert!(rt; difference(rt.alloc(), 3, 2, &mode)?.is_none(), "{mode:?}");
    }
    Ok(())
}

// The match of `a.*?b` has a start before the span that isn't its own, and one after it that isn't the first.
#[test]
fn the_start_is_the_least_in_the_span(rt: HostRuntime) -> Result<(), Fail> {
    let program = program_of(rt.alloc(), 2)?;
    let mut captures = captures_of(rt.alloc(), &program)?;
    let mut dfa = Dfa::new(rt.alloc(), &program, 1000);
    let input = Input::new(b"aaaab").span(Span { start: 1, end: 5 });
    let found = dfa.find(&input, &mut captures)?;
    assert!(rt; found.map(|it| (it.start(), it.end())) == Some((1, 5)));
    Ok(())
}
