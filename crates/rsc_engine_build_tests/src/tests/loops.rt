//! Loops over classes of bytes, alone, within one another and with groups. What is expected is what Python's `re` finds.
use super::made::{captures_of, finds, first, first_span, span};
use rsc_engine::{Builder, Error, Part, Program};
use rsc_look::{AsciiWord, Look};
use rsc_search::{Input, Span};
use std::alloc::Global;
use std::test::Fail;

const SMALL: [(u8, u8); 1] = [(b'a', b'z')];

const LETTERS: [(u8, u8); 2] = [(b'a', b'z'), (b'A', b'Z')];

const OVERLAPPING: [(u8, u8); 2] = [(b'a', b'm'), (b'h', b'z')];

const NO_LINE_FEED: [(u8, u8); 2] = [(0x0B, 0xFF), (0x00, 0x09)];

// A loop over one of the bytes.
fn star(builder: &Builder<'static>, class: &[(u8, u8)]) -> Result<Part<'static>, Error> {
    let class = builder.class(class)?;
    builder.star(class)
}

// `(?:[a-z]+|-)*`
fn nested(builder: &Builder<'static>) -> Result<Part<'static>, Error> {
    let class = builder.class(&SMALL)?;
    let letters = builder.plus(class)?;
    let other = builder.literal(b"-")?;
    let either = builder.either(letters, other)?;
    builder.star(either)
}

// A loop, by its number.
fn repeated(builder: &Builder<'static>, number: usize) -> Result<Part<'static>, Error> {
    match number {
        0 => star(builder, &SMALL),
        1 => star(builder, &LETTERS),
        2 => star(builder, &OVERLAPPING),
        3 => {
            let class = builder.class(&SMALL)?;
            builder.star_lazy(class)
        }
        4 => nested(builder),
        5 => {
            let inner = star(builder, &SMALL)?;
            builder.star(inner)
        }
        _ => star(builder, &NO_LINE_FEED),
    }
}

// `([a-z])*b`
fn captured(alloc: Global) -> Result<Program<AsciiWord>, Error> {
    let builder = Builder::new(alloc);
    let class = builder.class(&SMALL)?;
    let group = builder.group(None, class)?;
    let group = builder.star(group)?;
    let last = builder.literal(b"b")?;
    let whole = builder.then(group, last)?;
    builder.build(AsciiWord, true, whole)
}

// A loop in a group, and then `b`, or after the last one `(?m:$)`.
fn looped(alloc: Global, number: usize) -> Result<Program<AsciiWord>, Error> {
    let builder = Builder::new(alloc);
    let part = repeated(&builder, number)?;
    let group = builder.group(None, part)?;
    let last = if number < 6 {
        builder.literal(b"b")?
    } else {
        builder.assertion(Look::EndLF)
    };
    let whole = builder.then(group, last)?;
    builder.build(AsciiWord, false, whole)
}

// Whether the first match and its group are these.
fn has_first(
    alloc: Global,
    program: &Program<AsciiWord>,
    text: &[u8],
    whole: Option<Span>,
    group: Option<Span>,
) -> Result<bool, Fail> {
    let mut captures = captures_of(alloc, program)?;
    let found = first_span(alloc, program, text, &mut captures)?;
    Ok(found == whole && captures.get_group(1) == group)
}

#[test]
fn a_loop_gives_back_what_follows_it_needs(rt: HostRuntime) -> Result<(), Fail> {
    for (number, text, whole, group) in [
        (0, "aabab-", span(0, 5), span(0, 4)),
        (0, "-aac", None, None),
        (1, "aBabBa", span(0, 4), span(0, 3)),
        (1, "aaB", None, None),
        (2, "azhbz", span(0, 4), span(0, 3)),
        (2, "Ab", span(1, 2), span(1, 1)),
        (3, "aabab", span(0, 3), span(0, 2)),
        (4, "-a-bab-c", span(0, 6), span(0, 5)),
        (4, "--", None, None),
        (5, "abab-", span(0, 4), span(0, 3)),
        (5, "-b", span(1, 2), span(1, 1)),
        (6, "abc\n", span(0, 3), span(0, 3)),
        (6, "", span(0, 0), span(0, 0)),
    ] {
        let program = looped(rt.alloc(), number)?;
        assert!(rt;
            has_first(rt.alloc(), &program, text.as_bytes(), whole, group)?,
            "{number}, {text}"
        );
    }
    Ok(())
}

#[test]
fn a_group_in_a_loop_has_the_last_round(rt: HostRuntime) -> Result<(), Fail> {
    let program = captured(rt.alloc())?;
    assert!(rt; has_first(rt.alloc(), &program, b"acbd", span(0, 3), span(1, 2))?);
    assert!(rt; has_first(rt.alloc(), &program, b"b", span(0, 1), None)?);
    Ok(())
}

// Whether the ends of all matches of that pattern are these.
fn loops_find(
    alloc: Global,
    number: usize,
    text: &[u8],
    ends: &[(usize, usize)],
) -> Result<bool, Fail> {
    let program = looped(alloc, number)?;
    finds(alloc, &program, Input::new(text), ends)
}

#[test]
fn a_loop_goes_on_after_a_match(rt: HostRuntime) -> Result<(), Fail> {
    let ends = [(0, 3), (4, 6), (7, 11), (15, 16)];
    assert!(rt; loops_find(rt.alloc(), 0, b"aab-ab-caabaac b", &ends)?);
    let ends = [(0, 4), (5, 7), (8, 11)];
    assert!(rt; loops_find(rt.alloc(), 1, b"aaBb-Bb-cabB", &ends)?);
    assert!(rt; loops_find(rt.alloc(), 4, b"ab-a--cb-b", &[(0, 10)])?);
    assert!(rt; loops_find(rt.alloc(), 5, b"aab-ab-c", &[(0, 3), (4, 6)])?);
    Ok(())
}

// `[a-z]*[0-9]|-`
fn letters_with_a_digit(alloc: Global) -> Result<Program<AsciiWord>, Error> {
    let builder = Builder::new(alloc);
    let letters = star(&builder, &SMALL)?;
    let letters = builder.then(letters, builder.range(b'0', b'9'))?;
    let other = builder.literal(b"-")?;
    let whole = builder.either(letters, other)?;
    builder.build(AsciiWord, true, whole)
}

#[test]
fn a_loop_passes_over_places_of_an_earlier_search(rt: HostRuntime) -> Result<(), Fail> {
    // The first search visits the places of `abc` and finds the `-` after it.
    let program = letters_with_a_digit(rt.alloc())?;
    let ends = [(3, 4), (4, 8), (8, 9), (10, 11), (11, 12)];
    assert!(rt; finds(rt.alloc(), &program, Input::new(b"abc-abd1-z-9"), &ends)?);
    Ok(())
}

#[test]
fn a_loop_ends_with_the_span(rt: HostRuntime) -> Result<(), Fail> {
    let program = looped(rt.alloc(), 0)?;
    for (start, end, expected) in [
        (1, 3, None),
        (1, 4, Some((1, 4))),
        (0, 5, Some((0, 5))),
        (3, 5, Some((3, 5))),
    ] {
        let input = Input::new(b"aaabb").span(Span { start, end });
        let found = first(rt.alloc(), &program, &input)?;
        assert!(rt; found == expected, "{start}..{end}");
    }
    Ok(())
}

// `(?:x?y??)*`
fn letters_or_none(alloc: Global) -> Result<Program<AsciiWord>, Error> {
    let builder = Builder::new(alloc);
    let one = builder.optional(builder.literal(b"x")?)?;
    let other = builder.optional_lazy(builder.literal(b"y")?)?;
    let both = builder.then(one, other)?;
    let whole = builder.star(both)?;
    builder.build(AsciiWord, true, whole)
}

#[test]
fn a_loop_over_what_may_be_empty_goes_round_with_a_byte_alone(rt: HostRuntime) -> Result<(), Fail> {
    let program = letters_or_none(rt.alloc())?;
    assert!(rt; first(rt.alloc(), &program, &Input::new(b"xxy"))? == Some((0, 2)));
    assert!(rt; first(rt.alloc(), &program, &Input::new(b"y"))? == Some((0, 0)));
    Ok(())
}

// A loop over what may be empty: `(?:a|b??)*`, `(?:a??)*`, `(?:a|b*?)*`, `(?:a?b??)*`, `(a?)*` or `()*`, by its number.
fn over_nothing(builder: &Builder<'static>, number: usize) -> Result<Part<'static>, Error> {
    let a = builder.literal(b"a")?;
    let b = builder.literal(b"b")?;
    let part = match number {
        0 => builder.either(a, builder.optional_lazy(b)?)?,
        1 => builder.optional_lazy(a)?,
        2 => builder.either(a, builder.star_lazy(b)?)?,
        3 => builder.then(builder.optional(a)?, builder.optional_lazy(b)?)?,
        4 => builder.group(None, builder.optional(a)?)?,
        _ => builder.group(None, builder.empty())?,
    };
    builder.star(part)
}

// Python's `re` finds other ends than in rows 0 and 2, and another group than in row 4: there a round that takes no byte ends the loop.
#[test]
fn no_choice_is_made_twice_at_one_position(rt: HostRuntime) -> Result<(), Fail> {
    for (number, text, whole, group) in [
        (0, "ab", span(0, 2), None),
        (1, "a", span(0, 0), None),
        (2, "abb", span(0, 2), None),
        (3, "ab", span(0, 1), None),
        (4, "a", span(0, 1), span(0, 1)),
        (5, "", span(0, 0), span(0, 0)),
    ] {
        let builder = Builder::new(rt.alloc());
        let part = over_nothing(&builder, number)?;
        let program = builder.build(AsciiWord, true, part)?;
        assert!(rt;
            has_first(rt.alloc(), &program, text.as_bytes(), whole, group)?,
            "{number}, {text}"
        );
    }
    Ok(())
}

// `(?:(?:(a){60000}){60000}){0}(b)`
fn b_after_no_part(builder: &Builder<'static>) -> Result<Part<'static>, Error> {
    let a = builder.group(None, builder.literal(b"a")?)?;
    let many = builder.repeat(a, 60_000, Some(60_000))?;
    let many = builder.repeat(many, 60_000, Some(60_000))?;
    let none = builder.repeat(many, 0, Some(0))?;
    let b = builder.group(None, builder.literal(b"b")?)?;
    builder.then(none, b)
}

#[test]
fn a_part_that_comes_no_times_has_groups_and_no_states(rt: HostRuntime) -> Result<(), Fail> {
    let builder = Builder::new(rt.alloc());
    let whole = b_after_no_part(&builder)?;
    let program = builder.build(AsciiWord, true, whole)?;
    assert!(rt; program.nfa().states().len() < 100);
    let mut captures = captures_of(rt.alloc(), &program)?;
    let found = first_span(rt.alloc(), &program, b"ab", &mut captures)?;
    assert!(rt; found == span(1, 2) && captures.get_group(1).is_none());
    assert!(rt; captures.get_group(2) == span(1, 2));
    Ok(())
}
