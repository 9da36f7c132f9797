//! What the builder makes.
use super::made::{captures_of, finds, first, first_of_patterns, first_span, span};
use rsc_engine::{Builder, Error, Part, Program};
use rsc_look::{AsciiWord, Look, LookMatcher};
use rsc_primitives::PatternID;
use rsc_search::{Anchored, Input};
use std::alloc::Global;
use std::test::Fail;

// `(?P<both>a(b)?)+`
fn groups(alloc: Global) -> Result<Program<AsciiWord>, Error> {
    let builder = Builder::new(alloc);
    let one = builder.literal(b"a")?;
    let other = builder.range(b'b', b'b');
    let other = builder.group(None, other)?;
    let other = builder.optional(other)?;
    let both = builder.then(one, other)?;
    let both = builder.group(Some("both"), both)?;
    let whole = builder.plus(both)?;
    builder.build(AsciiWord, true, whole)
}

#[test]
fn groups_of_the_last_round_count(rt: HostRuntime) -> Result<(), Fail> {
    let program = groups(rt.alloc())?;
    let mut captures = captures_of(rt.alloc(), &program)?;
    let found = first_span(rt.alloc(), &program, b"-aba", &mut captures)?;
    let groups = [captures.get_group_by_name("both"), captures.get_group(2)];
    assert!(rt; found == span(1, 4) && groups == [span(3, 4), span(2, 3)]);
    Ok(())
}

// `[ab]|c` of classes
fn class(alloc: Global) -> Result<Program<AsciiWord>, Error> {
    let builder = Builder::new(alloc);
    let class = builder.class(&[(b'a', b'a'), (b'b', b'b')])?;
    let other = builder.literal(b"c")?;
    let either = builder.either(class, other)?;
    let whole = builder.concat(vec![in alloc; either]?)?;
    builder.build(AsciiWord, true, whole)
}

#[test]
fn classes_take_one_byte(rt: HostRuntime) -> Result<(), Fail> {
    let program = class(rt.alloc())?;
    let ends = [(0, 1), (2, 3), (3, 4)];
    assert!(rt; finds(rt.alloc(), &program, Input::new(b"bdca"), &ends)?);
    assert!(rt; first(rt.alloc(), &program, &Input::new(b"d"))? == None);
    Ok(())
}

#[test]
fn a_class_without_a_byte_never_matches(rt: HostRuntime) -> Result<(), Fail> {
    let ranges: [&[(u8, u8)]; 4] = [
        &[],
        &[(b'b', b'a')],
        &[(b'z', b'a'), (255, 0)],
        &[(1, 0), (b'b', b'b'), (b'd', b'c')],
    ];
    for index in 0..4 {
        let builder = Builder::new(rt.alloc());
        let whole = builder.class(ranges[index])?;
        let program = builder.build(AsciiWord, false, whole)?;
        let wanted = if index == 3 { Some((1, 2)) } else { None };
        assert!(rt; first(rt.alloc(), &program, &Input::new(b"abcd"))? == wanted);
    }
    Ok(())
}

#[test]
fn a_range_from_a_greater_byte_has_no_byte(rt: HostRuntime) -> Result<(), Fail> {
    let builder = Builder::new(rt.alloc());
    let reversed = builder.range(b'c', b'a');
    let either = builder.either(reversed, builder.literal(b"b")?)?;
    let program = builder.build(AsciiWord, false, either)?;
    assert!(rt; first(rt.alloc(), &program, &Input::new(b"abc"))? == Some((1, 2)));
    Ok(())
}

#[test]
fn refuses_a_name_twice(rt: HostRuntime) -> Result<(), Fail> {
    let builder = Builder::new(rt.alloc());
    let one = builder.group(Some("x"), builder.empty())?;
    let other = builder.group(Some("x"), builder.empty())?;
    let whole = builder.then(one, other)?;
    assert!(rt;
        matches!(
            builder.build(AsciiWord, true, whole),
            Err(Error::RepeatedName)
        )
    );
    Ok(())
}

// `(a){0}(?:(b)|(c)){2}(d)`
fn repeated_groups(alloc: Global) -> Result<Program<AsciiWord>, Error> {
    let builder = Builder::new(alloc);
    let whole = four_groups(alloc, &builder)?;
    builder.build(AsciiWord, true, whole)
}

fn four_groups(alloc: Global, builder: &Builder<'static>) -> Result<Part<'static>, Error> {
    let a = group_of(builder, b"a")?;
    let none = builder.repeat(a, 0, Some(0))?;
    let twice = two_of_two(builder)?;
    let d = group_of(builder, b"d")?;
    builder.concat(vec![in alloc; none, twice, d]?)
}

fn group_of(builder: &Builder<'static>, text: &[u8]) -> Result<Part<'static>, Error> {
    let part = builder.literal(text)?;
    builder.group(None, part)
}

// `(?:(b)|(c)){2}`
fn two_of_two(builder: &Builder<'static>) -> Result<Part<'static>, Error> {
    let b = group_of(builder, b"b")?;
    let c = group_of(builder, b"c")?;
    let either = builder.either(b, c)?;
    builder.repeat(either, 2, Some(2))
}

#[test]
fn a_repeated_part_has_its_groups_once(rt: HostRuntime) -> Result<(), Fail> {
    let program = repeated_groups(rt.alloc())?;
    let mut captures = captures_of(rt.alloc(), &program)?;
    let found = first_span(rt.alloc(), &program, b"bcd", &mut captures)?;
    let (a, b) = (captures.get_group(1), captures.get_group(2));
    let (c, d) = (captures.get_group(3), captures.get_group(4));
    assert!(rt; [found, a, b, c, d] == [span(0, 3), None, span(0, 1), span(1, 2), span(2, 3)]);
    Ok(())
}

// `^` of lines, by its number: the assertion, after no byte, or in a list of one.
fn line_start<'n>(alloc: Global, builder: &Builder<'n>, number: usize) -> Result<Part<'n>, Error> {
    let start = builder.assertion(Look::StartLF);
    match number {
        0 => Ok(start),
        1 => builder.then(builder.literal(b"")?, start),
        _ => builder.concat(vec![in alloc; start]?),
    }
}

// `(?:^|a)*` of lines: what is repeated can match nothing.
fn repeated_nothing(alloc: Global, number: usize) -> Result<Program<AsciiWord>, Error> {
    let builder = Builder::new(alloc);
    let start = line_start(alloc, &builder, number)?;
    let a = builder.literal(b"a")?;
    let either = builder.either(start, a)?;
    let whole = builder.star(either)?;
    builder.build(AsciiWord, true, whole)
}

// The same with a list of parts.
fn repeated_list(alloc: Global) -> Result<Program<AsciiWord>, Error> {
    let builder = Builder::new(alloc);
    let start = builder.assertion(Look::StartLF);
    let a = builder.literal(b"a")?;
    let list = builder.one_of(vec![in alloc; start, a]?)?;
    let whole = builder.star(list)?;
    builder.build(AsciiWord, true, whole)
}

#[test]
fn a_star_of_what_can_be_empty_is_a_plus_or_nothing(rt: HostRuntime) -> Result<(), Fail> {
    let ends = [(0, 0), (1, 1), (2, 2), (3, 5), (6, 6)];
    let text = b"a\naaa\n";
    for number in 0..3_usize {
        let program = repeated_nothing(rt.alloc(), number)?;
        assert!(rt;
            finds(rt.alloc(), &program, Input::new(text), &ends)?,
            "{number}"
        );
    }
    let program = repeated_list(rt.alloc())?;
    assert!(rt; finds(rt.alloc(), &program, Input::new(text), &ends)?);
    Ok(())
}

// A repetition of `a`, by its number.
fn repetition<'n>(builder: &Builder<'n>, number: usize, part: Part<'n>) -> Result<Part<'n>, Error> {
    match number {
        0 => builder.star(part),
        1 => builder.star_lazy(part),
        2 => builder.plus(part),
        3 => builder.plus_lazy(part),
        4 => builder.optional(part),
        5 => builder.optional_lazy(part),
        6 => builder.repeat(part, 2, Some(3)),
        7 => builder.repeat_lazy(part, 2, Some(3)),
        8 => builder.repeat(part, 2, None),
        9 => builder.repeat_lazy(part, 0, None),
        10 => builder.repeat(part, 3, Some(1)),
        _ => builder.repeat(part, 0, Some(0)),
    }
}

// The ends of the first match of a repetition in four `a`.
fn first_repeated(alloc: Global, number: usize) -> Result<Option<(usize, usize)>, Fail> {
    let builder = Builder::new(alloc);
    let part = builder.literal(b"a")?;
    let whole = repetition(&builder, number, part)?;
    let program = builder.build(AsciiWord, true, whole)?;
    first(alloc, &program, &Input::new(b"aaaa"))
}

#[test]
fn repeats_as_often_as_is_asked(rt: HostRuntime) -> Result<(), Fail> {
    for (number, end) in [
        (0, 4),
        (1, 0),
        (2, 4),
        (3, 1),
        (4, 1),
        (5, 0),
        (6, 3),
        (7, 2),
        (8, 4),
        (9, 0),
        (10, 3),
        (11, 0),
    ] {
        assert!(rt;
            first_repeated(rt.alloc(), number)? == Some((0, end)),
            "{number}"
        );
    }
    Ok(())
}

// `((a)|\xFF|never)`, whose outer group is made last
fn nested(alloc: Global) -> Result<Program<AsciiWord>, Error> {
    let builder = Builder::new(alloc);
    let a = builder.literal(b"a")?;
    let a = builder.group(Some("inner"), a)?;
    let last = builder.literal(b"\xFF")?;
    let either = builder.either(a, last)?;
    let either = builder.either(either, builder.never())?;
    let whole = builder.group(Some("outer"), either)?;
    builder.build(AsciiWord, false, whole)
}

#[test]
fn groups_are_numbered_where_they_open(rt: HostRuntime) -> Result<(), Fail> {
    let program = nested(rt.alloc())?;
    let info = program.nfa().group_info();
    let outer = info.to_index(PatternID::ZERO, "outer");
    let inner = info.to_index(PatternID::ZERO, "inner");
    assert!(rt; [outer, inner] == [Some(1), Some(2)]);
    assert!(rt;
        finds(
            rt.alloc(),
            &program,
            Input::new(b"a\xFFb"),
            &[(0, 1), (1, 2)]
        )?
    );
    Ok(())
}

// `(?P<x>ab)` and `(?P<x>a)`
fn patterns(alloc: Global) -> Result<Program<AsciiWord>, Error> {
    let mut builder = Builder::new(alloc);
    let one = builder.literal(b"ab")?;
    let one = builder.group(Some("x"), one)?;
    builder.add_pattern(one)?;
    let other = builder.literal(b"a")?;
    let other = builder.group(Some("x"), other)?;
    builder.build(AsciiWord, true, other)
}

#[test]
fn builds_several_patterns(rt: HostRuntime) -> Result<(), Fail> {
    let program = patterns(rt.alloc())?;
    let mut captures = captures_of(rt.alloc(), &program)?;
    for (mode, pattern, end) in [
        (Anchored::No, 0, 2),
        (Anchored::Pattern(PatternID::must(1)), 1, 1),
    ] {
        let found = first_of_patterns(rt.alloc(), &program, mode, &mut captures)?;
        let group = captures.get_group_by_name("x");
        assert!(rt;
            found == Some((pattern, 0, end)) && group == span(0, end),
            "{mode:?}"
        );
    }
    Ok(())
}

// `a|(ab)|(c)|` of a list
fn one_of(alloc: Global) -> Result<Program<AsciiWord>, Error> {
    let builder = Builder::new(alloc);
    let a = builder.literal(b"a")?;
    let ab = group_of(&builder, b"ab")?;
    let c = group_of(&builder, b"c")?;
    let whole = builder.one_of(vec![in alloc; a, ab, c, builder.empty()]?)?;
    let whole = builder.star(whole)?;
    builder.build(AsciiWord, true, whole)
}

#[test]
fn prefers_the_first_of_a_list(rt: HostRuntime) -> Result<(), Fail> {
    let program = one_of(rt.alloc())?;
    let mut captures = captures_of(rt.alloc(), &program)?;
    let found = first_span(rt.alloc(), &program, b"aacab", &mut captures)?;
    let groups = [captures.get_group(1), captures.get_group(2)];
    assert!(rt; found == span(0, 4) && groups == [None, span(2, 3)]);
    Ok(())
}

#[test]
fn none_of_no_parts_matches(rt: HostRuntime) -> Result<(), Fail> {
    let builder = Builder::new(rt.alloc());
    let whole = builder.one_of(Vec::new(rt.alloc()))?;
    let program = builder.build(AsciiWord, true, whole)?;
    assert!(rt; first(rt.alloc(), &program, &Input::new(b"a"))? == None);
    Ok(())
}

#[test]
fn lines_end_where_the_matcher_says(rt: HostRuntime) -> Result<(), Fail> {
    let builder = Builder::new(rt.alloc());
    let start = builder.assertion(Look::StartLF);
    let a = builder.literal(b"a")?;
    let whole = builder.then(start, a)?;
    let mut matcher = LookMatcher::new(AsciiWord);
    matcher.set_line_terminator(b'\0');
    let program = builder.build_with(matcher, true, whole)?;
    assert!(rt; first(rt.alloc(), &program, &Input::new(b"b\na\0a"))? == Some((4, 5)));
    Ok(())
}

#[test]
fn makes_captures_for_all_groups(rt: HostRuntime) -> Result<(), Fail> {
    let program = groups(rt.alloc())?;
    let mut captures = program.captures(rt.alloc())?;
    assert!(rt; captures.slots().len() == 6 && !captures.is_match());
    let found = first_span(rt.alloc(), &program, b"-a", &mut captures)?;
    assert!(rt; found == span(1, 2) && captures.get_group(0) == span(1, 2));
    Ok(())
}

#[test]
fn a_part_says_whether_it_may_be_empty(rt: HostRuntime) -> Result<(), Fail> {
    let builder = Builder::new(rt.alloc());
    let letter = builder.range(b'a', b'z');
    let of_letter = says(&letter);
    let option = builder.optional(letter)?;
    let of_option = says(&option);
    let few = builder.repeat(option, 0, Some(3))?;
    let of_few = says(&few);
    let many = builder.plus(few)?;
    let of_many = says(&many);
    let of_all = says(&builder.then(builder.literal(b"-")?, many)?);
    assert!(rt; [of_letter, of_option, of_few] == [(false, true), (true, true), (true, true)]);
    assert!(rt; [of_many, of_all] == [(true, false), (false, false)]);
    Ok(())
}

// Whether a part may be empty, and whether its loops take bytes.
fn says(part: &Part<'_>) -> (bool, bool) {
    (part.may_be_empty(), part.loops_take_bytes())
}
