//! How many states the builder makes, and when it refuses to.
use rsc_engine::{Builder, Error, Part};
use rsc_look::{AsciiWord, Look};
use std::alloc::Global;
use std::test::Fail;

// a part, and how many states it has
fn leaf(builder: &Builder<'static>, number: usize) -> Result<(Part<'static>, usize), Error> {
    match number {
        0 => Ok((builder.empty(), 0)),
        1 => Ok((builder.never(), 1)),
        2 => Ok((builder.range(b'a', b'z'), 1)),
        3 => Ok((
            builder.class(&[(b'a', b'c'), (b'x', b'z'), (b'0', b'9')])?,
            5,
        )),
        4 => Ok((builder.literal(b"abcd")?, 4)),
        _ => Ok((builder.assertion(Look::Start), 1)),
    }
}

// `(ab|c)`, 6 states, or `a?`, 2 states, repeated
fn repeated(builder: &Builder<'static>, number: usize) -> Result<(Part<'static>, usize), Error> {
    let one = builder.literal(b"ab")?;
    let either = builder.either(one, builder.literal(b"c")?)?;
    let group = builder.group(None, either)?;
    match number {
        0 => Ok((group, 6)),
        1 => Ok((builder.star(group)?, 7)),
        2 => Ok((builder.plus(group)?, 7)),
        3 => Ok((builder.repeat(group, 3, None)?, 19)),
        4 => Ok((builder.repeat(group, 2, Some(5))?, 33)),
        5 => Ok((builder.repeat(group, 4, Some(2))?, 24)),
        6 => Ok((builder.repeat(group, 0, Some(0))?, 0)),
        _ => {
            let optional = builder.optional(builder.range(b'a', b'a'))?;
            Ok((builder.star_lazy(optional)?, 4))
        }
    }
}

// whether a program of the part has that many states besides three, and none is built with a limit below
fn has_size(alloc: Global, made: (Part<'static>, usize)) -> Result<bool, Fail> {
    let (part, size) = made;
    let mut builder = Builder::new(alloc);
    builder.limit_states(size.saturating_add(3));
    let program = builder.build(AsciiWord, true, part)?;
    Ok(program.state_len() == size.saturating_add(3))
}

fn is_refused_below(alloc: Global, made: (Part<'static>, usize)) -> bool {
    let (part, size) = made;
    let mut builder = Builder::new(alloc);
    builder.limit_states(size.saturating_add(2));
    matches!(builder.build(AsciiWord, true, part), Err(Error::TooLarge))
}

#[test]
fn a_part_has_as_many_states_as_its_size(rt: HostRuntime) -> Result<(), Fail> {
    let builder = Builder::new(rt.alloc());
    for number in 0..6 {
        assert!(rt;
            has_size(rt.alloc(), leaf(&builder, number)?)?,
            "leaf {number}"
        );
        assert!(rt;
            is_refused_below(rt.alloc(), leaf(&builder, number)?),
            "leaf {number}"
        );
    }
    for number in 0..8 {
        assert!(rt;
            has_size(rt.alloc(), repeated(&builder, number)?)?,
            "repeated {number}"
        );
        assert!(rt;
            is_refused_below(rt.alloc(), repeated(&builder, number)?),
            "repeated {number}"
        );
    }
    Ok(())
}

#[test]
fn patterns_have_a_choice_between_them(rt: HostRuntime) -> Result<(), Fail> {
    let mut builder = Builder::new(rt.alloc());
    let first = builder.range(b'a', b'a');
    builder.add_pattern(first)?;
    let second = builder.range(b'b', b'b');
    builder.add_pattern(second)?;
    builder.limit_states(14);
    let last = builder.range(b'c', b'c');
    let program = builder.build(AsciiWord, true, last)?;
    assert!(rt; program.state_len() == 14);
    Ok(())
}

#[test]
fn refuses_a_great_count_at_once(rt: HostRuntime) -> Result<(), Fail> {
    for count in [4294967296, 1 << 63, usize::MAX] {
        let builder = Builder::new(rt.alloc());
        let pair = builder.literal(b"ab")?;
        let whole = builder.repeat(pair, count, Some(count))?;
        let twice = builder.repeat(whole, count, None)?;
        assert!(rt;
            matches!(builder.build(AsciiWord, true, twice), Err(Error::TooLarge)),
            "{count}"
        );
    }
    Ok(())
}

// `[b-a](?P<n>a)(?P<n>a)`, or with two names: 7 states
fn named(builder: &Builder<'static>, names: bool) -> Result<Part<'static>, Error> {
    let one = builder.group(Some("n"), builder.range(b'a', b'a'))?;
    let name = if names { "n" } else { "m" };
    let other = builder.group(Some(name), builder.range(b'a', b'a'))?;
    let both = builder.then(one, other)?;
    builder.then(builder.range(b'b', b'a'), both)
}

#[test]
fn too_large_comes_before_a_repeated_name(rt: HostRuntime) -> Result<(), Fail> {
    let mut builder = Builder::new(rt.alloc());
    builder.limit_states(9);
    let whole = named(&builder, true)?;
    assert!(rt; matches!(builder.build(AsciiWord, true, whole), Err(Error::TooLarge)));
    let mut builder = Builder::new(rt.alloc());
    builder.limit_states(10);
    let whole = named(&builder, true)?;
    assert!(rt;
        matches!(
            builder.build(AsciiWord, true, whole),
            Err(Error::RepeatedName)
        )
    );
    let builder = Builder::new(rt.alloc());
    let whole = named(&builder, false)?;
    assert!(rt; matches!(builder.build(AsciiWord, true, whole), Ok(_)));
    Ok(())
}

#[test]
fn more_than_65536_patterns_are_built(rt: HostRuntime) -> Result<(), Fail> {
    let mut builder = Builder::new(rt.alloc());
    for _ in 1..70000 {
        let part = builder.range(b'a', b'a');
        builder.add_pattern(part)?;
    }
    let last = builder.range(b'b', b'b');
    let program = builder.build(AsciiWord, false, last)?;
    assert!(rt; program.nfa().group_info().pattern_len() == 70000);
    Ok(())
}

#[test]
fn more_than_65536_groups_are_built(rt: HostRuntime) -> Result<(), Fail> {
    let builder = Builder::new(rt.alloc());
    let mut parts = Vec::new(rt.alloc());
    for _ in 0..70000 {
        parts.push(builder.group(None, builder.empty())?)?;
    }
    let whole = builder.concat(parts)?;
    assert!(rt; builder.build(AsciiWord, false, whole)?.state_len() == 140003);
    Ok(())
}

#[test]
fn a_long_literal_is_built_in_time(rt: HostRuntime) -> Result<(), Fail> {
    let builder = Builder::new(rt.alloc());
    let text = vec![in rt.alloc(); b'b'; 500000]?;
    let long = builder.literal(text.as_slice())?;
    assert!(rt; builder.build(AsciiWord, false, long)?.state_len() == 500003);
    Ok(())
}

#[test]
fn a_part_of_many_levels_is_measured_once(rt: HostRuntime) -> Result<(), Fail> {
    let builder = Builder::new(rt.alloc());
    let mut part = builder.range(b'a', b'a');
    for _ in 0..64 {
        part = builder.optional(part)?;
    }
    assert!(rt; builder.build(AsciiWord, false, part)?.state_len() == 68);
    Ok(())
}
