use rsc_captures::GroupInfo;
use rsc_engine::{Builder, Cache, Dfa, Error, Lines, Matches, Program, find};
use rsc_look::{AsciiWord, Look, LookMatcher, UnicodeWord};
use rsc_nfa::{Nfa, State};
use rsc_primitives::{PatternID, StateID};
use rsc_search::{Input, Span};
use std::test::Fail;

#[test]
fn program(rt: HostRuntime) -> Result<(), Fail> {
    // `Program::new`
    // [a-z]
    let info = GroupInfo::new(rt.alloc(), &[&[None]])?;
    let states = [
        State::ByteRange {
            start: b'a',
            end: b'z',
            next: StateID::must(1),
        },
        State::Accept {
            pattern: PatternID::ZERO,
        },
    ];
    let nfa = Nfa::new(rt.alloc(), info, LookMatcher::new(AsciiWord), &states)?;
    let made = Program::new(nfa, StateID::ZERO, true);
    assert!(rt; made.is_some());
    if let Some(program) = &made {
        let mut captures = program.captures(rt.alloc())?;
        let found = find(rt.alloc(), program, &Input::new(b"-q"), &mut captures)?;
        assert!(rt; found.is_some_and(|it| it.start() == 1 && it.end() == 2));
    }
    Ok(())
}

#[test]
fn built(rt: HostRuntime) -> Result<(), Fail> {
    // `Program`
    // ([a-z])
    let builder = Builder::new(rt.alloc());
    let letter = builder.group(None, builder.range(b'a', b'z'))?;
    let program = builder.build(AsciiWord, true, letter)?;
    let captures = program.captures(rt.alloc())?;
    assert!(rt; captures.group_info().group_len(PatternID::ZERO) == 2);
    // 00 to `, a to z, { to FF, and the end of the input.
    assert!(rt; program.nfa().classes().alphabet_len() == 4);
    Ok(())
}

#[test]
fn builder(rt: HostRuntime) -> Result<(), Fail> {
    // `Builder`
    // (?P<key>[a-z]+)=
    let builder = Builder::new(rt.alloc());
    let letters = builder.plus(builder.range(b'a', b'z'))?;
    let key = builder.group(Some("key"), letters)?;
    let whole = builder.then(key, builder.literal(b"=")?)?;
    let program = builder.build(AsciiWord, true, whole)?;
    let mut captures = program.captures(rt.alloc())?;
    let found = find(rt.alloc(), &program, &Input::new(b"-ab=12"), &mut captures)?;
    assert!(rt; found.is_some_and(|it| it.start() == 1 && it.end() == 4));
    assert!(rt; captures.get_group_by_name("key") == Some(Span { start: 1, end: 3 }));
    Ok(())
}

#[test]
fn part(rt: HostRuntime) -> Result<(), Fail> {
    // `Part`
    let builder = Builder::new(rt.alloc());
    let digits = builder.star(builder.range(b'0', b'9'))?;
    assert!(rt; digits.may_be_empty() && digits.loops_take_bytes());
    let twice = builder.star(digits)?;
    assert!(rt; !twice.loops_take_bytes());
    Ok(())
}

#[test]
fn limited(rt: HostRuntime) -> Result<(), Fail> {
    // `Builder::limit_states`
    // a{1000}, with a record at each end of the match, and the state of the match
    let mut builder = Builder::new(rt.alloc());
    let whole = builder.repeat(builder.range(b'a', b'a'), 1000, Some(1000))?;
    builder.limit_states(1002);
    assert!(rt; matches!(builder.build(AsciiWord, true, whole), Err(Error::TooLarge)));
    let mut builder = Builder::new(rt.alloc());
    let whole = builder.repeat(builder.range(b'a', b'a'), 1000, Some(1000))?;
    builder.limit_states(1003);
    let program = builder.build(AsciiWord, true, whole)?;
    assert!(rt; program.state_len() == 1003);
    Ok(())
}

#[test]
fn patterns(rt: HostRuntime) -> Result<(), Fail> {
    // `Builder::build`
    // The patterns `if` and [a-z]+, in this order.
    let mut builder = Builder::new(rt.alloc());
    let keyword = builder.literal(b"if")?;
    builder.add_pattern(keyword)?;
    let letters = builder.plus(builder.range(b'a', b'z'))?;
    let program = builder.build(AsciiWord, true, letters)?;
    let mut captures = program.captures(rt.alloc())?;
    let found = find(rt.alloc(), &program, &Input::new(b"iff"), &mut captures)?;
    // Both match from 0, and the first one is preferred.
    assert!(rt; found.is_some_and(|it| it.pattern() == PatternID::ZERO && it.end() == 2));
    Ok(())
}

#[test]
fn first(rt: HostRuntime) -> Result<(), Fail> {
    // `find`
    // [a-z]+
    let builder = Builder::new(rt.alloc());
    let letters = builder.plus(builder.range(b'a', b'z'))?;
    let program = builder.build(AsciiWord, true, letters)?;
    let mut captures = program.captures(rt.alloc())?;
    let found = find(rt.alloc(), &program, &Input::new(b"12 ab"), &mut captures)?;
    assert!(rt; found.map(|it| it.span()) == Some(Span { start: 3, end: 5 }));
    assert!(rt; find(rt.alloc(), &program, &Input::new(b"12"), &mut captures)?.is_none());
    Ok(())
}

#[test]
fn matches(rt: HostRuntime) -> Result<(), Fail> {
    // `Matches`
    // [a-z]+
    let builder = Builder::new(rt.alloc());
    let letters = builder.plus(builder.range(b'a', b'z'))?;
    let program = builder.build(AsciiWord, true, letters)?;
    let mut captures = program.captures(rt.alloc())?;
    let mut matches = Matches::new(rt.alloc(), &program, Input::new(b"ab 12 c"))?;
    let ab = matches.next(&mut captures)?;
    assert!(rt; ab.map(|it| it.span()) == Some(Span { start: 0, end: 2 }));
    let c = matches.next(&mut captures)?;
    assert!(rt; c.map(|it| it.span()) == Some(Span { start: 6, end: 7 }));
    assert!(rt; matches.next(&mut captures)?.is_none());
    Ok(())
}

#[test]
fn cache(rt: HostRuntime) -> Result<(), Fail> {
    // `Cache`
    // [a-z]+
    let builder = Builder::new(rt.alloc());
    let letters = builder.plus(builder.range(b'a', b'z'))?;
    let program = builder.build(AsciiWord, true, letters)?;
    let mut captures = program.captures(rt.alloc())?;
    let mut cache = Cache::new(rt.alloc(), &program)?;
    assert!(rt; cache.find(&Input::new(b"1"), &mut captures)?.is_none());
    let found = cache.find(&Input::new(b"1 a"), &mut captures)?;
    assert!(rt; found.is_some_and(|it| it.start() == 2));
    Ok(())
}

#[test]
fn reused(rt: HostRuntime) -> Result<(), Fail> {
    // `Cache::matches`
    // [a-z]+
    let builder = Builder::new(rt.alloc());
    let letters = builder.plus(builder.range(b'a', b'z'))?;
    let program = builder.build(AsciiWord, true, letters)?;
    let mut captures = program.captures(rt.alloc())?;
    let mut matches = Cache::new(rt.alloc(), &program)?.matches(Input::new(b"a"))?;
    assert!(rt; matches.next(&mut captures)?.is_some());
    assert!(rt; matches.next(&mut captures)?.is_none());
    // The next haystack.
    let mut matches = matches.into_cache().matches(Input::new(b"1"))?;
    assert!(rt; matches.next(&mut captures)?.is_none());
    Ok(())
}

#[test]
fn dfa(rt: HostRuntime) -> Result<(), Fail> {
    // `Dfa`
    // [a-z]+
    let builder = Builder::new(rt.alloc());
    let letters = builder.plus(builder.range(b'a', b'z'))?;
    let program = builder.build(AsciiWord, true, letters)?;
    let mut dfa = Dfa::new(rt.alloc(), &program, 1000);
    assert!(rt; dfa.is_match(&Input::new(b"1 ab"))? && !dfa.is_match(&Input::new(b"1"))?);
    assert!(rt; dfa.leftmost_end(&Input::new(b"1 ab"))? == Some(4));
    Ok(())
}

#[test]
fn ends(rt: HostRuntime) -> Result<(), Fail> {
    // `Dfa::earliest_end`
    // [a-z]+, and \b, which looks at characters.
    let mut builder = Builder::new(rt.alloc());
    let letters = builder.plus(builder.range(b'a', b'z'))?;
    builder.add_pattern(letters)?;
    let boundary = builder.assertion(Look::WordUnicode);
    let program = builder.build(UnicodeWord, true, boundary)?;
    let mut dfa = Dfa::new(rt.alloc(), &program, 1000);
    assert!(rt; dfa.earliest_end(&Input::new(b"- a"))? == Some(2));
    assert!(rt; dfa.earliest_end(&Input::new(b"--"))? == None);
    assert!(rt; dfa.earliest_end(&Input::new("-é".as_bytes()))? == Some(1));
    Ok(())
}

#[test]
fn lines(rt: HostRuntime) -> Result<(), Fail> {
    // `Lines`
    // b[a-z]
    let builder = Builder::new(rt.alloc());
    let letter = builder.literal(b"b")?;
    let pair = builder.then(letter, builder.range(b'a', b'z'))?;
    let program = builder.build(AsciiWord, true, pair)?;
    let dfa = Dfa::new(rt.alloc(), &program, 1000);
    let mut lines = Lines::new(dfa, b"ab\nabc\nbd");
    assert!(rt; lines.next()? == Some(Span { start: 3, end: 6 }));
    assert!(rt; lines.next()? == Some(Span { start: 7, end: 9 }));
    assert!(rt; lines.next()? == None);
    Ok(())
}

#[test]
fn error(rt: HostRuntime) -> Result<(), Fail> {
    // `Error`
    let builder = Builder::new(rt.alloc());
    let one = builder.group(Some("x"), builder.empty())?;
    let other = builder.group(Some("x"), builder.empty())?;
    let both = builder.then(one, other)?;
    assert!(rt;
        matches!(
            builder.build(AsciiWord, true, both),
            Err(Error::RepeatedName)
        )
    );
    Ok(())
}

#[test]
fn word_class(rt: HostRuntime) -> Result<(), Fail> {
    // `AsciiCompatible`
    // The searches take a program over `UnicodeWord`, since it is such a predicate.
    let builder = Builder::new(rt.alloc());
    let start = builder.assertion(Look::WordStartUnicode);
    let program = builder.build(UnicodeWord, true, start)?;
    let mut captures = program.captures(rt.alloc())?;
    let found = find(
        rt.alloc(),
        &program,
        &Input::new("-é".as_bytes()),
        &mut captures,
    )?;
    assert!(rt; found.is_some_and(|it| it.start() == 1));
    Ok(())
}
