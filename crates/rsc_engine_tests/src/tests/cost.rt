//! What would take a minute, where bytes were read again for each match, or one after the other, or rows were made again.
use crate::made::{captures_of, captures_of_ends};
use rsc_captures::Captures;
use rsc_engine::{Builder, Cache, Dfa, Error, Matches, Program, find};
use rsc_look::AsciiWord;
use rsc_search::{Anchored, Input};
use std::alloc::Global;
use std::test::Fail;

// `[a-z]*[0-9]|[a-z]`
fn far_or_near(alloc: Global) -> Result<Program<AsciiWord>, Error> {
    let builder = Builder::new(alloc);
    let letters = builder.star(builder.range(b'a', b'z'))?;
    let far = builder.then(letters, builder.range(b'0', b'9'))?;
    let whole = builder.either(far, builder.range(b'a', b'z'))?;
    builder.build(AsciiWord, false, whole)
}

// How many matches are found in that many letters, and a hyphen behind them.
fn matches_in(alloc: Global, count: usize, hyphen: bool) -> Result<usize, Fail> {
    let program = far_or_near(alloc)?;
    let mut text = vec![in alloc; b'a'; count]?;
    if hyphen {
        text.push(b'-')?;
    }
    let mut captures = captures_of(alloc, &program)?;
    let mut matches = Matches::new(alloc, &program, Input::new(text.as_slice()))?;
    let mut found = 0_usize;
    for _ in 0..count {
        if matches.next(&mut captures)?.is_some() {
            found = found.saturating_add(1);
        }
    }
    Ok(found)
}

#[test]
fn an_iteration_reads_no_text_for_each_match(rt: HostRuntime) -> Result<(), Fail> {
    assert!(rt; matches_in(rt.alloc(), 60000, false)? == 60000);
    Ok(())
}

#[test]
fn an_iteration_reads_no_word_for_each_match(rt: HostRuntime) -> Result<(), Fail> {
    assert!(rt; matches_in(rt.alloc(), 60000, true)? == 60000);
    Ok(())
}

// `[a-z]{1,20}[0-9]`
fn letters_and_digit(alloc: Global) -> Result<Program<AsciiWord>, Error> {
    let builder = Builder::new(alloc);
    let letters = builder.repeat(builder.range(b'a', b'z'), 1, Some(20))?;
    let whole = builder.then(letters, builder.range(b'0', b'9'))?;
    builder.build(AsciiWord, false, whole)
}

// Without a table each step of the text would be made.
#[test]
fn a_text_that_lacks_what_each_match_has_is_looked_through(rt: HostRuntime) -> Result<(), Fail> {
    let program = letters_and_digit(rt.alloc())?;
    let mut text = Vec::new(rt.alloc());
    for _ in 0..10000 {
        text.extend_from_slice(b"abcdefghijklmnopqrs ")?;
    }
    let mut dfa = Dfa::new(rt.alloc(), &program, 0);
    assert!(rt; !dfa.is_match(&Input::new(text.as_slice()))?);
    Ok(())
}

// Twelve ranges, each behind a fork.
const RANGES: [(u8, u8); 12] = [
    (b'a', b'a'),
    (b'c', b'c'),
    (b'e', b'e'),
    (b'g', b'g'),
    (b'i', b'i'),
    (b'k', b'k'),
    (b'm', b'm'),
    (b'o', b'o'),
    (b'q', b'q'),
    (b's', b's'),
    (b'u', b'u'),
    (b'w', b'w'),
];

// `[aceg..w]+([0-9])?`
fn letters_and_group(alloc: Global) -> Result<Program<AsciiWord>, Error> {
    let builder = Builder::new(alloc);
    let letters = builder.plus(builder.class(&RANGES)?)?;
    let digit = builder.group(None, builder.range(b'0', b'9'))?;
    let digit = builder.repeat(digit, 0, Some(1))?;
    let whole = builder.then(letters, digit)?;
    builder.build(AsciiWord, false, whole)
}

// `([A-Z~])[aceg..w]*`: no small range has all bytes with which it begins.
fn group_and_letters(alloc: Global) -> Result<Program<AsciiWord>, Error> {
    let builder = Builder::new(alloc);
    let capital = builder.group(None, builder.class(&[(b'A', b'Z'), (b'~', b'~')])?)?;
    let letters = builder.star(builder.class(&RANGES)?)?;
    let whole = builder.then(capital, letters)?;
    builder.build(AsciiWord, false, whole)
}

#[test]
fn a_long_text_is_read_along_known_rows(rt: HostRuntime) -> Result<(), Fail> {
    let program = group_and_letters(rt.alloc())?;
    let text = vec![in rt.alloc(); b' '; 1000000]?;
    let mut dfa = Dfa::new(rt.alloc(), &program, 1000);
    assert!(rt; !dfa.is_match(&Input::new(text.as_slice()))?);
    Ok(())
}

#[test]
fn a_text_without_a_first_byte_is_looked_through(rt: HostRuntime) -> Result<(), Fail> {
    // `[A-Z]`
    let builder = Builder::new(rt.alloc());
    let capital = builder.range(b'A', b'Z');
    let program = builder.build(AsciiWord, false, capital)?;
    let text = vec![in rt.alloc(); b' '; 4000000]?;
    let mut dfa = Dfa::new(rt.alloc(), &program, 1000);
    for _ in 0..100 {
        assert!(rt; !dfa.is_match(&Input::new(text.as_slice()))?);
    }
    Ok(())
}

// `[a-z]{1,60}`
fn many_states(alloc: Global) -> Result<Program<AsciiWord>, Error> {
    let builder = Builder::new(alloc);
    let letters = builder.repeat(builder.range(b'a', b'z'), 1, Some(60))?;
    builder.build(AsciiWord, false, letters)
}

#[test]
fn rows_serve_the_next_search(rt: HostRuntime) -> Result<(), Fail> {
    let program = many_states(rt.alloc())?;
    let mut captures = captures_of(rt.alloc(), &program)?;
    let mut cache = Cache::new(rt.alloc(), &program)?;
    for _ in 0..20000 {
        assert!(rt;
            cache
                .find(&Input::new(b"- abc -"), &mut captures)?
                .is_some()
        );
    }
    Ok(())
}

#[test]
fn rows_serve_the_next_iteration(rt: HostRuntime) -> Result<(), Fail> {
    let program = many_states(rt.alloc())?;
    let mut captures = captures_of(rt.alloc(), &program)?;
    let mut cache = Cache::new(rt.alloc(), &program)?;
    for _ in 0..20000 {
        let mut matches = cache.matches(Input::new(b"- abc -"))?;
        assert!(rt; matches.next(&mut captures)?.is_some());
        cache = matches.into_cache();
    }
    Ok(())
}

// Whether one match is all of a text that goes on with that many letters.
fn is_all(
    alloc: Global,
    program: &Program<AsciiWord>,
    first: u8,
    captures: &mut Captures,
) -> Result<bool, Fail> {
    let mut text = vec![in alloc; b'w'; 1000000]?;
    text[0] = first;
    let input = Input::new(text.as_slice()).anchored(Anchored::Yes);
    let found = find(alloc, program, &input, captures)?;
    Ok(found.is_some_and(|it| it.len() == text.len()))
}

#[test]
fn the_ends_of_a_long_match_are_all_that_is_looked_for(rt: HostRuntime) -> Result<(), Fail> {
    let program = letters_and_group(rt.alloc())?;
    let mut captures = captures_of_ends(rt.alloc(), &program)?;
    assert!(rt; is_all(rt.alloc(), &program, b'w', &mut captures)?);
    Ok(())
}

#[test]
fn behind_its_last_group_a_long_match_is_not_gone_along(rt: HostRuntime) -> Result<(), Fail> {
    let program = group_and_letters(rt.alloc())?;
    let mut captures = captures_of(rt.alloc(), &program)?;
    assert!(rt; is_all(rt.alloc(), &program, b'A', &mut captures)?);
    Ok(())
}
