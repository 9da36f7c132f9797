//! Many states, rows, patterns and searches: what would take a minute, or be refused, where something was made again for each of them.
use crate::made::captures_of;
use rsc_engine::{Builder, Cache, Dfa, Error, Program, find};
use rsc_look::{AsciiWord, Look, UnicodeWord};
use rsc_primitives::PatternID;
use rsc_search::{Anchored, Input};
use std::alloc::Global;
use std::test::Fail;

// That many times `b`, or a group of `a`: of many states, though most searches come to few.
fn long_or_letter(alloc: Global, count: usize) -> Result<Program<AsciiWord>, Error> {
    let builder = Builder::new(alloc);
    let text = vec![in alloc; b'b'; count]?;
    let long = builder.literal(text.as_slice())?;
    let letter = builder.group(None, builder.range(b'a', b'a'))?;
    let whole = builder.either(long, letter)?;
    builder.build(AsciiWord, false, whole)
}

#[test]
fn a_program_of_more_than_65536_states_has_a_match(rt: HostRuntime) -> Result<(), Fail> {
    let program = long_or_letter(rt.alloc(), 70000)?;
    let mut captures = captures_of(rt.alloc(), &program)?;
    let found = find(rt.alloc(), &program, &Input::new(b"-a"), &mut captures)?;
    assert!(rt; found.is_some_and(|it| it.start() == 1));
    Ok(())
}

#[test]
fn a_second_search_takes_no_time_for_each_state(rt: HostRuntime) -> Result<(), Fail> {
    let program = long_or_letter(rt.alloc(), 200000)?;
    let mut captures = captures_of(rt.alloc(), &program)?;
    let mut cache = Cache::new(rt.alloc(), &program)?;
    for _ in 0..20000 {
        assert!(rt; cache.find(&Input::new(b"-a"), &mut captures)?.is_some());
    }
    Ok(())
}

#[test]
fn a_cache_keeps_the_rows_of_two_bytes_in_turn(rt: HostRuntime) -> Result<(), Fail> {
    let program = long_or_letter(rt.alloc(), 20000)?;
    let mut captures = captures_of(rt.alloc(), &program)?;
    let mut text = Vec::new(rt.alloc());
    for _ in 0..200000 {
        text.extend_from_slice(b"-b")?;
    }
    let mut cache = Cache::new(rt.alloc(), &program)?;
    assert!(rt;
        cache
            .find(&Input::new(text.as_slice()), &mut captures)?
            .is_none()
    );
    Ok(())
}

#[test]
fn bytes_above_7f_take_as_long_as_others(rt: HostRuntime) -> Result<(), Fail> {
    let program = long_or_letter(rt.alloc(), 20000)?;
    let text = vec![in rt.alloc(); 0xC3; 400000]?;
    let mut dfa = Dfa::new(rt.alloc(), &program, 1000);
    assert!(rt; !dfa.is_match(&Input::new(text.as_slice()))?);
    Ok(())
}

// That many times `b`, or an `a` beside a word's boundary, for which characters are looked at.
fn long_or_word(alloc: Global, count: usize) -> Result<Program<UnicodeWord>, Error> {
    let builder = Builder::new(alloc);
    let text = vec![in alloc; b'b'; count]?;
    let long = builder.literal(text.as_slice())?;
    let boundary = builder.assertion(Look::WordUnicode);
    let word = builder.then(boundary, builder.range(b'a', b'a'))?;
    let whole = builder.either(long, word)?;
    builder.build(UnicodeWord, false, whole)
}

#[test]
fn steps_beside_bytes_above_7f_are_kept(rt: HostRuntime) -> Result<(), Fail> {
    let program = long_or_word(rt.alloc(), 20000)?;
    let mut text = Vec::new(rt.alloc());
    for _ in 0..50000 {
        text.extend_from_slice("яд".as_bytes())?;
    }
    let mut dfa = Dfa::new(rt.alloc(), &program, 1000);
    assert!(rt; !dfa.is_match(&Input::new(text.as_slice()))?);
    Ok(())
}

#[test]
fn each_of_many_rows_is_led_to(rt: HostRuntime) -> Result<(), Fail> {
    let program = long_or_letter(rt.alloc(), 2000)?;
    let text = vec![in rt.alloc(); b'b'; 2000]?;
    let input = Input::new(text.as_slice()).anchored(Anchored::Yes);
    let mut dfa = Dfa::new(rt.alloc(), &program, 10000);
    for _ in 0..1000 {
        assert!(rt; dfa.leftmost_end(&input)? == Some(2000));
    }
    Ok(())
}

#[test]
fn as_many_rows_as_are_kept_stay_after_a_match(rt: HostRuntime) -> Result<(), Fail> {
    let program = long_or_letter(rt.alloc(), 300)?;
    let text = vec![in rt.alloc(); b'b'; 300]?;
    let input = Input::new(text.as_slice()).anchored(Anchored::Yes);
    let mut captures = captures_of(rt.alloc(), &program)?;
    let mut dfa = Dfa::new(rt.alloc(), &program, 1000);
    for _ in 0..1000 {
        assert!(rt; dfa.find(&input, &mut captures)?.is_some());
    }
    Ok(())
}

// Patterns of an `x` and two bytes each, and a last `y`.
fn patterns(alloc: Global, count: usize) -> Result<Program<AsciiWord>, Error> {
    let mut builder = Builder::new(alloc);
    for number in 1..count {
        let first = u8::try_from(number / 251 % 251).unwrap_or(0);
        let second = u8::try_from(number % 251).unwrap_or(0);
        let part = builder.literal(&[b'x', first, second])?;
        builder.add_pattern(part)?;
    }
    let last = builder.literal(b"y")?;
    builder.build(AsciiWord, false, last)
}

#[test]
fn searches_for_two_patterns_in_turn_make_no_rows_again(rt: HostRuntime) -> Result<(), Fail> {
    let program = patterns(rt.alloc(), 2000)?;
    let mut dfa = Dfa::new(rt.alloc(), &program, 1000);
    for _ in 0..10000 {
        for number in 0..2_u8 {
            let mode = Anchored::Pattern(PatternID::from(number));
            let input = Input::new(&[b'x', 0, 1]).anchored(mode);
            assert!(rt; dfa.is_match(&input)? == (number == 0));
        }
    }
    Ok(())
}

#[test]
fn what_each_match_has_is_looked_for_once(rt: HostRuntime) -> Result<(), Fail> {
    let builder = Builder::new(rt.alloc());
    let mut letters = Vec::new(rt.alloc());
    for byte in *b"abcdefgh" {
        letters.push(builder.range(byte, byte))?;
    }
    let whole = builder.one_of(letters)?;
    let program = builder.build(AsciiWord, false, whole)?;
    let text = vec![in rt.alloc(); b'a'; 5000]?;
    let mut dfa = Dfa::new(rt.alloc(), &program, 1000);
    for _ in 0..100000 {
        assert!(rt; dfa.is_match(&Input::new(text.as_slice()))?);
    }
    Ok(())
}

#[test]
fn the_first_end_suffices(rt: HostRuntime) -> Result<(), Fail> {
    let builder = Builder::new(rt.alloc());
    let letters = builder.plus(builder.range(b'a', b'a'))?;
    let program = builder.build(AsciiWord, false, letters)?;
    let text = vec![in rt.alloc(); b'a'; 2000000]?;
    let mut dfa = Dfa::new(rt.alloc(), &program, 1000);
    for _ in 0..1000 {
        assert!(rt; dfa.is_match(&Input::new(text.as_slice()))?);
    }
    Ok(())
}
