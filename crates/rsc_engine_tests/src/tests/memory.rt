//! How much memory searches take, by what the system says of the process: a page is 4 KiB.
use crate::made::captures_of;
use rsc_engine::{Builder, Cache, Dfa, Error, Program};
use rsc_look::{AsciiWord, Look, UnicodeWord};
use rsc_search::Input;
use std::alloc::Global;
use std::fs;
use std::test::Fail;

// How many pages of memory the process has.
fn pages(rt: &HostRuntime) -> Result<usize, Fail> {
    let text = fs::read_to_string(rt, "/proc/self/statm")?;
    let second = text.split(' ').nth(1);
    Ok(second.and_then(|it| it.parse().ok()).unwrap_or(usize::MAX))
}

// An `a` beside a word's boundary, for which characters are looked at.
fn word(alloc: Global) -> Result<Program<UnicodeWord>, Error> {
    let builder = Builder::new(alloc);
    let boundary = builder.assertion(Look::WordUnicode);
    let whole = builder.then(boundary, builder.range(b'a', b'a'))?;
    builder.build(UnicodeWord, false, whole)
}

#[test]
fn a_dropped_dfa_keeps_no_memory(rt: HostRuntime) -> Result<(), Fail> {
    // A step beside a byte above 7F has a list of 4,096 places, so all tables would take 1 GB together.
    let program = word(rt.alloc())?;
    for _ in 0..10000 {
        let mut dfa = Dfa::new(rt.alloc(), &program, 1000);
        assert!(rt; !dfa.is_match(&Input::new("я".as_bytes()))?);
    }
    assert!(rt; pages(&rt)? < 150000);
    Ok(())
}

// `[a-z]+([0-9])`
fn letters_and_group(alloc: Global) -> Result<Program<AsciiWord>, Error> {
    let builder = Builder::new(alloc);
    let letters = builder.plus(builder.range(b'a', b'z'))?;
    let digit = builder.group(None, builder.range(b'0', b'9'))?;
    let whole = builder.then(letters, digit)?;
    builder.build(AsciiWord, false, whole)
}

// How many more pages the process has after a search in a text, whose match ends at a position; without such a match the greatest number.
fn more_pages(rt: &HostRuntime, text: &[u8], end: usize) -> Result<usize, Fail> {
    let program = letters_and_group(rt.alloc())?;
    let mut captures = captures_of(rt.alloc(), &program)?;
    let mut cache = Cache::new(rt.alloc(), &program)?;
    let before = pages(rt)?;
    let found = cache.find(&Input::new(text), &mut captures)?;
    if found.is_some_and(|it| it.end() == end) {
        Ok(pages(rt)?.saturating_sub(before))
    } else {
        Ok(usize::MAX)
    }
}

#[test]
fn a_match_takes_4_bytes_for_each_of_its_own(rt: HostRuntime) -> Result<(), Fail> {
    let mut text = vec![in rt.alloc(); b'a'; 4000000]?;
    text.push(b'0')?;
    // 16 MB in the end, and the shorter lists before, each half as long.
    assert!(rt; more_pages(&rt, text.as_slice(), 4000001)? < 16384);
    Ok(())
}

#[test]
fn what_is_behind_a_match_takes_no_memory(rt: HostRuntime) -> Result<(), Fail> {
    let mut text = vec![in rt.alloc(); b' '; 40000000]?;
    text[0] = b'a';
    text[1] = b'0';
    assert!(rt; more_pages(&rt, text.as_slice(), 2)? < 1024);
    Ok(())
}
