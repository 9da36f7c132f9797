//! Iterations over texts in which a pass forward reads to the end for each match, so that all that is left is looked at once.
use crate::made::captures_of;
use rsc_engine::{Builder, Cache, Error, Matches, Program};
use rsc_look::AsciiWord;
use rsc_search::{Anchored, Input, Match, Span};
use std::alloc::Global;
use std::test::Fail;

// How many letters there are at first.
const LETTERS: usize = 5000;

// `[a-z]*[0-9]|a`, and `(b)(c?)`.
fn far_and_groups(alloc: Global) -> Result<Program<AsciiWord>, Error> {
    let mut builder = Builder::new(alloc);
    let letters = builder.star(builder.range(b'a', b'z'))?;
    let far = builder.then(letters, builder.range(b'0', b'9'))?;
    let near = builder.either(far, builder.range(b'a', b'a'))?;
    builder.add_pattern(near)?;
    let first = builder.group(None, builder.range(b'b', b'b'))?;
    let last = builder.optional(builder.range(b'c', b'c'))?;
    let last = builder.group(None, last)?;
    let both = builder.then(first, last)?;
    builder.build(AsciiWord, false, both)
}

// `[a-z]*[0-9]|x*`, over text.
fn far_or_empty(alloc: Global) -> Result<Program<AsciiWord>, Error> {
    let builder = Builder::new(alloc);
    let letters = builder.star(builder.range(b'a', b'z'))?;
    let far = builder.then(letters, builder.range(b'0', b'9'))?;
    let near = builder.star(builder.range(b'x', b'x'))?;
    let whole = builder.either(far, near)?;
    builder.build(AsciiWord, true, whole)
}

fn text_of(alloc: Global, last: &[u8]) -> Result<Vec<u8>, Error> {
    let mut text = vec![in alloc; b'a'; LETTERS]?;
    for byte in last {
        text.push(*byte)?;
    }
    Ok(text)
}

// Whether each match behind the letters is the one that a search by itself finds from where the one before ended, with its groups; and they come to the end.
fn are_those_of_searches(alloc: Global, mode: &Anchored) -> Result<bool, Fail> {
    let program = far_and_groups(alloc)?;
    let text = text_of(alloc, b"bcabbcaabcbb")?;
    let mut captures = captures_of(alloc, &program)?;
    let mut wanted = captures_of(alloc, &program)?;
    let mut cache = Cache::new(alloc, &program)?;
    let whole = Input::new(text.as_slice()).anchored(*mode);
    let mut matches = Matches::new(alloc, &program, whole)?;
    let mut at = 0;
    for _ in 0..text.len() {
        let Some(found) = matches.next(&mut captures)? else {
            break;
        };
        if at >= LETTERS && at <= text.len() {
            let mut rest = Input::new(text.as_slice()).anchored(*mode);
            rest.set_start(at);
            let alone = cache.find(&rest, &mut wanted)?;
            if alone != Some(found) || captures.slots() != wanted.slots() {
                return Ok(false);
            }
        }
        at = found.end();
    }
    Ok(at == text.len())
}

#[test]
fn groups_are_those_of_a_search_by_itself(rt: HostRuntime) -> Result<(), Fail> {
    assert!(rt; are_those_of_searches(rt.alloc(), &Anchored::No)?);
    assert!(rt; are_those_of_searches(rt.alloc(), &Anchored::Yes)?);
    Ok(())
}

// How many matches there are, and the last one.
fn last_match(
    alloc: Global,
    program: &Program<AsciiWord>,
    text: &[u8],
) -> Result<(usize, Option<Match>), Fail> {
    let mut captures = captures_of(alloc, program)?;
    let mut matches = Matches::new(alloc, program, Input::new(text))?;
    let mut count = 0_usize;
    let mut last = None;
    for _ in 0..text.len() {
        let Some(found) = matches.next(&mut captures)? else {
            break;
        };
        count = count.saturating_add(1);
        last = Some(found);
    }
    Ok((count, last))
}

#[test]
fn empty_matches_are_left_out_as_before(rt: HostRuntime) -> Result<(), Fail> {
    let program = far_or_empty(rt.alloc())?;
    let text = text_of(rt.alloc(), "é漢xx".as_bytes())?;
    let (count, last) = last_match(rt.alloc(), &program, text.as_slice())?;
    // One at each letter, before each of the two characters, and the last letters: the empty match behind these is left out.
    assert!(rt; count == LETTERS + 3);
    assert!(rt;
        last.map(|it| it.span())
            == Some(Span {
                start: LETTERS + 5,
                end: LETTERS + 7
            })
    );
    Ok(())
}

#[test]
fn a_match_far_ahead_is_found(rt: HostRuntime) -> Result<(), Fail> {
    let program = far_or_empty(rt.alloc())?;
    let text = text_of(rt.alloc(), b"-7")?;
    let (count, last) = last_match(rt.alloc(), &program, text.as_slice())?;
    // One at each letter and at the dash, and the digit.
    assert!(rt; count == LETTERS + 2);
    assert!(rt;
        last.map(|it| it.span())
            == Some(Span {
                start: LETTERS + 1,
                end: LETTERS + 2
            })
    );
    Ok(())
}
