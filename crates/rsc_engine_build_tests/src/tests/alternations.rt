//! Several patterns, as an alternation of Python's `re` has them: of all that match from the leftmost position the first is taken, however long
//! the others' matches are.

use rsc_captures::Captures;
use rsc_engine::{Builder, Error, Matches, Program};
use rsc_look::AsciiWord;
use rsc_search::Input;
use std::alloc::Global;
use std::test::Fail;

// A program of these texts, each a pattern.
fn program(alloc: Global, texts: &[&str]) -> Result<Program<AsciiWord>, Error> {
    let mut builder = Builder::new(alloc);
    let mut last = builder.never();
    for (index, text) in texts.iter().enumerate() {
        if index > 0 {
            builder.add_pattern(last)?;
        }
        last = builder.literal(text.as_bytes())?;
    }
    builder.build(AsciiWord, true, last)
}

// Whether these are the matches in a text: pattern, start, end.
fn are_all(
    alloc: Global,
    texts: &[&str],
    text: &str,
    wanted: &[(usize, usize, usize)],
) -> Result<bool, Error> {
    let program = program(alloc, texts)?;
    let mut captures = program.captures(alloc)?;
    let mut matches = Matches::new(alloc, &program, Input::new(text.as_bytes()))?;
    are_next(&mut matches, &mut captures, wanted)
}

// Whether these are the matches that are left.
fn are_next(
    matches: &mut Matches<'_, '_, AsciiWord>,
    captures: &mut Captures,
    wanted: &[(usize, usize, usize)],
) -> Result<bool, Error> {
    for one in wanted {
        let found = matches.next(captures)?;
        if found.map(|m| (m.pattern().as_usize(), m.start(), m.end())) != Some(*one) {
            return Ok(false);
        }
    }
    Ok(matches.next(captures)?.is_none())
}

#[test]
fn takes_the_first_of_several_patterns(rt: HostRuntime) -> Result<(), Fail> {
    let alloc = rt.alloc();
    // `a|ab|abc` and other orders, by Python 3.11
    assert!(rt; are_all(alloc, &["a", "ab", "abc"], "abcab", &[(0, 0, 1), (0, 3, 4)])?);
    assert!(rt;
        are_all(
            alloc,
            &["abc", "ab", "a"],
            "abcaba",
            &[(0, 0, 3), (1, 3, 5), (2, 5, 6)]
        )?
    );
    assert!(rt;
        are_all(
            alloc,
            &["ab", "abc", "a"],
            "abcaba",
            &[(0, 0, 2), (0, 3, 5), (2, 5, 6)]
        )?
    );
    Ok(())
}

#[test]
fn takes_the_leftmost_of_several_patterns(rt: HostRuntime) -> Result<(), Fail> {
    let alloc = rt.alloc();
    // `b|ab` and `c|b|bc`
    assert!(rt; are_all(alloc, &["b", "ab"], "abab", &[(1, 0, 2), (1, 2, 4)])?);
    assert!(rt; are_all(alloc, &["c", "b", "bc"], "abc", &[(1, 1, 2), (0, 2, 3)])?);
    Ok(())
}
